//! Tests of drafts that no text can give: a tour of the node 0, and a known keyword kept as an
//! unknown one. `File::of` has to refuse them.

use crate::asserts::same;
use crate::drafts_of_tests_support::tours;
use std::alloc::{AllocError, Global};
use std::process::Abort;
use std::test::Fail;
use tsp_file::{Draft, DraftFault, Field, File, Kind};

/// The fault of a draft, if it has one.
fn fault_of(draft: Draft) -> Option<DraftFault> {
    match File::of(draft) {
        Ok(_) => None,
        Err((fault, _)) => Some(fault),
    }
}

/// A file of tours whose one tour is the node 0, with this TYPE.
fn tour_of_zero(alloc: Global, kind: Option<Kind>) -> Result<Draft, AllocError> {
    let mut draft = tours(alloc, &[&[0]])?;
    draft.kind = kind;
    Ok(draft)
}

/// A file without tours that keeps NAME as an unknown keyword.
fn name_as_unknown(alloc: Global) -> Result<Draft, AllocError> {
    let mut others = Vec::new(alloc);
    others.push(name(alloc)?)?;
    let mut draft = Draft::new(alloc);
    draft.kind = Some(Kind::Tour);
    draft.tours = Some(Vec::new(alloc));
    draft.others = others;
    Ok(draft)
}

/// The keyword NAME and a value.
fn name(alloc: Global) -> Result<(Vec<u8>, Vec<u8>), AllocError> {
    let keyword = Vec::from_slice(alloc, b"NAME")?;
    let value = Vec::from_slice(alloc, b"x")?;
    Ok((keyword, value))
}

/// Asserts that a draft is refused for this field.
fn is_named(rt: &impl Abort, draft: Draft, field: Field) {
    same(rt, fault_of(draft), Some(DraftFault::BadField(field)));
}

#[test]
fn a_field_that_is_not_valid_is_named_first(rt: HostRuntime) -> Result<(), Fail> {
    let alloc = rt.alloc();
    is_named(&rt, tour_of_zero(alloc, Some(Kind::Tour))?, Field::TourPart);
    is_named(&rt, tour_of_zero(alloc, None)?, Field::TourPart);
    is_named(&rt, name_as_unknown(alloc)?, Field::OtherKey);
    Ok(())
}
