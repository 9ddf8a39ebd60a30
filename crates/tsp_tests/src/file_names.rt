//! A test that a file is made, laid out anew and written by the names that tsp_file re-exports.

use crate::asserts::{holds, same};
use std::alloc::Global;
use std::test::Fail;
use tsp_file::{
    CoordKind, DisplayKind, Draft, DraftFault, EndFault, Field, File, Kind, Layout, Output,
    RelayoutFault, WeightFormat, WeightKind, WriteFault, write_file,
};

/// One node with its weight to itself.
fn one_node(alloc: Global, weights: Vec<i64>) -> Draft {
    let mut draft = Draft::new(alloc);
    draft.kind = Some(Kind::Tsp);
    draft.dimension = Some(1);
    draft.weight_kind = Some(WeightKind::Explicit);
    draft.weight_format = Some(WeightFormat::Listed(Layout::FullMatrix));
    draft.coord_kind = Some(CoordKind::NoCoords);
    draft.display_kind = Some(DisplayKind::NoDisplay);
    draft.weights = Some(weights);
    draft
}

/// The fault of a draft, if it has one.
fn fault_of(draft: Draft) -> Option<DraftFault> {
    match File::of(draft) {
        Ok(_) => None,
        Err((fault, _)) => Some(fault),
    }
}

/// The file in another layout.
fn laid_out(alloc: Global, file: File, to: Layout) -> Result<File, RelayoutFault> {
    match file.relayout(alloc, to) {
        Ok(file) => Ok(file),
        Err((fault, _)) => Err(fault),
    }
}

/// What writing a file to memory returns.
fn written(alloc: Global, file: &File) -> Result<(), WriteFault> {
    let mut out = Output::new(Vec::new(alloc));
    write_file(alloc, file, &mut out)
}

#[test]
fn a_file_is_made_and_written_by_the_names_of_one_crate(rt: HostRuntime) -> Result<(), Fail> {
    let missing = DraftFault::Rule(EndFault::Missing(Field::TypeKey));
    same(&rt, fault_of(Draft::new(rt.alloc())), Some(missing));
    let weights = vec![in rt.alloc(); 0; 1]?;
    let Ok(file) = File::of(one_node(rt.alloc(), weights)) else {
        return Err(Fail::from("no file"));
    };
    let Ok(file) = laid_out(rt.alloc(), file, Layout::LowerDiagRow) else {
        return Err(Fail::from("no other layout"));
    };
    holds(&rt, written(rt.alloc(), &file).is_ok());
    Ok(())
}
