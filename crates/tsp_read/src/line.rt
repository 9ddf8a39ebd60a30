//! A line that begins with a keyword: `CutLine` divides it into keyword, colon and value, reads the
//! value, and sets a field of the draft. `items.rt` and `reading.rt` call it. `cut_item`,
//! `SetsNamed` and the definitions next to them in `specs/states/Holds.antt` pin each step.

ghost use Rattle.tsp_read.specs.Prelude.{position, prefix_len, option_map, cond, drop, not, map, IfOk, is_blank, is_keyword_byte, is_too_long_to_keep, line_item, first_word, keyword_in, is_colon, begins, without_start, without_end, is_left_out, says_space};
ghost use Rattle.std.specs.Prelude.{◌≡◌};
ghost use Rattle.tsp_format.specs.declared.keyword.Field.TheVariants.{EdgeWeightTypeKey};
ghost use Rattle.tsp_text.specs.declared.fault.LineFault.TheVariants.{Number};
ghost use Rattle.tsp_read.specs.declared.step_fault.StepFault.TheVariants.{Fault};
ghost use Rattle.tsp_read.specs.states.Holds.{cut_item, NamesValue, GivesNumber, MayOpen, seen, SetsNamed, SetsName, AddsComment, AddsOther};

use crate::step_fault::StepFault;
use std::alloc::Global;
use tsp_format::{
    CoordKind, Field, Keyword, MOST_COMMENTS, MOST_KEPT_BYTES, MOST_MATRIX_NODES, MOST_OTHERS,
    Shape, WeightKind, Word, is_blank, is_keyword_byte, value_of,
};
use tsp_io::{Refused, copied, push};
use tsp_number::parse_whole;
use tsp_text::LineFault;

/// A word line, cut into its parts.
#[derive(Clone, Copy)]
pub struct CutLine<'a> {
    /// Its number of bytes, from the first that isn't blank to the end of the line.
    pub size: usize,
    /// The keyword.
    pub key: Keyword,
    /// The bytes of the keyword.
    pub keyword: &'a [u8],
    /// Whether a colon follows the keyword.
    pub has_colon: bool,
    /// The value, without blanks at either end.
    pub value: &'a [u8],
}

/// Where the keyword at the front of a line ends.
#[inline(always)]
fn keyword_end(text: &[u8]) -> Option<usize>
    ensures { result ≡ position (λ b. not (is_keyword_byte b)) text.now }
{
    text.iter().position(|byte| !is_keyword_byte(*byte))
}

/// The keyword at the front of a word line, and the rest.
fn split_keyword(text: &[u8]) -> (&[u8], &[u8])
    ensures keyword { result.0.now ≡ keyword_in text.now }
    ensures rest { result.1.now ≡ drop (prefix_len is_keyword_byte text.now) text.now }
{
    match keyword_end(text) {
        Some(end) => text.split_at(end),
        None => text.split_at(text.len()),
    }
}

/// Whether the text begins with a colon, and what follows it; the whole text if there is none.
fn split_colon(text: &[u8]) -> (bool, &[u8])
    ensures colon { result.0 ≡ begins is_colon text.now }
    ensures rest { result.1.now ≡ drop (cond (begins is_colon text.now) 1 0) text.now }
{
    match text.split_first() {
        Some((b':', rest)) => (true, rest),
        _ => (false, text),
    }
}

impl<'a> CutLine<'a> {
    /// The parts of a word line, given from its first byte that isn't blank to its end.
    pub fn of(text: &'a [u8]) -> CutLine<'a>
        ensures { cut_item result ≡ line_item text.now }
    {
        let (keyword, rest) = split_keyword(text);
        let (has_colon, value) = split_colon(without_start(rest));
        CutLine {
            size: text.len(),
            key: Keyword::of(keyword),
            keyword,
            has_colon,
            value: without_end(without_start(value)),
        }
    }
}

/// Where the first blank in a value is.
fn first_blank(value: &[u8]) -> Option<usize>
    ensures { result ≡ position is_blank value.now }
{
    value.iter().position(|byte| is_blank(*byte))
}

/// The first word of a value; empty if the value is.
fn first_word(value: &[u8]) -> &[u8]
    ensures { result.now ≡ first_word value.now }
{
    match first_blank(value) {
        Some(end) if end <= value.len() => {
            let (word, _) = value.split_at(end);
            word
        }
        _ => value,
    }
}

/// Whether a word is a value of TSPLIB 95 that this profile leaves out for the keyword.
fn is_left_out(field: Field, word: &[u8]) -> bool
    ensures { result ≡ is_left_out field word.now }
{
    match field {
        Field::TypeKey => word == b"SOP".as_slice() || word == b"HCP".as_slice(),
        Field::EdgeWeightTypeKey => is_weight_kind_left_out(word),
        _ => false,
    }
}

/// Whether a word is a weight type of TSPLIB 95 that this profile leaves out.
fn is_weight_kind_left_out(word: &[u8]) -> bool
    ensures { result ≡ is_left_out EdgeWeightTypeKey word.now }
{
    word == b"GEO".as_slice()
        || word == b"XRAY1".as_slice()
        || word == b"XRAY2".as_slice()
        || word == b"SPECIAL".as_slice()
}

/// Whether a keyword's line says that the nodes have three coordinates.
pub fn says_space(field: Field, value: &[u8]) -> bool
    ensures { result ≡ says_space field (first_word value.now) }
{
    match field {
        Field::EdgeWeightTypeKey => match value_of::<WeightKind>(first_word(value)) {
            Some(kind) => kind.weighs_three(),
            None => false,
        },
        Field::NodeCoordTypeKey => match value_of::<CoordKind>(first_word(value)) {
            Some(CoordKind::ThreeD) => true,
            _ => false,
        },
        _ => false,
    }
}

/// The value of a keyword that the first word of its line's value names.
fn named<V: Word>(field: Field, value: &[u8]) -> Result<V, LineFault>
    ensures { NamesValue V.text V.values field (first_word value.now) result }
{
    let word = first_word(value);
    if is_left_out(field, word) {
        return Err(LineFault::Outside);
    }
    match value_of::<V>(word) {
        Some(value) => Ok(value),
        None => Err(LineFault::BadValue),
    }
}

/// The number in the line of a keyword that hasn't come yet.
///
/// # Errors
///
/// The keyword has come before (`Repeated`), the line has no value (`BadValue`), or its first word
/// isn't a whole number from `low` to `high` (`Number`).
pub fn number_of(stands: bool, value: &[u8], low: i64, high: i64) -> Result<i64, LineFault>
    ensures { GivesNumber stands low high value.now result }
{
    if stands {
        return Err(LineFault::Repeated);
    }
    if value.is_empty() {
        return Err(LineFault::BadValue);
    }
    match parse_whole(first_word(value), low, high) {
        Ok(number) => Ok(number),
        Err(fault) => Err(LineFault::Number(fault)),
    }
}

/// The number of nodes for a section of this shape that a line may open: it hasn't come yet, its
/// line has no value, and, except for tours, DIMENSION came before. For tours without DIMENSION the
/// result is 0.
///
/// # Errors
///
/// The section has come before (`Repeated`), its line has a value (`SectionValue`), DIMENSION
/// hasn't come (`SectionEarly`), or the file has more nodes than a matrix may have
/// (`TooManyNodes`).
pub fn may_open(
    shape: Shape,
    stands: bool,
    value: &[u8],
    dimension: Option<u32>,
) -> Result<u32, LineFault>
    ensures { MayOpen shape stands value.now dimension result }
{
    if stands {
        return Err(LineFault::Repeated);
    }
    if !value.is_empty() {
        return Err(LineFault::SectionValue);
    }
    match dimension {
        None if shape != Shape::Tours => Err(LineFault::SectionEarly),
        None => Ok(0),
        Some(nodes) if shape == Shape::Weights && nodes > MOST_MATRIX_NODES => {
            Err(LineFault::TooManyNodes)
        }
        Some(nodes) => Ok(nodes),
    }
}

// ---- texts without the blanks at their ends

/// Where the first byte that isn't blank is.
#[inline(always)]
fn first_filled(text: &[u8]) -> Option<usize>
    ensures { result ≡ position (λ b. not (is_blank b)) text.now }
{
    text.iter().position(|byte| !is_blank(*byte))
}

/// A text without blanks at its front.
#[inline(always)]
#[tactic(auto, using(crate::proofs::ListSteps::start_none, crate::proofs::ListSteps::start_some, crate::proofs::ListSteps::position_within))]
pub fn without_start(text: &[u8]) -> &[u8]
    ensures { result.now ≡ without_start text.now }
{
    match first_filled(text) {
        Some(start) => text.split_at(start).1,
        None => text.split_at(text.len()).1,
    }
}

/// A text without blanks at its end.
#[tactic(auto, using(tsp_text::proofs::SettledItems::end_blank, tsp_text::proofs::SettledItems::end_filled, tsp_text::proofs::SettledItems::end_none))]
fn without_end(text: &[u8]) -> &[u8]
    ensures { result.now ≡ without_end text.now }
{
    let mut front = text;
    while let Some((last, shorter)) = front.split_last() {
        if !is_blank(*last) {
            return front;
        }
        front = shorter;
    }
    front
}

// ---- set a field of the draft by a keyword line

/// Sets the value that a line names, if none is set yet. `late` says that the value would come too
/// late.
///
/// # Errors
///
/// `Fault`: one is set (`Repeated`), the first word is a value of TSPLIB 95 that is left out
/// (`Outside`) or that the keyword doesn't accept (`BadValue`), or it comes too late (`LateSpace`).
pub fn set_named<V: Word + Drop>(
    slot: &mut Option<V>,
    field: Field,
    value: &[u8],
    late: bool,
) -> Result<(), StepFault>
    ensures { SetsNamed V.text V.values field (first_word value.now) late slot.old slot.new result }
{
    if slot.is_some() {
        return Err(StepFault::Fault(LineFault::Repeated));
    }
    match named::<V>(field, value) {
        Ok(_) if late => Err(StepFault::Fault(LineFault::LateSpace)),
        Ok(value) => {
            *slot = Some(value);
            Ok(())
        }
        Err(fault) => Err(StepFault::Fault(fault)),
    }
}

/// Whether a line's keyword and value together have more bytes than are kept.
fn is_too_long_to_keep(line: &CutLine<'_>) -> bool
    ensures { result ≡ is_too_long_to_keep (seen line.now) }
{
    line.keyword.len() > MOST_KEPT_BYTES || line.value.len() > MOST_KEPT_BYTES - line.keyword.len()
}

/// Sets the name, if none is set yet.
///
/// # Errors
///
/// - `Fault`: one is set (`Repeated`), or the line is too long to be kept (`BadValue`).
/// - `Memory`: out of memory.
///
/// The slot is then as it was.
pub fn set_name(
    alloc: Global,
    slot: &mut Option<Vec<u8>>,
    line: &CutLine<'_>,
) -> Result<(), StepFault>
    ensures { SetsName (seen line.now) (option_map (λ name. name.items) slot.old)
        (option_map (λ name. name.items) slot.new) result }
{
    if slot.is_some() {
        return Err(StepFault::Fault(LineFault::Repeated));
    }
    if is_too_long_to_keep(line) {
        return Err(StepFault::Fault(LineFault::BadValue));
    }
    *slot = Some(copied(alloc, line.value)?);
    Ok(())
}

/// Adds the value of a COMMENT line to those before it.
///
/// # Errors
///
/// - `Fault`: the line is too long to be kept (`BadValue`), or there are as many comments as a file
///   may have (`Surplus`).
/// - `Memory`: out of memory.
///
/// The comments are then as they were.
pub fn add_comment(
    alloc: Global,
    comments: &mut Vec<Vec<u8>>,
    line: &CutLine<'_>,
) -> Result<(), StepFault>
    ensures { AddsComment (seen line.now) (map (λ comment. comment.items) comments.old.items)
        (map (λ comment. comment.items) comments.new.items) result }
{
    if is_too_long_to_keep(line) {
        return Err(StepFault::Fault(LineFault::BadValue));
    }
    if comments.len() >= MOST_COMMENTS {
        return Err(StepFault::Fault(LineFault::Surplus));
    }
    push(comments, copied(alloc, line.value)?)?;
    Ok(())
}

/// Adds the line of an unknown keyword.
///
/// # Errors
///
/// - `Fault`: no colon follows the keyword (`UnknownLine`), the line is too long to be kept
///   (`BadValue`), or there are as many such lines as a file may have (`Surplus`).
/// - `Memory`: out of memory.
///
/// The lines are then as they were.
pub fn add_other(
    alloc: Global,
    others: &mut Vec<(Vec<u8>, Vec<u8>)>,
    line: &CutLine<'_>,
) -> Result<(), StepFault>
    ensures { AddsOther (seen line.now)
        (map (λ other. (other.0.items, other.1.items)) others.old.items)
        (map (λ other. (other.0.items, other.1.items)) others.new.items) result }
{
    if !line.has_colon {
        return Err(StepFault::Fault(LineFault::UnknownLine));
    }
    if is_too_long_to_keep(line) {
        return Err(StepFault::Fault(LineFault::BadValue));
    }
    if others.len() >= MOST_OTHERS {
        return Err(StepFault::Fault(LineFault::Surplus));
    }
    push(others, kept(alloc, line)?)?;
    Ok(())
}

/// The keyword and the value of a line.
fn kept(alloc: Global, line: &CutLine<'_>) -> Result<(Vec<u8>, Vec<u8>), Refused>
    ensures { IfOk result (λ other. (other.0.items ≡ line.now.keyword.now)
        × (other.1.items ≡ line.now.value.now)) }
{
    let keyword = copied(alloc, line.keyword)?;
    let value = copied(alloc, line.value)?;
    Ok((keyword, value))
}
