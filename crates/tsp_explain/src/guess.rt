//! Guesses what a faulty line or word was meant to be, such as a misspelled keyword.
//! `file_fault.rt` asks for a guess and prints it. A wrong guess can mislead a user, but changes no
//! answer.

use crate::groups::{Shift, push_shift};
use crate::look::{Look, first_run};
use crate::near::{in_capitals, keyword_in_capitals, nearest, nearest_keyword};
use crate::sentences::line_sentence;
use crate::text::{LinePart, push_line, push_lines};
use crate::wanted::{group, wanted};
use std::alloc::AllocError;
use tsp_format::{CoordKind, DisplayKind, Field, Kind, WeightFormat, WeightKind, Word, is_blank};
use tsp_number::NumberFault;
use tsp_text::{LineFault, ReadFault};

/// What explains a fault better than its rule does.
#[derive(Clone, Copy)]
pub(crate) enum Guess {
    /// A keyword in small letters.
    Letters(&'static str),
    /// A keyword that is nearly this one.
    Near(&'static str),
    /// A section that isn't read.
    Section,
    /// A word if this section wants a number.
    Numbers(Field),
    /// The node 0, in a file with this many nodes.
    Zero(i64),
    /// A group more than the file has nodes.
    Surplus(i64),
    /// A word of this section in the place of another one.
    Shifted(Field, Shift),
    /// A sign = in the place of the colon.
    Equals(Field),
    /// A keyword without a value.
    NoValue(Field),
    /// A value that is too long.
    LongValue(Field),
    /// A value in small letters.
    ValueLetters(Field, &'static str),
    /// A value that is nearly this one.
    ValueNear(Field, &'static str),
    /// Another value.
    Value(Field),
}

/// What explains a fault better than its rule does, if something does.
pub(crate) fn guess_at(look: &Look, fault: ReadFault) -> Option<Guess> {
    match fault {
        ReadFault::Line {
            line: _,
            word: _,
            fault,
        } => guess_of_line(look, fault),
        ReadFault::End(_) | ReadFault::OutOfMemory | ReadFault::Device | ReadFault::TooLong => None,
    }
}

/// What explains a line fault better than its rule does: first, that another line has others than
/// whole groups.
fn guess_of_line(look: &Look, fault: LineFault) -> Option<Guess> {
    match (fault, look.field, look.shift) {
        (
            LineFault::Number(_) | LineFault::RepeatedNode | LineFault::Surplus,
            Some(field),
            Some(shift),
        ) => Some(Guess::Shifted(field, shift)),
        _ => guess_of_place(look, fault),
    }
}

/// What explains a line fault if each word is in its place.
fn guess_of_place(look: &Look, fault: LineFault) -> Option<Guess> {
    let marked = look.excerpt.marked();
    match fault {
        LineFault::UnknownLine => guess_of_word(look),
        LineFault::BadValue => Some(guess_of_value(marked, look.field.unwrap_or(Field::OtherKey))),
        LineFault::Number(NumberFault::OutOfRange)
            if marked == b"0".as_slice() && is_by_node(look.field) => {
            look.dimension.map(Guess::Zero)
        }
        LineFault::Surplus if is_by_node(look.field) && !(marked == b"EOF".as_slice()) => {
            look.dimension.map(Guess::Surplus)
        }
        LineFault::Number(_) if has_equals(marked) => look.field.map(Guess::Equals),
        _ => None,
    }
}

/// Whether a section has a group for each node.
fn is_by_node(field: Option<Field>) -> bool {
    match field {
        Some(field) => group(field, false).is_some(),
        None => false,
    }
}

/// What a line with an unknown word was meant as.
fn guess_of_word(look: &Look) -> Option<Guess> {
    let (word, _) = first_run(look.excerpt.marked());
    if let Some(known) = keyword_in_capitals(word) {
        return Some(Guess::Letters(known));
    }
    if let Some(known) = nearest_keyword(word) {
        return Some(Guess::Near(known));
    }
    if word.ends_with(b"_SECTION") {
        return Some(Guess::Section);
    }
    match look.open {
        Some(field) if field.shape(false).is_some() => Some(Guess::Numbers(field)),
        Some(_) | None => None,
    }
}

/// Whether a line has a sign = in the place of the colon.
fn has_equals(line: &[u8]) -> bool {
    let (keyword, rest) = first_run(line);
    !keyword.is_empty() && after_marks(rest).starts_with(b"=")
}

/// What is wrong with the value of a keyword.
fn guess_of_value(line: &[u8], field: Field) -> Guess {
    let (_, rest) = first_run(line);
    let value = first_word(after_marks(rest));
    match field {
        Field::NameKey | Field::CommentKey | Field::OtherKey => Guess::LongValue(field),
        _ if value.is_empty() => Guess::NoValue(field),
        _ if has_equals(line) => Guess::Equals(field),
        Field::TypeKey => guess_of::<Kind>(field, value),
        Field::EdgeWeightTypeKey => guess_of::<WeightKind>(field, value),
        Field::EdgeWeightFormatKey => guess_of::<WeightFormat>(field, value),
        Field::NodeCoordTypeKey => guess_of::<CoordKind>(field, value),
        Field::DisplayDataTypeKey => guess_of::<DisplayKind>(field, value),
        _ => Guess::Value(field),
    }
}

/// The likely meaning of a value that isn't one of a list of words.
fn guess_of<W: Word>(field: Field, value: &[u8]) -> Guess {
    if let Some(known) = in_capitals::<W>(value) {
        return Guess::ValueLetters(field, known);
    }
    match nearest::<W>(value) {
        Some(known) => Guess::ValueNear(field, known),
        None => Guess::Value(field),
    }
}

/// What follows the blanks and colons at the front.
fn after_marks(text: &[u8]) -> &[u8] {
    'bytes: for (index, byte) in text.iter().enumerate() {
        if !is_blank(*byte) && *byte != b':' {
            return &text[index..];
        }
    }
    &[]
}

/// The bytes up to the first blank.
fn first_word(text: &[u8]) -> &[u8] {
    'bytes: for (index, byte) in text.iter().enumerate() {
        if is_blank(*byte) {
            return &text[..index];
        }
    }
    text
}

/// Appends what explains the fault.
pub(crate) fn push_guess(
    text: &mut Vec<u8>,
    guess: Guess,
    look: &Look,
    fault: LineFault,
) -> Result<(), AllocError> {
    push_rule(text, guess, fault)?;
    match guess {
        Guess::Letters(known) => push_with(
            text,
            IN_CAPITALS,
            known,
            ". The recipe tidy.awk writes all of them so.",
        ),
        Guess::Near(known) | Guess::ValueNear(_, known) => {
            push_with(text, "Did you mean ", known, "?")
        }
        Guess::Section => push_unread(text, look),
        Guess::Numbers(field) => push_open(text, field, look.dimension),
        Guess::Zero(nodes) => push_number_in(
            text,
            "A node is 1 to DIMENSION (",
            nodes,
            "). Nodes count from 1.",
        ),
        Guess::Surplus(nodes) => push_surplus(text, nodes),
        Guess::Shifted(field, shift) => push_shift(text, field, shift),
        Guess::Equals(_) => push_lines(text, "Put a colon in the place of the =."),
        Guess::ValueLetters(_, known) => push_with(text, VALUE_IN_CAPITALS, known, "."),
        Guess::NoValue(_) | Guess::LongValue(_) | Guess::Value(_) => Ok(()),
    }
}

/// Appends the rule that the line breaks.
fn push_rule(text: &mut Vec<u8>, guess: Guess, fault: LineFault) -> Result<(), AllocError> {
    match guess {
        Guess::Letters(_) | Guess::Near(_) | Guess::Section | Guess::Numbers(_) => {
            push_lines(text, UNKNOWN)
        }
        Guess::Zero(_) | Guess::Surplus(_) | Guess::Shifted(..) => {
            push_lines(text, line_sentence(fault))
        }
        Guess::NoValue(field) => push_value(text, "The keyword has no value here.", field),
        Guess::LongValue(field) => push_value(text, "The value has too many bytes.", field),
        Guess::Value(field)
        | Guess::Equals(field)
        | Guess::ValueLetters(field, _)
        | Guess::ValueNear(field, _) => {
            push_value(text, "The keyword doesn't take this value.", field)
        }
    }
}

const IN_CAPITALS: &str = "Keywords are written in capital letters: ";

const VALUE_IN_CAPITALS: &str = "Values are written in capital letters: ";

/// The rule of a line that begins with an unknown word.
pub(crate) const UNKNOWN: &str =
    "The line begins with a word that is no keyword of TSPLIB 95, and no colon follows that word.";

/// Appends a line with a word between others.
fn push_with<'a>(
    text: &mut Vec<u8>,
    before: &'a str,
    word: &'a str,
    after: &'a str,
) -> Result<(), AllocError> {
    push_line(
        text,
        &[
            LinePart::Words(before),
            LinePart::Words(word),
            LinePart::Words(after),
        ],
    )
}

/// Appends a line with a number between words.
fn push_number_in<'a>(
    text: &mut Vec<u8>,
    before: &'a str,
    number: i64,
    after: &'a str,
) -> Result<(), AllocError> {
    push_line(
        text,
        &[
            LinePart::Words(before),
            LinePart::Number(number),
            LinePart::Words(after),
        ],
    )
}

/// Appends that the section of a line isn't read.
fn push_unread(text: &mut Vec<u8>, look: &Look) -> Result<(), AllocError> {
    let (word, _) = first_run(look.excerpt.marked());
    push_line(
        text,
        &[
            LinePart::Shown(word),
            LinePart::Words(" is a section that isn't read."),
        ],
    )
}

/// What a section of nodes wants that is open.
const OPEN_FOR_NODES: &str = " is open: a node is a whole number from 1 to DIMENSION";

/// Appends what a section that is open wants in place of a word.
fn push_open(text: &mut Vec<u8>, field: Field, nodes: Option<i64>) -> Result<(), AllocError> {
    let section = field.word();
    match (field, nodes) {
        (Field::EdgeWeightPart, _) => {
            push_with(text, section, " is open: a weight is a whole number", ".")
        }
        (_, None) => push_with(text, section, OPEN_FOR_NODES, "."),
        (_, Some(nodes)) => push_line(
            text,
            &[
                LinePart::Words(section),
                LinePart::Words(OPEN_FOR_NODES),
                LinePart::Words(" ("),
                LinePart::Number(nodes),
                LinePart::Words(")."),
            ],
        ),
    }
}

/// Appends that a group is one more than the file has nodes.
fn push_surplus(text: &mut Vec<u8>, nodes: i64) -> Result<(), AllocError> {
    push_line(
        text,
        &[
            LinePart::Words("DIMENSION is "),
            LinePart::Number(nodes),
            LinePart::Words(", and this begins group "),
            LinePart::Number(nodes.saturating_add(1)),
            LinePart::Words("."),
        ],
    )
}

/// Appends what is wrong with a value, and which ones the keyword takes.
fn push_value(text: &mut Vec<u8>, sentence: &str, field: Field) -> Result<(), AllocError> {
    push_lines(text, sentence)?;
    push_lines(text, wanted(field))
}
