//! Cuts a text into lines and words with their places, for the readers of all forms. The places are
//! printed with faults.

ghost use Rattle.std.specs.Prelude.{◌≡◌};
ghost use Rattle.tsp_solution.specs.declared.fault.SolutionFault.TheVariants.{Place as PlaceFault};

use crate::fault::{FormFault, SolutionFault};
use tsp_format::is_blank;
use tsp_number::{NumberFault, parse_whole};

/// The largest number that is read. LKH-3's copies of the depot have numbers above those of all
/// nodes.
const MOST_NUMBER: i64 = 1_000_000;

/// The place of a word: its line and its number there, both from 1 on.
#[derive(Clone, Copy, Debug, PartialEq, Eq)]
pub(crate) struct Place {
    pub(crate) line: u32,
    pub(crate) word: u32,
}

impl Place {
    /// The first word of a text.
    pub(crate) fn first() -> Place
        ensures { (result.line ≡ 1) × (result.word ≡ 1) }
    {
        Place::of_line(1)
    }

    /// The first word of a line.
    pub(crate) fn of_line(line: u32) -> Place
        ensures { (result.line ≡ line) × (result.word ≡ 1) }
    {
        Place { line, word: 1 }
    }

    /// The next word of the line.
    pub(crate) fn next(self) -> Place {
        Place {
            line: self.line,
            word: self.word.saturating_add(1),
        }
    }

    /// A fault at this place.
    pub(crate) fn fault(self, fault: FormFault) -> SolutionFault
        ensures { result ≡ PlaceFault self.line self.word fault }
    {
        SolutionFault::Place {
            line: self.line,
            word: self.word,
            fault,
        }
    }
}

/// Whether a byte stands between words.
pub(crate) fn is_mark(byte: u8) -> bool {
    is_blank(byte) || is_list_mark(byte)
}

/// Whether a byte is a comma, a bracket or a quotation mark, or the like.
fn is_list_mark(byte: u8) -> bool {
    matches!(
        byte,
        b',' | b';' | b':' | b'[' | b']' | b'(' | b')' | b'{' | b'}' | b'"'
    )
}

/// The number that a word at a place is. It may have a point and an exponent, as numpy writes it:
/// `1.000e+00`.
///
/// # Errors
///
/// `NotANode` if the word isn't a whole number, `OutOfRange` if it is one below 0 or above any
/// node's.
pub(crate) fn number_of(word: &[u8], place: Place) -> Result<u32, SolutionFault> {
    match parse_whole(word, 0, MOST_NUMBER) {
        Ok(number) => Ok(number as u32),
        Err(NumberFault::OutOfRange) => Err(place.fault(FormFault::OutOfRange)),
        Err(_) => Err(place.fault(FormFault::NotANode)),
    }
}

/// The words of a line that are no numbers, or the number of a word: whether each byte of a word
/// may stand in a name of a column.
pub(crate) fn is_name(word: &[u8]) -> bool {
    match word.first() {
        Some(byte) => !byte.is_ascii_digit() && !matches!(*byte, b'-' | b'+' | b'.'),
        None => false,
    }
}

/// What follows the blanks at the beginning of a line.
pub(crate) fn without_blanks(line: &[u8]) -> &[u8] {
    'bytes: for (index, byte) in line.iter().enumerate() {
        if !is_blank(*byte) {
            return &line[index..];
        }
    }
    &[]
}

/// The digits that a text begins with, and the rest.
pub(crate) fn split_digits(text: &[u8]) -> (&[u8], &[u8]) {
    'bytes: for (index, byte) in text.iter().enumerate() {
        if !byte.is_ascii_digit() {
            return (&text[..index], &text[index..]);
        }
    }
    (text, &[])
}

/// What follows a prefix in a text that begins with it, in capital or small letters.
pub(crate) fn after_prefix<'a>(text: &'a [u8], prefix: &[u8]) -> Option<&'a [u8]> {
    if text.len() < prefix.len() {
        return None;
    }
    let (front, rest) = text.split_at(prefix.len());
    if is_equal_in_any_case(front, prefix) {
        Some(rest)
    } else {
        None
    }
}

/// Whether two texts are equal in capital or small letters.
fn is_equal_in_any_case(one: &[u8], other: &[u8]) -> bool {
    if one.len() != other.len() {
        return false;
    }
    'bytes: for (byte, wanted) in one.iter().zip(other.iter()) {
        if byte.to_ascii_lowercase() != wanted.to_ascii_lowercase() {
            return false;
        }
    }
    true
}

/// Whether a text has these two bytes, one after the other.
pub(crate) fn has_pair(text: &[u8], first: u8, second: u8) -> bool {
    let mut before = 0u8;
    'bytes: for byte in text {
        if before == first && *byte == second {
            return true;
        }
        before = *byte;
    }
    false
}
