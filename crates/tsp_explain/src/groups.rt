//! Finds the first line with incomplete groups, in sections that have a group of words for each
//! node. `look.rt` counts the words, and `file_fault.rt` and `guess.rt` print what they show.

use crate::text::{LinePart, push_line, push_lines};
use crate::wanted::group;
use std::alloc::AllocError;
use tsp_format::{Field, Word};

/// The groups of a section, as far as it is seen.
#[derive(Clone, Copy)]
pub(crate) struct Groups {
    /// How many words a group has; 0 if the section has no groups.
    size: u64,
    /// How many words of a group came before the line that is being read.
    begun: u32,
    /// How many lines have others than whole groups.
    uneven: u32,
    /// The first of these lines, and how many words it has.
    line: u32,
    words: u32,
}

/// A line that has others than whole groups, after which words are read in the places of others.
#[derive(Clone, Copy)]
pub(crate) struct Shift {
    /// How many words a group has.
    size: u64,
    line: u32,
    /// How many words the line has.
    words: u32,
    /// How many words of its group come before the word that was looked for.
    before: u32,
}

impl Groups {
    /// No groups.
    pub(crate) fn none() -> Groups {
        Groups {
            size: 0,
            begun: 0,
            uneven: 0,
            line: 0,
            words: 0,
        }
    }

    /// The groups of a section that begins, in a spatial file or in another.
    pub(crate) fn of(field: Field, is_spatial: bool) -> Groups {
        Groups {
            size: group(field, is_spatial).unwrap_or(0),
            ..Groups::none()
        }
    }

    /// Takes a line with this number and as many words.
    pub(crate) fn take(&mut self, line: u32, words: u32) {
        if rest_of(words, self.size) > 0 {
            if self.uneven == 0 {
                self.line = line;
                self.words = words;
            }
            self.uneven = self.uneven.saturating_add(1);
        }
        self.begun = rest_of(self.begun.saturating_add(words), self.size);
    }

    /// The only line so far that has others than whole groups. If there are several, groups
    /// aren't lines of this section.
    pub(crate) fn shift(&self) -> Option<Shift> {
        if self.uneven == 1 {
            Some(self.shift_at(self.line, self.words, 0))
        } else {
            None
        }
    }

    /// The line after which, or in which, a word of the next line is read in the place of another
    /// one. That line has this number and as many words.
    pub(crate) fn shift_of(&self, line: u32, words: u32, word: u32) -> Option<Shift> {
        let before = rest_of(self.begun.saturating_add(word).saturating_sub(1), self.size);
        if self.uneven == 1 {
            Some(self.shift_at(self.line, self.words, before))
        } else if self.uneven == 0 && u64::from(word) > self.size && rest_of(words, self.size) > 0 {
            Some(self.shift_at(line, words, before))
        } else {
            None
        }
    }

    fn shift_at(&self, line: u32, words: u32, before: u32) -> Shift {
        Shift {
            size: self.size,
            line,
            words,
            before,
        }
    }
}

/// How many words are left over by whole groups of this size: 2, 3 or 4, or 0 for no groups.
fn rest_of(words: u32, size: u64) -> u32 {
    match size {
        2 => words % 2,
        3 => words % 3,
        4 => words % 4,
        _ => 0,
    }
}

/// Appends which line has others than whole groups.
pub(crate) fn push_uneven(
    text: &mut Vec<u8>,
    field: Field,
    shift: Shift,
) -> Result<(), AllocError> {
    push_line(
        text,
        &[
            LinePart::Words("A group of "),
            LinePart::Words(field.word()),
            LinePart::Words(" has "),
            LinePart::Number(i64::try_from(shift.size).unwrap_or(i64::MAX)),
            LinePart::Words(" words, but line "),
            LinePart::Number(i64::from(shift.line)),
            LinePart::Words(" has "),
            LinePart::Number(i64::from(shift.words)),
            LinePart::Words("."),
        ],
    )
}

/// Appends which line has others than whole groups, and as what the word is read therefore.
pub(crate) fn push_shift(text: &mut Vec<u8>, field: Field, shift: Shift) -> Result<(), AllocError> {
    push_uneven(text, field, shift)?;
    if shift.before == 0 {
        return push_lines(text, "So this word is read as a node.");
    }
    push_line(
        text,
        &[
            LinePart::Words("So this word is read as word "),
            LinePart::Number(i64::from(shift.before).saturating_add(1)),
            LinePart::Words(" of a group."),
        ],
    )
}
