//! The part of a line of a file that `--explain` prints, with marks below the bytes at fault.
//! `look.rt` fills it, and `file_fault.rt` prints it.

use crate::text::{LinePart, begin, end, push, push_line};
use arrayvec::ArrayVec;
use std::alloc::AllocError;

/// The part of a line that is shown: what the fault is said of, and some bytes before and after it.
#[derive(Drop)]
pub(crate) struct Excerpt {
    before: ArrayVec<u8, 40>,
    marked: ArrayVec<u8, 72>,
    after: ArrayVec<u8, 24>,
    /// Whether bytes of the line are left out before, inside and after it.
    cuts: (bool, bool, bool),
}

impl Excerpt {
    /// An excerpt with no byte yet.
    pub(crate) fn new() -> Excerpt {
        Excerpt {
            before: ArrayVec::new(),
            marked: ArrayVec::new(),
            after: ArrayVec::new(),
            cuts: (false, false, false),
        }
    }

    /// Takes the line's next byte, which the fault is said of if it is marked.
    pub(crate) fn take(&mut self, byte: u8, is_marked: bool) {
        if is_marked {
            self.cuts.1 = self.marked.try_push(byte).is_err() || self.cuts.1;
        } else if self.marked.is_empty() {
            self.take_before(byte);
        } else {
            self.cuts.2 = self.after.try_push(byte).is_err() || self.cuts.2;
        }
    }

    /// Takes a byte before the marked ones. If the excerpt is full, the bytes before it are left
    /// out.
    fn take_before(&mut self, byte: u8) {
        if self.before.is_full() {
            self.before.clear();
            self.cuts.0 = true;
        }
        let _ = self.before.try_push(byte);
    }

    /// The bytes of the line that the fault is said of.
    pub(crate) fn marked(&self) -> &[u8] {
        self.marked.as_slice()
    }

    /// The bytes after the marked ones.
    pub(crate) fn after(&self) -> &[u8] {
        self.after.as_slice()
    }

    /// Appends the line's text, and below it marks under a word.
    pub(crate) fn push_to(&self, text: &mut Vec<u8>, is_word: bool) -> Result<(), AllocError> {
        push_line(
            text,
            &[
                LinePart::Words("  "),
                LinePart::Words(dots(self.cuts.0)),
                LinePart::Shown(self.before.as_slice()),
                LinePart::Shown(self.marked.as_slice()),
                LinePart::Words(dots(self.cuts.1)),
                LinePart::Shown(self.after.as_slice()),
                LinePart::Words(dots(self.cuts.2)),
            ],
        )?;
        if is_word {
            self.push_marks(text)
        } else {
            Ok(())
        }
    }

    /// Appends a line of marks below the marked bytes.
    fn push_marks(&self, text: &mut Vec<u8>) -> Result<(), AllocError> {
        begin(text)?;
        push(text, if self.cuts.0 { "     " } else { "  " })?;
        push_blanks(text, self.before.as_slice())?;
        push_carets(text, self.marked.as_slice())?;
        end(text)
    }
}

/// Three dots where bytes are left out.
fn dots(is_cut: bool) -> &'static str {
    if is_cut { "..." } else { "" }
}

/// Appends as many blanks as the bytes take columns when shown. A tab stays one, so that the text
/// after it is in the same column.
fn push_blanks(text: &mut Vec<u8>, bytes: &[u8]) -> Result<(), AllocError> {
    'bytes: for byte in bytes {
        match *byte {
            9 => push(text, "\t")?,
            byte => push_times(text, b' ', columns(byte))?,
        }
    }
    Ok(())
}

/// Appends as many marks as bytes take columns.
fn push_carets(text: &mut Vec<u8>, bytes: &[u8]) -> Result<(), AllocError> {
    'bytes: for byte in bytes {
        push_times(text, b'^', columns(*byte))?;
    }
    Ok(())
}

/// Appends a sign this many times.
fn push_times(text: &mut Vec<u8>, sign: u8, count: u8) -> Result<(), AllocError> {
    'times: for _ in 0..count {
        text.extend_from_slice(&[sign])?;
    }
    Ok(())
}

/// How many columns a byte takes that is shown and is no tab.
fn columns(byte: u8) -> u8 {
    match byte {
        0..=31 | 127 => 2,
        32..=126 => 1,
        160..=254 => 3,
        128..=159 | 255 => 4,
    }
}
