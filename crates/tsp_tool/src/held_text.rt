//! `HeldText`: the text of a solution in memory, which `compare --form` gives to tsp_judge in place
//! of the solution's file. `form_comparison.rt` makes it.

ghost use Rattle.std.specs.Prelude.{◌≤◌, length};

use std::alloc::Global;
use std::io::{self, ErrorKind, Read};

/// A text in memory that can be read once.
#[derive(Drop)]
pub struct HeldText {
    text: Vec<u8>,
    /// How many of its bytes were read.
    taken: usize,
    /// Whether each read fails, because the device of the file failed.
    fails: bool,
    ghost within: { taken ≤ length text.items },
}

impl HeldText {
    ghost use Rattle.std.specs.Prelude.{◌≡◌, [], true, false};
    ghost use Rattle.tsp_tool.specs.states.HeldText.{fails_of, rest_of};

    /// This text, unread.
    pub(crate) fn of(text: Vec<u8>) -> HeldText
        ensures rest { rest_of result ≡ text.items }
        ensures sound { fails_of result ≡ false }
    {
        HeldText {
            text,
            taken: 0,
            fails: false,
        }
    }

    /// The text of a file whose device failed: it has no bytes, and each read fails.
    pub(crate) fn failing(alloc: Global) -> HeldText
        ensures rest { rest_of result ≡ [] }
        ensures fails { fails_of result ≡ true }
    {
        HeldText {
            text: Vec::new(alloc),
            taken: 0,
            fails: true,
        }
    }
}

impl Read for HeldText {
    ghost use Rattle.std.specs.Io.{ReadsAtMost};
    ghost use Rattle.std.specs.Io.KnownBytes.{ReadConsumes};
    ghost use Rattle.std.specs.Prelude.{◌≡◌, ◌↔◌, IsErr, IsTrue};
    ghost use Rattle.tsp_tool.specs.states.HeldText.{fails_of, held_remaining};

    ghost remaining = { held_remaining };

    fn read(&mut self, buf: &mut [u8]) -> io::Result<usize>
        ensures bound { ReadsAtMost result buf.new }
        ensures bytes { ReadConsumes (held_remaining self.old) (held_remaining self.new) result buf.new }
        ensures fails { IsErr result ↔ IsTrue (fails_of self.old) }
        ensures failing { fails_of self.new ≡ fails_of self.old }
    {
        if self.fails {
            return Err(io::Error::from(ErrorKind::Other));
        }
        let mut rest = &self.text[self.taken..];
        let count = rest.read(buf)?;
        self.taken += count;
        Ok(count)
    }
}
