//! Readers and writers that do little at a time, fail, or never end, and count their calls. The
//! tests of reading, writing and judging take them from here.

use std::alloc::Global;
use std::io::{self, ErrorKind, Read, Write};

/// A call that never comes.
pub const NEVER: usize = usize::MAX;

/// The outcome of a call, with the kind of its error.
pub fn outcome<T>(answer: io::Result<T>) -> Result<T, ErrorKind> {
    match answer {
        Ok(value) => Ok(value),
        Err(error) => Err(error.kind()),
    }
}

/// A reader that delivers a few bytes a call, and fails at one call.
#[derive(Drop)]
pub struct Trickle<'a> {
    rest: &'a [u8],
    most: usize,
    calls: usize,
    fails_at: usize,
    kind: ErrorKind,
}

impl<'a> Trickle<'a> {
    /// A reader of these bytes, one a call, whose call `fails_at`, counted from 0, fails in this
    /// way.
    pub fn new(bytes: &'a [u8], fails_at: usize, kind: ErrorKind) -> Trickle<'a> {
        Trickle {
            rest: bytes,
            most: 1,
            calls: 0,
            fails_at,
            kind,
        }
    }

    /// A reader of these bytes, this many a call, that doesn't fail.
    pub fn by(bytes: &'a [u8], most: usize) -> Trickle<'a> {
        Trickle {
            rest: bytes,
            most,
            calls: 0,
            fails_at: NEVER,
            kind: ErrorKind::Other,
        }
    }

    /// How often it was asked.
    pub fn calls(&self) -> usize {
        self.calls
    }
}

impl Read for Trickle<'_> {
    fn read(&mut self, buf: &mut [u8]) -> io::Result<usize> {
        let call = self.calls;
        self.calls = call.saturating_add(1);
        if call == self.fails_at {
            return Err(io::Error::from(self.kind));
        }
        let room = buf.len().min(self.most);
        self.rest.read(&mut buf[..room])
    }
}

/// A reader that delivers a head and then fills each buffer with blanks, for ever.
#[derive(Drop)]
pub struct Flood<'a> {
    head: &'a [u8],
    given: u64,
}

impl<'a> Flood<'a> {
    pub fn after(head: &'a [u8]) -> Flood<'a> {
        Flood { head, given: 0 }
    }

    /// How many bytes it delivered.
    pub fn given(&self) -> u64 {
        self.given
    }
}

impl Read for Flood<'_> {
    fn read(&mut self, buf: &mut [u8]) -> io::Result<usize> {
        let count = if self.head.is_empty() {
            buf.fill(b' ');
            buf.len()
        } else {
            self.head.read(buf)?
        };
        self.given = self.given.saturating_add(count as u64);
        Ok(count)
    }
}

/// How a writer refuses.
#[derive(Clone, Copy, Debug)]
pub enum Refusal {
    /// It takes no byte.
    Nothing,
    /// It answers an error.
    Error(ErrorKind),
}

/// A writer that takes a few bytes a call, and refuses at one call. If it refuses by an error,
/// each flush answers that error too.
#[derive(Drop)]
pub struct Drip {
    held: Vec<u8>,
    most: usize,
    calls: usize,
    flushes: usize,
    fails_at: usize,
    refusal: Refusal,
}

impl Drip {
    /// A writer that takes this many bytes a call, and whose call `fails_at`, counted from 0,
    /// refuses in this way.
    pub fn new(alloc: Global, most: usize, fails_at: usize, refusal: Refusal) -> Drip {
        Drip {
            held: Vec::new(alloc),
            most,
            calls: 0,
            flushes: 0,
            fails_at,
            refusal,
        }
    }

    /// A writer that takes all that it is given.
    pub fn sound(alloc: Global) -> Drip {
        Drip::new(alloc, usize::MAX, NEVER, Refusal::Nothing)
    }

    /// The bytes that it took.
    pub fn held(&self) -> &[u8] {
        self.held.as_slice()
    }

    /// How often it was asked to write.
    pub fn calls(&self) -> usize {
        self.calls
    }

    /// How often it was asked to flush.
    pub fn flushes(&self) -> usize {
        self.flushes
    }
}

impl Write for Drip {
    fn write(&mut self, buf: &[u8]) -> io::Result<usize> {
        let call = self.calls;
        self.calls = call.saturating_add(1);
        if call == self.fails_at {
            return match self.refusal {
                Refusal::Nothing => Ok(0),
                Refusal::Error(kind) => Err(io::Error::from(kind)),
            };
        }
        let room = buf.len().min(self.most);
        self.held.extend_from_slice(&buf[..room])?;
        Ok(room)
    }

    fn flush(&mut self) -> io::Result<()> {
        self.flushes = self.flushes.saturating_add(1);
        match self.refusal {
            Refusal::Nothing => Ok(()),
            Refusal::Error(kind) => Err(io::Error::from(kind)),
        }
    }
}
