//! `Watched` wraps each of a run's readers and remembers whether a read failed; a file's fault
//! `device` rests on this flag. `Output` wraps a run's writer and remembers whether a write failed;
//! the fault `output: device` rests on this flag, which by the type's invariant is set only by a
//! failed write. The traits `Gives` and `Takes` hide what a read or a write may answer, so a clause
//! that names `gives` or `takes` proves that exactly one call was made.

ghost use Rattle.std.specs.Io.{ReadsAtMost};
ghost use Rattle.std.specs.Io.KnownBytes.{ReadConsumes};
ghost use Rattle.std.specs.Prelude.{ℕ, List, Result, ⊤, ◌≡◌, false, is_err, ◌||◌, true};
ghost use Rattle.std.specs.declared.io.Error.{Error};
ghost use Rattle.tsp_io.specs.Writing.{LeftByFailedWrite};
ghost use Rattle.tsp_io.specs.states.Watched.{watched, has_failed, Calls, answers_of, AnswersNext};

use std::io::{self, Read, Write};

/// A reader that can be asked once.
///
/// Every reader is one. Code over a `T: Gives` knows nothing about `T.gives`, so if it ensures
/// `T.gives`, it has asked the reader exactly once and returned its result unchanged.
pub trait Gives: Read {
    /// Whether one read into a buffer may return this result, and leave the buffer and the reader
    /// in these states.
    ghost gives: { Self → List ℕ → Result ℕ Error → List ℕ → Self → Type 0 };

    /// Reads once.
    fn give(&mut self, room: &mut [u8]) -> io::Result<usize>
        ensures bound { ReadsAtMost result room.new }
        ensures bytes { ReadConsumes (Self.remaining self.old)
            (Self.remaining self.new) result room.new }
        ensures once { gives self.old room.old result room.new self.new };
}

impl<R: Read> Gives for R {
    ghost gives = { λ _ _ _ _ _. ⊤ };

    fn give(&mut self, room: &mut [u8]) -> io::Result<usize> {
        self.read(room)
    }
}

// ---- a reader that remembers whether it has failed

/// A reader that remembers whether one of its reads has failed.
///
/// It implements `Read` if `T` does, with the same bytes. It has failed from the first read on that
/// returns an error, even an interruption.
#[derive(Debug, Drop)]
pub struct Watched<T> {
    inner: T,
    failed: bool,
}

impl<T> Watched<T> {
    /// Wraps a reader, as one that has not failed.
    pub fn new(inner: T) -> Watched<T>
        ensures inner { watched result ≡ inner }
        ensures sound { has_failed result ≡ false }
    {
        Watched {
            inner,
            failed: false,
        }
    }

    /// Whether a read has failed so far.
    pub fn failed(&self) -> bool
        ensures { result ≡ has_failed self.now }
    {
        self.failed
    }

    /// The reader that was wrapped.
    pub fn into_inner(self) -> T
        ensures { result ≡ watched self }
    {
        let Watched { inner, failed: _ } = self;
        inner
    }

    /// Asks the inner value once, with a buffer for its bytes, returns its result unchanged, and
    /// remembers an error.
    pub(crate) fn ask<A, F>(&mut self, room: &mut [u8], call: F) -> io::Result<A>
    where
        F: FnOnce(&mut T, &mut [u8]) -> io::Result<A>,
        requires { F.IsAlwaysCallable call }
        ensures asked { Calls F.FnOnce call (watched self.old) room.old result (watched self.new) room.new }
        ensures failed { has_failed self.new ≡ (has_failed self.old || is_err result) }
    {
        let outcome = call(&mut self.inner, room);
        self.failed = self.failed || outcome.is_err();
        outcome
    }
}

impl<R: Gives> Read for Watched<R> {
    ghost remaining = { λ w. R.remaining (watched w) };

    fn read(&mut self, buf: &mut [u8]) -> io::Result<usize>
        ensures bound { ReadsAtMost result buf.new }
        ensures bytes { ReadConsumes (R.remaining (watched self.old))
            (R.remaining (watched self.new)) result buf.new }
        ensures once { R.gives (watched self.old) buf.old result buf.new (watched self.new) }
        ensures failed { has_failed self.new ≡ (has_failed self.old || is_err result) }
    {
        self.ask(buf, |inner, room| inner.give(room))
    }
}

// ---- a writer that can be asked once

/// A writer that can be asked once, to write a text. Every `Write` is one.
///
/// Code over a `T: Takes` knows nothing about `T.takes`, so if it ensures `T.takes`, it has asked
/// the writer exactly once and returned its result unchanged. It can't flush the writer.
pub trait Takes {
    ghost use Rattle.std.specs.Io.{WritesAtMost};
    ghost use Rattle.std.specs.Io.KnownBytes.{WriteAppends};
    ghost use Rattle.std.specs.Prelude.{ℕ, List, Option, Result};
    ghost use Rattle.std.specs.declared.io.Error.{Error};

    /// The bytes that the writer has, if they are known.
    ghost contents: { Self → Option (List ℕ) };

    /// Whether one write of a text may return this result, and leave the writer in this state.
    ghost takes: { Self → List ℕ → Result ℕ Error → Self → Type 0 };

    /// Writes once.
    fn take_some(&mut self, text: &[u8]) -> io::Result<usize>
        ensures bound { WritesAtMost result text.now }
        ensures bytes { WriteAppends (contents self.old) (contents self.new) result text.now }
        ensures once { takes self.old text.now result self.new };
}

impl<W: Write> Takes for W {
    ghost use Rattle.std.specs.Prelude.{⊤};

    ghost contents = { W.contents };

    ghost takes = { λ _ _ _ _. ⊤ };

    fn take_some(&mut self, text: &[u8]) -> io::Result<usize> {
        self.write(text)
    }
}

// ---- a writer that remembers whether it has failed

/// A writer that remembers whether one of its writes has failed, and by which error.
///
/// A write fails if it returns an error, even an interruption, or if it takes no byte of a text
/// that isn't empty. After a failed write, nothing more is written. Nothing is ever flushed.
#[derive(Debug, Drop)]
pub struct Output<W: Takes> {
    inner: W,
    failed: bool,
    /// The system's error of the failure, if a caller has kept it.
    error: Option<io::Error>,
    pub ghost cause: { failed ≡ true → ∥ LeftByFailedWrite W.takes inner ∥₁ },
}

impl<W: Takes> Output<W> {
    ghost use Rattle.std.specs.Io.{WritesAtMost};
    ghost use Rattle.std.specs.Io.KnownBytes.{WriteAppends};
    ghost use Rattle.std.specs.Prelude.{◌≡◌, false, None, Some};
    ghost use Rattle.std.specs.Option.{option_map};
    ghost use Rattle.tsp_io.specs.Writing.{write_fails};
    ghost use Rattle.tsp_io.specs.states.Output.{writer_of, output_failed, output_error};

    /// Wraps a writer, as one that has not failed.
    pub fn new(inner: W) -> Output<W>
        ensures inner { writer_of result ≡ inner }
        ensures sound { output_failed result ≡ false }
        ensures error { output_error result ≡ None }
    {
        Output {
            inner,
            failed: false,
            error: None,
        }
    }

    /// Whether a write has failed so far.
    pub fn failed(&self) -> bool
        ensures { result ≡ output_failed self.now }
    {
        self.failed
    }

    /// The writer that was wrapped.
    pub fn into_inner(self) -> W
        ensures { result ≡ writer_of self }
    {
        let Output {
            inner,
            failed: _,
            error,
        } = self;
        drop(error);
        inner
    }

    /// The system's error of the failure that ended a text; `None` if it wasn't kept.
    pub fn error(&self) -> Option<&io::Error>
        ensures { option_map (λ error. error.now) result ≡ output_error self.now }
    {
        self.error.as_ref()
    }

    /// Keeps the system's error of a failure, to show it to the user. Nothing else changes.
    pub(crate) fn keep_error(&mut self, error: io::Error)
        ensures inner { writer_of self.new ≡ writer_of self.old }
        ensures failed { output_failed self.new ≡ output_failed self.old }
        ensures error { output_error self.new ≡ Some error }
    {
        self.error = Some(error);
    }

    /// Asks the writer once, returns its result unchanged, and remembers a failure.
    pub(crate) fn write(&mut self, text: &[u8]) -> io::Result<usize>
        requires sound { output_failed self.old ≡ false }
        ensures bound { WritesAtMost result text.now }
        ensures bytes { WriteAppends (W.contents (writer_of self.old))
            (W.contents (writer_of self.new)) result text.now }
        ensures once { W.takes (writer_of self.old) text.now result (writer_of self.new) }
        ensures failed { output_failed self.new ≡ write_fails result text.now }
        ensures error { output_error self.new ≡ output_error self.old }
    {
        let outcome = self.inner.take_some(text);
        let took_nothing = matches!(outcome, Ok(0)) && !text.is_empty();
        self.failed = outcome.is_err() || took_nothing;
        outcome
    }
}

// ---- a reader whose answers are known, for a law that no clause of `Read` can state

/// A reader that gives these answers, the last one in the list first, and after them the end of its
/// text.
#[derive(Debug, Drop)]
pub struct Script {
    pub answers: Vec<io::Result<usize>>,
}

impl Script {
    /// The next answer.
    fn next(&mut self) -> io::Result<usize>
        ensures { AnswersNext (answers_of self.old) result (answers_of self.new) }
    {
        match self.answers.pop() {
            Some(answer) => answer,
            None => Ok(0),
        }
    }
}

/// A watched script returns its next answer, and uses up only that one. So call by call the answers
/// come out as they went in. The script is asked through `ask`, like every reader.
pub fn answers_go_through(script: &mut Watched<Script>) -> io::Result<usize>
    ensures next { AnswersNext (answers_of (watched script.old)) result
        (answers_of (watched script.new)) }
    ensures failed { has_failed script.new ≡ (has_failed script.old || is_err result) }
{
    script.ask(&mut [], |inner, _| inner.next())
}
