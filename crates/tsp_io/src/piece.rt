//! Writes every report and canonical text: bytes gather in a buffer of 4,096, which goes to the
//! writer when it is full. By `Puts` in `specs/states/Output.antt`, no byte is lost, added or
//! moved, so the size of the buffer affects only speed. tsp_report and tsp_file call it.
//!
//! A writer that has failed gets nothing more, so code that adds to a text need not look at each
//! outcome.

ghost use Rattle.std.specs.Io.KnownBytes.{Appends};
ghost use Rattle.std.specs.Prelude.{◌≡◌, [], ◌∷◌, ◌≤◌, ◌<◌, Result, ℕ, true, false, length, take};
ghost use Rattle.std.specs.declared.io.Error.{Error};
ghost use Rattle.tsp_io.specs.Streams.{HasWritten, HasStopped, Writes};
ghost use Rattle.tsp_io.specs.states.Output.{writer_of, output_failed, output_error, KeepsError, sink_of, Puts};

use crate::watched::{Output, Takes};
use arrayvec::ArrayVec;
use itoa::{Buffer, Integer};
use std::fmt;
use std::io::{self, ErrorKind};
use thiserror::Error;

/// The most bytes of a piece.
pub const PIECE: usize = 4_096;

/// The bytes at the end of a text that wait to be written.
pub type Piece = ArrayVec<u8, PIECE>;

/// Sends the piece to the writer, and begins a new one.
#[cold]
pub fn hand_over<W: Takes>(piece: &mut Piece, out: &mut Output<W>)
    ensures carried { Puts W.contents out.old piece.old out.new piece.new [] }
    ensures empty { piece.new.items ≡ [] }
{
    send(out, piece.as_slice());
    piece.clear();
}

/// Adds bytes to the text.
#[inline(always)]
pub fn put<W: Takes>(piece: &mut Piece, out: &mut Output<W>, bytes: &[u8])
    ensures { Puts W.contents out.old piece.old out.new piece.new bytes.now }
{
    if piece.try_extend_from_slice(bytes).is_ok() {
        return;
    }
    hand_over(piece, out);
    if piece.try_extend_from_slice(bytes).is_err() {
        // It is longer than a whole piece, so it goes to the writer directly.
        send(out, bytes);
    }
}

/// Adds the digits of a whole number.
#[inline(always)]
pub fn put_number<W: Takes, N: Integer>(piece: &mut Piece, out: &mut Output<W>, number: N)
    ensures { Puts W.contents out.old piece.old out.new piece.new (N.text number) }
{
    let mut buffer = Buffer::new();
    put(piece, out, buffer.format(number).as_bytes());
}

/// Adds a blank and the digits of a whole number.
#[inline(always)]
pub fn put_next_number<W: Takes, N: Integer>(piece: &mut Piece, out: &mut Output<W>, number: N)
    ensures { Puts W.contents out.old piece.old out.new piece.new (32 ∷ N.text number) }
{
    put(piece, out, b" ");
    put_number(piece, out, number);
}

// ---- write a text to a writer that may take any part of it at once, and stop if it fails

/// Why a text could not be written.
#[derive(Clone, Copy, Debug, PartialEq, Eq, Error)]
pub enum WriteFault {
    /// A write failed, or took nothing.
    Device,
    /// Out of memory for the text.
    OutOfMemory,
}

impl fmt::Display for WriteFault {
    ghost use Rattle.std.specs.Prelude.{Some};
    ghost use Rattle.tsp_io.specs.Streams.{write_fault_text};

    ghost output = { λ fault. Some (write_fault_text fault) };

    fn fmt<W: fmt::Write>(&self, f: &mut fmt::Formatter<W>) -> fmt::Result {
        match *self {
            WriteFault::Device => f.write_str("device"),
            WriteFault::OutOfMemory => f.write_str("out of memory"),
        }
    }
}

/// Sends a text to a writer that may take any part of it at once, and stops if the writer fails.
///
/// A writer that had failed before gets nothing.
pub fn send<W: Takes>(out: &mut Output<W>, text: &[u8])
    ensures stopped { output_failed out.new ≡ true →
        HasStopped (sink_of W.contents out.old out.new) text.now }
    ensures written { output_failed out.new ≡ false →
        HasWritten (sink_of W.contents out.old out.new) text.now }
{
    if out.failed() {
        return;
    }
    let mut rest = text;
    'parts: while !rest.is_empty() {
        let count = send_part(out, rest);
        if count == 0 {
            return;
        }
        let (_, left) = rest.split_at(count);
        rest = left;
    }
}

/// Makes one write, and returns how many bytes the writer took. If it fails, the result is 0, and
/// `out` remembers the failure and the system's error.
fn send_part<W: Takes>(out: &mut Output<W>, text: &[u8]) -> usize
    requires sound { output_failed out.old ≡ false }
    ensures part { result ≤ length text.now }
    ensures bytes { Appends (W.contents (writer_of out.old))
        (W.contents (writer_of out.new)) (take result text.now) }
    ensures sound { 0 < result → output_failed out.new ≡ false }
    ensures failed { result ≡ 0 → 0 < length text.now → output_failed out.new ≡ true }
    ensures error { (answer : Result ℕ Error) × W.takes (writer_of out.old) text.now answer
        (writer_of out.new) × KeepsError answer (output_error out.old) (output_error out.new) }
{
    match out.write(text) {
        Err(error) => {
            out.keep_error(error);
            0
        }
        Ok(0) => {
            out.keep_error(io::Error::from(ErrorKind::WriteZero));
            0
        }
        Ok(count) => count,
    }
}

/// Writes a text to a writer that may take any part of it at once.
///
/// # Errors
///
/// `Device` if the writer fails, or had failed before: then a prefix of the text was written, and
/// nothing else. `OutOfMemory` is never returned.
pub fn write_text<W: Takes>(out: &mut Output<W>, text: &[u8]) -> Result<(), WriteFault>
    ensures { Writes (sink_of W.contents out.old out.new) text.now result }
{
    send(out, text);
    if !out.failed() {
        return Ok(());
    }
    Err(WriteFault::Device)
}
