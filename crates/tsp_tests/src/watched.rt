//! Tests of watched readers and of outputs: each call is passed on once, and its outcome is returned
//! or kept as it is.

use crate::asserts::{holds, holds_at, same, same_at};
use crate::devices::{Drip, Refusal, Trickle, outcome};
use std::io::{self, ErrorKind, Read};
use std::process::Abort;
use tsp_io::{Output, Watched, write_text};

/// Kinds of errors, an interruption among them, which is an error like any other.
const KINDS: [ErrorKind; 4] = [
    ErrorKind::Other,
    ErrorKind::Interrupted,
    ErrorKind::UnexpectedEof,
    ErrorKind::WouldBlock,
];

/// Asserts the outcome of a read into a piece, what the piece then holds, and whether the reader
/// has failed.
fn reads<R: Read>(
    rt: &impl Abort,
    reader: &mut Watched<R>,
    piece: &mut [u8; 4],
    wanted: Result<usize, ErrorKind>,
    held: [u8; 4],
    failed: bool,
) {
    same(rt, outcome(reader.read(piece)), wanted);
    same(rt, *piece, held);
    same_at(rt, "failed", reader.failed(), failed);
}

/// Asserts what a reader does whose second read fails in this way: a later success doesn't undo it.
fn remembers_a_read(rt: &impl Abort, kind: ErrorKind) {
    let mut reader = Watched::new(Trickle::new(b"ab", 1, kind));
    let mut piece = [0u8; 4];
    holds(rt, !reader.failed());
    reads(rt, &mut reader, &mut piece, Ok(1), [b'a', 0, 0, 0], false);
    reads(
        rt,
        &mut reader,
        &mut piece,
        Err(kind),
        [b'a', 0, 0, 0],
        true,
    );
    reads(rt, &mut reader, &mut piece, Ok(1), [b'b', 0, 0, 0], true);
    reads(rt, &mut reader, &mut piece, Ok(0), [b'b', 0, 0, 0], true);
    same_at(rt, "each call is one", reader.into_inner().calls(), 4);
}

#[test]
fn a_read_that_fails_is_returned_and_remembered(rt: HostRuntime) {
    let mut reader = Watched::new(b"".as_slice());
    same(&rt, outcome(reader.read(&mut [0u8; 4])), Ok(0));
    same(&rt, outcome(reader.read(&mut [])), Ok(0));
    holds_at(&rt, "the end is no failure", !reader.failed());
    for kind in KINDS {
        remembers_a_read(&rt, kind);
    }
}

/// Asserts the result of writing a text: the kind of the error that was kept at a failure, this one
/// or one before.
fn writes(rt: &impl Abort, writer: &mut Output<Drip>, text: &[u8], wanted: Result<(), ErrorKind>) {
    let written = write_text(writer, text);
    same(rt, written.is_err(), wanted.is_err());
    same(rt, writer.error().map(io::Error::kind), wanted.err());
    same_at(rt, "failed", writer.failed(), wanted.is_err());
}

/// Asserts which bytes a writer took, how often it was asked to write, and that it was never
/// flushed.
fn was_asked(rt: &impl Abort, writer: Output<Drip>, held: &[u8], calls: usize) {
    let drip = writer.into_inner();
    same(rt, drip.held(), held);
    same_at(rt, "each call is one", drip.calls(), calls);
    same_at(rt, "nothing is flushed", drip.flushes(), 0);
}

/// Asserts what a writer does that fails in this way, at its second write: the error is kept, and
/// nothing more is written.
fn remembers_a_write(rt: &(impl AllocGlobal + Abort), kind: ErrorKind) {
    let mut writer = Output::new(Drip::new(rt.alloc(), 1, 1, Refusal::Error(kind)));
    writes(rt, &mut writer, b"a", Ok(()));
    writes(rt, &mut writer, b"bc", Err(kind));
    writes(rt, &mut writer, b"d", Err(kind));
    was_asked(rt, writer, b"a", 2);
}

#[test]
fn a_write_that_fails_is_remembered(rt: HostRuntime) {
    let mut sound = Output::new(Drip::sound(rt.alloc()));
    writes(&rt, &mut sound, b"ab", Ok(()));
    was_asked(&rt, sound, b"ab", 1);
    for kind in KINDS {
        remembers_a_write(&rt, kind);
    }
}

#[test]
fn a_write_that_takes_nothing_of_a_text_is_a_failure(rt: HostRuntime) {
    let mut writer = Output::new(Drip::new(rt.alloc(), 1, 2, Refusal::Nothing));
    // nothing of an empty text is all of it
    writes(&rt, &mut writer, b"", Ok(()));
    writes(&rt, &mut writer, b"ab", Ok(()));
    writes(&rt, &mut writer, b"c", Err(ErrorKind::WriteZero));
    writes(&rt, &mut writer, b"", Err(ErrorKind::WriteZero));
    was_asked(&rt, writer, b"ab", 3);
}
