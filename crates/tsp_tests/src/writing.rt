//! Tests of `Piece` and `write_text` of tsp_io: the bytes that a writer gets, and how often it
//! is asked.

use crate::asserts::{holds, same, same_at};
use crate::devices::{Drip, Refusal};
use std::alloc::{AllocError, Global};
use std::io::ErrorKind;
use std::process::Abort;
use tsp_io::{
    Output, PIECE, Piece, WriteFault, hand_over, put, put_next_number, put_number, send, write_text,
};

/// Ways in which a writer refuses.
const REFUSALS: [Refusal; 3] = [
    Refusal::Nothing,
    Refusal::Error(ErrorKind::Other),
    Refusal::Error(ErrorKind::Interrupted),
];

/// The call at which a writer of two bytes a call fails, what it then holds, how often it was
/// asked, and the result.
const ENDS: &[(usize, &str, usize, Result<(), WriteFault>)] = &[
    (0, "", 1, Err(WriteFault::Device)),
    (1, "ab", 2, Err(WriteFault::Device)),
    (2, "abcd", 3, Err(WriteFault::Device)),
    (3, "abcde", 3, Ok(())),
];

#[test]
fn a_text_goes_out_in_parts_until_the_writer_fails(rt: HostRuntime) {
    for refusal in REFUSALS {
        for (fails_at, held, calls, answer) in ENDS {
            let mut out = Output::new(Drip::new(rt.alloc(), 2, *fails_at, refusal));
            same_at(&rt, *fails_at, write_text(&mut out, b"abcde"), *answer);
            same(&rt, out.failed(), answer.is_err());
            let drip = out.into_inner();
            same(&rt, drip.held(), held.as_bytes());
            // nothing is written after a failed write
            same_at(&rt, *fails_at, drip.calls(), *calls);
        }
    }
}

#[test]
fn an_empty_text_is_no_call_and_a_failed_writer_gets_nothing(rt: HostRuntime) {
    let mut out = Output::new(Drip::new(rt.alloc(), 1, 0, Refusal::Nothing));
    same(&rt, write_text(&mut out, b""), Ok(()));
    send(&mut out, b"");
    holds(&rt, !out.failed());
    same(&rt, write_text(&mut out, b"x"), Err(WriteFault::Device));
    for text in [b"".as_slice(), b"abc".as_slice()] {
        same(&rt, write_text(&mut out, text), Err(WriteFault::Device));
        send(&mut out, text);
        let mut piece = Piece::new();
        put(&mut piece, &mut out, text);
        hand_over(&mut piece, &mut out);
    }
    holds(&rt, out.failed());
    same(&rt, out.into_inner().calls(), 1);
}

/// Asserts what waits in a piece once a text was put there.
fn puts(rt: &impl Abort, piece: &mut Piece, out: &mut Output<Drip>, text: &[u8], waiting: &[u8]) {
    put(piece, out, text);
    same(rt, piece.as_slice(), waiting);
}

/// Asserts that a piece is empty once it was handed over.
fn hands_over(rt: &impl Abort, piece: &mut Piece, out: &mut Output<Drip>) {
    hand_over(piece, out);
    holds(rt, piece.as_slice().is_empty());
}

/// A number, and one after a blank.
fn put_numbers(piece: &mut Piece, out: &mut Output<Drip>) {
    put_number(piece, out, 7u32);
    put_next_number(piece, out, -1_000_000_000_000i64);
}

/// A small text, a long one twice, and one byte.
fn all_of(alloc: Global, small: &[u8], long: &[u8]) -> Result<Vec<u8>, AllocError> {
    let mut all = Vec::from_slice(alloc, small)?;
    all.extend_from_slice(long)?;
    all.extend_from_slice(long)?;
    all.push(b'b')?;
    Ok(all)
}

#[test]
fn small_texts_wait_and_long_ones_go_out_as_they_are(rt: HostRuntime) -> Result<(), AllocError> {
    let small = b"a7 -1000000000000\n".as_slice();
    let long = vec![in rt.alloc(); b'x'; PIECE + 1]?;
    let wanted = all_of(rt.alloc(), small, long.as_slice())?;
    let mut out = Output::new(Drip::sound(rt.alloc()));
    let mut piece = Piece::new();
    puts(&rt, &mut piece, &mut out, b"a", b"a");
    put_numbers(&mut piece, &mut out);
    puts(&rt, &mut piece, &mut out, b"\n", small);
    puts(&rt, &mut piece, &mut out, long.as_slice(), b"");
    same(&rt, write_text(&mut out, long.as_slice()), Ok(()));
    puts(&rt, &mut piece, &mut out, b"b", b"b");
    hands_over(&rt, &mut piece, &mut out);
    let drip = out.into_inner();
    same(&rt, drip.held(), wanted.as_slice());
    same(&rt, drip.calls(), 4);
    Ok(())
}
