//! A test of short texts as a whole, in every cut into two pieces, and byte by byte.

use super::{EXAMPLES, Example, answer_by_bytes};
use crate::read::answers::{answer_in, answer_of, answers};
use std::process::Abort;

/// Asserts that no cut of an example into two pieces changes its answer, with empty pieces between
/// them and without.
fn cuts_hold(rt: &(impl AllocGlobal + Abort), example: &Example) {
    let text = example.0.as_bytes();
    for cut in 0..text.len() + 1 {
        let (front, back) = text.split_at(cut);
        let found = answer_in(rt, &[front, back]);
        answers(rt, (example.0, cut), &found, &example.1);
        let found = answer_in(rt, &[b"", front, b"", b"", back, b""]);
        answers(rt, (example.0, cut), &found, &example.1);
    }
}

#[test]
fn a_text_has_its_answer_however_it_is_cut(rt: HostRuntime) {
    for example in EXAMPLES {
        let found = answer_of(&rt, example.0.as_bytes());
        answers(&rt, example.0, &found, &example.1);
        let found = answer_by_bytes(&rt, example.0.as_bytes());
        answers(&rt, example.0, &found, &example.1);
        cuts_hold(&rt, example);
    }
}
