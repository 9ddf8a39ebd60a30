//! A test of the verbs with readers that deliver, and writers that take, a few bytes at a time.

use crate::asserts::same_at;
use crate::devices::{Drip, NEVER, Refusal};
use crate::judge::failures::{Job, WRITTEN, look_at};
use crate::judge::runs::Readers;
use std::process::Abort;
use tsp_io::Output;

/// How many bytes a call delivers or takes.
const SIZES: [usize; 6] = [1, 2, 3, 7, 64, 4_096];

/// Asserts what a run gives whose readers and writer take this many bytes a call.
fn gives_the_whole(
    rt: &(impl AllocGlobal + Abort),
    row: usize,
    written: &(Job, bool, &'static str),
    most: usize,
) {
    let ((task, texts), yes, text) = written;
    let readers = Readers::by(*texts, most);
    let out = Output::new(Drip::new(rt.alloc(), most, NEVER, Refusal::Nothing));
    let found = look_at(rt.alloc(), *task, readers, out);
    same_at(rt, (row, most), found.answer, Ok(*yes));
    same_at(rt, (row, most), found.writer.held(), text.as_bytes());
    // it isn't flushed
    same_at(rt, (row, most), found.writer.flushes(), 0);
}

#[test]
fn pieces_of_any_size_give_what_the_whole_gives(rt: HostRuntime) {
    for (row, written) in WRITTEN.iter().enumerate() {
        for most in SIZES {
            gives_the_whole(&rt, row, written, most);
        }
    }
}
