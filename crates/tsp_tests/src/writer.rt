//! Tests of the canonical text: one with each field, and writers that take little, or fail. (For
//! other texts, see tests/program/tables.)

use crate::asserts::{holds, holds_at, same, same_at};
use crate::devices::{Drip, NEVER, Refusal};
use crate::drafts_of_tests_support::{file_of, rectangle, two_tours, upper_row};
use std::alloc::{AllocError, Global};
use std::io::ErrorKind;
use std::process::Abort;
use std::test::Fail;
use tsp_file::{File, write_file};
use tsp_io::{Output, WriteFault, write_text};

/// The text of the draft `rectangle`. (A function returns it, so that proofs don't carry its
/// bytes.)
fn rectangle_text() -> &'static [u8] {
    RECTANGLE
}

const RECTANGLE: &[u8] = b"\
NAME : a
TYPE : CVRP
COMMENT :
DISTANCE : 9
DIMENSION : 4
CAPACITY : 8
SCALE : 7
LOAD_UNIT : 3
EDGE_WEIGHT_TYPE : EUC_2D
EDGE_WEIGHT_FORMAT : UPPER_ROW
NODE_COORD_TYPE : TWOD_COORDS
DISPLAY_DATA_TYPE : TWOD_DISPLAY
NODE_COORD_SECTION
1 0 0
2 3 0
3 3 4
4 0 4
DISPLAY_DATA_SECTION
1 0 0
2 1.5 0
3 1.5 -2
4 0 -2
DEMAND_SECTION
1 0
2 4
3 4
4 4
DEPOT_SECTION
1
-1
FIXED_EDGES_SECTION
1 2
4 3
-1
EDGE_WEIGHT_SECTION
3 5 4
-1 0
1000000000000
TOUR_SECTION
1
2
-1
3
-1
NODE_POTENTIAL_SECTION
1 3
2 -3
3 0
4 0
ROW_POTENTIAL_SECTION
1 4
2 -4
3 0
4 0
COLUMN_POTENTIAL_SECTION
1 5
2 -5
3 0
4 0
FIXED_EDGE_POTENTIAL_SECTION
1 2 6
3 4 0
-1
COMB_SECTION
1 2 -1
1 3 -1
-1
4 -1
-1
-1
MEMORY_SECTION
2 3 4 -1
3 -1
-1
SUBSET_ROW_SECTION
2 3 -1
-1
4 -1
2 3 -1
-1
BRANCH_SECTION
1 2
0 1 -5 6 7 -1
0 -1
EOF
";

/// Asserts that a writer of one byte a call gets this whole text.
fn gets_the_whole(rt: &(impl AllocGlobal + Abort), file: &File, text: &[u8]) {
    let mut out = Output::new(Drip::new(rt.alloc(), 1, NEVER, Refusal::Nothing));
    same(rt, write_file(rt.alloc(), file, &mut out), Ok(()));
    holds(rt, !out.failed());
    same(rt, out.into_inner().held(), text);
}

/// Asserts that a writer that had failed gets nothing.
fn gets_nothing(rt: &(impl AllocGlobal + Abort), file: &File) {
    let mut out = Output::new(Drip::new(rt.alloc(), 1, 0, Refusal::Nothing));
    same(rt, write_text(&mut out, b"x"), Err(WriteFault::Device));
    let written = write_file(rt.alloc(), file, &mut out);
    same(rt, written, Err(WriteFault::Device));
    same(rt, out.into_inner().calls(), 1);
}

#[test]
fn one_byte_a_call_gets_the_whole_text_and_a_failed_writer_none(
    rt: HostRuntime,
) -> Result<(), Fail> {
    let file = file_of(rectangle(rt.alloc())?)?;
    gets_the_whole(&rt, &file, rectangle_text());
    gets_nothing(&rt, &file);
    Ok(())
}

/// A writer that took a file until it failed, at this call, in this way.
fn failed_at(
    rt: &(impl AllocGlobal + Abort),
    file: &File,
    most: usize,
    fails_at: usize,
    refusal: Refusal,
) -> Drip {
    let mut out = Output::new(Drip::new(rt.alloc(), most, fails_at, refusal));
    let written = write_file(rt.alloc(), file, &mut out);
    same(rt, written, Err(WriteFault::Device));
    holds(rt, out.failed());
    let drip = out.into_inner();
    let calls = fails_at.saturating_add(1);
    same_at(rt, "it isn't written again", drip.calls(), calls);
    drip
}

#[test]
fn a_failure_leaves_a_front_and_ends_the_writing(rt: HostRuntime) -> Result<(), Fail> {
    let file = file_of(rectangle(rt.alloc())?)?;
    let text = rectangle_text();
    for refusal in [Refusal::Nothing, Refusal::Error(ErrorKind::Interrupted)] {
        for fails_at in 0..text.len() {
            let drip = failed_at(&rt, &file, 1, fails_at, refusal);
            same(&rt, drip.held(), &text[..fails_at]);
        }
    }
    Ok(())
}

/// Three comments of 3,990 bytes, which are 4,001 with their keyword and byte 10.
fn long_comments(alloc: Global) -> Result<Vec<Vec<u8>>, AllocError> {
    let mut comments = Vec::new(alloc);
    for _ in 0..3u8 {
        comments.push(vec![in alloc; b'x'; 3_990]?)?;
    }
    Ok(comments)
}

/// Two tours with the long comments.
fn long_file(alloc: Global) -> Result<File, Fail> {
    let comments = long_comments(alloc)?;
    let mut draft = two_tours(alloc)?;
    draft.comments = comments;
    file_of(draft)
}

/// The bytes of its text: nine of the name, twelve of the type, 4,001 of each comment, 25 of the
/// tours and four of the EOF line.
const LONG_BYTES: usize = 12_053;

#[test]
fn a_long_text_goes_out_in_few_pieces_and_stops_at_a_failure(rt: HostRuntime) -> Result<(), Fail> {
    let file = long_file(rt.alloc())?;
    let mut out = Output::new(Drip::sound(rt.alloc()));
    same(&rt, write_file(rt.alloc(), &file, &mut out), Ok(()));
    let drip = out.into_inner();
    same(&rt, drip.held().len(), LONG_BYTES);
    holds_at(&rt, drip.calls(), drip.calls() <= 6);
    for fails_at in 0..3usize {
        let refusal = Refusal::Error(ErrorKind::Other);
        let drip = failed_at(&rt, &file, usize::MAX, fails_at, refusal);
        holds(&rt, drip.held().len() < LONG_BYTES);
    }
    Ok(())
}

/// The bytes of the text of a matrix of 100 nodes by the upper rows, all of whose weights are 0:
/// 9,900 of its 99 lines, and 110 of the other lines.
const MATRIX_BYTES: usize = 10_010;

#[test]
fn a_matrix_goes_out_in_few_pieces(rt: HostRuntime) -> Result<(), Fail> {
    let file = file_of(upper_row(rt.alloc(), 100, 4_950)?)?;
    let mut out = Output::new(Drip::sound(rt.alloc()));
    same(&rt, write_file(rt.alloc(), &file, &mut out), Ok(()));
    let drip = out.into_inner();
    same(&rt, drip.held().len(), MATRIX_BYTES);
    holds_at(&rt, drip.calls(), drip.calls() <= 4);
    Ok(())
}
