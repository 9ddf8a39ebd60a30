//! Tests of `Feed` at the limit of bytes. (`tests/program` tests the limits of lines and words.)

use crate::asserts::same_at;
use crate::read::answers::{fault_at_end, fed};
use std::alloc::AllocError;
use std::process::Abort;
use tsp_file::EndFault;
use tsp_format::Field;
use tsp_read::{Feed, ReadFault};

/// The most bytes that a file may have, in units.
const UNIT: usize = 1_048_576;

const UNITS: usize = 1_024;

/// Feeds a unit of blanks again and again, until this many bytes are left of those that a file may
/// have.
fn feed_blanks_but(feed: &mut Feed, blanks: &[u8], fewer: usize) -> Result<(), ReadFault> {
    for _ in 1..UNITS {
        fed(feed, blanks)?;
    }
    let (_, last) = blanks.split_at(fewer.min(blanks.len()));
    fed(feed, last)
}

/// The fault of a text without a line TYPE.
const NO_TYPE: ReadFault = ReadFault::End(EndFault::Missing(Field::TypeKey));

/// How many bytes are left when pieces follow, the pieces and their results, and the fault at the
/// end.
const LIMITS: &[(usize, &[(&str, Result<(), ReadFault>)], ReadFault)] = &[
    // a byte past the limit is refused, and so is all that follows
    (
        1,
        &[
            ("\n", Ok(())),
            ("", Ok(())),
            (" ", Err(ReadFault::TooLong)),
            ("EOF\n", Err(ReadFault::TooLong)),
        ],
        ReadFault::TooLong,
    ),
    // an EOF line that ends at the limit counts
    (
        4,
        &[("EO", Ok(())), ("F\n### ", Ok(())), ("1 x\n", Ok(()))],
        NO_TYPE,
    ),
    // one that ends past it doesn't
    (
        3,
        &[("EOF", Ok(())), ("\n", Err(ReadFault::TooLong))],
        ReadFault::TooLong,
    ),
];

/// Asserts the results of pieces that come when this many bytes are left, and the fault at the end.
fn ends_in(
    rt: &(impl AllocGlobal + Abort),
    blanks: &str,
    fewer: usize,
    pieces: &[(&str, Result<(), ReadFault>)],
    fault: ReadFault,
) {
    let mut feed = Feed::new(rt.alloc());
    let begun = feed_blanks_but(&mut feed, blanks.as_bytes(), fewer);
    same_at(rt, fewer, begun, Ok(()));
    for (piece, wanted) in pieces {
        same_at(rt, fewer, fed(&mut feed, piece.as_bytes()), *wanted);
    }
    same_at(rt, fewer, fault_at_end(feed), Some(fault));
}

#[test]
fn a_text_at_the_limit_has_its_answer(rt: HostRuntime) -> Result<(), AllocError> {
    let blanks = " ".repeat(rt.alloc(), UNIT)?;
    for (fewer, pieces, fault) in LIMITS {
        ends_in(&rt, blanks.as_str(), *fewer, pieces, *fault);
    }
    Ok(())
}
