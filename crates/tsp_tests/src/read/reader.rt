//! Tests of texts that come from a reader: one that does little at a time, fails, or never ends.

use crate::asserts::{holds, holds_at, same, same_at};
use crate::devices::{Flood, Trickle, outcome};
use crate::read::answers::{answer_from, answers, long_file};
use std::alloc::AllocError;
use std::io::{ErrorKind, Read};
use std::process::Abort;
use tsp_io::Watched;
use tsp_number::NumberFault;
use tsp_read::{LineFault, ReadFault, read_from};

/// Three points, the second of which has a coordinate that is no number.
const BAD_NUMBER: &str =
    "TYPE : TSP\nDIMENSION : 3\nEDGE_WEIGHT_TYPE : EUC_2D\nNODE_COORD_SECTION\n1 0 0\n2 3 x\n3 3 4\nEOF\n";

#[test]
fn a_long_text_that_comes_little_by_little_has_its_answer(
    rt: HostRuntime,
) -> Result<(), AllocError> {
    let (text, canonical) = long_file(rt.alloc())?;
    for most in [1usize, 2, 7, 4_096] {
        comes_by(&rt, text.as_str(), canonical.as_str(), most);
    }
    Ok(())
}

/// Asserts the answer for a text that comes by this many bytes.
fn comes_by(rt: &(impl AllocGlobal + Abort), text: &str, canonical: &str, most: usize) {
    let mut reader = Watched::new(Trickle::by(text.as_bytes(), most));
    let found = answer_from(rt, &mut reader);
    answers(rt, most, &found, &Ok(canonical));
    holds_at(rt, most, !reader.failed());
}

/// A file of a tour.
const TOUR: &str = "TYPE : TOUR\nTOUR_SECTION\n1 2 3\n-1\nEOF\n";

/// The canonical text of the tour.
const CANONICAL_TOUR: &str = "TYPE : TOUR\nTOUR_SECTION\n1\n2\n3\n-1\nEOF\n";

/// Texts, after how many bytes their answer is settled, by the EOF line or by a fault, and the
/// answer.
const SETTLED: &[(&str, usize, Result<&str, ReadFault>)] = &[
    (TOUR, 38, Ok(CANONICAL_TOUR)),
    (
        "FOO\n1\n",
        4,
        Err(ReadFault::Line {
            line: 1,
            word: 0,
            fault: LineFault::UnknownLine,
        }),
    ),
    (
        BAD_NUMBER,
        82,
        Err(ReadFault::Line {
            line: 6,
            word: 3,
            fault: LineFault::Number(NumberFault::BadNumber),
        }),
    ),
];

/// Asserts that a reader that fails at this call gives no file and no other fault.
fn fails_in_time(rt: &(impl AllocGlobal + Abort), text: &str, fails_at: usize, kind: ErrorKind) {
    let mut reader = Watched::new(Trickle::new(text.as_bytes(), fails_at, kind));
    let found = read_from(rt.alloc(), &mut reader).err();
    same_at(rt, fails_at, found, Some(ReadFault::Device));
    holds(rt, reader.failed());
    // it isn't asked again
    let calls = reader.into_inner().calls();
    same_at(rt, fails_at, calls, fails_at.saturating_add(1));
}

#[test]
fn a_reader_that_fails_in_time_gives_no_file_and_no_other_fault(rt: HostRuntime) {
    for (text, settled, _) in SETTLED {
        for fails_at in 0..*settled {
            fails_in_time(&rt, text, fails_at, ErrorKind::Other);
            fails_in_time(&rt, text, fails_at, ErrorKind::Interrupted);
        }
    }
}

#[test]
fn a_reader_is_asked_for_nothing_once_its_answer_is_settled(rt: HostRuntime) {
    for (text, settled, wanted) in SETTLED {
        let mut reader = Watched::new(Trickle::new(text.as_bytes(), *settled, ErrorKind::Other));
        let found = answer_from(&rt, &mut reader);
        answers(&rt, *settled, &found, wanted);
        holds(&rt, !reader.failed());
        same_at(&rt, *settled, reader.into_inner().calls(), *settled);
    }
}

#[test]
fn a_reader_that_had_failed_is_not_read(rt: HostRuntime) {
    let mut reader = Watched::new(Trickle::new(TOUR.as_bytes(), 0, ErrorKind::Other));
    let first = outcome(reader.read(&mut [0u8; 4]));
    same(&rt, first, Err(ErrorKind::Other));
    let found = read_from(rt.alloc(), &mut reader).err();
    same(&rt, found, Some(ReadFault::Device));
    holds(&rt, reader.failed());
    same(&rt, reader.into_inner().calls(), 1);
}

/// The most bytes that are taken from a reader that gives all that it is asked for.
const MOST_TAKEN: u64 = 1_073_741_824 + 4_096;

#[test]
fn a_reader_that_never_ends_is_left_at_the_limit(rt: HostRuntime) {
    let mut reader = Watched::new(Flood::after(b""));
    let found = read_from(rt.alloc(), &mut reader).err();
    same(&rt, found, Some(ReadFault::TooLong));
    holds(&rt, !reader.failed());
    let given = reader.into_inner().given();
    holds_at(&rt, given, given <= MOST_TAKEN);
}
