//! Tests that a reader isn't asked again once its text is settled.

use crate::asserts::{holds_at, same_at};
use crate::read::answers::{answer_from, answers};
use crate::read::feed::{CANONICAL_TOUR, Example, RECTANGLE, TOUR};
use std::io::{Error, ErrorKind, Read, Result as IoResult};
use tsp_io::Watched;
use tsp_number::NumberFault::BadNumber;
use tsp_read::LineFault::{Number, Outside, UnknownLine};
use tsp_read::ReadFault;

/// A reader that delivers all its bytes at its first read, and fails at the next.
#[derive(Drop)]
struct Once<'a> {
    bytes: &'a [u8],
    calls: usize,
}

impl<'a> Once<'a> {
    fn new(bytes: &'a str) -> Watched<Once<'a>> {
        let bytes = bytes.as_bytes();
        Watched::new(Once { bytes, calls: 0 })
    }
}

impl Read for Once<'_> {
    fn read(&mut self, buf: &mut [u8]) -> IoResult<usize> {
        let call = self.calls;
        self.calls = call.saturating_add(1);
        if call > 0 {
            return Err(Error::from(ErrorKind::Other));
        }
        self.bytes.read(buf)
    }
}

/// Texts that are settled at their end, so that no more is asked for, with their answers.
const SETTLED: &[Example] = &[
    (RECTANGLE, Ok(RECTANGLE)),
    (TOUR, Ok(CANONICAL_TOUR)),
    (
        "TYPE : TOUR\nTOUR_SECTION\n1 2 3\n EOF : x\r\n###",
        Ok(CANONICAL_TOUR),
    ),
    (
        "TYPE : HCP\n",
        Err(ReadFault::Line {
            line: 1,
            word: 0,
            fault: Outside,
        }),
    ),
    (
        "TYPE : HCP\n1 2",
        Err(ReadFault::Line {
            line: 1,
            word: 0,
            fault: Outside,
        }),
    ),
    (
        "FOO\n",
        Err(ReadFault::Line {
            line: 1,
            word: 0,
            fault: UnknownLine,
        }),
    ),
    (
        "TOUR_SECTION\n1 x ",
        Err(ReadFault::Line {
            line: 2,
            word: 2,
            fault: Number(BadNumber),
        }),
    ),
    (
        "TOUR_SECTION\n1\n2 x\nEOF\n",
        Err(ReadFault::Line {
            line: 3,
            word: 2,
            fault: Number(BadNumber),
        }),
    ),
];

#[test]
fn a_reader_is_not_asked_again_once_its_answer_is_settled(rt: HostRuntime) {
    for example in SETTLED {
        let mut reader = Once::new(example.0);
        let found = answer_from(&rt, &mut reader);
        answers(&rt, example.0, &found, &example.1);
        holds_at(&rt, example.0, !reader.failed());
        same_at(&rt, example.0, reader.into_inner().calls, 1);
    }
}
