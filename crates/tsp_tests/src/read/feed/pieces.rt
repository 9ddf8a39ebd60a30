//! Tests of the result of `Feed` at each piece: a refusal comes as soon as it can, and stays.

use crate::asserts::{same, same_at};
use crate::read::answers::{answer, answer_in, answers, fault_at_end, fed};
use crate::read::feed::{CANONICAL_TOUR, TOUR, at};
use std::alloc::AllocError;
use std::process::Abort;
use tsp_file::EndFault;
use tsp_format::Field;
use tsp_number::NumberFault::{BadNumber, LongWord};
use tsp_read::LineFault::{self, Number, Outside, UnknownLine};
use tsp_read::{Feed, ReadFault};

/// The fault of a text without a line TYPE.
const NO_TYPE: ReadFault = ReadFault::End(EndFault::Missing(Field::TypeKey));

/// Later pieces: alone some are valid texts, and the others have a fault.
const LATER: &[&str] = &[
    "",
    "\n",
    " ",
    "EOF\n",
    "TYPE : TOUR\n",
    "1 x\n",
    "FOO\n",
    TOUR,
];

/// The result for pieces, up to the first refusal.
fn feed_texts(feed: &mut Feed, pieces: &[&'static str]) -> Result<(), ReadFault> {
    for piece in pieces {
        fed(feed, piece.as_bytes())?;
    }
    Ok(())
}

/// Pieces that are taken, the piece that is refused, and the line, the word and the name of its
/// fault: each refusal comes as soon as no later byte can change it.
const REFUSALS: &[(&[&str], &str, u32, u32, LineFault)] = &[
    (&[], "TYPE : HCP\n", 1, 0, Outside),
    (&["TYPE : ", "HCP"], "\n", 1, 0, Outside),
    (&["TYPE : HCP\r"], "\n1 x", 1, 0, Outside),
    (&["FO"], "O\n", 1, 0, UnknownLine),
    (&["TOUR_SECTION\n1 2", "x"], " ", 2, 2, Number(BadNumber)),
    (
        &["TOUR_SECTION\n\n1\n", "2 "],
        "x\n",
        4,
        2,
        Number(BadNumber),
    ),
    (
        &["TOUR_SECTION\n"],
        "11111111111111111111111111111111111111111111111111111111111111111",
        2,
        1,
        Number(LongWord),
    ),
    // a line in many pieces is one line
    (
        &[
            "COM", "MENT", " ", ": a", "", " b", "\n", "\n", "TY", "PE : ", "HCP",
        ],
        "\n",
        3,
        0,
        Outside,
    ),
];

/// Asserts that pieces are taken, and that the next piece and all later ones are refused.
fn refuses(
    rt: &(impl AllocGlobal + Abort),
    before: &[&'static str],
    piece: &'static str,
    fault: ReadFault,
) {
    let mut feed = Feed::new(rt.alloc());
    same_at(rt, piece, feed_texts(&mut feed, before), Ok(()));
    is_refused(rt, &mut feed, piece, fault);
    for later in LATER {
        is_refused(rt, &mut feed, later, fault);
    }
    same_at(rt, piece, fault_at_end(feed), Some(fault));
}

/// Asserts that a piece is refused.
fn is_refused(rt: &impl Abort, feed: &mut Feed, piece: &'static str, fault: ReadFault) {
    same_at(rt, piece, fed(feed, piece.as_bytes()), Err(fault));
}

#[test]
fn a_refusal_comes_as_soon_as_it_is_settled_and_stays(rt: HostRuntime) {
    for (before, piece, line, word, fault) in REFUSALS {
        refuses(&rt, before, piece, at(*line, *word, *fault));
    }
}

/// Pieces that are all taken, and the answer at their end: the canonical text of the file, or the
/// fault.
const TAKEN: &[(&[&str], Result<&str, ReadFault>)] = &[
    // a line that isn't over has its fault at the end
    (
        &["TYPE : HCP"],
        Err(ReadFault::Line {
            line: 1,
            word: 0,
            fault: Outside,
        }),
    ),
    // a word goes on in the next piece
    (
        &["TYPE : TOUR\nTOUR_SECTION\n", "1", "2 -1"],
        Ok("TYPE : TOUR\nTOUR_SECTION\n12\n-1\nEOF\n"),
    ),
    // an EOF line has ended only with its byte 10
    (
        &["EO", "F", "X"],
        Err(ReadFault::Line {
            line: 1,
            word: 0,
            fault: UnknownLine,
        }),
    ),
    // a last line EOF needs none
    (
        &["TYPE : TOUR\nTOUR_SECTION\n1 2 3\n-1\nE", "O", "F"],
        Ok(CANONICAL_TOUR),
    ),
    // after the EOF line everything is accepted
    (&["EOF\n", "###"], Err(NO_TYPE)),
    (
        &[
            TOUR,
            "",
            "\n",
            " ",
            "EOF\n",
            "TYPE : TOUR\n",
            "1 x\n",
            "FOO\n",
            TOUR,
        ],
        Ok(CANONICAL_TOUR),
    ),
    // a byte 13 at the end of a piece is of the line's end
    (
        &[
            "NAME : x\r",
            "\nTYPE : TOUR\r",
            "\nTOUR_SECTION\r",
            "\n1 2 3\r",
            "\n-1\r",
            "\nEOF\r",
        ],
        Ok("NAME : x\nTYPE : TOUR\nTOUR_SECTION\n1\n2\n3\n-1\nEOF\n"),
    ),
    // and is kept if the value goes on
    (
        &["NAME : x\r", "y\nTYPE : TOUR\nTOUR_SECTION\n1 2 3\n-1\n"],
        Ok("NAME : x\ry\nTYPE : TOUR\nTOUR_SECTION\n1\n2\n3\n-1\nEOF\n"),
    ),
];

#[test]
fn pieces_that_are_taken_have_their_answer_at_the_end(rt: HostRuntime) {
    for (pieces, wanted) in TAKEN {
        let mut feed = Feed::new(rt.alloc());
        same_at(&rt, pieces, feed_texts(&mut feed, pieces), Ok(()));
        let found = answer(&rt, feed.finish());
        answers(&rt, pieces, &found, wanted);
    }
}

#[test]
fn after_the_line_eof_words_and_lines_of_any_length_are_accepted(
    rt: HostRuntime,
) -> Result<(), AllocError> {
    let word = "1".repeat(rt.alloc(), 5_000)?;
    let line = "K".repeat(rt.alloc(), 5_000)?;
    let found = answer_in(&rt, &[TOUR.as_bytes(), word.as_bytes(), line.as_bytes()]);
    answers(&rt, "after EOF", &found, &Ok(CANONICAL_TOUR));
    Ok(())
}

#[test]
fn a_thousand_line_ends_need_no_memory(rt: HostRuntime) {
    let mut feed = Feed::new(rt.alloc());
    for call in 0..1_000 {
        same_at(&rt, call, fed(&mut feed, b"\n"), Ok(()));
    }
    same(&rt, fault_at_end(feed), Some(NO_TYPE));
}
