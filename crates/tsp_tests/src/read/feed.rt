//! Tests of files that are read in pieces: wherever they are cut, the answer is that for the whole
//! text.

mod cuts;
mod limits;
mod pieces;
mod readers;

use crate::read::answers::{Answer, answer, fed};
use std::process::Abort;
use tsp_file::EndFault;
use tsp_format::Field;
use tsp_number::NumberFault;
use tsp_read::{Feed, LineFault, ReadFault};

/// The answer for a text in pieces of one byte.
fn answer_by_bytes(rt: &(impl AllocGlobal + Abort), text: &[u8]) -> Answer {
    let mut feed = Feed::new(rt.alloc());
    for byte in text {
        if let Err(fault) = fed(&mut feed, &[*byte]) {
            return Err(fault);
        }
    }
    answer(rt, feed.finish())
}

/// The fault of a line.
fn at(line: u32, word: u32, fault: LineFault) -> ReadFault {
    ReadFault::Line { line, word, fault }
}

/// A text, and its answer: the canonical text of its file, or its fault.
type Example = (&'static str, Result<&'static str, ReadFault>);

/// A tour that ends with its EOF line.
const TOUR: &str = "TYPE : TOUR\nTOUR_SECTION\n1 2 3\n-1\nEOF\n";

/// The canonical text of the tour.
const CANONICAL_TOUR: &str = "TYPE : TOUR\nTOUR_SECTION\n1\n2\n3\n-1\nEOF\n";

/// A rectangle.
const RECTANGLE: &str = "\
NAME : rectangle
TYPE : TSP
DIMENSION : 4
EDGE_WEIGHT_TYPE : EUC_2D
NODE_COORD_SECTION
1 0 0
2 3 0
3 3 4
4 0 4
EOF
";

/// Three points in space, 3, 2 and 2 apart.
const IN_SPACE: &str = "\
TYPE : TSP
DIMENSION : 3
EDGE_WEIGHT_TYPE : EUC_3D
NODE_COORD_SECTION
1 0 0 0
2 1 2 2
3 0 0 2
EOF
";

/// Texts of a few lines, with their answers by hand.
const EXAMPLES: &[Example] = &[
    // Three points, the second of which has a coordinate that is no number.
    (
        "TYPE : TSP\nDIMENSION : 3\nEDGE_WEIGHT_TYPE : EUC_2D\nNODE_COORD_SECTION\n1 0 0\n2 3 x\n3 3 4\nEOF\n",
        Err(ReadFault::Line {
            line: 6,
            word: 3,
            fault: LineFault::Number(NumberFault::BadNumber),
        }),
    ),
    // Two points of three, and no byte 10 at the end.
    (
        "TYPE : TSP\nDIMENSION : 3\nEDGE_WEIGHT_TYPE : EUC_2D\nNODE_COORD_SECTION\n1 0 0\n2 3 0",
        Err(ReadFault::End(EndFault::Incomplete(Field::NodeCoordPart))),
    ),
    // As producers write it: lines ended by CRLF, a tab before a colon, a value in two words, and
    // no EOF line.
    (
        "NAME: x\r\nTYPE : TSP (somebody)\r\nDIMENSION\t: 3\r\nEDGE_WEIGHT_TYPE : EUC_2D\r\nNODE_COORD_SECTION\r\n1 0.00000e+00 0\r\n2 3 0\r\n3 3 4\r\n",
        Ok(
            "NAME : x\nTYPE : TSP\nDIMENSION : 3\nEDGE_WEIGHT_TYPE : EUC_2D\nNODE_COORD_SECTION\n1 0 0\n2 3 0\n3 3 4\nEOF\n",
        ),
    ),
    (
        "TYPE : TOUR\r\nTOUR_SECTION\r\n1\r\n2\r\n3\r\n-1\r\n-1\r\n",
        Ok(CANONICAL_TOUR),
    ),
    (TOUR, Ok(CANONICAL_TOUR)),
    (RECTANGLE, Ok(RECTANGLE)),
    // Three points in space: examples/in-space.tsp.
    (IN_SPACE, Ok(IN_SPACE)),
    // Others, whose coordinates are written in several ways.
    (
        "TYPE : TSP\nDIMENSION : 3\nEDGE_WEIGHT_TYPE : EUC_3D\nNODE_COORD_SECTION\n1 0 0 0\n2 2.50 3e0 -6\n3 .5 -1 4\nEOF\n",
        Ok(
            "TYPE : TSP\nDIMENSION : 3\nEDGE_WEIGHT_TYPE : EUC_3D\nNODE_COORD_SECTION\n1 0 0 0\n2 2.5 3 -6\n3 0.5 -1 4\nEOF\n",
        ),
    ),
    // What follows the EOF line isn't looked at.
    (
        "TYPE : TOUR\nTOUR_SECTION\n1 2 3\n-1\nEOF\n###\n1 x",
        Ok(CANONICAL_TOUR),
    ),
    // A value keeps a byte 13 inside, and none at its end.
    (
        "NAME : x\ry\r\nTYPE : TOUR\nTOUR_SECTION\n1 2 3\n-1\n",
        Ok("NAME : x\ry\nTYPE : TOUR\nTOUR_SECTION\n1\n2\n3\n-1\nEOF\n"),
    ),
    // The last line has no byte 10.
    (
        "TYPE : HCP",
        Err(ReadFault::Line {
            line: 1,
            word: 0,
            fault: LineFault::Outside,
        }),
    ),
    (
        "EOFX",
        Err(ReadFault::Line {
            line: 1,
            word: 0,
            fault: LineFault::UnknownLine,
        }),
    ),
    (
        "EOF\n###",
        Err(ReadFault::End(EndFault::Missing(Field::TypeKey))),
    ),
    ("", Err(ReadFault::End(EndFault::Missing(Field::TypeKey)))),
    // Empty lines count.
    (
        "TYPE : TOUR\n\n\r\nTOUR_SECTION\n 1\t2 \n x3",
        Err(ReadFault::Line {
            line: 6,
            word: 0,
            fault: LineFault::UnknownLine,
        }),
    ),
    (
        "TYPE : TOUR\n\n\r\nTOUR_SECTION\n 1\t2 \n 3 4x",
        Err(ReadFault::Line {
            line: 6,
            word: 2,
            fault: LineFault::Number(NumberFault::BadNumber),
        }),
    ),
];
