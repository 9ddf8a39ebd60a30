//! Likely causes of a file's fault, such as compressed bytes, guessed from the part that was read.
//! `file_fault.rt` asks for one and prints it. No contract depends on it.

use crate::look::Look;
use tsp_file::EndFault;
use tsp_format::{Field, is_blank, is_letter};
use tsp_number::NumberFault;
use tsp_text::{LineFault, ReadFault};

/// The likely cause of a fault, if one is known.
pub(crate) fn cause(look: &Look, fault: ReadFault) -> Option<&'static str> {
    match fault {
        ReadFault::Line {
            line,
            word: _,
            fault,
        } => {
            let kind = if line == 1 {
                kind_of(look.head.as_slice()).or(cause_of_controls(look))
            } else {
                None
            };
            kind.or(cause_of_returns(look))
                .or(cause_of_line(look, fault))
        }
        ReadFault::End(fault) => cause_of_returns(look).or(cause_of_end(look, fault)),
        ReadFault::OutOfMemory | ReadFault::Device | ReadFault::TooLong => None,
    }
}

/// What the first bytes of a file say that is no text of TSPLIB 95.
fn kind_of(head: &[u8]) -> Option<&'static str> {
    if head.starts_with(&[31, 139]) {
        return Some(
            "The file seems to be compressed with gzip. Unpack it first: gunzip < FILE.gz > FILE.",
        );
    }
    if head.starts_with(b"BZh") || head.starts_with(&[253, 55]) || head.starts_with(b"PK") {
        return Some("The file seems to be compressed. Unpack it first.");
    }
    if head.starts_with(&[255, 254]) || head.starts_with(&[254, 255]) {
        return Some("The file seems to be in UTF-16. Convert it first: iconv -f UTF-16 -t UTF-8.");
    }
    if head.starts_with(&[239, 187, 191]) {
        return Some(
            "The file begins with a byte order mark (239 187 191). Remove it: tail -c +4 FILE.",
        );
    }
    None
}

/// The likely cause of a fault in the first line of a file that doesn't begin as a text does.
pub(crate) fn cause_of_first_byte(look: &Look, fault: ReadFault) -> Option<&'static str> {
    match (fault, look.head.first()) {
        (
            ReadFault::Line {
                line: 1,
                word: _,
                fault: _,
            },
            Some(byte),
        ) if !is_usual(*byte) => {
            Some("The file doesn't begin with a letter, a digit or a blank. Is it a text file?")
        }
        _ => None,
    }
}

/// Whether a text of TSPLIB 95 may begin with the byte: a letter, a number, a blank or an empty
/// line.
fn is_usual(byte: u8) -> bool {
    is_letter(byte)
        || is_blank(byte)
        || byte.is_ascii_digit()
        || byte == b'\n'
        || byte == b'-'
        || byte == b'+'
        || byte == b'.'
}

/// Whether the file may be no text at all.
fn cause_of_controls(look: &Look) -> Option<&'static str> {
    if look.has_controls {
        Some("The file contains control bytes. Is it a text file?")
    } else {
        None
    }
}

/// Whether the ends of lines may be the cause.
fn cause_of_returns(look: &Look) -> Option<&'static str> {
    if look.has_returns && !look.has_controls {
        Some("The lines of this file end in byte 13 instead of 10: tr '\\r' '\\n' < FILE.")
    } else {
        None
    }
}

/// The likely cause of a line fault.
fn cause_of_line(look: &Look, fault: LineFault) -> Option<&'static str> {
    let marked = look.excerpt.marked();
    match (fault, look.field) {
        (LineFault::Number(NumberFault::BadNumber), _) if marked.starts_with(b"#") => {
            Some("TSPLIB has no comments with #. Write a line COMMENT : .. instead.")
        }
        (LineFault::Number(NumberFault::OutOfRange), Some(Field::TourPart))
            if marked == b"0".as_slice() => {
            Some("Nodes count from 1. If the file counts them from 0, add 1 to each node.")
        }
        (LineFault::Outside, Some(Field::EdgeWeightTypeKey)) if marked.ends_with(b"GEO") => {
            Some(
                "The script geo.py turns it into a matrix: see the guide, \"Files of other programs\".",
            )
        }
        (LineFault::Surplus, _) if marked == b"EOF".as_slice() => {
            Some("EOF has to be on a line of its own. The recipe tidy.awk puts it there.")
        }
        (LineFault::Number(NumberFault::TooFine), Some(Field::NodeCoordPart)) => Some(
            "Round the coordinates to 9 decimals, or multiply all of them by a power of 10.\n\
             The script scale.py does either: --decimals 9, or --by 1000.\n\
             This changes the instance, so say so in a COMMENT.",
        ),
        (LineFault::Number(NumberFault::NotWhole), Some(Field::EdgeWeightPart)) => Some(
            "Round the weights, or multiply all of them by a power of 10.\n\
             This changes the instance, so say so in a COMMENT.",
        ),
        _ => None,
    }
}

/// The likely cause of an end fault.
fn cause_of_end(look: &Look, fault: EndFault) -> Option<&'static str> {
    match fault {
        EndFault::Missing(_) if look.has_small_letters => Some(
            "A line has this keyword in small letters. Write it in capitals.",
        ),
        EndFault::Missing(_)
        | EndFault::Incomplete(_)
        | EndFault::WrongFormat
        | EndFault::WrongCount => None,
    }
}
