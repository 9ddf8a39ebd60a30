//! Why a text isn't a valid file: `LineFault` for a line or a word, `ReadFault` for the whole read.
//! tsp_read returns them. `specs/ParsesTo.antt` pins their printed texts, which docs/format.md
//! lists.
//!
//! A new variant needs its row in `specs/FaultRows.antt` and its text in `specs/ParsesTo.antt`.
//! tsp_report, tsp_explain and tsp_c name every variant, too.

use std::fmt;
use thiserror::Error;
use tsp_file::EndFault;
use tsp_number::NumberFault;

/// What is wrong with a line or a word, in the order in which it is judged.
#[derive(Clone, Copy, Debug, PartialEq, Eq, Error)]
pub enum LineFault {
    /// A word line has more than 4,096 bytes from its first byte that isn't blank to its end.
    LongLine,
    /// An unknown keyword has no colon.
    UnknownLine,
    /// An earlier line has this keyword, other than COMMENT, or this section.
    Repeated,
    /// The value is one of TSPLIB 95's that this profile leaves out.
    Outside,
    /// The value isn't one that the keyword accepts, is missing, or is too long to be kept.
    BadValue,
    /// The line of a section has a value.
    SectionValue,
    /// A section other than TOUR_SECTION comes before DIMENSION.
    SectionEarly,
    /// EDGE_WEIGHT_SECTION is present although DIMENSION is larger than 5,000.
    TooManyNodes,
    /// A number appears while no section is open.
    StrayNumber,
    /// A number is wanted, and the word isn't one that is accepted here.
    Number(NumberFault),
    /// The node of a group has an earlier group.
    RepeatedNode,
    /// The two nodes of a fixed pair, of a triple with its multiplier, or of a branch are equal.
    SelfEdge,
    /// There are more lines or words than a file may have.
    Surplus,
    /// A word other than `-1` appears after the -1 that ended the list, the families or the rows.
    AfterEnd,
    /// The line says that the nodes have three coordinates, after a NODE_COORD_SECTION with two for
    /// each.
    LateSpace,
}

impl fmt::Display for LineFault {
    ghost use Rattle.std.specs.Prelude.{Some};
    ghost use Rattle.tsp_text.specs.ParsesTo.{line_fault_text};

    ghost output = { λ fault. Some (line_fault_text fault) };

    fn fmt<W: fmt::Write>(&self, f: &mut fmt::Formatter<W>) -> fmt::Result {
        match *self {
            LineFault::LongLine => f.write_str("LongLine"),
            LineFault::UnknownLine => f.write_str("UnknownLine"),
            LineFault::Repeated => f.write_str("Repeated"),
            LineFault::Outside => f.write_str("Outside"),
            LineFault::BadValue => f.write_str("BadValue"),
            LineFault::SectionValue => f.write_str("SectionValue"),
            LineFault::SectionEarly => f.write_str("SectionEarly"),
            LineFault::TooManyNodes => f.write_str("TooManyNodes"),
            LineFault::StrayNumber => f.write_str("StrayNumber"),
            LineFault::Number(fault) => write!(f, "Number {fault}"),
            LineFault::RepeatedNode => f.write_str("RepeatedNode"),
            LineFault::SelfEdge => f.write_str("SelfEdge"),
            LineFault::Surplus => f.write_str("Surplus"),
            LineFault::AfterEnd => f.write_str("AfterEnd"),
            LineFault::LateSpace => f.write_str("LateSpace"),
        }
    }
}

/// Why a file isn't read.
#[derive(Clone, Copy, Debug, PartialEq, Eq, Error)]
pub enum ReadFault {
    /// The first line with a fault, counted from 1, and in a number line its first word with one,
    /// also counted from 1. In a word line `word` is 0.
    Line {
        line: u32,
        word: u32,
        fault: LineFault,
    },
    /// No line has a fault, but the lines together aren't a valid file.
    End(EndFault),
    /// Out of memory.
    OutOfMemory,
    /// A read failed.
    Device,
    /// There are more than 1,073,741,824 bytes, and the first of them have neither a fault nor an
    /// EOF line.
    TooLong,
}

impl fmt::Display for ReadFault {
    ghost use Rattle.std.specs.Prelude.{Some};
    ghost use Rattle.tsp_text.specs.ParsesTo.{read_fault_text};

    ghost output = { λ fault. Some (read_fault_text fault) };

    fn fmt<W: fmt::Write>(&self, f: &mut fmt::Formatter<W>) -> fmt::Result {
        match *self {
            ReadFault::Line { line, word, fault } => write!(f, "line {line} word {word}: {fault}"),
            ReadFault::End(fault) => write!(f, "end: {fault}"),
            ReadFault::OutOfMemory => f.write_str("out of memory"),
            ReadFault::Device => f.write_str("device"),
            ReadFault::TooLong => f.write_str("too long"),
        }
    }
}
