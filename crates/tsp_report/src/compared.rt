//! Writes the head and the lines of `tsp compare`. tsp_judge calls it. `head_of` and
//! `solution_line` in `specs/Report.antt` pin every byte, and users' scripts rely on the lines.

ghost use Rattle.std.specs.Prelude.{◌++◌, codes, IfOk, ◌≡◌};
ghost use Rattle.tsp_number.specs.NumberWord.{number_fault_text};
ghost use Rattle.tsp_io.specs.Streams.{Writes};
ghost use Rattle.tsp_io.specs.states.Output.{sink_of, Puts};
ghost use Rattle.tsp_file.specs.Rules.{end_fault_text};
ghost use Rattle.tsp_text.specs.ParsesTo.{line_fault_text, read_fault_text};
ghost use Rattle.tsp_report.specs.Report.{head_of, known_lines, least_line, line_of_bound, gap_words, bound_words, verdict_words, found_words, solution_line, IsGapSized, IsSized};

use crate::report::{gap_of, put_instance, put_named, put_no, put_reason};
use crate::verdict::{KnownBound, Verdict};
use tsp_file::{EndFault, File};
use tsp_format::Word;
use tsp_io::{Output, Piece, Takes, WriteFault, hand_over, put, put_number};
use tsp_number::NumberFault;
use tsp_text::{LineFault, ReadFault};

/// Writes the head of a comparison of solutions of an instance: the lines on the instance; the
/// bound, or `none` if the instance has no solution; for TYPE CVRP the least number of routes
/// before it. Or `no` with the first reason against the instance or the certificate.
///
/// # Errors
///
/// `Device` if the writer fails, or had failed before: then a prefix of the head was written,
/// and nothing else. No memory is taken, so `OutOfMemory` is never returned.
pub fn write_head<W: Takes>(
    instance: &File,
    known_bound: KnownBound,
    out: &mut Output<W>,
) -> Result<(), WriteFault>
    ensures { Writes (sink_of W.contents out.old out.new) (head_of instance.now known_bound) result }
{
    if out.failed() {
        return Err(WriteFault::Device);
    }
    let mut piece = Piece::new();
    put_instance(&mut piece, out, instance);
    put_known_bound(&mut piece, out, instance, known_bound);
    hand_over(&mut piece, out);
    if out.failed() {
        Err(WriteFault::Device)
    } else {
        Ok(())
    }
}

/// Writes the line of one solution: the verdict on it, or the fault of its file, and then its path.
///
/// # Requires
///
/// A bound of at most 2^126 in size, so that the gap to the length fits 128 bits. A verdict's is at
/// most 2^100.
///
/// # Errors
///
/// Those of [`write_head`], with a prefix of the line.
pub fn write_line<W: Takes>(
    found: Result<Verdict, ReadFault>,
    path: &[u8],
    out: &mut Output<W>,
) -> Result<(), WriteFault>
    requires { IfOk found IsSized }
    ensures { Writes (sink_of W.contents out.old out.new) (solution_line found path.now) result }
{
    if out.failed() {
        return Err(WriteFault::Device);
    }
    let mut piece = Piece::new();
    put_found(&mut piece, out, found);
    put_path(&mut piece, out, path);
    hand_over(&mut piece, out);
    if out.failed() {
        Err(WriteFault::Device)
    } else {
        Ok(())
    }
}

/// Adds the lines on what all solutions have in common.
fn put_known_bound<W: Takes>(
    piece: &mut Piece,
    out: &mut Output<W>,
    instance: &File,
    known_bound: KnownBound,
)
    ensures { Puts W.contents out.old piece.old out.new piece.new
        (known_lines instance.now known_bound.least known_bound.found) }
{
    match known_bound.found {
        None => put_least(piece, out, known_bound.least),
        Some(Ok(Some(bound))) => {
            put_least(piece, out, known_bound.least);
            put_bound_line(piece, out, bound);
        }
        Some(Ok(None)) => put(piece, out, b"bound none\n"),
        Some(Err(reason)) => put_no(piece, out, instance, reason),
    }
}

/// Adds the line of the least number of routes, if it is known.
fn put_least<W: Takes>(piece: &mut Piece, out: &mut Output<W>, least: Option<u64>)
    ensures { Puts W.contents out.old piece.old out.new piece.new (least_line least) }
{
    if let Some(least) = least {
        put_named(piece, out, b"least ", least);
        put(piece, out, b"\n");
    }
}

/// Adds the line of a bound.
fn put_bound_line<W: Takes>(piece: &mut Piece, out: &mut Output<W>, bound: i128)
    ensures { Puts W.contents out.old piece.old out.new piece.new (line_of_bound bound) }
{
    put_named(piece, out, b"bound ", bound);
    put(piece, out, b"\n");
}

/// Adds the words on what was found about a solution.
fn put_found<W: Takes>(piece: &mut Piece, out: &mut Output<W>, found: Result<Verdict, ReadFault>)
    requires { IfOk found IsSized }
    ensures { Puts W.contents out.old piece.old out.new piece.new (found_words found) }
{
    match found {
        Ok(verdict) => put_words(piece, out, verdict),
        Err(fault) => put_fault(piece, out, fault),
    }
}

/// Adds the words on a verdict.
fn put_words<W: Takes>(piece: &mut Piece, out: &mut Output<W>, verdict: Verdict)
    requires { IsSized verdict }
    ensures { Puts W.contents out.old piece.old out.new piece.new (verdict_words verdict) }
{
    match verdict {
        Verdict::Tour { length, bound } => {
            put_number(piece, out, length);
            put_bound_words(piece, out, length, bound);
        }
        Verdict::Routes {
            length,
            routes,
            least: _,
            bound,
        } => {
            put_number(piece, out, length);
            put_named(piece, out, b" routes ", routes);
            put_bound_words(piece, out, length, bound);
        }
        Verdict::No(reason) => {
            put(piece, out, b"no ");
            put_reason(piece, out, reason);
        }
    }
}

/// Adds the words on a bound, if there is one.
fn put_bound_words<W: Takes>(
    piece: &mut Piece,
    out: &mut Output<W>,
    length: i64,
    bound: Option<i128>,
)
    requires { IsGapSized bound }
    ensures { Puts W.contents out.old piece.old out.new piece.new (bound_words length bound) }
{
    if let Some(bound) = bound {
        put_gap_words(piece, out, gap_of(length, bound));
    }
}

/// Adds by how much a length is more than a bound.
fn put_gap_words<W: Takes>(piece: &mut Piece, out: &mut Output<W>, gap: i128)
    ensures { Puts W.contents out.old piece.old out.new piece.new (gap_words gap) }
{
    if gap == 0 {
        put(piece, out, b" optimal");
        return;
    }
    put_named(piece, out, b" gap ", gap);
}

/// Adds a path, and the end of its line.
fn put_path<W: Takes>(piece: &mut Piece, out: &mut Output<W>, path: &[u8])
    ensures { Puts W.contents out.old piece.old out.new piece.new
        (codes " " ++ path.now ++ codes "\n") }
{
    put(piece, out, b" ");
    put(piece, out, path);
    put(piece, out, b"\n");
}

// ---- write the fault of a solution that isn't valid, in its line of `tsp compare`

/// Adds the text of a fault, as it is displayed.
fn put_fault<W: Takes>(piece: &mut Piece, out: &mut Output<W>, fault: ReadFault)
    ensures { Puts W.contents out.old piece.old out.new piece.new (read_fault_text fault) }
{
    match fault {
        ReadFault::Line { line, word, fault } => put_place(piece, out, line, word, fault),
        ReadFault::End(fault) => put_end(piece, out, fault),
        ReadFault::OutOfMemory => put(piece, out, b"out of memory"),
        ReadFault::Device => put(piece, out, b"device"),
        ReadFault::TooLong => put(piece, out, b"too long"),
    }
}

/// Adds the place and the name of a fault of a line.
fn put_place<W: Takes>(
    piece: &mut Piece,
    out: &mut Output<W>,
    line: u32,
    word: u32,
    fault: LineFault,
)
    ensures { Puts W.contents out.old piece.old out.new piece.new
        (read_fault_text (ReadFault.Line line word fault)) }
{
    put(piece, out, b"line ");
    put_number(piece, out, line);
    put(piece, out, b" word ");
    put_number(piece, out, word);
    put_name(piece, out, fault);
}

/// Adds the name of a fault of a line, after its place.
fn put_name<W: Takes>(piece: &mut Piece, out: &mut Output<W>, fault: LineFault)
    ensures { Puts W.contents out.old piece.old out.new piece.new
        (codes ": " ++ line_fault_text fault) }
{
    let (name, rest) = line_words(fault);
    put(piece, out, b": ");
    put(piece, out, name.as_bytes());
    put(piece, out, rest.as_bytes());
}

/// Adds the name of a fault of the lines together.
fn put_end<W: Takes>(piece: &mut Piece, out: &mut Output<W>, fault: EndFault)
    ensures { Puts W.contents out.old piece.old out.new piece.new
        (read_fault_text (ReadFault.End fault)) }
{
    let (name, rest) = end_words(fault);
    put(piece, out, b"end: ");
    put(piece, out, name.as_bytes());
    put(piece, out, rest.as_bytes());
}

/// The name of a fault of a line, in two parts.
fn line_words(fault: LineFault) -> (&'static str, &'static str)
    ensures { result.0.now ++ result.1.now ≡ line_fault_text fault }
{
    match fault {
        LineFault::LongLine => ("LongLine", ""),
        LineFault::UnknownLine => ("UnknownLine", ""),
        LineFault::Repeated => ("Repeated", ""),
        LineFault::Outside => ("Outside", ""),
        LineFault::BadValue => ("BadValue", ""),
        LineFault::SectionValue => ("SectionValue", ""),
        LineFault::SectionEarly => ("SectionEarly", ""),
        LineFault::TooManyNodes => ("TooManyNodes", ""),
        LineFault::StrayNumber => ("StrayNumber", ""),
        LineFault::Number(fault) => ("Number ", number_word(fault)),
        LineFault::RepeatedNode => ("RepeatedNode", ""),
        LineFault::SelfEdge => ("SelfEdge", ""),
        LineFault::Surplus => ("Surplus", ""),
        LineFault::AfterEnd => ("AfterEnd", ""),
        LineFault::LateSpace => ("LateSpace", ""),
    }
}

/// The name of a fault of a number word.
fn number_word(fault: NumberFault) -> &'static str
    ensures { result.now ≡ number_fault_text fault }
{
    match fault {
        NumberFault::LongWord => "LongWord",
        NumberFault::BadNumber => "BadNumber",
        NumberFault::TooFine => "TooFine",
        NumberFault::OutOfRange => "OutOfRange",
        NumberFault::NotWhole => "NotWhole",
    }
}

/// The name of a fault of the lines together, in two parts.
fn end_words(fault: EndFault) -> (&'static str, &'static str)
    ensures { result.0.now ++ result.1.now ≡ end_fault_text fault }
{
    match fault {
        EndFault::Missing(field) => ("Missing ", field.word()),
        EndFault::Incomplete(field) => ("Incomplete ", field.word()),
        EndFault::WrongFormat => ("WrongFormat", ""),
        EndFault::WrongCount => ("WrongCount", ""),
    }
}
