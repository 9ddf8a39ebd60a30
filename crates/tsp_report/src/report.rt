//! Writes the reports of `tsp check` and `tsp bound`. tsp_judge calls it. `report_of` and
//! `bound_report_of` in `specs/Report.antt` pin every byte.

ghost use Rattle.std.specs.Prelude.{◌≡◌, ◌++◌, ◌≤◌, ◌^◌, ◌-ℤ◌, Some, map, codes, unsigned_abs};
ghost use Rattle.tsp_io.specs.Streams.{Writes};
ghost use Rattle.tsp_io.specs.states.Output.{sink_of, Puts};
ghost use Rattle.tsp_format.specs.Words.{field_word};
ghost use Rattle.tsp_report.specs.Report.{report_of, instance_lines, type_line, nodes_line, not_judged, first_keyword, keyword_after_blank, no_line, verdict_lines, accepted_lines, bound_lines, gap_lines, IsGapSized, IsSized, after_blank, reason_text, bound_report_of, bound_found_lines};

use crate::verdict::{BoundVerdict, Reason, Verdict, row_of_reason};
use itoa::Integer;
use tsp_file::File;
use tsp_format::{Field, Kind, Word};
use tsp_io::{Output, Piece, Takes, WriteFault, hand_over, put, put_next_number, put_number};

/// Writes the report of a check: lines on the instance, on the verdict, `yes` or `no`.
///
/// # Requires
///
/// A bound of at most 2^126 in size, so that the gap to the length fits 128 bits. That of a verdict
/// is at most 2^100.
///
/// # Errors
///
/// `Device` if the writer fails, or had failed before: then a prefix of the report was written, and
/// nothing else. No memory is taken, so `OutOfMemory` is never returned.
pub fn write_report<W: Takes>(
    instance: &File,
    verdict: Verdict,
    out: &mut Output<W>,
) -> Result<(), WriteFault>
    requires { IsSized verdict }
    ensures { Writes (sink_of W.contents out.old out.new) (report_of instance.now verdict) result }
{
    if out.failed() {
        return Err(WriteFault::Device);
    }
    let mut piece = Piece::new();
    put_instance(&mut piece, out, instance);
    put_verdict(&mut piece, out, instance, verdict);
    hand_over(&mut piece, out);
    if out.failed() {
        Err(WriteFault::Device)
    } else {
        Ok(())
    }
}

/// Adds the lines on an instance.
pub(crate) fn put_instance<W: Takes>(piece: &mut Piece, out: &mut Output<W>, instance: &File)
    ensures { Puts W.contents out.old piece.old out.new piece.new (instance_lines instance.now) }
{
    put_type(piece, out, instance.kind());
    put_nodes(piece, out, instance.dimension().unwrap_or(0));
    put_others(piece, out, instance.others());
}

/// Adds the line of TYPE.
pub(crate) fn put_type<W: Takes>(piece: &mut Piece, out: &mut Output<W>, kind: Kind)
    ensures { Puts W.contents out.old piece.old out.new piece.new (type_line (Some kind)) }
{
    put(piece, out, b"type ");
    put(piece, out, kind.word().as_bytes());
    put(piece, out, b"\n");
}

/// Adds the line of a number of nodes.
pub(crate) fn put_nodes<W: Takes>(piece: &mut Piece, out: &mut Output<W>, nodes: u32)
    ensures { Puts W.contents out.old piece.old out.new piece.new (nodes_line nodes) }
{
    put_named(piece, out, b"nodes ", nodes);
    put(piece, out, b"\n");
}

/// Adds a line for each line of an unknown keyword.
pub(crate) fn put_others<W: Takes>(
    piece: &mut Piece,
    out: &mut Output<W>,
    others: &[(Vec<u8>, Vec<u8>)],
)
    ensures { Puts W.contents out.old piece.old out.new piece.new
        (not_judged (map (λ line. (line.0.items, line.1.items)) others.now)) }
{
    'lines: for (keyword, _) in others {
        put_other(piece, out, keyword);
    }
}

/// Adds the line of an unknown keyword.
fn put_other<W: Takes>(piece: &mut Piece, out: &mut Output<W>, keyword: &[u8])
    ensures { Puts W.contents out.old piece.old out.new piece.new
        (codes "not judged " ++ keyword.now ++ codes "\n") }
{
    put(piece, out, b"not judged ");
    put(piece, out, keyword);
    put(piece, out, b"\n");
}

/// Adds some words and the digits of a number.
pub(crate) fn put_named<W: Takes, N: Integer>(
    piece: &mut Piece,
    out: &mut Output<W>,
    words: &[u8],
    number: N,
)
    ensures { Puts W.contents out.old piece.old out.new piece.new (words.now ++ N.text number) }
{
    put(piece, out, words);
    put_number(piece, out, number);
}

/// Adds the lines on a verdict.
fn put_verdict<W: Takes>(piece: &mut Piece, out: &mut Output<W>, instance: &File, verdict: Verdict)
    requires { IsSized verdict }
    ensures { Puts W.contents out.old piece.old out.new piece.new (verdict_lines instance.now verdict) }
{
    match verdict {
        Verdict::Tour { length, bound } => put_accepted(piece, out, length, bound),
        Verdict::Routes {
            length,
            routes,
            least,
            bound,
        } => {
            put_named(piece, out, b"routes ", routes);
            put_named(piece, out, b"\nleast ", least);
            put(piece, out, b"\n");
            put_accepted(piece, out, length, bound);
        }
        Verdict::No(reason) => put_no(piece, out, instance, reason),
    }
}

/// Adds the lines of a length and of a bound, if there is one, and the line `yes`.
fn put_accepted<W: Takes>(piece: &mut Piece, out: &mut Output<W>, length: i64, bound: Option<i128>)
    requires { IsGapSized bound }
    ensures { Puts W.contents out.old piece.old out.new piece.new (accepted_lines length bound) }
{
    put_named(piece, out, b"length ", length);
    put(piece, out, b"\n");
    put_bound(piece, out, length, bound);
    put(piece, out, b"yes\n");
}

/// Adds the line `no` with its reason. After `NotJudged` and `NotUsed` it names a keyword of the
/// instance.
pub(crate) fn put_no<W: Takes>(
    piece: &mut Piece,
    out: &mut Output<W>,
    instance: &File,
    reason: Reason,
)
    ensures { Puts W.contents out.old piece.old out.new piece.new (no_line instance.now reason) }
{
    put(piece, out, b"no ");
    put_reason(piece, out, reason);
    put_keyword(piece, out, instance, reason);
    put(piece, out, b"\n");
}

/// Adds a blank and the first unknown keyword of the instance, if that is the reason, or the word
/// of the field that isn't used.
fn put_keyword<W: Takes>(piece: &mut Piece, out: &mut Output<W>, instance: &File, reason: Reason)
    ensures { Puts W.contents out.old piece.old out.new piece.new
        (keyword_after_blank instance.now reason) }
{
    match reason {
        Reason::NotJudged => put_first(piece, out, instance.others()),
        Reason::NotUsed { field } => put_field(piece, out, field),
        _ => {}
    }
}

/// Adds a blank and the first keyword, if there is one.
fn put_first<W: Takes>(piece: &mut Piece, out: &mut Output<W>, others: &[(Vec<u8>, Vec<u8>)])
    ensures { Puts W.contents out.old piece.old out.new piece.new
        (first_keyword (map (λ line. (line.0.items, line.1.items)) others.now)) }
{
    if let [(keyword, _), ..] = others {
        put(piece, out, b" ");
        put(piece, out, keyword);
    }
}

/// Adds a blank and the word of a field.
fn put_field<W: Takes>(piece: &mut Piece, out: &mut Output<W>, field: Field)
    ensures { Puts W.contents out.old piece.old out.new piece.new (codes " " ++ field_word field) }
{
    put(piece, out, b" ");
    put(piece, out, field.word().as_bytes());
}

/// Adds the line of a bound and the line after it, if there is one.
fn put_bound<W: Takes>(piece: &mut Piece, out: &mut Output<W>, length: i64, bound: Option<i128>)
    requires { IsGapSized bound }
    ensures { Puts W.contents out.old piece.old out.new piece.new (bound_lines length bound) }
{
    if let Some(bound) = bound {
        put_named(piece, out, b"bound ", bound);
        put_gap(piece, out, gap_of(length, bound));
    }
}

/// By how much a length is more than a bound.
pub(crate) fn gap_of(length: i64, bound: i128) -> i128
    requires { unsigned_abs bound ≤ 2 ^ 126 }
    ensures { result ≡ length -ℤ bound }
{
    i128::from(length) - bound
}

/// Adds by how much a length is more than a bound.
fn put_gap<W: Takes>(piece: &mut Piece, out: &mut Output<W>, gap: i128)
    ensures { Puts W.contents out.old piece.old out.new piece.new (gap_lines gap) }
{
    if gap == 0 {
        put(piece, out, b"\noptimal\n");
        return;
    }
    put_named(piece, out, b"\ngap ", gap);
    put(piece, out, b"\n");
}

// ---- write a reason: its name and its numbers

/// Adds the name of a reason, and its numbers.
pub(crate) fn put_reason<W: Takes>(piece: &mut Piece, out: &mut Output<W>, reason: Reason)
    ensures { Puts W.contents out.old piece.old out.new piece.new (reason_text reason) }
{
    let row = row_of_reason(reason);
    put(piece, out, row.name.as_bytes());
    put_after_blank(piece, out, row.numbers.0);
    put_after_blank(piece, out, row.numbers.1);
}

/// Adds a blank and a number, if there is one. A length may be below 0.
fn put_after_blank<W: Takes>(piece: &mut Piece, out: &mut Output<W>, number: Option<i64>)
    ensures { Puts W.contents out.old piece.old out.new piece.new (after_blank number) }
{
    if let Some(number) = number {
        put_next_number(piece, out, number);
    }
}

// ---- write the report of `tsp bound`

/// Writes the report on the bound of an instance, line by line: the lines on the instance; the
/// bound, or `none` if the instance has no solution, and `yes`; or `no` with the first reason
/// against the instance or the certificate.
///
/// # Errors
///
/// `Device` if the writer fails, or had failed before: then a prefix of the report was written,
/// and nothing else. No memory is taken, so `OutOfMemory` is never returned.
pub fn write_bound<W: Takes>(
    instance: &File,
    found: BoundVerdict,
    out: &mut Output<W>,
) -> Result<(), WriteFault>
    ensures { Writes (sink_of W.contents out.old out.new)
        (bound_report_of instance.now found) result }
{
    if out.failed() {
        return Err(WriteFault::Device);
    }
    let mut piece = Piece::new();
    put_instance(&mut piece, out, instance);
    put_found(&mut piece, out, instance, found);
    hand_over(&mut piece, out);
    if out.failed() {
        Err(WriteFault::Device)
    } else {
        Ok(())
    }
}

/// Adds the line of a bound and the line `yes`, or the line `no`.
fn put_found<W: Takes>(piece: &mut Piece, out: &mut Output<W>, instance: &File, found: BoundVerdict)
    ensures { Puts W.contents out.old piece.old out.new piece.new (bound_found_lines instance.now found) }
{
    match found {
        Ok(Some(bound)) => {
            put_named(piece, out, b"bound ", bound);
            put(piece, out, b"\nyes\n");
        }
        Ok(None) => put(piece, out, b"bound none\nyes\n"),
        Err(reason) => put_no(piece, out, instance, reason),
    }
}
