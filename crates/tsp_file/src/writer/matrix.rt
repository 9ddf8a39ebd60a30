//! Writes EDGE_WEIGHT_SECTION, a line for each line of the layout, for `writer.rt`. `matrix_lines`
//! in `specs/CanonicalText.antt` pins the bytes. The section can be very long, so numbers are
//! written into blocks of bytes, for speed.

ghost use Rattle.tsp_file.specs.Prelude.{decimal, flat_map, option_map, length, map, drop, IfSome, cells_of_line, nodes_to};
ghost use Rattle.std.specs.Fmt.{signed_decimal};
ghost use Rattle.std.specs.Prelude.{◌≡◌, ◌∷◌, ◌≤◌, ◌+◌, ◌/◌, ◌%◌, ◌<◌, ◌++◌};
ghost use Rattle.tsp_io.specs.states.Output.{Puts};
ghost use Rattle.tsp_file.specs.CanonicalText.{weight_line, matrix_lines, line_lens, section_text, optional};

use crate::writer::sections::put_opening;
use tsp_format::{Field, Layout, WeightFormat};
use tsp_io::{Output, Piece, Takes, put, put_next_number, put_number};
use tsp_number::write_pair;

/// Adds weights, with a blank before each.
fn put_more_weights<W: Takes>(piece: &mut Piece, out: &mut Output<W>, weights: &[i64])
    ensures { Puts W.contents out.old piece.old out.new piece.new
        (flat_map (λ word. 32 ∷ word) (map signed_decimal weights.now)) }
{
    let mut block = [0; BLOCK];
    let mut rest = weights;
    'parts: while !rest.is_empty() {
        let (front, later) = rest.split_at(rest.len().min(MOST_WEIGHTS));
        put_block(piece, out, front, &mut block);
        rest = later;
    }
}

/// Adds a line with these weights; no line if there are none.
fn put_weight_line<W: Takes>(piece: &mut Piece, out: &mut Output<W>, weights: &[i64])
    ensures { Puts W.contents out.old piece.old out.new piece.new (weight_line weights.now) }
{
    if let Some((first, rest)) = weights.split_first() {
        put_number(piece, out, *first);
        put_more_weights(piece, out, rest);
        put(piece, out, b"\n");
    }
}

/// Adds one line for each row of the layout that has cells, or for each column of a layout by
/// columns.
///
/// Weights past the last line, which a valid file doesn't have, get one more line.
fn put_lines<W: Takes>(
    piece: &mut Piece,
    out: &mut Output<W>,
    layout: Layout,
    nodes: u32,
    weights: &[i64],
)
    ensures { Puts W.contents out.old piece.old out.new piece.new (matrix_lines
        (map (λ k. length (cells_of_line layout nodes k)) (nodes_to nodes)) weights.now) }
{
    let mut rest = weights;
    'lines: for index in 0..nodes {
        // A writer that has failed gets nothing more, so there is no need to make digits for it.
        if out.failed() {
            return;
        }
        let len = layout.line_len(nodes, index + 1) as usize;
        let (line, later) = rest.split_at(len.min(rest.len()));
        put_weight_line(piece, out, line);
        rest = later;
    }
    put_weight_line(piece, out, rest);
}

/// Adds the lines of a matrix.
///
/// Weights with no layout or no dimension, which a valid file doesn't have, get one line.
fn put_matrix<W: Takes>(
    piece: &mut Piece,
    out: &mut Output<W>,
    format: Option<WeightFormat>,
    dimension: Option<u32>,
    weights: &[i64],
)
    ensures { Puts W.contents out.old piece.old out.new piece.new
        (matrix_lines (line_lens format dimension) weights.now) }
{
    match format {
        Some(WeightFormat::Listed(layout)) => match dimension {
            Some(nodes) => put_lines(piece, out, layout, nodes, weights),
            None => put_weight_line(piece, out, weights),
        },
        Some(WeightFormat::ByFunction) => put_weight_line(piece, out, weights),
        None => put_weight_line(piece, out, weights),
    }
}

/// Adds a section of weights, if the file has it.
pub(crate) fn put_weight_section<W: Takes>(
    piece: &mut Piece,
    out: &mut Output<W>,
    field: Field,
    format: Option<WeightFormat>,
    dimension: Option<u32>,
    weights: &Option<Vec<i64>>,
)
    ensures { Puts W.contents out.old piece.old out.new piece.new
        (optional (λ weights. section_text field (matrix_lines (line_lens format dimension)
        weights)) (option_map (λ v. v.items) weights.now)) }
{
    if let Some(weights) = weights {
        put_opening(piece, out, field);
        put_matrix(piece, out, format, dimension, weights);
    }
}

// ---- up to 64 weights of at most eight digits, written as one block of bytes

/// The most weights of a block.
const MOST_WEIGHTS: usize = 64;

/// The bytes of a block: a blank and eight digits for each weight.
const BLOCK: usize = 576;

/// Writes weights, with a blank before each, at the end of the block, and returns where they begin;
/// `None` if one of them is negative or has more than eight digits.
fn fill(weights: &[i64], block: &mut [u8; BLOCK]) -> Option<usize>
    requires { length weights.now ≤ 64 }
    ensures { IfSome result (λ start. (start ≤ 576)
        × (drop start block.new ≡ flat_map (λ weight. 32 ∷ signed_decimal weight) weights.now)) }
{
    let mut start = BLOCK;
    'weights: for index in (0..weights.len()).rev() {
        let weight = weights[index];
        if weight < 0 || weight >= 100_000_000 {
            return None;
        }
        start = write_digits(weight as u32, block, start) - 1;
        block[start] = b' ';
    }
    Some(start)
}

/// Adds weights one by one, with a blank before each.
fn put_each<W: Takes>(piece: &mut Piece, out: &mut Output<W>, weights: &[i64])
    ensures { Puts W.contents out.old piece.old out.new piece.new
        (flat_map (λ weight. 32 ∷ signed_decimal weight) weights.now) }
{
    'weights: for weight in weights {
        put_next_number(piece, out, *weight);
    }
}

/// Adds weights, with a blank before each, through the block, which is overwritten.
fn put_block<W: Takes>(
    piece: &mut Piece,
    out: &mut Output<W>,
    weights: &[i64],
    block: &mut [u8; BLOCK],
)
    requires { length weights.now ≤ 64 }
    ensures { Puts W.contents out.old piece.old out.new piece.new
        (flat_map (λ weight. 32 ∷ signed_decimal weight) weights.now) }
{
    match fill(weights, block) {
        Some(start) => put(piece, out, &block[start..]),
        None => put_each(piece, out, weights),
    }
}

// ---- the digits of a whole number, written into a block of bytes from the last to the first

/// How many digits a number has.
#[inline(always)]
fn digit_count(number: u32) -> usize
    ensures { result ≡ length (decimal number) }
{
    number.max(1).ilog10() as usize + 1
}

/// Writes a number of at most eight digits so that it ends at a place, and returns where it begins.
///
/// Eight digits are always written, with zeros in front, because no processor could predict how
/// many the next number has. What belongs before the number is written over the zeros afterwards.
#[inline(always)]
fn write_digits(number: u32, block: &mut [u8], end: usize) -> usize
    requires few { number < 100000000 }
    requires room { 8 ≤ end }
    requires within { end ≤ length block.old }
    ensures start { result + length (decimal number) ≡ end }
    ensures short { end ≤ result + 8 }
    ensures written { drop result block.new ≡ decimal number ++ drop end block.old }
{
    let high = number / 10_000;
    let low = number % 10_000;
    write_pair(low % 100, block, end - 2);
    write_pair(low / 100, block, end - 4);
    write_pair(high % 100, block, end - 6);
    write_pair(high / 100, block, end - 8);
    end - digit_count(number)
}
