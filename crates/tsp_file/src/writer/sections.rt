//! Writes the sections of a canonical text that list points or numbers by node, nodes, pairs,
//! triples, or tours, for `writer.rt`. `specs/CanonicalText.antt` pins each line; a point's line is
//! built in one block of bytes, for speed.

ghost use Rattle.tsp_file.specs.Prelude.{decimal, flat_map, option_map, [], map, cond, length, drop, field_word};
ghost use Rattle.std.specs.Fmt.{signed_decimal};
ghost use Rattle.std.specs.Prelude.{◌≡◌, ◌+◌, ◌<◌, ◌^◌, ◌∷◌, ◌++◌, ◌≤◌};
ghost use Rattle.tsp_number.specs.NumberWord.{spelling};
ghost use Rattle.tsp_io.specs.states.Output.{Puts};
ghost use Rattle.tsp_file.specs.CanonicalText.{line_end, number_line, section_text, lines_by_node, node_list, pair_list, triple_list, coordinate_words, whole_number, optional};
ghost use Rattle.tsp_file.specs.states.Drafts.{points_of};

use crate::coords::Coords;
use itoa::write_digits;
use tsp_format::{Field, Word};
use tsp_io::{Output, Piece, Takes, put, put_next_number, put_number};
use tsp_number::{Decimal, InSpace, Point, write_spelling};

/// Adds the line that opens a section.
pub(crate) fn put_opening<W: Takes>(piece: &mut Piece, out: &mut Output<W>, field: Field)
    ensures { Puts W.contents out.old piece.old out.new piece.new (field_word field ++ line_end) }
{
    put(piece, out, field.word().as_bytes());
    put(piece, out, b"\n");
}

/// Adds the line of a node and its number.
fn put_number_line<W: Takes>(piece: &mut Piece, out: &mut Output<W>, node: usize, number: i64)
    ensures { Puts W.contents out.old piece.old out.new piece.new
        (number_line (decimal node) (whole_number number)) }
{
    put_number(piece, out, node);
    put_next_number(piece, out, number);
    put(piece, out, b"\n");
}

/// Adds the line of a node.
fn put_node_line<W: Takes>(piece: &mut Piece, out: &mut Output<W>, node: u32)
    ensures { Puts W.contents out.old piece.old out.new piece.new
        (number_line (decimal node) []) }
{
    put_number(piece, out, node);
    put(piece, out, b"\n");
}

/// Adds the line of a pair of nodes.
pub(crate) fn put_pair_line<W: Takes>(
    piece: &mut Piece,
    out: &mut Output<W>,
    first: u32,
    second: u32,
)
    ensures { Puts W.contents out.old piece.old out.new piece.new
        (number_line (decimal first) (decimal second ∷ [])) }
{
    put_number(piece, out, first);
    put_next_number(piece, out, second);
    put(piece, out, b"\n");
}

/// Adds the line of a pair of nodes and its number.
fn put_triple_line<W: Takes>(
    piece: &mut Piece,
    out: &mut Output<W>,
    first: u32,
    second: u32,
    number: i64,
)
    ensures { Puts W.contents out.old piece.old out.new piece.new
        (number_line (decimal first) (decimal second ∷ signed_decimal number ∷ [])) }
{
    put_number(piece, out, first);
    put_next_number(piece, out, second);
    put_next_number(piece, out, number);
    put(piece, out, b"\n");
}

/// Adds a line for each node, in rising order, with its number.
fn put_numbers<W: Takes>(piece: &mut Piece, out: &mut Output<W>, numbers: &[i64])
    ensures { Puts W.contents out.old piece.old out.new piece.new
        (lines_by_node whole_number numbers.now) }
{
    'nodes: for (index, number) in numbers.iter().enumerate() {
        put_number_line(piece, out, index + 1, *number);
    }
}

/// Adds a line for each node of a list, and the line -1.
fn put_nodes<W: Takes>(piece: &mut Piece, out: &mut Output<W>, nodes: &[u32])
    ensures { Puts W.contents out.old piece.old out.new piece.new (node_list nodes.now) }
{
    'nodes: for node in nodes {
        put_node_line(piece, out, *node);
    }
    put(piece, out, b"-1\n");
}

/// Adds a line for each pair of a list, and the line -1.
fn put_pairs<W: Takes>(piece: &mut Piece, out: &mut Output<W>, pairs: &[(u32, u32)])
    ensures { Puts W.contents out.old piece.old out.new piece.new (pair_list pairs.now) }
{
    'pairs: for (first, second) in pairs {
        put_pair_line(piece, out, *first, *second);
    }
    put(piece, out, b"-1\n");
}

/// Adds a line for each triple of a list, and the line -1.
fn put_triples<W: Takes>(piece: &mut Piece, out: &mut Output<W>, triples: &[(u32, u32, i64)])
    ensures { Puts W.contents out.old piece.old out.new piece.new (triple_list triples.now) }
{
    'triples: for (first, second, number) in triples {
        put_triple_line(piece, out, *first, *second, *number);
    }
    put(piece, out, b"-1\n");
}

/// Adds the nodes of each tour, and a line -1 after each.
fn put_tours<W: Takes>(piece: &mut Piece, out: &mut Output<W>, tours: &[Vec<u32>])
    ensures { Puts W.contents out.old piece.old out.new piece.new
        (flat_map node_list (map (λ t. t.items) tours.now)) }
{
    'tours: for tour in tours {
        put_nodes(piece, out, tour);
    }
}

/// Adds a section of one number for each node, if the file has it.
pub(crate) fn put_number_section<W: Takes>(
    piece: &mut Piece,
    out: &mut Output<W>,
    field: Field,
    numbers: Option<&[i64]>,
)
    ensures { Puts W.contents out.old piece.old out.new piece.new
        (optional (λ numbers. section_text field (lines_by_node whole_number numbers))
        (option_map (λ entries. entries.now) numbers.entry)) }
{
    if let Some(numbers) = numbers {
        put_opening(piece, out, field);
        put_numbers(piece, out, numbers);
    }
}

/// Adds a section of coordinates, three for each node in space and two in the plane, if the file
/// has it.
pub(crate) fn put_point_section<W: Takes>(
    piece: &mut Piece,
    out: &mut Output<W>,
    field: Field,
    points: Option<&Coords>,
    spatial: bool,
)
    ensures { Puts W.contents out.old piece.old out.new piece.new
        (optional (λ points. section_text field (lines_by_node (coordinate_words spatial) points))
        (option_map (λ points. points_of points.now) points.entry)) }
{
    if let Some(points) = points {
        put_opening(piece, out, field);
        match points {
            Coords::Plane(points) => put_points(piece, out, points, spatial),
            Coords::Space(points) => put_points(piece, out, points, spatial),
        }
    }
}

/// Adds a section of nodes, if the file has it.
pub(crate) fn put_node_section<W: Takes>(
    piece: &mut Piece,
    out: &mut Output<W>,
    field: Field,
    depots: &Option<Vec<u32>>,
)
    ensures { Puts W.contents out.old piece.old out.new piece.new (optional
        (λ depots. section_text field (node_list depots)) (option_map (λ v. v.items) depots.now)) }
{
    if let Some(depots) = depots {
        put_opening(piece, out, field);
        put_nodes(piece, out, depots);
    }
}

/// Adds a section of pairs of nodes, if the file has it.
pub(crate) fn put_pair_section<W: Takes>(
    piece: &mut Piece,
    out: &mut Output<W>,
    field: Field,
    pairs: &Option<Vec<(u32, u32)>>,
)
    ensures { Puts W.contents out.old piece.old out.new piece.new (optional
        (λ pairs. section_text field (pair_list pairs)) (option_map (λ v. v.items) pairs.now)) }
{
    if let Some(pairs) = pairs {
        put_opening(piece, out, field);
        put_pairs(piece, out, pairs);
    }
}

/// Adds a section of pairs of nodes with a number each, if the file has it.
pub(crate) fn put_triple_section<W: Takes>(
    piece: &mut Piece,
    out: &mut Output<W>,
    field: Field,
    triples: &Option<Vec<(u32, u32, i64)>>,
)
    ensures { Puts W.contents out.old piece.old out.new piece.new (optional (λ triples. section_text
        field (triple_list triples)) (option_map (λ v. v.items) triples.now)) }
{
    if let Some(triples) = triples {
        put_opening(piece, out, field);
        put_triples(piece, out, triples);
    }
}

/// Adds a section of tours, if the file has it.
pub(crate) fn put_tour_section<W: Takes>(
    piece: &mut Piece,
    out: &mut Output<W>,
    field: Field,
    tours: &Option<Vec<Vec<u32>>>,
)
    ensures { Puts W.contents out.old piece.old out.new piece.new
        (optional (λ tours. section_text field (flat_map node_list tours))
        (option_map (λ v. map (λ t. t.items) v.items) tours.now)) }
{
    if let Some(tours) = tours {
        put_opening(piece, out, field);
        put_tours(piece, out, tours);
    }
}

// ---- writes lines of a node and its coordinates

/// The most bytes of a line: a node of 20 digits, three coordinates of 21 bytes, each after a
/// blank, and the end.
const POINT_LINE: usize = 87;

/// Writes a blank and a coordinate so that they end at a place, and returns where they begin.
#[inline(always)]
fn write_coordinate(coordinate: Decimal, line: &mut [u8], end: usize) -> usize
    requires room { 22 ≤ end }
    requires within { end ≤ length line.old }
    ensures begins { result ≤ end }
    ensures short { end ≤ result + 22 }
    ensures written { drop result line.new ≡ 32 ∷ spelling coordinate ++ drop end line.old }
{
    let start = write_spelling(coordinate, line, end) - 1;
    line[start] = b' ';
    start
}

/// Writes the end of a line, preceded by the third coordinate of a point in space, and returns
/// where they begin.
#[inline(always)]
fn write_line_end(third: Decimal, spatial: bool, line: &mut [u8; POINT_LINE]) -> usize
    ensures begins { result ≤ 86 }
    ensures short { 64 ≤ result }
    ensures written { drop result line.new
        ≡ flat_map (λ word. 32 ∷ word) (cond spatial (spelling third ∷ []) []) ++ line_end }
{
    let end = POINT_LINE - 1;
    line[end] = b'\n';
    if spatial {
        return write_coordinate(third, line, end);
    }
    end
}

/// Writes the line of a node and its coordinates, three in space and two in the plane, at the end
/// of the block, and returns where it begins.
#[inline(always)]
fn write_point_line(node: usize, point: Point, spatial: bool, line: &mut [u8; POINT_LINE]) -> usize
    ensures begins { result ≤ 87 }
    ensures written { drop result line.new
        ≡ number_line (decimal node) (coordinate_words spatial point) }
{
    let third = write_line_end(point.z, spatial, line);
    let second = write_coordinate(point.y, line, third);
    let first = write_coordinate(point.x, line, second);
    write_digits(node as u64, line, first)
}

/// Adds the line of a node and its coordinates through the block, which is overwritten.
fn put_point_line<W: Takes>(
    piece: &mut Piece,
    out: &mut Output<W>,
    node: usize,
    point: Point,
    spatial: bool,
    line: &mut [u8; POINT_LINE],
)
    ensures { Puts W.contents out.old piece.old out.new piece.new
        (number_line (decimal node) (coordinate_words spatial point)) }
{
    let start = write_point_line(node, point, spatial, line);
    put(piece, out, &line[start..]);
}

/// Adds a line for each node, in rising order, with its coordinates.
fn put_points<W: Takes, P: InSpace>(
    piece: &mut Piece,
    out: &mut Output<W>,
    points: &[P],
    spatial: bool,
)
    ensures { Puts W.contents out.old piece.old out.new piece.new
        (lines_by_node (coordinate_words spatial) (map P.place points.now)) }
{
    let mut line = [0; POINT_LINE];
    'nodes: for (index, point) in points.iter().enumerate() {
        put_point_line(piece, out, index + 1, point.in_space(), spatial, &mut line);
    }
}
