//! Writes the lines of `tsp show`. tsp_judge calls it. `shown` in `specs/Show.antt` pins every
//! byte.

ghost use Rattle.std.specs.List.{flat_map, enumerate_from};
ghost use Rattle.std.specs.Option.{option_map, option_map_or};
ghost use Rattle.std.specs.Prelude.{◌≡◌, ◌++◌, [], map, false};
ghost use Rattle.tsp_format.specs.Steps.{leaf_count};
ghost use Rattle.tsp_format.specs.states.TreeSteps.{subset_rows_of, steps_of};
ghost use Rattle.tsp_io.specs.Streams.{Writes};
ghost use Rattle.tsp_io.specs.states.Output.{sink_of, Puts};
ghost use Rattle.tsp_file.specs.Rules.{is_instance};
ghost use Rattle.tsp_file.specs.states.Drafts.{families_of};
ghost use Rattle.tsp_report.specs.Report.{nodes_line, not_judged};
ghost use Rattle.tsp_report.specs.Show.{shown, head_lines, name_line, lines_by_type, cost_lines, weights_line, layout_part, canonical_line, fixed_line, all_tour_lines, tour_line, scale_line, load_unit_line, families_line, memory_line, rows_line, part_lines, leaves_line, tree_lines};

use crate::report::{put_named, put_nodes, put_others, put_type};
use tsp_cost::{Instance, canonical_length};
use tsp_file::File;
use tsp_format::{Kind, RowSets, TreeStep, WeightFormat, WeightKind, Word};
use tsp_io::{Output, Piece, Takes, WriteFault, hand_over, put};

/// Writes the lines of `show`: a file's NAME, its TYPE, the number of its nodes, and the rest of
/// its contents.
///
/// # Errors
///
/// `Device` if the writer fails, or had failed before: then a prefix of the lines was written, and
/// nothing else. No memory is taken, so `OutOfMemory` is never returned.
pub fn write_shown<W: Takes>(file: File, out: &mut Output<W>) -> Result<(), WriteFault>
    ensures { Writes (sink_of W.contents out.old out.new) (shown file) result }
{
    if out.failed() {
        drop(file);
        return Err(WriteFault::Device);
    }
    let mut piece = Piece::new();
    put_head(&mut piece, out, &file);
    put_rest(&mut piece, out, file);
    hand_over(&mut piece, out);
    if out.failed() {
        Err(WriteFault::Device)
    } else {
        Ok(())
    }
}

/// Adds the lines that every file has.
fn put_head<W: Takes>(piece: &mut Piece, out: &mut Output<W>, file: &File)
    ensures { Puts W.contents out.old piece.old out.new piece.new (head_lines file.now) }
{
    put_name(piece, out, file.name());
    put_type(piece, out, file.kind());
    put_dimension(piece, out, file.dimension());
}

/// Adds the lines by TYPE, and those of unknown keywords.
fn put_rest<W: Takes>(piece: &mut Piece, out: &mut Output<W>, file: File)
    ensures { Puts W.contents out.old piece.old out.new piece.new
        (lines_by_type file.kind file ++ not_judged file.others) }
{
    match Instance::of(file) {
        Ok(instance) => {
            put_costs(piece, out, &instance);
            put_others(piece, out, instance.file().others());
            drop(instance);
        }
        Err((_, file)) => {
            put_solution(piece, out, &file);
            put_others(piece, out, file.others());
            drop(file);
        }
    }
}

/// Adds the line of NAME, if it has a value that isn't empty.
fn put_name<W: Takes>(piece: &mut Piece, out: &mut Output<W>, name: Option<&[u8]>)
    ensures { Puts W.contents out.old piece.old out.new piece.new
        (name_line (option_map (λ value. value.now) name.entry)) }
{
    let Some(value) = name else {
        return;
    };
    if value.is_empty() {
        return;
    }
    put(piece, out, b"name ");
    put(piece, out, value);
    put(piece, out, b"\n");
}

/// Adds the line of DIMENSION, if it is present.
fn put_dimension<W: Takes>(piece: &mut Piece, out: &mut Output<W>, dimension: Option<u32>)
    ensures { Puts W.contents out.old piece.old out.new piece.new
        (option_map_or nodes_line dimension []) }
{
    if let Some(nodes) = dimension {
        put_nodes(piece, out, nodes);
    }
}

/// Adds the lines that only an instance has.
fn put_costs<W: Takes>(piece: &mut Piece, out: &mut Output<W>, instance: &Instance)
    ensures { Puts W.contents out.old piece.old out.new piece.new (cost_lines instance.now) }
{
    let file = instance.file();
    put_weights(piece, out, file.weight_kind(), file.weight_format());
    put_canonical(piece, out, canonical_length(instance));
    put_fixed(piece, out, file.fixed());
}

/// Adds the line of the weight type, with the layout of listed weights.
fn put_weights<W: Takes>(
    piece: &mut Piece,
    out: &mut Output<W>,
    kind: Option<WeightKind>,
    format: Option<WeightFormat>,
)
    ensures { Puts W.contents out.old piece.old out.new piece.new (weights_line kind format) }
{
    put(piece, out, b"weights ");
    put_word(piece, out, kind);
    put_layout(piece, out, kind, format);
    put(piece, out, b"\n");
}

/// Adds a blank and the word of the layout, if the weights are listed.
fn put_layout<W: Takes>(
    piece: &mut Piece,
    out: &mut Output<W>,
    kind: Option<WeightKind>,
    format: Option<WeightFormat>,
)
    ensures { Puts W.contents out.old piece.old out.new piece.new (layout_part kind format) }
{
    let Some(WeightKind::Explicit) = kind else {
        return;
    };
    put(piece, out, b" ");
    put_word(piece, out, format);
}

/// Adds the word of a value, if it is present.
fn put_word<W: Takes, V: Word>(piece: &mut Piece, out: &mut Output<W>, value: Option<V>)
    ensures { Puts W.contents out.old piece.old out.new piece.new (option_map_or V.text value []) }
{
    if let Some(value) = value {
        put(piece, out, value.word().as_bytes());
    }
}

/// Adds the line of a length.
fn put_canonical<W: Takes>(piece: &mut Piece, out: &mut Output<W>, length: i64)
    ensures { Puts W.contents out.old piece.old out.new piece.new (canonical_line length) }
{
    put_named(piece, out, b"canonical ", length);
    put(piece, out, b"\n");
}

/// Adds the line of the number of fixed pairs, if a section lists them.
fn put_fixed<W: Takes>(piece: &mut Piece, out: &mut Output<W>, pairs: Option<&[(u32, u32)]>)
    ensures { Puts W.contents out.old piece.old out.new piece.new
        (fixed_line (option_map (λ pairs. pairs.now) pairs.entry)) }
{
    if let Some(pairs) = pairs {
        put_named(piece, out, b"fixed ", pairs.len());
        put(piece, out, b"\n");
    }
}

/// Adds the lines of a file that isn't an instance: those of tours, the scale of potentials, or
/// those of a tree of cases.
fn put_solution<W: Takes>(piece: &mut Piece, out: &mut Output<W>, file: &File)
    requires { is_instance file.now.kind ≡ false }
    ensures { Puts W.contents out.old piece.old out.new piece.new
        (lines_by_type file.now.kind file.now) }
{
    match file.kind() {
        Kind::Tour => put_tours(piece, out, file.tours().unwrap_or(&[])),
        Kind::Branches => put_tree(piece, out, file),
        // It isn't an instance, so it contains potentials.
        _ => put_scale(piece, out, file.scale()),
    }
}

/// Adds the number of tours, and a line for each.
fn put_tours<W: Takes>(piece: &mut Piece, out: &mut Output<W>, tours: &[Vec<u32>])
    ensures { Puts W.contents out.old piece.old out.new piece.new
        (all_tour_lines (map (λ tour. tour.items) tours.now)) }
{
    put_named(piece, out, b"tours ", tours.len());
    put(piece, out, b"\n");
    put_each_tour(piece, out, tours);
}

/// Adds a line for each tour.
fn put_each_tour<W: Takes>(piece: &mut Piece, out: &mut Output<W>, tours: &[Vec<u32>])
    ensures { Puts W.contents out.old piece.old out.new piece.new
        (flat_map tour_line (enumerate_from 1 (map (λ tour. tour.items) tours.now))) }
{
    'tours: for (index, tour) in tours.iter().enumerate() {
        put_tour(piece, out, index + 1, tour);
    }
}

/// Adds the line of a tour with its number.
fn put_tour<W: Takes>(piece: &mut Piece, out: &mut Output<W>, number: usize, tour: &[u32])
    ensures { Puts W.contents out.old piece.old out.new piece.new (tour_line (number, tour.now)) }
{
    put_named(piece, out, b"tour ", number);
    put_named(piece, out, b" nodes ", tour.len());
    put(piece, out, b"\n");
}

/// Adds the line of SCALE, which is 1 if it is missing.
fn put_scale<W: Takes>(piece: &mut Piece, out: &mut Output<W>, scale: Option<i64>)
    ensures { Puts W.contents out.old piece.old out.new piece.new (scale_line scale) }
{
    put_named(piece, out, b"scale ", scale.unwrap_or(1));
    put(piece, out, b"\n");
}

/// Adds the line of LOAD_UNIT, if it is present.
fn put_load_unit<W: Takes>(piece: &mut Piece, out: &mut Output<W>, unit: Option<i64>)
    ensures { Puts W.contents out.old piece.old out.new piece.new (load_unit_line unit) }
{
    if let Some(unit) = unit {
        put_named(piece, out, b"load unit ", unit);
        put(piece, out, b"\n");
    }
}

/// Adds the lines of a tree of cases: its scale, its load unit, and how many families, lists of a
/// memory, subset rows and leaves it has.
fn put_tree<W: Takes>(piece: &mut Piece, out: &mut Output<W>, file: &File)
    ensures { Puts W.contents out.old piece.old out.new piece.new (tree_lines file.now) }
{
    put_scale(piece, out, file.scale());
    put_load_unit(piece, out, file.load_unit());
    put_parts(piece, out, file);
    put_leaves(piece, out, file.branches().unwrap_or(&[]));
}

/// Adds how many families, lists of a memory and subset rows there are, for each section that is
/// present.
fn put_parts<W: Takes>(piece: &mut Piece, out: &mut Output<W>, file: &File)
    ensures { Puts W.contents out.old piece.old out.new piece.new (part_lines file.now) }
{
    put_families(piece, out, file.families());
    put_memory(piece, out, file.memories());
    put_rows(piece, out, file.subset_rows());
}

/// Adds the line of the number of families, if a section lists them.
fn put_families<W: Takes>(
    piece: &mut Piece,
    out: &mut Output<W>,
    families: Option<&[Vec<Vec<u32>>]>,
)
    ensures { Puts W.contents out.old piece.old out.new piece.new
        (families_line (option_map (λ families. families_of families.now) families.entry)) }
{
    if let Some(families) = families {
        put_named(piece, out, b"combs ", families.len());
        put(piece, out, b"\n");
    }
}

/// Adds the line of the number of lists of a memory, if a section has them.
fn put_memory<W: Takes>(piece: &mut Piece, out: &mut Output<W>, lists: Option<&[Vec<u32>]>)
    ensures { Puts W.contents out.old piece.old out.new piece.new
        (memory_line (option_map (λ lists. map (λ list. list.items) lists.now) lists.entry)) }
{
    if let Some(lists) = lists {
        put_named(piece, out, b"memory ", lists.len());
        put(piece, out, b"\n");
    }
}

/// Adds the line of the number of subset rows, if a section lists them.
fn put_rows<W: Takes>(piece: &mut Piece, out: &mut Output<W>, rows: Option<&[RowSets]>)
    ensures { Puts W.contents out.old piece.old out.new piece.new
        (rows_line (option_map (λ rows. subset_rows_of rows.now) rows.entry)) }
{
    if let Some(rows) = rows {
        put_named(piece, out, b"rows ", rows.len());
        put(piece, out, b"\n");
    }
}

/// Adds the line of the number of leaves.
fn put_leaves<W: Takes>(piece: &mut Piece, out: &mut Output<W>, steps: &[TreeStep])
    ensures { Puts W.contents out.old piece.old out.new piece.new
        (leaves_line (steps_of steps.now)) }
{
    put_named(piece, out, b"leaves ", leaves_of(steps));
    put(piece, out, b"\n");
}

// ---- how many leaves a tree of cases has

/// How many of the steps of a tree are leaves.
fn leaves_of(steps: &[TreeStep]) -> usize
    ensures { result ≡ leaf_count (steps_of steps.now) }
{
    let mut leaves: usize = 0;
    'steps: for step in steps {
        if let TreeStep::Leaf(_) = step {
            leaves += 1;
        }
    }
    leaves
}
