//! Writes the canonical text of a file, which `tsp convert` prints. `text_of` in
//! `specs/CanonicalText.antt` pins every byte. Keyword lines and the sections of branches files are
//! written here, the other sections in `writer/sections.rt`, and the weights in `writer/matrix.rt`.

ghost use Rattle.tsp_file.specs.Prelude.{flat_map, option_map, None, map, [], Leaf, subset_row_of, subset_rows_of, step_of, steps_of};
ghost use Rattle.std.specs.Prelude.{◌≡◌};
ghost use Rattle.tsp_io.specs.Streams.{Writes};
ghost use Rattle.tsp_io.specs.states.Output.{sink_of, Puts};
ghost use Rattle.tsp_file.specs.CanonicalText.{text_of, text_of_field, text_of_section, text_of_value, value_line, keyword_line, other_line, optional, before_blank, set_line, family_lines, family_list, row_lines, row_list, change_words, step_line, case_tree_lines, section_text};
ghost use Rattle.tsp_file.specs.Rules.{fault_of};
ghost use Rattle.tsp_file.specs.states.Drafts.{fields_of, families_of};

mod matrix;
mod sections;

use crate::draft::Draft;
use crate::file::File;
use crate::writer::matrix::put_weight_section;
use crate::writer::sections::{
    put_node_section, put_number_section, put_opening, put_pair_line, put_pair_section,
    put_point_section, put_tour_section, put_triple_section,
};
use itoa::{Buffer, Integer};
use std::alloc::Global;
use tsp_format::{Field, RowSets, Shape, TreeStep, ValueShape, Word};
use tsp_io::{Output, Piece, Takes, WriteFault, hand_over, put, put_number};

/// Writes the canonical text of a file.
///
/// # Errors
///
/// `Device` if the writer fails, or had failed before: then a prefix of the text was written, and
/// nothing else. No memory is taken, so `OutOfMemory` is never returned.
pub fn write_file<W: Takes>(_alloc: Global, f: &File, out: &mut Output<W>) -> Result<(), WriteFault>
    ensures written { Writes (sink_of W.contents out.old out.new) (text_of f.now) result }
    ensures valid { fault_of f.now ≡ None }
{
    write_draft(f.fields(), out)
}

/// Writes the canonical text of a draft, valid or not.
///
/// At `Device` a prefix of the text was written, and nothing else. A writer that had failed before
/// gets nothing. No memory is taken, and `OutOfMemory` is never returned.
fn write_draft<W: Takes>(draft: &Draft, out: &mut Output<W>) -> Result<(), WriteFault>
    ensures { Writes (sink_of W.contents out.old out.new) (text_of (fields_of draft.now)) result }
{
    if out.failed() {
        return Err(WriteFault::Device);
    }
    let mut piece = Piece::new();
    put_fields(&mut piece, out, draft, &Field::ALL);
    put(&mut piece, out, b"EOF\n");
    hand_over(&mut piece, out);
    if out.failed() {
        Err(WriteFault::Device)
    } else {
        Ok(())
    }
}

/// Adds the texts of some fields, one after the other.
fn put_fields<W: Takes>(piece: &mut Piece, out: &mut Output<W>, draft: &Draft, fields: &[Field])
    ensures { Puts W.contents out.old piece.old out.new piece.new
        (flat_map (text_of_field (fields_of draft.now)) fields.now) }
{
    for field in fields {
        put_field(piece, out, draft, *field);
    }
}

/// Adds the text of a field, if the draft has it.
fn put_field<W: Takes>(piece: &mut Piece, out: &mut Output<W>, draft: &Draft, field: Field)
    ensures { Puts W.contents out.old piece.old out.new piece.new
        (text_of_field (fields_of draft.now) field) }
{
    match field {
        Field::NameKey => put_name(piece, out, &draft.name),
        Field::TypeKey => put_word(piece, out, field, draft.kind),
        Field::CommentKey => put_comments(piece, out, &draft.comments),
        Field::OtherKey => put_others(piece, out, &draft.others),
        Field::DimensionKey => put_whole(piece, out, field, draft.dimension),
        Field::EdgeWeightTypeKey => put_word(piece, out, field, draft.weight_kind),
        Field::EdgeWeightFormatKey => put_word(piece, out, field, draft.weight_format),
        Field::NodeCoordTypeKey => put_word(piece, out, field, draft.coord_kind),
        Field::DisplayDataTypeKey => put_word(piece, out, field, draft.display_kind),
        _ => match field.shape(draft.is_spatial()) {
            Some(shape) => put_section(piece, out, draft, field, shape),
            None => put_keyword(piece, out, draft, field, field.value_shape()),
        },
    }
}

/// Adds the line of a keyword whose value is a number, if the draft has it.
fn put_keyword<W: Takes>(
    piece: &mut Piece,
    out: &mut Output<W>,
    draft: &Draft,
    field: Field,
    shape: Option<ValueShape>,
)
    ensures { Puts W.contents out.old piece.old out.new piece.new
        (text_of_value (fields_of draft.now) field shape) }
{
    match shape {
        Some(ValueShape::Number { .. }) => put_whole(piece, out, field, draft.number(field)),
        _ => {}
    }
}

/// Adds the text of a section of this shape, if the draft has it.
fn put_section<W: Takes>(
    piece: &mut Piece,
    out: &mut Output<W>,
    draft: &Draft,
    field: Field,
    shape: Shape,
)
    ensures { Puts W.contents out.old piece.old out.new piece.new
        (text_of_section (fields_of draft.now) field shape) }
{
    match shape {
        Shape::Numbers { .. } => put_number_section(piece, out, field, draft.numbers(field)),
        Shape::Points => put_point_section(piece, out, field, draft.points(field), false),
        Shape::SpacePoints => put_point_section(piece, out, field, draft.points(field), true),
        Shape::Depots => put_node_section(piece, out, field, &draft.depots),
        Shape::Pairs => put_pair_section(piece, out, field, &draft.fixed),
        Shape::Weights => put_weight_section(
            piece,
            out,
            field,
            draft.weight_format,
            draft.dimension,
            &draft.weights,
        ),
        Shape::Tours => put_tour_section(piece, out, field, &draft.tours),
        Shape::Triples => put_triple_section(piece, out, field, &draft.fixed_potentials),
        Shape::Families => put_family_section(piece, out, field, &draft.families),
        Shape::Memories => put_memory_section(piece, out, field, &draft.memories),
        Shape::SubsetRows => put_row_section(piece, out, field, &draft.subset_rows),
        Shape::Steps => put_step_section(piece, out, field, &draft.branches),
    }
}

// ---- writes the keyword lines of a canonical text

/// Adds the line of a keyword and its value.
fn put_value<W: Takes>(piece: &mut Piece, out: &mut Output<W>, keyword: &[u8], value: &[u8])
    ensures { Puts W.contents out.old piece.old out.new piece.new
        (value_line keyword.now value.now) }
{
    put(piece, out, keyword);
    put(piece, out, b" :");
    if !value.is_empty() {
        put(piece, out, b" ");
        put(piece, out, value);
    }
    put(piece, out, b"\n");
}

/// Adds the line of a keyword whose value is a word, if the file has one.
fn put_word<W: Takes, V: Word>(
    piece: &mut Piece,
    out: &mut Output<W>,
    field: Field,
    value: Option<V>,
)
    ensures { Puts W.contents out.old piece.old out.new piece.new
        (optional (λ value. keyword_line field (V.text value)) value) }
{
    if let Some(value) = value {
        put_value(piece, out, field.word().as_bytes(), value.word().as_bytes());
    }
}

/// Adds the line of a keyword whose value is a whole number, if the file has one.
fn put_whole<W: Takes, N: Integer>(
    piece: &mut Piece,
    out: &mut Output<W>,
    field: Field,
    value: Option<N>,
)
    ensures { Puts W.contents out.old piece.old out.new piece.new
        (optional (λ number. keyword_line field (N.text number)) value) }
{
    if let Some(number) = value {
        let mut buffer = Buffer::new();
        put_value(
            piece,
            out,
            field.word().as_bytes(),
            buffer.format(number).as_bytes(),
        );
    }
}

/// Adds one COMMENT line for each comment.
fn put_comments<W: Takes>(piece: &mut Piece, out: &mut Output<W>, comments: &[Vec<u8>])
    ensures { Puts W.contents out.old piece.old out.new piece.new
        (flat_map (keyword_line Field.CommentKey) (map (λ v. v.items) comments.now)) }
{
    for comment in comments {
        put_value(piece, out, Field::CommentKey.word().as_bytes(), comment);
    }
}

/// Adds the lines of the unknown keywords.
fn put_others<W: Takes>(piece: &mut Piece, out: &mut Output<W>, others: &[(Vec<u8>, Vec<u8>)])
    ensures { Puts W.contents out.old piece.old out.new piece.new
        (flat_map other_line (map (λ p. (p.0.items, p.1.items)) others.now)) }
{
    for (keyword, value) in others {
        put_value(piece, out, keyword, value);
    }
}

/// Adds the line of NAME, if the file has one.
fn put_name<W: Takes>(piece: &mut Piece, out: &mut Output<W>, name: &Option<Vec<u8>>)
    ensures { Puts W.contents out.old piece.old out.new piece.new
        (optional (keyword_line Field.NameKey) (option_map (λ v. v.items) name.now)) }
{
    if let Some(name) = name {
        put_value(piece, out, Field::NameKey.word().as_bytes(), name);
    }
}

// ---- writes the sections of a certificate by branching

/// Adds the digits of a whole number and a blank.
fn put_before_blank<W: Takes, N: Integer>(piece: &mut Piece, out: &mut Output<W>, number: N)
    ensures { Puts W.contents out.old piece.old out.new piece.new (before_blank (N.text number)) }
{
    put_number(piece, out, number);
    put(piece, out, b" ");
}

/// Adds the line of a set of nodes, which -1 ends.
fn put_set<W: Takes>(piece: &mut Piece, out: &mut Output<W>, set: &[u32])
    ensures { Puts W.contents out.old piece.old out.new piece.new (set_line set.now) }
{
    'nodes: for node in set {
        put_before_blank(piece, out, *node);
    }
    put(piece, out, b"-1\n");
}

/// Adds a line for each set of a family, or for each list of a memory, and then the line -1.
fn put_family<W: Takes>(piece: &mut Piece, out: &mut Output<W>, family: &[Vec<u32>])
    ensures { Puts W.contents out.old piece.old out.new piece.new
        (family_lines (map (λ set. set.items) family.now)) }
{
    'sets: for set in family {
        put_set(piece, out, set);
    }
    put(piece, out, b"-1\n");
}

/// Adds the lines of each family, and then one more line -1.
fn put_families<W: Takes>(piece: &mut Piece, out: &mut Output<W>, families: &[Vec<Vec<u32>>])
    ensures { Puts W.contents out.old piece.old out.new piece.new (family_list (families_of families.now)) }
{
    'families: for family in families {
        put_family(piece, out, family);
    }
    put(piece, out, b"-1\n");
}

/// Adds the two lines of a subset row.
fn put_row<W: Takes>(piece: &mut Piece, out: &mut Output<W>, row: &RowSets)
    ensures { Puts W.contents out.old piece.old out.new piece.new (row_lines (subset_row_of row.now)) }
{
    put_set(piece, out, &row.set);
    put_set(piece, out, &row.further);
}

/// Adds the lines of each subset row, and the line -1.
fn put_rows<W: Takes>(piece: &mut Piece, out: &mut Output<W>, rows: &[RowSets])
    ensures { Puts W.contents out.old piece.old out.new piece.new (row_list (subset_rows_of rows.now)) }
{
    'rows: for row in rows {
        put_row(piece, out, row);
    }
    put(piece, out, b"-1\n");
}

/// Adds the index and the difference of a number, with a blank after each.
fn put_change<W: Takes>(piece: &mut Piece, out: &mut Output<W>, index: u32, difference: i64)
    ensures { Puts W.contents out.old piece.old out.new piece.new
        (flat_map before_blank (change_words (index, difference))) }
{
    put_before_blank(piece, out, index);
    put_before_blank(piece, out, difference);
}

/// Adds the indexes and the differences of numbers, with a blank after each.
fn put_changes<W: Takes>(piece: &mut Piece, out: &mut Output<W>, changes: &[(u32, i64)])
    ensures { Puts W.contents out.old piece.old out.new piece.new
        (flat_map before_blank (flat_map change_words changes.now)) }
{
    'changes: for (index, difference) in changes {
        put_change(piece, out, *index, *difference);
    }
}

/// Adds the line of a leaf, which -1 ends.
fn put_leaf<W: Takes>(piece: &mut Piece, out: &mut Output<W>, changes: &[(u32, i64)])
    ensures { Puts W.contents out.old piece.old out.new piece.new (step_line (Leaf changes.now)) }
{
    put(piece, out, b"0 ");
    put_changes(piece, out, changes);
    put(piece, out, b"-1\n");
}

/// Adds the line of a step.
fn put_step<W: Takes>(piece: &mut Piece, out: &mut Output<W>, step: &TreeStep)
    ensures { Puts W.contents out.old piece.old out.new piece.new (step_line (step_of step.now)) }
{
    match step {
        TreeStep::Branch(first, second) => put_pair_line(piece, out, *first, *second),
        TreeStep::Leaf(changes) => put_leaf(piece, out, changes),
    }
}

/// Adds a line for each step.
fn put_steps<W: Takes>(piece: &mut Piece, out: &mut Output<W>, steps: &[TreeStep])
    ensures { Puts W.contents out.old piece.old out.new piece.new
        (case_tree_lines (steps_of steps.now)) }
{
    'steps: for step in steps {
        put_step(piece, out, step);
    }
}

/// Adds a section of families, if the file has it.
fn put_family_section<W: Takes>(
    piece: &mut Piece,
    out: &mut Output<W>,
    field: Field,
    families: &Option<Vec<Vec<Vec<u32>>>>,
)
    ensures { Puts W.contents out.old piece.old out.new piece.new (optional (λ families. section_text
        field (family_list families)) (option_map (λ v. families_of v.items) families.now)) }
{
    if let Some(families) = families {
        put_opening(piece, out, field);
        put_families(piece, out, families);
    }
}

/// Adds a section of what customers remember, if the file has it.
fn put_memory_section<W: Takes>(
    piece: &mut Piece,
    out: &mut Output<W>,
    field: Field,
    lists: &Option<Vec<Vec<u32>>>,
)
    ensures { Puts W.contents out.old piece.old out.new piece.new (optional (λ lists. section_text
        field (family_lines lists)) (option_map (λ v. map (λ list. list.items) v.items) lists.now)) }
{
    if let Some(lists) = lists {
        put_opening(piece, out, field);
        put_family(piece, out, lists);
    }
}

/// Adds a section of subset rows, if the file has it.
fn put_row_section<W: Takes>(
    piece: &mut Piece,
    out: &mut Output<W>,
    field: Field,
    rows: &Option<Vec<RowSets>>,
)
    ensures { Puts W.contents out.old piece.old out.new piece.new (optional (λ rows. section_text
        field (row_list rows)) (option_map (λ v. subset_rows_of v.items) rows.now)) }
{
    if let Some(rows) = rows {
        put_opening(piece, out, field);
        put_rows(piece, out, rows);
    }
}

/// Adds a section of the steps of a tree, if the file has it.
fn put_step_section<W: Takes>(
    piece: &mut Piece,
    out: &mut Output<W>,
    field: Field,
    steps: &Option<Vec<TreeStep>>,
)
    ensures { Puts W.contents out.old piece.old out.new piece.new (optional (λ steps. section_text
        field (case_tree_lines steps)) (option_map (λ v. steps_of v.items) steps.now)) }
{
    if let Some(steps) = steps {
        put_opening(piece, out, field);
        put_steps(piece, out, steps);
    }
}
