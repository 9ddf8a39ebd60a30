//! Whether each field of a draft is valid on its own, in canonical order, by the tests of
//! `validity.rt`. `File::of` calls it. `bad_field` in `specs/Validity.antt` pins the first bad
//! field. Only a draft made by a program can fail here, because values from a text were checked
//! word by word.

ghost use Rattle.tsp_file.specs.Prelude.{ℕ, Bool, List, Some, MatchResult, map, option_map, most_nodes, field_word, subset_rows_of, steps_of};
ghost use Rattle.std.specs.Prelude.{◌≡◌};
ghost use Rattle.tsp_file.specs.states.Drafts.{points_of, fields_of, families_of};
ghost use Rattle.tsp_file.specs.Validity.{if_there, with_dimension, is_by_node, is_kept, is_node, is_from_to, is_point, are_comments, are_others, are_depots, are_fixed, are_triples, fit_matrix, are_tours, are_family_lists, are_memory_lists, are_subset_rows, are_tree_steps, section_fits, value_fits, fits, first_failing, bad_field};

use crate::coords::Coords;
use crate::draft::Draft;
use crate::range::{are_from_to, is_from_to};
use crate::validity;
use tsp_format::{
    Field, MOST_COMMENTS, MOST_NODES, MOST_OTHERS, RowSets, Shape, TreeStep, ValueShape, Word,
};

/// Whether a field of a draft is valid on its own.
pub(crate) fn fits(draft: &Draft, field: Field) -> bool
    ensures { result ≡ fits (fields_of draft.now) field }
{
    match field {
        Field::NameKey => is_name(&draft.name),
        Field::CommentKey => are_comments(&draft.comments),
        Field::OtherKey => are_others(&draft.others),
        Field::DimensionKey => is_dimension(draft.dimension),
        _ => match field.shape(draft.is_spatial()) {
            Some(shape) => section_fits(draft, field, shape),
            None => value_fits(draft, field, field.value_shape()),
        },
    }
}

/// Whether a keyword whose value has this shape is valid on its own.
fn value_fits(draft: &Draft, field: Field, shape: Option<ValueShape>) -> bool
    ensures { result ≡ value_fits (fields_of draft.now) field shape }
{
    match shape {
        Some(ValueShape::Number { low, high }) => is_number(draft.number(field), low, high),
        _ => true,
    }
}

/// Whether a section of this shape is valid on its own.
fn section_fits(draft: &Draft, field: Field, shape: Shape) -> bool
    ensures { result ≡ section_fits (fields_of draft.now) field shape }
{
    match shape {
        Shape::Numbers { low, high } => {
            are_numbers(draft.dimension, draft.numbers(field), low, high)
        }
        Shape::Points => are_points(false, draft.dimension, draft.points(field)),
        Shape::SpacePoints => are_points(true, draft.dimension, draft.points(field)),
        Shape::Depots => are_depots(draft.dimension, &draft.depots),
        Shape::Pairs => are_fixed(draft.dimension, &draft.fixed),
        Shape::Weights => fit_matrix(draft.dimension, &draft.weights),
        Shape::Tours => are_tours(&draft.tours),
        Shape::Triples => are_triples(draft.dimension, &draft.fixed_potentials),
        Shape::Families => are_family_lists(draft.dimension, &draft.families),
        Shape::Memories => are_memory_lists(draft.dimension, &draft.memories),
        Shape::SubsetRows => are_subset_rows(draft.dimension, &draft.subset_rows),
        Shape::Steps => are_tree_steps(draft.dimension, &draft.branches),
    }
}

/// The first field, in canonical order, that is not valid on its own.
pub fn bad_field(draft: &Draft) -> Option<Field>
    ensures { result ≡ bad_field (fields_of draft.now) }
{
    first_bad(draft, &Field::ALL)
}

/// The first of some fields that is not valid on its own.
fn first_bad(draft: &Draft, fields: &[Field]) -> Option<Field>
    ensures { result ≡ first_failing (fits (fields_of draft.now)) fields.now }
{
    for field in fields {
        if !fits(draft, *field) {
            return Some(*field);
        }
    }
    None
}

/// Whether NAME is a value that is kept.
fn is_name(name: &Option<Vec<u8>>) -> bool
    ensures { result ≡
        if_there (is_kept (field_word Field.NameKey)) (option_map (λ v. v.items) name.now) }
{
    match name {
        None => true,
        Some(name) => validity::is_kept(Field::NameKey.word().as_bytes(), name),
    }
}

/// Whether the comments are values that are kept, and not too many.
fn are_comments(comments: &Vec<Vec<u8>>) -> bool
    ensures { result ≡ are_comments (map (λ v. v.items) comments.now.items) }
{
    comments.len() <= MOST_COMMENTS && validity::are_kept(comments)
}

/// Whether the lines of unknown keywords are kept, and not too many.
fn are_others(others: &Vec<(Vec<u8>, Vec<u8>)>) -> bool
    ensures { result ≡ are_others (map (λ p. (p.0.items, p.1.items)) others.now.items) }
{
    others.len() <= MOST_OTHERS && validity::are_other_lines(others)
}

/// Whether DIMENSION is in its range.
fn is_dimension(dimension: Option<u32>) -> bool
    ensures { result ≡ if_there (is_node most_nodes) dimension }
{
    match dimension {
        None => true,
        Some(nodes) => validity::is_node(MOST_NODES, nodes),
    }
}

/// Whether a number is in its range.
fn is_number(number: Option<i64>, low: i64, high: i64) -> bool
    ensures { result ≡ if_there (is_from_to low high) number }
{
    match number {
        None => true,
        Some(number) => is_from_to(number, low, high),
    }
}

/// The number of nodes and the entries of a section, to be judged. If there are none, whether the
/// section is valid: a missing one is, and one without DIMENSION isn't.
fn section<'a, T>(
    dimension: Option<u32>,
    entries: &'a Option<Vec<T>>,
) -> Result<(u32, &'a [T]), bool>
    ensures { MatchResult result (λ found. (dimension ≡ Some found.0) × (option_map (λ v. v.items)
        entries.now ≡ Some found.1.now)) (λ valid. (fits : ℕ → List T → Bool) → valid
        ≡ if_there (with_dimension fits dimension) (option_map (λ v. v.items) entries.now)) }
{
    match (entries, dimension) {
        (None, _) => Err(true),
        (Some(_), None) => Err(false),
        (Some(entries), Some(nodes)) => Ok((nodes, entries)),
    }
}

/// Whether there is a point for each node, with three coordinates or with two.
fn are_points(spatial: bool, dimension: Option<u32>, points: Option<&Coords>) -> bool
    ensures { result ≡ if_there (with_dimension (is_by_node (is_point spatial)) dimension)
        (option_map (λ points. points_of points.now) points.entry) }
{
    match (points, dimension) {
        (None, _) => true,
        (Some(_), None) => false,
        (Some(points), Some(nodes)) => {
            points.len() == nodes as usize && validity::are_points(spatial, points)
        }
    }
}

/// Whether there is a number in this range for each node.
fn are_numbers(dimension: Option<u32>, numbers: Option<&[i64]>, low: i64, high: i64) -> bool
    ensures { result ≡ if_there (with_dimension (is_by_node (is_from_to low high)) dimension)
        (option_map (λ entries. entries.now) numbers.entry) }
{
    match (numbers, dimension) {
        (None, _) => true,
        (Some(_), None) => false,
        (Some(numbers), Some(nodes)) => {
            numbers.len() == nodes as usize && are_from_to(numbers, low, high)
        }
    }
}

/// Whether the depots are nodes, and not too many.
fn are_depots(dimension: Option<u32>, depots: &Option<Vec<u32>>) -> bool
    ensures { result
        ≡ if_there (with_dimension are_depots dimension) (option_map (λ v. v.items) depots.now) }
{
    match section(dimension, depots) {
        Ok((nodes, depots)) => validity::are_depots(nodes, depots),
        Err(valid) => valid,
    }
}

/// Whether the fixed pairs are of two different nodes, and not too many.
fn are_fixed(dimension: Option<u32>, pairs: &Option<Vec<(u32, u32)>>) -> bool
    ensures { result
        ≡ if_there (with_dimension are_fixed dimension) (option_map (λ v. v.items) pairs.now) }
{
    match section(dimension, pairs) {
        Ok((nodes, pairs)) => validity::are_fixed(nodes, pairs),
        Err(valid) => valid,
    }
}

/// Whether the triples are of two different nodes and a multiplier, and not too many.
fn are_triples(dimension: Option<u32>, triples: &Option<Vec<(u32, u32, i64)>>) -> bool
    ensures { result
        ≡ if_there (with_dimension are_triples dimension) (option_map (λ v. v.items) triples.now) }
{
    match section(dimension, triples) {
        Ok((nodes, triples)) => validity::are_triples(nodes, triples),
        Err(valid) => valid,
    }
}

/// Whether the weights are in range, and no more than a matrix has.
fn fit_matrix(dimension: Option<u32>, weights: &Option<Vec<i64>>) -> bool
    ensures { result
        ≡ if_there (with_dimension fit_matrix dimension) (option_map (λ v. v.items) weights.now) }
{
    match section(dimension, weights) {
        Ok((nodes, weights)) => validity::fit_matrix(nodes, weights),
        Err(valid) => valid,
    }
}

/// Whether the tours are lists of nodes, and not too long in all.
fn are_tours(tours: &Option<Vec<Vec<u32>>>) -> bool
    ensures { result ≡ if_there are_tours (option_map (λ v. map (λ t. t.items) v.items) tours.now) }
{
    match tours {
        None => true,
        Some(tours) => validity::are_tours(tours),
    }
}

/// Whether the families are of nodes, and not too many.
fn are_family_lists(dimension: Option<u32>, families: &Option<Vec<Vec<Vec<u32>>>>) -> bool
    ensures { result ≡ if_there (with_dimension are_family_lists dimension)
        (option_map (λ v. families_of v.items) families.now) }
{
    match (families, dimension) {
        (None, _) => true,
        (Some(_), None) => false,
        (Some(families), Some(nodes)) => validity::are_family_lists(nodes, families),
    }
}

/// Whether the lists of a memory are of nodes, and not too long in all.
fn are_memory_lists(dimension: Option<u32>, lists: &Option<Vec<Vec<u32>>>) -> bool
    ensures { result ≡ if_there (with_dimension are_memory_lists dimension)
        (option_map (λ v. map (λ list. list.items) v.items) lists.now) }
{
    match (lists, dimension) {
        (None, _) => true,
        (Some(_), None) => false,
        (Some(lists), Some(nodes)) => validity::are_memory_lists(nodes, lists),
    }
}

/// Whether the subset rows are of nodes, and not too many.
fn are_subset_rows(dimension: Option<u32>, rows: &Option<Vec<RowSets>>) -> bool
    ensures { result ≡ if_there (with_dimension are_subset_rows dimension)
        (option_map (λ v. subset_rows_of v.items) rows.now) }
{
    match (rows, dimension) {
        (None, _) => true,
        (Some(_), None) => false,
        (Some(rows), Some(nodes)) => validity::are_subset_rows(nodes, rows),
    }
}

/// Whether the steps are those of one tree, and not too many.
fn are_tree_steps(dimension: Option<u32>, steps: &Option<Vec<TreeStep>>) -> bool
    ensures { result ≡ if_there (with_dimension are_tree_steps dimension)
        (option_map (λ v. steps_of v.items) steps.now) }
{
    match (steps, dimension) {
        (None, _) => true,
        (Some(_), None) => false,
        (Some(steps), Some(nodes)) => validity::are_tree_steps(nodes, steps),
    }
}
