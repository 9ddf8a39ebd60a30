//! The tests of single values: is this text short enough, is this a point, a tour, a family, a tree
//! of cases? `table.rt` calls them. `specs/Validity.antt` pins each test, with the limits of
//! docs/format.md.

ghost use Rattle.tsp_file.specs.Prelude.{not, cond, Some, None, length, slice_index, nat_le, map, list_all, sum_by, field_word, is_blank, is_keyword_byte, most_coordinate, most_tour_nodes, most_families, most_family_nodes, most_rows, most_branches, most_changes, on_plane, subset_row_of, subset_rows_of, row_size, step_of, steps_of, are_whole, branch_count, change_count};
ghost use Rattle.std.specs.Prelude.{◌≡◌, ◌+◌, ◌-◌, ◌==◌, ◌||◌, ◌&&◌};
ghost use Rattle.tsp_file.specs.states.Drafts.{points_of, families_of};
ghost use Rattle.tsp_file.specs.Validity.{is_kept, is_unknown_keyword, is_other, is_within, is_node, is_third, is_point, are_depots, is_pair_of, are_fixed, is_triple_of, are_triples, fit_matrix, is_node_list, is_set_of, are_sets, are_family_lists, are_memory_lists, is_row_of, are_subset_rows, is_change, is_branch_of, is_step, are_tree_steps};

use crate::coords::Coords;
use crate::range::{are_from_to, is_from_to};
use tsp_format::{
    Field, Keyword, MOST_BRANCHES, MOST_CHANGES, MOST_COORDINATE, MOST_DEMAND, MOST_DEPOTS,
    MOST_DIFFERENCE, MOST_FAMILIES, MOST_FAMILY_NODES, MOST_FIXED, MOST_KEPT_BYTES,
    MOST_MATRIX_NODES, MOST_MULTIPLIER, MOST_MULTIPLIERS, MOST_NODES, MOST_POTENTIAL, MOST_ROWS,
    MOST_TOUR_NODES, MOST_WEIGHT, RowSets, TreeStep, Word, is_blank, is_keyword_byte, is_letter,
};
use tsp_number::{Decimal, InSpace, PlanePoint, Point};

/// Whether no byte is a byte 10.
fn is_one_line(text: &[u8]) -> bool
    ensures { result ≡ list_all (λ b. not (b == 10)) text.now }
{
    text.iter().all(|byte| *byte != b'\n')
}

/// Whether a text begins or ends with a blank.
fn has_blank_end(text: &[u8]) -> bool
    ensures { result ≡ (is_blank (slice_index text.now 0)
        || is_blank (slice_index text.now (length text.now - 1))) }
{
    match (text.first(), text.last()) {
        (Some(first), Some(last)) => is_blank(*first) || is_blank(*last),
        _ => false,
    }
}

/// Whether a value can be kept as it is: it has no byte 10 and no blank at either end, and with its
/// keyword at most `MOST_KEPT_BYTES` bytes.
pub fn is_kept(keyword: &[u8], value: &[u8]) -> bool
    ensures { result ≡ is_kept keyword.now value.now }
{
    value.len() <= MOST_KEPT_BYTES
        && keyword.len() <= MOST_KEPT_BYTES - value.len()
        && is_one_line(value)
        && !has_blank_end(value)
}

/// Whether every comment is a value that is kept.
pub(crate) fn are_kept(comments: &[Vec<u8>]) -> bool
    ensures { result ≡
        list_all (λ comment. is_kept (field_word Field.CommentKey) comment.items) comments.now }
{
    comments.iter().all(|comment| is_kept(Field::CommentKey.word().as_bytes(), comment))
}

/// Whether every byte may be part of a keyword.
fn are_keyword_bytes(word: &[u8]) -> bool
    ensures { result ≡ list_all is_keyword_byte word.now }
{
    word.iter().all(|byte| is_keyword_byte(*byte))
}

/// Whether a word can be an unknown keyword.
fn is_unknown_keyword(word: &[u8]) -> bool
    ensures { result ≡ is_unknown_keyword word.now }
{
    let Some(first) = word.first() else {
        return false;
    };
    is_letter(*first) && are_keyword_bytes(word) && matches!(Keyword::of(word), Keyword::Unknown)
}

/// Whether a line is an unknown keyword with a value that is kept.
fn is_other(keyword: &[u8], value: &[u8]) -> bool
    ensures { result ≡ is_other (keyword.now, value.now) }
{
    is_unknown_keyword(keyword) && is_kept(keyword, value)
}

/// Whether every line is an unknown keyword with a value that is kept.
pub(crate) fn are_other_lines(lines: &[(Vec<u8>, Vec<u8>)]) -> bool
    ensures { result ≡ list_all (λ line. is_other (line.0.items, line.1.items)) lines.now }
{
    lines.iter().all(|line| is_other(&line.0, &line.1))
}

/// Whether a coordinate is at most 10^9 in size.
fn is_coordinate(coordinate: Decimal) -> bool
    ensures { result ≡ is_within most_coordinate coordinate }
{
    let count = coordinate.count();
    -MOST_COORDINATE <= count && count <= MOST_COORDINATE
}

/// Whether a third coordinate is at most 10^9 in size in a spatial file, and 0 in any other.
fn is_third(spatial: bool, coordinate: Decimal) -> bool
    ensures { result ≡ is_third spatial coordinate }
{
    if spatial {
        is_coordinate(coordinate)
    } else {
        coordinate.count() == 0
    }
}

/// Whether a point is valid in a spatial file, or in any other, with coordinates of at most 10^9 in
/// size.
fn is_point(spatial: bool, point: Point) -> bool
    ensures { result ≡ is_point spatial point }
{
    is_coordinate(point.x) && is_coordinate(point.y) && is_third(spatial, point.z)
}

/// Whether the coordinates of every point in the plane are at most 10^9 in size.
fn are_within(spatial: bool, points: &[PlanePoint]) -> bool
    ensures { result ≡ list_all (λ point. is_point spatial (on_plane point.x point.y)) points.now }
{
    points
        .iter()
        .all(|point| is_point(spatial, point.in_space()))
}

/// Whether every point is valid by `is_point`, in a spatial file or in another.
pub(crate) fn are_points(spatial: bool, points: &Coords) -> bool
    ensures { result ≡ list_all (is_point spatial) (points_of points.now) }
{
    match points {
        Coords::Plane(points) => are_within(spatial, points),
        Coords::Space(points) => points.iter().all(|point| is_point(spatial, *point)),
    }
}

/// Whether a number is a node of 1..n.
pub(crate) fn is_node(n: u32, node: u32) -> bool
    ensures { result ≡ is_node n node }
{
    1 <= node && node <= n
}

/// Whether every number is a node of 1..n.
fn are_nodes(n: u32, nodes: &[u32]) -> bool
    ensures { result ≡ list_all (is_node n) nodes.now }
{
    nodes.iter().all(|node| is_node(n, *node))
}

/// Whether every depot is a node of 1..n, and there are at most `MOST_DEPOTS`.
pub(crate) fn are_depots(n: u32, depots: &[u32]) -> bool
    ensures { result ≡ are_depots n depots.now }
{
    depots.len() <= MOST_DEPOTS && are_nodes(n, depots)
}

/// Whether a pair is of two different nodes of 1..n.
fn is_pair_of(n: u32, pair: (u32, u32)) -> bool
    ensures { result ≡ is_pair_of n pair }
{
    is_node(n, pair.0) && is_node(n, pair.1) && pair.0 != pair.1
}

/// Whether every pair is of two different nodes of 1..n.
fn are_pairs(n: u32, pairs: &[(u32, u32)]) -> bool
    ensures { result ≡ list_all (is_pair_of n) pairs.now }
{
    pairs.iter().all(|pair| is_pair_of(n, *pair))
}

/// Whether every fixed pair is of two different nodes of 1..n, and there are at most `MOST_FIXED`.
pub(crate) fn are_fixed(n: u32, pairs: &[(u32, u32)]) -> bool
    ensures { result ≡ are_fixed n pairs.now }
{
    pairs.len() <= MOST_FIXED && are_pairs(n, pairs)
}

/// Whether a triple is of two different nodes of 1..n and a number from 0 to `MOST_MULTIPLIER`.
fn is_triple_of(n: u32, triple: (u32, u32, i64)) -> bool
    ensures { result ≡ is_triple_of n triple }
{
    is_pair_of(n, (triple.0, triple.1)) && is_from_to(triple.2, 0, MOST_MULTIPLIER)
}

/// Whether every triple is of two different nodes of 1..n and a multiplier.
fn are_multipliers(n: u32, triples: &[(u32, u32, i64)]) -> bool
    ensures { result ≡ list_all (is_triple_of n) triples.now }
{
    triples.iter().all(|triple| is_triple_of(n, *triple))
}

/// Whether every triple is of two different nodes of 1..n and a multiplier, and there are at most
/// `MOST_MULTIPLIERS`.
pub(crate) fn are_triples(n: u32, triples: &[(u32, u32, i64)]) -> bool
    ensures { result ≡ are_triples n triples.now }
{
    triples.len() <= MOST_MULTIPLIERS && are_multipliers(n, triples)
}

/// Whether every weight is at most `MOST_WEIGHT` in size, there are at most `n * n` of them, and
/// `n` is at most `MOST_MATRIX_NODES`.
pub(crate) fn fit_matrix(n: u32, weights: &[i64]) -> bool
    ensures { result ≡ fit_matrix n weights.now }
{
    n <= MOST_MATRIX_NODES
        && weights.len() <= n as usize * n as usize
        && are_from_to(weights, -MOST_WEIGHT, MOST_WEIGHT)
}

/// Whether a tour isn't empty and has nodes that some file can have.
fn is_node_list(tour: &[u32]) -> bool
    ensures { result ≡ is_node_list tour.now }
{
    !tour.is_empty() && are_nodes(MOST_NODES, tour)
}

/// Whether the tours have at most `MOST_TOUR_NODES` nodes in all.
fn have_few_nodes(tours: &[Vec<u32>]) -> bool
    ensures { result ≡ nat_le (sum_by (λ tour. length tour.items) tours.now) most_tour_nodes }
{
    let mut total = 0;
    'tours: for tour in tours {
        if tour.len() > MOST_TOUR_NODES - total {
            return false;
        }
        total += tour.len();
    }
    true
}

/// Whether every list is a tour by `is_node_list`.
fn is_each_tour(tours: &[Vec<u32>]) -> bool
    ensures { result ≡ list_all (λ tour. is_node_list tour.items) tours.now }
{
    tours.iter().all(|tour| is_node_list(tour))
}

/// Whether every list is a tour by `is_node_list`, and they have at most `MOST_TOUR_NODES` nodes in
/// all.
pub(crate) fn are_tours(tours: &[Vec<u32>]) -> bool
    ensures { result ≡ (list_all (λ tour. is_node_list tour.items) tours.now
        && nat_le (sum_by (λ tour. length tour.items) tours.now) most_tour_nodes) }
{
    is_each_tour(tours) && have_few_nodes(tours)
}

/// Whether a set of nodes isn't empty and has nodes of 1..n.
fn is_set_of(n: u32, set: &[u32]) -> bool
    ensures { result ≡ is_set_of n set.now }
{
    !set.is_empty() && are_nodes(n, set)
}

/// Whether there are sets, none of them empty, of nodes of 1..n.
#[tactic(auto, using(crate::proofs::ValidFields::family_seen))]
fn are_sets(n: u32, family: &[Vec<u32>]) -> bool
    ensures { result ≡ are_sets n (map (λ set. set.items) family.now) }
{
    !family.is_empty() && is_each_set(n, family)
}

/// Whether every set is one of nodes of 1..n.
fn is_each_set(n: u32, sets: &[Vec<u32>]) -> bool
    ensures { result ≡ list_all (λ set. is_set_of n set.items) sets.now }
{
    sets.iter().all(|set| is_set_of(n, set))
}

/// Whether every family has sets.
fn is_each_family(n: u32, families: &[Vec<Vec<u32>>]) -> bool
    ensures { result ≡ list_all (λ family. are_sets n (map (λ set. set.items) family.items)) families.now }
{
    families.iter().all(|family| are_sets(n, family))
}

/// How many nodes the sets have in all, if that is at most this number.
fn nodes_of_sets(sets: &[Vec<u32>], most: usize) -> Option<usize>
    ensures { result ≡ cond (nat_le (sum_by (λ set. length set.items) sets.now) most)
        (Some (sum_by (λ set. length set.items) sets.now)) None }
{
    let mut total = 0;
    'sets: for set in sets {
        if set.len() > most - total {
            return None;
        }
        total += set.len();
    }
    Some(total)
}

/// Whether the families have at most `MOST_FAMILY_NODES` nodes in all.
fn have_few_family_nodes(families: &[Vec<Vec<u32>>]) -> bool
    ensures { result ≡ nat_le
        (sum_by (λ family. sum_by (λ set. length set.items) family.items) families.now) most_family_nodes }
{
    let mut total = 0;
    'families: for family in families {
        let Some(nodes) = nodes_of_sets(family, MOST_FAMILY_NODES - total) else {
            return false;
        };
        total += nodes;
    }
    true
}

/// Whether the families are of sets of nodes of 1..n, at most `MOST_FAMILIES` with at most
/// `MOST_FAMILY_NODES` nodes in all.
#[tactic(auto, using(crate::proofs::ValidFields::families_seen))]
pub(crate) fn are_family_lists(n: u32, families: &[Vec<Vec<u32>>]) -> bool
    ensures { result ≡ are_family_lists n (families_of families.now) }
{
    families.len() <= MOST_FAMILIES
        && is_each_family(n, families)
        && have_few_family_nodes(families)
}

/// Whether the lists are of nodes of 1..n, none of them empty, with at most `MOST_FAMILY_NODES`
/// nodes in all.
#[tactic(auto, using(crate::proofs::SeenLists::memories_seen))]
pub(crate) fn are_memory_lists(n: u32, lists: &[Vec<u32>]) -> bool
    ensures { result ≡ are_memory_lists n (map (λ list. list.items) lists.now) }
{
    is_each_set(n, lists) && nodes_of_sets(lists, MOST_FAMILY_NODES).is_some()
}

/// Whether a row has a set of nodes of 1..n that isn't empty, and further nodes of 1..n.
fn is_row_of(n: u32, row: &RowSets) -> bool
    ensures { result ≡ is_row_of n (subset_row_of row.now) }
{
    is_set_of(n, &row.set) && are_nodes(n, &row.further)
}

/// Whether every row is valid by `is_row_of`.
fn is_each_row(n: u32, rows: &[RowSets]) -> bool
    ensures { result ≡ list_all (λ row. is_row_of n (subset_row_of row)) rows.now }
{
    rows.iter().all(|row| is_row_of(n, row))
}

/// Whether the rows have at most `MOST_FAMILY_NODES` nodes in all.
fn have_few_row_nodes(rows: &[RowSets]) -> bool
    ensures { result ≡ nat_le (sum_by (λ row. row_size (subset_row_of row)) rows.now) most_family_nodes }
{
    let mut total = 0;
    'rows: for row in rows {
        let left = MOST_FAMILY_NODES - total;
        if row.set.len() > left || row.further.len() > left - row.set.len() {
            return false;
        }
        total += row.set.len() + row.further.len();
    }
    true
}

/// Whether the rows are of nodes of 1..n, at most `MOST_ROWS` with at most `MOST_FAMILY_NODES`
/// nodes in all.
#[tactic(auto, using(crate::proofs::SeenLists::rows_seen))]
pub(crate) fn are_subset_rows(n: u32, rows: &[RowSets]) -> bool
    ensures { result ≡ are_subset_rows n (subset_rows_of rows.now) }
{
    rows.len() <= MOST_ROWS && is_each_row(n, rows) && have_few_row_nodes(rows)
}

/// Whether an index is that of a node or of some family.
fn is_index(n: u32, index: u32) -> bool
    ensures { result ≡ is_node (n + most_families) index }
{
    1 <= index && u64::from(index) <= u64::from(n) + MOST_FAMILIES as u64
}

/// Whether an index of a leaf is that of a node, of some family or of some row.
fn is_leaf_index(n: u32, index: u32) -> bool
    ensures { result ≡ is_node (n + most_families + most_rows) index }
{
    1 <= index && u64::from(index) <= u64::from(n) + MOST_FAMILIES as u64 + MOST_ROWS as u64
}

/// Whether an index is that of a node, of some family or of some row, and a difference is at most
/// `MOST_DIFFERENCE` in size.
fn is_change(n: u32, change: (u32, i64)) -> bool
    ensures { result ≡ is_change n change }
{
    is_leaf_index(n, change.0) && is_from_to(change.1, -MOST_DIFFERENCE, MOST_DIFFERENCE)
}

/// Whether every change of a leaf is valid by `is_change`.
fn are_changes(n: u32, changes: &[(u32, i64)]) -> bool
    ensures { result ≡ list_all (is_change n) changes.now }
{
    changes.iter().all(|change| is_change(n, *change))
}

/// Whether a branch is on two different nodes of 1..n, or on some family and a limit of 1..n.
fn is_branch_of(n: u32, branch: (u32, u32)) -> bool
    ensures { result ≡ is_branch_of n branch }
{
    is_index(n, branch.0) && is_node(n, branch.1) && branch.0 != branch.1
}

/// Whether a branch is on two different nodes or on some family, or a leaf has differences.
fn is_step(n: u32, step: &TreeStep) -> bool
    ensures { result ≡ is_step n (step_of step.now) }
{
    match step {
        TreeStep::Branch(first, second) => is_branch_of(n, (*first, *second)),
        TreeStep::Leaf(changes) => are_changes(n, changes),
    }
}

/// Whether every step is valid by `is_step`.
fn is_each_step(n: u32, steps: &[TreeStep]) -> bool
    ensures { result ≡ list_all (λ step. is_step n (step_of step)) steps.now }
{
    steps.iter().all(|step| is_step(n, step))
}

/// Whether there are at most `MOST_BRANCHES` branches.
fn have_few_branches(steps: &[TreeStep]) -> bool
    ensures { result ≡ nat_le (branch_count (steps_of steps.now)) most_branches }
{
    let mut total: usize = 0;
    'steps: for step in steps {
        if let TreeStep::Branch(..) = step {
            total += 1;
        }
    }
    total <= MOST_BRANCHES
}

/// Whether the leaves have at most `MOST_CHANGES` differences in all.
fn have_few_changes(steps: &[TreeStep]) -> bool
    ensures { result ≡ nat_le (change_count (steps_of steps.now)) most_changes }
{
    let mut total = 0;
    'steps: for step in steps {
        if let TreeStep::Leaf(changes) = step {
            if changes.len() > MOST_CHANGES - total {
                return false;
            }
            total += changes.len();
        }
    }
    true
}

/// Whether there are at most `MOST_BRANCHES` branches and `MOST_CHANGES` differences.
fn are_few(steps: &[TreeStep]) -> bool
    ensures { result ≡ (nat_le (branch_count (steps_of steps.now)) most_branches
        && nat_le (change_count (steps_of steps.now)) most_changes) }
{
    have_few_branches(steps) && have_few_changes(steps)
}

/// Whether the steps are those of one whole tree.
fn is_whole_tree(steps: &[TreeStep]) -> bool
    ensures { result ≡ are_whole 1 (steps_of steps.now) }
{
    let mut left: usize = 1;
    'steps: for step in steps {
        if left == 0 {
            return false;
        }
        match step {
            TreeStep::Branch(..) => left += 1,
            TreeStep::Leaf(_) => left -= 1,
        }
    }
    left == 0
}

/// Whether the steps are those of one whole tree of branches on two nodes or on a family, and of
/// leaves, with at most `MOST_BRANCHES` branches and `MOST_CHANGES` differences.
pub(crate) fn are_tree_steps(n: u32, steps: &[TreeStep]) -> bool
    ensures { result ≡ are_tree_steps n (steps_of steps.now) }
{
    is_each_step(n, steps) && are_few(steps) && is_whole_tree(steps)
}
