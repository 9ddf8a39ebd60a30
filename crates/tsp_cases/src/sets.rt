//! The sets of a certificate by node: which sets contain it, what they add to its row of weights,
//! and its potential less their multipliers. Sums wrap around, because a partial sum may exceed 64
//! bits even if the result doesn't. `specs/states/Sets.antt` pins the results; tsp_branch and
//! tsp_routing use them, too. The numbers are `Multipliers` for a leaf for tours, which aren't
//! negative, or any `MultipliedFamilies`, such as differences of multipliers. `mark_nodes` finds a
//! node that comes twice.

ghost use Rattle.std.specs.Prelude.{◌<◌, ◌-◌, ◌^◌, ◌≡◌, ◌+◌, ◌+ℤ◌, ◌≤◌, ◌*ℤ◌, ◌↔◌};
ghost use Rattle.tsp_format.specs.Limits.{most_weight};
ghost use Rattle.tsp_cases.specs.Crossings.{lists_of};
ghost use Rattle.tsp_cases.specs.Prelude.{w64, int_wrap, All, ℕ, length, IfOk, pos, neg_ℤ, IsNode, IsFromTo, IsScale, entry, sum_int_by, least_at, IsMoved, IsTrue, true};
ghost use Rattle.tsp_cases.specs.states.GoodFamilies.{is_marked, AddsNoOther, AreNew, AreMarked};
ghost use Rattle.tsp_cases.specs.states.Sets.{inside_both, multipliers_at, lent_in, IsPlaceIn, added, times, places_in, AreLengthened, IsSetTable, AreSmallMultipliers, AreSmallDifferences};

use crate::family::Families;
use crate::open_case::empty_lists;
use std::alloc::Global;
use tsp_io::{Refused, push};
use tsp_theory::add_at;

/// Adds a number at each node of a list; does nothing for 0.
///
/// Sums wrap around, because a partial sum may exceed 64 bits even if the result doesn't.
fn add_to_nodes(row: &mut [i64], nodes: &[u32], number: i64)
    requires { All (λ node. node < length row.old) nodes.now }
    ensures { (x : ℕ) → IsMoved (added number nodes.now x) (least_at row.old x) (least_at row.new x) }
{
    if number == 0 {
        return;
    }
    'nodes: for node in nodes {
        add_at(row, *node, number);
    }
}

/// For each node from 0 on, the places of the sets that contain it.
///
/// # Errors
///
/// If memory runs out. It allocates an entry for each node and for each node of a set.
pub fn sets_by_node(alloc: Global, families: &Families) -> Result<Vec<Vec<SetPlace>>, Refused>
    ensures { IfOk result (λ lists. IsSetTable families.now.nodes (lent_in families.now) lists.items) }
{
    let mut lists = empty_lists(alloc, families.nodes)?;
    'families: for number in 0..families.lent.len() {
        place_family(&mut lists, number as u32, &families.lent[number])?;
    }
    Ok(lists)
}

/// Adds the places of a family's sets to the lists of their nodes.
fn place_family(
    lists: &mut Vec<Vec<SetPlace>>,
    family: u32,
    sets: &[Vec<u32>],
) -> Result<(), Refused>
    requires few { length sets.now < 2 ^ 32 }
    requires nodes { All (λ set. All (λ node. node < length lists.old.items) set.items) sets.now }
    ensures { IfOk result (λ unit. AreLengthened (places_in family 0 (lists_of sets.now)) lists.old.items lists.new.items) }
{
    'sets: for number in 0..sets.len() {
        let place = SetPlace {
            family,
            set: number as u32,
        };
        place_set(lists, place, &sets[number])?;
    }
    Ok(())
}

/// Adds a set's place to the list of each of its nodes.
fn place_set(lists: &mut Vec<Vec<SetPlace>>, place: SetPlace, nodes: &[u32]) -> Result<(), Refused>
    requires { All (λ node. node < length lists.old.items) nodes.now }
    ensures { IfOk result (λ unit. AreLengthened (times place nodes.now) lists.old.items lists.new.items) }
{
    'nodes: for node in nodes {
        push(&mut lists[*node as usize], place)?;
    }
    Ok(())
}

// ---- the place of a set in a certificate

/// The place of a set: the index of its family, and its own index in the family, both from 0.
#[derive(Clone, Copy)]
pub struct SetPlace {
    pub family: u32,
    pub set: u32,
}

// ---- what the sets of a node add to its row

/// Adds to the row of a node what shared sets add: at each node of each of its sets, twice the
/// number of the set's family.
pub fn add_sets(row: &mut [i64], places: &[SetPlace], multiplied: &MultipliedFamilies)
    requires places { All (IsPlaceIn (lent_in multiplied.now.families.now)) places.now }
    requires row { length row.old ≡ multiplied.now.families.now.nodes + 1 }
    ensures { (x : ℕ) → IsMoved (inside_both multiplied.now.numbers.now (lent_in multiplied.now.families.now) places.now x)
        (least_at row.old x) (least_at row.new x) }
{
    'places: for place in places {
        let nodes = multiplied.families.set_at(*place);
        add_to_nodes(row, nodes, 2 * multiplied.numbers[place.family as usize]);
    }
}

/// Adds a number at each node of each of these sets.
fn add_to_sets(row: &mut [i64], sets: &[Vec<u32>], number: i64)
    requires { All (λ set. All (λ node. node < length row.old) set.items) sets.now }
    ensures { (x : ℕ) → IsMoved (sum_int_by (λ set. added number set x) (lists_of sets.now))
        (least_at row.old x) (least_at row.new x) }
{
    'sets: for set in sets {
        add_to_nodes(row, set, number);
    }
}

/// The sum, wrapped to 64 bits.
#[inline]
pub fn sum_left(a: i64, b: i64) -> i64
    ensures { result ≡ int_wrap w64 (a +ℤ b) }
{
    a.wrapping_add(b)
}

// ---- rows of costs, as counts of 1 / SCALE, with numbers added

/// Multiplies the costs of a row by the scale. Place 0 stays as it is.
///
/// # Requires
///
/// Costs of at most 10^12 in size.
pub fn scale_row(row: &mut [i64], scale: i64)
    requires scale { IsScale scale }
    requires costs { (x : ℕ) → 1 ≤ x → x < length row.old
        → IsFromTo (neg_ℤ (pos most_weight)) (pos most_weight) (least_at row.old x) }
    ensures { (x : ℕ) → 1 ≤ x → x < length row.old → least_at row.new x ≡ scale *ℤ least_at row.old x }
{
    'places: for place in 1..row.len() {
        row[place] = scale * row[place];
    }
}

/// Adds to each entry of a row a number, and the entry of another row at that place. Sums wrap
/// around in 64 bits.
///
/// # Requires
///
/// Rows of the same length.
pub fn shift_row(row: &mut [i64], moved: &[i64], number: i64)
    requires { length moved.now ≡ length row.old }
    ensures { (x : ℕ) → x < length row.old → least_at row.new x
        ≡ int_wrap w64 (least_at row.old x +ℤ int_wrap w64 (number +ℤ least_at moved.now x)) }
{
    'places: for place in 0..row.len() {
        row[place] = sum_left(row[place], sum_left(number, moved[place]));
    }
}

/// Writes the sums of two rows' entries and one number, wrapped to 64 bits.
///
/// # Requires
///
/// Rows of the same length.
pub fn fill_shifted(row: &mut [i64], kept: &[i64], moved: &[i64], number: i64)
    requires kept { length kept.now ≡ length row.old }
    requires moved { length moved.now ≡ length row.old }
    ensures { (x : ℕ) → x < length row.old → least_at row.new x
        ≡ int_wrap w64 (least_at kept.now x +ℤ int_wrap w64 (number +ℤ least_at moved.now x)) }
{
    'places: for place in 0..row.len() {
        row[place] = sum_left(kept[place], sum_left(number, moved[place]));
    }
}

// ---- the potential of each node less the multipliers of its sets

/// Writes, for each node, the sum of its potential and another number, wrapped to 64 bits.
pub fn fill_moved(row: &mut [i64], potentials: &[i64], ends: &[i64])
    requires room { length row.old ≡ length potentials.now + 1 }
    requires ends { length ends.now ≡ length potentials.now + 1 }
    ensures { (x : ℕ) → IsNode (length potentials.now) x
        → least_at row.new x ≡ int_wrap w64 (entry potentials.now x +ℤ least_at ends.now x) }
{
    'nodes: for index in 0..potentials.len() {
        row[index + 1] = sum_left(potentials[index], ends[index + 1]);
    }
}

/// Subtracts from the entry of each node the numbers of the families of all sets that contain it.
pub fn take_multipliers(row: &mut [i64], multiplied: &MultipliedFamilies)
    requires { length row.old ≡ multiplied.now.families.now.nodes + 1 }
    ensures { (x : ℕ) → IsMoved (neg_ℤ (multipliers_at multiplied.now.numbers.now (lent_in multiplied.now.families.now) x))
        (least_at row.old x) (least_at row.new x) }
{
    'multipliers: for number in 0..multiplied.numbers.len() {
        add_to_sets(
            row,
            &multiplied.families.lent[number],
            -multiplied.numbers[number],
        );
    }
}

// ---- multipliers for a leaf for tours

/// Families, and a multiplier for each, from 0 to 9 * 10^17.
#[derive(Clone, Copy)]
pub struct Multipliers<'a> {
    pub families: &'a Families<'a>,
    pub numbers: &'a [i64],
    pub ghost as_many: { length numbers.now ≡ length families.now.lent.now },
    pub ghost small: { AreSmallMultipliers numbers.now },
}

// ---- families with a number for each

/// Families, and a number for each, at most 9 * 10^17 in size.
#[derive(Clone, Copy)]
pub struct MultipliedFamilies<'a> {
    pub families: &'a Families<'a>,
    pub numbers: &'a [i64],
    pub ghost as_many: { length numbers.now ≡ length families.now.lent.now },
    pub ghost small: { AreSmallDifferences numbers.now },
}

// ---- marks by node, by which a node that comes twice in sets is found

/// Marks the nodes of a set. `false` if one of them has the mark already or appears twice; the
/// nodes before it are then marked.
pub fn mark_nodes(marks: &mut [u32], mark: u32, nodes: &[u32]) -> bool
    requires { All (λ node. node < length marks.old) nodes.now }
    ensures new { IsTrue result ↔ AreNew (is_marked marks.old mark) nodes.now }
    ensures marked { result ≡ true → AreMarked mark nodes.now marks.old marks.new }
    ensures others { AddsNoOther mark marks.old marks.new }
    ensures length { length marks.new ≡ length marks.old }
{
    'nodes: for node in nodes {
        let place = *node as usize;
        if marks[place] == mark {
            return false;
        }
        marks[place] = mark;
    }
    true
}
