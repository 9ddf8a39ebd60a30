//! The bound of a leaf of a TSP (`bound_of_trees`), for `case_leaf.rt`. The minimum 1-tree grows
//! over kept rows, over boxes of points (`BoxedLeaf`), or over rows (`leaf_rows.rt`): which way
//! only affects speed, because `IsBoundOfWeights` pins the bound.

ghost use Rattle.tsp_branch.specs.Prelude.{All, false, length, pos, neg_ℤ, IfOk, true, ℕ, IsNode, IsFromTo, IsBoundSized, IsScale, weight_between, most_between, least_at, decided_number, most_combed, set_weight, lent_in, AreFewChanges, changes, decided, decisions_in};
ghost use Rattle.std.specs.Int.{w64, int_wrap};
ghost use Rattle.std.specs.Prelude.{◌≡◌, ◌+◌, ◌+ℤ◌, ◌*ℤ◌, ◌≤ℤ◌, ◌<◌, ◌*◌, ◌≤◌, ◌^◌};
ghost use Rattle.tsp_format.specs.Limits.{most_weight};
ghost use Rattle.tsp_branch.specs.BranchVerdicts.{BoundsEachLeaf, IsBoundOfWeights};
ghost use Rattle.tsp_branch.specs.states.LeafRows.{AreExact, is_same_place, has_place, shared_by, sum_at_places};

use crate::case_leaf::{CaseLeaf, LeafSum, change_between};
use std::alloc::Global;
use tsp_bound::{BoxedWeights, Growing, Grown, NumberedSite, grow_in_rounds, least_weight};
use tsp_cases::{Multipliers, SetPlace, sum_left};
use tsp_io::Refused;
use tsp_theory::{Costs, Region, Site, Weights, least_bound, weight_in};

/// A leaf whose weights a box can bound.
///
/// The number of a node is its potential less the multipliers of its sets, at most 4 * 10^18 in
/// size. Shared sets and avoided pairs can only increase a weight. So, except for taken pairs,
/// every weight is at least the cost at the scale plus the numbers of both nodes.
#[derive(Drop)]
pub(crate) struct BoxedLeaf<'a, C: Costs> {
    pub(crate) leaf: &'a CaseLeaf<'a, C>,
    ghost undirected: { leaf.now.context.now.cases.now.directed ≡ false },
    ghost once: { AreFewChanges (decisions_in leaf.now.case.now) },
    ghost exact: { AreExact (C.nodes leaf.now.context.now.costs.now) leaf.now.potentials.now
        leaf.now.multipliers.now (lent_in leaf.now.context.now.families.now) leaf.now.moved.now },
}

impl<C: Costs> BoxedLeaf<'_, C> {
    /// The cost at the scale plus the numbers of both nodes. The caller passes the cost.
    #[inline]
    fn base(&self, cost: i64, from: u32, to: u32) -> i64
        requires from { IsNode (C.nodes self.now.leaf.now.context.now.costs.now) from }
        requires to { IsNode (C.nodes self.now.leaf.now.context.now.costs.now) to }
        requires cost { cost ≡ C.at self.now.leaf.now.context.now.costs.now from to }
        requires low { neg_ℤ (pos most_weight) ≤ℤ cost }
        requires high { cost ≤ℤ pos most_weight }
        ensures value { result ≡ (self.now.leaf.now.context.now.cases.now.scale *ℤ C.at self.now.leaf.now.context.now.costs.now from to)
            +ℤ (least_at self.now.leaf.now.moved.now from
            +ℤ least_at self.now.leaf.now.moved.now to) }
        ensures size { IsFromTo (neg_ℤ (pos most_between)) (pos most_between)
            (weight_between self.now.leaf.now.context.now.cases.now.scale
            self.now.leaf.now.potentials.now (C.at self.now.leaf.now.context.now.costs.now) from to) }
    {
        let leaf = self.leaf;
        let both = weight_in(leaf.moved, from) + weight_in(leaf.moved, to);
        leaf.context.cases.scale * cost + both
    }

    /// The weight without decisions. The caller passes the weight without shared sets.
    fn combed(&self, base: i64, from: u32, to: u32) -> i64
        requires from { IsNode (C.nodes self.now.leaf.now.context.now.costs.now) from }
        requires to { IsNode (C.nodes self.now.leaf.now.context.now.costs.now) to }
        requires base { base ≡ (self.now.leaf.now.context.now.cases.now.scale *ℤ C.at self.now.leaf.now.context.now.costs.now from to)
            +ℤ (least_at self.now.leaf.now.moved.now from
            +ℤ least_at self.now.leaf.now.moved.now to) }
        requires size { IsFromTo (neg_ℤ (pos most_between)) (pos most_between)
            (weight_between self.now.leaf.now.context.now.cases.now.scale
            self.now.leaf.now.potentials.now (C.at self.now.leaf.now.context.now.costs.now) from to) }
        ensures value { result ≡ set_weight self.now.leaf.now.context.now.cases.now.scale self.now.leaf.now.potentials.now
            self.now.leaf.now.multipliers.now (lent_in self.now.leaf.now.context.now.families.now)
            (C.at self.now.leaf.now.context.now.costs.now) from to }
        ensures size { IsFromTo (neg_ℤ (pos most_combed)) (pos most_combed) result }
    {
        let context = self.leaf.context;
        let multipliers = Multipliers {
            families: context.families,
            numbers: self.leaf.multipliers,
        };
        let shared = shared_by(
            &multipliers,
            &context.by_node[to as usize],
            &context.by_node[from as usize],
        );
        sum_left(base, shared)
    }

    /// What the decisions of the case add to a weight.
    fn change(&self, from: u32, to: u32) -> i64
        requires { IsNode (C.nodes self.now.leaf.now.context.now.costs.now) from }
        ensures value { result ≡ changes (decisions_in self.now.leaf.now.case.now) from to }
        ensures size { IsFromTo (neg_ℤ decided_number) decided_number result }
    {
        change_between(self.leaf.case.at(from), from, to)
    }

    /// The weight between two nodes.
    fn decided(&self, from: u32, to: u32) -> i64
        requires from { IsNode (C.nodes self.now.leaf.now.context.now.costs.now) from }
        requires to { IsNode (C.nodes self.now.leaf.now.context.now.costs.now) to }
        ensures { result ≡ set_weight self.now.leaf.now.context.now.cases.now.scale self.now.leaf.now.potentials.now
            self.now.leaf.now.multipliers.now (lent_in self.now.leaf.now.context.now.families.now)
            (C.at self.now.leaf.now.context.now.costs.now) from to
            +ℤ changes (decisions_in self.now.leaf.now.case.now) from to }
    {
        let cost = self.leaf.context.costs.cost(from, to);
        let combed = self.combed(self.base(cost, from, to), from, to);
        combed + self.change(from, to)
    }
}

impl<C: Costs> Weights for BoxedLeaf<'_, C> {
    ghost nodes = { λ w. C.nodes w.leaf.now.context.now.costs.now };

    ghost at = { λ w. decided (decisions_in w.leaf.now.case.now) (set_weight w.leaf.now.context.now.cases.now.scale
        w.leaf.now.potentials.now w.leaf.now.multipliers.now
        (lent_in w.leaf.now.context.now.families.now)
        (C.at w.leaf.now.context.now.costs.now)) };

    #[inline]
    fn count(&self) -> u32 {
        self.leaf.count()
    }

    fn fill(&self, from: u32, row: &mut [i64]) {
        self.leaf.fill(from, row);
    }

    fn fill_at(&self, from: u32, to: &[u32], row: &mut [i64]) {
        self.leaf.fill_at(from, to, row);
    }
}

impl<C: Costs> Growing for BoxedLeaf<'_, C> {
    fn grow(&self, alloc: Global, row: &mut [i64]) -> Result<Grown, Refused> {
        grow_in_rounds(alloc, self, row)
    }
}

impl<C: Costs> BoxedWeights for BoxedLeaf<'_, C> {
    ghost use Rattle.tsp_branch.specs.states.LeafRows.{raised, others_of};

    ghost place_of = { λ w. C.place w.leaf.now.context.now.costs.now };

    ghost scale_of = { λ w. w.leaf.now.context.now.cases.now.scale };

    ghost cost_of = { λ w. C.at w.leaf.now.context.now.costs.now };

    ghost number_of = { λ w. least_at w.leaf.now.moved.now };

    ghost unlowered = { λ w. raised (decisions_in w.leaf.now.case.now) (set_weight w.leaf.now.context.now.cases.now.scale
        w.leaf.now.potentials.now w.leaf.now.multipliers.now
        (lent_in w.leaf.now.context.now.families.now)
        (C.at w.leaf.now.context.now.costs.now)) };

    ghost lowered_of = { λ w. others_of (decisions_in w.leaf.now.case.now) };

    #[inline]
    fn scale(&self) -> i64 {
        self.leaf.context.cases.scale
    }

    #[inline]
    fn number(&self, node: u32) -> i64 {
        weight_in(self.leaf.moved, node)
    }

    fn order(&self, alloc: Global) -> Result<Vec<u32>, Refused> {
        self.leaf.context.costs.order(alloc)
    }

    #[inline]
    fn site(&self, node: u32) -> Option<Site> {
        self.leaf.context.costs.site(node)
    }

    #[inline(always)]
    fn is_beyond(&self, from: &Site, region: &Region, least: i64) -> bool {
        self.leaf.context.costs.is_beyond(from, region, least)
    }

    fn weight_within(&self, from: &NumberedSite, to: &NumberedSite, most: i64) -> i64 {
        let cost = self.leaf.context.costs.cost_between(&from.site, &to.site);
        let (from, to) = (from.site.node, to.site.node);
        let base = self.base(cost, from, to);
        if base >= most {
            return base;
        }
        let combed = self.combed(base, from, to);
        let change = self.change(from, to);
        if change < 0 { combed } else { combed + change }
    }

    #[inline]
    fn count_lowered(&self, from: u32) -> usize {
        self.leaf.case.at(from).len()
    }

    fn lowered(&self, from: u32, index: usize) -> (u32, i64) {
        let (first, second) = self.leaf.case.at(from)[index].pair;
        let to = if first == from { second } else { first };
        (to, self.decided(from, to))
    }

    fn weight(&self, from: u32, to: u32) -> i64 {
        self.decided(from, to)
    }
}

/// The bound of a leaf of a TSP: by kept rows, by boxes, or by rows.
///
/// Kept rows are used if there are any. Otherwise boxes are used if they suit the leaf's sets and
/// its numbers aren't too large. The requirements are those of
/// [`tour_leaf_bound`](crate::tour_leaf_bound).
///
/// # Errors
///
/// Out of memory.
pub(crate) fn bound_of_trees<C: Costs>(
    alloc: Global,
    leaf: &CaseLeaf<C>,
    row: &mut [i64],
    sum: LeafSum,
) -> Result<i128, Refused>
    requires undirected { leaf.now.context.now.cases.now.directed ≡ false }
    requires room { length row.old ≡ C.nodes leaf.now.context.now.costs.now + 1 }
    ensures leaf { IfOk result (λ bound. BoundsEachLeaf (C.nodes leaf.now.context.now.costs.now)
        (decided (decisions_in leaf.now.case.now) (set_weight leaf.now.context.now.cases.now.scale
        leaf.now.potentials.now leaf.now.multipliers.now (lent_in leaf.now.context.now.families.now)
        (C.at leaf.now.context.now.costs.now))) sum.scale sum.given_back bound) }
    ensures size { IfOk result (λ bound. IsBoundSized bound) }
{
    if leaf.kept.is_empty() && leaf.prefers_boxes() && leaf.are_exact() {
        let boxed = BoxedLeaf { leaf: &*leaf };
        return tour_leaf_bound(alloc, &boxed, row, sum.scale, sum.given_back);
    }
    tour_leaf_bound(alloc, leaf, row, sum.scale, sum.given_back)
}

// ---- the sets that two nodes are both in

/// The largest sum of multipliers of a node's sets for which boxes can bound its weights.
const MOST_TAKEN: i64 = 3_000_000_000_000_000_000;

/// Whether two places are the same.
#[inline]
fn is_same_place(place: SetPlace, other: SetPlace) -> bool
    ensures { result ≡ is_same_place place other }
{
    other.family == place.family && other.set == place.set
}

/// Whether the list contains the place.
fn has_place(places: &[SetPlace], place: SetPlace) -> bool
    ensures { result ≡ has_place places.now place }
{
    'places: for other in places {
        if is_same_place(place, *other) {
            return true;
        }
    }
    false
}

/// What the sets that contain both nodes add to a weight: twice the multiplier of the family of
/// each, wrapped to 64 bits.
fn shared_by(multipliers: &Multipliers, others: &[SetPlace], places: &[SetPlace]) -> i64
    requires { All (λ place. place.family < length multipliers.now.numbers.now) places.now }
    ensures { int_wrap w64 result ≡ int_wrap w64 (shared_by multipliers.now.numbers.now others.now places.now) }
{
    let mut sum = 0;
    'places: for place in places {
        if has_place(others, *place) {
            sum = sum_left(sum, 2 * multipliers.numbers[place.family as usize]);
        }
    }
    sum
}

/// Whether the multipliers at these places sum to at most 3 * 10^18.
pub(crate) fn are_few(multipliers: &Multipliers, places: &[SetPlace]) -> bool
    requires { All (λ place. place.family < length multipliers.now.numbers.now) places.now }
    ensures { result ≡ true → IsFromTo (pos 0) (pos 3000000000000000000)
        (sum_at_places multipliers.now.numbers.now places.now) }
{
    let mut sum = 0;
    'places: for place in places {
        sum += multipliers.numbers[place.family as usize];
        if sum > MOST_TAKEN {
            return false;
        }
    }
    true
}

// ---- the bound of a leaf from its weights

/// The bound of a leaf from its weights: the least integer that, times the scale, is at least the
/// weight of a minimum 1-tree plus a sum.
///
/// The sum is that of the taken pairs' numbers and of the combs' multipliers, each times the least
/// number of crossings, less each potential twice. With this sum, the result is the bound of every
/// leaf with these weights.
///
/// # Requires
///
/// Three or more nodes, symmetric weights, a sum of at most 2^99 in size, and a row with one place
/// more than there are nodes. The row is overwritten.
///
/// # Errors
///
/// Out of memory. It allocates memory for each node.
pub fn tour_leaf_bound<W: Growing>(
    alloc: Global,
    w: &W,
    row: &mut [i64],
    scale: i64,
    given_back: i128,
) -> Result<i128, Refused>
    requires some { 3 ≤ W.nodes w.now }
    requires room { length row.old ≡ W.nodes w.now + 1 }
    requires even { (i j : ℕ) → W.at w.now i j ≡ W.at w.now j i }
    requires scale { IsScale scale }
    requires given_back { IsFromTo (neg_ℤ (pos (2 ^ 99))) (pos (2 ^ 99)) given_back }
    ensures weights { IfOk result (λ bound.
        IsBoundOfWeights (W.nodes w.now) (W.at w.now) scale given_back bound) }
    ensures leaf { IfOk result (λ bound.
        BoundsEachLeaf (W.nodes w.now) (W.at w.now) scale given_back bound) }
    ensures size { IfOk result (λ bound. IsBoundSized bound) }
{
    let weight = least_weight(alloc, w, row)?;
    Ok(least_bound(scale, weight + given_back))
}
