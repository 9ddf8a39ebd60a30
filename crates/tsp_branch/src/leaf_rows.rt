//! Implements `Weights` and `Growing` for `CaseLeaf`, row by row. Unlike boxes (`boxed.rt`), rows
//! work for every leaf. `boxed.rt` (for a TSP) and `case_leaf.rt` (for an ATSP) read the rows.
//! `decided_by` in `specs/states/LeafRows.antt` pins every weight.
//!
//! An edge crosses a set if exactly one of its nodes is in it: as often as it has nodes there, less
//! 2 if both are. So each multiplier is subtracted from the potentials of the nodes in its sets,
//! and a row only has to add it back, twice, at the nodes that share a set with its own node.

ghost use Rattle.tsp_branch.specs.Prelude.{true, pos, neg_ℤ, IsFromTo, most_number};
ghost use Rattle.std.specs.Prelude.{◌≡◌};

use crate::boxed::are_few;
use crate::case_leaf::{CaseLeaf, change_row};
use crate::tour_verdict::prefers_boxes;
use std::alloc::Global;
use tsp_bound::{Growing, Grown, grow};
use tsp_cases::{
    DECIDED, MultipliedFamilies, Multipliers, add_sets, fill_shifted, scale_row, shift_row,
    sum_left,
};
use tsp_io::Refused;
use tsp_theory::{Costs, Weights, weight_in};

/// Whether a node's number is at most as large as that of a decided pair, which boxes require.
fn is_number(number: i64) -> bool
    ensures { result ≡ true → IsFromTo (neg_ℤ (pos most_number)) (pos most_number) number }
{
    -DECIDED <= number && number <= DECIDED
}

impl<C: Costs> CaseLeaf<'_, C> {
    ghost use Rattle.tsp_branch.specs.Prelude.{ℕ, length, slice_index, pos, neg_ℤ, IsNode, IsFromTo, IsScale, ArePotentials, least_at, weight_between, most_between, IsMoved, lent_in, AreSmallMultipliers, multipliers_at, AreFewCrossings, IsApart, most_combed, set_weight, most_decided, decisions_in, true};
    ghost use Rattle.std.specs.Prelude.{◌≡◌, ◌<◌, ◌≤◌, ◌+◌, ◌+ℤ◌};
    ghost use Rattle.tsp_branch.specs.states.LeafRows.{AreExact, decided_by};

    /// Whether boxes are expected to be at least as fast as rows that aren't kept.
    pub(crate) fn prefers_boxes(&self) -> bool {
        prefers_boxes(self.context.by_node, self.context.families.lent)
    }

    /// Whether each node's potential less the multipliers of its sets is at most 4 * 10^18 in size.
    pub(crate) fn are_exact(&self) -> bool
        ensures { result ≡ true → AreExact (C.nodes self.now.context.now.costs.now) self.now.potentials.now self.now.multipliers.now
            (lent_in self.now.context.now.families.now) self.now.moved.now }
    {
        let multipliers = Multipliers {
            families: self.context.families,
            numbers: self.multipliers,
        };
        'nodes: for node in 1..self.context.costs.count() + 1 {
            if !are_few(&multipliers, &self.context.by_node[node as usize])
                || !is_number(weight_in(self.moved, node))
            {
                return false;
            }
        }
        true
    }

    /// Writes a row without what shared sets add. The contract also bounds the weights for leaves
    /// without families.
    fn fill_apart(&self, from: u32, row: &mut [i64])
        requires from { IsNode (C.nodes self.now.context.now.costs.now) from }
        requires room { length row.old ≡ C.nodes self.now.context.now.costs.now + 1 }
        ensures values { (x : ℕ) → IsNode (C.nodes self.now.context.now.costs.now) x
            → IsMoved (neg_ℤ (multipliers_at self.now.multipliers.now (lent_in self.now.context.now.families.now) from)
            +ℤ neg_ℤ (multipliers_at self.now.multipliers.now (lent_in self.now.context.now.families.now) x))
            (weight_between self.now.context.now.cases.now.scale self.now.potentials.now (C.at self.now.context.now.costs.now) from x)
            (least_at row.new x) }
        ensures sizes { (x : ℕ) → IsNode (C.nodes self.now.context.now.costs.now) x
            → IsFromTo (neg_ℤ (pos most_between)) (pos most_between)
            (weight_between self.now.context.now.cases.now.scale self.now.potentials.now (C.at self.now.context.now.costs.now) from x) }
    {
        self.context.costs.costs_from(from, row);
        scale_row(row, self.context.cases.scale);
        shift_row(row, self.moved, weight_in(self.moved, from));
    }

    /// A weight without what shared sets add, wrapped to 64 bits. The caller passes the wrapped
    /// number of the first node. The contract also bounds the weight for leaves without combs.
    #[inline]
    fn weight_apart(&self, own: i64, from: u32, to: u32) -> i64
        requires own { own ≡ least_at self.now.moved.now from }
        requires from { IsNode (C.nodes self.now.context.now.costs.now) from }
        requires to { IsNode (C.nodes self.now.context.now.costs.now) to }
        ensures value { IsMoved (neg_ℤ (multipliers_at self.now.multipliers.now (lent_in self.now.context.now.families.now) from)
            +ℤ neg_ℤ (multipliers_at self.now.multipliers.now (lent_in self.now.context.now.families.now) to))
            (weight_between self.now.context.now.cases.now.scale self.now.potentials.now (C.at self.now.context.now.costs.now) from to) result }
        ensures size { IsFromTo (neg_ℤ (pos most_between)) (pos most_between)
            (weight_between self.now.context.now.cases.now.scale self.now.potentials.now (C.at self.now.context.now.costs.now) from to) }
    {
        sum_left(
            self.context.cases.scale * self.context.costs.cost(from, to),
            sum_left(own, weight_in(self.moved, to)),
        )
    }

    /// What `fill_apart` does, for some entries only.
    fn fill_apart_at(&self, from: u32, to: &[u32], row: &mut [i64])
        requires from { IsNode (C.nodes self.now.context.now.costs.now) from }
        requires to { (k : ℕ) → k < length to.now → IsNode (C.nodes self.now.context.now.costs.now) (slice_index to.now k) }
        requires room { length row.old ≡ C.nodes self.now.context.now.costs.now + 1 }
        ensures { (k : ℕ) → k < length to.now → IsApart self.now.context.now.cases.now.scale self.now.potentials.now self.now.multipliers.now
            (lent_in self.now.context.now.families.now) (C.at self.now.context.now.costs.now) from (slice_index to.now k)
            (least_at row.new (slice_index to.now k)) }
    {
        let own = weight_in(self.moved, from);
        'places: for place in 0..to.len() {
            let node = to[place];
            row[node as usize] = self.weight_apart(own, from, node);
        }
    }

    /// The weights to these nodes without the decisions: costs, potentials and multipliers. They are
    /// at most 2 * 10^18 in size.
    pub(crate) fn fill_combed_at(&self, from: u32, to: &[u32], row: &mut [i64])
        requires from { IsNode (C.nodes self.now.context.now.costs.now) from }
        requires to { (k : ℕ) → k < length to.now → IsNode (C.nodes self.now.context.now.costs.now) (slice_index to.now k) }
        requires room { length row.old ≡ C.nodes self.now.context.now.costs.now + 1 }
        ensures values { (k : ℕ) → k < length to.now → least_at row.new (slice_index to.now k)
            ≡ set_weight self.now.context.now.cases.now.scale self.now.potentials.now self.now.multipliers.now
            (lent_in self.now.context.now.families.now) (C.at self.now.context.now.costs.now) from (slice_index to.now k) }
        ensures sizes { (k : ℕ) → k < length to.now
            → IsFromTo (neg_ℤ (pos most_combed)) (pos most_combed) (least_at row.new (slice_index to.now k)) }
    {
        self.fill_apart_at(from, to, row);
        let multiplied = MultipliedFamilies {
            families: self.context.families,
            numbers: self.multipliers,
        };
        add_sets(row, &self.context.by_node[from as usize], &multiplied);
    }

    /// The weights to all nodes without the decisions, at most 2 * 10^18 in size.
    pub(crate) fn fill_combed(&self, from: u32, row: &mut [i64])
        requires from { IsNode (C.nodes self.now.context.now.costs.now) from }
        requires room { length row.old ≡ C.nodes self.now.context.now.costs.now + 1 }
        ensures values { (x : ℕ) → IsNode (C.nodes self.now.context.now.costs.now) x → least_at row.new x
            ≡ set_weight self.now.context.now.cases.now.scale self.now.potentials.now self.now.multipliers.now
            (lent_in self.now.context.now.families.now) (C.at self.now.context.now.costs.now) from x }
        ensures sizes { (x : ℕ) → IsNode (C.nodes self.now.context.now.costs.now) x
            → IsFromTo (neg_ℤ (pos most_combed)) (pos most_combed) (least_at row.new x) }
    {
        self.fill_apart(from, row);
        let multiplied = MultipliedFamilies {
            families: self.context.families,
            numbers: self.multipliers,
        };
        add_sets(row, &self.context.by_node[from as usize], &multiplied);
    }

    /// Writes a row, starting from the one that is kept.
    fn fill_by_kept(&self, from: u32, row: &mut [i64])
        requires kept { 1 ≤ length self.now.kept.now }
        requires from { IsNode (C.nodes self.now.context.now.costs.now) from }
        requires room { length row.old ≡ C.nodes self.now.context.now.costs.now + 1 }
        ensures values { (x : ℕ) → IsNode (C.nodes self.now.context.now.costs.now) x → least_at row.new x
            ≡ decided_by self.now.context.now.cases.now.directed (decisions_in self.now.case.now)
            (set_weight self.now.context.now.cases.now.scale self.now.potentials.now self.now.multipliers.now
            (lent_in self.now.context.now.families.now) (C.at self.now.context.now.costs.now)) from x }
        ensures sizes { (x : ℕ) → IsNode (C.nodes self.now.context.now.costs.now) x
            → IsFromTo (neg_ℤ (pos most_decided)) (pos most_decided) (least_at row.new x) }
    {
        let own = weight_in(self.moved, from);
        fill_shifted(row, &self.kept[from as usize - 1], self.moved, own);
    }
}

impl<C: Costs> Weights for CaseLeaf<'_, C> {
    ghost use Rattle.tsp_branch.specs.Prelude.{lent_in, set_weight, decisions_in};
    ghost use Rattle.tsp_branch.specs.states.LeafRows.{decided_by};

    ghost nodes = { λ leaf. C.nodes leaf.context.now.costs.now };

    ghost at = { λ leaf. decided_by leaf.context.now.cases.now.directed (decisions_in leaf.case.now)
        (set_weight leaf.context.now.cases.now.scale leaf.potentials.now leaf.multipliers.now
        (lent_in leaf.context.now.families.now) (C.at leaf.context.now.costs.now)) };

    #[inline]
    fn count(&self) -> u32 {
        self.context.costs.count()
    }

    fn fill(&self, from: u32, row: &mut [i64]) {
        if !self.kept.is_empty() {
            self.fill_by_kept(from, row);
            return;
        }
        self.fill_combed(from, row);
        if !self.context.cases.directed {
            change_row(row, self.case.at(from), from);
        }
    }

    fn fill_at(&self, from: u32, to: &[u32], row: &mut [i64]) {
        if !self.kept.is_empty() {
            // A whole row in order takes less time than half of it, node by node.
            self.fill_by_kept(from, row);
            return;
        }
        self.fill_combed_at(from, to, row);
        if !self.context.cases.directed {
            change_row(row, self.case.at(from), from);
        }
    }
}

impl<C: Costs> Growing for CaseLeaf<'_, C> {
    fn grow(&self, alloc: Global, row: &mut [i64]) -> Result<Grown, Refused> {
        grow(alloc, self, row)
    }
}
