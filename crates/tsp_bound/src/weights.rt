//! Edge weights under potentials: cost times scale, plus both potentials, minus the multiplier of a
//! fixed edge. `bound.rt` grows its 1-tree over them, by rows (`Weights`) or by boxes
//! (`BoxedWeights`). Both give `weight_less` (`specs/states/Potentials.antt`).

ghost use Rattle.tsp_bound.specs.Prelude.{ℕ, length, slice_index, pos, neg_ℤ, All, IsNode, most_multiplier, most_between, IsFromTo, least_at, IsMoved};
ghost use Rattle.std.specs.Prelude.{◌≡◌, ◌≤◌, ◌<◌, ◌+◌};
ghost use Rattle.tsp_bound.specs.states.ByNode.{lowered_by};
ghost use Rattle.tsp_bound.specs.states.Potentials.{node_count, numbers_of, weight_under};

use crate::boxes::{BoxedWeights, NumberedSite};
use crate::multipliers_by_node::ByNode;
use crate::potentials::{Potentials, scaled};
use std::alloc::Global;
use tsp_io::Refused;
use tsp_theory::{Costs, Region, Site, add_at};

/// The costs of three or more nodes, along with their potentials and multipliers.
#[derive(Drop)]
pub(crate) struct PotentialWeights<'a, C: Costs> {
    pub(crate) c: &'a C,
    pub(crate) p: &'a Potentials<'a>,
    pub(crate) m: &'a ByNode<'a>,
    ghost some: { 3 ≤ C.nodes c.now },
    ghost count: { length (numbers_of p.now) ≡ C.nodes c.now },
    ghost over: { node_count m.now ≡ C.nodes c.now },
}

impl<C: Costs> tsp_theory::Weights for PotentialWeights<'_, C> {
    ghost use Rattle.tsp_bound.specs.states.Potentials.{triples_in, weight_less};

    ghost nodes = { λ w. C.nodes w.c.now };

    ghost at = { λ w. weight_less w.p.now (triples_in w.m.now) (C.at w.c.now) };

    #[inline]
    fn count(&self) -> u32 {
        self.c.count()
    }

    fn fill(&self, from: u32, row: &mut [i64]) {
        weigh_all(self, from, row);
        take_lowerings(row, self.m.at(from));
    }

    fn fill_at(&self, from: u32, to: &[u32], row: &mut [i64]) {
        weigh(self, from, to, row);
        take_lowerings(row, self.m.at(from));
    }
}

/// Writes the weights between a node and each, without multipliers.
fn weigh_all<C: Costs>(w: &PotentialWeights<C>, from: u32, row: &mut [i64])
    requires from { IsNode (C.nodes w.now.c.now) from }
    requires room { length row.old ≡ C.nodes w.now.c.now + 1 }
    ensures values { (x : ℕ) → IsNode (C.nodes w.now.c.now) x
        → least_at row.new x ≡ weight_under w.now.p.now (C.at w.now.c.now) from x }
    ensures sizes { (x : ℕ) → IsNode (C.nodes w.now.c.now) x
        → IsFromTo (neg_ℤ (pos most_between)) (pos most_between) (least_at row.new x) }
{
    // Read before the loop, because the compiler would read them again after each write to `row`.
    let c = w.c;
    let p = w.p;
    let own = p.number(from);
    'nodes: for node in 1..c.count() + 1 {
        row[node as usize] = p.weight_from(c, own, from, node);
    }
}

/// Writes the weights between a node and some others, without multipliers.
fn weigh<C: Costs>(w: &PotentialWeights<C>, from: u32, to: &[u32], row: &mut [i64])
    requires from { IsNode (C.nodes w.now.c.now) from }
    requires to { (k : ℕ) → k < length to.now → IsNode (C.nodes w.now.c.now) (slice_index to.now k) }
    requires room { length row.old ≡ C.nodes w.now.c.now + 1 }
    ensures values { (k : ℕ) → k < length to.now → least_at row.new (slice_index to.now k)
        ≡ weight_under w.now.p.now (C.at w.now.c.now) from (slice_index to.now k) }
    ensures sizes { (k : ℕ) → k < length to.now
        → IsFromTo (neg_ℤ (pos most_between)) (pos most_between) (least_at row.new (slice_index to.now k)) }
{
    let c = w.c;
    let p = w.p;
    let own = p.number(from);
    'places: for place in 0..to.len() {
        let node = to[place];
        row[node as usize] = p.weight_from(c, own, from, node);
    }
}

/// Subtracts the multipliers of a node's pairs from its row.
///
/// Places that weren't written may contain any number, so the differences wrap around.
fn take_lowerings(row: &mut [i64], lowerings: &[(u32, i64)])
    requires { All (λ lowering. (lowering.0 < length row.old)
        × IsFromTo (pos 0) (pos most_multiplier) lowering.1) lowerings.now }
    ensures { (x : ℕ) → IsMoved (neg_ℤ (lowered_by lowerings.now x)) (least_at row.old x) (least_at row.new x) }
{
    'lowerings: for lowering in lowerings {
        let (node, number) = *lowering;
        add_at(row, node, -number);
    }
}

impl<C: Costs> BoxedWeights for PotentialWeights<'_, C> {
    ghost use Rattle.tsp_bound.specs.Prelude.{map, entry};
    ghost use Rattle.tsp_bound.specs.states.ByNode.{all_said_of};
    ghost use Rattle.tsp_bound.specs.states.Potentials.{scale_of};
    ghost use Rattle.tsp_bound.specs.states.Potentials.{triples_in};

    ghost place_of = { λ w. C.place w.c.now };

    ghost scale_of = { λ w. scale_of w.p.now };

    ghost cost_of = { λ w. C.at w.c.now };

    ghost number_of = { λ w. entry (numbers_of w.p.now) };

    ghost unlowered = { λ w. weight_under w.p.now (C.at w.c.now) };

    ghost lowered_of = { λ w from. map (λ lowering. lowering.0) (all_said_of from (triples_in w.m.now)) };

    #[inline]
    fn scale(&self) -> i64 {
        self.p.scale
    }

    #[inline]
    fn number(&self, node: u32) -> i64 {
        self.p.number(node)
    }

    fn order(&self, alloc: Global) -> Result<Vec<u32>, Refused> {
        self.c.order(alloc)
    }

    fn has_rows(&self) -> bool {
        self.c.has_rows()
    }

    #[inline]
    fn site(&self, node: u32) -> Option<Site> {
        self.c.site(node)
    }

    #[inline(always)]
    fn is_beyond(&self, from: &Site, region: &Region, least: i64) -> bool {
        self.c.is_beyond(from, region, least)
    }

    #[inline]
    fn weight_within(&self, from: &NumberedSite, to: &NumberedSite, most: i64) -> i64 {
        let cost = scaled(self.p.scale, self.c.cost_between(&from.site, &to.site));
        let both = from.number + to.number;
        cost + both
    }

    #[inline]
    fn count_lowered(&self, from: u32) -> usize {
        self.m.at(from).len()
    }

    #[inline]
    fn lowered(&self, from: u32, index: usize) -> (u32, i64) {
        let (to, number) = self.m.at(from)[index];
        (to, self.p.weight(self.c, from, to) - number)
    }

    fn weight(&self, from: u32, to: u32) -> i64 {
        let number = self.m.between(from, to);
        self.p.weight(self.c, from, to) - number
    }
}
