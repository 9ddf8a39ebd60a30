//! The search for the nearest node in another component, by a tree of boxes over the nodes in an
//! order (`Placed::nearest`, which only `boxes.rt` calls). `boxes.rt` also implements `Seen`, the
//! tree. `all_pairs.rt` and `rounds.rt` use `Placed` and `Link`, too. `IsNearest` in
//! `specs/states/Components.antt` pins the link that is found.
//!
//! A place is the index of a node in the order. A node is outside if it isn't in the component of
//! the node from which the search starts. `steps` counts the boxes and nodes that are looked at. It
//! affects only speed: past a budget, `rounds.rt` gives up.

ghost use Rattle.tsp_bound.specs.Prelude.{ℕ, length, slice_index_or, Bool, Option, None, Some, MatchOption, IsNode, IsScale, IsInner};
ghost use Rattle.std.specs.Bool.{OnTrue};
ghost use Rattle.std.specs.Prelude.{◌≡◌, ◌<◌, ◌+◌, ◌^◌, ◌≤◌, ◌*◌, ◌≤ℤ◌, ◌*ℤ◌};
ghost use Rattle.tsp_bound.specs.declared.area.Area.{Area};
ghost use Rattle.tsp_bound.specs.states.Boxes.{node_of, IsSearched, no_best, HoldsNode, AreHeld, AreHeld-prop, IsBelowAll, AreNumberedSites, IsNumberedSite, IsNumbering};
ghost use Rattle.tsp_bound.specs.states.Potentials.{IsInverse};

use crate::area::Area;
use crate::boxes::{BoxedWeights, NumberedSite};

/// The nodes 2..n in an order, the place of each node in it, and the weights between them.
#[derive(Drop)]
pub(crate) struct Placed<'a, W: BoxedWeights> {
    pub(crate) w: &'a W,
    pub(crate) order: &'a [u32],
    places: &'a [u32],
    ghost long: { length places.now ≡ W.nodes w.now + 1 },
    ghost inner: { (j : ℕ) → j < length order.now → IsInner (W.nodes w.now) (node_of order.now j) },
    ghost placed: { (x : ℕ) → IsInner (W.nodes w.now) x → slice_index_or places.now x 0 < length order.now },
    ghost back: { (j : ℕ) → j < length order.now → slice_index_or places.now (node_of order.now j) 0 ≡ j },
    ghost there: { (x : ℕ) → IsInner (W.nodes w.now) x → node_of order.now (slice_index_or places.now x 0) ≡ x },
    ghost nodes: { (j : ℕ) → j < length order.now → IsNode (W.nodes w.now) (node_of order.now j) },
    ghost few: { length order.now < 2 ^ 31 },
}

impl<'a, W: BoxedWeights> Placed<'a, W> {
    ghost use Rattle.std.specs.Prelude.{true, false, IfSome, MatchOption};
    ghost use Rattle.tsp_bound.specs.states.Boxes.{HoldsNode, AreHeld, IsBest};
    ghost use Rattle.tsp_bound.specs.states.Components.{IsNearest};

    /// The nodes of an order, along with their places.
    pub(crate) fn new(w: &'a W, order: &'a [u32], places: &'a [u32]) -> Placed<'a, W>
        requires long { length places.now ≡ W.nodes w.now + 1 }
        requires numbering { IsNumbering (length order.now) (IsInner (W.nodes w.now)) (node_of order.now)
            (λ x. slice_index_or places.now x 0) }
        requires few { length order.now < 2 ^ 31 }
        ensures weights { result.w.now ≡ w.now }
        ensures order { result.order.now ≡ order.now }
    {
        Placed { w, order, places }
    }

    /// The lightest link from a node to one outside, if there is one, given by places. The search
    /// begins at the place `near`, and adds its steps to `steps`. `sites` has the nodes in their
    /// order.
    pub(crate) fn nearest<S: Seen>(
        &self,
        sites: &[NumberedSite],
        seen: &S,
        from: u32,
        near: u32,
        steps: &mut u64,
    ) -> Option<Link>
        requires from { from < length self.now.order.now }
        requires near { near < length self.now.order.now }
        requires as_many_sites { length sites.now ≡ length self.now.order.now }
        requires sites { AreNumberedSites (W.nodes self.now.w.now) (W.place_of self.now.w.now)
            (W.number_of self.now.w.now) self.now.order.now sites.now }
        requires as_many { S.count_of seen.now ≡ length self.now.order.now }
        requires held { AreHeld (HoldsNode (W.place_of self.now.w.now) (W.number_of self.now.w.now))
            self.now.order.now (S.outside_of seen.now) (S.area_of seen.now) }
        ensures { IfSome result (λ link. IsNearest (length self.now.order.now)
            (λ i j. W.at self.now.w.now
            (node_of self.now.order.now i) (node_of self.now.order.now j))
            (S.outside_of seen.now) from link) }
    {
        let search = Search {
            w: self.w,
            order: self.order,
            sites,
            seen,
            from: sites[from as usize],
            inverse: inverse_of(self.w.scale()),
        };
        let unlowered = nearest_from(&search, from as usize, near as usize, steps);
        let best = self.lowered(seen, from, unlowered, steps);
        if best.weight == i64::MAX {
            return None;
        }
        Some(Link {
            weight: best.weight,
            from,
            to: best.place as u32,
        })
    }

    /// The place of a node if it is outside.
    fn place_outside<S: Seen>(&self, seen: &S, node: u32) -> Option<usize>
        requires node { IsNode (W.nodes self.now.w.now) node }
        requires as_many { S.count_of seen.now ≡ length self.now.order.now }
        ensures { MatchOption result (IsInner (W.nodes self.now.w.now) node
            → S.outside_of seen.now (slice_index_or self.now.places.now node 0) ≡ false)
            (λ place. IsInner (W.nodes self.now.w.now) node
            × (place ≡ slice_index_or self.now.places.now node 0)
            × (S.outside_of seen.now place ≡ true)) }
    {
        // Node 1 has no place: it isn't in the tree.
        if node < 2 {
            return None;
        }
        let place = self.places[node as usize] as usize;
        if seen.is_outside(place) {
            Some(place)
        } else {
            None
        }
    }

    /// The better one of the best node without lowered weights and the nodes to which weights are
    /// lowered.
    ///
    /// Adds the number of the latter nodes to `steps`.
    fn lowered<S: Seen>(&self, seen: &S, from: u32, unlowered: Best, steps: &mut u64) -> Best
        requires from { from < length self.now.order.now }
        requires as_many { S.count_of seen.now ≡ length self.now.order.now }
        requires best { IsBest (W.unlowered self.now.w.now) self.now.order.now
            (S.outside_of seen.now) (node_of self.now.order.now from) unlowered }
        ensures { IsBest (W.at self.now.w.now)
            self.now.order.now (S.outside_of seen.now) (node_of self.now.order.now from) result }
    {
        let node = self.order[from as usize];
        let mut best = unlowered;
        'lowered: for index in 0..self.w.count_lowered(node) {
            let (other, weight) = self.w.lowered(node, index);
            *steps = steps.wrapping_add(1);
            if let Some(place) = self.place_outside(seen, other) {
                if weight < best.weight {
                    best = Best { weight, place };
                }
            }
        }
        best
    }
}

// ---- the search for the nearest node outside, by a tree of boxes

/// The nearest place so far, and the weight to its node.
#[derive(Clone, Copy)]
pub(crate) struct Best {
    pub(crate) weight: i64,
    pub(crate) place: usize,
}

/// The best of all nodes outside: starts at the leaf of a place, and goes up, looking at the other
/// half of each box above it.
///
/// The node at the place `near` is looked at first if it is outside, because a good node lets the
/// search skip more boxes. `steps` counts the boxes.
fn nearest_from<W: BoxedWeights, S: Seen>(
    search: &Search<W, S>,
    place: usize,
    near: usize,
    steps: &mut u64,
) -> Best
    requires place { place < length search.now.order.now }
    requires near { near < length search.now.order.now }
    ensures { IsSearched (W.unlowered search.now.w.now)
        search.now.order.now (S.outside_of search.now.seen.now) search.now.from.site.node 1 no_best result }
{
    let none = Best {
        weight: i64::MAX,
        place: 0,
    };
    let first = search.better_of(near, none);
    let mut best = search.better_of(place, first);
    let mut v = search.order.len() + place;
    'climb: while v > 1 {
        let other = if v % 2 == 0 { v + 1 } else { v - 1 };
        *steps = steps.wrapping_add(1);
        if !search.is_left_alone(other, best.weight) {
            best = search.below(other, best, steps);
        }
        v /= 2;
    }
    best
}

// ---- a search from one node, down a tree of boxes, for the nearest node of another component

const TWO_TO_64: u128 = 18_446_744_073_709_551_616;

/// 2^64 / scale, rounded up; `None` for scale 1.
fn inverse_of(scale: i64) -> u64
    requires { IsScale scale }
    ensures { IsInverse scale result }
{
    if scale == 1 {
        return 0;
    }
    u64::MAX / scale as u64 + 1
}

/// A cost that, times the scale, is no less than a weight: in most cases the least such cost.
// (it multiplies by the inverse of the scale, because a division would take longer than everything
// else for a box)
#[inline]
fn cost_of(scale: i64, inverse: u64, weight: i64) -> i64
    requires scale { IsScale scale }
    requires inverse { IsInverse scale inverse }
    ensures { weight ≤ℤ (scale *ℤ result) }
{
    if weight < 1 {
        return 0;
    }
    if scale == 1 {
        return weight;
    }
    let product = (weight as u128 - 1) * u128::from(inverse);
    (product / TWO_TO_64) as i64 + 1
}

/// A search: the node that it starts from, and the nodes and boxes that it looks at.
#[derive(Drop)]
pub(crate) struct Search<'a, W: BoxedWeights, S: Seen> {
    pub(crate) w: &'a W,
    pub(crate) order: &'a [u32],
    pub(crate) sites: &'a [NumberedSite],
    pub(crate) seen: &'a S,
    pub(crate) from: NumberedSite,
    pub(crate) inverse: u64,
    ghost nodes: { (j : ℕ) → j < length order.now → IsNode (W.nodes w.now) (node_of order.now j) },
    ghost few: { length order.now < 2 ^ 31 },
    ghost as_many: { S.count_of seen.now ≡ length order.now },
    ghost as_many_sites: { length sites.now ≡ length order.now },
    ghost sites_are: { AreNumberedSites (W.nodes w.now) (W.place_of w.now) (W.number_of w.now) order.now sites.now },
    ghost held: { AreHeld (HoldsNode (W.place_of w.now) (W.number_of w.now)) order.now (S.outside_of seen.now)
        (S.area_of seen.now) } by { AreHeld-prop (W.place_of w.now) (W.number_of w.now) order.now (S.outside_of seen.now) (S.area_of seen.now) },
    ghost own: { IsNumberedSite (W.nodes w.now) (W.place_of w.now) (W.number_of w.now) from },
    ghost scaled: { IsScale (W.scale_of w.now) },
    ghost inverse_is: { IsInverse (W.scale_of w.now) inverse },
}

impl<W: BoxedWeights, S: Seen> Search<'_, W, S> {
    /// Whether it is known that no node in the box `v` weighs less than `best`.
    ///
    /// A node can weigh less only if its cost is less than `best` minus the numbers of both nodes.
    /// This test compares squares, while computing a cost takes a root.
    #[inline(always)]
    pub(crate) fn is_left_alone(&self, v: usize, best: i64) -> bool
        requires { v < 2 * length self.now.order.now }
        ensures { OnTrue result (IsBelowAll (IsNode (W.nodes self.now.w.now))
            (HoldsNode (W.place_of self.now.w.now) (W.number_of self.now.w.now) (S.area_of self.now.seen.now v))
            (W.unlowered self.now.w.now self.now.from.site.node) best) }
    {
        let Some(area) = self.seen.area(v) else {
            return true;
        };
        match best.checked_sub(self.from.number + area.least) {
            None => false,
            Some(left) => {
                let least = cost_of(self.w.scale(), self.inverse, left);
                self.w.is_beyond(&self.from.site, &area.region, least)
            }
        }
    }

    /// The better one of the best so far and the node at a place, if that node is outside.
    #[inline]
    pub(crate) fn better_of(&self, place: usize, best: Best) -> Best
        requires { place < length self.now.order.now }
        ensures { IsSearched (W.unlowered self.now.w.now) self.now.order.now
            (S.outside_of self.now.seen.now) self.now.from.site.node (length self.now.order.now + place) best result }
    {
        if !self.seen.is_outside(place) {
            return best;
        }
        let weight = self
            .w
            .weight_within(&self.from, &self.sites[place], best.weight);
        if weight < best.weight {
            Best { weight, place }
        } else {
            best
        }
    }

    /// The best of the nodes outside in the box `v` and of the best so far. `steps` counts the
    /// boxes that are looked at.
    ///
    /// The halves are searched in the order of their numbers. Because near nodes are close together
    /// in the order, starting with the nearer half isn't faster.
    pub(crate) fn below(&self, v: usize, best: Best, steps: &mut u64) -> Best
        requires low { 1 ≤ v }
        requires high { v < 2 * length self.now.order.now }
        ensures { IsSearched (W.unlowered self.now.w.now) self.now.order.now
            (S.outside_of self.now.seen.now) self.now.from.site.node v best result }
    {
        if v >= self.order.len() {
            return self.better_of(v - self.order.len(), best);
        }
        *steps = steps.wrapping_add(2);
        let half = if self.is_left_alone(2 * v, best.weight) {
            best
        } else {
            self.below(2 * v, best, steps)
        };
        if self.is_left_alone(2 * v + 1, half.weight) {
            return half;
        }
        self.below(2 * v + 1, half, steps)
    }
}

// ---- the trait `Seen`: which nodes a search may choose

/// The places 0..count, some of which are outside, and a box around the outside nodes of each part.
pub(crate) trait Seen {
    ghost count_of: { Self → ℕ };

    ghost outside_of: { Self → ℕ → Bool };

    ghost area_of: { Self → ℕ → Option Area };

    /// Whether the node at the place is outside.
    fn is_outside(&self, place: usize) -> bool
        requires { place < count_of self.now }
        ensures { result ≡ outside_of self.now place };

    /// The box `v` around the outside nodes below it; `None` if there are none.
    fn area(&self, v: usize) -> Option<&Area>
        requires { v < 2 * count_of self.now }
        ensures { MatchOption result (area_of self.now v ≡ None)
            (λ area. area_of self.now v ≡ Some area.now) };
}

// ---- an edge from a node to another one, with its weight

/// An edge from a node to another one, with its weight.
#[derive(Clone, Copy)]
pub(crate) struct Link {
    /// The weight of the edge.
    pub(crate) weight: i64,
    /// The node from which the search started.
    pub(crate) from: u32,
    /// The other node.
    pub(crate) to: u32,
}
