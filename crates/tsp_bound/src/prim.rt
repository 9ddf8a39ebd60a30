//! The weight of a minimum 1-tree: a tree over the nodes 2 to n, grown row by row (`grow`, R. C.
//! Prim's algorithm), and the two lightest edges at node 1. Weights that know a quicker way to a
//! minimum tree offer it through the trait `Growing`; `IsLeastWeight` pins the sum, whatever the
//! way. tsp_branch calls it for each leaf of a TSP. `bound.rt` uses only `two_root_edges`, because it
//! needs the edges too, and `rounds.rt` falls back on `grow`.

ghost use Rattle.tsp_bound.specs.Prelude.{ℕ, length, pos, neg_ℤ, IfOk, slice_index, MatchOption, ℤ, most_nodes, IsNode, IsFromTo, IsWholeGrowth, AreNearest, weight_of, least_at, IsNearer};
ghost use Rattle.std.specs.Prelude.{◌≡◌, ◌≤◌, ◌+◌, ◌*◌, ◌^◌, ◌<◌, ◌<ℤ◌, ◌-◌, ◌≢◌, ◌+ℤ◌};
ghost use Rattle.tsp_theory.specs.Forest.{IsWholeForest};
ghost use Rattle.tsp_bound.specs.Weighed.{IsLeastWeight};
ghost use Rattle.tsp_bound.specs.states.Outside.{AreFromThree, AreBroughtNearer, AreInner, IsLeastPlace};

use std::alloc::Global;
use tsp_io::{Refused, filled, push, with_capacity};
use tsp_theory::{Weights, weight_in};

/// The weight of a minimum 1-tree, under symmetric weights.
///
/// A 1-tree is a tree over the nodes 2..n and two different edges at node 1. Source: M. Held and R.
/// M. Karp, The traveling-salesman problem and minimum spanning trees, 1970. The weights choose how
/// the tree grows: row by row (R. C. Prim, 1957), or in rounds (O. Boruvka, 1926).
///
/// # Requires
///
/// Three or more nodes, and a row of one place more than there are nodes, which is overwritten.
///
/// # Errors
///
/// Out of memory. It allocates memory for each node.
pub fn least_weight<W: Growing>(alloc: Global, w: &W, row: &mut [i64]) -> Result<i128, Refused>
    requires some { 3 ≤ W.nodes w.now }
    requires room { length row.old ≡ W.nodes w.now + 1 }
    requires even { (i j : ℕ) → W.at w.now i j ≡ W.at w.now j i }
    ensures least { IfOk result (λ weight. IsLeastWeight (W.nodes w.now) (W.at w.now) weight) }
    ensures size { IfOk result (λ weight. IsFromTo (neg_ℤ (pos ((most_nodes + 2) * 2 ^ 63)))
        (pos ((most_nodes + 2) * 2 ^ 63)) weight) }
{
    // The count shows that there are at most 100,000 nodes.
    w.count();
    let (first, second) = two_root_edges(w, row);
    let grown = w.grow(alloc, row)?;
    let root_edges = i128::from(first.weight) + i128::from(second.weight);
    Ok(root_edges + grown.weight)
}

// ---- the growth of a minimum tree over the nodes 2 to n, row by row, by Prim's method

/// A tree over the nodes 2..n.
#[derive(Drop)]
pub struct Grown {
    /// Its edges, in the order in which they were added.
    pub pairs: Vec<(u32, u32)>,
    /// The sum of their weights.
    pub weight: i128,
}

/// Grows a tree over the nodes 2..n from node 2: each of its pairs leads from a node inside to one
/// outside, and no such pair weighs less.
///
/// It lists the nodes outside, and for each of them keeps the nearest node inside and the weight
/// between the two, so that each row is needed only once. `row` is scratch space and is
/// overwritten.
///
/// # Requires
///
/// Three or more nodes, and a row of one place more than there are nodes.
///
/// # Errors
///
/// Out of memory. It allocates memory for each node.
pub fn grow<W: Weights>(alloc: Global, w: &W, row: &mut [i64]) -> Result<Grown, Refused>
    requires some { 3 ≤ W.nodes w.now }
    requires room { length row.old ≡ W.nodes w.now + 1 }
    ensures whole { IfOk result
        (λ grown. IsWholeGrowth (W.nodes w.now) (W.at w.now) grown.pairs.items) }
    ensures weight { IfOk result
        (λ grown. grown.weight ≡ weight_of (W.at w.now) grown.pairs.items) }
    ensures size { IfOk result (λ grown. IsFromTo (neg_ℤ (pos (most_nodes * 2 ^ 63)))
        (pos (most_nodes * 2 ^ 63)) grown.weight) }
{
    let mut outside = nodes_from_three(alloc, w.count())?;
    let mut near: Vec<u32> = filled(alloc, 2, outside.len())?;
    // Every weight is below the number that stands for none.
    let mut least = filled(alloc, i64::MAX, outside.len())?;
    let mut pairs = with_capacity(alloc, outside.len())?;
    let mut weight = 0;
    let mut nearest = reach(w, row, &outside, &mut near, &mut least, 2);
    'grow: while let Some(place) = nearest {
        let next = outside.swap_remove(place);
        push(&mut pairs, (near.swap_remove(place), next))?;
        weight += i128::from(least.swap_remove(place));
        nearest = reach(w, row, &outside, &mut near, &mut least, next);
    }
    Ok(Grown { pairs, weight })
}

/// The nodes from 3 on.
fn nodes_from_three(alloc: Global, count: u32) -> Result<Vec<u32>, Refused>
    requires some { 2 ≤ count }
    requires most { count ≤ most_nodes }
    ensures { IfOk result (λ nodes. AreFromThree count nodes.items) }
{
    let mut nodes = with_capacity(alloc, count as usize)?;
    'nodes: for node in 3..count + 1 {
        push(&mut nodes, node)?;
    }
    Ok(nodes)
}

/// Updates the entries of the nodes outside after `next` has moved inside, and finds the place of
/// the nearest of them.
fn reach<W: Weights>(
    w: &W,
    row: &mut [i64],
    outside: &[u32],
    near: &mut [u32],
    least: &mut [i64],
    next: u32,
) -> Option<usize>
    requires room { length row.old ≡ W.nodes w.now + 1 }
    requires inner { AreInner (W.nodes w.now) outside.now }
    requires near { length near.old ≡ length outside.now }
    requires least { length least.old ≡ length outside.now }
    requires next_in { IsNode (W.nodes w.now) next }
    ensures nearer { AreBroughtNearer next
        (W.at w.now next) outside.now near.old least.old near.new least.new }
    ensures small { (k : ℕ)
        → k < length outside.now → W.at w.now next (slice_index outside.now k) <ℤ i64.MAX }
    ensures nearest { MatchOption result (length outside.now ≡ 0) (IsLeastPlace least.new) }
{
    w.fill_at(next, outside, row);
    bring(row, outside, near, least, next)
}

/// Does the work of [`reach`] after the row of `next` has been written.
fn bring(
    row: &[i64],
    outside: &[u32],
    near: &mut [u32],
    least: &mut [i64],
    next: u32,
) -> Option<usize>
    requires near { length near.old ≡ length outside.now }
    requires least { length least.old ≡ length outside.now }
    requires places { (k : ℕ)
        → k < length outside.now → slice_index outside.now k < length row.now }
    requires small { (k : ℕ)
        → k < length outside.now → least_at row.now (slice_index outside.now k) <ℤ i64.MAX }
    ensures nearer { AreBroughtNearer next
        (least_at row.now) outside.now near.old least.old near.new least.new }
    ensures nearest { MatchOption result (length outside.now ≡ 0) (IsLeastPlace least.new) }
{
    if outside.is_empty() {
        return None;
    }
    // A place, because the loop would carry an `Option` along as two values.
    let mut nearest = 0;
    let mut best = i64::MAX;
    'places: for place in 0..outside.len() {
        let weight = weight_in(row, outside[place]);
        let own = take_nearer(&mut near[place], &mut least[place], next, weight);
        if own < best {
            best = own;
            nearest = place;
        }
    }
    Some(nearest)
}

/// Makes `next` the nearest node if it is nearer, and returns the least weight.
#[inline]
fn take_nearer(near: &mut u32, least: &mut i64, next: u32, weight: i64) -> i64
    ensures nearer { IsNearer weight next near.old least.old near.new least.new }
    ensures value { result ≡ least.new }
{
    // Without a branch: some nodes of each row would take it, and no processor could predict which.
    let is_nearer = weight < *least;
    *near = if is_nearer { next } else { *near };
    *least = if is_nearer { weight } else { *least };
    *least
}

// ---- the trait `Growing`: how a minimum tree grows under some weights, row by row or by boxes

/// Weights under which a tree grows row by row, as [`grow`](crate::grow) does, or in a quicker way.
pub trait Growing: Weights {
    /// Grows a tree over the nodes 2..n, under symmetric weights: each of its pairs leads from a
    /// part that no earlier pair leaves to a node outside it, and no such pair weighs less.
    ///
    /// # Requires
    ///
    /// Three or more nodes, and a row of one place more than there are nodes, which is overwritten.
    ///
    /// # Errors
    ///
    /// Out of memory. It allocates memory for each node.
    fn grow(&self, alloc: Global, row: &mut [i64]) -> Result<Grown, Refused>
        requires some { 3 ≤ Self.nodes self.now }
        requires room { length row.old ≡ Self.nodes self.now + 1 }
        requires even { (i j : ℕ) → Self.at self.now i j ≡ Self.at self.now j i }
        ensures whole { IfOk result
            (λ grown. IsWholeForest (Self.nodes self.now) (Self.at self.now) grown.pairs.items) }
        ensures weight { IfOk result
            (λ grown. grown.weight ≡ weight_of (Self.at self.now) grown.pairs.items) }
        ensures size { IfOk result (λ grown. IsFromTo (neg_ℤ (pos (most_nodes * 2 ^ 63)))
            (pos (most_nodes * 2 ^ 63)) grown.weight) };
}

// ---- the two lightest edges at node 1 of a 1-tree

/// A node of 2..n, and the weight between node 1 and it.
#[derive(Clone, Copy)]
pub struct RootEdge {
    pub node: u32,
    pub weight: i64,
}

/// The two nodes of 2..n that are nearest to node 1, by its row; `row` is scratch space and is
/// overwritten.
pub fn two_root_edges<W: Weights>(w: &W, row: &mut [i64]) -> (RootEdge, RootEdge)
    requires some { 3 ≤ W.nodes w.now }
    requires few { W.nodes w.now ≤ most_nodes }
    requires room { length row.old ≡ W.nodes w.now + 1 }
    ensures nearest { AreNearest (W.nodes w.now) (W.at w.now) result.0.node result.1.node }
    ensures first { result.0.weight ≡ W.at w.now 1 result.0.node }
    ensures second { result.1.weight ≡ W.at w.now 1 result.1.node }
{
    w.fill(1, row);
    nearest_two(row)
}

/// The two nodes from 2 on with the least weights, in one pass.
fn nearest_two(weights: &[i64]) -> (RootEdge, RootEdge)
    requires some { 4 ≤ length weights.now }
    requires few { length weights.now < 2 ^ 32 }
    ensures nearest { AreNearest (length weights.now - 1) (λ i j. least_at weights.now j)
        result.0.node result.1.node }
    ensures first { result.0.weight ≡ least_at weights.now result.0.node }
    ensures second { result.1.weight ≡ least_at weights.now result.1.node }
{
    let two = root_edge_to(weights, 2);
    let three = root_edge_to(weights, 3);
    let mut first = two;
    let mut second = three;
    if three.weight < two.weight {
        first = three;
        second = two;
    }
    'nodes: for node in 4..weights.len() as u32 {
        let next = root_edge_to(weights, node);
        if next.weight < first.weight {
            second = first;
            first = next;
        } else if next.weight < second.weight {
            second = next;
        }
    }
    (first, second)
}

/// The pair of node 1 and another node.
fn root_edge_to(weights: &[i64], node: u32) -> RootEdge
    requires { node < length weights.now }
    ensures node { result.node ≡ node }
    ensures weight { result.weight ≡ least_at weights.now node }
{
    RootEdge {
        node,
        weight: weight_in(weights, node),
    }
}
