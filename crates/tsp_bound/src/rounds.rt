//! Grows a minimum tree over the nodes 2 to n in rounds (O. Boruvka, 1926): in each round, every
//! component takes its lightest edge. `bound.rt` and tsp_branch call it. `IsWholeForest` in
//! tsp_theory pins that the tree is minimum; budgets and orders affect only speed, because past a
//! budget the tree grows pair by pair (`prim.rt`).

ghost use Rattle.tsp_bound.specs.Prelude.{All, ℕ, length, slice_index_or, map, pos, neg_ℤ, IfOk, IfSome, true, false, MatchOption, ℤ, most_nodes, IsNode, IsFromTo, IsSumSized, IsInner, weight_of};
ghost use Rattle.std.specs.Bool.{OnTrue};
ghost use Rattle.std.specs.Prelude.{◌≡◌, ◌≤◌, ◌<◌, ◌+◌, ◌*◌, ◌^◌, ◌≤ℤ◌};
ghost use Rattle.tsp_theory.specs.Forest.{IsWholeForest};
ghost use Rattle.tsp_bound.specs.states.Boxes.{node_of, IsNumbering, on_both};
ghost use Rattle.tsp_bound.specs.states.Components.{IsSpanning, IsWeighedForest, AreKept, AreLeast, AreLeaving, IsOffered, IsForest, label_at, IsKeptLink};

use crate::all_pairs::Listed;
use crate::boxes::{BoxedWeights, Labelled, own_labels};
use crate::prim::Grown;
use crate::search::{Link, Placed};
use std::alloc::Global;
use tsp_io::{Refused, filled, push, with_capacity};

/// A minimum tree over the nodes 2..n: each pair leads from a part that no earlier pair leaves to a
/// node outside it, and no such pair weighs less.
///
/// All nodes are joined in rounds. If that takes too many steps, a tree grows from node 2, pair by
/// pair. Both use `row` as scratch space, with one place more than there are nodes.
///
/// # Errors
///
/// Out of memory.
pub fn grow_in_rounds<W: BoxedWeights>(
    alloc: Global,
    w: &W,
    row: &mut [i64],
) -> Result<Grown, Refused>
    requires some { 3 ≤ W.nodes w.now }
    requires room { length row.old ≡ W.nodes w.now + 1 }
    requires even { (i j : ℕ) → W.at w.now i j ≡ W.at w.now j i }
    ensures whole { IfOk result (λ grown. IsWholeForest (W.nodes w.now)
        (W.at w.now) grown.pairs.items) }
    ensures weight { IfOk result (λ grown. grown.weight
        ≡ weight_of (W.at w.now) grown.pairs.items) }
    ensures size { IfOk result (λ grown. IsFromTo (neg_ℤ (pos (most_nodes * 2 ^ 63)))
        (pos (most_nodes * 2 ^ 63)) grown.weight) }
{
    if let Some(grown) = joined(alloc, w, row)? {
        return Ok(grown);
    }
    crate::prim::grow(alloc, w, row)
}

/// The nodes from 2 on.
///
/// # Errors
///
/// Out of memory.
fn nodes_from_two(alloc: Global, count: u32) -> Result<Vec<u32>, Refused>
    requires some { 1 ≤ count }
    requires most { count ≤ most_nodes }
    ensures { IfOk result (λ nodes. length nodes.items + 1 ≡ count) }
{
    let mut nodes = with_capacity(alloc, count as usize)?;
    'nodes: for node in 2..count + 1 {
        push(&mut nodes, node)?;
    }
    Ok(nodes)
}

/// The nodes 2..n in an order in which near ones are close together; if the weights have no such
/// order, by their numbers.
///
/// # Errors
///
/// Out of memory.
fn inner_order<W: BoxedWeights>(alloc: Global, w: &W) -> Result<Vec<u32>, Refused>
    requires { 3 ≤ W.nodes w.now }
    ensures { IfOk result (λ order. length order.items + 1 ≡ W.nodes w.now) }
{
    let order = w.order(alloc)?;
    if order.len() + 1 == w.count() as usize {
        return Ok(order);
    }
    nodes_from_two(alloc, w.count())
}

/// A least tree, grown in rounds, and its weight; `None` if the order doesn't contain each node
/// once, or if the rounds would take too many steps.
///
/// # Errors
///
/// Out of memory.
fn joined<W: BoxedWeights>(alloc: Global, w: &W, row: &mut [i64]) -> Result<Option<Grown>, Refused>
    requires some { 3 ≤ W.nodes w.now }
    requires room { length row.old ≡ W.nodes w.now + 1 }
    requires even { (i j : ℕ) → W.at w.now i j ≡ W.at w.now j i }
    ensures { IfOk result (λ found. IfSome found (λ grown. IsWeighedForest (W.nodes w.now)
        (W.at w.now) grown.pairs.items grown.weight)) }
{
    let order = inner_order(alloc, w)?;
    joined_over(alloc, w, &order, row)
}

/// What `joined` returns, over the nodes of this order.
fn joined_over<W: BoxedWeights>(
    alloc: Global,
    w: &W,
    order: &[u32],
    row: &mut [i64],
) -> Result<Option<Grown>, Refused>
    requires count { length order.now + 1 ≡ W.nodes w.now }
    requires room { length row.old ≡ W.nodes w.now + 1 }
    requires even { (i j : ℕ) → W.at w.now i j ≡ W.at w.now j i }
    ensures { IfOk result (λ found. IfSome found (λ grown. IsWeighedForest (W.nodes w.now)
        (W.at w.now) grown.pairs.items grown.weight)) }
{
    let Some(places) = places_in(alloc, order, w.count())? else {
        return Ok(None);
    };
    let Some(pairs) = pairs_over(alloc, w, order, &places, row)? else {
        return Ok(None);
    };
    let grown = weighed(alloc, w, order, &pairs)?;
    Ok(Some(grown))
}

/// The pairs of places of a least tree, found by boxes, or by the lightest links of each node if
/// some node has no place. `None` if that would take too many steps, or if some node has no place
/// but rows are next to each other in memory: growing pair by pair is faster then.
fn pairs_over<W: BoxedWeights>(
    alloc: Global,
    w: &W,
    order: &[u32],
    places: &[u32],
    row: &mut [i64],
) -> Result<Option<Vec<(u32, u32)>>, Refused>
    requires count { length order.now + 1 ≡ W.nodes w.now }
    requires few { length order.now < 2 ^ 31 }
    requires long { length places.now ≡ W.nodes w.now + 1 }
    requires numbering { IsNumbering (length order.now) (IsInner (W.nodes w.now)) (node_of order.now)
        (λ x. slice_index_or places.now x 0) }
    requires room { length row.old ≡ W.nodes w.now + 1 }
    requires even { (i j : ℕ) → W.at w.now i j ≡ W.at w.now j i }
    ensures { IfOk result (λ found. IfSome found (λ pairs. IsSpanning (length order.now)
        (λ i j. W.at w.now (node_of order.now i) (node_of order.now j)) pairs.items)) }
{
    if let Some(mut nodes) = Labelled::new(alloc, Placed::new(w, order, places))? {
        return grow_by_rounds(alloc, &mut nodes, most_boxes(w.count()));
    }
    // If rows are next to each other in memory, growing pair by pair is faster than a list for each
    // node.
    if w.has_rows() {
        return Ok(None);
    }
    let mut nodes = Listed::new(alloc, Placed::new(w, order, places), row)?;
    grow_by_rounds(alloc, &mut nodes, most_pairs(w.count()))
}

/// How many boxes the rounds may look at for this many nodes: a fraction of the work of growing
/// pair by pair, and about as much for a few thousand nodes.
fn most_boxes(count: u32) -> u64 {
    let nodes = u64::from(count);
    (nodes * nodes / 4).max(600 * nodes)
}

/// How many pairs the rounds may look at again for this many nodes: a fraction of all pairs.
fn most_pairs(count: u32) -> u64 {
    let nodes = u64::from(count);
    nodes * nodes / 8
}

/// The nodes at these pairs of places, as pairs, and the sum of their weights.
///
/// # Errors
///
/// Out of memory.
fn weighed<W: BoxedWeights>(
    alloc: Global,
    w: &W,
    order: &[u32],
    pairs: &[(u32, u32)],
) -> Result<Grown, Refused>
    requires nodes { (j : ℕ) → j < length order.now → IsNode (W.nodes w.now) (node_of order.now j) }
    requires places { All (λ pair. (pair.0 < length order.now) × (pair.1 < length order.now)) pairs.now }
    requires few { length pairs.now ≤ most_nodes }
    ensures pairs { IfOk result (λ grown. grown.pairs.items ≡ map (on_both (node_of order.now)) pairs.now) }
    ensures weight { IfOk result (λ grown. grown.weight
        ≡ weight_of (W.at w.now) grown.pairs.items) }
    ensures size { IfOk result (λ grown. IsSumSized (length grown.pairs.items) grown.weight) }
{
    let mut named = with_capacity(alloc, w.count() as usize + 1)?;
    let mut weight: i128 = 0;
    'pairs: for pair in pairs {
        let from = order[pair.0 as usize];
        let to = order[pair.1 as usize];
        push(&mut named, (from, to))?;
        weight += i128::from(w.weight(from, to));
    }
    Ok(Grown {
        pairs: named,
        weight,
    })
}

// ---- the growth of a forest into a tree

/// As many rounds as any tree can take: each one at least halves the number of components.
const MOST_ROUNDS: u32 = 32;

/// Joins all nodes by pairs, within a budget of search steps. Each pair leads from a component of
/// the earlier pairs to another one, and no such pair weighs less. `None` if the budget is
/// exhausted.
///
/// Each node keeps the lightest link that a search found for it. Components only grow, so no link
/// from the node to another component weighs less. A new search is needed only if that link no
/// longer leads to another component and weighs less than the best link of the node's own
/// component.
///
/// # Errors
///
/// Out of memory.
fn grow_by_rounds<P: Components>(
    alloc: Global,
    nodes: &mut P,
    most_steps: u64,
) -> Result<Option<Vec<(u32, u32)>>, Refused>
    requires own { (x : ℕ) → x < P.count_of nodes.old → P.label_of nodes.old x ≡ x }
    ensures { IfOk result (λ grown. IfSome grown (λ added.
        IsSpanning (P.count_of nodes.old) (P.weight_of nodes.old) added.items)) }
{
    let count = nodes.count() as usize;
    let mut added = Vec::new(alloc);
    let mut steps = 0;
    let Some(mut known) = first_links(alloc, nodes, most_steps, &mut steps)? else {
        return Ok(None);
    };
    'rounds: for _ in 0..MOST_ROUNDS {
        if added.len() + 1 == count {
            return Ok(Some(added));
        }
        let mut best = best_of(alloc, nodes, &known)?;
        if !search_again(nodes, &mut known, &mut best, most_steps, &mut steps) {
            break;
        }
        let labels = join(alloc, nodes, &best, &mut added)?;
        nodes.relabel(&labels);
    }
    Ok(None)
}

/// The lightest link from each node to another component; `None` if the budget is exhausted.
///
/// # Errors
///
/// Out of memory.
fn first_links<P: Components>(
    alloc: Global,
    nodes: &P,
    most_steps: u64,
    steps: &mut u64,
) -> Result<Option<Vec<Link>>, Refused>
    ensures { IfOk result (λ found. IfSome found (λ known.
        AreKept (P.count_of nodes.now) (P.weight_of nodes.now) (P.label_of nodes.now) known.items)) }
{
    let mut known = with_capacity(alloc, nodes.count() as usize)?;
    let mut near = 0;
    'nodes: for node in 0..nodes.count() {
        let Some(link) = nodes.nearest(node, near, i64::MAX, steps) else {
            return Ok(None);
        };
        if *steps > most_steps {
            return Ok(None);
        }
        near = link.to;
        push(&mut known, link)?;
    }
    Ok(Some(known))
}

/// Searches again for each link that would be better than the best of its component, and updates
/// the best ones. `false` if the budget is exhausted.
fn search_again<P: Components>(
    nodes: &P,
    known: &mut Vec<Link>,
    best: &mut Vec<Option<Link>>,
    most_steps: u64,
    steps: &mut u64,
) -> bool
    requires known { AreKept (P.count_of nodes.now) (P.weight_of nodes.now) (P.label_of nodes.now) known.old.items }
    requires best { AreLeaving (P.count_of nodes.now) (P.weight_of nodes.now) (P.label_of nodes.now) best.old.items }
    ensures known { AreKept (P.count_of nodes.now) (P.weight_of nodes.now) (P.label_of nodes.now) known.new.items }
    ensures best { OnTrue result
        (AreLeast (P.count_of nodes.now) (P.weight_of nodes.now) (P.label_of nodes.now) best.new.items) }
{
    'nodes: for node in 0..nodes.count() {
        let label = nodes.label(node) as usize;
        if is_better(known[node as usize], best[label]) {
            let near = end_of(best[label], node);
            let Some(link) = nodes.nearest(node, near, weight_of(best[label]), steps) else {
                return false;
            };
            if *steps > most_steps {
                return false;
            }
            known[node as usize] = link;
            if nodes.label(link.to) as usize != label {
                best[label] = Some(better(best[label], link));
            } else if is_better(link, best[label]) {
                return false;
            }
        }
    }
    true
}

// ---- the lightest edge that leaves each component of a forest

/// Whether a link weighs less than the best one, if there is one.
#[inline]
fn is_better(link: Link, best: Option<Link>) -> bool
    ensures { result ≡ false → MatchOption best ⊥ (λ old. old.weight ≤ℤ link.weight) }
{
    match best {
        None => true,
        Some(old) => link.weight < old.weight,
    }
}

/// The node to which the best link leads; `node` if there is no such link.
#[inline]
fn end_of(best: Option<Link>, node: u32) -> u32
    ensures { MatchOption best (result ≡ node) (λ link. result ≡ link.to) }
{
    match best {
        None => node,
        Some(link) => link.to,
    }
}

/// The weight of the best link; the largest number if there is no such link.
#[inline]
fn weight_of(best: Option<Link>) -> i64 {
    match best {
        None => i64::MAX,
        Some(link) => link.weight,
    }
}

/// The lighter of a link and the best one, if there is one.
#[inline]
pub(crate) fn better(best: Option<Link>, link: Link) -> Link
    ensures { IsOffered best link result }
{
    match best {
        None => link,
        Some(old) => { if link.weight < old.weight { link } else { old } }
    }
}

/// The best link of each component, by label, among those that lead to another component.
///
/// # Errors
///
/// Out of memory.
fn best_of<P: Components>(
    alloc: Global,
    nodes: &P,
    known: &[Link],
) -> Result<Vec<Option<Link>>, Refused>
    requires known { AreKept (P.count_of nodes.now) (P.weight_of nodes.now) (P.label_of nodes.now) known.now }
    ensures { IfOk result (λ best.
        AreLeaving (P.count_of nodes.now) (P.weight_of nodes.now) (P.label_of nodes.now) best.items) }
{
    let mut best: Vec<Option<Link>> = filled(alloc, None, nodes.count() as usize)?;
    'nodes: for node in 0..nodes.count() {
        let link = known[node as usize];
        let label = nodes.label(node);
        if nodes.label(link.to) != label {
            best[label as usize] = Some(better(best[label as usize], link));
        }
    }
    Ok(best)
}

/// Goes over the components, and adds the best link of each one that no link of this round has met
/// so far, at either end. Returns the new label for each old one: a component takes the label of
/// the component to which its link leads.
///
/// # Errors
///
/// Out of memory.
fn join<P: Components>(
    alloc: Global,
    nodes: &P,
    best: &[Option<Link>],
    added: &mut Vec<(u32, u32)>,
) -> Result<Vec<u32>, Refused>
    requires best { AreLeast (P.count_of nodes.now) (P.weight_of nodes.now) (P.label_of nodes.now) best.now }
    requires forest { IsForest (P.count_of nodes.now) (P.weight_of nodes.now) (P.label_of nodes.now) added.old.items }
    ensures len { IfOk result (λ labels. length labels.items ≡ P.count_of nodes.now) }
    ensures low { IfOk result (λ labels. (c : ℕ) → c < P.count_of nodes.now
        → label_at labels.items c < P.count_of nodes.now) }
    ensures forest { IfOk result (λ labels. IsForest (P.count_of nodes.now) (P.weight_of nodes.now)
        (λ x. label_at labels.items (P.label_of nodes.now x)) added.new.items) }
{
    let mut labels = own_labels(alloc, nodes.count())?;
    let mut met = filled(alloc, false, nodes.count() as usize)?;
    'components: for label in 0..nodes.count() {
        if met[label as usize] {
            continue;
        }
        if let Some(link) = best[label as usize] {
            let other = nodes.label(link.to);
            push(added, (link.from, link.to))?;
            met[label as usize] = true;
            met[other as usize] = true;
            labels[label as usize] = labels[other as usize];
        }
    }
    Ok(labels)
}

// ---- the trait `Components`: a forest that knows the component of each node

/// Nodes 0..count, each with the label of its component, and the weights between them.
pub(crate) trait Components {
    ghost count_of: { Self → ℕ };

    ghost weight_of: { Self → ℕ → ℕ → ℤ };

    ghost label_of: { Self → ℕ → ℕ };

    /// How many nodes there are. Each label is below this.
    fn count(&self) -> u32
        ensures value { result ≡ count_of self.now }
        ensures labels { (x : ℕ) → x < count_of self.now → label_of self.now x < count_of self.now };

    /// The label of the node's component.
    fn label(&self, node: u32) -> u32
        requires { node < count_of self.now }
        ensures { result ≡ label_of self.now node };

    /// A link from the node that weighs no more than any other to another component: the lightest
    /// one, except that if none weighs less than `most` it may be another. `None` if there is none.
    /// The search begins at the node `near`, and adds its steps to `steps`.
    fn nearest(&self, from: u32, near: u32, most: i64, steps: &mut u64) -> Option<Link>
        requires from { from < count_of self.now }
        requires near { near < count_of self.now }
        ensures { IfSome result
            (IsKeptLink (count_of self.now) (weight_of self.now) (label_of self.now) from) };

    /// Replaces the label of each component by the entry of `labels` at that index.
    fn relabel(&mut self, labels: &[u32])
        requires len { length labels.now ≡ count_of self.old }
        requires low { (c : ℕ) → c < count_of self.old → label_at labels.now c < count_of self.old }
        ensures same_count { count_of self.new ≡ count_of self.old }
        ensures same_weights { weight_of self.new ≡ weight_of self.old }
        ensures labels { (x : ℕ) → x < count_of self.old
            → label_of self.new x ≡ label_at labels.now (label_of self.old x) };
}

// ---- the place of each node in an order, or nothing if the order does not have each node

/// The place of each node of 2..last in the list; `None` if the list doesn't contain each of them
/// exactly once. Because of this test, nothing has to be proved about how the list was ordered.
///
/// # Errors
///
/// Out of memory.
fn places_in(alloc: Global, order: &[u32], last: u32) -> Result<Option<Vec<u32>>, Refused>
    requires few { length order.now < 2 ^ 31 }
    requires some { last < 2 ^ 31 }
    ensures len { IfOk result (λ found. IfSome found (λ places. length places.items ≡ last + 1)) }
    ensures numbering { IfOk result (λ found. IfSome found (λ places. IsNumbering (length order.now) (IsInner last)
        (λ i. slice_index_or order.now i 0) (λ x. slice_index_or places.items x 0))) }
{
    let mut places: Vec<u32> = filled(alloc, 0, last as usize + 1)?;
    'write: for i in 0..order.len() {
        let node = order[i];
        if node < 2 || last < node {
            return Ok(None);
        }
        places[node as usize] = i as u32;
    }
    'back: for i in 0..order.len() {
        if places[order[i] as usize] as usize != i {
            return Ok(None);
        }
    }
    'there: for node in 2..last + 1 {
        let place = places[node as usize] as usize;
        if place >= order.len() || order[place] != node {
            return Ok(None);
        }
    }
    Ok(Some(places))
}
