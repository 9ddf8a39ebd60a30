//! The bound of a potentials file for a TSP: the weight of a minimum 1-tree, minus what the
//! potentials add to every tour, divided by the scale and rounded up. tsp_verdict calls it.
//! `IsAdjustedBound` in tsp_theory pins the bound; which of several minimum 1-trees is found is
//! free.

ghost use Rattle.tsp_bound.specs.Prelude.{ℕ, [], List, length, pos, neg_ℤ, IfOk, most_nodes, IsFromTo, IsBoundSized, AreOnPairs, UsesEach, IsAdjustedBoundOf, IsAdjustedBound, IsOneTree, IsLeastOneTree, weight_of, tree_of};
ghost use Rattle.std.specs.Prelude.{◌≡◌, ◌≤◌, ◌+◌, ◌*◌, ◌^◌, ◌≤ℤ◌};
ghost use Rattle.tsp_theory.specs.Tour.{IsCycle, length_of};
ghost use Rattle.tsp_bound.specs.states.Potentials.{scale_of, numbers_of, triples_of, triples_in, node_count, weight_less};

use crate::multipliers_by_node::ByNode;
use crate::potentials::{Multipliers, Potentials, total, total_of};
use crate::prim::two_root_edges;
use crate::rounds::grow_in_rounds;
use crate::weights::PotentialWeights;
use std::alloc::{AllocError, Global};
use tsp_io::{Refused, filled, push, with_capacity};
use tsp_theory::{Costs, Symmetric, adjusted_bounds_bound_cycles, least_bound};

/// A minimum 1-tree, its weight, and the bound on the length of every cycle.
#[derive(Debug, Drop)]
pub struct OneTree {
    /// The pairs, each with the smaller node first.
    pub edges: Vec<(u32, u32)>,
    /// The sum of their weights.
    pub weight: i128,
    /// The bound: the least integer that, times the scale, is at least the weight minus each
    /// potential twice plus all multipliers.
    pub bound: i128,
}

/// A minimum 1-tree under potentials and multipliers, and its bound.
///
/// The weight between two nodes is the cost at the scale plus both potentials, less the multiplier
/// of the pair. No cycle that uses each pair with a multiplier, in either direction, is shorter
/// than the bound.
///
/// A 1-tree is a tree over the nodes 2..n and two different edges at node 1. If there are several
/// minimum 1-trees, any of them may be returned, with its edges in any order. Without multipliers,
/// the bound holds for every cycle. Source: M. Held and R. M. Karp, The traveling-salesman problem
/// and minimum spanning trees, 1970. The tree is joined in rounds (O. Boruvka, 1926) or grown (R.
/// C. Prim, 1957). If nodes have places in space, regions rule out most pairs, so that far fewer
/// costs are computed.
///
/// # Requires
///
/// Three or more nodes, as many potentials, and multipliers of pairs of these nodes, no two of
/// which are the same pair, in either direction.
///
/// # Errors
///
/// If memory runs out. It allocates an entry for each node and for each multiplier.
pub fn one_tree<C: Symmetric>(
    alloc: Global,
    c: &C,
    p: &Potentials,
    m: &Multipliers,
) -> Result<OneTree, AllocError>
    requires some { 3 ≤ C.nodes c.now }
    requires count { length (numbers_of p.now) ≡ C.nodes c.now }
    requires on_pairs { AreOnPairs (C.nodes c.now) (triples_of m.now) }
    ensures tree { IfOk result (λ found. IsOneTree (C.nodes c.now) found.edges.items) }
    ensures weight { IfOk result (λ found. found.weight
        ≡ weight_of (weight_less p.now (triples_of m.now) (C.at c.now)) found.edges.items) }
    ensures least { IfOk result (λ found. (others : List (ℕ × ℕ)) → IsOneTree (C.nodes c.now) others
        → found.weight ≤ℤ weight_of (weight_less p.now (triples_of m.now) (C.at c.now)) others) }
    ensures rounded { IfOk result (λ found. IsAdjustedBoundOf (scale_of p.now) (numbers_of p.now)
        (triples_of m.now) found.weight found.bound) }
    ensures bound { IfOk result (λ found. IsAdjustedBound (C.nodes c.now) (C.at c.now)
        (scale_of p.now) (numbers_of p.now) (triples_of m.now) [] found.bound) }
    ensures size { IfOk result (λ found. IsBoundSized found.bound) }
    ensures cycles { IfOk result (λ found. (nodes : List ℕ) → IsCycle (C.nodes c.now) nodes
        → UsesEach (triples_of m.now) nodes → found.bound ≤ℤ length_of (C.at c.now) nodes) }
{
    Ok(least_one_tree(alloc, c, p, m)?)
}

/// Like [`one_tree`], but returns a [`Refused`].
///
/// # Errors
///
/// If memory runs out. It allocates an entry for each node and for each multiplier.
pub fn least_one_tree<C: Symmetric>(
    alloc: Global,
    c: &C,
    p: &Potentials,
    m: &Multipliers,
) -> Result<OneTree, Refused>
    requires some { 3 ≤ C.nodes c.now }
    requires count { length (numbers_of p.now) ≡ C.nodes c.now }
    requires on_pairs { AreOnPairs (C.nodes c.now) (triples_of m.now) }
    ensures tree { IfOk result (λ found. IsOneTree (C.nodes c.now) found.edges.items) }
    ensures weight { IfOk result (λ found. found.weight
        ≡ weight_of (weight_less p.now (triples_of m.now) (C.at c.now)) found.edges.items) }
    ensures least { IfOk result (λ found. (others : List (ℕ × ℕ)) → IsOneTree (C.nodes c.now) others
        → found.weight ≤ℤ weight_of (weight_less p.now (triples_of m.now) (C.at c.now)) others) }
    ensures rounded { IfOk result (λ found. IsAdjustedBoundOf (scale_of p.now) (numbers_of p.now)
        (triples_of m.now) found.weight found.bound) }
    ensures bound { IfOk result (λ found. IsAdjustedBound (C.nodes c.now) (C.at c.now)
        (scale_of p.now) (numbers_of p.now) (triples_of m.now) [] found.bound) }
    ensures size { IfOk result (λ found. IsBoundSized found.bound) }
    ensures cycles { IfOk result (λ found. (nodes : List ℕ) → IsCycle (C.nodes c.now) nodes
        → UsesEach (triples_of m.now) nodes → found.bound ≤ℤ length_of (C.at c.now) nodes) }
{
    let by_node = ByNode::of(alloc, c.count(), m)?;
    let found = least_edges(alloc, &*c, &*p, &by_node)?;
    drop(by_node);
    let potentials = total(p.numbers);
    let multipliers = total_of(m.triples);
    let bound = least_bound(p.scale, found.weight - 2 * potentials + multipliers);
    adjusted_bounds_bound_cycles();
    Ok(OneTree {
        edges: found.edges,
        weight: found.weight,
        bound,
    })
}

/// The edges of a 1-tree, and the sum of their weights.
#[derive(Drop)]
struct Weighed {
    edges: Vec<(u32, u32)>,
    weight: i128,
}

/// The edges of a minimum 1-tree, in a vector with capacity for all of them, and their weight.
fn least_edges<'a, C: Symmetric>(
    alloc: Global,
    c: &'a C,
    p: &'a Potentials<'a>,
    m: &'a ByNode<'a>,
) -> Result<Weighed, Refused>
    requires some { 3 ≤ C.nodes c.now }
    requires count { length (numbers_of p.now) ≡ C.nodes c.now }
    requires over { node_count m.now ≡ C.nodes c.now }
    ensures least { IfOk result (λ found. IsLeastOneTree (C.nodes c.now)
        (weight_less p.now (triples_in m.now) (C.at c.now)) found.edges.items) }
    ensures weight { IfOk result (λ found. found.weight
        ≡ weight_of (weight_less p.now (triples_in m.now) (C.at c.now)) found.edges.items) }
    ensures size { IfOk result (λ found. IsFromTo (neg_ℤ (pos ((most_nodes + 2) * 2 ^ 63)))
        (pos ((most_nodes + 2) * 2 ^ 63)) found.weight) }
{
    let weights = PotentialWeights { c, p, m };
    let mut row = filled(alloc, 0, c.count() as usize + 1)?;
    let (first, second) = two_root_edges(&weights, &mut row);
    let grown = grow_in_rounds(alloc, &weights, &mut row)?;
    let edges = tree_of(
        alloc,
        c.count() as usize,
        first.node,
        second.node,
        &grown.pairs,
    )?;
    let root_edges = i128::from(first.weight) + i128::from(second.weight);
    Ok(Weighed {
        edges,
        weight: root_edges + grown.weight,
    })
}

/// The two pairs at node 1 and those of a tree, each with the smaller node first.
fn tree_of(
    alloc: Global,
    room: usize,
    first: u32,
    second: u32,
    added: &[(u32, u32)],
) -> Result<Vec<(u32, u32)>, Refused>
    ensures { IfOk result (λ edges. edges.items ≡ tree_of first second added.now) }
{
    let mut edges = with_capacity(alloc, room)?;
    push(&mut edges, (1, first))?;
    push(&mut edges, (1, second))?;
    'added: for pair in added {
        push(
            &mut edges,
            if pair.0 < pair.1 {
                *pair
            } else {
                (pair.1, pair.0)
            },
        )?;
    }
    Ok(edges)
}
