//! The multipliers of fixed edges, listed at both nodes of each edge, so that `weights.rt` can
//! lower a row without a search. `bound.rt` makes the lists. `lowered_by` in `specs/states/ByNode.antt` pins what a list takes
//! off a weight.

ghost use Rattle.tsp_bound.specs.Prelude.{[], pos, IfOk, All, AllPairs, most_multiplier, IsFromTo, IsMultiplier, AreMultipliers, AreOnPairs};
ghost use Rattle.std.specs.Prelude.{◌≡◌, ◌≢◌, ◌-◌, ◌<◌, ◌^◌};
ghost use Rattle.tsp_bound.specs.states.ByNode.{IsTable, lowered_by};

use crate::potentials::Multipliers;
use std::alloc::Global;
use tsp_io::{Refused, push, with_capacity};

/// The multipliers, along with a list for each node of those on its edges.
#[derive(Drop)]
pub(crate) struct ByNode<'a> {
    nodes: u32,
    triples: &'a [(u32, u32, i64)],
    lists: Vec<Vec<(u32, i64)>>,
    ghost are: { AreMultipliers triples.now },
    ghost on_pairs: { AreOnPairs nodes triples.now },
    ghost table: { IsTable nodes triples.now lists.items },
}

impl<'a> ByNode<'a> {
    ghost use Rattle.tsp_bound.specs.Prelude.{ℕ, IsNode, numbers_on};
    ghost use Rattle.tsp_bound.specs.states.ByNode.{AreLowerings, all_said_of};
    ghost use Rattle.tsp_bound.specs.states.Potentials.{triples_of, triples_in, node_count};

    /// The multipliers of different pairs of the nodes 1 to `nodes`, by node.
    ///
    /// # Errors
    ///
    /// Out of memory. It allocates memory for each node and each pair.
    pub(crate) fn of(alloc: Global, nodes: u32, m: &Multipliers<'a>) -> Result<ByNode<'a>, Refused>
        requires few { nodes < 2 ^ 32 - 1 }
        requires on_pairs { AreOnPairs nodes (triples_of m.now) }
        ensures nodes { IfOk result (λ made. node_count made ≡ nodes) }
        ensures triples { IfOk result (λ made. triples_in made ≡ triples_of m.now) }
    {
        let lists = lists_of(alloc, nodes, m.triples)?;
        Ok(ByNode {
            nodes,
            triples: m.triples,
            lists,
        })
    }

    /// The multipliers of a node's pairs, each with the pair's other node.
    pub(crate) fn at(&self, node: u32) -> &[(u32, i64)]
        requires { IsNode (node_count self.now) node }
        ensures are { AreLowerings (node_count self.now) result.now }
        ensures said { result.now ≡ all_said_of node (triples_in self.now) }
        ensures sums { (x : ℕ) → lowered_by result.now x ≡ numbers_on (triples_in self.now) node x }
    {
        // Without multipliers all lists are empty, and a search over points never reads them.
        if self.triples.is_empty() {
            return &[];
        }
        self.lists[node as usize].as_slice()
    }

    /// How much the multiplier of a pair lowers its weight. The shorter of the two nodes' lists is
    /// searched.
    pub(crate) fn between(&self, i: u32, j: u32) -> i64
        requires from { IsNode (node_count self.now) i }
        requires to { IsNode (node_count self.now) j }
        ensures value { result ≡ numbers_on (triples_in self.now) i j }
        ensures size { IsFromTo (pos 0) (pos most_multiplier) result }
    {
        let (first, second) = (self.at(i), self.at(j));
        if first.len() <= second.len() {
            lowered_by(first, j)
        } else {
            lowered_by(second, i)
        }
    }
}

/// How much a node's list lowers the weight to another node.
pub(crate) fn lowered_by(lowerings: &[(u32, i64)], node: u32) -> i64
    requires once { AllPairs (λ a b. a.0 ≢ b.0) lowerings.now }
    requires each { All (λ lowering. IsFromTo (pos 0) (pos most_multiplier) lowering.1) lowerings.now }
    ensures value { result ≡ lowered_by lowerings.now node }
    ensures size { IsFromTo (pos 0) (pos most_multiplier) result }
{
    'lowerings: for lowering in lowerings {
        if lowering.0 == node {
            return lowering.1;
        }
    }
    0
}

/// For each node from 0 to `nodes`, the triples that contain it, each as its other node and its
/// number.
fn lists_of(
    alloc: Global,
    nodes: u32,
    triples: &[(u32, u32, i64)],
) -> Result<Vec<Vec<(u32, i64)>>, Refused>
    requires few { nodes < 2 ^ 32 - 1 }
    requires each { All IsMultiplier triples.now }
    requires on_pairs { AreOnPairs nodes triples.now }
    ensures { IfOk result (λ lists. IsTable nodes triples.now lists.items) }
{
    let mut lists = empty_lists(alloc, nodes)?;
    'triples: for triple in triples {
        let (a, b, number) = *triple;
        push(&mut lists[a as usize], (b, number))?;
        push(&mut lists[b as usize], (a, number))?;
    }
    Ok(lists)
}

/// An empty list for each node from 0 to `nodes`.
fn empty_lists(alloc: Global, nodes: u32) -> Result<Vec<Vec<(u32, i64)>>, Refused>
    requires { nodes < 2 ^ 32 - 1 }
    ensures { IfOk result (λ lists. IsTable nodes [] lists.items) }
{
    let mut lists = with_capacity(alloc, nodes as usize + 1)?;
    'lists: for _ in 0..nodes + 1 {
        push(&mut lists, Vec::new(alloc))?;
    }
    Ok(lists)
}
