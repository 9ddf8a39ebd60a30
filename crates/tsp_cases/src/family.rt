//! `Families`: the families of a certificate, all found good, with the crossings of each.
//! `good_families.rt` makes them for tours, and `plan_verdict.rt` in tsp_routing for routes.
//! Because later code takes this type, it never tests a family again.
//!
//! The crossings of a family are the least number of times that a cycle crosses its sets, and the
//! most of them that one edge crosses. Held and Karp's dynamic programme (1962) finds the first as a
//! shortest cycle through the parts, of which there are at most 14. `IsLeastLength` and `IsMostCost`
//! in `specs/Crossings.antt` pin both numbers.

ghost use Rattle.std.specs.List.{All, Any};
ghost use Rattle.std.specs.Prelude.{◌≡◌, ◌≤◌, ◌<◌, ◌-◌, ◌^◌, length, pos, MatchOption, IfOk, IfSome, ◌+◌, ◌↔◌, ℕ, List, IsTrue, slice_index, if◌then◌else◌, ◌*◌, count_ones, bit_xor};
ghost use Rattle.tsp_cases.specs.Crossings.{families_in, AreFamiliesOf, sets_of, sets_crossed, IsLeastLength, IsMostCost, AreTooMany, HasUnlike, has, lists_of, AreSetsOf, IsLargest, AreMemberships, IsNodePlace, AreDifferent, AreFirsts, cost_by_rows, as_whole, no_path, IsBestPath, AreBestPaths, IsLeastSum, ArePartsOf};
ghost use Rattle.tsp_cases.specs.Families.{IsFamily, families_with, HasEachOnce};
ghost use Rattle.tsp_cases.specs.states.GoodFamilies.{AreSmallCrossings};

use crate::laws::parts_tell_cycles;
use crate::sets::SetPlace;
use std::alloc::Global;
use tsp_io::{Refused, filled, push};

/// The families of a file, all of them good, and how often cycles cross each. A comb has its handle
/// first, then its teeth; a lone set is a handle without teeth.
///
/// For tours, [`judge_families`](crate::judge_families) makes this value. tsp_routing makes it from
/// single sets of customers, and keeps separately how often plans cross them.
#[derive(Drop)]
pub struct Families<'a> {
    pub nodes: u32,
    pub lent: &'a [Vec<Vec<u32>>],
    pub crossed: Vec<Crossings>,
    pub ghost few_nodes: { nodes < 2 ^ 32 - 1 },
    pub ghost as_many: { length crossed.items ≡ length lent.now },
    pub ghost many: { length crossed.items ≡ length (families_in lent.now) },
    pub ghost few: { length lent.now < 2 ^ 32 },
    pub ghost few_sets: { All (λ sets. length sets.items < 2 ^ 32) lent.now },
    pub ghost inside: { AreFamiliesOf nodes lent.now },
    pub ghost are: { ∥ All (IsFamily nodes) (families_with crossed.items (families_in lent.now)) ∥₁ },
    pub ghost once: { All (All HasEachOnce) (families_in lent.now) },
    pub ghost small: { AreSmallCrossings crossed.items },
    pub ghost some: { All (λ own. 1 ≤ own.most) crossed.items },
}

impl Families<'_> {
    ghost use Rattle.tsp_cases.specs.Prelude.{[], slice_index_or, All, IsNode};
    ghost use Rattle.std.specs.Prelude.{◌≡◌};
    ghost use Rattle.tsp_cases.specs.states.Sets.{IsPlaceIn};
    ghost use Rattle.tsp_cases.specs.states.Sets.{lent_in};

    /// The nodes of the set at a place.
    #[inline]
    pub fn set_at(&self, place: SetPlace) -> &[u32]
        requires { IsPlaceIn (lent_in self.now) place }
        ensures set { result.now ≡ slice_index_or (slice_index_or (lent_in self.now) place.family []) place.set [] }
        ensures nodes { All (IsNode self.now.nodes) result.now }
    {
        &self.lent[place.family as usize][place.set as usize]
    }
}

// ---- the crossings of a family

/// How many sets a family may have.
const MOST_SETS: usize = 63;

/// How often the sets of a family are crossed.
#[derive(Clone, Copy, Debug, PartialEq, Eq)]
pub struct Crossings {
    /// The least number of times that a cycle crosses the sets.
    pub least: u64,
    /// The largest number of sets that one edge crosses.
    pub most: u64,
}

/// How often the sets of a family are crossed. `None` if there are more than 63 sets, or if they
/// divide the nodes into more than 14 parts: two nodes are in one part exactly if they are in the
/// same sets.
///
/// # Errors
///
/// If memory runs out. It allocates an entry for each node.
pub fn family_crossings(alloc: Global, family: &NodeSets) -> Result<Option<Crossings>, Refused>
    ensures least { IfOk result
        (λ found. MatchOption found (AreTooMany family.now.nodes (sets_of (lists_of family.now.sets.now)))
        (λ own. IsLeastLength family.now.nodes (sets_crossed (sets_of (lists_of family.now.sets.now))) (pos own.least))) }
    ensures most { IfOk result (λ found. IfSome found
        (λ own. IsMostCost family.now.nodes (sets_crossed (sets_of (lists_of family.now.sets.now))) (pos own.most))) }
    ensures known { IfOk result
        (λ found. IfSome found (λ own. AreTooMany family.now.nodes (sets_of (lists_of family.now.sets.now)) → ⊥)) }
    ensures few { IfOk result (λ found. IfSome found (λ own. (own.least ≤ 896) × (own.most ≤ 64))) }
{
    if family.sets.len() > MOST_SETS {
        return Ok(None);
    }
    let found = parts_of(alloc, family)?;
    let Some(parts) = found else {
        return Ok(None);
    };
    let costs = crossings_between(alloc, &parts.memberships, &parts.firsts)?;
    let between = CostSquare {
        nodes: parts.firsts.len(),
        costs: &costs,
    };
    let least = least_cycle(alloc, &between)?;
    let most = u64::from(largest(between.costs));
    parts_tell_cycles();
    Ok(Some(Crossings { least, most }))
}

/// The largest of some numbers, 0 if there is none.
fn largest(numbers: &[u32]) -> u32
    ensures { IsLargest numbers.now result }
{
    let mut largest = 0;
    'numbers: for number in numbers {
        if largest < *number {
            largest = *number;
        }
    }
    largest
}

// ---- the parts into which the sets of a family divide the nodes

/// How many parts there may be.
const MOST_PARTS: usize = 14;

/// One node of each part, and the memberships of all nodes.
#[derive(Debug, Drop)]
pub struct Parts {
    /// A node of each part.
    pub firsts: Vec<u32>,
    /// For each node, from 0 on, a number whose bits say which sets contain it.
    pub memberships: Vec<u64>,
}

/// The parts of the nodes: two nodes are in one part exactly if they are in the same sets.
/// `None` if there are more than 14.
///
/// # Errors
///
/// If memory runs out. It allocates an entry for each node.
pub fn parts_of(alloc: Global, family: &NodeSets) -> Result<Option<Parts>, Refused>
    requires { length family.now.sets.now ≤ 63 }
    ensures parts { IfOk result (λ found. MatchOption found
        (HasUnlike 15 family.now.nodes (sets_of (lists_of family.now.sets.now)))
        (λ parts. ArePartsOf family.now.nodes (sets_of (lists_of family.now.sets.now)) parts.firsts.items)) }
    ensures memberships { IfOk result (λ found. IfSome found
        (λ parts. AreMemberships family.now.nodes (sets_of (lists_of family.now.sets.now)) parts.memberships.items)) }
    ensures few { IfOk result (λ found. IfSome found (λ parts. length parts.firsts.items ≤ 14)) }
{
    let memberships = memberships_of(alloc, family)?;
    let found = firsts_of(alloc, &memberships)?;
    match found {
        None => Ok(None),
        Some(firsts) => Ok(Some(Parts {
            firsts,
            memberships,
        })),
    }
}

/// A node of each membership, from node 1 on. `None` if there are more than 14.
fn firsts_of(alloc: Global, memberships: &[u64]) -> Result<Option<Vec<u32>>, Refused>
    requires { length memberships.now < 2 ^ 32 }
    ensures firsts { IfOk result (λ found. MatchOption found
        ((nodes : List ℕ) × (length nodes ≡ 15) × All (IsNodePlace memberships.now) nodes × AreDifferent memberships.now nodes)
        (λ firsts. AreFirsts memberships.now firsts.items)) }
    ensures few { IfOk result (λ found. IfSome found (λ firsts. length firsts.items ≤ 14)) }
{
    let mut firsts = Vec::new(alloc);
    'nodes: for node in 1..memberships.len() {
        if !has_membership(memberships, &firsts, memberships[node]) {
            if firsts.len() >= MOST_PARTS {
                return Ok(None);
            }
            push(&mut firsts, node as u32)?;
        }
    }
    Ok(Some(firsts))
}

/// Whether one of these nodes has the membership.
fn has_membership(memberships: &[u64], nodes: &[u32], membership: u64) -> bool
    requires { All (IsNodePlace memberships.now) nodes.now }
    ensures { IsTrue result
        ↔ Any (λ node. membership ≡ slice_index memberships.now node) nodes.now }
{
    'nodes: for node in nodes {
        if memberships[*node as usize] == membership {
            return true;
        }
    }
    false
}

// ---- for each node a number whose bits say which sets of a family have it

/// For each node the number whose bits say which sets of the family have it.
///
/// # Errors
///
/// If memory runs out. It allocates an entry for each node.
fn memberships_of(alloc: Global, family: &NodeSets) -> Result<Vec<u64>, Refused>
    requires { length family.now.sets.now ≤ 63 }
    ensures { IfOk result (λ memberships. AreMemberships family.now.nodes
        (sets_of (lists_of family.now.sets.now)) memberships.items) }
{
    let mut memberships = filled(alloc, 0, family.nodes as usize + 1)?;
    'sets: for set in 0..family.sets.len() {
        add_bit(&mut memberships, 1 << set, &family.sets[set]);
    }
    Ok(memberships)
}

/// Sets a bit for each of these nodes. A node may be listed twice.
fn add_bit(memberships: &mut [u64], bit: u64, nodes: &[u32])
    requires nodes { All (λ node. node < length memberships.old) nodes.now }
    requires bit { bit < 2 ^ 63 }
    requires below { (node : ℕ)
        → node < length memberships.old → slice_index memberships.old node < bit }
    ensures { (node : ℕ) → node < length memberships.old → slice_index memberships.new node
        ≡ slice_index memberships.old node + (if has nodes.now node then bit else 0) }
{
    'nodes: for node in nodes {
        let place = *node as usize;
        if memberships[place] < bit {
            memberships[place] += bit;
        }
    }
}

// ---- how many sets of a family have one of two parts and not the other

/// How many sets an edge between any two of these nodes crosses, by rows: in how many bits their
/// memberships differ.
///
/// # Errors
///
/// Out of memory.
fn crossings_between(
    alloc: Global,
    memberships: &[u64],
    firsts: &[u32],
) -> Result<Vec<u32>, Refused>
    requires few { length firsts.now ≤ 14 }
    requires places { All (IsNodePlace memberships.now) firsts.now }
    ensures long { IfOk result
        (λ costs. length costs.items ≡ length firsts.now * length firsts.now) }
    ensures small { IfOk result (λ costs. All (λ cost. cost ≤ 64) costs.items) }
    ensures values { IfOk result (λ costs. (a b : ℕ) → a < length firsts.now
        → b < length firsts.now → slice_index costs.items (a * length firsts.now + b)
        ≡ count_ones (bit_xor (slice_index memberships.now (slice_index firsts.now a))
        (slice_index memberships.now (slice_index firsts.now b)))) }
{
    let mut costs = Vec::new(alloc);
    'rows: for a in 0..firsts.len() {
        'columns: for b in 0..firsts.len() {
            let from = memberships[firsts[a] as usize];
            let to = memberships[firsts[b] as usize];
            push(&mut costs, (from ^ to).count_ones())?;
        }
    }
    Ok(costs)
}

// ---- the least length of a cycle through at most 14 nodes, which are the parts of a family

/// The length of a shortest cycle through all of a few nodes.
///
/// # Errors
///
/// Out of memory.
pub fn least_cycle(alloc: Global, between: &CostSquare) -> Result<u64, Refused>
    ensures { IfOk result (λ least. IsLeastLength between.now.nodes
        (as_whole (cost_by_rows between.now.nodes between.now.costs.now)) (pos least)) }
{
    if between.nodes == 1 {
        return Ok(u64::from(between.costs[0]));
    }
    let others = between.nodes - 1;
    let paths = best_paths(alloc, between)?;
    let all = power(others) - 1;
    Ok(least_sum(NO_PATH, between.costs, &paths, 1, all * others, others))
}

// ---- the least lengths of paths through sets of nodes, by dynamic programming

/// The number that stands for no path.
const NO_PATH: u64 = 1_152_921_504_606_846_976;

/// The least among a number and the sums of two lists, entry by entry from a place of each on.
fn least_sum(
    start: u64,
    costs: &[u32],
    paths: &[u64],
    cost_at: usize,
    path_at: usize,
    count: usize,
) -> u64
    requires costs { cost_at + count ≤ length costs.now }
    requires paths { path_at + count ≤ length paths.now }
    requires small { All (λ path. path ≤ no_path) paths.now }
    ensures { IsLeastSum start costs.now paths.now cost_at path_at count result }
{
    let mut least = start;
    'places: for place in 0..count {
        let sum = u64::from(costs[cost_at + place]) + paths[path_at + place];
        if sum < least {
            least = sum;
        }
    }
    least
}

/// The length of a shortest path from a node through all others of a set to node 1, or `NO_PATH` if
/// the node isn't in the set. `other` is the node's number minus 2.
fn best_path(between: &CostSquare, paths: &[u64], set: usize, other: usize) -> u64
    requires set { set < 2 ^ (between.now.nodes - 1) }
    requires other { other < between.now.nodes - 1 }
    requires paths { set * (between.now.nodes - 1) ≤ length paths.now }
    requires small { All (λ path. path ≤ no_path) paths.now }
    requires best { AreBestPaths between.now.nodes (cost_by_rows between.now.nodes between.now.costs.now) paths.now }
    ensures { IsBestPath between.now.nodes (cost_by_rows between.now.nodes between.now.costs.now) set (other + 2) result }
{
    let others = between.nodes - 1;
    let bit = power(other);
    if set / bit % 2 == 0 {
        return NO_PATH;
    }
    let rest = set - bit;
    let row = (other + 1) * between.nodes;
    let start = if rest == 0 {
        u64::from(between.costs[row])
    } else {
        NO_PATH
    };
    least_sum(start, between.costs, paths, row + 1, rest * others, others)
}

/// A power of two.
fn power(exponent: usize) -> usize
    requires { exponent < 63 }
    ensures { result ≡ 2 ^ exponent }
{
    1 << exponent
}

/// The lengths of shortest paths through each set of the nodes from 2 on.
///
/// # Errors
///
/// Out of memory.
fn best_paths(alloc: Global, between: &CostSquare) -> Result<Vec<u64>, Refused>
    requires { 2 ≤ between.now.nodes }
    ensures long { IfOk result
        (λ paths. length paths.items ≡ 2 ^ (between.now.nodes - 1) * (between.now.nodes - 1)) }
    ensures small { IfOk result (λ paths. All (λ path. path ≤ no_path) paths.items) }
    ensures best { IfOk result (λ paths. AreBestPaths between.now.nodes
        (cost_by_rows between.now.nodes between.now.costs.now) paths.items) }
{
    let others = between.nodes - 1;
    let count = power(others);
    let mut paths = Vec::new(alloc);
    'sets: for set in 0..count {
        'nodes: for other in 0..others {
            let best = best_path(between, &paths, set, other);
            push(&mut paths, best)?;
        }
    }
    Ok(paths)
}

// ---- the sets of one family, as a file lists them, with the number of nodes

/// Sets of the nodes from 1 to `nodes`, with at least one node. A set may list a node twice.
#[derive(Clone, Copy)]
pub struct NodeSets<'a> {
    /// How many nodes there are.
    pub nodes: u32,
    /// The nodes of each set.
    pub sets: &'a [Vec<u32>],
    pub ghost some: { 1 ≤ nodes },
    pub ghost few_nodes: { nodes < 2 ^ 32 - 1 },
    pub ghost few_sets: { length sets.now < 2 ^ 32 },
    pub ghost inside: { AreSetsOf nodes sets.now },
}

// ---- the matrix of the costs between at most 14 nodes, which are the parts of a family

/// The costs between at most 14 nodes, by rows, each at most 64.
#[derive(Clone, Copy)]
pub struct CostSquare<'a> {
    /// How many nodes there are.
    pub nodes: usize,
    /// The costs, row by row.
    pub costs: &'a [u32],
    pub ghost some: { 1 ≤ nodes },
    pub ghost few: { nodes ≤ 14 },
    pub ghost square: { length costs.now ≡ nodes * nodes },
    pub ghost small: { All (λ cost. cost ≤ 64) costs.now },
}
