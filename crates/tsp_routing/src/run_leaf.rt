//! A leaf as label setting reads it: nodes with loads and a row of weights for each, memories,
//! charges, and completion bounds. `run_bound.rt` makes it. Costs, families and files don't occur
//! here.
//!
//! The completion bounds are, for each load that a route can still carry and each customer, the
//! least weight of a way home that forgets which customers were served. A start is dropped if even
//! this way home takes it past the limit. `specs/KeptStates.antt` pins the exact completion bounds,
//! because the number of kept states decides whether a certificate is accepted.

ghost use Rattle.std.specs.Prelude.{◌≡◌, ◌≤◌, ◌+◌, ◌^◌, pos, neg_ℤ, ◌≢◌, ◌<◌, ◌*◌, ◌≤ℤ◌, ◌+ℤ◌, ◌⊎◌, ◌<ℤ◌};
ghost use Rattle.tsp_format.specs.Steps.{IsFromTo, SubsetRow};
ghost use Rattle.tsp_routing.specs.PlanBounds.{most_capacity_in_parts, most_link};
ghost use Rattle.tsp_routing.specs.Prelude.{ℕ, length, most_nodes, IsNode, IsCustomer, ℤ, List, [], slice_index_or, IfOk, least_at};
ghost use Rattle.tsp_routing.specs.states.Demands.{load_at};
ghost use Rattle.tsp_routing.specs.states.MemoryTables.{AreStepTables};
ghost use Rattle.tsp_routing.specs.states.RunTables.{AreLinkRows, AreHomeRowsSized, rules_by, link_in, row_in, home_in, item_lists, no_way, IsHomeRow, AreHomeRows, IsHomeRowSized, IsOnward, AreOnwards, IsOnwardSized, AreOnwardsSized, IsWayBelowTo, IsWayMetTo};

use crate::memories::Memories;
use crate::run_steps::StepTable;
use std::alloc::Global;
use tsp_io::{Refused, push, with_capacity};
use tsp_theory::weight_in;

/// The nodes 1 to `nodes`, including the depot, with their loads and weights, and the capacity of a
/// route. `loads[0]` is unused.
#[derive(Drop)]
pub(crate) struct RunNodes<'a> {
    pub(crate) nodes: u32,
    pub(crate) depot: u32,
    pub(crate) loads: &'a [u64],
    pub(crate) room: usize,
    pub(crate) rows: &'a [Vec<i64>],
    ghost few: { nodes ≤ most_nodes },
    ghost depot_in: { IsNode nodes depot },
    ghost by_node: { length loads.now ≡ nodes + 1 },
    ghost some: { (node : ℕ) → IsCustomer nodes depot node → 1 ≤ load_at loads.now node },
    ghost fits: { room ≤ most_capacity_in_parts },
    ghost links: { AreLinkRows nodes rows.now },
}

impl RunNodes<'_> {
    ghost use Rattle.std.specs.Prelude.{◌≡◌, ◌≤◌, ◌+◌, length};
    ghost use Rattle.tsp_format.specs.Nodes.{IsNode};
    ghost use Rattle.tsp_routing.specs.states.Demands.{load_at};
    ghost use Rattle.tsp_routing.specs.states.RunTables.{row_in};

    /// The weights between a node and all nodes, each at its node's place.
    pub(crate) fn row(&self, from: u32) -> &[i64]
        requires { IsNode self.now.nodes from }
        ensures value { result.now ≡ row_in self.now.rows.now from }
        ensures places { length result.now ≡ self.now.nodes + 1 }
    {
        self.rows[from as usize - 1].as_slice()
    }

    /// The load of a node.
    #[inline]
    pub(crate) fn load(&self, node: u32) -> u64
        requires { IsNode self.now.nodes node }
        ensures { result ≡ load_at self.now.loads.now node }
    {
        self.loads[node as usize]
    }
}

/// Nodes, loads and weights; memories, and the charge of each row; the table of ways home; tables of
/// steps; and the limit: only runs below it count.
#[derive(Drop)]
pub(crate) struct RunLeaf<'a> {
    pub(crate) nodes: &'a RunNodes<'a>,
    pub(crate) memories: &'a Memories,
    pub(crate) charges: &'a [i64],
    pub(crate) homes: &'a [Vec<i128>],
    pub(crate) steps: &'a [Vec<StepTable>],
    pub(crate) limit: i128,
    ghost same: { memories.now.nodes ≡ nodes.now.nodes },
    ghost priced: { length charges.now ≡ memories.now.count },
    ghost long: { length homes.now ≡ nodes.now.room + 1 },
    ghost sizes: { AreHomeRowsSized nodes.now.nodes homes.now },
    ghost small: { IsFromTo (neg_ℤ (pos (2 ^ 90))) (pos (2 ^ 90)) limit },
    ghost tables: { AreStepTables memories.now.nodes memories.now.keys.items memories.now.places.items charges.now steps.now },
}

// ---- completion bounds

/// More than any way home weighs. It means that there is none.
const NO_WAY: i128 = 1 << 100;

/// The weights of the cheapest ways home: a row for each load that a route can still carry, from 0
/// on, with a number for each customer.
///
/// # Errors
///
/// If memory runs out. It allocates an entry for each node and load up to the capacity.
pub(crate) fn ways_home(alloc: Global, run_nodes: &RunNodes) -> Result<Vec<Vec<i128>>, Refused>
    ensures long { IfOk result (λ table. length table.items ≡ run_nodes.now.room + 1) }
    ensures exact { IfOk result (λ table. (near : ℕ → List ℕ) (rows : List (SubsetRow × ℤ))
        → AreHomeRows (rules_by run_nodes.now.nodes run_nodes.now.depot run_nodes.now.loads.now run_nodes.now.room
        run_nodes.now.rows.now near rows) table.items) }
    ensures sizes { IfOk result (λ table. AreHomeRowsSized run_nodes.now.nodes table.items) }
{
    let mut table = Vec::new(alloc);
    'lefts: for left in 0..run_nodes.room + 1 {
        let next = ways_with(alloc, run_nodes, &table)?;
        push(&mut table, next)?;
    }
    Ok(table)
}

/// The row for the next load in a table.
///
/// # Errors
///
/// If memory runs out. It allocates an entry for each node.
fn ways_with(alloc: Global, run_nodes: &RunNodes, table: &[Vec<i128>]) -> Result<Vec<i128>, Refused>
    requires few { length table.now ≤ run_nodes.now.room }
    requires sizes { AreHomeRowsSized run_nodes.now.nodes table.now }
    ensures exact { IfOk result (λ next. (near : ℕ → List ℕ) (rows : List (SubsetRow × ℤ))
        → AreHomeRows (rules_by run_nodes.now.nodes run_nodes.now.depot run_nodes.now.loads.now run_nodes.now.room
        run_nodes.now.rows.now near rows) table.now
        → IsHomeRow (rules_by run_nodes.now.nodes run_nodes.now.depot run_nodes.now.loads.now run_nodes.now.room
        run_nodes.now.rows.now near rows) (length table.now) next.items) }
    ensures sizes { IfOk result (λ next. IsHomeRowSized run_nodes.now.nodes (length table.now + 1) next.items) }
{
    let onward = onwards(alloc, run_nodes, table)?;
    let mut next = with_capacity(alloc, run_nodes.nodes as usize + 1)?;
    push(&mut next, 0)?;
    'nodes: for index in 0..run_nodes.nodes {
        let way = way_home(run_nodes, index + 1, &onward);
        push(&mut next, way)?;
    }
    Ok(next)
}

/// For each node, the weight of the cheapest way home for a route that serves it next; `NO_WAY` if
/// the route can't.
///
/// # Errors
///
/// If memory runs out. It allocates an entry for each node.
fn onwards(alloc: Global, run_nodes: &RunNodes, table: &[Vec<i128>]) -> Result<Vec<i128>, Refused>
    requires few { length table.now ≤ run_nodes.now.room }
    requires sizes { AreHomeRowsSized run_nodes.now.nodes table.now }
    ensures values { IfOk result (λ onward. AreOnwards run_nodes.now.nodes run_nodes.now.depot run_nodes.now.loads.now
        (length table.now) table.now onward.items) }
    ensures sizes { IfOk result (λ onward. AreOnwardsSized run_nodes.now.nodes (length table.now) onward.items) }
{
    let mut onward = with_capacity(alloc, run_nodes.nodes as usize + 1)?;
    push(&mut onward, NO_WAY)?;
    'nodes: for index in 0..run_nodes.nodes {
        push(&mut onward, onward_from(run_nodes, index + 1, table))?;
    }
    Ok(onward)
}

/// The weight of the cheapest way home from a node that a route serves next, from the rows so far.
fn onward_from(run_nodes: &RunNodes, next: u32, table: &[Vec<i128>]) -> i128
    requires next { IsNode run_nodes.now.nodes next }
    requires sizes { AreHomeRowsSized run_nodes.now.nodes table.now }
    ensures value { IsOnward run_nodes.now.nodes run_nodes.now.depot run_nodes.now.loads.now (length table.now) table.now next result }
    ensures size { IsOnwardSized (length table.now) result }
{
    let load = run_nodes.load(next);
    if next == run_nodes.depot {
        return NO_WAY;
    }
    if load > table.len() as u64 {
        return NO_WAY;
    }
    home_at(table, table.len() - load as usize, next)
}

/// The number of a node in a row of the table.
#[inline]
pub(crate) fn home_at(table: &[Vec<i128>], left: usize, node: u32) -> i128
    requires left { left < length table.now }
    requires node { node < length (slice_index_or (item_lists table.now) left []) }
    ensures { result ≡ home_in table.now left node }
{
    table[left][node as usize]
}

/// The weight of the cheapest way home from a customer: back to the depot, or first to another
/// customer.
fn way_home(run_nodes: &RunNodes, node: u32, onward: &[i128]) -> i128
    requires node { IsNode run_nodes.now.nodes node }
    requires sizes { (links : ℕ) × (links ≤ most_capacity_in_parts) × AreOnwardsSized run_nodes.now.nodes links onward.now }
    ensures below { IsWayBelowTo run_nodes.now.depot run_nodes.now.rows.now onward.now node run_nodes.now.nodes result }
    ensures met { IsWayMetTo run_nodes.now.depot run_nodes.now.rows.now onward.now node run_nodes.now.nodes result }
    ensures size { (links : ℕ) → AreOnwardsSized run_nodes.now.nodes links onward.now
        → neg_ℤ (pos ((links + 1) * most_link)) ≤ℤ result }
    ensures most { result ≤ℤ pos most_link }
{
    let row = run_nodes.row(node);
    let mut least = i128::from(weight_in(row, run_nodes.depot));
    'nexts: for index in 0..run_nodes.nodes {
        least = lesser_way(least, node, index + 1, row, onward);
    }
    least
}

/// The smaller of `least` and the weight of the way through `next`, unless it is the node itself.
#[inline]
fn lesser_way(least: i128, node: u32, next: u32, row: &[i64], onward: &[i128]) -> i128
    requires row { next < length row.now }
    requires onward { next < length onward.now }
    requires link { IsFromTo (neg_ℤ (pos most_link)) (pos most_link) (least_at row.now next) }
    requires size { (links : ℕ) × (links ≤ most_capacity_in_parts) × IsOnwardSized links (slice_index_or onward.now next (pos 0)) }
    ensures keeps { result ≤ℤ least }
    ensures own { node ≢ next → result ≤ℤ (least_at row.now next +ℤ slice_index_or onward.now next (pos 0)) }
    ensures met { (result ≡ least) ⊎ ((node ≢ next) × (result ≡ least_at row.now next +ℤ slice_index_or onward.now next (pos 0))
        × (result <ℤ least)) }
{
    if next == node {
        return least;
    }
    let way = i128::from(weight_in(row, next)) + onward[next as usize];
    if way < least { way } else { least }
}
