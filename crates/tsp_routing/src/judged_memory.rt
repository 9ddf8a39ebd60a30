//! Judges the memories and subset rows that a certificate for routes lists. `plan_verdict.rt` calls
//! it before any leaf is judged. The first fault becomes the reason in the report, so keep the
//! order of the tests (`AreMemoriesJudged` in `specs/states/JudgedMemory.antt`).

ghost use Rattle.tsp_routing.specs.Prelude.{ℕ, List, [], map, take, drop, length, slice_index_or, All, Vec, IfOk, IsTrue, IsNode, IsCustomer, HasEachOnce, has, most_nodes};
ghost use Rattle.std.specs.Prelude.{◌≡◌, ◌≤◌, ◌<◌, ◌+◌, ◌++◌, ◌↔◌, if◌then◌else◌};
ghost use Rattle.tsp_cases.specs.states.GoodFamilies.{AreUnmarked, AddsNoOther};
ghost use Rattle.tsp_routing.specs.states.Demands.{AreDemands};
ghost use Rattle.tsp_format.specs.states.TreeSteps.{subset_row_of};
ghost use Rattle.tsp_routing.specs.states.JudgedMemory.{AreListsOf, AreRowsOf, AreListsJudged, AreRowsJudged, IsNearTable, IsKeptWithin, IsFirstFullIn, AreMemoriesJudged};
ghost use Rattle.tsp_routing.specs.states.RunTables.{item_lists};

use crate::demands::Demands;
use std::alloc::Global;
use tsp_cases::mark_nodes;
use tsp_format::RowSets;
use tsp_io::{Refused, filled, push};

/// The judgement on memories: what each node remembers, at the node's place, or the first fault.
#[derive(Drop)]
pub(crate) enum JudgedMemory {
    /// All lists and rows are good, and no customer keeps too much.
    Good(Vec<Vec<u32>>),
    /// The customer of the first bad list, or the first one that keeps too much.
    BadMemory(u32),
    /// The first bad row, counted from 1.
    BadRow(usize),
}

/// The judgement on rows.
#[derive(Drop)]
pub(crate) enum JudgedRows {
    /// All rows are good; this is how many each node keeps.
    Good(Vec<u32>),
    /// The first bad row, counted from 1.
    Bad(usize),
}

/// What each node remembers, or the first fault: of the lists, then of the rows, and then the first
/// customer that keeps more than 64 customers and rows.
///
/// # Errors
///
/// If memory runs out. It allocates an entry for each node, and for each node of a list or a row.
pub(crate) fn judge_memory(
    alloc: Global,
    demands: &Demands,
    lists: &[Vec<u32>],
    rows: &[RowSets],
) -> Result<JudgedMemory, Refused>
    requires demands { AreDemands demands.now }
    requires few_lists { length lists.now ≤ 1000000 }
    requires few_rows { length rows.now ≤ 10000 }
    requires lists { AreListsOf demands.now.nodes lists.now }
    requires rows { AreRowsOf demands.now.nodes rows.now }
    ensures { IfOk result (AreMemoriesJudged demands.now.nodes demands.now.depot (item_lists lists.now)
        (map subset_row_of rows.now)) }
{
    if let Some(customer) = first_bad_list(alloc, demands, lists)? {
        return Ok(JudgedMemory::BadMemory(customer));
    }
    let counts = match judge_rows(alloc, demands, rows)? {
        JudgedRows::Good(counts) => counts,
        JudgedRows::Bad(row) => return Ok(JudgedMemory::BadRow(row)),
    };
    let near = near_by_node(alloc, demands.nodes, lists)?;
    if let Some(customer) = first_full(demands, &near, &counts) {
        return Ok(JudgedMemory::BadMemory(customer));
    }
    Ok(JudgedMemory::Good(near))
}

/// The customer of the first bad list: one that doesn't consist of different customers, or whose
/// customer has an earlier list.
///
/// # Errors
///
/// Out of memory.
fn first_bad_list(
    alloc: Global,
    demands: &Demands,
    lists: &[Vec<u32>],
) -> Result<Option<u32>, Refused>
    requires demands { AreDemands demands.now }
    requires few { length lists.now ≤ 1000000 }
    requires lists { AreListsOf demands.now.nodes lists.now }
    ensures { IfOk result (AreListsJudged demands.now.nodes demands.now.depot (item_lists lists.now)) }
{
    let mut marks = filled(alloc, 0, demands.nodes as usize + 1)?;
    let mut owners = filled(alloc, false, demands.nodes as usize + 1)?;
    'lists: for index in 0..lists.len() {
        let list = lists[index].as_slice();
        let owner = list[0];
        if owners[owner as usize] {
            return Ok(Some(owner));
        }
        // Marks count from 1, because 0 means no mark.
        if !are_customers(demands, &mut marks, index as u32 + 1, list) {
            return Ok(Some(owner));
        }
        owners[owner as usize] = true;
    }
    Ok(None)
}

/// Whether the nodes are customers, none of them twice. Marks them, up to the first repeated one.
fn are_customers(demands: &Demands, marks: &mut [u32], mark: u32, nodes: &[u32]) -> bool
    requires demands { AreDemands demands.now }
    requires inside { All (IsNode demands.now.nodes) nodes.now }
    requires places { length marks.old ≡ demands.now.nodes + 1 }
    requires fresh { AreUnmarked marks.old mark }
    ensures are { IsTrue result ↔ (All (IsCustomer demands.now.nodes demands.now.depot) nodes.now × HasEachOnce nodes.now) }
    ensures others { AddsNoOther mark marks.old marks.new }
    ensures length { length marks.new ≡ length marks.old }
{
    if !mark_nodes(marks, mark, nodes) {
        return false;
    }
    marks[demands.depot as usize] != mark
}

/// How many rows each node keeps, or the first bad row.
///
/// # Errors
///
/// Out of memory.
fn judge_rows(alloc: Global, demands: &Demands, rows: &[RowSets]) -> Result<JudgedRows, Refused>
    requires demands { AreDemands demands.now }
    requires few { length rows.now ≤ 10000 }
    requires rows { AreRowsOf demands.now.nodes rows.now }
    ensures { IfOk result (AreRowsJudged demands.now.nodes demands.now.depot (map subset_row_of rows.now)) }
{
    let mut marks = filled(alloc, 0, demands.nodes as usize + 1)?;
    let mut counts = filled(alloc, 0, demands.nodes as usize + 1)?;
    'rows: for index in 0..rows.len() {
        let nodes = all_of(alloc, &rows[index])?;
        if is_lone(&rows[index]) {
            return Ok(JudgedRows::Bad(index + 1));
        }
        if !are_customers(demands, &mut marks, index as u32 + 1, &nodes) {
            return Ok(JudgedRows::Bad(index + 1));
        }
        add_ones(&mut counts, &nodes);
    }
    Ok(JudgedRows::Good(counts))
}

/// Whether the set of a row has fewer than two nodes.
fn is_lone(row: &RowSets) -> bool
    ensures { IsTrue result ↔ (length row.now.set.items < 2) }
{
    row.set.len() < 2
}

/// All nodes that keep a row: those of its set, then the others.
///
/// # Errors
///
/// Out of memory.
fn all_of(alloc: Global, row: &RowSets) -> Result<Vec<u32>, Refused>
    ensures { IfOk result (λ nodes. nodes.items ≡ row.now.set.items ++ row.now.further.items) }
{
    let mut nodes = Vec::new(alloc);
    add_nodes(&mut nodes, &row.set)?;
    add_nodes(&mut nodes, &row.further)?;
    Ok(nodes)
}

/// Adds nodes behind others.
///
/// # Errors
///
/// Out of memory.
fn add_nodes(nodes: &mut Vec<u32>, more: &[u32]) -> Result<(), Refused>
    ensures { IfOk result (λ done. nodes.new.items ≡ nodes.old.items ++ more.now) }
{
    'nodes: for node in more {
        push(nodes, *node)?;
    }
    Ok(())
}

/// Adds one to the count of each of these nodes, none of which comes twice.
fn add_ones(counts: &mut [u32], nodes: &[u32])
    requires inside { All (λ node. node < length counts.old) nodes.now }
    requires once { HasEachOnce nodes.now }
    requires few { All (λ count. count ≤ 10000) counts.old }
    ensures counts { (node : ℕ) → slice_index_or counts.new node 0
        ≡ (if has nodes.now node then 1 else 0) + slice_index_or counts.old node 0 }
    ensures length { length counts.new ≡ length counts.old }
{
    'nodes: for node in nodes {
        counts[*node as usize] += 1;
    }
}

/// What each node remembers, at the node's place: the nodes after the first one in its list.
///
/// # Errors
///
/// Out of memory.
fn near_by_node(alloc: Global, nodes: u32, lists: &[Vec<u32>]) -> Result<Vec<Vec<u32>>, Refused>
    requires nodes { nodes ≤ most_nodes }
    requires lists { AreListsOf nodes lists.now }
    ensures { IfOk result (λ near. IsNearTable nodes (item_lists lists.now) near.items) }
{
    let mut near = no_lists(alloc, nodes as usize + 1)?;
    'lists: for back in 0..lists.len() {
        let list = lists[lists.len() - 1 - back].as_slice();
        near[list[0] as usize] = rest_of(alloc, list)?;
    }
    Ok(near)
}

/// A number of empty lists.
///
/// # Errors
///
/// Out of memory.
fn no_lists(alloc: Global, count: usize) -> Result<Vec<Vec<u32>>, Refused>
    ensures long { IfOk result (λ lists. length lists.items ≡ count) }
    ensures none { IfOk result (λ lists. (node : ℕ) → slice_index_or (item_lists lists.items) node [] ≡ []) }
{
    let mut lists = Vec::new(alloc);
    'lists: for index in 0..count {
        push(&mut lists, Vec::new(alloc))?;
    }
    Ok(lists)
}

/// The nodes after the first one.
///
/// # Errors
///
/// Out of memory.
fn rest_of(alloc: Global, list: &[u32]) -> Result<Vec<u32>, Refused>
    requires { 1 ≤ length list.now }
    ensures { IfOk result (λ rest. rest.items ≡ drop 1 list.now) }
{
    let mut rest = Vec::new(alloc);
    add_nodes(&mut rest, &list[1..])?;
    Ok(rest)
}

/// The first customer that keeps more than 64 customers and rows.
fn first_full(demands: &Demands, near: &[Vec<u32>], counts: &[u32]) -> Option<u32>
    requires demands { AreDemands demands.now }
    requires near { length near.now ≡ demands.now.nodes + 1 }
    requires counts { length counts.now ≡ demands.now.nodes + 1 }
    ensures { IsFirstFullIn demands.now.nodes demands.now.depot near.now counts.now result }
{
    'nodes: for index in 0..demands.nodes {
        let node = index + 1;
        if node != demands.depot && is_full(near, counts, node) {
            return Some(node);
        }
    }
    None
}

/// Whether a node keeps more than 64 customers and rows.
fn is_full(near: &[Vec<u32>], counts: &[u32], node: u32) -> bool
    requires near { node < length near.now }
    requires counts { node < length counts.now }
    ensures { IsTrue result ↔ (IsKeptWithin near.now counts.now node → ⊥) }
{
    near[node as usize].len() as u64 + u64::from(counts[node as usize]) > 64
}
