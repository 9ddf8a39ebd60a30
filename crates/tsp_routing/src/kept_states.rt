//! Label setting: the table of kept states (labels) of a leaf, load by load, with a list for each
//! last customer. `run_bound.rt` calls it. `specs/KeptStates.antt` pins which states are kept and
//! the limit of 10,000,000, because they decide which certificates are accepted.
//!
//! A list has no dominated states: of those with the same memory, only the lightest stays. A
//! heavier one can be dropped because it would continue exactly as the lighter one does
//! (`equal_states_go_on_alike` in `laws.rt`).
//!
//! For speed, each list has a floor, which is a weight that none of its states is below. A step
//! that would take even the floor past the limit skips the list unread; most steps do.

ghost use Rattle.std.specs.Prelude.{◌≡◌, ◌≤◌, ◌<◌, ◌+◌, ℕ, ℤ, List, length, IfOk, IfSome, ◌≢◌, ◌-◌, ◌*◌, ◌^◌, ◌≤ℤ◌, ◌↔◌};
ghost use Rattle.tsp_format.specs.Steps.{SubsetRow};
ghost use Rattle.tsp_routing.specs.KeptStates.{most_states};
ghost use Rattle.tsp_routing.specs.Prelude.{[], pos, neg_ℤ, slice_index_or, IsTrue, IsNode, IsCustomer};
ghost use Rattle.tsp_routing.specs.states.Demands.{load_at};
ghost use Rattle.tsp_routing.specs.states.KeptLists.{count_in_lists, entry_count, AreRisingLists, AreRisingRows, IsStateRowIfFew, AreStateRowsIfFew, rules_of, IsLeafOf, IsStateRow, AreStateRows, IsSizedRow, AreSizedRows, IsKeptList, IsKeptListTo, AreSizedEntries, AreLeastOf, AreRising, AreInOrder, EndsWithMemory, IsLeastAdded, list_in, IsFloor, IsFloorRow, AreFloors, floor_in};
ghost use Rattle.tsp_routing.specs.states.RunTables.{item_lists};

use crate::run_leaf::{RunLeaf, home_at};
use crate::run_steps::{Serving, add_nexts, entry_at, first_entry};
use std::alloc::Global;
use tsp_io::{Refused, push, with_capacity};
use tsp_theory::weight_in;

/// A label: a memory, and the least weight of the starts of runs that end with it. The list that
/// contains it has its load and its last customer.
#[derive(Clone, Copy)]
pub(crate) struct KeptState {
    pub(crate) word: u64,
    pub(crate) weight: i128,
}

// ---- the table of all states

/// The most kept states of a leaf.
const MOST_STATES: usize = 10_000_000;

/// The kept states: a row for each load from 0 on, with a list for each last customer. `None` if
/// there are more than 10,000,000 states.
///
/// # Errors
///
/// Out of memory.
pub(crate) fn kept_states(
    alloc: Global,
    leaf: &RunLeaf,
) -> Result<Option<Vec<Vec<Vec<KeptState>>>>, Refused>
    ensures long { IfOk result (λ found. IfSome found (λ table. length table.items ≡ leaf.now.nodes.now.room + 1)) }
    ensures exact { IfOk result (λ found. (near : ℕ → List ℕ) (rows : List (SubsetRow × ℤ)) → IsLeafOf leaf.now near rows
        → AreStateRowsIfFew (rules_of leaf.now near rows) leaf.now.limit found) }
    ensures rising { IfOk result (λ found. IfSome found (λ table. AreRisingRows table.items)) }
    ensures few { IfOk result (λ found. IfSome found (λ table. entry_count table.items ≤ most_states)) }
    ensures sizes { IfOk result (λ found. IfSome found (λ table. AreSizedRows leaf.now.nodes.now.nodes table.items)) }
{
    let mut table = Vec::new(alloc);
    let mut floors = Vec::new(alloc);
    let mut count = 0;
    'loads: for load in 0..leaf.nodes.room + 1 {
        let Some(next) = states_with(alloc, leaf, &table, &floors, &mut count)? else {
            return Ok(None);
        };
        let own = floors_of(alloc, &next)?;
        push(&mut table, next)?;
        push(&mut floors, own)?;
    }
    Ok(Some(table))
}

/// The lists for the next load in a table with `count` states. `count` grows by the number of their
/// states. `None` if it would exceed 10,000,000.
///
/// # Errors
///
/// Out of memory.
fn states_with(
    alloc: Global,
    leaf: &RunLeaf,
    table: &[Vec<Vec<KeptState>>],
    floors: &[Vec<i128>],
    count: &mut usize,
) -> Result<Option<Vec<Vec<KeptState>>>, Refused>
    requires few { length table.now ≤ leaf.now.nodes.now.room }
    requires sizes { AreSizedRows leaf.now.nodes.now.nodes table.now }
    requires floors { AreFloors table.now floors.now }
    requires rising { AreRisingRows table.now }
    requires count { count.old ≡ entry_count table.now }
    requires fits { count.old ≤ most_states }
    ensures exact { IfOk result (λ found. (near : ℕ → List ℕ) (rows : List (SubsetRow × ℤ)) → IsLeafOf leaf.now near rows
        → AreStateRows (rules_of leaf.now near rows) leaf.now.limit table.now
        → IsStateRowIfFew (rules_of leaf.now near rows) leaf.now.limit
        (IsStateRow (rules_of leaf.now near rows) leaf.now.limit (length table.now)) found) }
    ensures rising { IfOk result (λ found. IfSome found (λ next. AreRisingLists (item_lists next.items))) }
    ensures count { IfOk result (λ found. IfSome found (λ next. count.new ≡ count.old + count_in_lists (item_lists next.items))) }
    ensures fits { IfOk result (λ found. IfSome found (λ next. count.new ≤ most_states)) }
    ensures sizes { IfOk result (λ found. IfSome found (λ next. IsSizedRow leaf.now.nodes.now.nodes (length table.now)
        (item_lists next.items))) }
{
    let mut lists = Vec::new(alloc);
    push(&mut lists, Vec::new(alloc))?;
    'nodes: for index in 0..leaf.nodes.nodes {
        let list = kept_list(alloc, leaf, table, floors, index + 1)?;
        if list.len() > MOST_STATES - *count {
            return Ok(None);
        }
        *count += list.len();
        push(&mut lists, list)?;
    }
    Ok(Some(lists))
}

// ---- the list of a load and a last customer

/// The list for a last customer and the next load in a table.
///
/// # Errors
///
/// Out of memory.
fn kept_list(
    alloc: Global,
    leaf: &RunLeaf,
    table: &[Vec<Vec<KeptState>>],
    floors: &[Vec<i128>],
    last: u32,
) -> Result<Vec<KeptState>, Refused>
    requires last { IsNode leaf.now.nodes.now.nodes last }
    requires few { length table.now ≤ leaf.now.nodes.now.room }
    requires sizes { AreSizedRows leaf.now.nodes.now.nodes table.now }
    requires floors { AreFloors table.now floors.now }
    ensures exact { IfOk result (λ list. (near : ℕ → List ℕ) (rows : List (SubsetRow × ℤ)) → IsLeafOf leaf.now near rows
        → AreStateRows (rules_of leaf.now near rows) leaf.now.limit table.now
        → IsKeptList (rules_of leaf.now near rows) leaf.now.limit (length table.now) last list.items) }
    ensures rising { IfOk result (λ list. AreRising list.items) }
    ensures sizes { IfOk result (λ list. AreSizedEntries (length table.now) list.items) }
{
    if last == leaf.nodes.depot {
        return Ok(Vec::new(alloc));
    }
    if leaf.nodes.load(last) > table.len() as u64 {
        return Ok(Vec::new(alloc));
    }
    let entries = all_entries(alloc, leaf, table, floors, last)?;
    let least = least_of(alloc, entries)?;
    Ok(least)
}

/// The entries of all starts, which may contain several for one state.
///
/// # Errors
///
/// Out of memory.
fn all_entries(
    alloc: Global,
    leaf: &RunLeaf,
    table: &[Vec<Vec<KeptState>>],
    floors: &[Vec<i128>],
    last: u32,
) -> Result<Vec<KeptState>, Refused>
    requires last { IsCustomer leaf.now.nodes.now.nodes leaf.now.nodes.now.depot last }
    requires own { load_at leaf.now.nodes.now.loads.now last ≤ length table.now }
    requires few { length table.now ≤ leaf.now.nodes.now.room }
    requires sizes { AreSizedRows leaf.now.nodes.now.nodes table.now }
    requires floors { AreFloors table.now floors.now }
    ensures exact { IfOk result (λ entries. (near : ℕ → List ℕ) (rows : List (SubsetRow × ℤ)) → IsLeafOf leaf.now near rows
        → AreStateRows (rules_of leaf.now near rows) leaf.now.limit table.now
        → IsKeptListTo (rules_of leaf.now near rows) leaf.now.limit (length table.now) last leaf.now.nodes.now.nodes entries.items) }
    ensures sizes { IfOk result (λ entries. AreSizedEntries (length table.now) entries.items) }
{
    let mut entries = first_entries(alloc, leaf, last, table.len())?;
    'befores: for index in 0..leaf.nodes.nodes {
        add_from(alloc, leaf, table, floors, index + 1, last, &mut entries)?;
    }
    Ok(entries)
}

/// The entry of the start with one customer, if its load is this one.
///
/// # Errors
///
/// Out of memory.
fn first_entries(
    alloc: Global,
    leaf: &RunLeaf,
    last: u32,
    load: usize,
) -> Result<Vec<KeptState>, Refused>
    requires last { IsCustomer leaf.now.nodes.now.nodes leaf.now.nodes.now.depot last }
    requires load { load ≤ leaf.now.nodes.now.room }
    ensures exact { IfOk result (λ entries. (near : ℕ → List ℕ) (rows : List (SubsetRow × ℤ)) → IsLeafOf leaf.now near rows
        → IsKeptListTo (rules_of leaf.now near rows) leaf.now.limit load last 0 entries.items) }
    ensures sizes { IfOk result (λ entries. AreSizedEntries load entries.items) }
{
    let mut entries = Vec::new(alloc);
    if leaf.nodes.load(last) != load as u64 {
        return Ok(entries);
    }
    let Some(entry) = first_entry(leaf, last, leaf.nodes.room - load) else {
        return Ok(entries);
    };
    push(&mut entries, entry)?;
    Ok(entries)
}

/// Adds the entries that continue those of one previous customer.
///
/// # Errors
///
/// Out of memory.
fn add_from(
    alloc: Global,
    leaf: &RunLeaf,
    table: &[Vec<Vec<KeptState>>],
    floors: &[Vec<i128>],
    before: u32,
    last: u32,
    entries: &mut Vec<KeptState>,
) -> Result<(), Refused>
    requires before { IsNode leaf.now.nodes.now.nodes before }
    requires last { IsCustomer leaf.now.nodes.now.nodes leaf.now.nodes.now.depot last }
    requires own { load_at leaf.now.nodes.now.loads.now last ≤ length table.now }
    requires few { length table.now ≤ leaf.now.nodes.now.room }
    requires sizes { AreSizedRows leaf.now.nodes.now.nodes table.now }
    requires floors { AreFloors table.now floors.now }
    ensures exact { IfOk result (λ done. (near : ℕ → List ℕ) (rows : List (SubsetRow × ℤ)) → IsLeafOf leaf.now near rows
        → AreStateRows (rules_of leaf.now near rows) leaf.now.limit table.now
        → IsKeptListTo (rules_of leaf.now near rows) leaf.now.limit (length table.now) last (before - 1) entries.old.items
        → IsKeptListTo (rules_of leaf.now near rows) leaf.now.limit (length table.now) last before entries.new.items) }
    ensures sizes { IfOk result (λ done. AreSizedEntries (length table.now) entries.old.items
        → AreSizedEntries (length table.now) entries.new.items) }
{
    if before == leaf.nodes.depot {
        return Ok(());
    }
    if before == last {
        return Ok(());
    }
    let left = leaf.nodes.room - table.len();
    let serving = Serving {
        before,
        last,
        link: weight_in(leaf.nodes.row(before), last),
        left,
        home: home_at(leaf.homes, left, last),
    };
    let load = table.len() - leaf.nodes.load(last) as usize;
    let floor = floor_at(floors, load, before);
    let befores = list_at(table, load, before);
    add_nexts(alloc, leaf, serving, floor, befores, entries)?;
    Ok(())
}

/// The list of a load and a customer.
pub(crate) fn list_at(table: &[Vec<Vec<KeptState>>], load: usize, node: u32) -> &[KeptState]
    requires load { load < length table.now }
    requires node { node < length (item_lists (slice_index_or (item_lists table.now) load [])) }
    ensures { result.now ≡ list_in table.now load node }
{
    table[load][node as usize].as_slice()
}

// ---- floors

/// The floor of each list.
///
/// # Errors
///
/// Out of memory.
fn floors_of(alloc: Global, lists: &[Vec<KeptState>]) -> Result<Vec<i128>, Refused>
    ensures { IfOk result (λ floors. IsFloorRow (item_lists lists.now) floors.items) }
{
    let mut floors = with_capacity(alloc, lists.len())?;
    'lists: for index in 0..lists.len() {
        push(&mut floors, floor_of(lists[index].as_slice()))?;
    }
    Ok(floors)
}

/// The least weight of a list; the largest number if the list is empty.
fn floor_of(entries: &[KeptState]) -> i128
    ensures { IsFloor entries.now result }
{
    let mut floor = i128::MAX;
    'entries: for index in 0..entries.len() {
        floor = lesser(floor, entry_at(entries, index).weight);
    }
    floor
}

/// The smaller of two weights.
#[inline]
fn lesser(a: i128, b: i128) -> i128
    ensures { (result ≤ℤ a) × (result ≤ℤ b) }
{
    if a < b { a } else { b }
}

/// The floor of the list of a load and a customer.
#[inline]
fn floor_at(floors: &[Vec<i128>], load: usize, node: u32) -> i128
    requires load { load < length floors.now }
    requires node { node < length (slice_index_or (item_lists floors.now) load []) }
    ensures { result ≡ floor_in floors.now load node }
{
    floors[load][node as usize]
}

// ---- the lightest entries

/// The lightest entry for each memory, sorted by memory.
///
/// # Errors
///
/// Out of memory.
fn least_of(alloc: Global, entries: Vec<KeptState>) -> Result<Vec<KeptState>, Refused>
    ensures least { IfOk result (λ least. AreLeastOf entries.items least.items) }
    ensures rising { IfOk result (λ least. AreRising least.items) }
{
    let mut sorted = entries;
    sorted.sort_unstable_by_key(|entry| entry.word);
    let least = least_in(alloc, &sorted)?;
    Ok(least)
}

/// The lightest entry for each memory, of entries that are sorted by memory.
///
/// # Errors
///
/// Out of memory.
fn least_in(alloc: Global, entries: &[KeptState]) -> Result<Vec<KeptState>, Refused>
    requires order { AreInOrder entries.now }
    ensures least { IfOk result (λ least. AreLeastOf entries.now least.items) }
    ensures rising { IfOk result (λ least. AreRising least.items) }
{
    let mut least = Vec::new(alloc);
    'entries: for index in 0..entries.len() {
        add_least(&mut least, entry_at(entries, index))?;
    }
    Ok(least)
}

/// Adds an entry. If the last one has the same memory, only the lighter of the two stays.
///
/// # Errors
///
/// Out of memory.
fn add_least(least: &mut Vec<KeptState>, entry: KeptState) -> Result<(), Refused>
    ensures { IfOk result (λ done. IsLeastAdded least.old.items entry least.new.items) }
{
    if !ends_with_memory(least, entry) {
        return push(least, entry);
    }
    let last = least.len() - 1;
    if entry.weight < entry_at(least, last).weight {
        least[last] = entry;
    }
    Ok(())
}

/// Whether the last entry of a list has the same memory as `entry`.
fn ends_with_memory(least: &[KeptState], entry: KeptState) -> bool
    ensures { IsTrue result ↔ EndsWithMemory least.now entry }
{
    if least.is_empty() {
        return false;
    }
    entry_at(least, least.len() - 1).word == entry.word
}
