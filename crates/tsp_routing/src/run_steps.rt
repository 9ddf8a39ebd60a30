//! The steps of label setting: the entry of the first customer of a route, and the entries of all
//! states that continue those of a list. `kept_states.rt` calls them. `MayServe` and `next_state`
//! in `specs/Runs.antt` pin the rules of a step.
//!
//! For speed, a list is skipped if not even its floor can stay below the limit, and a step is put
//! into a table that serves all states of a list: which bits of the memory it passes on, and to
//! where, which of them it flips, and for which it pays. By `IsTableOf` in
//! `specs/states/MemoryTables.antt`, the table does the same as the keys one by one. A leaf with few
//! nodes keeps the tables of all steps for all loads.

ghost use Rattle.std.specs.Prelude.{◌≡◌, ◌≤◌, ◌+◌, ◌*◌, ◌^◌, ◌≢◌, ◌<◌, ◌+ℤ◌, ◌≤ℤ◌, ◌<ℤ◌, ◌++◌, ◌∷◌, ◌-ℤ◌, ◌-◌, ◌%◌, if◌then◌else◌};
ghost use Rattle.tsp_format.specs.Steps.{SubsetRow};
ghost use Rattle.tsp_routing.specs.Memories.{Remembers, memory_word};
ghost use Rattle.tsp_routing.specs.PlanBounds.{most_link, most_capacity_in_parts};
ghost use Rattle.tsp_routing.specs.Prelude.{ℕ, ℤ, List, pos, neg_ℤ, IfSome, IsFromTo, IsCustomer, IsNode, true, false, length, slice_index_or, [], IfOk, All, Bool, map};
ghost use Rattle.tsp_routing.specs.Runs.{RunState};
ghost use Rattle.tsp_routing.specs.states.Demands.{load_at};
ghost use Rattle.tsp_routing.specs.states.KeptLists.{rules_of, IsLeafOf, IsFirstEntry, steps_in, IsNextEntry, AddsOne, AddsNexts, AreSizedEntries, IsFloor};
ghost use Rattle.tsp_routing.specs.states.MemoryTables.{AreStepTables, AreTablesFrom, IsTableOf, word_after, charge_after, flips_of, told_before, passed_word};
ghost use Rattle.tsp_routing.specs.states.RunTables.{link_in, home_in, item_lists};

use crate::kept_states::KeptState;
use crate::memories::{Memories, PassedKey, StepKey, has_bit, with_bit};
use crate::run_leaf::{RunLeaf, home_at};
use std::alloc::Global;
use tsp_io::{Refused, push, with_capacity};
use tsp_theory::weight_in;

/// The entry after a first customer, if the route can carry `left` more; `None` if no way home
/// ends below the limit.
pub(crate) fn first_entry(leaf: &RunLeaf, first: u32, left: usize) -> Option<KeptState>
    requires first { IsCustomer leaf.now.nodes.now.nodes leaf.now.nodes.now.depot first }
    requires left { left ≤ leaf.now.nodes.now.room }
    ensures exact { (near : ℕ → List ℕ) (rows : List (SubsetRow × ℤ)) → IsLeafOf leaf.now near rows
        → load_at leaf.now.nodes.now.loads.now first + left ≡ leaf.now.nodes.now.room
        → IsFirstEntry (rules_of leaf.now near rows) leaf.now.limit first result }
    ensures size { IfSome result (λ entry. IsFromTo (neg_ℤ (pos most_link)) (pos most_link) entry.weight) }
{
    let home = home_at(leaf.homes, left, first);
    let weight = i128::from(weight_in(leaf.nodes.row(leaf.nodes.depot), first));
    if !is_below(leaf.limit, weight, home) {
        return None;
    }
    let word = leaf.memories.first(first);
    Some(KeptState { word, weight })
}

// ---- from the entry of a state to that of the next one

/// A customer that is served next, the weight of the link to it, what the route can still carry
/// then, and the weight of the cheapest way home from there.
#[derive(Clone, Copy)]
pub(crate) struct Serving {
    pub(crate) before: u32,
    pub(crate) last: u32,
    pub(crate) link: i64,
    pub(crate) left: usize,
    pub(crate) home: i128,
}

/// The entry of the next state; `None` if the run remembers the customer, or if no way home
/// ends below the limit.
fn next_entry(
    leaf: &RunLeaf,
    serving: Serving,
    table: &StepTable,
    entry: KeptState,
) -> Option<KeptState>
    requires before { IsCustomer leaf.now.nodes.now.nodes leaf.now.nodes.now.depot serving.before }
    requires last { IsCustomer leaf.now.nodes.now.nodes leaf.now.nodes.now.depot serving.last }
    requires other { serving.before ≢ serving.last }
    requires link { serving.link ≡ link_in leaf.now.nodes.now.rows.now serving.before serving.last }
    requires left { serving.left ≤ leaf.now.nodes.now.room }
    requires home { serving.home ≡ home_in leaf.now.homes.now serving.left serving.last }
    requires table { IsTableOf (steps_in leaf.now serving.before serving.last) table.now }
    requires size { IsFromTo (neg_ℤ (pos (2 ^ 96))) (pos (2 ^ 96)) entry.weight }
    ensures exact { (near : ℕ → List ℕ) (rows : List (SubsetRow × ℤ)) (state : RunState) → IsLeafOf leaf.now near rows
        → Remembers (rules_of leaf.now near rows) state entry.word → state.last ≡ serving.before
        → state.load + load_at leaf.now.nodes.now.loads.now serving.last + serving.left ≡ leaf.now.nodes.now.room
        → IsNextEntry (rules_of leaf.now near rows) leaf.now.limit state entry.weight serving.last result }
    ensures size { IfSome result (λ next. IsFromTo (entry.weight +ℤ neg_ℤ (pos (2 ^ 72))) (entry.weight +ℤ pos (2 ^ 72)) next.weight) }
{
    if leaf
        .memories
        .tells(serving.before, entry.word, serving.last)
    {
        return None;
    }
    let charge = step_charge(table, entry.word);
    let weight = weight_after(entry.weight, serving.link, charge);
    if !is_below(leaf.limit, weight, serving.home) {
        return None;
    }
    let word = step_word(table, entry.word);
    Some(KeptState { word, weight })
}

/// The weight after a link, with what the step pays.
#[inline]
fn weight_after(weight: i128, link: i64, charge: i128) -> i128
    requires weight { IsFromTo (neg_ℤ (pos (2 ^ 96))) (pos (2 ^ 96)) weight }
    requires link { IsFromTo (neg_ℤ (pos most_link)) (pos most_link) link }
    requires charge { IsFromTo (neg_ℤ (pos (2 ^ 70))) (pos (2 ^ 70)) charge }
    ensures value { result ≡ weight +ℤ (link +ℤ charge) }
    ensures size { IsFromTo (weight +ℤ neg_ℤ (pos (2 ^ 72))) (weight +ℤ pos (2 ^ 72)) result }
{
    weight + i128::from(link) + charge
}

/// Whether a weight plus that of the way home is below the limit.
#[inline]
fn is_below(limit: i128, weight: i128, home: i128) -> bool
    requires weight { IsFromTo (neg_ℤ (pos (2 ^ 97))) (pos (2 ^ 97)) weight }
    requires home { IsFromTo (neg_ℤ (pos (2 ^ 97))) (pos (2 ^ 97)) home }
    ensures below { result ≡ true → (weight +ℤ home) <ℤ limit }
    ensures beyond { result ≡ false → limit ≤ℤ (weight +ℤ home) }
{
    weight + home < limit
}

// ---- from all entries of a list to the next ones

/// Adds the entries of the states that continue those of one list, none of which weighs less than
/// `floor`.
///
/// # Errors
///
/// Out of memory.
pub(crate) fn add_nexts(
    alloc: Global,
    leaf: &RunLeaf,
    serving: Serving,
    floor: i128,
    befores: &[KeptState],
    entries: &mut Vec<KeptState>,
) -> Result<(), Refused>
    requires before { IsCustomer leaf.now.nodes.now.nodes leaf.now.nodes.now.depot serving.before }
    requires last { IsCustomer leaf.now.nodes.now.nodes leaf.now.nodes.now.depot serving.last }
    requires other { serving.before ≢ serving.last }
    requires link { serving.link ≡ link_in leaf.now.nodes.now.rows.now serving.before serving.last }
    requires left { serving.left ≤ leaf.now.nodes.now.room }
    requires home { serving.home ≡ home_in leaf.now.homes.now serving.left serving.last }
    requires floor { IsFloor befores.now floor }
    requires sizes { (load : ℕ) × (load < 2 ^ 23) × AreSizedEntries load befores.now }
    ensures adds { IfOk result (λ done. (near : ℕ → List ℕ) (rows : List (SubsetRow × ℤ)) (load : ℕ) → IsLeafOf leaf.now near rows
        → load + load_at leaf.now.nodes.now.loads.now serving.last + serving.left ≡ leaf.now.nodes.now.room
        → AddsNexts (rules_of leaf.now near rows) leaf.now.limit load serving.before serving.last befores.now
        entries.old.items entries.new.items) }
    ensures sizes { IfOk result (λ done. (load next : ℕ) → load < next → AreSizedEntries load befores.now
        → AreSizedEntries next entries.old.items → AreSizedEntries next entries.new.items) }
{
    let most = most_before(leaf.limit, serving);
    if !is_light(floor, most) {
        return Ok(());
    }
    add_light(alloc, leaf, serving, most, befores, entries)
}

/// Adds the entries of the states that continue those of one list. Only states that weigh less than
/// `most` have any.
///
/// # Errors
///
/// Out of memory.
fn add_light(
    alloc: Global,
    leaf: &RunLeaf,
    serving: Serving,
    most: i128,
    befores: &[KeptState],
    entries: &mut Vec<KeptState>,
) -> Result<(), Refused>
    requires before { IsCustomer leaf.now.nodes.now.nodes leaf.now.nodes.now.depot serving.before }
    requires last { IsCustomer leaf.now.nodes.now.nodes leaf.now.nodes.now.depot serving.last }
    requires other { serving.before ≢ serving.last }
    requires link { serving.link ≡ link_in leaf.now.nodes.now.rows.now serving.before serving.last }
    requires left { serving.left ≤ leaf.now.nodes.now.room }
    requires home { serving.home ≡ home_in leaf.now.homes.now serving.left serving.last }
    requires sizes { (load : ℕ) × (load < 2 ^ 23) × AreSizedEntries load befores.now }
    requires most { most ≡ (leaf.now.limit -ℤ serving.link) -ℤ serving.home }
    ensures adds { IfOk result (λ done. (near : ℕ → List ℕ) (rows : List (SubsetRow × ℤ)) (load : ℕ) → IsLeafOf leaf.now near rows
        → load + load_at leaf.now.nodes.now.loads.now serving.last + serving.left ≡ leaf.now.nodes.now.room
        → AddsNexts (rules_of leaf.now near rows) leaf.now.limit load serving.before serving.last befores.now
        entries.old.items entries.new.items) }
    ensures sizes { IfOk result (λ done. (load next : ℕ) → load < next → AreSizedEntries load befores.now
        → AreSizedEntries next entries.old.items → AreSizedEntries next entries.new.items) }
{
    if serving.before as usize <= leaf.steps.len() {
        let table = table_at(leaf.steps, serving.before, serving.last);
        return add_by_table(leaf, serving, table, most, befores, entries);
    }
    let steps = leaf
        .memories
        .steps(alloc, leaf.charges, serving.before, serving.last)?;
    let table = step_table(alloc, &steps)?;
    add_by_table(leaf, serving, &table, most, befores, entries)
}

/// Adds the entries as `add_light` does, by the table of the step.
///
/// # Errors
///
/// Out of memory.
fn add_by_table(
    leaf: &RunLeaf,
    serving: Serving,
    table: &StepTable,
    most: i128,
    befores: &[KeptState],
    entries: &mut Vec<KeptState>,
) -> Result<(), Refused>
    requires before { IsCustomer leaf.now.nodes.now.nodes leaf.now.nodes.now.depot serving.before }
    requires last { IsCustomer leaf.now.nodes.now.nodes leaf.now.nodes.now.depot serving.last }
    requires other { serving.before ≢ serving.last }
    requires link { serving.link ≡ link_in leaf.now.nodes.now.rows.now serving.before serving.last }
    requires left { serving.left ≤ leaf.now.nodes.now.room }
    requires home { serving.home ≡ home_in leaf.now.homes.now serving.left serving.last }
    requires sizes { (load : ℕ) × (load < 2 ^ 23) × AreSizedEntries load befores.now }
    requires table { IsTableOf (steps_in leaf.now serving.before serving.last) table.now }
    requires most { most ≡ (leaf.now.limit -ℤ serving.link) -ℤ serving.home }
    ensures adds { IfOk result (λ done. (near : ℕ → List ℕ) (rows : List (SubsetRow × ℤ)) (load : ℕ) → IsLeafOf leaf.now near rows
        → load + load_at leaf.now.nodes.now.loads.now serving.last + serving.left ≡ leaf.now.nodes.now.room
        → AddsNexts (rules_of leaf.now near rows) leaf.now.limit load serving.before serving.last befores.now
        entries.old.items entries.new.items) }
    ensures sizes { IfOk result (λ done. (load next : ℕ) → load < next → AreSizedEntries load befores.now
        → AreSizedEntries next entries.old.items → AreSizedEntries next entries.new.items) }
{
    'befores: for index in 0..befores.len() {
        let entry = entry_at(befores, index);
        add_next(leaf, serving, table, most, entry, entries)?;
    }
    Ok(())
}

/// An entry of a list.
#[inline]
pub(crate) fn entry_at(entries: &[KeptState], index: usize) -> KeptState
    requires { index < length entries.now }
    ensures { result ≡ slice_index_or entries.now index result }
{
    entries[index]
}

/// The weight from which on no way home ends below the limit, even if the step pays nothing.
fn most_before(limit: i128, serving: Serving) -> i128
    requires limit { IsFromTo (neg_ℤ (pos (2 ^ 90))) (pos (2 ^ 90)) limit }
    requires link { IsFromTo (neg_ℤ (pos most_link)) (pos most_link) serving.link }
    requires home { IsFromTo (neg_ℤ (pos (2 ^ 97))) (pos (2 ^ 97)) serving.home }
    ensures { result ≡ (limit -ℤ serving.link) -ℤ serving.home }
{
    limit - i128::from(serving.link) - serving.home
}

/// Whether a weight is less than this.
#[inline]
fn is_light(weight: i128, most: i128) -> bool
    ensures { result ≡ false → most ≤ℤ weight }
{
    weight < most
}

/// Adds the entry of the next state, if there is one. (Most entries weigh too much.)
///
/// # Errors
///
/// Out of memory.
fn add_next(
    leaf: &RunLeaf,
    serving: Serving,
    table: &StepTable,
    most: i128,
    before: KeptState,
    entries: &mut Vec<KeptState>,
) -> Result<(), Refused>
    requires before { IsCustomer leaf.now.nodes.now.nodes leaf.now.nodes.now.depot serving.before }
    requires last { IsCustomer leaf.now.nodes.now.nodes leaf.now.nodes.now.depot serving.last }
    requires other { serving.before ≢ serving.last }
    requires link { serving.link ≡ link_in leaf.now.nodes.now.rows.now serving.before serving.last }
    requires left { serving.left ≤ leaf.now.nodes.now.room }
    requires home { serving.home ≡ home_in leaf.now.homes.now serving.left serving.last }
    requires table { IsTableOf (steps_in leaf.now serving.before serving.last) table.now }
    requires most { most ≡ (leaf.now.limit -ℤ serving.link) -ℤ serving.home }
    requires size { IsFromTo (neg_ℤ (pos (2 ^ 96))) (pos (2 ^ 96)) before.weight }
    ensures adds { IfOk result (λ done. (near : ℕ → List ℕ) (rows : List (SubsetRow × ℤ)) (state : RunState) → IsLeafOf leaf.now near rows
        → Remembers (rules_of leaf.now near rows) state before.word → state.last ≡ serving.before
        → state.load + load_at leaf.now.nodes.now.loads.now serving.last + serving.left ≡ leaf.now.nodes.now.room
        → AddsOne (rules_of leaf.now near rows) leaf.now.limit state before.weight serving.last entries.old.items entries.new.items) }
    ensures grows { IfOk result (λ done. (more : List KeptState) × (entries.new.items ≡ entries.old.items ++ more)
        × All (λ next. IsFromTo (before.weight +ℤ neg_ℤ (pos (2 ^ 72))) (before.weight +ℤ pos (2 ^ 72)) next.weight) more) }
{
    if !is_light(before.weight, most) {
        return Ok(());
    }
    let Some(next) = next_entry(leaf, serving, table, before) else {
        return Ok(());
    };
    push(entries, next)?;
    Ok(())
}

// ---- a step as a table

/// A step: a word of the bits that it flips, the keys that it passes on, and those for which it
/// pays.
#[derive(Drop)]
pub(crate) struct StepTable {
    pub(crate) flips: u64,
    pub(crate) passed: Vec<PassedKey>,
    pub(crate) paid: Vec<StepKey>,
}

/// The most tables of steps that a leaf keeps. A table takes about 2 kB at most.
const MOST_TABLES: usize = 100_000;

/// The tables of the steps from the first customers to each node: a row for each of them, with the
/// table of the step to node j at place j - 1.
///
/// # Errors
///
/// If memory runs out. It allocates an entry for each table, and for each key that a step passes on
/// or pays for.
pub(crate) fn step_tables(
    alloc: Global,
    memories: &Memories,
    charges: &[i64],
) -> Result<Vec<Vec<StepTable>>, Refused>
    requires charges { length charges.now ≡ memories.now.count }
    ensures { IfOk result (λ rows. AreStepTables memories.now.nodes memories.now.keys.items memories.now.places.items charges.now rows.items) }
{
    let mut rows = Vec::new(alloc);
    'nodes: for index in 0..rows_kept(memories.nodes) {
        let row = tables_from(alloc, memories, charges, index + 1)?;
        push(&mut rows, row)?;
    }
    Ok(rows)
}

/// How many rows a leaf keeps: all or none.
fn rows_kept(nodes: u32) -> u32
    ensures { result ≤ nodes }
{
    if nodes as usize * nodes as usize <= MOST_TABLES {
        return nodes;
    }
    0
}

/// The tables of the steps from a node to each node.
///
/// # Errors
///
/// Out of memory.
fn tables_from(
    alloc: Global,
    memories: &Memories,
    charges: &[i64],
    before: u32,
) -> Result<Vec<StepTable>, Refused>
    requires charges { length charges.now ≡ memories.now.count }
    requires before { IsNode memories.now.nodes before }
    ensures { IfOk result (λ row. AreTablesFrom memories.now.nodes memories.now.keys.items memories.now.places.items charges.now before row.items) }
{
    let mut row = with_capacity(alloc, memories.nodes as usize)?;
    'nodes: for index in 0..memories.nodes {
        let steps = memories.steps(alloc, charges, before, index + 1)?;
        let table = step_table(alloc, &steps)?;
        push(&mut row, table)?;
    }
    Ok(row)
}

/// The table of the step from one node to another.
#[inline]
fn table_at(rows: &[Vec<StepTable>], before: u32, last: u32) -> &StepTable
    requires before { (1 ≤ before) × (before ≤ length rows.now) }
    requires last { (1 ≤ last) × (last ≤ length (slice_index_or (item_lists rows.now) (before - 1) [])) }
    ensures { (default : StepTable) → result.now ≡ slice_index_or (slice_index_or (item_lists rows.now) (before - 1) []) (last - 1) default }
{
    &rows[before as usize - 1][last as usize - 1]
}

/// The table of what a step does to each key.
///
/// # Errors
///
/// Out of memory.
fn step_table(alloc: Global, steps: &[StepKey]) -> Result<StepTable, Refused>
    requires { length steps.now ≤ 64 }
    ensures { IfOk result (IsTableOf steps.now) }
{
    let flips = flips_of(steps);
    let passed = passed_keys(alloc, steps)?;
    let paid = paid_keys(alloc, steps)?;
    Ok(StepTable {
        flips,
        passed,
        paid,
    })
}

/// The bits that the step flips.
fn flips_of(steps: &[StepKey]) -> u64
    requires { length steps.now ≤ 64 }
    ensures { result ≡ memory_word (flips_of steps.now) }
{
    let mut word = 0;
    'bits: for index in 0..steps.len() {
        let key = step_from_last(steps, index);
        word = with_bit(word, key.flips);
    }
    word
}

/// The key this many places before the last one.
#[inline]
fn step_from_last(steps: &[StepKey], back: usize) -> StepKey
    requires { back < length steps.now }
    ensures { (default : StepKey) → result ≡ slice_index_or steps.now (length steps.now - 1 - back) default }
{
    steps[steps.len() - 1 - back]
}

/// A key of a list.
#[inline]
fn step_at(steps: &[StepKey], index: usize) -> StepKey
    requires { index < length steps.now }
    ensures { (default : StepKey) → result ≡ slice_index_or steps.now index default }
{
    steps[index]
}

/// The keys that the previous customer keeps, too.
///
/// # Errors
///
/// Out of memory.
fn passed_keys(alloc: Global, steps: &[StepKey]) -> Result<Vec<PassedKey>, Refused>
    requires { length steps.now ≤ 64 }
    ensures { IfOk result (λ passed. (bits : List Bool) → length bits ≤ 64
        → passed_word passed.items bits ≡ memory_word (told_before steps.now bits)) }
{
    let mut passed = Vec::new(alloc);
    'keys: for index in 0..steps.len() {
        add_passed(&mut passed, step_at(steps, index), index)?;
    }
    Ok(passed)
}

/// Adds the key with the bit `index` after the step, if it has a bit before the step.
///
/// # Errors
///
/// Out of memory.
#[inline]
fn add_passed(passed: &mut Vec<PassedKey>, key: StepKey, index: usize) -> Result<(), Refused>
    requires { index < 64 }
    ensures { IfOk result (λ done. (bits : List Bool) → length bits ≤ 64 → passed_word passed.new.items bits
        ≡ passed_word passed.old.items bits + (if slice_index_or bits key.place false then 2 ^ index else 0)) }
{
    if key.place >= 64 {
        return Ok(());
    }
    let mask = mask_at(index);
    push(
        passed,
        PassedKey {
            place: key.place,
            mask,
        },
    )?;
    Ok(())
}

/// A word with only this bit.
#[inline]
fn mask_at(index: usize) -> u64
    requires { index < 64 }
    ensures { result ≡ 2 ^ index }
{
    1u64 << index
}

/// The keys for which the step pays.
///
/// # Errors
///
/// Out of memory.
fn paid_keys(alloc: Global, steps: &[StepKey]) -> Result<Vec<StepKey>, Refused>
    ensures charge { IfOk result (λ paid. (bits : List Bool) → length bits ≤ 64
        → charge_after paid.items bits ≡ charge_after steps.now bits) }
    ensures few { IfOk result (λ paid. length paid.items ≤ length steps.now) }
{
    let mut paid = Vec::new(alloc);
    'keys: for index in 0..steps.len() {
        add_paid(&mut paid, step_at(steps, index))?;
    }
    Ok(paid)
}

/// Adds a key, if the step can pay for it.
///
/// # Errors
///
/// Out of memory.
#[inline]
fn add_paid(paid: &mut Vec<StepKey>, key: StepKey) -> Result<(), Refused>
    ensures charge { IfOk result (λ done. (bits : List Bool) → length bits ≤ 64 → charge_after paid.new.items bits
        ≡ charge_after paid.old.items bits +ℤ (if slice_index_or bits key.place false then key.charge else pos 0)) }
    ensures few { IfOk result (λ done. length paid.new.items ≤ length paid.old.items + 1) }
{
    if key.place >= 64 {
        return Ok(());
    }
    if key.charge == 0 {
        return Ok(());
    }
    push(paid, key)?;
    Ok(())
}

// ---- a step by its table

/// The memory after a step.
fn step_word(table: &StepTable, word: u64) -> u64
    ensures { (steps : List StepKey) (bits : List Bool) → IsTableOf steps table.now → length bits ≤ 64
        → word ≡ memory_word bits → result ≡ word_after steps bits }
{
    told_word(&table.passed, word) ^ table.flips
}

/// The bits after a step whose keys were set before it.
fn told_word(passed: &[PassedKey], word: u64) -> u64
    ensures { (bits : List Bool) → length bits ≤ 64 → word ≡ memory_word bits
        → result ≡ passed_word passed.now bits % 2 ^ 64 }
{
    let mut told: u64 = 0;
    'keys: for index in 0..passed.len() {
        let key = passed_at(passed, index);
        told = with_mask(told, key.mask, bit_of(word, key.place));
    }
    told
}

/// A key of a list.
#[inline]
fn passed_at(passed: &[PassedKey], index: usize) -> PassedKey
    requires { index < length passed.now }
    ensures { (default : PassedKey) → result ≡ slice_index_or passed.now index default }
{
    passed[index]
}

/// The bit of a word at a place, as a number; 0 from place 64 on. It doesn't branch on the bit,
/// because the processor would often guess it wrong.
#[inline]
fn bit_of(word: u64, place: u8) -> u64
    ensures { (bits : List Bool) → length bits ≤ 64 → word ≡ memory_word bits
        → result ≡ (if slice_index_or bits place false then 1 else 0) }
{
    (word >> (place as u32 % 64)) & u64::from(place < 64)
}

/// A word with one more bit, if the key was set: `bit` is 1 or 0.
#[inline]
fn with_mask(word: u64, mask: u64, bit: u64) -> u64
    ensures { (is_told : Bool) → bit ≡ (if is_told then 1 else 0) → result ≡ (word + (if is_told then mask else 0)) % 2 ^ 64 }
{
    word.wrapping_add(mask.wrapping_mul(bit))
}

/// What a step pays.
fn step_charge(table: &StepTable, word: u64) -> i128
    requires { length table.now.paid.items ≤ 64 }
    ensures charge { (steps : List StepKey) (bits : List Bool) → IsTableOf steps table.now → length bits ≤ 64
        → word ≡ memory_word bits → result ≡ charge_after steps bits }
    ensures size { IsFromTo (neg_ℤ (pos (2 ^ 70))) (pos (2 ^ 70)) result }
{
    charge_of_paid(&table.paid, word)
}

/// What all set keys cost.
fn charge_of_paid(paid: &[StepKey], word: u64) -> i128
    requires { length paid.now ≤ 64 }
    ensures charge { (bits : List Bool) → length bits ≤ 64 → word ≡ memory_word bits → result ≡ charge_after paid.now bits }
    ensures size { IsFromTo (neg_ℤ (pos (2 ^ 70))) (pos (2 ^ 70)) result }
{
    let mut charge = 0;
    'keys: for index in 0..paid.len() {
        let key = step_at(paid, index);
        charge = with_charge(charge, key, has_bit(word, key.place));
    }
    charge
}

/// A sum plus the charge of one key, if that is set.
#[inline]
fn with_charge(sum: i128, key: StepKey, is_told: bool) -> i128
    requires { IsFromTo (neg_ℤ (pos (2 ^ 70))) (pos (2 ^ 70)) sum }
    ensures value { result ≡ sum +ℤ (if is_told then key.charge else pos 0) }
    ensures size { IsFromTo (sum -ℤ pos (2 ^ 63)) (sum +ℤ pos (2 ^ 63)) result }
{
    sum + if is_told { i128::from(key.charge) } else { 0 }
}
