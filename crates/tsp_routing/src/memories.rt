//! What a run remembers at each customer, as words of 64 bits. `run_verdict.rt` makes the tables
//! once for all leaves, from a certificate's lists and subset rows, and `run_steps.rt` reads them.
//! `Remembers` in `specs/Memories.antt` pins what each bit means.

ghost use Rattle.std.specs.Prelude.{◌≡◌, ◌≤◌, ◌<◌, ◌+◌, ◌-◌, ◌*◌, ◌^◌, ℕ, ℤ, List, Bool, length, slice_index_or, true, false, pos, if◌then◌else◌, ◌++◌, ◌∷◌};
ghost use Rattle.tsp_format.specs.Steps.{SubsetRow};
ghost use Rattle.tsp_format.specs.states.TreeSteps.{subset_row_of};
ghost use Rattle.tsp_routing.specs.Memories.{memory_word, charge_of, AreMemories};
ghost use Rattle.tsp_routing.specs.Prelude.{[], map, IfOk, Vec, All, most_nodes, IsNode, has};
ghost use Rattle.tsp_routing.specs.Runs.{keeps};
ghost use Rattle.tsp_routing.specs.states.MemoryTables.{near_in, free_rows, key_of_node, kept_keys, AreKeysOf, ArePlacesTo, step_key_of, AreMemoryTables, IsKeyIn, AreMemoriesOf};
ghost use Rattle.tsp_routing.specs.states.RunTables.{rules_by};

use std::alloc::Global;
use tsp_format::RowSets;
use tsp_io::{Refused, filled, push, with_capacity};

/// What a memory has a bit for: a customer, or the parity of a subset row. Row j of n nodes has the
/// key n + j.
#[derive(Clone, Copy)]
pub(crate) struct MemoryKey {
    pub(crate) key: u32,
    /// Whether it is a row whose set contains the customer that keeps it.
    pub(crate) is_member: bool,
}

/// A key of a customer, and where its bit is before the step to the customer. If the previous
/// customer doesn't keep the key, there is no such bit, and it counts as unset.
#[derive(Clone, Copy)]
pub(crate) struct StepKey {
    /// The bit of the key in the memory before the step; 64 if it isn't read.
    pub(crate) place: u8,
    /// Whether the step flips the bit.
    pub(crate) flips: bool,
    /// What the step pays if the bit is set.
    pub(crate) charge: i64,
}

/// A key that both customers of a step keep.
#[derive(Clone, Copy)]
pub(crate) struct PassedKey {
    /// The bit of the key in the memory before the step.
    pub(crate) place: u8,
    /// A word with the bit that the key has after the step.
    pub(crate) mask: u64,
}

// ---- the words of memories

/// Which keys each of the nodes 1 to `nodes` keeps, and the bit of each key at each node (64 if the
/// node doesn't keep it). There are `count` rows. Place 0 of the lists is unused.
#[derive(Drop)]
pub(crate) struct Memories {
    pub(crate) nodes: u32,
    pub(crate) count: u32,
    pub(crate) keys: Vec<Vec<MemoryKey>>,
    pub(crate) places: Vec<Vec<u8>>,
    ghost tables: { AreMemoryTables nodes count keys.items places.items },
}

impl Memories {
    ghost use Rattle.tsp_routing.specs.Prelude.{map, length, IfOk, IsNode};
    ghost use Rattle.std.specs.Prelude.{◌≡◌, ◌≤◌, ◌+◌};
    ghost use Rattle.tsp_routing.specs.Runs.{RunRules, RunState, first_state};
    ghost use Rattle.tsp_routing.specs.Memories.{told, Remembers};
    ghost use Rattle.tsp_routing.specs.states.MemoryTables.{keys_in, key_places_in, key_place_in, AreMemoriesOf};
    ghost use Rattle.tsp_routing.specs.states.MemoryTables.{step_key_of};

    /// The keys that a customer keeps.
    fn keys(&self, customer: u32) -> &[MemoryKey]
        requires { IsNode self.now.nodes customer }
        ensures { result.now ≡ keys_in self.now.keys.items customer }
    {
        self.keys[customer as usize].as_slice()
    }

    /// The bit of a key in the memories of a customer.
    #[inline]
    fn place(&self, customer: u32, key: u32) -> u8
        requires customer { IsNode self.now.nodes customer }
        requires key { key ≤ self.now.nodes + self.now.count }
        ensures { result ≡ key_place_in self.now.places.items customer key }
    {
        self.places(customer)[key as usize]
    }

    /// The bits of all keys in the memories of a customer.
    fn places(&self, customer: u32) -> &[u8]
        requires { IsNode self.now.nodes customer }
        ensures { result.now ≡ key_places_in self.now.places.items customer }
    {
        self.places[customer as usize].as_slice()
    }

    /// Whether a memory at a customer has seen another customer, or is odd at a row.
    #[inline]
    pub(crate) fn tells(&self, last: u32, word: u64, key: u32) -> bool
        requires last { IsNode self.now.nodes last }
        requires key { key ≤ self.now.nodes + self.now.count }
        ensures { (rules : RunRules) (state : RunState) → rules.nodes ≡ self.now.nodes
            → AreMemoriesOf rules self.now.count self.now.keys.items self.now.places.items
            → Remembers rules state word → state.last ≡ last → result ≡ told rules.nodes rules.rows state key }
    {
        has_bit(word, self.place(last, key))
    }

    /// The memory after the first customer of a run.
    pub(crate) fn first(&self, customer: u32) -> u64
        requires { IsNode self.now.nodes customer }
        ensures { (rules : RunRules) → rules.nodes ≡ self.now.nodes
            → AreMemoriesOf rules self.now.count self.now.keys.items self.now.places.items
            → Remembers rules (first_state rules customer) result }
    {
        let keys = self.keys(customer);
        let mut word = 0;
        'bits: for index in 0..keys.len() {
            let key = key_from_last(keys, index);
            word = with_bit(word, key.is_member);
        }
        word
    }

    /// What a step from one customer to another does to each key.
    ///
    /// # Errors
    ///
    /// Out of memory.
    pub(crate) fn steps(
        &self,
        alloc: Global,
        charges: &[i64],
        last: u32,
        next: u32,
    ) -> Result<Vec<StepKey>, Refused>
        requires charges { length charges.now ≡ self.now.count }
        requires last { IsNode self.now.nodes last }
        requires next { IsNode self.now.nodes next }
        ensures { IfOk result (λ steps. steps.items ≡ map (step_key_of self.now.nodes charges.now
            (key_places_in self.now.places.items last) last) (keys_in self.now.keys.items next)) }
    {
        let keys = self.keys(next);
        let places = self.places(last);
        let mut steps = with_capacity(alloc, keys.len())?;
        'keys: for index in 0..keys.len() {
            let key = step_key(self.nodes, charges, places, last, key_at(keys, index));
            push(&mut steps, key)?;
        }
        Ok(steps)
    }
}

/// A key of a list.
#[inline]
fn key_at(keys: &[MemoryKey], index: usize) -> MemoryKey
    requires { index < length keys.now }
    ensures { (default : MemoryKey) → result ≡ slice_index_or keys.now index default }
{
    keys[index]
}

/// What a step does to a key.
#[inline]
fn step_key(nodes: u32, charges: &[i64], places: &[u8], last: u32, key: MemoryKey) -> StepKey
    requires key { IsKeyIn nodes (length charges.now) key }
    requires places { length places.now ≡ nodes + length charges.now + 1 }
    ensures { result ≡ step_key_of nodes charges.now places.now last key }
{
    let is_last = key.key == last;
    StepKey {
        place: if is_last {
            64
        } else {
            places[key.key as usize]
        },
        flips: is_last || key.is_member,
        charge: charge_in(nodes, charges, key),
    }
}

/// What a step pays for a key whose bit is set.
#[inline]
fn charge_in(nodes: u32, charges: &[i64], key: MemoryKey) -> i64
    requires { IsKeyIn nodes (length charges.now) key }
    ensures { result ≡ (if key.is_member then charge_of nodes charges.now key.key else pos 0) }
{
    if key.is_member {
        return charges[(key.key - nodes) as usize - 1];
    }
    0
}

/// The key this many places before the last one.
#[inline]
fn key_from_last(keys: &[MemoryKey], back: usize) -> MemoryKey
    requires { back < length keys.now }
    ensures { (default : MemoryKey) → result ≡ slice_index_or keys.now (length keys.now - 1 - back) default }
{
    keys[keys.len() - 1 - back]
}

/// Whether a word has a bit.
#[inline]
pub(crate) fn has_bit(word: u64, place: u8) -> bool
    ensures { (bits : List Bool) → length bits ≤ 64 → word ≡ memory_word bits → result ≡ slice_index_or bits place false }
{
    if place >= 64 {
        return false;
    }
    (word >> place as u32) & 1 == 1
}

/// A word with one more bit, below all others.
#[inline]
pub(crate) fn with_bit(word: u64, bit: bool) -> u64
    requires { word < 2 ^ 63 }
    ensures { result ≡ (if bit then 1 else 0) + 2 * word }
{
    2 * word + u64::from(bit)
}

// ---- the tables, from a certificate's lists and rows

/// The tables of what nodes remember, and of rows. A node's list is at its place; place 0 is
/// unused.
///
/// # Errors
///
/// If memory runs out. It allocates an entry for each node, and for each node or row that it keeps.
pub(crate) fn memories_of(
    alloc: Global,
    nodes: u32,
    near: &[Vec<u32>],
    rows: &[RowSets],
) -> Result<Memories, Refused>
    requires nodes { nodes ≤ most_nodes }
    requires rows { length rows.now ≤ 10000 }
    requires lists { length near.now ≡ nodes + 1 }
    requires memories { AreMemories nodes (near_in near.now) (free_rows rows.now) }
    ensures nodes { IfOk result (λ memories. memories.nodes ≡ nodes) }
    ensures rows { IfOk result (λ memories. memories.count ≡ length rows.now) }
    ensures are { IfOk result (λ memories. (depot : ℕ) (loads : List ℕ) (room : ℕ) (links : List (Vec ℤ)) (priced : List (SubsetRow × ℤ))
        → map (λ (row : SubsetRow × ℤ). row.0) priced ≡ map subset_row_of rows.now
        → AreMemoriesOf (rules_by nodes depot loads room links (near_in near.now) priced) (length rows.now)
        memories.keys.items memories.places.items) }
{
    let count = rows.len() as u32;
    let mut keys = with_capacity(alloc, nodes as usize + 1)?;
    push(&mut keys, Vec::new(alloc))?;
    let mut places = with_capacity(alloc, nodes as usize + 1)?;
    push(&mut places, Vec::new(alloc))?;
    'nodes: for index in 0..nodes {
        let own = keys_of(alloc, nodes, near_at(near, index + 1), rows, index + 1)?;
        let own_places = places_of(alloc, &own, nodes + count)?;
        push(&mut keys, own)?;
        push(&mut places, own_places)?;
    }
    Ok(Memories {
        nodes,
        count,
        keys,
        places,
    })
}

/// The customers that a node remembers.
fn near_at(near: &[Vec<u32>], node: u32) -> &[u32]
    requires { node < length near.now }
    ensures { result.now ≡ near_in near.now node }
{
    near[node as usize].as_slice()
}

/// The keys that a node keeps.
///
/// # Errors
///
/// Out of memory.
fn keys_of(
    alloc: Global,
    nodes: u32,
    near: &[u32],
    rows: &[RowSets],
    node: u32,
) -> Result<Vec<MemoryKey>, Refused>
    requires nodes { nodes ≤ most_nodes }
    requires rows { length rows.now ≤ 10000 }
    requires near { All (IsNode nodes) near.now }
    ensures { IfOk result (λ keys. (lists : ℕ → List ℕ) → lists node ≡ near.now → AreKeysOf nodes lists rows.now node keys.items) }
{
    let mut keys = Vec::new(alloc);
    add_near(&mut keys, near)?;
    add_rows(&mut keys, nodes + 1, rows, node)?;
    Ok(keys)
}

/// Adds the keys of customers that are remembered.
///
/// # Errors
///
/// Out of memory.
fn add_near(keys: &mut Vec<MemoryKey>, near: &[u32]) -> Result<(), Refused>
    ensures { IfOk result (λ done. keys.new.items ≡ keys.old.items ++ map key_of_node near.now) }
{
    'customers: for index in 0..near.len() {
        push(keys, near_key(near, index))?;
    }
    Ok(())
}

/// The key of a customer of a list.
#[inline]
fn near_key(near: &[u32], index: usize) -> MemoryKey
    requires { index < length near.now }
    ensures { result ≡ key_of_node (slice_index_or near.now index 0) }
{
    MemoryKey {
        key: near[index],
        is_member: false,
    }
}

/// Adds the keys of those rows that a customer keeps. The first row has the key `first`.
///
/// # Errors
///
/// Out of memory.
fn add_rows(
    keys: &mut Vec<MemoryKey>,
    first: u32,
    rows: &[RowSets],
    node: u32,
) -> Result<(), Refused>
    requires first { first ≤ most_nodes + 1 }
    requires rows { length rows.now ≤ 10000 }
    ensures { IfOk result (λ done. keys.new.items ≡ keys.old.items ++ kept_keys first rows.now node) }
{
    'rows: for index in 0..rows.len() {
        add_row(keys, first + index as u32, &rows[index], node)?;
    }
    Ok(())
}

/// Adds the key of a row if a customer keeps it.
///
/// # Errors
///
/// Out of memory.
fn add_row(keys: &mut Vec<MemoryKey>, key: u32, row: &RowSets, node: u32) -> Result<(), Refused>
    ensures { IfOk result (λ done. keys.new.items ≡ keys.old.items ++ kept_keys key (row.now ∷ []) node) }
{
    let is_member = has_node(&row.set, node);
    if !is_kept(is_member, row, node) {
        return Ok(());
    }
    push(keys, MemoryKey { key, is_member })?;
    Ok(())
}

/// Whether a node keeps the parity of a row, given whether it is in the row's set.
fn is_kept(is_member: bool, row: &RowSets, node: u32) -> bool
    requires { is_member ≡ has row.now.set.items node }
    ensures { result ≡ keeps (subset_row_of row.now) node }
{
    is_member || has_node(&row.further, node)
}

/// Whether a list contains a node.
fn has_node(nodes: &[u32], node: u32) -> bool
    ensures { result ≡ has nodes.now node }
{
    nodes.contains(&node)
}

/// The place of each key from 0 to `last` in a list; 64 if it isn't there.
///
/// # Errors
///
/// Out of memory.
fn places_of(alloc: Global, keys: &[MemoryKey], last: u32) -> Result<Vec<u8>, Refused>
    requires last { last ≤ most_nodes + 10000 }
    requires few { length keys.now ≤ 64 }
    requires keys { All (λ (key : MemoryKey). key.key ≤ last) keys.now }
    ensures { IfOk result (λ places. ArePlacesTo (map (λ (key : MemoryKey). key.key) keys.now) (length keys.now) last places.items) }
{
    let mut places = filled(alloc, 64, last as usize + 1)?;
    'keys: for index in 0..keys.len() {
        let key = key_number_at(keys, index);
        places[key as usize] = index as u8;
    }
    Ok(places)
}

/// The number of a key in a list.
#[inline]
fn key_number_at(keys: &[MemoryKey], index: usize) -> u32
    requires { index < length keys.now }
    ensures { (default : MemoryKey) → result ≡ (slice_index_or keys.now index default).key }
{
    keys[index].key
}
