//! The least weight of a q-route without 2-cycles, by dynamic programming over loads and nodes: a
//! closed walk from the depot whose load is within the capacity, and which never goes straight back
//! to the customer it came from. `plan_leaf.rt` calls it. `specs/QRoutes.antt` pins the exact
//! minimum, so only speed is free.

ghost use Rattle.tsp_routing.specs.Prelude.{ℕ, ℤ, length, pos, neg_ℤ, Some, IfOk, IfSome, most_nodes, IsNode, IsFromTo, length_of, IsCustomer, least_at};
ghost use Rattle.std.specs.Prelude.{◌≡◌, ◌≢◌, ◌⊎◌, ◌≤◌, ◌<◌, ◌+◌, ◌-◌, ◌*◌, ◌^◌, ◌∷◌, ◌+ℤ◌, ◌≤ℤ◌};
ghost use Rattle.tsp_routing.specs.QRoutes.{IsLeastAmong, QRouteEntry, IsLow, IsMet, IsReal, IsEntryBelowTo, IsEntryMetTo, IsStartMet, IsStartBelow, IsAtMost, least_from, IsQRoute, IsBelowQRoutes};
ghost use Rattle.tsp_routing.specs.PlanBounds.{most_capacity_in_parts};
ghost use Rattle.tsp_routing.specs.states.Demands.{load_at, AreLinks, onward_entry, entry_at, IsEntryNumber, IsEntrySized, IsRowSized, AreRowsSized, IsRowLow, AreRowsLow, IsRowMet, AreRowsMet, IsNearOrFar, IsChosen};

use crate::leaf_weights::LentRows;
use crate::sums::Sum;
use std::alloc::Global;
use tsp_io::{Refused, push, with_capacity};
use tsp_theory::weight_in;

/// The nodes 1 to `nodes`, including the depot, with their loads and weights. `loads[0]` is unused.
#[derive(Drop)]
pub(crate) struct QRoutes<'a, W: LentRows> {
    pub(crate) nodes: u32,
    pub(crate) depot: u32,
    pub(crate) loads: &'a [u64],
    pub(crate) weights: &'a W,
    ghost few: { nodes ≤ most_nodes },
    ghost depot_in: { IsNode nodes depot },
    ghost by_node: { length loads.now ≡ nodes + 1 },
    ghost some: { (node : ℕ) → IsCustomer nodes depot node → 1 ≤ load_at loads.now node },
    ghost same: { W.nodes weights.now ≡ nodes },
}

/// The least weight of a q-route; `None` if there is none. `row` is scratch space.
///
/// # Errors
///
/// If memory runs out. It allocates an entry for each node and load up to the capacity.
pub(crate) fn least_q_route<S: Sum, W: LentRows>(
    alloc: Global,
    q_routes: &QRoutes<W>,
    room: usize,
    row: &mut [i64],
) -> Result<Option<i128>, Refused>
    requires row { length row.old ≡ q_routes.now.nodes + 1 }
    requires few { room ≤ most_capacity_in_parts }
    requires links { AreLinks S.link q_routes.now.nodes (W.at q_routes.now.weights.now) }
    ensures exact { IfOk result (IsLeastAmong
        (IsQRoute q_routes.now.nodes q_routes.now.depot (load_at q_routes.now.loads.now) room)
        (λ nodes. length_of (W.at q_routes.now.weights.now) (q_routes.now.depot ∷ nodes))) }
    ensures size { IfOk result (λ found. IfSome found (IsFromTo (neg_ℤ (pos (2 ^ 83))) (pos (2 ^ 83)))) }
    ensures row { length row.new ≡ length row.old }
{
    let mut table: Vec<Vec<Onward<S>>> = Vec::new(alloc);
    'loads: for load in 0..room + 1 {
        let next = next_row(alloc, q_routes, &table, row)?;
        push(&mut table, next)?;
    }
    Ok(start(q_routes, &table, row).weight())
}

/// The row of the next load.
///
/// # Errors
///
/// If memory runs out. It allocates an entry for each node.
fn next_row<S: Sum, W: LentRows>(
    alloc: Global,
    q_routes: &QRoutes<W>,
    table: &[Vec<Onward<S>>],
    row: &mut [i64],
) -> Result<Vec<Onward<S>>, Refused>
    requires few { length table.now ≤ most_capacity_in_parts }
    requires links { AreLinks S.link q_routes.now.nodes (W.at q_routes.now.weights.now) }
    requires sizes { AreRowsSized S.value S.half S.link q_routes.now.nodes table.now }
    requires room { length row.old ≡ q_routes.now.nodes + 1 }
    ensures low { IfOk result (λ next. AreRowsLow S.value q_routes.now.nodes q_routes.now.depot (W.at q_routes.now.weights.now)
        (load_at q_routes.now.loads.now) table.now
        → IsRowLow S.value q_routes.now.nodes q_routes.now.depot (W.at q_routes.now.weights.now) (load_at q_routes.now.loads.now)
        (length table.now) next.items) }
    ensures met { IfOk result (λ next. AreRowsMet S.value S.half q_routes.now.nodes q_routes.now.depot (W.at q_routes.now.weights.now)
        (load_at q_routes.now.loads.now) table.now
        → IsRowMet S.value S.half q_routes.now.nodes q_routes.now.depot (W.at q_routes.now.weights.now) (load_at q_routes.now.loads.now)
        (length table.now) next.items) }
    ensures sizes { IfOk result (λ next.
        IsRowSized S.value S.half q_routes.now.nodes ((length table.now + 1) * S.link) next.items) }
    ensures room { length row.new ≡ length row.old }
{
    let mut next = with_capacity(alloc, q_routes.nodes as usize + 1)?;
    push(&mut next, nowhere())?;
    'nodes: for index in 0..q_routes.nodes {
        let entry = entry(q_routes, index + 1, table, row);
        push(&mut next, entry)?;
    }
    Ok(next)
}

/// The entry of a node for the next load in a table.
fn entry<S: Sum, W: LentRows>(
    q_routes: &QRoutes<W>,
    node: u32,
    table: &[Vec<Onward<S>>],
    row: &mut [i64],
) -> Onward<S>
    requires node { IsNode q_routes.now.nodes node }
    requires few { length table.now ≤ most_capacity_in_parts }
    requires links { AreLinks S.link q_routes.now.nodes (W.at q_routes.now.weights.now) }
    requires sizes { AreRowsSized S.value S.half S.link q_routes.now.nodes table.now }
    requires room { length row.old ≡ q_routes.now.nodes + 1 }
    ensures low { AreRowsLow S.value q_routes.now.nodes q_routes.now.depot (W.at q_routes.now.weights.now)
        (load_at q_routes.now.loads.now) table.now → IsCustomer q_routes.now.nodes q_routes.now.depot node
        → IsLow q_routes.now.nodes q_routes.now.depot (W.at q_routes.now.weights.now) (load_at q_routes.now.loads.now)
        (length table.now) node (onward_entry S.value result) }
    ensures met { AreRowsMet S.value S.half q_routes.now.nodes q_routes.now.depot (W.at q_routes.now.weights.now)
        (load_at q_routes.now.loads.now) table.now → IsCustomer q_routes.now.nodes q_routes.now.depot node
        → IsMet S.half q_routes.now.nodes q_routes.now.depot (W.at q_routes.now.weights.now) (load_at q_routes.now.loads.now)
        (length table.now) node (onward_entry S.value result) }
    ensures size { IsEntrySized S.half ((length table.now + 1) * S.link) (onward_entry S.value result) }
    ensures room { length row.new ≡ length row.old }
{
    let load = q_routes.loads[node as usize];
    if node == q_routes.depot {
        return nowhere();
    }
    if load > table.len() as u64 {
        return nowhere();
    }
    let known = table[table.len() - load as usize].as_slice();
    weighed_entry(q_routes, node, known, row)
}

/// The entry of a node, from the entries of the next nodes and the node's row, which is filled if
/// it isn't kept.
fn weighed_entry<S: Sum, W: LentRows>(
    q_routes: &QRoutes<W>,
    node: u32,
    known: &[Onward<S>],
    row: &mut [i64],
) -> Onward<S>
    requires node { IsCustomer q_routes.now.nodes q_routes.now.depot node }
    requires links { AreLinks S.link q_routes.now.nodes (W.at q_routes.now.weights.now) }
    requires room { length row.old ≡ q_routes.now.nodes + 1 }
    requires sizes { (size : ℕ) × (size + S.link < S.half) × IsRowSized S.value S.half q_routes.now.nodes size known.now }
    ensures below { (default : Onward S) → IsEntryBelowTo q_routes.now.nodes q_routes.now.depot (W.at q_routes.now.weights.now)
        (entry_at S.value known.now default) node q_routes.now.nodes (onward_entry S.value result) }
    ensures met { (default : Onward S) → IsEntryMetTo S.half q_routes.now.nodes q_routes.now.depot (W.at q_routes.now.weights.now)
        (entry_at S.value known.now default) node q_routes.now.nodes (onward_entry S.value result) }
    ensures size { (size : ℕ) → size + S.link < S.half → IsRowSized S.value S.half q_routes.now.nodes size known.now
        → IsEntrySized S.half (size + S.link) (onward_entry S.value result) }
    ensures room { length row.new ≡ length row.old }
{
    if let Some(kept) = q_routes.weights.kept_row(node) {
        return best_entry(q_routes, node, known, kept);
    }
    q_routes.weights.fill(node, row);
    best_entry(q_routes, node, known, row)
}

/// The entry of a node, from the entries of the next nodes and the weights to them.
fn best_entry<S: Sum, W: LentRows>(
    q_routes: &QRoutes<W>,
    node: u32,
    known: &[Onward<S>],
    row: &[i64],
) -> Onward<S>
    requires node { IsCustomer q_routes.now.nodes q_routes.now.depot node }
    requires room { length row.now ≡ q_routes.now.nodes + 1 }
    requires links { (next : ℕ) → IsNode q_routes.now.nodes next
        → IsFromTo (neg_ℤ (pos S.link)) (pos S.link) (least_at row.now next) }
    requires sizes { (size : ℕ) × (size + S.link < S.half) × IsRowSized S.value S.half q_routes.now.nodes size known.now }
    ensures below { (w : ℕ → ℕ → ℤ) (default : Onward S)
        → ((next : ℕ) → IsNode q_routes.now.nodes next → least_at row.now next ≡ w node next)
        → IsEntryBelowTo q_routes.now.nodes q_routes.now.depot w (entry_at S.value known.now default) node q_routes.now.nodes
        (onward_entry S.value result) }
    ensures met { (w : ℕ → ℕ → ℤ) (default : Onward S)
        → ((next : ℕ) → IsNode q_routes.now.nodes next → least_at row.now next ≡ w node next)
        → IsEntryMetTo S.half q_routes.now.nodes q_routes.now.depot w (entry_at S.value known.now default) node q_routes.now.nodes
        (onward_entry S.value result) }
    ensures size { (size : ℕ) → size + S.link < S.half → IsRowSized S.value S.half q_routes.now.nodes size known.now
        → IsEntrySized S.half (size + S.link) (onward_entry S.value result) }
{
    let back = only_back(q_routes, node, row);
    if node < q_routes.depot {
        return entry_around(q_routes, back, node, node, q_routes.depot, known, row);
    }
    entry_around(q_routes, back, node, q_routes.depot, node, known, row)
}

/// The entry with only the way back to the depot.
fn only_back<S: Sum, W: LentRows>(q_routes: &QRoutes<W>, node: u32, row: &[i64]) -> Onward<S>
    requires room { length row.now ≡ q_routes.now.nodes + 1 }
    requires link { IsFromTo (neg_ℤ (pos S.link)) (pos S.link) (least_at row.now q_routes.now.depot) }
    ensures below { (w : ℕ → ℕ → ℤ) (known : ℕ → QRouteEntry) → least_at row.now q_routes.now.depot ≡ w node q_routes.now.depot
        → IsEntryBelowTo q_routes.now.nodes q_routes.now.depot w known node 0 (onward_entry S.value result) }
    ensures met { (w : ℕ → ℕ → ℤ) (known : ℕ → QRouteEntry) → least_at row.now q_routes.now.depot ≡ w node q_routes.now.depot
        → IsEntryMetTo S.half q_routes.now.nodes q_routes.now.depot w known node 0 (onward_entry S.value result) }
    ensures size { (size : ℕ) → size + S.link < S.half → IsEntrySized S.half (size + S.link) (onward_entry S.value result) }
    ensures order { S.value result.least ≤ℤ S.value result.other }
{
    Onward {
        least: S::of(weight_in(row, q_routes.depot)),
        next: q_routes.depot,
        other: S::none(),
    }
}

/// The entry with all next nodes except `first` and `last`, which are the node itself and the
/// depot, the lower one first. So no loop has to test for them.
fn entry_around<S: Sum, W: LentRows>(
    q_routes: &QRoutes<W>,
    back: Onward<S>,
    node: u32,
    first: u32,
    last: u32,
    known: &[Onward<S>],
    row: &[i64],
) -> Onward<S>
    requires first { IsNode q_routes.now.nodes first }
    requires last { IsNode q_routes.now.nodes last }
    requires apart { first < last }
    requires are { ((first ≡ node) × (last ≡ q_routes.now.depot)) ⊎ ((first ≡ q_routes.now.depot) × (last ≡ node)) }
    requires room { length row.now ≡ q_routes.now.nodes + 1 }
    requires links { (next : ℕ) → IsNode q_routes.now.nodes next
        → IsFromTo (neg_ℤ (pos S.link)) (pos S.link) (least_at row.now next) }
    requires sizes { (size : ℕ) × (size + S.link < S.half) × IsRowSized S.value S.half q_routes.now.nodes size known.now }
    requires order { S.value back.least ≤ℤ S.value back.other }
    ensures below { (w : ℕ → ℕ → ℤ) (default : Onward S)
        → ((next : ℕ) → IsNode q_routes.now.nodes next → least_at row.now next ≡ w node next)
        → IsEntryBelowTo q_routes.now.nodes q_routes.now.depot w (entry_at S.value known.now default) node 0
        (onward_entry S.value back)
        → IsEntryBelowTo q_routes.now.nodes q_routes.now.depot w (entry_at S.value known.now default) node q_routes.now.nodes
        (onward_entry S.value result) }
    ensures met { (w : ℕ → ℕ → ℤ) (default : Onward S)
        → ((next : ℕ) → IsNode q_routes.now.nodes next → least_at row.now next ≡ w node next)
        → IsEntryMetTo S.half q_routes.now.nodes q_routes.now.depot w (entry_at S.value known.now default) node 0
        (onward_entry S.value back)
        → IsEntryMetTo S.half q_routes.now.nodes q_routes.now.depot w (entry_at S.value known.now default) node q_routes.now.nodes
        (onward_entry S.value result) }
    ensures size { (size : ℕ) → size + S.link < S.half → IsRowSized S.value S.half q_routes.now.nodes size known.now
        → IsEntrySized S.half (size + S.link) (onward_entry S.value back)
        → IsEntrySized S.half (size + S.link) (onward_entry S.value result) }
{
    let low = entry_with(q_routes, back, node, 0, first - 1, known, row);
    let middle = entry_with(q_routes, low, node, first, last - 1, known, row);
    entry_with(q_routes, middle, node, last, q_routes.nodes, known, row)
}

/// The entry with the next nodes from a range, all of them other customers.
#[inline]
fn entry_with<S: Sum, W: LentRows>(
    q_routes: &QRoutes<W>,
    begun: Onward<S>,
    node: u32,
    after: u32,
    to: u32,
    known: &[Onward<S>],
    row: &[i64],
) -> Onward<S>
    requires after { after ≤ to }
    requires to { to ≤ q_routes.now.nodes }
    requires others { (next : ℕ) → after < next → next ≤ to → (next ≢ q_routes.now.depot) × (node ≢ next) }
    requires room { length row.now ≡ q_routes.now.nodes + 1 }
    requires links { (next : ℕ) → IsNode q_routes.now.nodes next
        → IsFromTo (neg_ℤ (pos S.link)) (pos S.link) (least_at row.now next) }
    requires sizes { (size : ℕ) × (size + S.link < S.half) × IsRowSized S.value S.half q_routes.now.nodes size known.now }
    requires order { S.value begun.least ≤ℤ S.value begun.other }
    ensures below { (w : ℕ → ℕ → ℤ) (default : Onward S)
        → ((next : ℕ) → IsNode q_routes.now.nodes next → least_at row.now next ≡ w node next)
        → IsEntryBelowTo q_routes.now.nodes q_routes.now.depot w (entry_at S.value known.now default) node after
        (onward_entry S.value begun)
        → IsEntryBelowTo q_routes.now.nodes q_routes.now.depot w (entry_at S.value known.now default) node to
        (onward_entry S.value result) }
    ensures met { (w : ℕ → ℕ → ℤ) (default : Onward S)
        → ((next : ℕ) → IsNode q_routes.now.nodes next → least_at row.now next ≡ w node next)
        → IsEntryMetTo S.half q_routes.now.nodes q_routes.now.depot w (entry_at S.value known.now default) node after
        (onward_entry S.value begun)
        → IsEntryMetTo S.half q_routes.now.nodes q_routes.now.depot w (entry_at S.value known.now default) node to
        (onward_entry S.value result) }
    ensures size { (size : ℕ) → size + S.link < S.half → IsRowSized S.value S.half q_routes.now.nodes size known.now
        → IsEntrySized S.half (size + S.link) (onward_entry S.value begun)
        → IsEntrySized S.half (size + S.link) (onward_entry S.value result) }
    ensures order { S.value result.least ≤ℤ S.value result.other }
{
    let mut best = begun;
    'nodes: for index in after..to {
        best = entry_by(q_routes, best, node, index + 1, known, row);
    }
    best
}

/// The entry with one more next node, another customer.
#[inline]
fn entry_by<S: Sum, W: LentRows>(
    q_routes: &QRoutes<W>,
    best: Onward<S>,
    node: u32,
    next: u32,
    known: &[Onward<S>],
    row: &[i64],
) -> Onward<S>
    requires next { IsCustomer q_routes.now.nodes q_routes.now.depot next }
    requires other { node ≢ next }
    requires room { length row.now ≡ q_routes.now.nodes + 1 }
    requires link { IsFromTo (neg_ℤ (pos S.link)) (pos S.link) (least_at row.now next) }
    requires sizes { (size : ℕ) × (size + S.link < S.half) × IsRowSized S.value S.half q_routes.now.nodes size known.now }
    requires order { S.value best.least ≤ℤ S.value best.other }
    ensures below { (w : ℕ → ℕ → ℤ) (default : Onward S) → least_at row.now next ≡ w node next
        → IsEntryBelowTo q_routes.now.nodes q_routes.now.depot w (entry_at S.value known.now default) node (next - 1)
        (onward_entry S.value best)
        → IsEntryBelowTo q_routes.now.nodes q_routes.now.depot w (entry_at S.value known.now default) node next
        (onward_entry S.value result) }
    ensures met { (w : ℕ → ℕ → ℤ) (default : Onward S) → least_at row.now next ≡ w node next
        → IsEntryMetTo S.half q_routes.now.nodes q_routes.now.depot w (entry_at S.value known.now default) node (next - 1)
        (onward_entry S.value best)
        → IsEntryMetTo S.half q_routes.now.nodes q_routes.now.depot w (entry_at S.value known.now default) node next
        (onward_entry S.value result) }
    ensures size { (size : ℕ) → size + S.link < S.half → IsRowSized S.value S.half q_routes.now.nodes size known.now
        → IsEntrySized S.half (size + S.link) (onward_entry S.value best)
        → IsEntrySized S.half (size + S.link) (onward_entry S.value result) }
    ensures order { S.value result.least ≤ℤ S.value result.other }
{
    let onward = least_onward(known[next as usize], node);
    improved(best, next, onward.plus(weight_in(row, next)))
}

/// The least weight of a walk, from the last row, or the sum of no walk.
fn start<S: Sum, W: LentRows>(q_routes: &QRoutes<W>, table: &[Vec<Onward<S>>], row: &mut [i64]) -> S
    requires some { 1 ≤ length table.now }
    requires few { length table.now ≤ most_capacity_in_parts + 1 }
    requires links { AreLinks S.link q_routes.now.nodes (W.at q_routes.now.weights.now) }
    requires sizes { AreRowsSized S.value S.half S.link q_routes.now.nodes table.now }
    requires room { length row.old ≡ q_routes.now.nodes + 1 }
    ensures below { AreRowsLow S.value q_routes.now.nodes q_routes.now.depot (W.at q_routes.now.weights.now)
        (load_at q_routes.now.loads.now) table.now
        → IsBelowQRoutes q_routes.now.nodes q_routes.now.depot (load_at q_routes.now.loads.now) (length table.now - 1)
        (W.at q_routes.now.weights.now) (S.value result) }
    ensures met { AreRowsLow S.value q_routes.now.nodes q_routes.now.depot (W.at q_routes.now.weights.now)
        (load_at q_routes.now.loads.now) table.now
        → AreRowsMet S.value S.half q_routes.now.nodes q_routes.now.depot (W.at q_routes.now.weights.now)
        (load_at q_routes.now.loads.now) table.now → IsReal S.half (S.value result)
        → IsLeastAmong (IsQRoute q_routes.now.nodes q_routes.now.depot (load_at q_routes.now.loads.now) (length table.now - 1))
        (λ nodes. length_of (W.at q_routes.now.weights.now) (q_routes.now.depot ∷ nodes)) (Some (S.value result)) }
    ensures size { IsReal S.half (S.value result) → IsFromTo (neg_ℤ (pos S.half)) (pos S.half) (S.value result) }
    ensures room { length row.new ≡ length row.old }
{
    q_routes.weights.fill(q_routes.depot, row);
    start_by(q_routes, table[table.len() - 1].as_slice(), row)
}

/// The least weight of a walk, from the entries of the last row and the weights from the depot, or
/// the sum of no walk.
fn start_by<S: Sum, W: LentRows>(q_routes: &QRoutes<W>, known: &[Onward<S>], row: &[i64]) -> S
    requires room { length row.now ≡ q_routes.now.nodes + 1 }
    requires links { (next : ℕ) → IsNode q_routes.now.nodes next
        → IsFromTo (neg_ℤ (pos S.link)) (pos S.link) (least_at row.now next) }
    requires sizes { (size : ℕ) × (size + S.link < S.half) × IsRowSized S.value S.half q_routes.now.nodes size known.now }
    ensures below { (w : ℕ → ℕ → ℤ) (default : Onward S)
        → ((next : ℕ) → IsNode q_routes.now.nodes next → least_at row.now next ≡ w q_routes.now.depot next)
        → IsStartBelow q_routes.now.nodes q_routes.now.depot w (entry_at S.value known.now default) (S.value result) }
    ensures met { (w : ℕ → ℕ → ℤ) (default : Onward S)
        → ((next : ℕ) → IsNode q_routes.now.nodes next → least_at row.now next ≡ w q_routes.now.depot next)
        → IsStartMet S.half q_routes.now.nodes q_routes.now.depot w (entry_at S.value known.now default) (S.value result) }
    ensures size { (size : ℕ) → size + S.link < S.half → IsRowSized S.value S.half q_routes.now.nodes size known.now
        → IsEntryNumber S.half (size + S.link) (S.value result) }
{
    let mut least = S::none();
    'nodes: for index in 0..q_routes.nodes {
        least = start_with(q_routes, least, index + 1, known, row);
    }
    least
}

/// The smaller of `least` and the weight of a walk that starts with this customer.
fn start_with<S: Sum, W: LentRows>(
    q_routes: &QRoutes<W>,
    least: S,
    next: u32,
    known: &[Onward<S>],
    row: &[i64],
) -> S
    requires next { IsNode q_routes.now.nodes next }
    requires room { length row.now ≡ q_routes.now.nodes + 1 }
    requires link { IsFromTo (neg_ℤ (pos S.link)) (pos S.link) (least_at row.now next) }
    requires sizes { (size : ℕ) × (size + S.link < S.half) × IsRowSized S.value S.half q_routes.now.nodes size known.now }
    ensures keeps { S.value result ≤ℤ S.value least }
    ensures own { (default : Onward S) → next ≢ q_routes.now.depot
        → S.value result ≤ℤ (least_at row.now next +ℤ (entry_at S.value known.now default next).least) }
    ensures met { (w : ℕ → ℕ → ℤ) (default : Onward S) → least_at row.now next ≡ w q_routes.now.depot next
        → IsStartMet S.half q_routes.now.nodes q_routes.now.depot w (entry_at S.value known.now default) (S.value least)
        → IsStartMet S.half q_routes.now.nodes q_routes.now.depot w (entry_at S.value known.now default) (S.value result) }
    ensures size { (size : ℕ) → size + S.link < S.half → IsRowSized S.value S.half q_routes.now.nodes size known.now
        → IsEntryNumber S.half (size + S.link) (S.value least) → IsEntryNumber S.half (size + S.link) (S.value result) }
{
    if next == q_routes.depot {
        return least;
    }
    let weight = known[next as usize].least.plus(weight_in(row, next));
    if weight.is_below(least) {
        weight
    } else {
        least
    }
}

// ---- an entry of the table

/// The rest of a walk from a node on: the least weight, the next node for it, and the least weight
/// with another next node.
#[derive(Clone, Copy)]
pub(crate) struct Onward<S> {
    pub(crate) least: S,
    pub(crate) next: u32,
    pub(crate) other: S,
}

/// The entry of a node from which there is no walk.
fn nowhere<S: Sum>() -> Onward<S>
    ensures size { (size : ℕ) → IsEntrySized S.half size (onward_entry S.value result) }
    ensures least { S.value result.least ≡ pos (2 * S.half) }
    ensures other { S.value result.other ≡ pos (2 * S.half) }
{
    Onward {
        least: S::none(),
        next: 0,
        other: S::none(),
    }
}

/// The least weight of the rest of a walk that came from this node, and so doesn't go back to it.
#[inline]
fn least_onward<S: Sum>(entry: Onward<S>, from: u32) -> S
    ensures value { S.value result ≡ least_from (onward_entry S.value entry) from }
    ensures size { (size : ℕ) → IsEntrySized S.half size (onward_entry S.value entry)
        → IsEntryNumber S.half size (S.value result) }
{
    if entry.next == from {
        entry.other
    } else {
        entry.least
    }
}

/// Adds one next node to an entry. For most nodes, one comparison shows that nothing changes.
///
/// # Requires
///
/// The second number of the entry is no less than the first.
#[inline]
fn improved<S: Sum>(best: Onward<S>, next: u32, weight: S) -> Onward<S>
    requires order { S.value best.least ≤ℤ S.value best.other }
    ensures keeps { (key : ℕ) (z : ℤ) → IsAtMost (onward_entry S.value best) key z → IsAtMost (onward_entry S.value result) key z }
    ensures own { (z : ℤ) → S.value weight ≤ℤ z → IsAtMost (onward_entry S.value result) next z }
    ensures size { (size : ℕ) → IsEntrySized S.half size (onward_entry S.value best) → neg_ℤ (pos size) ≤ℤ S.value weight
        → IsNearOrFar S.half size (S.value weight) → IsEntrySized S.half size (onward_entry S.value result) }
    ensures chosen { IsChosen (onward_entry S.value best) next (S.value weight) (onward_entry S.value result) }
    ensures order { S.value result.least ≤ℤ S.value result.other }
{
    if !weight.is_below(best.other) {
        return best;
    }
    if weight.is_below(best.least) {
        return Onward {
            least: weight,
            next,
            other: best.least,
        };
    }
    Onward {
        least: best.least,
        next: best.next,
        other: weight,
    }
}
