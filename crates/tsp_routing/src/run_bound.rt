//! The bound of a leaf by its least run, for certificates with memories or subset rows.
//! `run_verdict.rt` calls it for each leaf. `IsRunBound` in `specs/RunBounds.antt` pins the bound:
//! it consists of the least weight of a run (`IsLeastRun` there) and of what the subset rows give
//! back (`halves_total` in `specs/Runs.antt`).

ghost use Rattle.std.specs.Prelude.{◌≡◌, ◌≤◌, ◌+◌, ◌≤ℤ◌, ◌*ℤ◌, ◌^◌, ◌-◌, ◌*◌, ◌-ℤ◌, ◌<◌, ◌/◌, ◌≢◌, ◌⊎◌, ◌+ℤ◌};
ghost use Rattle.tsp_format.specs.Steps.{SubsetRow};
ghost use Rattle.tsp_format.specs.declared.steps.RowSets.{RowSets};
ghost use Rattle.tsp_format.specs.states.TreeSteps.{subset_row_of};
ghost use Rattle.tsp_cases.specs.states.OpenCases.{IsOpenCase, decisions_in};
ghost use Rattle.tsp_routing.specs.PlanBounds.{most_capacity_in_parts, limits_total, most_link};
ghost use Rattle.tsp_routing.specs.PlanLinks.{sum_of_customers};
ghost use Rattle.tsp_routing.specs.PlanVerdicts.{most_of_multipliers, sizes_total};
ghost use Rattle.tsp_routing.specs.Prelude.{All, ℕ, ℤ, List, map, length, true, pos, IfOk, IfSome, IsBoundSized, entry, families_with, as_leaf_numbers, lent_in, neg_ℤ, IsFromTo, RoutingProblem, Family, LeafNumbers, Decision, slice_index_or, most_potential, [], IsNode, IsCustomer};
ghost use Rattle.tsp_routing.specs.RunBounds.{leaf_rules, IsRunBound, IsLeastRun};
ghost use Rattle.tsp_routing.specs.Runs.{AreCharges, halves_total};
ghost use Rattle.tsp_routing.specs.states.Demands.{loads_problem};
ghost use Rattle.tsp_routing.specs.states.KeptLists.{IsFoundIfFew, IsLeastRunIfFew, rules_of, IsLeafOf, AreStateRows, AreSizedEntries, AreSizedRows, list_in, IsBelowEntries, IsMetBy, IsBelowLoad, IsMetAtLoad};
ghost use Rattle.tsp_routing.specs.states.MemoryTables.{AreMemoriesOf};
ghost use Rattle.tsp_routing.specs.states.RunJudged.{IsSmallRow, halves_with};
ghost use Rattle.tsp_routing.specs.states.RunTables.{rules_by, link_in};

use crate::kept_states::{KeptState, kept_states, list_at};
use crate::leaf_weights::{LeafWeights, rows_of};
use crate::memories::Memories;
use crate::plan_leaf::{LeafSum, PlanLeaf, customers_total, limits_total, times, times_given_back};
use crate::run_leaf::{RunLeaf, RunNodes, ways_home};
use crate::run_steps::{entry_at, step_tables};
use std::alloc::Global;
use tsp_cases::OpenCase;
use tsp_format::RowSets;
use tsp_io::Refused;
use tsp_theory::{Costs, least_bound, weight_in};

/// Rows with their charges, and the memories made from them.
#[derive(Clone, Copy)]
pub(crate) struct PricedRows<'a> {
    pub(crate) memories: &'a Memories,
    pub(crate) rows: &'a [RowSets],
    pub(crate) charges: &'a [i64],
}

/// The bound of a leaf by the least weight of a run, given the charge of each row. `None` if there
/// are more than 10,000,000 kept states.
///
/// # Errors
///
/// Out of memory.
pub(crate) fn leaf_run_bound<C: Costs>(
    alloc: Global,
    leaf: &PlanLeaf<C>,
    case: &OpenCase,
    priced: PricedRows,
) -> Result<Option<i128>, Refused>
    requires case { IsOpenCase (leaf.now.context.now.demands.nodes + length leaf.now.context.now.crossed.now) case.now }
    requires direction { case.now.by_node.directed ≡ true }
    requires few { leaf.now.context.now.units.now.room ≤ most_capacity_in_parts }
    requires same { priced.memories.now.nodes ≡ leaf.now.context.now.demands.nodes }
    requires many { length priced.charges.now ≡ priced.memories.now.count }
    requires rows { length priced.rows.now ≡ priced.memories.now.count }
    requires sets { All IsSmallRow priced.rows.now }
    requires sizes { sizes_total priced.charges.now ≤ℤ pos most_of_multipliers }
    requires rules { ∥ ((near : ℕ → List ℕ) × (rows : List (SubsetRow × ℤ))
        × AreMemoriesOf (leaf_rules (loads_problem leaf.now.context.now.demands (C.at leaf.now.context.now.costs.now))
        leaf.now.context.now.scale leaf.now.context.now.unit leaf.now.context.now.units.now.light
        (families_with leaf.now.context.now.crossed.now (lent_in leaf.now.context.now.families.now))
        (as_leaf_numbers leaf.now.potentials.now leaf.now.multipliers.now) near rows)
        priced.memories.now.count priced.memories.now.keys.items priced.memories.now.places.items
        × (map (λ (row : SubsetRow × ℤ). row.1) rows ≡ priced.charges.now) × AreCharges rows) ∥₁ }
    ensures bound { IfOk result (λ found. (near : ℕ → List ℕ) (rows : List (SubsetRow × ℤ))
        → AreMemoriesOf (leaf_rules (loads_problem leaf.now.context.now.demands (C.at leaf.now.context.now.costs.now))
        leaf.now.context.now.scale leaf.now.context.now.unit leaf.now.context.now.units.now.light
        (families_with leaf.now.context.now.crossed.now (lent_in leaf.now.context.now.families.now))
        (as_leaf_numbers leaf.now.potentials.now leaf.now.multipliers.now) near rows)
        priced.entry.memories.now.count priced.entry.memories.now.keys.items priced.entry.memories.now.places.items
        → map (λ (row : SubsetRow × ℤ). row.0) rows ≡ map subset_row_of priced.entry.rows.now
        → map (λ (row : SubsetRow × ℤ). row.1) rows ≡ priced.entry.charges.now → AreCharges rows
        → IsFoundIfFew (leaf_rules (loads_problem leaf.now.context.now.demands (C.at leaf.now.context.now.costs.now))
        leaf.now.context.now.scale leaf.now.context.now.unit leaf.now.context.now.units.now.light
        (families_with leaf.now.context.now.crossed.now (lent_in leaf.now.context.now.families.now))
        (as_leaf_numbers leaf.now.potentials.now leaf.now.multipliers.now) near rows)
        (pos 2 *ℤ entry leaf.now.potentials.now leaf.now.context.now.demands.depot)
        (IsRunBound (loads_problem leaf.now.context.now.demands (C.at leaf.now.context.now.costs.now))
        leaf.now.context.now.scale leaf.now.context.now.unit leaf.now.context.now.units.now.light
        (families_with leaf.now.context.now.crossed.now (lent_in leaf.now.context.now.families.now)) (decisions_in case.now)
        (as_leaf_numbers leaf.now.potentials.now leaf.now.multipliers.now) near rows) found) }
    ensures size { IfOk result (λ found. IfSome found IsBoundSized) }
{
    let Some(each) = least_leaf_run(alloc, leaf, priced.memories, priced.charges)? else {
        return Ok(None);
    };
    let context = leaf.context;
    let nodes = context.demands.nodes;
    let limits = limits_total(case, nodes, context.crossed, leaf.multipliers);
    let customers = customers_total(context.demands.depot, leaf.potentials);
    let halves = halves_of(priced.rows, priced.charges);
    let sum = LeafSum {
        nodes,
        scale: context.scale,
        back: limits - 2 * customers - halves,
        own: leaf.potentials[context.demands.depot as usize - 1],
        fewest: context.demands.fewest(),
    };
    Ok(Some(bound_of_runs(sum, each)))
}

// ---- from the least weight of a run to the bound of a leaf

/// The bound of a leaf if each route weighs at least `each`, which is at most twice the potential
/// of the depot. `sum` doesn't include what the rows give back.
fn bound_of_runs(sum: LeafSum, each: i128) -> i128
    requires { IsFromTo (neg_ℤ (pos (2 ^ 83))) (pos (2 ^ 83)) each }
    ensures bound { (problem : RoutingProblem) (unit light : ℕ) (families : List Family) (case : List Decision) (numbers : LeafNumbers)
        (near : ℕ → List ℕ) (rows : List (SubsetRow × ℤ)) → problem.nodes ≡ sum.nodes
        → sum.back ≡ (limits_total case (2 * (problem.nodes - 1)) (problem.nodes + 1) families numbers.multipliers
        -ℤ (pos 2 *ℤ sum_of_customers problem.nodes problem.depot (entry numbers.potentials))) -ℤ halves_total rows
        → sum.own ≡ entry numbers.potentials problem.depot
        → IsLeastRun (leaf_rules problem sum.scale unit light families numbers near rows) (pos 2 *ℤ entry numbers.potentials problem.depot) each
        → IsRunBound problem sum.scale unit light families case numbers near rows result }
    ensures size { IsBoundSized result }
{
    let surplus = each - 2 * i128::from(sum.own);
    let routes = times(sum.nodes - 1, surplus);
    least_bound(sum.scale, sum.back + routes)
}

// ---- what subset rows give back

/// What all rows give back.
fn halves_of(rows: &[RowSets], charges: &[i64]) -> i128
    requires many { length charges.now ≡ length rows.now }
    requires sets { All IsSmallRow rows.now }
    requires sizes { sizes_total charges.now ≤ℤ pos most_of_multipliers }
    ensures value { result ≡ halves_with (map subset_row_of rows.now) charges.now }
    ensures size { IsFromTo (neg_ℤ (pos (2 ^ 92))) (pos (2 ^ 92)) result }
{
    let mut sum = 0;
    'rows: for index in 0..charges.len() {
        sum += times_given_back(half_of(rows, index), charges[index]);
    }
    sum
}

/// Half of the set of a row, rounded down.
fn half_of(rows: &[RowSets], index: usize) -> u64
    requires index { index < length rows.now }
    requires sets { All IsSmallRow rows.now }
    ensures value { (default : RowSets) → result ≡ length (slice_index_or rows.now index default).set.items / 2 }
    ensures size { result ≤ 2 ^ 33 }
{
    rows[index].set.len() as u64 / 2
}

// ---- the least weight of a run under the numbers of a leaf

/// The smaller of twice the depot's potential and the least weight of a run, given the charge of
/// each row. `None` if there are more than 10,000,000 kept states.
///
/// # Errors
///
/// If memory runs out. It allocates an entry for each pair of nodes, each node and load, and each
/// kept state.
fn least_leaf_run<C: Costs>(
    alloc: Global,
    leaf: &PlanLeaf<C>,
    memories: &Memories,
    charges: &[i64],
) -> Result<Option<i128>, Refused>
    requires same { memories.now.nodes ≡ leaf.now.context.now.demands.nodes }
    requires priced { length charges.now ≡ memories.now.count }
    requires few { leaf.now.context.now.units.now.room ≤ most_capacity_in_parts }
    ensures exact { IfOk result (λ found. (near : ℕ → List ℕ) (rows : List (SubsetRow × ℤ))
        → AreMemoriesOf (leaf_rules (loads_problem leaf.now.context.now.demands (C.at leaf.now.context.now.costs.now))
        leaf.now.context.now.scale leaf.now.context.now.unit leaf.now.context.now.units.now.light
        (families_with leaf.now.context.now.crossed.now (lent_in leaf.now.context.now.families.now))
        (as_leaf_numbers leaf.now.potentials.now leaf.now.multipliers.now) near rows)
        memories.now.count memories.now.keys.items memories.now.places.items
        → map (λ (row : SubsetRow × ℤ). row.1) rows ≡ charges.now → AreCharges rows
        → IsLeastRunIfFew (leaf_rules (loads_problem leaf.now.context.now.demands (C.at leaf.now.context.now.costs.now))
        leaf.now.context.now.scale leaf.now.context.now.unit leaf.now.context.now.units.now.light
        (families_with leaf.now.context.now.crossed.now (lent_in leaf.now.context.now.families.now))
        (as_leaf_numbers leaf.now.potentials.now leaf.now.multipliers.now) near rows)
        (pos 2 *ℤ entry leaf.now.potentials.now leaf.now.context.now.demands.depot) found) }
    ensures size { IfOk result (λ found. (near : ℕ → List ℕ) (rows : List (SubsetRow × ℤ))
        → AreMemoriesOf (leaf_rules (loads_problem leaf.now.context.now.demands (C.at leaf.now.context.now.costs.now))
        leaf.now.context.now.scale leaf.now.context.now.unit leaf.now.context.now.units.now.light
        (families_with leaf.now.context.now.crossed.now (lent_in leaf.now.context.now.families.now))
        (as_leaf_numbers leaf.now.potentials.now leaf.now.multipliers.now) near rows)
        memories.now.count memories.now.keys.items memories.now.places.items
        → map (λ (row : SubsetRow × ℤ). row.1) rows ≡ charges.now → AreCharges rows
        → IfSome found (IsFromTo (neg_ℤ (pos (2 ^ 83))) (pos (2 ^ 83)))) }
{
    let weights = LeafWeights::of(leaf);
    let rows = rows_of(alloc, &weights, leaf.context.demands.nodes)?;
    let run_nodes = RunNodes {
        nodes: leaf.context.demands.nodes,
        depot: leaf.context.demands.depot,
        loads: &leaf.context.units.loads,
        room: leaf.context.units.room as usize,
        rows: &rows,
    };
    let limit = twice(leaf.potentials[leaf.context.demands.depot as usize - 1]);
    let Some(least) = least_of_runs(alloc, &run_nodes, memories, charges, limit)? else {
        return Ok(None);
    };
    Ok(Some(least))
}

/// Twice a potential.
fn twice(potential: i64) -> i128
    requires { IsFromTo (neg_ℤ (pos most_potential)) (pos most_potential) potential }
    ensures value { result ≡ pos 2 *ℤ potential }
    ensures size { IsFromTo (neg_ℤ (pos (2 ^ 60))) (pos (2 ^ 60)) result }
{
    2 * i128::from(potential)
}

// ---- the least weight of a run by nodes, memories and charges

/// The smaller of the limit and the least weight of a run, given the charge of each row. `None` if
/// there are more than 10,000,000 kept states.
///
/// # Errors
///
/// If memory runs out. It allocates an entry for each node and load up to the capacity, for each
/// pair of nodes if there are few, and for each kept state.
fn least_of_runs(
    alloc: Global,
    nodes: &RunNodes,
    memories: &Memories,
    charges: &[i64],
    limit: i128,
) -> Result<Option<i128>, Refused>
    requires same { memories.now.nodes ≡ nodes.now.nodes }
    requires priced { length charges.now ≡ memories.now.count }
    requires small { IsFromTo (neg_ℤ (pos most_link)) (pos most_link) limit }
    ensures exact { IfOk result (λ found. (near : ℕ → List ℕ) (rows : List (SubsetRow × ℤ))
        → AreMemoriesOf (rules_by nodes.now.nodes nodes.now.depot nodes.now.loads.now nodes.now.room nodes.now.rows.now near rows)
        memories.now.count memories.now.keys.items memories.now.places.items
        → map (λ (row : SubsetRow × ℤ). row.1) rows ≡ charges.now → AreCharges rows
        → IsLeastRunIfFew (rules_by nodes.now.nodes nodes.now.depot nodes.now.loads.now nodes.now.room nodes.now.rows.now near rows) limit found) }
    ensures size { IfOk result (λ found. (near : ℕ → List ℕ) (rows : List (SubsetRow × ℤ))
        → AreMemoriesOf (rules_by nodes.now.nodes nodes.now.depot nodes.now.loads.now nodes.now.room nodes.now.rows.now near rows)
        memories.now.count memories.now.keys.items memories.now.places.items
        → map (λ (row : SubsetRow × ℤ). row.1) rows ≡ charges.now → AreCharges rows
        → IfSome found (IsFromTo (neg_ℤ (pos (2 ^ 83))) (pos (2 ^ 83)))) }
{
    let homes = ways_home(alloc, nodes)?;
    let steps = step_tables(alloc, memories, charges)?;
    let leaf = RunLeaf {
        nodes,
        memories,
        charges,
        homes: &homes,
        steps: &steps,
        limit,
    };
    let Some(table) = kept_states(alloc, &leaf)? else {
        return Ok(None);
    };
    Ok(Some(least_run(&leaf, &table)))
}

// ---- the last step, over all kept states

/// The least weight that was found so far.
#[derive(Clone, Copy)]
struct FoundRun {
    least: i128,
}

/// The smaller of the limit and the least weight of a run.
fn least_run(leaf: &RunLeaf, table: &[Vec<Vec<KeptState>>]) -> i128
    requires long { length table.now ≡ leaf.now.nodes.now.room + 1 }
    requires sizes { AreSizedRows leaf.now.nodes.now.nodes table.now }
    ensures { (near : ℕ → List ℕ) (rows : List (SubsetRow × ℤ)) → IsLeafOf leaf.now near rows
        → AreStateRows (rules_of leaf.now near rows) leaf.now.limit table.now
        → IsLeastRun (rules_of leaf.now near rows) leaf.now.limit result }
{
    let mut found = FoundRun { least: leaf.limit };
    'loads: for load in 0..table.len() {
        found = least_of_load(leaf, table, load, found);
    }
    found.least
}

/// The smallest of `begun` and the weights of the runs with one load.
fn least_of_load(
    leaf: &RunLeaf,
    table: &[Vec<Vec<KeptState>>],
    load: usize,
    begun: FoundRun,
) -> FoundRun
    requires load { load < length table.now }
    requires long { length table.now ≡ leaf.now.nodes.now.room + 1 }
    requires sizes { AreSizedRows leaf.now.nodes.now.nodes table.now }
    ensures keeps { result.least ≤ℤ begun.least }
    ensures below { IsBelowLoad leaf.now.nodes.now.depot (link_in leaf.now.nodes.now.rows.now) table.now load
        leaf.now.nodes.now.nodes result.least }
    ensures met { (result.least ≡ begun.least) ⊎ IsMetAtLoad leaf.now.nodes.now.nodes leaf.now.nodes.now.depot
        (link_in leaf.now.nodes.now.rows.now) table.now load result.least }
{
    let mut found = begun;
    'nodes: for index in 0..leaf.nodes.nodes {
        found = least_of_last(leaf, table, load, index + 1, found);
    }
    found
}

/// The smallest of `begun` and the weights of the runs with one load that end with this customer.
fn least_of_last(
    leaf: &RunLeaf,
    table: &[Vec<Vec<KeptState>>],
    load: usize,
    last: u32,
    begun: FoundRun,
) -> FoundRun
    requires last { IsNode leaf.now.nodes.now.nodes last }
    requires load { load < length table.now }
    requires long { length table.now ≡ leaf.now.nodes.now.room + 1 }
    requires sizes { AreSizedRows leaf.now.nodes.now.nodes table.now }
    ensures keeps { result.least ≤ℤ begun.least }
    ensures below { last ≢ leaf.now.nodes.now.depot
        → IsBelowEntries result.least (link_in leaf.now.nodes.now.rows.now last leaf.now.nodes.now.depot) (list_in table.now load last) }
    ensures met { (result.least ≡ begun.least) ⊎ ((last ≢ leaf.now.nodes.now.depot)
        × IsMetBy result.least (link_in leaf.now.nodes.now.rows.now last leaf.now.nodes.now.depot) (list_in table.now load last)) }
{
    if last == leaf.nodes.depot {
        return begun;
    }
    least_of_list(leaf, last, list_at(table, load, last), begun)
}

/// The smallest of `begun` and the weights of a list's entries, each plus its link to the depot.
fn least_of_list(leaf: &RunLeaf, last: u32, entries: &[KeptState], begun: FoundRun) -> FoundRun
    requires last { IsNode leaf.now.nodes.now.nodes last }
    requires sizes { (load : ℕ) × (load < 2 ^ 23) × AreSizedEntries load entries.now }
    ensures keeps { result.least ≤ℤ begun.least }
    ensures below { IsBelowEntries result.least (link_in leaf.now.nodes.now.rows.now last leaf.now.nodes.now.depot) entries.now }
    ensures met { (result.least ≡ begun.least)
        ⊎ IsMetBy result.least (link_in leaf.now.nodes.now.rows.now last leaf.now.nodes.now.depot) entries.now }
{
    let mut found = begun;
    'entries: for index in 0..entries.len() {
        let entry = entry_at(entries, index);
        found = lesser_of(leaf, last, entry, found);
    }
    found
}

/// The smaller of `begun` and the weight of an entry plus its link to the depot.
fn lesser_of(leaf: &RunLeaf, last: u32, entry: KeptState, begun: FoundRun) -> FoundRun
    requires last { IsNode leaf.now.nodes.now.nodes last }
    requires size { IsFromTo (neg_ℤ (pos (2 ^ 96))) (pos (2 ^ 96)) entry.weight }
    ensures keeps { result.least ≤ℤ begun.least }
    ensures own { result.least ≤ℤ (entry.weight +ℤ link_in leaf.now.nodes.now.rows.now last leaf.now.nodes.now.depot) }
    ensures met { (result.least ≡ begun.least)
        ⊎ (result.least ≡ entry.weight +ℤ link_in leaf.now.nodes.now.rows.now last leaf.now.nodes.now.depot) }
{
    let link = weight_in(leaf.nodes.row(last), leaf.nodes.depot);
    let weight = entry.weight + i128::from(link);
    if weight < begun.least {
        FoundRun { least: weight }
    } else {
        begun
    }
}
