//! The verdict on routes: the first reason against the instance or the plan, or the number of
//! routes and their length. Also the bound that a branches file gives for routes.
//! `solution_verdict.rt` and `known_bound.rt` call it. The order of the tests decides the reason,
//! so keep it (`specs/SolutionReasons.antt`).

ghost use Rattle.tsp_verdict.specs.Prelude.{All, length, pos, Some, MatchOption, MatchResult, ℕ, true, false, vec_len, slice_index_or, map, IfOk, IsErr, most_nodes, most_tour_nodes, most_capacity, IsNode, nodes_to, cost, HoldsCases, HoldsMemory, nodes_of, is_branches_file, IsFromTo, length_of, demand_of, load_of, IsLeastRoutes, plan_length, demands_of, depots_of, depot_of};
ghost use Rattle.std.specs.Prelude.{◌≡◌, ◌≤◌, ◌≢◌, ◌+◌, ◌^◌, ◌<◌, ◌≤ℤ◌, ◌∷◌};
ghost use Rattle.tsp_format.specs.declared.kinds.Kind.TheVariants as kinds;
ghost use Rattle.tsp_format.specs.states.TreeSteps.{steps_of, subset_rows_of};
ghost use Rattle.tsp_file.specs.Valid.{IsDemand};
ghost use Rattle.tsp_file.specs.states.Drafts.{families_of};
ghost use Rattle.tsp_verdict.specs.Certified.{AppliesToRouting, NoneAgainstRouting, FindsBound, NoneWithoutMemory};
ghost use Rattle.tsp_theory.specs.First.{IsFirstPlace};
ghost use Rattle.tsp_verdict.specs.SolutionReasons.{IsLarger, IsAt, IsAtEarlierPlace, AreCustomers, IsFirstReason, NoneOfRoutesBeforePlaces, IsFirstAgainstRoutes, IsRoutesVerdict, NoneOfRoutesBeforeRepeats, IsOverloaded};
ghost use Rattle.tsp_verdict.specs.states.Marks.{Marked, AreToursOf, nodes_in, IsSumOf};
ghost use Rattle.tsp_report.specs.declared.task.CertificateKind.TheVariants as certificates;

use crate::certificate::{found_by_tree, tree_of};
use crate::tour::{first_larger, first_of, mark, routing, solution_tours};
use std::alloc::Global;
use tsp_cost::{Costs, Instance};
use tsp_file::{File, RoutingData, TreeData};
use tsp_io::{Refused, filled};
use tsp_report::{BoundVerdict, Reason, Verdict};
use tsp_routing::{PlanTree, judge_plans};

/// The fewest nodes of an instance whose routes are judged.
pub(crate) const FEWEST_NODES_OF_ROUTES: u32 = 2;

/// Judges the routes of a CVRP: their length, or the first reason against them.
///
/// Reasons are judged in the order of [`Reason`]. Accepted routes come with their number, and with
/// the least number of routes that any plan has.
///
/// # Errors
///
/// Out of memory. It allocates a mark for each node, after the reasons up to `NodeOutOfRange`, none
/// of which applies then.
pub(crate) fn verdict_on_routes(
    alloc: Global,
    inst: &Instance,
    sol: &File,
) -> Result<Verdict, Refused>
    requires { inst.now.kind ≡ Some kinds.Cvrp }
    ensures { MatchResult result
        (λ verdict. IsRoutesVerdict inst.now sol.now verdict)
        (λ refused. NoneOfRoutesBeforeRepeats inst.now sol.now) }
{
    let routing = routing(inst);
    let Some(routes) = solution_tours(sol) else {
        return Ok(Verdict::No(Reason::NotASolution));
    };
    let nodes = inst.count();
    if nodes < FEWEST_NODES_OF_ROUTES {
        return Ok(Verdict::No(Reason::TooFewNodes));
    }
    if sol.dimension().is_some_and(|stated| stated != nodes) {
        return Ok(Verdict::No(Reason::Dimension));
    }
    // `DepotCount`, `DepotDemand`, `FixedEdgesInRoutes`
    let depot = match the_depot(inst, &routing) {
        Ok(depot) => depot,
        Err(reason) => return Ok(Verdict::No(reason)),
    };
    // `DepotInRoute`, `NodeOutOfRange`
    if let Some(reason) = first_against_places(inst, sol, depot, routes) {
        return Ok(Verdict::No(reason));
    }
    let mut seen = filled(alloc, false, inst.count() as usize + 1)?;
    if let Some(place) = mark_all(&mut seen, routes) {
        return Ok(Verdict::No(Reason::RepeatedNode { place }));
    }
    if let Some(node) = first_unmarked(&seen, depot) {
        return Ok(Verdict::No(Reason::Unserved { node }));
    }
    if let Some(route) = first_overload(routes, routing.demands, routing.capacity) {
        return Ok(Verdict::No(Reason::Overload { route }));
    }
    Ok(Verdict::Routes {
        length: plan_length(inst, depot, routes),
        routes: routes.len() as u32,
        least: least_routes(routing.demands, routing.capacity),
        bound: None,
    })
}

/// The only depot of an instance, or the first reason against the instance, whatever the routes.
pub(crate) fn depot_of_routes(inst: &Instance) -> Result<u32, Reason>
    requires { inst.now.kind ≡ Some kinds.Cvrp }
    ensures { MatchResult result (λ depot. (2 ≤ nodes_of inst.now) × (depot ≡ depot_of inst.now)
        × IsNode (nodes_of inst.now) depot × NoneAgainstRouting inst.now)
        (λ reason. IsFirstReason (AppliesToRouting inst.now) reason) }
{
    if inst.count() < FEWEST_NODES_OF_ROUTES {
        return Err(Reason::TooFewNodes);
    }
    match the_depot(inst, &routing(inst)) {
        Ok(depot) => Ok(depot),
        Err(reason) => Err(reason),
    }
}

/// The only depot of an instance with enough nodes, or the first reason against the instance,
/// whatever the routes.
pub(crate) fn the_depot(inst: &Instance, routing: &RoutingData<'_>) -> Result<u32, Reason>
    requires some { 2 ≤ nodes_of inst.now }
    requires demands { routing.now.demands.now ≡ demands_of inst.now }
    requires each { length routing.now.demands.now ≡ nodes_of inst.now }
    requires depots { routing.now.depots.now ≡ depots_of inst.now }
    requires each_depot { All (IsNode (nodes_of inst.now)) routing.now.depots.now }
    ensures { MatchResult result (λ depot. (depot ≡ depot_of inst.now)
        × IsNode (nodes_of inst.now) depot × (demand_of (demands_of inst.now) depot ≡ pos 0)
        × NoneAgainstRouting inst.now)
        (λ reason. IsFirstReason (AppliesToRouting inst.now) reason) }
{
    let [depot] = routing.depots else {
        return Err(Reason::DepotCount);
    };
    if routing.demands[*depot as usize - 1] != 0 {
        return Err(Reason::DepotDemand);
    }
    if !inst.fixed().is_empty() {
        return Err(Reason::FixedEdgesInRoutes);
    }
    Ok(*depot)
}

/// The first reason that a single node shows: the depot in a route, or else a node that is too
/// large.
fn first_against_places(
    inst: &Instance,
    sol: &File,
    depot: u32,
    routes: &[Vec<u32>],
) -> Option<Reason>
    requires depot { depot ≡ depot_of inst.now }
    requires routes { AreToursOf sol.now routes.now }
    requires before { NoneOfRoutesBeforePlaces inst.now sol.now }
    ensures { MatchOption result
        (AreCustomers inst.now sol.now × NoneOfRoutesBeforeRepeats inst.now sol.now)
        (λ reason. IsFirstAgainstRoutes inst.now sol.now reason) }
{
    if let Some(place) = first_of_in(routes, depot) {
        return Some(Reason::DepotInRoute { place });
    }
    if let Some(place) = first_larger_in(routes, inst.count()) {
        return Some(Reason::NodeOutOfRange { place });
    }
    None
}

// ---- the first place of several routes with a repeated, a too large or a sought node

/// The first place whose node is larger than n.
fn first_larger_in(routes: &[Vec<u32>], n: u32) -> Option<u32>
    requires { length (nodes_in routes.now) < 2 ^ 32 }
    ensures { MatchOption result
        (All (λ node. node ≤ n) (nodes_in routes.now))
        (λ place. IsFirstPlace (IsLarger n (nodes_in routes.now)) (nodes_in routes.now) place) }
{
    let mut before = 0;
    'routes: for route in routes {
        let nodes = route.as_slice();
        if let Some(place) = first_larger(nodes, n) {
            return Some(before + place);
        }
        before += nodes.len() as u32;
    }
    None
}

/// The first place whose node is the one sought.
fn first_of_in(routes: &[Vec<u32>], sought: u32) -> Option<u32>
    requires { length (nodes_in routes.now) < 2 ^ 32 }
    ensures { MatchOption result
        (All (λ node. node ≢ sought) (nodes_in routes.now))
        (λ place. IsFirstPlace (IsAt sought (nodes_in routes.now)) (nodes_in routes.now) place) }
{
    let mut before = 0;
    'routes: for route in routes {
        let nodes = route.as_slice();
        if let Some(place) = first_of(nodes, sought) {
            return Some(before + place);
        }
        before += nodes.len() as u32;
    }
    None
}

/// Marks the nodes of all routes, up to the first place whose node is at an earlier place too.
fn mark_all(seen: &mut Vec<bool>, routes: &[Vec<u32>]) -> Option<u32>
    requires size { length (nodes_in routes.now) < 2 ^ 32 }
    requires range { All (λ node. node < vec_len seen.old) (nodes_in routes.now) }
    requires fresh { Marked (nodes_in routes.now) seen.old.items 0 }
    ensures len { vec_len seen.new ≡ vec_len seen.old }
    ensures marks { MatchOption result
        (Marked (nodes_in routes.now) seen.new.items (length (nodes_in routes.now)))
        (λ place. IsFirstPlace (IsAtEarlierPlace (nodes_in routes.now)) (nodes_in routes.now) place) }
{
    let mut before = 0;
    'routes: for route in routes {
        let nodes = route.as_slice();
        if let Some(place) = mark(seen, nodes) {
            return Some(before + place);
        }
        before += nodes.len() as u32;
    }
    None
}

/// The least number from 1 on, other than the depot, that isn't marked.
fn first_unmarked(seen: &Vec<bool>, depot: u32) -> Option<u32>
    requires { vec_len seen.now < 2 ^ 32 }
    ensures { MatchOption result
        ((node : ℕ) → 1 ≤ node → node < vec_len seen.now → node ≢ depot
        → slice_index_or seen.now.items node false ≡ true)
        (λ node. (1 ≤ node) × (node < vec_len seen.now) × (node ≢ depot)
        × (slice_index_or seen.now.items node false ≡ false)
        × ((other : ℕ) → 1 ≤ other → other < node → other ≢ depot
        → slice_index_or seen.now.items other false ≡ true)) }
{
    'nodes: for node in 1..seen.len() as u32 {
        if node != depot && !seen[node as usize] {
            return Some(node);
        }
    }
    None
}

// ---- the first route over the capacity, and the least number of routes that carry all demands

/// The first route, counted from 1, whose demands sum to more than the capacity.
fn first_overload(routes: &[Vec<u32>], demands: &[i64], capacity: i64) -> Option<u32>
    requires range { All (IsNode (length demands.now)) (nodes_in routes.now) }
    requires size { length (nodes_in routes.now) ≤ most_tour_nodes }
    requires few { length routes.now ≤ most_tour_nodes }
    requires demands { All IsDemand demands.now }
    ensures { MatchOption result (All (λ route. load_of demands.now route
        ≤ℤ capacity) (map (λ route. route.items) routes.now))
        (λ place. IsFirstPlace (IsOverloaded demands.now capacity
        (map (λ route. route.items) routes.now)) (map (λ route. route.items) routes.now) place) }
{
    let mut index = 0;
    'routes: for route in routes {
        index += 1;
        let nodes = route.as_slice();
        if load(nodes, demands) > capacity {
            return Some(index);
        }
    }
    None
}

/// The sum of the demands of the nodes of a route.
fn load(route: &[u32], demands: &[i64]) -> i64
    requires range { All (IsNode (length demands.now)) route.now }
    requires size { length route.now ≤ most_tour_nodes }
    requires demands { All IsDemand demands.now }
    ensures { result ≡ load_of demands.now route.now }
{
    let mut sum = 0;
    'nodes: for node in route {
        sum += demands[*node as usize - 1];
    }
    sum
}

/// The least number of routes that carry all demands: the least L with `L * capacity` at least
/// their sum.
pub(crate) fn least_routes(demands: &[i64], capacity: i64) -> u64
    requires demands { All IsDemand demands.now }
    requires size { length demands.now ≤ most_nodes }
    requires capacity { IsFromTo (pos 1) (pos most_capacity) capacity }
    ensures { IsLeastRoutes (load_of demands.now (nodes_to (length demands.now))) capacity result }
{
    let total = total(demands) as u64;
    let capacity = capacity as u64;
    (total + (capacity - 1)) / capacity
}

/// The sum of all demands.
fn total(demands: &[i64]) -> i64
    requires demands { All IsDemand demands.now }
    requires size { length demands.now ≤ most_nodes }
    ensures value { result ≡ load_of demands.now (nodes_to (length demands.now)) }
    ensures low { pos 0 ≤ℤ result }
{
    let mut sum = 0;
    'demands: for demand in demands {
        sum += *demand;
    }
    sum
}

// ---- the length of a plan: of each route, from the depot and back

/// The length of routes: the sum of the costs from the depot through each route and back.
fn plan_length(inst: &Instance, depot: u32, routes: &[Vec<u32>]) -> i64
    requires depot { IsNode (nodes_of inst.now) depot }
    requires range { All (IsNode (nodes_of inst.now)) (nodes_in routes.now) }
    requires size { length (nodes_in routes.now) ≤ most_tour_nodes }
    requires few { length routes.now ≤ most_tour_nodes }
    ensures { result ≡ plan_length (cost inst.now) depot (map (λ route. route.items) routes.now) }
{
    let mut length = 0;
    'routes: for route in routes {
        let nodes = route.as_slice();
        length += route_length(inst, depot, nodes);
    }
    length
}

/// The sum of the costs from the depot through a route and back.
fn route_length(inst: &Instance, depot: u32, route: &[u32]) -> i64
    requires depot { IsNode (nodes_of inst.now) depot }
    requires range { All (IsNode (nodes_of inst.now)) route.now }
    requires size { length route.now ≤ most_tour_nodes }
    ensures value { result ≡ length_of (cost inst.now) (depot ∷ route.now) }
    ensures size { IsSumOf (length route.now + 1) result }
{
    let mut from = depot;
    let mut length = 0;
    'nodes: for node in route {
        length += inst.cost(from, *node);
        from = *node;
    }
    length + inst.cost(from, depot)
}

// ---- the bound that a tree of cases gives routes, or the first reason against it

/// The bound that a branches file gives for routes, or that the instance has no plan without empty
/// routes, or the first reason against the file.
///
/// # Requires
///
/// A CVRP with two or more nodes, and its only depot.
///
/// # Errors
///
/// Out of memory. Then neither `NotBranches` nor `BranchesDimension` applies to the certificate.
pub(crate) fn plan_tree_bound(
    alloc: Global,
    instance: &Instance,
    depot: u32,
    branches: &File,
) -> Result<BoundVerdict, Refused>
    requires kind { instance.now.kind ≡ Some kinds.Cvrp }
    requires some { 2 ≤ nodes_of instance.now }
    requires depot { depot ≡ depot_of instance.now }
    requires inside { IsNode (nodes_of instance.now) depot }
    ensures found { IfOk result
        (λ found. FindsBound certificates.Branches instance.now branches.now found) }
    ensures refused { IsErr result
        → NoneWithoutMemory certificates.Branches instance.now branches.now }
{
    match tree_of(instance, branches) {
        Ok(tree) => judge_plan_tree(alloc, instance, depot, branches, &tree),
        Err(reason) => Ok(Err(reason)),
    }
}

/// The bound of a tree of cases, or the first reason against its families, memories, subset rows,
/// branches or leaves, or because of too many loads or kept states.
///
/// # Errors
///
/// Out of memory.
fn judge_plan_tree(
    alloc: Global,
    instance: &Instance,
    depot: u32,
    branches: &File,
    tree: &TreeData<'_>,
) -> Result<BoundVerdict, Refused>
    requires kind { instance.now.kind ≡ Some kinds.Cvrp }
    requires some { 2 ≤ nodes_of instance.now }
    requires depot { depot ≡ depot_of instance.now }
    requires inside { IsNode (nodes_of instance.now) depot }
    requires sort { is_branches_file branches.now.kind ≡ true }
    requires count { nodes_of branches.now ≡ nodes_of instance.now }
    requires held { HoldsCases branches.now tree.now.scale tree.now.load_unit
        (families_of tree.now.families.now) (steps_of tree.now.steps.now) }
    requires memory { HoldsMemory branches.now (map (λ list. list.items) tree.now.memories.now)
        (subset_rows_of tree.now.subset_rows.now) }
    ensures { IfOk result
        (λ found. FindsBound certificates.Branches instance.now branches.now found) }
{
    let routing = routing(instance);
    let plans = PlanTree {
        costs: instance,
        depot,
        demands: routing.demands,
        capacity: routing.capacity,
        scale: tree.scale,
        unit: tree.load_unit,
        families: tree.families,
        near: tree.memories,
        rows: tree.subset_rows,
        steps: tree.steps,
    };
    let verdict = judge_plans(alloc, &plans)?;
    Ok(found_by_tree(verdict))
}
