//! The parts of a verdict on a tour: the only tour of a solution, the reasons against its nodes,
//! the first fixed pair that it misses, and the costs of the instance. `solution_verdict.rt` puts
//! them together; `routes.rt` uses the searches in lists of nodes, too.
//! `specs/SolutionReasons.antt` pins the reasons.

ghost use Rattle.tsp_verdict.specs.Prelude.{All, [], length, Some, MatchOption, MatchResult, ℕ, List, vec_len, IfOk, slice_index_or, MatchBool, false, pos, most_capacity, IsNode, cost, nodes_of, is_tour_file, IsFromTo, IsFirstAsymmetric, IsCycle, Uses, is_directed, depots_of, demands_of, capacity_of, FixedEdgeUnused, TourCount};
ghost use Rattle.std.specs.Bool.{OnTrue};
ghost use Rattle.std.specs.Prelude.{◌≡◌, ◌⊎◌, ◌<◌, ◌≤◌, ◌∷◌, ◌≢◌, ◌+◌, ◌^◌, ◌-◌};
ghost use Rattle.tsp_format.specs.declared.kinds.Kind.TheVariants as kinds;
ghost use Rattle.tsp_file.specs.Valid.{IsPairOf, IsDemand};
ghost use Rattle.tsp_theory.specs.First.{IsFirstPlace};
ghost use Rattle.tsp_verdict.specs.SolutionReasons.{IsLarger, IsAt, IsAtEarlierPlace, HoldsAtNone, IsUnused, tours_of, NoneOfTourBefore, NoneOfTourBeforeNodes, IsFirstAgainstTour, NoneOfTourBeforeRepeats};
ghost use Rattle.tsp_verdict.specs.states.Marks.{Marked, StandsAfter, AreNext, AreToursOf};
ghost use Rattle.tsp_verdict.specs.states.TourKnownBounds.{AreTourCosts};

use std::alloc::Global;
use tsp_cost::{Costs, Instance, SymmetricView, View, symmetric_view};
use tsp_file::{File, RoutingData};
use tsp_format::Kind;
use tsp_io::{Refused, filled};
use tsp_report::Reason;

/// The fewest nodes of an instance whose tours are judged.
pub(crate) const FEWEST_NODES_OF_TOURS: u32 = 3;

/// The costs of an instance, by its TYPE.
#[derive(Clone, Copy)]
pub(crate) enum TourCosts<'a> {
    /// TYPE TSP, whose costs are the same in both directions.
    Undirected(SymmetricView<'a>),
    /// TYPE ATSP.
    Directed(View<'a>),
}

/// The only tour of a solution, with as many nodes as the instance, or the first reason that comes
/// before those against its nodes.
pub(crate) fn the_tour<'a>(
    inst: &Instance,
    sol: &File,
    tours: &'a [Vec<u32>],
) -> Result<&'a [u32], Reason>
    requires tours { AreToursOf sol.now tours.now }
    requires before { NoneOfTourBefore inst.now sol.now TourCount }
    ensures { MatchResult result
        (λ tour. (tours_of sol.now ≡ tour.now ∷ []) × (length tour.now ≡ nodes_of inst.now)
        × All (λ node. 1 ≤ node) tour.now × NoneOfTourBeforeNodes inst.now sol.now)
        (λ reason. IsFirstAgainstTour inst.now sol.now reason) }
{
    let [tour] = tours else {
        return Err(Reason::TourCount);
    };
    if tour.len() != inst.count() as usize {
        return Err(Reason::TourLength);
    }
    Ok(tour.as_slice())
}

/// The first reason against the nodes of a tour: one out of range, or repeated.
///
/// # Errors
///
/// Out of memory. It allocates a mark for each node.
pub(crate) fn first_against_nodes(
    alloc: Global,
    inst: &Instance,
    sol: &File,
    tour: &[u32],
) -> Result<Option<Reason>, Refused>
    requires only { tours_of sol.now ≡ tour.now ∷ [] }
    requires each { length tour.now ≡ nodes_of inst.now }
    requires some { All (λ node. 1 ≤ node) tour.now }
    requires before { NoneOfTourBeforeNodes inst.now sol.now }
    ensures { MatchResult result
        (λ found. MatchOption found (IsCycle (nodes_of inst.now) tour.now
        × NoneOfTourBefore inst.now sol.now (FixedEdgeUnused 1))
        (λ reason. IsFirstAgainstTour inst.now sol.now reason))
        (λ refused. NoneOfTourBeforeRepeats inst.now sol.now) }
{
    let nodes = inst.count();
    if are_different(alloc, tour, nodes) {
        return Ok(None);
    }
    if let Some(place) = first_larger(tour, nodes) {
        return Ok(Some(Reason::NodeOutOfRange { place }));
    }
    match first_repeated(alloc, tour, nodes)? {
        Some(place) => Ok(Some(Reason::RepeatedNode { place })),
        None => Ok(None),
    }
}

/// The costs of an instance of TYPE TSP or ATSP.
///
/// # Errors
///
/// For TYPE TSP, the first pair of nodes whose two costs differ.
pub(crate) fn tour_costs(inst: &Instance) -> Result<TourCosts<'_>, (u32, u32)>
    requires { (inst.now.kind ≡ Some kinds.Tsp) ⊎ (inst.now.kind ≡ Some kinds.Atsp) }
    ensures { MatchResult result
        (λ costs. AreTourCosts inst.now costs)
        (λ pair. (inst.now.kind ≡ Some kinds.Tsp)
        × IsFirstAsymmetric (nodes_of inst.now) (cost inst.now) pair) }
{
    if inst.kind() != Kind::Tsp {
        return Ok(TourCosts::Directed(inst.view()));
    }
    match symmetric_view(inst) {
        Ok(view) => Ok(TourCosts::Undirected(view)),
        Err(pair) => Err(pair),
    }
}

/// Whether fixed pairs have a direction.
pub(crate) fn is_directed(kind: Kind) -> bool
    ensures { result ≡ is_directed (Some kind) }
{
    match kind {
        Kind::Atsp => true,
        Kind::Tsp | Kind::Cvrp | Kind::Tour | Kind::Potentials | Kind::Branches => false,
    }
}

// ---- the first place in a list of nodes with a repeated node, one that is too large, or a given
// one

/// Whether each node is at most n and comes only once. Also `false` if memory was refused.
///
/// This is the quick test, which almost every tour passes. If it fails, the caller looks for the
/// place.
fn are_different(alloc: Global, nodes: &[u32], n: u32) -> bool
    ensures { OnTrue result (All (λ node. node ≤ n) nodes.now
        × HoldsAtNone (IsAtEarlierPlace nodes.now) (length nodes.now)) }
{
    match filled(alloc, false, n as usize + 1) {
        Ok(mut seen) => mark_different(&mut seen, nodes, n),
        Err(_) => false,
    }
}

/// Marks nodes. Returns whether each is at most n and was not marked before.
fn mark_different(taken: &mut [bool], nodes: &[u32], n: u32) -> bool
    requires size { length taken.old ≡ n + 1 }
    requires fresh { Marked nodes.now taken.old 0 }
    ensures { OnTrue result (All (λ node. node ≤ n) nodes.now
        × HoldsAtNone (IsAtEarlierPlace nodes.now) (length nodes.now)) }
{
    'nodes: for node in nodes {
        if *node > n || taken[*node as usize] {
            return false;
        }
        taken[*node as usize] = true;
    }
    true
}

/// The first place whose node is larger than n.
pub(crate) fn first_larger(nodes: &[u32], n: u32) -> Option<u32>
    requires { length nodes.now < 2 ^ 32 }
    ensures { MatchOption result
        (All (λ node. node ≤ n) nodes.now)
        (λ place. IsFirstPlace (IsLarger n nodes.now) nodes.now place) }
{
    let mut place = 0;
    'nodes: for node in nodes {
        place += 1;
        if *node > n {
            return Some(place);
        }
    }
    None
}

/// The first place whose node is the one sought.
pub(crate) fn first_of(nodes: &[u32], sought: u32) -> Option<u32>
    requires { length nodes.now < 2 ^ 32 }
    ensures { MatchOption result
        (All (λ node. node ≢ sought) nodes.now)
        (λ place. IsFirstPlace (IsAt sought nodes.now) nodes.now place) }
{
    let mut place = 0;
    'nodes: for node in nodes {
        place += 1;
        if *node == sought {
            return Some(place);
        }
    }
    None
}

/// The first place whose node is at an earlier place too.
///
/// # Errors
///
/// Out of memory. It allocates a mark for each node.
fn first_repeated(alloc: Global, nodes: &[u32], n: u32) -> Result<Option<u32>, Refused>
    requires size { length nodes.now < 2 ^ 32 }
    requires range { All (λ node. node ≤ n) nodes.now }
    ensures { IfOk result (λ found. MatchOption found
        (HoldsAtNone (IsAtEarlierPlace nodes.now) (length nodes.now))
        (λ place. IsFirstPlace (IsAtEarlierPlace nodes.now) nodes.now place)) }
{
    let mut seen = filled(alloc, false, n as usize + 1)?;
    Ok(mark(&mut seen, nodes))
}

/// Marks nodes, up to the first place whose node is marked already.
pub(crate) fn mark(seen: &mut Vec<bool>, nodes: &[u32]) -> Option<u32>
    requires size { length nodes.now < 2 ^ 32 }
    requires range { All (λ node. node < vec_len seen.old) nodes.now }
    ensures len { vec_len seen.new ≡ vec_len seen.old }
    ensures marks { (all : List ℕ) (before : ℕ) → StandsAfter before all nodes.now
        → Marked all seen.old.items before → MatchOption result
        (Marked all seen.new.items (before + length nodes.now))
        (λ place. IsFirstPlace (IsAtEarlierPlace all) all (before + place)) }
{
    let mut place = 0;
    'nodes: for node in nodes {
        place += 1;
        if seen[*node as usize] {
            return Some(place);
        }
        seen[*node as usize] = true;
    }
    None
}

// ---- the first fixed pair that a tour does not use

/// The first fixed pair, counted from 1, that a cycle of n nodes doesn't use: as neighbours in
/// either direction or, if pairs have one, from the pair's first to its second node.
///
/// # Errors
///
/// Out of memory. It allocates a number for each node if a pair is fixed.
pub(crate) fn first_unused_by(
    alloc: Global,
    cycle: &[u32],
    n: u32,
    fixed: &[(u32, u32)],
    directed: bool,
) -> Result<Option<u32>, Refused>
    requires cycle { IsCycle n cycle.now }
    requires size { length fixed.now < 2 ^ 32 }
    requires range { All (IsPairOf n) fixed.now }
    ensures { IfOk result (λ found. MatchOption found
        (All (Uses directed cycle.now) fixed.now)
        (λ index. IsFirstPlace (IsUnused directed cycle.now fixed.now) fixed.now index)) }
{
    if fixed.is_empty() {
        return Ok(None);
    }
    let next = next_nodes(alloc, cycle, n)?;
    Ok(first_unused(fixed, next.as_slice(), directed))
}

/// For each node of a cycle of n nodes, the node that comes next; after the last comes the first.
///
/// # Errors
///
/// Out of memory. It allocates a number for each node.
fn next_nodes(alloc: Global, cycle: &[u32], n: u32) -> Result<Vec<u32>, Refused>
    requires { IsCycle n cycle.now }
    ensures { IfOk result (λ next. (vec_len next ≡ n + 1) × AreNext cycle.now next.items) }
{
    let mut next = filled(alloc, 0, n as usize + 1)?;
    let Some((first, others)) = cycle.split_first() else {
        return Ok(next);
    };
    let mut from = *first;
    'nodes: for node in others {
        next[from as usize] = *node;
        from = *node;
    }
    next[from as usize] = *first;
    Ok(next)
}

/// The first fixed pair that a cycle does not use, given the next node after each node.
fn first_unused(fixed: &[(u32, u32)], next: &[u32], directed: bool) -> Option<u32>
    requires size { length fixed.now < 2 ^ 32 }
    requires range { All (IsPairOf (length next.now - 1)) fixed.now }
    ensures { (cycle : List ℕ) → AreNext cycle next.now → MatchOption result
        (All (Uses directed cycle) fixed.now)
        (λ index. IsFirstPlace (IsUnused directed cycle fixed.now) fixed.now index) }
{
    let mut index = 0;
    'pairs: for pair in fixed {
        index += 1;
        if !is_used(*pair, next, directed) {
            return Some(index);
        }
    }
    None
}

/// Whether a pair is used.
fn is_used(pair: (u32, u32), next: &[u32], directed: bool) -> bool
    requires { IsPairOf (length next.now - 1) pair }
    ensures { (cycle : List ℕ) → AreNext cycle next.now
        → MatchBool result (Uses directed cycle pair) (Uses directed cycle pair → ⊥) }
{
    if next[pair.0 as usize] == pair.1 {
        return true;
    }
    if directed {
        return false;
    }
    next[pair.1 as usize] == pair.0
}

// ---- the tours of a solution file, and the depot, demands and capacity of a routing instance

/// The tours of a solution; `None` if the file has another TYPE.
pub(crate) fn solution_tours(sol: &File) -> Option<&[Vec<u32>]>
    ensures { MatchOption result
        (is_tour_file sol.now.kind ≡ false)
        (λ tours. AreToursOf sol.now tours.now) }
{
    sol.as_tours()
}

/// The depots, demands and capacity of an instance of TYPE CVRP.
pub(crate) fn routing(inst: &Instance) -> RoutingData<'_>
    requires { inst.now.kind ≡ Some kinds.Cvrp }
    ensures capacity { result.capacity ≡ capacity_of inst.now }
    ensures loadable { IsFromTo (pos 1) (pos most_capacity) result.capacity }
    ensures demands { result.demands.now ≡ demands_of inst.now }
    ensures each { length result.demands.now ≡ nodes_of inst.now }
    ensures each_demand { All IsDemand result.demands.now }
    ensures depots { result.depots.now ≡ depots_of inst.now }
    ensures each_depot { All (IsNode (nodes_of inst.now)) result.depots.now }
{
    inst.routing().unwrap()
}
