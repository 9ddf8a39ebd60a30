//! The theorems on routes: how often plans cross sets, that routes are walks and runs, what rows
//! charge, and that no plan is shorter than the bound of a tree of cases. `plan_verdict.rt` calls
//! the two laws on trees (`plan_trees_bound_plans`, `run_trees_bound_plans`), and tsp_verdict calls
//! `plan_bounds_are_unique`. The statements are defined in `specs/`.

ghost use Rattle.tsp_routing.specs.KeptStates.{CompletionsTellKeptStates, CompletionsAreBelowRests, RunsBelowAreKept, KeptStartsGiveLeastRuns, EqualStatesGoOnAlike};
ghost use Rattle.tsp_routing.specs.PlanBounds.{PlanBoundsBoundPlans, PlanTreesBoundPlans, PlanTreeBoundsAreUnique};
ghost use Rattle.tsp_routing.specs.PlanLinks.{LengthsAreWeights, PlanSums, PlansHaveFewRoutes, PlansLeaveCuts, PlansCrossCuts, PlansCrossEvenly, PlansKeepEitherLimit, PlansKeepLeaves, RoutesFitCapacity, LoadsAreSome};
ghost use Rattle.tsp_routing.specs.QRoutes.{RoutesAreQRoutes};
ghost use Rattle.tsp_routing.specs.RunBounds.{RunBoundsBoundPlans, RunBoundsAreUnique};
ghost use Rattle.tsp_routing.specs.RunTrees.{RunTreesBoundPlans};
ghost use Rattle.tsp_routing.specs.RunVerdicts.{PlanBoundsFoundAreUnique};
ghost use Rattle.tsp_routing.specs.Runs.{ApartCustomersAreRuns, RoutesAreRuns, RunsWeighLinksAndCharges, RowsAreChargedForTwo, PlansAreChargedHalf, PlansWeighAtMost};
ghost use Rattle.tsp_routing.specs.Starts.{KeptStartsAreStarts, StartsAreKeptStarts};

/// The length of a plan is the weight of its links; each customer begins one and ends one, and the
/// depot as many as there are routes. There are at most as many of these as customers.
///
/// No code calls it. It is here for readers: it shows how the potentials of a plan's nodes are
/// given back.
pub fn plan_links_add_up()
    ensures weights { LengthsAreWeights }
    ensures sums { PlanSums }
    ensures few { PlansHaveFewRoutes }
{}

/// A plan leaves a set of customers at least as often as the set needs routes, and enters it as
/// often, so it crosses the set's family as often as the family's number says.
///
/// No code calls it. It is here for readers: these are the rounded capacity inequalities.
pub fn plans_leave_cuts()
    ensures cuts { PlansLeaveCuts }
    ensures families { PlansCrossCuts }
{}

/// A plan crosses each set an even number of times, so it keeps the limits of a leaf of each whole
/// tree of cases.
///
/// No code calls it. It is here for readers: the leaves of a tree of cases miss no plan.
pub fn plans_keep_limits()
    ensures even { PlansCrossEvenly }
    ensures either { PlansKeepEitherLimit }
    ensures leaves { PlansKeepLeaves }
{}

/// The loads of a route's customers in units, each of which is at least 1, are within the capacity
/// in units; so each route is a walk.
///
/// No code calls it. It is here for readers: no route weighs less than a least walk.
pub fn routes_are_q_routes()
    ensures room { RoutesFitCapacity }
    ensures some { LoadsAreSome }
    ensures q_routes { RoutesAreQRoutes }
{}

/// A plan that keeps limits on sets, and whose weight is bounded, is no shorter than the bound that
/// this gives.
///
/// No code calls it. It is here for readers: this is the bound of one leaf.
pub fn plan_bounds_bound_plans()
    ensures { PlanBoundsBoundPlans }
{}

/// The bound of a tree of cases is at most the length of every plan without empty routes, and a
/// tree has one bound, or none.
pub fn plan_trees_bound_plans()
    ensures plans { PlanTreesBoundPlans }
    ensures one { PlanTreeBoundsAreUnique }
{}

/// The bound of a tree of cases by least runs is at most the length of every plan without empty
/// routes.
pub fn run_trees_bound_plans()
    ensures { RunTreesBoundPlans }
{}

/// A certificate has one bound, or none.
pub fn plan_bounds_are_unique()
    ensures { PlanBoundsFoundAreUnique }
{}

/// Different customers that fit the capacity are a run, so each route of a plan is one.
pub fn routes_are_runs()
    ensures apart { ApartCustomersAreRuns }
    ensures routes { RoutesAreRuns }
{}

/// A run pays for a row at most once for every two customers in its set, and all routes of a plan
/// at most half as often as the set has customers.
pub fn plans_are_charged_half()
    ensures weights { RunsWeighLinksAndCharges }
    ensures run { RowsAreChargedForTwo }
    ensures plan { PlansAreChargedHalf }
    ensures all { PlansWeighAtMost }
{}

/// The bound of a leaf by least runs is at most the length of every plan without empty routes that
/// keeps the leaf's decisions. A leaf has one such bound.
pub fn run_bounds_bound_plans()
    ensures plans { RunBoundsBoundPlans }
    ensures one { RunBoundsAreUnique }
{}

/// A run below the limit is a kept start, because its rest weighs no less than the completion
/// bound. So kept starts are enough to find the smaller of the limit and the least weight of a run.
pub fn kept_starts_give_least_runs()
    ensures told { CompletionsTellKeptStates }
    ensures rests { CompletionsAreBelowRests }
    ensures kept { RunsBelowAreKept }
    ensures least { KeptStartsGiveLeastRuns }
{}

/// Of all starts that end in the same state, the lightest one is enough.
pub fn equal_states_go_on_alike()
    ensures { EqualStatesGoOnAlike }
{}

/// A start is kept by its customers one after the other, whether they are listed from the first one
/// on or from the last one back.
pub fn starts_are_told_from_both_ends()
    ensures from_the_first { KeptStartsAreStarts }
    ensures from_the_last { StartsAreKeptStarts }
{}
