//! Judges branches files for routes, and proves that no plan is shorter than the bound.
//!
//! [`judge_plans`] is what tsp_verdict calls; `IsPlanVerdict` in `specs/RunVerdicts.antt` pins its
//! answer, so only speed is free below it.
//!
//! A plan leaves a set of customers at least as often as the set needs routes, and crosses it an
//! even number of times. Each of its routes is a walk within the capacity, a q-route. So the bound
//! of a tree of cases, with least q-routes at its leaves, holds for every plan.
//!
//! A certificate may also list customers to remember, and subset rows. Then each leaf is bounded by
//! its least run: an ng-route, which doesn't come back to a customer that it remembers, and which
//! pays for a subset row if it serves most of the row's set.
//!
//! Read the files in this order:
//!
//! - the certificate: `verdict`, `plan_tree`, `judged_memory`
//! - demands and loads: `demands`
//! - the weights of a leaf: `leaf_weights`
//! - a leaf by q-routes: `plan_leaf`, `least_q_route`, `sums`
//! - a leaf by runs: `run_verdict`, `run_bound`, `run_leaf`
//! - label setting for runs: `kept_states`, `run_steps`
//! - memories as bits: `memories`
//! - laws and examples: `laws`, `examples`
//!
//! ```text
//! let verdict = judge_plans(alloc, &tree)?;
//! ```
#![tactic(auto)]

mod demands;
mod examples;
mod judged_memory;
mod kept_states;
mod laws;
mod leaf_weights;
mod least_q_route;
mod memories;
mod plan_leaf;
mod plan_tree;
mod plan_verdict;
mod run_bound;
mod run_leaf;
mod run_steps;
mod run_verdict;
mod sums;

pub use examples::{
    examples_of_bounds, examples_of_branches, examples_of_full_memories, examples_of_good_lists,
    examples_of_halves, examples_of_leaves, examples_of_limits, examples_of_loads,
    examples_of_memories, examples_of_most, examples_of_needs, examples_of_places,
    examples_of_products, examples_of_q_routes, examples_of_run_bounds, examples_of_run_weights,
    examples_of_runs, examples_of_starts,
};
pub use laws::{
    equal_states_go_on_alike, kept_starts_give_least_runs, plan_bounds_are_unique,
    plan_bounds_bound_plans, plan_links_add_up, plan_trees_bound_plans, plans_are_charged_half,
    plans_keep_limits, plans_leave_cuts, routes_are_q_routes, routes_are_runs,
    run_bounds_bound_plans, run_trees_bound_plans, starts_are_told_from_both_ends,
};
pub use plan_tree::PlanTree;
pub use plan_verdict::judge_plans;
