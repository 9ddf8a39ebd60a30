//! The verdict on a solution of an instance: the first reason against it, or its length and bound.
//! Or the bound of an instance without a solution.
//!
//! It judges files in memory. Reading and writing is up to tsp_judge.
//!
//! As example_check does it, with an instance of TYPE TSP or ATSP:
//!
//! ```text
//! let solution = read_bytes(alloc, solution)?;
//! Ok(judge_tour(alloc, &instance, &solution)?)
//! ```
//!
//! For routes with a certificate, call [`judge`], which takes every TYPE and certificate.
#![tactic(auto)]

mod api;
mod certificate;
mod examples;
mod known_bound;
mod one_verdict;
mod potentials_certificate;
mod routes;
mod solution_verdict;
mod strict;
mod tour;

pub use api::{judge_routes, judge_tour, judge_tour_bound, judge_tour_branches};
pub use certificate::is_bounded;
pub use examples::{
    examples_against_certificates, examples_against_instances, examples_against_routes,
    examples_against_routing, examples_against_tours, examples_against_trees, examples_of_accepted,
    examples_of_bounds, examples_of_claimed_verdicts, examples_of_claims, examples_of_depots,
    examples_of_dimensions_of_routes, examples_of_first_reasons, examples_of_fixed_arcs,
    examples_of_load_units, examples_of_multipliers, examples_of_order,
    examples_of_order_of_routes, examples_of_other_claims, examples_of_pairs, examples_of_plans,
    examples_of_reasons_before_memory, examples_of_runs,
};
pub use known_bound::{judge_bound, judge_known_bound, known_bound_alone, known_bound_of};
pub use one_verdict::files_have_one_verdict;
pub use solution_verdict::{judge, judge_next};
pub use strict::{
    examples_of_fields_in_use, examples_of_strict_reasons, examples_of_strictness, strict_bound,
    strict_known_bound, strict_verdict, strict_yes_leaves_nothing_unjudged,
};
pub use tsp_report::{BoundVerdict, CertificateKind, KnownBound, Reason, Verdict};
