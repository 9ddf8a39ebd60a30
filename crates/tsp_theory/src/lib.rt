//! The mathematics of tours, with definitions and theorems on lengths and lower bounds, for
//! arbitrary costs.
//!
//! It defines tours, plans, lengths, 1-trees and duals, and proves that no cycle is shorter than
//! the bound of a certificate. The only code here is the traits of costs, the sums of lengths, and
//! `least_bound`. Bounds are computed in tsp_bound, tsp_branch and tsp_routing.
//!
//! ```text
//! let length = tour_length(&costs, &[1, 2, 3, 4]);
//! ```
#![tactic(auto)]

mod bounds;
mod costs;
mod examples;
mod laws;

pub use bounds::least_bound;
pub use costs::{
    Costs, Region, Site, Symmetric, Weights, add_at, canonical_length, tour_length, trace_tours,
    weight_in,
};
pub use examples::{
    examples_of_cycles, examples_of_duals, examples_of_forests, examples_of_multipliers,
    examples_of_numbers, examples_of_trees,
};
pub use laws::{
    adjusted_bounds_bound_cycles, bounds_are_unique, cycles_are_permutations, cycles_have_no_loops,
    duals_bound_cycles, least_trees_are_below_cycles, lengths_add_up, node_bounds_bound_cycles,
};
