//! Judges branches files for tours, whose leaves are bounded by minimum 1-trees (TSP) or least arcs
//! (ATSP).
//!
//! [`judge_branches`], which tsp_verdict calls, finds the bound of a certificate or the first
//! reason against it. `IsBranchVerdict` in `specs/BranchVerdicts.antt` pins its answer. The
//! theorems are in tsp_cases.
//!
//! ```text
//! let verdict = judge_branches(alloc, &tree)?;
//! ```
#![tactic(auto)]

mod boxed;
mod case_leaf;
mod kept_rows;
mod leaf_numbers;
mod leaf_rows;
mod tour_verdict;

pub use boxed::tour_leaf_bound;
pub use tour_verdict::{branch_bound, judge_branches};
