//! The bounds of a potentials file, by minimum 1-trees (TSP) and assignment duals (ATSP).
//!
//! tsp_verdict calls `bound` for a TSP and `assignment` for an ATSP; tsp_branch uses the 1-trees,
//! too. A minimum tree grows row by row (`tree`), or in rounds over boxes of points or lists of
//! light edges (`rounds`): this choice only affects speed. tsp_theory defines the bounds.
//!
//! ```text
//! let tree = one_tree(alloc, &costs, &potentials, &multipliers)?;
//! let bound = dual_bound(&costs, &duals)?;
//! ```
#![tactic(auto)]

mod all_pairs;
mod area;
mod assignment;
mod bound;
mod boxes;
mod multipliers_by_node;
mod potentials;
mod prim;
mod rounds;
mod search;
mod weights;

pub use assignment::{Infeasible, dual_bound};
pub use bound::{OneTree, least_one_tree, one_tree};
pub use boxes::{BoxedWeights, NumberedSite};
pub use potentials::{Duals, Multipliers, Potentials};
pub use prim::{Growing, Grown, RootEdge, grow, least_weight, two_root_edges};
pub use rounds::grow_in_rounds;
