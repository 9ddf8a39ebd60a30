//! What all branches files share, namely families of sets such as combs, the tree of cases, and the
//! pass over its leaves.
//!
//! [`judge_families`] finds the first bad family, and how often cycles cross the others (`family`).
//! [`judge_cases`] finds the first branch that is bad or comes twice, and `judge_leaves` passes
//! over the leaves. How a leaf is bounded is up to tsp_branch and tsp_routing. `laws` has the
//! theorems.
//!
//! ```text
//! let crossings = family_crossings(alloc, &family)?;
//! let families = judge_families(alloc, &tree)?;
//! let cases = judge_cases(alloc, &tree)?;
//! ```
#![tactic(auto)]

mod case_tree;
mod decision;
mod examples;
mod family;
mod good_families;
mod judged;
mod laws;
mod open_case;
mod sets;

pub use case_tree::{
    BranchingCertificate, LeafJudge, WholeTree, add_differences, copy_within, first_bad_branch,
    judge_cases, judge_leaves,
};
pub use decision::{DECIDED, Decision};
pub use examples::{
    examples_of_arcs, examples_of_bad_branches, examples_of_bounds, examples_of_cases,
    examples_of_crossings, examples_of_differences, examples_of_families, examples_of_good_numbers,
    examples_of_leaves, examples_of_limits, examples_of_links, examples_of_rows, examples_of_trees,
    examples_of_verdicts, examples_of_weights,
};
pub use family::{
    CostSquare, Crossings, Families, NodeSets, family_crossings, least_cycle, parts_of,
};
pub use good_families::judge_families;
pub use judged::{CheckedTree, JudgedCases, JudgedFamilies, JudgedLeaf, TreeVerdict};
pub use laws::{
    case_tree_bounds_are_unique, case_trees_bound_cycles, cycles_cross_combs,
    cycles_cross_families, cycles_keep_leaves, decided_bounds_bound_cycles, divisions_bound_cycles,
    fixed_bounds_bound_tours, leaf_bounds_bound_cycles, least_lengths_are_unique,
    links_are_allowed, memberships_tell_sets, most_costs_are_unique, numbers_are_unique,
    parts_bound_cycles, parts_tell_cycles, row_leaf_bounds_bound_cycles, sets_tell_combs,
    stacks_hold_cases, sums_are_below_cycles, unlike_nodes_need_parts,
};
pub use open_case::{NodeDecisions, OpenCase};
pub use sets::{
    MultipliedFamilies, Multipliers, SetPlace, add_sets, fill_moved, fill_shifted, mark_nodes,
    scale_row, sets_by_node, shift_row, sum_left, take_multipliers,
};
