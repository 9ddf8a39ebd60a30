//! Solutions of other programs, read as files of TYPE TOUR.
//!
//! [`solution_of`] detects the [`Form`] of a text and reads it: tours of LKH, Concorde and R,
//! routes of CVRPLIB, LKH-3 and OR-Tools, lists and tables of nodes, JSON. The result is proved to
//! be a valid file of TYPE TOUR, which tsp_verdict judges; that a form is understood correctly is
//! only tested.
//!
//! ```text
//! let file = solution_of(alloc, b"Route #1: 1 3\nRoute #2: 2\nCost 784\n", Hints::none())?;
//! ```
#![tactic(auto)]

mod by_form;
mod edges;
mod examples;
mod fault;
mod form;
mod hints;
mod in_memory;
mod json;
mod json_tokens;
mod meaning;
mod number_groups;
mod numbers;
mod route_lines;
mod solution_writer;
mod tour_file;
mod walks;
mod word_place;

pub use examples::{
    examples_of_fault_names, examples_of_forms, examples_of_shapes, examples_of_solution_faults,
};
pub use fault::{FormFault, SolutionFault};
pub use form::{Form, table_of_forms};
pub use hints::{Hints, InstanceShape, Numbering};
pub use in_memory::solution_text;
pub use solution_writer::{SolutionRunFault, read_text, write_solution};
pub use tour_file::solution_of;
