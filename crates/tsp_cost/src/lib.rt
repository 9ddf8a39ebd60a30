//! The costs between the nodes of an instance, and the lengths of tours.
//!
//! An [`Instance`] is a file with costs, and its views say where the costs come from: a matrix, a
//! triangle or points. They implement the traits of tsp_theory, through which tsp_verdict judges.
//! `cost` in tsp_file pins every cost, so only speed is free.
//!
//! As example_check does it, with a file that was read:
//!
//! ```text
//! let Ok(instance) = Instance::of(file) else {
//!     return Err(NoVerdict::WrongKind);
//! };
//! ```
#![tactic(auto)]

mod examples;
mod instance;
mod laws;
mod matrix;
mod metric;
mod points;

pub use examples::examples_of_tours;
pub use instance::{CostFault, Instance, SymmetricView, View, symmetric_fault, symmetric_view};
pub use laws::instances_are_problems;
pub use matrix::{EvenMatrix, Matrix, Triangle};
pub use points::{Euclidean, Points};
pub use tsp_theory::{Costs, Region, Site, Symmetric, canonical_length, tour_length, trace_tours};
