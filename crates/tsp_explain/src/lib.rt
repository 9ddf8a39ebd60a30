//! Explains why a file can't be read, or why a solution is rejected.
//!
//! tsp_judge and tsp_tool call it after a run. The sentences are in `sentences` and `wanted`, and a
//! second look at the file (`look`) finds the text at a fault. Contracts say only that text is
//! appended, so you can change the words freely.
//!
//! ```text
//! explain_file(alloc, &mut text, "a.tsp", Some(Role::Instance), Some(reader), fault)?;
//! ```
#![tactic(auto)]

mod cause;
mod certificate_reasons;
mod examples;
mod excerpt;
mod file_fault;
mod foreign;
mod groups;
mod guess;
mod look;
mod near;
mod refusal;
mod sentences;
mod solution;
mod text;
mod verdict_reasons;
mod wanted;

pub use examples::{examples_of_comments, examples_of_shown_bytes, examples_of_shown_names};
pub use file_fault::{explain_file, push_error};
pub use sentences::{relayout_sentence, write_sentence};
pub use text::{explain_lines, push_lines};
pub use verdict_reasons::{Files, Names, explain_bound, explain_verdict, explain_wrong_kind};
