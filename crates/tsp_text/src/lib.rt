//! Which file a text parses to, or its first fault: definitions, laws, and the type of a fault.
//!
//! The definitions in `specs/` take a text apart into lines and words, and the laws say what holds
//! for every text, whoever reads it. The code that reads texts is in tsp_read.
//!
//! ```text
//! texts_have_one_answer();
//! ```
#![tactic(auto)]

mod examples;
mod fault;
mod laws;

pub use examples::{
    examples_of_fault_texts, faults_at_the_end, faults_of_word_lines, faults_of_words,
    fields_of_texts, limits_agree, limits_of_lines, limits_of_sections,
};
pub use fault::{LineFault, ReadFault};
pub use laws::{
    clean_fields_are_valid, each_node_has_one_group, first_faults, settled_ends_stay,
    settled_faults_stay, spelled_files_are_valid, texts_have_one_answer,
};
