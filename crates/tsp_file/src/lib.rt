//! The fields of a TSPLIB 95 file: which are valid together, the costs that they give, and their
//! canonical text.
//!
//! A [`Draft`] may have any values in its fields. A [`File`] is a draft without a fault. `writer`
//! writes its text, and `relayout` puts its matrix into another layout. No text is read here:
//! tsp_read makes drafts and files from bytes.
//!
//! ```text
//! let mut draft = Draft::new(alloc);
//! draft.kind = Some(Kind::Tour);
//! let fault = end_fault(&draft, None);
//! let file = File::of(draft)?;
//! write_file(alloc, &file, &mut out)?;
//! ```
#![tactic(auto)]

mod coords;
mod draft;
mod examples;
mod file;
mod laws;
mod range;
mod relayout;
mod rules;
mod table;
mod typed;
mod validity;
mod writer;

pub use coords::Coords;
pub use draft::Draft;
pub use examples::{
    examples_of_costs, examples_of_distances_by_type, examples_of_draft_fault_texts,
    examples_of_fault_texts, examples_of_faults, examples_of_limits, examples_of_lines,
    examples_of_lost_costs, examples_of_relayouts, examples_of_sections, examples_of_standing,
    examples_of_the_end_table, examples_of_units, examples_of_validity,
};
pub use file::File;
pub use laws::{
    a_valid_text_is_short, costs_are_by_inequalities, valid_fields_are_in_range,
    valid_files_are_complete,
};
pub use relayout::RelayoutFault;
pub use rules::{DraftFault, EndFault, end_fault};
pub use table::bad_field;
pub use tsp_format::{
    CoordKind, DisplayKind, Field, Kind, Layout, RowSets, TreeStep, WeightFormat, WeightKind,
};
pub use tsp_io::{Output, WriteFault};
pub use typed::{DualData, ListedWeights, NodeData, RoutingData, TreeData, first_asymmetric};
pub use validity::is_kept;
pub use writer::write_file;
