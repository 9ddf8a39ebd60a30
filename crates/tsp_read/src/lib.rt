//! Reads TSPLIB 95 files: the file that bytes parse to, or the first fault and its place.
//!
//! It reads a text, a reader, or pieces ([`Feed`]), all with the same answer. `items` cuts lines
//! and words from the bytes, `runs` takes runs of numbers at once, `reading` puts them into the
//! draft of a file, and `section_builder` holds the list of the open section. tsp_text defines
//! which file a text parses to, and its first fault. This crate judges nothing and opens no files.
//!
//! As example_check does it, with a text in memory:
//!
//! ```text
//! let file = read_bytes(alloc, instance)?;
//! ```
#![tactic(auto)]

mod api;
mod examples;
mod feed;
mod items;
mod line;
mod list_sections;
mod memory_lists;
mod node_sections;
mod plain_numbers;
mod reading;
mod round_trip;
mod section_builder;
mod step_fault;
mod tree_sections;

pub use api::{file_of_bytes, file_of_reader, read_bytes, read_from};
pub use examples::examples_of_reading;
pub use feed::Feed;
pub use line::{
    CutLine, add_comment, add_other, may_open, number_of, says_space, set_name, set_named,
    without_start,
};
pub use list_sections::{DepotList, FixedList, Gathered, GatheredNodes, TourList, WeightList};
pub use memory_lists::{MemoryList, RowList};
pub use node_sections::{NumberList, PointList};
pub use plain_numbers::PlainNumberList;
pub use reading::ReadError;
pub use round_trip::{canonical_texts_are_read_back, written_numbers_are_read_back};
pub use section_builder::{SectionBuilder, TripleList};
pub use step_fault::StepFault;
pub use tree_sections::{FamilyList, TreeList};
pub use tsp_file::EndFault;
pub use tsp_text::{LineFault, ReadFault};
