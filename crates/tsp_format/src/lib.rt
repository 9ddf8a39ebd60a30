//! The words of TSPLIB 95 as values, the layouts of a matrix, and the limits of files.
//!
//! Nothing here needs a file: the fields of one are in tsp_file, and its text is in tsp_text.
//!
//! ```text
//! let kind: Option<Kind> = value_of(b"ATSP");
//! let place = Layout::UpperRow.place(nodes, 1, 4);
//! ```
#![tactic(auto)]

mod examples;
mod keyword;
mod kinds;
mod layout;
mod limits;
mod steps;
mod word;

pub use examples::{
    examples_of_asymmetric_costs, examples_of_bytes, examples_of_cells, examples_of_fields,
    examples_of_limits, examples_of_space, examples_of_words,
};
pub use keyword::{Field, Keyword, Shape, ValueShape};
pub use kinds::{CoordKind, DisplayKind, Kind, WeightFormat, WeightKind, is_spatial};
pub use layout::{
    Layout, cells_are_distinct, cells_are_the_listed_pairs, cells_go_line_by_line,
    only_cells_have_places,
};
pub use limits::{
    MOST_BRANCHES, MOST_CAPACITY, MOST_CHANGES, MOST_COMMENTS, MOST_COORDINATE, MOST_DEMAND,
    MOST_DEPOTS, MOST_DIFFERENCE, MOST_FAMILIES, MOST_FAMILY_NODES, MOST_FILE_BYTES, MOST_FIXED,
    MOST_KEPT_BYTES, MOST_LINE_BYTES, MOST_LOAD_UNIT, MOST_MATRIX_NODES, MOST_MULTIPLIER,
    MOST_MULTIPLIERS, MOST_NODES, MOST_OTHERS, MOST_POTENTIAL, MOST_ROWS, MOST_SCALE,
    MOST_TOUR_NODES, MOST_WEIGHT, MOST_WORD_BYTES, limits_are_those_of_the_profile,
};
pub use steps::{RowSets, TreeStep};
pub use word::{Word, is_blank, is_keyword_byte, is_letter, value_of};
