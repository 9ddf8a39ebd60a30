//! Decimals and points, the distances of TSPLIB 95 between them, and number words.
//!
//! A [`Decimal`] has at most nine places after the point and is kept as a count of 10^-9, so the
//! eight distances are exact for the decimals as they are written. A number word is read as a whole
//! number or a decimal, or refused with a named fault, and each decimal is spelled in one way. No
//! call takes memory.
//!
//! ```text
//! let x = parse_decimal(b"1.50e+01")?;
//! let n = parse_whole(b"12.0", 1, 100_000)?;
//! let length = euc_2d(from, to);
//! ```
#![tactic(auto)]

mod at_least;
mod decimal;
mod distance;
mod examples;
mod laws;
mod number_word;
mod root;
mod scan;
mod shift;
mod spelling;

pub use at_least::{is_att_at_least, is_ceil_2d_at_least, is_euc_2d_at_least, is_euc_3d_at_least};
pub use decimal::{Decimal, InSpace, PlanePoint, Point, UNIT};
pub use distance::{att, ceil_2d, euc_2d, euc_3d, man_2d, man_3d, max_2d, max_3d};
pub use examples::{
    examples_of_decimals, examples_of_distances, examples_of_distances_in_space,
    examples_of_fault_texts, examples_of_fronts, examples_of_spellings, examples_of_whole_numbers,
};
pub use laws::{distance_laws, monotone_laws, number_word_laws, spelling_laws};
pub use number_word::{
    NumberFault, front_decimal, front_few, front_whole, parse_decimal, parse_whole,
};
pub use spelling::{MOST_SPELLING, write_decimal, write_pair, write_spelling};
