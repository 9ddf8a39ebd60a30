//! Readers and writers that remember a failure, and calls that allocate memory.
//!
//! It knows nothing about TSPLIB. Crates above don't ask a [`Watched`] reader again after it has
//! failed, an [`Output`] that has failed never writes again, and an interrupted call counts as
//! failed. Only the calls here make the token [`Refused`], so no function can return this error
//! unless memory was really refused.
//!
//! ```text
//! let mut out = Output::new(writer);
//! write_text(&mut out, b"yes\n")?;
//! ```
#![tactic(auto)]

mod examples;
mod memory;
mod piece;
mod watched;

pub use examples::{examples_of_failed_writes, examples_of_fault_texts};
pub use memory::{Refused, copied, filled, insert, push, with_capacity};
pub use piece::{
    PIECE, Piece, WriteFault, hand_over, put, put_next_number, put_number, send, write_text,
};
pub use watched::{Gives, Output, Script, Takes, Watched, answers_go_through};
