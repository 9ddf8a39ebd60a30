//! Tests of the verbs, from the bytes read to the bytes written, and of the texts of faults.

mod compares;
mod failures;
mod files;
mod pieces;
mod runs;
mod texts;
