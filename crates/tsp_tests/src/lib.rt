//! Unit tests of the libraries, with readers and writers that move a few bytes at a time, or fail.
//!
//! All unit tests live here, because tests are proved too (docs/TESTING.md). `rt ci` runs them. The
//! library itself is empty: each module is read only with the tests, so that none is proved twice.
#![tactic(auto)]

#[cfg(test)]
mod asserts;
#[cfg(test)]
mod bound;
#[cfg(test)]
mod devices;
#[cfg(test)]
mod drafts;
#[cfg(test)]
mod drafts_of_tests_support;
#[cfg(test)]
mod file_names;
#[cfg(test)]
mod judge;
#[cfg(test)]
mod read;
#[cfg(test)]
mod sentences;
#[cfg(test)]
mod watched;
#[cfg(test)]
mod writer;
#[cfg(test)]
mod writing;
