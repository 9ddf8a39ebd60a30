//! Tests of the reader: texts in pieces, and readers that do little at a time, fail or never end.

mod answers;
mod feed;
mod reader;
