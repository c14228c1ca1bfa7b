//! Tests of sets: the table, the writer and the reader beside the plain scan. And laws of the reader and the writer together:
//! what was written is what is read.
#![tactic(auto)]

mod laws;
#[cfg(test)]
mod reader;
#[cfg(test)]
mod scan;
#[cfg(test)]
mod table;
#[cfg(test)]
mod writer;

pub use laws::{reads_keep_sets, written_records_are_read_back};
