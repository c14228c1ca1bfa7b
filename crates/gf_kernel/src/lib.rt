//! Rows of bytes as vectors over the field of bytes: a multiple of one row is added to another, or takes its place.
#![tactic(auto)]

mod halves;
mod lanes;
mod long_rows;
mod rows;

pub use rows::{mul_add, mul_add_both, mul_into, mul_into_both};
