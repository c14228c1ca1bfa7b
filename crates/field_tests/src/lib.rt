//! Tests of the field of bytes, of rows of its elements, and of the erasure code.
#![tactic(auto)]

#[cfg(test)]
mod code;
#[cfg(test)]
mod field;
#[cfg(test)]
mod kernel;
