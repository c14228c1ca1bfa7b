//! Bytes as the elements of a field: polynomials over two elements, modulo `x^8 + x^4 + x^3 + x^2 + 1`.
//!
//! The sum of two bytes is `^`. The product, the inverse and the quotient are here; what they are is defined bit by bit,
//! and they are computed by tables of powers and of logarithms. The crate also states what a polynomial over this field
//! and a codeword are.
#![tactic(auto)]

mod arithmetic;
mod laws;
mod tables;

pub use arithmetic::{div, inv, mul};
pub use laws::{field_laws, one_polynomial};
