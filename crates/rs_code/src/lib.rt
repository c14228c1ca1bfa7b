//! The erasure code: a payload is made into k source fragments and p of parity, of which any k give every other.
#![tactic(auto)]

mod blob;
mod code;
mod coded;
mod combine;
mod factor;
mod laws;
mod parity;

pub use blob::Blob;
pub use code::Code;
pub use coded::Coded;
pub use laws::{any_fragments, one_code};
