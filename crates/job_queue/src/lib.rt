//! Links for workers: one caller puts them, several take them, each to the end that a closing mark tells. What each pass put
//! and took is known in proofs, so that once all passes are joined each link was taken once or is left.
#![tactic(auto)]

mod hand;
mod jobs;
mod links;
mod pass;
mod rule;

pub use hand::{Hand, Job};
pub use jobs::Jobs;
pub use links::Links;
pub use pass::JobPass;

#[cfg(test)]
mod tests;
