//! Records are read from the carriers of their set, over the drives of an array: `docs/RULES.md`, "Reading a record".
#![tactic(auto)]

mod carriers;
mod decode;
mod lengths;
mod record;
mod refusal;
mod rows;

pub use record::read_record;
pub use refusal::ReadRefusal;
