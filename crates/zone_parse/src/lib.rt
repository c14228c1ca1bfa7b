//! Reading the records of a zone, one marker at a time. What the records of a zone are is defined in `marker_format`.
#![tactic(auto)]

mod laws;
mod lost;
mod walk;
mod zone_reader;

pub use laws::walks_give_all_records;
pub use lost::Lost;
pub use zone_reader::ZoneReader;
