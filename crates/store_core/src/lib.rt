//! The store over one bay: what each call does to the records of one zone, and how a bay is formatted and opened.
//! `docs/RULES.md` has the rules.
#![tactic(auto)]

mod append;
mod blocks;
mod delete;
mod extent;
mod first_set;
mod format;
mod get;
mod index;
mod list;
mod opening;
mod put;
mod records;
mod said;
mod store;
mod zone;
mod zone_calls;
mod zone_records;

pub use format::FormatFailed;
pub use opening::OpenRefusal;
pub use store::{Core, DRIVE, ZONE};
