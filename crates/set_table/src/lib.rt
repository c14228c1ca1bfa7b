//! Which zones of an array are empty, and which carry which set. `docs/RULES.md`, "Sets and room", has the rules.
#![tactic(auto)]

mod choice;
mod drive_zones;
mod members;
mod rows;
mod table;
mod zone_use;

pub use members::{Member, Members, TooFew};
pub use table::SetTable;
pub use zone_use::ZoneUse;
