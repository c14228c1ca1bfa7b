//! The plain scan of an array: what its bytes say by the definitions of `array_model`, computed slowly and simply. It reads,
//! and never writes. Tests compare faster bodies with it, and a person can look into an array with it.
#![tactic(auto)]

mod agree;
mod answers;
mod cuts;
mod drives;
mod enough;
mod heads;
mod judge;
mod need;
mod needed;
mod notes;
mod object;
mod objects;
mod payload;
mod plain;
mod read_sets;
mod records;
mod refusal;
mod set_read;
mod sets;
mod snapshots;
mod zone;

pub use answers::Scan;
pub use drives::Drives;
pub use judge::SetScan;
pub use object::Object;
pub use objects::What;
pub use plain::scan;
pub use records::ValidRecord;
pub use refusal::ScanRefusal;
pub use set_read::{Carrier, RecordAt, SetRead, ZonePlace};
pub use sets::Sets;
