//! The label with which a device begins: `docs/FORMATS.md`, "Label".
#![tactic(auto)]

mod bay_label;

pub use bay_label::read_bay_label;
