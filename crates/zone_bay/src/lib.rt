//! The drives and the flash as the store sees them: the trait `Bay`, and what its calls do to what a bay holds.
#![tactic(auto)]

mod bay;
mod failed;
mod laws;

pub use bay::Bay;
pub use failed::Failed;
pub use laws::{
    all_firm_leaves_all, append_leaves_more, flush_leaves_fewer, instants, missing_devices,
    more_leaves_more, reset_leaves_nothing,
};
