//! What the store promises its callers: the calls and their answers, the machine whose steps they are, and which
//! histories of calls are legal.
#![tactic(auto)]

mod laws;
mod limits;
mod machine;
mod op;
mod reply;

pub use laws::{
    answers_decide, delete_takes_out, deleted_stays_absent, get_answers, histories,
    histories_follow, nothing_changes, own_refusals, put_is_kept,
};
pub use limits::{MAX_NAMES, MAX_OBJECT_BYTES};
pub use machine::{Entry, Machine};
pub use op::Op;
pub use reply::{Refusal, Reply};
