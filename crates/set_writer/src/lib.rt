//! Sets over several drives are written: a set is opened, records are appended to all its members, and it is closed by a
//! digest. `docs/RULES.md`, "Writing a set", has the rules.
#![tactic(auto)]

mod append;
mod body;
mod close;
mod first;
mod images;
mod kept;
mod laws;
mod line;
mod members;
mod next;
mod open;
mod payloads;
mod reads;
mod record;
mod refusal;
mod stands;
mod tables;
mod writer;

pub use images::{
    append_leaves_the_first, closing_leaves_the_first, cut_zones_have_the_first, firm_records_stay,
    flush_keeps_all, images_have_the_first, new_sets_are_alone, next_leaves_the_first,
    opening_leaves_the_first, other_sets_are_kept, other_sets_say_the_same, whole_sets_are_left,
};
pub use kept::{
    ends_are_found, other_sets_are_shown, other_zones_are_kept, own_zones_are_shown,
    sets_hang_together,
};
pub use laws::{
    closed_zones_have_a_foot, members_agree_on_the_records, rounds_are_few, zones_have_the_records,
};
pub use open::{MOST_CUTS, open_set};
pub use payloads::{
    calls_hold, digest_lists_the_records, images_are_read, images_have_payloads,
    members_have_one_payload, sets_are_read, written_records_are_read,
};
pub use reads::{other_sets_carry_over, sets_with_carriers_are_read};
pub use refusal::WriteRefusal;
pub use stands::{
    closings_settle_or_not, firm_sets_are_left, members_are_found, next_sets_are_left,
    opened_sets_are_left, openings_stand_or_not, sets_are_left, sets_are_written,
    written_sets_are_left,
};
pub use tables::{
    changes_keep_sets, room_changes_nothing, table_changes_keep, written_sets_are_open,
};
pub use writer::SetWriter;
