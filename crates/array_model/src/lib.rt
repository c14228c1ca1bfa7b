//! What an array says: which of its records are valid, what each name stands for, and which records are needed. These are
//! definitions; the functions here do nothing, and their contracts are laws of them.
#![tactic(auto)]

mod laws;
mod need_laws;
mod property;
mod reading_laws;
mod removal_laws;

pub use laws::{
    copies_change_nothing, cuts_stay, dropped_set_is_gone, map_is_what_is_read,
    newest_note_is_greatest, note_is_last, note_renews_need, opening_fixes_what_was_read,
    records_without_note, unneeded_sets_may_go,
};
pub use need_laws::{blocks_are_counted, shelf_has_all, tests_tell_need, victims_are_least};
pub use property::Property;
pub use reading_laws::{
    agreed_is_longest, agreed_list_stays, carriers_are_lowest, carriers_stay,
    fallen_sets_say_nothing, flash_may_leave, formatted_arrays_are_kept, markers_agree,
    payloads_are_read, sets_rise, settled_sets_agree, settled_sets_read_the_same,
    what_stays_is_read,
};
pub use removal_laws::{
    all_removals_keep, cuts_are_of_lower, few_missing_are_enough, nothing_new_is_possible,
    one_possible_map, remains_have_possible_maps, removals_follow, what_shows_is_kept,
};
