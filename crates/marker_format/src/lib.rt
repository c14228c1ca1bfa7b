//! What stands on the drives: markers of records, labels of devices and feet of zones, the blocks that hold them, and
//! the grammar by which a zone's bytes are records. `docs/FORMATS.md` has the tables.
#![tactic(auto)]

mod block;
mod foot;
mod fragment;
mod kind;
mod label;
mod laws;
mod magic;
mod marker;
mod tag;

pub use block::{
    read_foot_block, read_label_block, read_marker_block, write_data_block, write_foot_block,
    write_label_block, write_marker_block,
};
pub use foot::{FOOT_BYTES, Foot, read_foot, write_foot};
pub use fragment::{blocks_of, read_fragment, write_fragment, write_record};
pub use kind::Kind;
pub use label::{LABEL_BYTES, LABEL_VERSION, Label, read_label, write_label};
pub use laws::{
    blocks_hold_markers, cut_zones_have_the_first_records, longer_zones_keep_records,
    records_are_the_longest, records_count_in_whole_zones, records_stand_at_their_blocks,
    spellings_are_apart,
};
pub use marker::{COUNTER_END, MARKER_BYTES, Marker, read_marker, write_marker};
pub use tag::Tag;
