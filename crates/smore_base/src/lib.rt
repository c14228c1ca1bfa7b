//! Plain values that every layer of the store speaks of: an array's geometry and its limits, names of objects, bytes
//! that are owned, and the fields of records.
#![tactic(auto)]

mod big_endian;
mod bytes;
mod geometry;
mod laws;
mod limits;
mod memory;
mod name;
mod name_list;
mod place;
mod room;

pub use big_endian::{
    read_bytes, read_u8, read_u16, read_u32, read_u64, write_bytes, write_u8, write_u16, write_u32,
    write_u64, write_zeros,
};
pub use bytes::Bytes;
pub use geometry::{Geometry, GeometryFault};
pub use laws::{need_is_at_most_a_set_a_record, numbers_have_one_spelling, room_is_the_greatest};
pub use limits::{
    BLOCK_BYTES, CONTENT_BYTES, LINE_BYTES, MAX_BLOCKS, MAX_DRIVES, MAX_FRAGMENTS, MAX_NAME_BYTES,
    MAX_RECORDS, MAX_SHARD_BYTES, MAX_ZONES, MIN_BLOCKS, MIN_ZONES,
};
pub use memory::Memory;
pub use name::{Name, NameBad, copied_name};
pub use name_list::NameList;
pub use place::Place;
pub use room::{closing, digest_records, record_blocks};

#[cfg(test)]
mod tests;
