//! The array that parts are appended to.

use smore_base::Geometry;

/// Drives and the flash.
pub(crate) const DEVICES: u8 = 7;

/// Zones of each.
pub(crate) const ZONES: u16 = 4;

/// Zones as great as they may be, and fragments too.
pub(crate) const GEOMETRY: Geometry = Geometry {
    drives: 6,
    k: 4,
    p: 2,
    zones: ZONES,
    blocks: 524_288,
    shard: 65_408,
};

/// Its number.
pub(crate) const ARRAY: [u8; 16] = [0x5a; 16];

/// Bytes of each part: as many as a record holds.
pub(crate) const PART: usize = 4 * 65_408;

/// Bytes that a record of a part has in a zone: 129 blocks.
pub(crate) const RECORD: usize = 129 * 512;
