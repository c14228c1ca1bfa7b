//! The room that records take, and the closing of a set of them: `docs/RULES.md`, "Fit".
ghost use Rattle.std.specs.Prelude.{◌≡◌, ◌≤◌};
ghost use Rattle.smore_base.specs.Geometry.{IsWithinLimits};
ghost use Rattle.smore_base.specs.Room.{record_blocks, digest_records, closing};

use crate::{CONTENT_BYTES, Geometry, LINE_BYTES};

/// The blocks that a record takes in a zone, by the bytes of its fragment.
pub fn record_blocks(fragment: u32) -> u32
    ensures { result ≡ record_blocks fragment }
{
    1 + fragment.div_ceil(CONTENT_BYTES)
}

/// How many digest records list so many records.
pub fn digest_records(geometry: &Geometry, records: u32) -> u32
    requires within { IsWithinLimits geometry.now }
    requires few { records ≤ 65536 }
    ensures { result ≡ digest_records geometry.now records }
{
    (LINE_BYTES * records).div_ceil(u32::from(geometry.k) * geometry.shard)
}

/// The blocks that closing a set of so many records takes: its digest, a foot and a trailer.
pub fn closing(geometry: &Geometry, records: u32) -> u32
    requires within { IsWithinLimits geometry.now }
    requires few { records ≤ 65536 }
    ensures { result ≡ closing geometry.now records }
{
    let bytes = LINE_BYTES * records;
    let size = u32::from(geometry.k) * geometry.shard;
    let full = bytes / size;
    let rest = bytes - full * size;
    let last = if rest >= 1 {
        record_blocks(rest.div_ceil(u32::from(geometry.k)))
    } else {
        0
    };
    full * record_blocks(geometry.shard) + last + 2
}
