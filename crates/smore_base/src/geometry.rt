use crate::limits::{
    CONTENT_BYTES, MAX_BLOCKS, MAX_DRIVES, MAX_FRAGMENTS, MAX_SHARD_BYTES, MAX_ZONES, MIN_BLOCKS,
    MIN_ZONES,
};

/// The numbers that an array is made with.
#[derive(Clone, Copy, Debug, PartialEq, Eq)]
pub struct Geometry {
    /// Drives, without the flash. Each is a device, and the flash is one more.
    pub drives: u8,
    /// Source fragments of a record.
    pub k: u8,
    /// Parity fragments of a record.
    pub p: u8,
    /// Zones of each device.
    pub zones: u16,
    /// Blocks of each zone.
    pub blocks: u32,
    /// Bytes of a fragment, at most.
    pub shard: u32,
}

/// The first field of a geometry that breaks its limit: its number, as in `docs/FORMATS.md`, "Limits", and its value.
#[derive(Clone, Copy, Debug, PartialEq, Eq)]
pub struct GeometryFault {
    pub field: u8,
    pub value: u64,
}

impl Geometry {
    ghost use Rattle.std.specs.Prelude.{◌≡◌, OnOk, MatchResult, None, Some};
    ghost use Rattle.smore_base.specs.Geometry.{first_fault, IsWithinLimits};

    /// Refused exactly where a field breaks its limit. The first such field is told, in the order k (2), p (3),
    /// drives (1), zones (4), blocks (5), shard (6).
    pub fn check(&self) -> Result<(), GeometryFault>
        ensures exact { MatchResult result (λ _. first_fault self.now ≡ None) (λ fault. first_fault self.now ≡ Some fault) }
        ensures within { OnOk result (IsWithinLimits self.now) }
    {
        let fault = |field: u8, value: u64| Err(GeometryFault { field, value });
        if self.k == 0 || self.k >= MAX_FRAGMENTS {
            return fault(2, u64::from(self.k));
        }
        let fragments = self.k.saturating_add(self.p);
        if self.p == 0 || fragments > MAX_FRAGMENTS {
            return fault(3, u64::from(self.p));
        }
        if self.drives < fragments || self.drives > MAX_DRIVES {
            return fault(1, u64::from(self.drives));
        }
        if self.zones < MIN_ZONES || self.zones > MAX_ZONES {
            return fault(4, u64::from(self.zones));
        }
        if self.blocks < MIN_BLOCKS || self.blocks > MAX_BLOCKS {
            return fault(5, u64::from(self.blocks));
        }
        if self.shard < CONTENT_BYTES
            || self.shard > MAX_SHARD_BYTES
            || self.shard % CONTENT_BYTES != 0
            || 4 * self.shard > CONTENT_BYTES * self.blocks
        {
            return fault(6, u64::from(self.shard));
        }
        Ok(())
    }
}
