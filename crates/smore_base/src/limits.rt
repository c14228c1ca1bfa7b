//! The limits of the store, as `docs/FORMATS.md`, "Limits", lists them.

/// Source and parity fragments of a record together, at most.
pub const MAX_FRAGMENTS: u8 = 20;

/// Drives of an array, at most. It has at least as many as a record has fragments.
pub const MAX_DRIVES: u8 = 24;

/// Zones of a device, at least.
pub const MIN_ZONES: u16 = 4;

/// Zones of a device, at most.
pub const MAX_ZONES: u16 = 4096;

/// Blocks of a zone, at least.
pub const MIN_BLOCKS: u32 = 128;

/// Blocks of a zone, at most.
pub const MAX_BLOCKS: u32 = 524_288;

/// Bytes of a block: a tag and its content.
pub const BLOCK_BYTES: u32 = 512;

/// Content bytes of a block. A shard is a multiple of it.
pub const CONTENT_BYTES: u32 = 511;

/// Bytes of a shard, at most.
pub const MAX_SHARD_BYTES: u32 = 65_408;

/// Bytes of an object's name, at most. It has at least one.
pub const MAX_NAME_BYTES: usize = 255;

/// Records of a set, at most: those that list the others among them.
pub const MAX_RECORDS: u32 = 65_535;

/// Bytes of the line that lists a record.
pub const LINE_BYTES: u32 = 320;
