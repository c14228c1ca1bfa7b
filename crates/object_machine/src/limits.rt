//! The limits of calls, as `docs/FORMATS.md`, "Limits", lists them.

/// Bytes of an object of a put or a get, at most.
pub const MAX_OBJECT_BYTES: u64 = 16_777_216;

/// Names that one list answers, at most.
pub const MAX_NAMES: u16 = 1_000;
