//! The numbers of frames: `docs/FORMATS.md`, "Frames" and "Refusals".

/// Bytes of a frame's body, at most. It has at least one.
pub const MAX_BODY_BYTES: u32 = 16_777_728;

/// Bytes of the length that stands in front of a body.
pub const LENGTH_BYTES: usize = 4;

/// Bytes of the length that stands in front of a name.
pub const NAME_LENGTH_BYTES: usize = 2;

pub const PUT_TAG: u8 = 1;

pub const GET_TAG: u8 = 2;

pub const DELETE_TAG: u8 = 3;

pub const LIST_TAG: u8 = 4;

pub const STOP_TAG: u8 = 255;

pub const REFUSED_TAG: u8 = 0;

pub const DONE_TAG: u8 = 1;

pub const OBJECT_TAG: u8 = 2;

pub const NOT_FOUND_TAG: u8 = 3;

pub const NAMES_TAG: u8 = 4;

pub const MEMORY_NUMBER: u8 = 1;

pub const NAME_BAD_NUMBER: u8 = 20;

pub const TOO_LARGE_NUMBER: u8 = 21;

pub const FULL_NUMBER: u8 = 22;

pub const TOO_FEW_FRAGMENTS_NUMBER: u8 = 24;

pub const SPENT_NUMBER: u8 = 29;

pub const DAMAGED_NUMBER: u8 = 32;
