use smore_base::{Bytes, NameList};

/// The answer to a call.
#[derive(Debug, Drop)]
pub enum Reply {
    Done,
    Object { bytes: Bytes },
    NotFound,
    /// Names in byte order, and whether more of those that were asked for follow them.
    Names { names: NameList, more: bool },
    Refused { why: Refusal },
}

/// Why a call is refused. It has a number in `docs/FORMATS.md`, "Refusals".
#[derive(Clone, Copy, Debug, PartialEq, Eq)]
pub enum Refusal {
    /// No memory was found.
    Memory,
    /// No name has so many bytes.
    NameBad { length: u64 },
    /// The object has more bytes than the call allows.
    TooLarge { length: u64 },
    /// There is less room than the call needs.
    Full { need: u32, room: u32 },
    /// So many fragments of the set are missing that its records can't be read or written.
    TooFewFragments { set: u64, missing: u8 },
    /// No number is left to stamp the call's note with.
    Spent,
    /// The object is broken: this part of the upload is the first that isn't there, or of its parts, as many as this
    /// number, the lengths don't add up.
    Damaged { upload: u64, part: u32 },
}
