use row_player::word_of;
use smore_base::Place;
use std::alloc::{AllocError, Global};

/// What a call on a set answers.
#[derive(Drop)]
pub(crate) enum SetAnswer {
    /// It is done, and so many members are live.
    Done { live: u8 },
    /// The record stands there.
    At(Place),
    /// The record's bytes.
    Bytes(Vec<u8>),
    /// So many live drives have an empty zone, or, of a read, so many indexes are missing.
    TooFew(u8),
    NoFit { blocks: u32, left: u32 },
    Short { set: u64, missing: u8 },
    /// The call isn't one that may be made: why.
    Barred(&'static str),
}

impl SetAnswer {
    /// Whether the call isn't one that may be made.
    pub(crate) fn is_barred(&self) -> bool {
        matches!(self, SetAnswer::Barred(_))
    }
}

fn told_place(alloc: Global, place: &Place) -> Result<String, AllocError> {
    let set = place.set;
    let position = place.position;
    let block = place.block;
    format!(in alloc; "at {set} {position} {block}")
}

fn told_bytes(alloc: Global, bytes: &[u8]) -> Result<String, AllocError> {
    let word = word_of(alloc, bytes)?;
    format!(in alloc; "bytes {word}")
}

/// The answer in words.
pub(crate) fn told(alloc: Global, answer: &SetAnswer) -> Result<String, AllocError> {
    match answer {
        SetAnswer::Done { live } => format!(in alloc; "ok {live} live"),
        SetAnswer::At(place) => told_place(alloc, place),
        SetAnswer::Bytes(bytes) => told_bytes(alloc, bytes),
        SetAnswer::TooFew(live) => format!(in alloc; "toofew {live}"),
        SetAnswer::NoFit { blocks, left } => format!(in alloc; "nofit {blocks} {left}"),
        SetAnswer::Short { set, missing } => format!(in alloc; "short {set} missing {missing}"),
        SetAnswer::Barred(why) => String::from_str(alloc, why),
    }
}
