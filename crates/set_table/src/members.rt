use arrayvec::ArrayVec;
use smore_base::MAX_FRAGMENTS;

/// Members of a set, at most.
const MOST: usize = MAX_FRAGMENTS as usize;

/// A zone of a drive that carries an index of a set.
#[derive(Clone, Copy, Debug, Default, PartialEq, Eq)]
pub struct Member {
    pub index: u8,
    pub device: u8,
    pub zone: u16,
}

/// The members of a set, by rising index and device.
pub type Members = ArrayVec<Member, MOST>;

/// A set needs more members than there are live drives with an empty zone.
#[derive(Clone, Copy, Debug, PartialEq, Eq)]
pub struct TooFew {
    /// How many live drives have an empty zone.
    pub live: u8,
}
