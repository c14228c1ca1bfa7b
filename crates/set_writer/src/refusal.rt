use std::fmt;

/// Why a set isn't written.
#[derive(Clone, Copy, Debug, PartialEq, Eq)]
pub enum WriteRefusal {
    /// There was no memory.
    Memory,
    /// Fewer live drives have an empty zone than members are asked for.
    TooFew {
        live: u8,
    },
    /// The record doesn't fit the set.
    NoFit {
        /// The blocks that it takes.
        blocks: u32,
        /// The most blocks that a record may take.
        left: u32,
    },
    /// Fewer members of the set are live than a record has source fragments.
    Short {
        set: u64,
        /// How many members aren't.
        missing: u8,
    },
}

impl fmt::Display for WriteRefusal {
    fn fmt<W: fmt::Write>(&self, f: &mut fmt::Formatter<W>) -> fmt::Result {
        match self {
            WriteRefusal::Memory => write!(f, "out of memory"),
            WriteRefusal::TooFew { live } => write!(f, "{live} drives have an empty zone"),
            WriteRefusal::NoFit { blocks, left } => {
                write!(f, "{blocks} blocks where {left} are left")
            }
            WriteRefusal::Short { set, missing } => {
                write!(f, "set {set} misses {missing} members")
            }
        }
    }
}

impl std::error::Error for WriteRefusal {}
