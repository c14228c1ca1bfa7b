use std::alloc::AllocError;
use std::fmt;

/// Why a record wasn't read.
#[derive(Clone, Copy, Debug, PartialEq, Eq)]
pub enum ReadRefusal {
    /// There is no memory for it.
    Memory,
    /// So many of the set's indexes have no live carrier: more than it has parity.
    TooFewFragments { set: u64, missing: u8 },
}

impl From<AllocError> for ReadRefusal {
    ghost use Rattle.std.specs.Prelude.{◌≡◌};
    ghost use Rattle.set_reader.specs.declared.refusal.ReadRefusal.TheVariants as refusals;

    ghost from_gives = { λ _ refusal. refusal ≡ refusals.Memory };

    fn from(_: AllocError) -> Self {
        ReadRefusal::Memory
    }
}

impl fmt::Display for ReadRefusal {
    fn fmt<W: fmt::Write>(&self, f: &mut fmt::Formatter<W>) -> fmt::Result {
        match self {
            ReadRefusal::Memory => write!(f, "out of memory"),
            ReadRefusal::TooFewFragments { set, missing } => {
                write!(f, "set {set} misses {missing} of its fragments")
            }
        }
    }
}

impl std::error::Error for ReadRefusal {}
