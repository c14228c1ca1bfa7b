use smore_base::Memory;
use std::alloc::{AllocError, AllocFailed};
use std::fmt;
use zone_parse::Lost;

/// Why a scan gives no answer.
#[derive(Clone, Copy, Debug, PartialEq, Eq)]
pub enum ScanRefusal {
    /// There is no memory for it.
    Memory,
    /// A call on the device failed.
    Lost { device: u8 },
}

impl From<Memory> for ScanRefusal {
    ghost use Rattle.std.specs.Prelude.{◌≡◌};
    ghost use Rattle.array_scan.specs.declared.refusal.ScanRefusal.TheVariants as refusals;

    ghost from_gives = { λ _ refusal. refusal ≡ refusals.Memory };

    fn from(_: Memory) -> Self {
        ScanRefusal::Memory
    }
}

impl From<AllocError> for ScanRefusal {
    ghost use Rattle.std.specs.Prelude.{◌≡◌};
    ghost use Rattle.array_scan.specs.declared.refusal.ScanRefusal.TheVariants as refusals;

    ghost from_gives = { λ _ refusal. refusal ≡ refusals.Memory };

    fn from(_: AllocError) -> Self {
        ScanRefusal::Memory
    }
}

impl<T: Drop> From<AllocFailed<T>> for ScanRefusal {
    ghost use Rattle.std.specs.Prelude.{◌≡◌};
    ghost use Rattle.array_scan.specs.declared.refusal.ScanRefusal.TheVariants as refusals;

    ghost from_gives = { λ _ refusal. refusal ≡ refusals.Memory };

    fn from(_: AllocFailed<T>) -> Self {
        ScanRefusal::Memory
    }
}

impl From<Lost> for ScanRefusal {
    ghost use Rattle.std.specs.Prelude.{◌≡◌};
    ghost use Rattle.array_scan.specs.declared.refusal.ScanRefusal.TheVariants as refusals;

    ghost from_gives = { λ lost refusal. refusal ≡ refusals.Lost lost.device };

    fn from(lost: Lost) -> Self {
        ScanRefusal::Lost {
            device: lost.device,
        }
    }
}

impl fmt::Display for ScanRefusal {
    fn fmt<W: fmt::Write>(&self, f: &mut fmt::Formatter<W>) -> fmt::Result {
        match self {
            ScanRefusal::Memory => write!(f, "out of memory"),
            ScanRefusal::Lost { device } => write!(f, "device {device} failed"),
        }
    }
}

impl std::error::Error for ScanRefusal {}
