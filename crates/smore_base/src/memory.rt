use std::alloc::{AllocError, AllocFailed};
use std::fmt;

/// Want of memory, the one answer that any call which allocates may give.
#[derive(Clone, Copy, Debug, PartialEq, Eq)]
pub struct Memory;

impl From<AllocError> for Memory {
    fn from(_: AllocError) -> Self {
        Memory
    }
}

impl<T: Drop> From<AllocFailed<T>> for Memory {
    fn from(_: AllocFailed<T>) -> Self {
        Memory
    }
}

impl fmt::Display for Memory {
    fn fmt<W: fmt::Write>(&self, f: &mut fmt::Formatter<W>) -> fmt::Result {
        write!(f, "out of memory")
    }
}

impl std::error::Error for Memory {}
