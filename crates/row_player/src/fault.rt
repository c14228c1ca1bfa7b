use smore_base::Memory;
use std::alloc::{AllocError, AllocFailed, Global};
use std::fmt;

/// Why a file of rows can't be run.
#[derive(Drop)]
pub enum Fault {
    /// No memory was found.
    Memory,
    /// The line is none of the language: what would have to stand there.
    BadLine(String),
}

impl Fault {
    /// A line in whose place this would have to stand.
    pub fn wanted(alloc: Global, text: &str) -> Fault {
        match String::from_str(alloc, text) {
            Ok(text) => Fault::BadLine(text),
            Err(_) => Fault::Memory,
        }
    }
}

impl From<AllocError> for Fault {
    fn from(_: AllocError) -> Fault {
        Fault::Memory
    }
}

impl<T: Drop> From<AllocFailed<T>> for Fault {
    fn from(_: AllocFailed<T>) -> Fault {
        Fault::Memory
    }
}

impl From<Memory> for Fault {
    fn from(_: Memory) -> Fault {
        Fault::Memory
    }
}

impl fmt::Display for Fault {
    fn fmt<W: fmt::Write>(&self, f: &mut fmt::Formatter<W>) -> fmt::Result {
        match self {
            Fault::Memory => write!(f, "no memory"),
            Fault::BadLine(wanted) => write!(f, "a bad line: wanted {wanted}"),
        }
    }
}
