use std::fmt;

/// A call on the device failed.
#[derive(Clone, Copy, Debug, PartialEq, Eq)]
pub struct Lost {
    pub device: u8,
}

impl fmt::Display for Lost {
    fn fmt<W: fmt::Write>(&self, f: &mut fmt::Formatter<W>) -> fmt::Result {
        write!(f, "device {} failed", self.device)
    }
}

impl std::error::Error for Lost {}
