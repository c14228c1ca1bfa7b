use std::fmt;

/// A call on the outside failed. Each object of the outside counts its faults, and this answer comes only where the
/// count rose in that call, or stands at its last value.
#[derive(Clone, Copy, Debug, PartialEq, Eq)]
pub struct Failed;

impl fmt::Display for Failed {
    fn fmt<W: fmt::Write>(&self, f: &mut fmt::Formatter<W>) -> fmt::Result {
        write!(f, "a call on the outside failed")
    }
}

impl std::error::Error for Failed {}
