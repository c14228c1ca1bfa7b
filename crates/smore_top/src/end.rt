ghost use Rattle.std.specs.Prelude.{◌≡◌};
ghost use Rattle.smore_top.specs.End.{status_of};

/// How a run ends.
#[derive(Clone, Copy, Debug, PartialEq, Eq)]
pub(crate) enum End {
    /// The input was read to a Stop, or to its end between two frames.
    Done,
    /// No memory was found outside a step.
    NoMemory,
    /// The words are no command line.
    BadWords,
    SourceFailed,
    SinkFailed,
    /// The next bytes begin no frame, or the input ends inside one.
    BadFrame,
    /// The bay can't be opened.
    NotOpened,
    /// A call on a device failed while it was formatted.
    NotFormatted,
}

// The number of each end: `docs/FORMATS.md`, "Statuses".

pub(crate) const DONE: u8 = 0;

/// No memory was found outside a step.
pub const NO_MEMORY: u8 = 1;

/// The words are no command line that can be run over the bay.
pub const BAD_WORDS: u8 = 2;

pub(crate) const SOURCE_FAILED: u8 = 3;

pub(crate) const SINK_FAILED: u8 = 4;

pub(crate) const BAD_FRAME: u8 = 5;

pub(crate) const NOT_OPENED: u8 = 6;

pub(crate) const NOT_FORMATTED: u8 = 11;

impl End {
    /// Its number.
    pub(crate) fn status(self) -> u8
        ensures { result ≡ status_of self }
    {
        match self {
            End::Done => DONE,
            End::NoMemory => NO_MEMORY,
            End::BadWords => BAD_WORDS,
            End::SourceFailed => SOURCE_FAILED,
            End::SinkFailed => SINK_FAILED,
            End::BadFrame => BAD_FRAME,
            End::NotOpened => NOT_OPENED,
            End::NotFormatted => NOT_FORMATTED,
        }
    }
}
