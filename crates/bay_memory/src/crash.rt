ghost use Rattle.std.specs.Prelude.{◌≡◌};
ghost use Rattle.bay_memory.specs.Operation.{behind_in};

use crate::keep::Keep;
use crate::operation::Put;

/// A crash: what it keeps, what an append in progress has put by then, and which devices are missing afterwards.
#[derive(Clone, Copy)]
pub(crate) struct Crash<'a> {
    pub keep: Keep,
    pub put: Option<Put<'a>>,
    pub removed: &'a [u8],
}

impl<'a> Crash<'a> {
    /// What the append has put behind a zone.
    pub fn behind(&self, device: u8, zone: u16) -> &'a [u8]
        ensures { result.now ≡ behind_in self.now.put device zone }
    {
        match self.put {
            Some(put) if device == put.device && zone == put.zone => put.bytes,
            _ => &[],
        }
    }
}
