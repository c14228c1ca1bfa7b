ghost use Rattle.std.specs.Prelude.{◌≡◌};
ghost use Rattle.zone_bay.specs.Bay.{device_of};
ghost use Rattle.bay_memory.specs.Operation.{call_of};

/// A call that counts.
#[derive(Clone, Copy)]
pub(crate) enum Operation<'a> {
    Written { device: u8, zone: u16 },
    Read { device: u8, zone: u16 },
    Append(Put<'a>),
    Reset { device: u8, zone: u16 },
    Flush { device: u8 },
    Replace { device: u8 },
}

/// What an append puts at the end of a zone.
#[derive(Clone, Copy)]
pub(crate) struct Put<'a> {
    pub device: u8,
    pub zone: u16,
    pub bytes: &'a [u8],
}

impl<'a> Operation<'a> {
    ghost use Rattle.bay_memory.specs.Operation.{done_unless, IsDone};

    /// The device that is asked.
    pub fn device(self) -> u8
        ensures { result ≡ device_of (call_of self.entry) }
    {
        match self {
            Operation::Written { device, .. } => device,
            Operation::Read { device, .. } => device,
            Operation::Append(put) => put.device,
            Operation::Reset { device, .. } => device,
            Operation::Flush { device } => device,
            Operation::Replace { device } => device,
        }
    }

    /// What it has put when so many bytes of an append are done, where it isn't due to fail. Nothing else is done in part.
    pub fn done(self, due: bool, bytes: u32) -> Option<Put<'a>>
        ensures { IsDone (done_unless due (call_of self.entry) bytes) (call_of self.entry) result }
    {
        match self {
            Operation::Append(put) if !due => {
                let done = put.bytes.len().min(bytes as usize);
                Some(Put {
                    device: put.device,
                    zone: put.zone,
                    bytes: &put.bytes[..done],
                })
            }
            _ => None,
        }
    }
}
