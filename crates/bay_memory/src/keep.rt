ghost use Rattle.std.specs.Prelude.{◌≡◌};
ghost use Rattle.bay_memory.specs.Keep.{kept_bytes};

/// What a crash leaves of each zone, at least its firm bytes.
#[derive(Clone, Copy, Debug, PartialEq, Eq)]
pub enum Keep {
    /// The firm bytes alone.
    Firm,
    /// All the bytes.
    All,
    /// All the bytes, but of one zone only so many of the first, or its firm ones where those are more.
    Short { device: u8, zone: u16, bytes: u32 },
}

impl Keep {
    /// How many bytes it leaves of a zone that holds so many, of which so many are firm. It may be more than it holds.
    pub(crate) fn bytes(self, device: u8, zone: u16, held: usize, firm: usize) -> usize
        ensures { result ≡ kept_bytes self device zone held firm }
    {
        match self {
            Keep::Firm => firm,
            Keep::All => held,
            Keep::Short {
                device: short_device,
                zone: short_zone,
                bytes,
            } => {
                if device == short_device && zone == short_zone {
                    firm.max(bytes as usize)
                } else {
                    held
                }
            }
        }
    }
}
