/// What a zone is used for.
#[derive(Clone, Copy, Debug, PartialEq, Eq)]
pub enum ZoneUse {
    /// It is empty.
    Empty,
    /// It isn't empty, and carries nothing.
    Taken,
    /// It carries the fragments of this index of the set.
    Carrier { set: u64, index: u8 },
}

impl ZoneUse {
    ghost use Rattle.std.specs.Prelude.{◌≡◌};
    ghost use Rattle.set_table.specs.Zones.{is_empty, carries};

    /// Whether the zone is empty.
    pub fn is_empty(self) -> bool
        ensures { result ≡ is_empty self }
    {
        matches!(self, ZoneUse::Empty)
    }

    /// Whether the zone carries the index of the set.
    pub(crate) fn carries(self, set: u64, index: u8) -> bool
        ensures { result ≡ carries set index self }
    {
        match self {
            ZoneUse::Carrier { set: of, index: at } => of == set && at == index,
            _ => false,
        }
    }
}
