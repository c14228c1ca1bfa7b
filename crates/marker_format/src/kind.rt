ghost use Rattle.std.specs.Prelude.{◌≡◌};

/// What a record is for, or that a block ends a rebuilt zone. `docs/FORMATS.md`, "Marker", lists which fields of a
/// marker each kind uses.
#[derive(Clone, Copy, Debug, PartialEq, Eq)]
pub enum Kind {
    /// The first record of a zone.
    Head = 1,
    /// A part of an object's bytes.
    Part = 2,
    /// A put: the object of a name, and in how many parts it stands.
    Put = 3,
    /// A delete: the name has no object from here on.
    Delete = 4,
    /// Of another set only so many records count.
    Cut = 5,
    /// The set is ready for records.
    Ready = 6,
    /// A part of the list of a set's records, at its end.
    Digest = 7,
    /// A part of a list of all sets.
    Snapshot = 8,
    /// The end of a rebuilt zone. It is no record.
    Trailer = 9,
}

impl Kind {
    ghost use Rattle.marker_format.specs.Kind.{code_of, kind_of, has_stamp, has_upload, has_payload, has_name, most_position};

    /// The number that stands for it in a marker.
    pub fn number(self) -> u8
        ensures { result ≡ code_of self }
    {
        self as u8
    }

    /// The kind with this number, where there is one.
    pub fn from_number(number: u8) -> Option<Kind>
        ensures { result ≡ kind_of number }
    {
        match number {
            1 => Some(Kind::Head),
            2 => Some(Kind::Part),
            3 => Some(Kind::Put),
            4 => Some(Kind::Delete),
            5 => Some(Kind::Cut),
            6 => Some(Kind::Ready),
            7 => Some(Kind::Digest),
            8 => Some(Kind::Snapshot),
            9 => Some(Kind::Trailer),
            _ => None,
        }
    }

    /// Whether a marker of this kind has a stamp.
    pub(crate) fn has_stamp(self) -> bool
        ensures { result ≡ has_stamp self }
    {
        matches!(self, Kind::Put | Kind::Delete | Kind::Snapshot)
    }

    /// Whether a marker of this kind has an upload, or a cut's target in its place.
    pub(crate) fn has_upload(self) -> bool
        ensures { result ≡ has_upload self }
    {
        matches!(self, Kind::Part | Kind::Put | Kind::Cut)
    }

    /// Whether a record of this kind has a payload.
    pub(crate) fn has_payload(self) -> bool
        ensures { result ≡ has_payload self }
    {
        matches!(self, Kind::Part | Kind::Digest | Kind::Snapshot)
    }

    /// Whether a marker of this kind has a name.
    pub(crate) fn has_name(self) -> bool
        ensures { result ≡ has_name self }
    {
        matches!(self, Kind::Put | Kind::Delete)
    }

    /// The greatest position that a marker of this kind may have.
    pub(crate) fn most_position(self) -> u16
        ensures { result ≡ most_position self }
    {
        match self {
            Kind::Head => 0,
            Kind::Trailer => u16::MAX,
            _ => u16::MAX - 1,
        }
    }
}
