ghost use Rattle.std.specs.Prelude.{◌≡◌};
ghost use Rattle.marker_format.specs.Tag.{code_of};

/// What a block holds: its first byte.
#[derive(Clone, Copy, Debug, PartialEq, Eq)]
pub enum Tag {
    /// A marker.
    Marker = 1,
    /// Bytes of a fragment.
    Data = 2,
    /// A foot.
    Foot = 3,
    /// A label.
    Label = 4,
}

impl Tag {
    /// The number that stands for it.
    pub fn number(self) -> u8
        ensures { result ≡ code_of self }
    {
        self as u8
    }
}
