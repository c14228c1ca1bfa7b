use marker_format::Marker;

/// A zone of a drive.
#[derive(Clone, Copy, Debug, PartialEq, Eq)]
pub struct ZonePlace {
    pub device: u8,
    pub zone: u16,
}

/// The zone that carries an index of a set.
#[derive(Clone, Copy, Debug, PartialEq, Eq)]
pub struct Carrier {
    pub index: u8,
    pub place: ZonePlace,
}

/// A record on which the carriers of a set agree.
#[derive(Debug, Drop)]
pub struct RecordAt {
    /// As the first carrier has it.
    pub marker: Marker,
    /// The number of the marker's block, in each zone of the set.
    pub block: u32,
}

/// A set as its carriers have it: `docs/RULES.md`, "What is read of an array".
#[derive(Debug, Drop)]
pub struct SetRead {
    pub id: u64,
    /// By rising index.
    pub carriers: Vec<Carrier>,
    /// The agreed list, by position.
    pub records: Vec<RecordAt>,
    /// Whether each carrier has a whole foot.
    pub closed: bool,
}
