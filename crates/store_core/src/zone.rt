//! The open set's zone: where its next record goes.
use marker_format::Marker;

/// Blocks and records of a step.
#[derive(Clone, Copy, Debug, PartialEq, Eq)]
pub(crate) struct Load {
    pub(crate) blocks: u32,
    pub(crate) records: u32,
}

/// A zone of a set to which records are added, behind its last record.
#[derive(Clone, Copy, Debug)]
pub(crate) struct OpenZone {
    pub(crate) set: u64,
    pub(crate) index: u8,
    pub(crate) blocks: u32,
    pub(crate) records: u32,
    /// A part of a record stands behind the last one: nothing can be put there any more.
    pub(crate) is_torn: bool,
}

impl OpenZone {
    ghost use Rattle.std.specs.Prelude.{◌≡◌, ◌+◌, ◌<◌, ◌^◌};
    ghost use Rattle.store_core.specs.OpenZone.{behind, with_record};

    /// No record.
    pub(crate) const START: OpenZone = OpenZone {
        set: 0,
        index: 0,
        blocks: 0,
        records: 0,
        is_torn: false,
    };

    /// The zone behind one record more of so many blocks: the first one says which set and index it is of.
    pub(crate) fn with(self, marker: &Marker, blocks: u32) -> OpenZone
        requires blocks { self.blocks + blocks < 2 ^ 32 }
        requires records { self.records + 1 < 2 ^ 32 }
        ensures { result ≡ with_record self marker.now blocks }
    {
        let (set, index) = if self.records == 0 {
            (marker.set, marker.index)
        } else {
            (self.set, self.index)
        };
        OpenZone {
            set,
            index,
            blocks: self.blocks + blocks,
            records: self.records + 1,
            is_torn: self.is_torn,
        }
    }

    /// The zone behind more records.
    pub(crate) fn behind(self, load: Load) -> OpenZone
        requires blocks { self.blocks + load.blocks < 2 ^ 32 }
        requires records { self.records + load.records < 2 ^ 32 }
        ensures { result ≡ behind self load }
    {
        OpenZone {
            set: self.set,
            index: self.index,
            blocks: self.blocks + load.blocks,
            records: self.records + load.records,
            is_torn: self.is_torn,
        }
    }
}
