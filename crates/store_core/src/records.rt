//! The records of a step: their markers.
ghost use Rattle.std.specs.Prelude.{◌≡◌, ◌+◌, ◌<◌, ◌^◌};

use marker_format::{Kind, Marker};
use smore_base::Name;

/// Where a record goes: its set and index, how many records stand before it, and the array.
#[derive(Clone, Copy, Debug)]
pub(crate) struct RecordPlace {
    pub(crate) set: u64,
    pub(crate) index: u8,
    pub(crate) position: u16,
    pub(crate) array: [u8; 16],
}

impl RecordPlace {
    ghost use Rattle.store_core.specs.Records.{place_marker, part_marker, put_marker, delete_marker, next_place};

    /// A marker without what only some kinds have.
    pub(crate) fn marker(&self, kind: Kind) -> Marker
        ensures { result ≡ place_marker self.now kind }
    {
        Marker {
            index: self.index,
            ..Marker::plain(kind, 1, 2, self.set, self.position, self.array)
        }
    }

    /// The marker of an upload's only part.
    pub(crate) fn part(&self, upload: u64, bytes: u16) -> Marker
        ensures { result ≡ part_marker self.now upload bytes }
    {
        Marker {
            fragment: bytes,
            upload,
            payload: u32::from(bytes),
            ..self.marker(Kind::Part)
        }
    }

    /// The note of a put, whose stamp is its upload's number too.
    pub(crate) fn put_note(&self, stamp: u64, length: u32, name: Name) -> Marker
        ensures { result ≡ put_marker self.now stamp length name }
    {
        Marker {
            stamp,
            upload: stamp,
            parts: if length == 0 { 0 } else { 1 },
            length,
            name: Some(name),
            ..self.marker(Kind::Put)
        }
    }

    /// The note of a delete.
    pub(crate) fn delete_note(&self, stamp: u64, name: Name) -> Marker
        ensures { result ≡ delete_marker self.now stamp name }
    {
        Marker {
            stamp,
            name: Some(name),
            ..self.marker(Kind::Delete)
        }
    }

    /// The place behind one record more.
    pub(crate) fn next(&self) -> RecordPlace
        requires { self.now.position + 1 < 2 ^ 16 }
        ensures { result ≡ next_place self.now }
    {
        RecordPlace {
            set: self.set,
            index: self.index,
            position: self.position + 1,
            array: self.array,
        }
    }
}
