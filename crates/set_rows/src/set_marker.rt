//! Markers of the records of a set, as `docs/FORMATS.md`, "Marker", has them.

ghost use Rattle.marker_format.proofs.MarkerRules.{Widths};

use marker_format::{Kind, Marker};
use row_player::ARRAY;
use smore_base::{Geometry, LINE_BYTES, Name, digest_records};
use std::alloc::{AllocError, Global};

/// A part of an upload.
#[derive(Clone, Copy)]
pub(crate) struct Part {
    pub(crate) upload: u64,
    pub(crate) part: u32,
    pub(crate) bytes: u32,
}

/// The upload that a note ends: how many parts it has, and how many bytes in all.
#[derive(Clone, Copy)]
pub(crate) struct Upload {
    pub(crate) upload: u64,
    pub(crate) parts: u32,
    pub(crate) length: u32,
}

/// A marker without what only some kinds have.
fn plain(geometry: &Geometry, kind: Kind, set: u64, position: u16) -> Marker
    ensures { Widths result }
{
    let n = geometry.k.saturating_add(geometry.p);
    Marker::plain(kind, geometry.k, n, set, position, ARRAY)
}

/// The bytes of each fragment of so many.
fn fragment(geometry: &Geometry, bytes: u32) -> u16 {
    u16::try_from(bytes.div_ceil(u32::from(geometry.k.max(1)))).unwrap_or(u16::MAX)
}

/// The marker of a part.
pub(crate) fn of_part(geometry: &Geometry, set: u64, position: u16, part: Part) -> Marker
    ensures { Widths result }
{
    let plain = plain(geometry, Kind::Part, set, position);
    Marker {
        fragment: fragment(geometry, part.bytes),
        upload: part.upload,
        part: part.part,
        payload: part.bytes,
        ..plain
    }
}

/// The marker of a put note, whose stamp is the upload's number.
pub(crate) fn of_note(
    geometry: &Geometry,
    set: u64,
    position: u16,
    upload: Upload,
    name: Name,
) -> Marker
    ensures { Widths result }
{
    let plain = plain(geometry, Kind::Put, set, position);
    Marker {
        stamp: upload.upload,
        upload: upload.upload,
        parts: upload.parts,
        length: upload.length,
        name: Some(name),
        ..plain
    }
}

/// The markers that a set begins with.
pub(crate) fn of_opening(
    alloc: Global,
    geometry: &Geometry,
    set: u64,
    cuts: &[(u64, u16)],
) -> Result<Vec<Marker>, AllocError> {
    let mut markers = Vec::new(alloc);
    markers.push(plain(geometry, Kind::Head, set, 0))?;
    let mut position = 1u16;
    for (target, kept) in cuts {
        let plain = plain(geometry, Kind::Cut, set, position);
        markers.push(Marker {
            upload: *target,
            length: u32::from(*kept),
            ..plain
        })?;
        position = position.saturating_add(1);
    }
    markers.push(plain(geometry, Kind::Ready, set, position))?;
    Ok(markers)
}

/// The marker of a digest record.
fn of_digest_part(geometry: &Geometry, set: u64, records: u16, part: u32, parts: u32) -> Marker {
    let size = u32::from(geometry.k).saturating_mul(geometry.shard);
    let lines = LINE_BYTES.saturating_mul(u32::from(records));
    let bytes = lines.saturating_sub(part.saturating_mul(size)).min(size);
    let position = u32::from(records).saturating_add(part);
    let plain = plain(
        geometry,
        Kind::Digest,
        set,
        u16::try_from(position).unwrap_or(u16::MAX),
    );
    Marker {
        fragment: fragment(geometry, bytes),
        part,
        parts,
        payload: bytes,
        ..plain
    }
}

/// The markers of the digest of a set of so many records.
pub(crate) fn of_digest(
    alloc: Global,
    geometry: &Geometry,
    set: u64,
    records: u16,
) -> Result<Vec<Marker>, AllocError> {
    let mut markers = Vec::new(alloc);
    if geometry.check().is_ok() {
        let parts = digest_records(geometry, u32::from(records));
        for part in 0..parts {
            markers.push(of_digest_part(geometry, set, records, part, parts))?;
        }
    }
    Ok(markers)
}

fn name_of(marker: &Marker) -> &[u8] {
    match &marker.name {
        Some(name) => name.as_slice(),
        None => &[],
    }
}

fn counts_of(marker: &Marker) -> [u64; 6] {
    [
        marker.stamp,
        marker.upload,
        u64::from(marker.part),
        u64::from(marker.parts),
        u64::from(marker.length),
        u64::from(marker.payload),
    ]
}

/// Whether they are markers of one record, of whichever index.
pub(crate) fn is_same(one: &Marker, other: &Marker) -> bool {
    one.kind == other.kind
        && one.k == other.k
        && one.n == other.n
        && one.set == other.set
        && one.position == other.position
        && one.fragment == other.fragment
        && counts_of(one) == counts_of(other)
        && one.array == other.array
        && name_of(one) == name_of(other)
}
