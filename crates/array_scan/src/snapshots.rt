//! Which snapshots are complete.
ghost use Rattle.std.specs.Prelude.{◌≡◌, ◌+◌, ◌^◌, ◌<◌, ◌&&◌, ℕ, List, length, if◌then◌else◌, Some, None};
ghost use Rattle.std.specs.List.{list_any, list_all};
ghost use Rattle.array_model.specs.NeedTests.{snapshot_bytes, can_have, completes, is_complete, is_no_newer};
ghost use Rattle.array_scan.specs.declared.set_read.RecordAt.{RecordAt};
ghost use Rattle.array_scan.specs.Judged.{Payloads, record_with};
ghost use Rattle.array_scan.specs.Valid.{items_with};
ghost use Rattle.array_scan.specs.Objects.{HasLengths};
ghost use Rattle.array_scan.specs.Needed.{stamped_by};

use crate::records::ValidRecord;
use crate::set_read::RecordAt;
use marker_format::Kind;

/// What all parts of a snapshot say of it.
#[derive(Clone, Copy)]
struct Stamped {
    stamp: u64,
    parts: u32,
    bytes: u32,
}

/// Whether the record is this part of the snapshot.
fn is_part_of(at: &RecordAt, of: &Stamped, part: u32) -> bool
    ensures { (own : RecordAt → List ℕ) → snapshot_bytes (stamped_by of.now) part (record_with own at.now)
        ≡ (if result then Some (length (own at.now)) else None) }
{
    let marker = &at.marker;
    match Kind::from_number(marker.kind) {
        Some(Kind::Snapshot) => {
            marker.stamp == of.stamp
                && marker.part == part
                && marker.parts == of.parts
                && marker.length == of.bytes
        }
        _ => false,
    }
}

/// Whether the parts from this one on, so many, are there and can have so many bytes together.
fn can_have(records: &[ValidRecord], of: &Stamped, part: u32, more: u32, left: u32) -> bool
    requires { part + more < 2 ^ 32 }
    ensures { (payload : Payloads) → HasLengths payload
        → result ≡ can_have (items_with payload records.now) (stamped_by of.now) part more left }
{
    if more == 0 {
        return left == 0;
    }
    for valid in records {
        let bytes = valid.at.marker.payload;
        if is_part_of(valid.at, of, part)
            && bytes <= left
            && can_have(records, of, part + 1, more - 1, left - bytes)
        {
            return true;
        }
    }
    false
}

/// Whether the record is a part of a snapshot with this stamp of which all parts are there.
fn completes(records: &[ValidRecord], stamp: u64, at: &RecordAt) -> bool
    ensures { (payload : Payloads) (own : RecordAt → List ℕ) → HasLengths payload
        → result ≡ completes (items_with payload records.now) stamp (record_with own at.now) }
{
    let marker = &at.marker;
    match Kind::from_number(marker.kind) {
        Some(Kind::Snapshot) => {
            let of = Stamped {
                stamp,
                parts: marker.parts,
                bytes: marker.length,
            };
            marker.stamp == stamp
                && 0 < marker.parts
                && can_have(records, &of, 0, marker.parts, marker.length)
        }
        _ => false,
    }
}

/// Whether a snapshot with this stamp is complete.
fn is_complete(records: &[ValidRecord], stamp: u64) -> bool
    ensures { (payload : Payloads) → HasLengths payload
        → result ≡ is_complete (items_with payload records.now) stamp }
{
    for valid in records {
        if completes(records, stamp, valid.at) {
            return true;
        }
    }
    false
}

/// Whether the record is of no complete snapshot with a greater stamp.
fn is_no_newer(records: &[ValidRecord], stamp: u64, at: &RecordAt) -> bool
    ensures { (payload : Payloads) (own : RecordAt → List ℕ) → HasLengths payload
        → result ≡ is_no_newer (items_with payload records.now) stamp (record_with own at.now) }
{
    match Kind::from_number(at.marker.kind) {
        Some(Kind::Snapshot) => {
            at.marker.stamp <= stamp || !is_complete(records, at.marker.stamp)
        }
        _ => true,
    }
}

/// Whether a snapshot with this stamp is complete, and none with a greater one is.
pub(crate) fn is_newest_snapshot(records: &[ValidRecord], stamp: u64) -> bool
    ensures { (payload : Payloads) → HasLengths payload → let items = items_with payload records.now in
        result ≡ (is_complete items stamp && list_all (is_no_newer items stamp) items) }
{
    if !is_complete(records, stamp) {
        return false;
    }
    for valid in records {
        if !is_no_newer(records, stamp, valid.at) {
            return false;
        }
    }
    true
}
