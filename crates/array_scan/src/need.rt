//! Which of the valid records are wanted, whatever copies they have.
ghost use Rattle.std.specs.Prelude.{◌≡◌, ◌+◌, ◌^◌, ◌<◌, ◌&&◌, true, ℕ, List, [], length, map, count_by, option_map, is_some, if◌then◌else◌, Some, None};
ghost use Rattle.std.specs.List.{list_any, list_all};
ghost use Rattle.std.specs.Str.{bytes_eq};
ghost use Rattle.marker_format.specs.Marker.{bytes_of_name};
ghost use Rattle.array_model.specs.Record.{note_stamp};
ghost use Rattle.array_model.specs.Map.{newest};
ghost use Rattle.array_model.specs.NeedTests.{is_same, is_that, names_upload, is_wanted};
ghost use Rattle.array_scan.specs.declared.set_read.RecordAt.{RecordAt};
ghost use Rattle.array_scan.specs.Judged.{Payloads, record_with};
ghost use Rattle.array_scan.specs.Valid.{items_with};
ghost use Rattle.array_scan.specs.Objects.{HasLengths};
ghost use Rattle.array_scan.specs.Needed.{put_by, delete_by, part_by, snapshot_by, may_be_wanted, payloads_match};

use crate::notes::{is_note_of, name_of, newest};
use crate::records::ValidRecord;
use crate::set_read::RecordAt;
use crate::snapshots::is_newest_snapshot;
use marker_format::{Kind, Marker};

/// Whether the record is a copy of this put note.
fn is_same_put(at: &RecordAt, put: &Marker) -> bool
    ensures { (own : RecordAt → List ℕ) → result ≡ is_same (record_with own at.now) (put_by put.now) }
{
    let marker = &at.marker;
    match Kind::from_number(marker.kind) {
        Some(Kind::Put) => {
            name_of(marker) == name_of(put)
                && marker.stamp == put.stamp
                && marker.upload == put.upload
                && marker.parts == put.parts
                && marker.length == put.length
        }
        _ => false,
    }
}

/// Whether the record is a copy of this delete note.
fn is_same_delete(at: &RecordAt, delete: &Marker) -> bool
    ensures { (own : RecordAt → List ℕ)
        → result ≡ is_same (record_with own at.now) (delete_by delete.now) }
{
    let marker = &at.marker;
    match Kind::from_number(marker.kind) {
        Some(Kind::Delete) => name_of(marker) == name_of(delete) && marker.stamp == delete.stamp,
        _ => false,
    }
}

/// Whether the record is the same part, whatever its payload.
fn is_same_part(at: &RecordAt, part: &Marker) -> bool
    ensures { (own : RecordAt → List ℕ) (payload : List ℕ)
        → is_same (record_with own at.now) (part_by part.now payload) ≡ (result && bytes_eq (own at.now) payload) }
{
    let marker = &at.marker;
    match Kind::from_number(marker.kind) {
        Some(Kind::Part) => marker.upload == part.upload && marker.part == part.part,
        _ => false,
    }
}

/// Whether the record is the same part of a snapshot, whatever its payload.
fn is_same_snapshot(at: &RecordAt, part: &Marker) -> bool
    ensures { (own : RecordAt → List ℕ) (payload : List ℕ)
        → is_same (record_with own at.now) (snapshot_by part.now payload)
        ≡ (result && bytes_eq (own at.now) payload) }
{
    let marker = &at.marker;
    match Kind::from_number(marker.kind) {
        Some(Kind::Snapshot) => {
            marker.stamp == part.stamp
                && marker.part == part.part
                && marker.parts == part.parts
                && marker.length == part.length
        }
        _ => false,
    }
}

/// Whether the records are copies of each other, if their payloads are equal, where they have any. It is asked of records that
/// may be wanted.
pub(crate) fn is_alike(at: &RecordAt, other: &RecordAt) -> bool
    ensures { (own its : RecordAt → List ℕ) → let item = record_with its other.now in
        may_be_wanted item ≡ true
        → is_same (record_with own at.now) item ≡ (result && payloads_match item (own at.now) (its other.now)) }
{
    match Kind::from_number(other.marker.kind) {
        Some(Kind::Put) => is_same_put(at, &other.marker),
        Some(Kind::Delete) => is_same_delete(at, &other.marker),
        Some(Kind::Part) => is_same_part(at, &other.marker),
        Some(Kind::Snapshot) => is_same_snapshot(at, &other.marker),
        _ => false,
    }
}

/// Whether the put note is the newest note of its name.
fn is_newest_put(records: &[ValidRecord], put: &Marker) -> bool
    ensures { (payload : Payloads) → let item = put_by put.now in
        result ≡ is_that item (newest (bytes_of_name put.now.name) (items_with payload records.now)) }
{
    match newest(records, name_of(put)) {
        Some(note) => is_same_put(note.at, put),
        None => false,
    }
}

/// Whether the delete note is the newest note of its name.
fn is_newest_delete(records: &[ValidRecord], delete: &Marker) -> bool
    ensures { (payload : Payloads) → let item = delete_by delete.now in
        result ≡ is_that item (newest (bytes_of_name delete.now.name) (items_with payload records.now)) }
{
    match newest(records, name_of(delete)) {
        Some(note) => is_same_delete(note.at, delete),
        None => false,
    }
}

/// Whether the record is a put note of the upload, and the newest note of its name.
fn names_upload(records: &[ValidRecord], upload: u64, at: &RecordAt) -> bool
    ensures { (payload : Payloads) (own : RecordAt → List ℕ)
        → result ≡ names_upload (items_with payload records.now) upload (record_with own at.now) }
{
    let marker = &at.marker;
    match Kind::from_number(marker.kind) {
        Some(Kind::Put) => marker.upload == upload && is_newest_put(records, marker),
        _ => false,
    }
}

/// Whether the upload is that of the newest note of a name.
fn is_upload_named(records: &[ValidRecord], upload: u64) -> bool
    ensures { (payload : Payloads) → let items = items_with payload records.now in
        result ≡ list_any (names_upload items upload) items }
{
    for valid in records {
        if names_upload(records, upload, valid.at) {
            return true;
        }
    }
    false
}

/// How many notes of the name there are.
fn count_notes(records: &[ValidRecord], name: &[u8]) -> usize
    ensures { (payload : Payloads)
        → result ≡ count_by (λ item. is_some (note_stamp name.now item)) (items_with payload records.now) }
{
    let mut count = 0;
    for valid in records {
        if is_note_of(valid.at, name) {
            count += 1;
        }
    }
    count
}

/// Whether a copy of the record is to be there, with no uploads in progress.
pub(crate) fn is_wanted(records: &[ValidRecord], at: &RecordAt) -> bool
    ensures { (payload : Payloads) (own : RecordAt → List ℕ) → HasLengths payload
        → result ≡ is_wanted [] (items_with payload records.now) (record_with own at.now) }
{
    let marker = &at.marker;
    match Kind::from_number(marker.kind) {
        Some(Kind::Put) => is_newest_put(records, marker),
        Some(Kind::Delete) => {
            is_newest_delete(records, marker) && 1 < count_notes(records, name_of(marker))
        }
        Some(Kind::Part) => is_upload_named(records, marker.upload),
        Some(Kind::Snapshot) => is_newest_snapshot(records, marker.stamp),
        _ => false,
    }
}
