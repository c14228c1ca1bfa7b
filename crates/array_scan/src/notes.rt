//! Notes and parts among valid records.
ghost use Rattle.std.specs.Prelude.{◌≡◌, ℕ, List, map, Some, None, option_map, IfSome, Contains, if◌then◌else◌};
ghost use Rattle.marker_format.specs.Marker.{bytes_of_name};
ghost use Rattle.array_model.specs.Record.{note_stamp, payload_of};
ghost use Rattle.array_model.specs.Map.{newest, part_of};
ghost use Rattle.array_scan.specs.declared.set_read.RecordAt.{RecordAt};
ghost use Rattle.array_scan.specs.Judged.{Payloads, record_with};
ghost use Rattle.array_scan.specs.Valid.{payload_with, item_with, items_with};
ghost use Rattle.array_scan.specs.Notes.{is_later};

use crate::records::ValidRecord;
use crate::set_read::RecordAt;
use marker_format::{Kind, Marker};

/// The name that a note has.
pub(crate) fn name_of(marker: &Marker) -> &[u8]
    ensures { result.now ≡ bytes_of_name marker.now.name }
{
    match &marker.name {
        Some(name) => name.as_slice(),
        None => &[],
    }
}

/// Whether the record is a note of the name.
pub(crate) fn is_note_of(at: &RecordAt, name: &[u8]) -> bool
    ensures { (payload : RecordAt → List ℕ) → note_stamp name.now (record_with payload at.now)
        ≡ (if result then Some at.now.marker.stamp else None) }
{
    match Kind::from_number(at.marker.kind) {
        Some(Kind::Put | Kind::Delete) => name_of(&at.marker) == name,
        _ => false,
    }
}

/// Whether the note's stamp is greater than that of the note behind it, where one was found.
fn is_later(at: &RecordAt, found: &Option<ValidRecord>) -> bool
    ensures { result ≡ is_later at.now found.now }
{
    match found {
        Some(note) => note.at.marker.stamp < at.marker.stamp,
        None => true,
    }
}

/// The newest note of a name: that of the greatest stamp, and of those the last.
pub(crate) fn newest<'a>(records: &[ValidRecord<'a>], name: &[u8]) -> Option<ValidRecord<'a>>
    ensures { (payload : Payloads)
        → option_map (item_with payload) result ≡ newest name.now (items_with payload records.now) }
{
    let count = records.len();
    let mut found = None;
    for i in 0..count {
        let valid = records[count - 1 - i];
        if is_note_of(valid.at, name) && is_later(valid.at, &found) {
            found = Some(valid);
        }
    }
    found
}

/// Whether the record is this part of the upload.
fn is_part(at: &RecordAt, upload: u64, part: u32) -> bool
    ensures { (payload : RecordAt → List ℕ) → payload_of upload part (record_with payload at.now)
        ≡ (if result then Some (payload at.now) else None) }
{
    match Kind::from_number(at.marker.kind) {
        Some(Kind::Part) => at.marker.upload == upload && at.marker.part == part,
        _ => false,
    }
}

/// The first record that is this part of the upload.
pub(crate) fn first_part<'a>(
    records: &[ValidRecord<'a>],
    upload: u64,
    part: u32,
) -> Option<ValidRecord<'a>>
    ensures payload { (payload : Payloads)
        → option_map (payload_with payload) result ≡ part_of upload part (items_with payload records.now) }
    ensures there { IfSome result (Contains records.now) }
{
    for valid in records {
        if is_part(valid.at, upload, part) {
            return Some(*valid);
        }
    }
    None
}
