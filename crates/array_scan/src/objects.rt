//! What names stand for.
ghost use Rattle.std.specs.Prelude.{◌≡◌, ◌^◌, ◌<◌, ℕ, List, ◌∷◌, Some, option_map, IfOk};
ghost use Rattle.std.specs.Option.{option_copied};
ghost use Rattle.array_model.specs.Record.{Record};
ghost use Rattle.array_model.specs.Map.{parts_from, object_of, said_by, value_of, map_by, map_of};
ghost use Rattle.array_scan.specs.declared.set_read.RecordAt.{RecordAt};
ghost use Rattle.array_scan.specs.Judged.{Payloads, record_with, sets_with};
ghost use Rattle.array_scan.specs.Valid.{item_with, items_with};
ghost use Rattle.array_scan.specs.Objects.{HasLengths, what_of, len_of, with_name, Tells};

use crate::notes::{first_part, name_of, newest};
use crate::records::{ValidRecord, valid_records};
use crate::set_read::RecordAt;
use crate::sets::Sets;
use marker_format::{Kind, Marker};
use smore_base::Memory;
use std::alloc::Global;
use std::collections::BTreeMap;

/// What a name stands for.
#[derive(Clone, Copy, Debug, PartialEq, Eq)]
pub enum What {
    /// An object of so many bytes.
    Whole { bytes: u32 },
    /// The object of an upload of which this part is the first that isn't there; or of which all are, up to this number, and
    /// have not as many bytes as its note says.
    Broken { upload: u64, part: u32 },
}

/// How many bytes the payload has.
fn payload_len(at: &RecordAt) -> u64
    ensures len { result ≡ at.now.marker.payload }
    ensures few { result < 2 ^ 32 }
{
    u64::from(at.marker.payload)
}

/// How many bytes the parts of the upload have, or the first that isn't there.
fn parts_len(records: &[ValidRecord], upload: u64, parts: u32) -> Result<u64, u32>
    ensures { (payload : Payloads) → HasLengths payload
        → result ≡ len_of (parts_from (items_with payload records.now) upload 0 parts) }
{
    let mut bytes = 0;
    for part in 0..parts {
        let Some(valid) = first_part(records, upload, part) else {
            return Err(part);
        };
        bytes += payload_len(valid.at);
    }
    Ok(bytes)
}

/// The object of a put note.
fn object_of(records: &[ValidRecord], note: &Marker) -> What
    ensures { (payload : Payloads) → HasLengths payload → let items = items_with payload records.now in
        result ≡ what_of (object_of items note.now.upload note.now.parts note.now.length) }
{
    let upload = note.upload;
    match parts_len(records, upload, note.parts) {
        Ok(bytes) if bytes == u64::from(note.length) => What::Whole { bytes: note.length },
        Ok(_) => What::Broken {
            upload,
            part: note.parts,
        },
        Err(part) => What::Broken { upload, part },
    }
}

/// What a note says of its name.
fn said_by(records: &[ValidRecord], note: &RecordAt) -> Option<What>
    ensures { (payload : Payloads) (own : RecordAt → List ℕ) → HasLengths payload
        → let items = items_with payload records.now in
        result ≡ option_map what_of (said_by items (Some (record_with own note.now))) }
{
    match Kind::from_number(note.marker.kind) {
        Some(Kind::Put) => Some(object_of(records, &note.marker)),
        _ => None,
    }
}

/// What the name stands for.
fn value_of(records: &[ValidRecord], name: &[u8]) -> Option<What>
    ensures { (payload : Payloads) → HasLengths payload
        → result ≡ option_map what_of (value_of (items_with payload records.now) name.now) }
{
    said_by(records, newest(records, name)?.at)
}

/// The name of a note.
fn note_name(at: &RecordAt) -> Option<&[u8]>
    ensures { (own : RecordAt → List ℕ) (items rest : List Record)
        → map_by items (record_with own at.now ∷ rest) ≡ with_name items (option_copied result) rest }
{
    match Kind::from_number(at.marker.kind) {
        Some(Kind::Put | Kind::Delete) => Some(name_of(&at.marker)),
        _ => None,
    }
}

/// Tells of the record's name, where it is a note, what it stands for.
fn tell<'a>(
    objects: &mut BTreeMap<&'a [u8], What>,
    records: &[ValidRecord<'a>],
    at: &'a RecordAt,
) -> Result<(), Memory>
    ensures { IfOk result (λ _. (payload : Payloads) (own : RecordAt → List ℕ) (rest : List Record)
        → HasLengths payload → let items = items_with payload records.now in
        Tells objects.old (map_by items rest)
        → Tells objects.new (map_by items (record_with own at.now ∷ rest))) }
{
    if let Some(name) = note_name(at) {
        match value_of(records, name) {
            Some(what) => {
                objects.insert(name, what)?;
            }
            None => {
                objects.remove(name);
            }
        }
    }
    Ok(())
}

/// What each name of the records stands for.
pub(crate) fn map_by<'a>(
    alloc: Global,
    records: &[ValidRecord<'a>],
) -> Result<BTreeMap<&'a [u8], What>, Memory>
    ensures { IfOk result (λ objects. (payload : Payloads) → HasLengths payload
        → let items = items_with payload records.now in Tells objects (map_by items items)) }
{
    let mut objects = BTreeMap::new(alloc);
    let count = records.len();
    for i in 0..count {
        tell(&mut objects, records, records[count - 1 - i].at)?;
    }
    Ok(objects)
}
