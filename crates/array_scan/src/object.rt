//! The bytes of one object.
ghost use Rattle.std.specs.Prelude.{◌≡◌, ◌+◌, option_map, IfSome, IfOk};
ghost use Rattle.std.specs.List.{AllByRecursion};
ghost use Rattle.array_model.specs.Map.{object_of, value_of};
ghost use Rattle.array_scan.specs.Calls.{OnlyRead, lost_by};
ghost use Rattle.array_scan.specs.Valid.{items_with};
ghost use Rattle.array_scan.specs.Objects.{value_by, IsReadable};
ghost use Rattle.array_scan.specs.Scan.{payload_held};

use crate::notes::{first_part, newest};
use crate::payload::read_payload;
use crate::records::ValidRecord;
use crate::refusal::ScanRefusal;
use marker_format::{Kind, Marker};
use rs_code::Code;
use std::alloc::Global;
use zone_bay::Bay;

/// What a name stands for, with the object's bytes.
#[derive(Debug, Drop)]
pub enum Object {
    /// An object.
    Whole { bytes: Vec<u8> },
    /// The object of an upload of which this part is the first that isn't there; or of which all are, up to this number, and
    /// have not as many bytes as its note says.
    Broken { upload: u64, part: u32 },
}

/// The object of a put note.
fn read_upload<B: Bay>(
    alloc: Global,
    bay: &mut B,
    code: &Code,
    records: &[ValidRecord],
    note: &Marker,
) -> Result<Object, ScanRefusal>
    requires readable { let code = code.now in
        AllByRecursion (IsReadable (B.state bay.old).shape code.k (code.k + code.p)) records.now }
    ensures object { IfSome (B.state bay.old).contents (λ held. IfOk result (λ object. value_by object
        ≡ object_of (items_with (payload_held code.now.k held) records.now) note.now.upload note.now.parts
        note.now.length)) }
    ensures reads { OnlyRead (B.state bay.old) (B.state bay.new) (lost_by result) }
{
    let upload = note.upload;
    let mut bytes = Vec::new(alloc);
    for part in 0..note.parts {
        let Some(valid) = first_part(records, upload, part) else {
            return Ok(Object::Broken { upload, part });
        };
        let payload = read_payload(alloc, bay, code, valid.set, valid.at)?;
        bytes.extend_from_slice(&payload)?;
    }
    if bytes.len() == note.length as usize {
        Ok(Object::Whole { bytes })
    } else {
        Ok(Object::Broken {
            upload,
            part: note.parts,
        })
    }
}

/// What the name stands for.
pub(crate) fn read_object<B: Bay>(
    alloc: Global,
    bay: &mut B,
    code: &Code,
    records: &[ValidRecord],
    name: &[u8],
) -> Result<Option<Object>, ScanRefusal>
    requires readable { let code = code.now in
        AllByRecursion (IsReadable (B.state bay.old).shape code.k (code.k + code.p)) records.now }
    ensures object { IfSome (B.state bay.old).contents (λ held. IfOk result (λ object. option_map value_by object
        ≡ value_of (items_with (payload_held code.now.k held) records.now) name.now)) }
    ensures reads { OnlyRead (B.state bay.old) (B.state bay.new) (lost_by result) }
{
    let Some(note) = newest(records, name) else {
        return Ok(None);
    };
    match Kind::from_number(note.at.marker.kind) {
        Some(Kind::Put) => Ok(Some(read_upload(alloc, bay, code, records, &note.at.marker)?)),
        _ => Ok(None),
    }
}
