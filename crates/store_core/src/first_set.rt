//! The records that a set begins with: a head, and a ready record.
ghost use Rattle.std.specs.Prelude.{◌≡◌, ◌≤◌, ◌<◌, ◌*◌, ◌↔◌, length, drop, IfSome, IfOk, IsTrue, false};
ghost use Rattle.store_core.specs.DeviceCalls.{Appends};
ghost use Rattle.zone_bay.specs.OneDevice.{ReadsOn};
ghost use Rattle.store_core.specs.Zone.{first_place, first_markers, opening_bytes};
ghost use Rattle.store_core.specs.ZoneRecords.{HasRead};
ghost use Rattle.store_core.specs.Opening.{array_by, BeginsSet};

use crate::records::RecordPlace;
use crate::said::Said;
use crate::store::{DRIVE, FIRST_SET, ZONE};
use crate::zone::OpenZone;
use crate::zone_calls::append_firm;
use crate::zone_records::ZoneRecords;
use marker_format::{Kind, Label, write_record};
use smore_base::BLOCK_BYTES;
use std::alloc::Global;
use zone_bay::{Bay, Failed};

/// Their bytes.
const FIRST_BYTES: usize = 2 * BLOCK_BYTES as usize;

/// Where the first set begins.
fn first_place(label: &Label) -> RecordPlace
    ensures { result ≡ first_place (array_by label.now) }
{
    RecordPlace {
        set: FIRST_SET,
        index: 0,
        position: 0,
        array: label.array,
    }
}

/// Writes the records with which the first set begins.
fn write_first(label: &Label, out: &mut [u8])
    requires { length out.old ≡ FIRST_BYTES }
    ensures { out.new ≡ opening_bytes (array_by label.now) }
{
    let head = first_place(label);
    let ready = head.next();
    let end = write_record(&head.marker(Kind::Head), &[], out);
    write_record(&ready.marker(Kind::Ready), &[], &mut out[end..]);
}

/// Whether the zone, which holds so many bytes, has a first part of these records and nothing else, and not all of them.
pub(crate) fn begins_set<B: Bay>(bay: &mut B, label: &Label, written: u32) -> Result<bool, Failed>
    requires drive { DRIVE < (B.state bay.old).shape.devices }
    requires zone { ZONE < (B.state bay.old).shape.zones }
    requires written { IfSome (B.state bay.old).contents (λ held. length (held DRIVE ZONE) ≡ written) }
    ensures begins { IfSome (B.state bay.old).contents
        (λ held. IfOk result (λ begins. IsTrue begins ↔ BeginsSet (array_by label.now) (held DRIVE ZONE))) }
    ensures less { IfOk result (λ begins. IsTrue begins → written < FIRST_BYTES) }
    ensures reads { ReadsOn DRIVE (B.state bay.old) (B.state bay.new) result }
{
    let mut first = [0; FIRST_BYTES];
    write_first(label, &mut first);
    let written = written as usize;
    if written >= FIRST_BYTES {
        return Ok(false);
    }
    let mut found = [0; FIRST_BYTES];
    bay.read(DRIVE, ZONE, 0, &mut found[..written])?;
    Ok(found[..written] == first[..written])
}

/// Puts what the zone, which holds so many bytes of these records, lacks of them behind it, and makes it firm.
pub(crate) fn begin_set<B: Bay>(bay: &mut B, label: &Label, written: u32) -> Result<(), Failed>
    requires drive { DRIVE < (B.state bay.old).shape.devices }
    requires zone { ZONE < (B.state bay.old).shape.zones }
    requires room { 2 ≤ (B.state bay.old).shape.blocks }
    requires less { written < FIRST_BYTES }
    requires written { IfSome (B.state bay.old).contents (λ held. length (held DRIVE ZONE) ≡ written) }
    ensures { Appends (drop written (opening_bytes (array_by label.now))) (B.state bay.old) (B.state bay.new) result }
{
    let mut first = [0; FIRST_BYTES];
    write_first(label, &mut first);
    append_firm(bay, &first[written as usize..])
}

/// These records, as a zone is read that holds them alone.
pub(crate) fn first_records(alloc: Global, label: &Label) -> ZoneRecords
    requires { 2 ≤ label.now.geometry.blocks }
    ensures read { HasRead result (first_markers (array_by label.now)) }
    ensures limits { (result.blocks ≡ label.now.geometry.blocks) × (result.shard ≡ label.now.geometry.shard) }
    ensures whole { result.zone.is_torn ≡ false }
{
    let zone = OpenZone {
        set: FIRST_SET,
        index: 0,
        blocks: 2,
        records: 2,
        is_torn: false,
    };
    ZoneRecords {
        zone,
        next_stamp: 1,
        said: Said::new(alloc),
        is_ready: true,
        blocks: label.geometry.blocks,
        shard: label.geometry.shard,
    }
}
