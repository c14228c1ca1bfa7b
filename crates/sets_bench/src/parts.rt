//! Parts that are appended to a set.
ghost use Rattle.std.specs.Prelude.{◌≡◌, ◌≤◌, true, IfSome};
ghost use Rattle.marker_format.proofs.MarkerRules.{Widths};
ghost use Rattle.set_table.specs.Table.{array_of};
ghost use Rattle.set_writer.specs.Writer.{array_by, IsAppended};
ghost use Rattle.sets_bench.specs.Ready.{IsReady, HoldNothing, IsOurs, part_marker};

use crate::array::{ARRAY, DEVICES, GEOMETRY, PART, ZONES};
use marker_format::Marker;
use rs_code::{Code, Coded};
use set_table::SetTable;
use set_writer::{SetWriter, open_set};
use smore_base::Memory;
use std::alloc::Global;
use zone_bay::Bay;

/// The marker of a part.
fn marker_of(array: [u8; 16], set: u64, position: u16, payload: u32) -> Marker
    requires { payload ≤ 261632 }
    ensures is { result ≡ part_marker array set position payload }
    ensures widths { Widths result }
{
    Marker {
        kind: 2,
        index: 0,
        k: 4,
        n: 6,
        set,
        position,
        fragment: payload.div_ceil(4) as u16,
        stamp: 0,
        upload: 1,
        part: 0,
        parts: 0,
        length: 0,
        payload,
        array,
        name: None,
    }
}

/// The marker of the part that is the set's next record.
fn next_part(table: &SetTable, writer: &SetWriter, body: &Coded) -> Option<Marker>
    requires array { array_by writer.now ≡ array_of table.now }
    requires code { IsOurs body.now }
    ensures { IfSome result (λ m. IsAppended writer.now m body.now) }
{
    if *table.geometry() != GEOMETRY || body.payload_len() > PART {
        return None;
    }
    let part = marker_of(
        table.array(),
        writer.set(),
        writer.records(),
        body.payload_len() as u32,
    );
    if part.is_well_formed() {
        return Some(part);
    }
    None
}

/// Appends it. False where it can't.
fn append_part<B: Bay>(
    bay: &mut B,
    table: &mut SetTable,
    writer: &mut SetWriter,
    body: &Coded,
) -> bool
    requires ready { IsReady writer.old table.old (B.state bay.old) }
    requires code { IsOurs body.now }
    ensures { result ≡ true → IsReady writer.new table.new (B.state bay.new) }
{
    if writer.reserve(1).is_err() {
        return false;
    }
    let Some(part) = next_part(table, writer, body) else {
        return false;
    };
    writer.append_record(bay, table, &part, body).is_ok()
}

/// Appends it that many times, and answers how often that could be done.
fn append_rounds<B: Bay>(
    bay: &mut B,
    table: &mut SetTable,
    writer: &mut SetWriter,
    body: &Coded,
    rounds: u32,
) -> u32
    requires ready { IsReady writer.old table.old (B.state bay.old) }
    requires code { IsOurs body.now }
{
    for round in 0..rounds {
        if !append_part(bay, table, writer, body) {
            return round;
        }
    }
    rounds
}

/// A payload of as many bytes as a record holds.
fn payload(alloc: Global) -> Result<Vec<u8>, Memory> {
    Ok(vec![in alloc; 0x5a; PART]?)
}

/// Opens a set, appends a part that many times, and answers how often that could be done.
pub(crate) fn append_parts<B: Bay>(alloc: Global, bay: &mut B, rounds: u32) -> Result<u32, Memory>
    requires { IfSome (B.state bay.old).contents HoldNothing }
{
    if bay.devices() != DEVICES || bay.zones() != ZONES || bay.blocks() != GEOMETRY.blocks {
        return Ok(0);
    }
    if GEOMETRY.check().is_err() {
        return Ok(0);
    }
    let body = Coded::of(alloc, &Code::new(4, 2), &payload(alloc)?)?;
    let mut table = SetTable::new(alloc, GEOMETRY, ARRAY)?;
    let Ok(mut writer) = open_set(alloc, bay, &mut table, 1, 6, &[]) else {
        return Err(Memory);
    };
    writer.reserve(rounds as usize)?;
    Ok(append_rounds(bay, &mut table, &mut writer, &body, rounds))
}
