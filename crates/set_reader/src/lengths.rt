//! How many bytes a record has, from its marker.
ghost use Rattle.std.specs.Prelude.{◌≡◌, ◌+◌, ◌*◌, ◌<◌, ◌≤◌, length, IfSome, IfNone, IfOk, IfErr, OnOk};
ghost use Rattle.zone_bay.specs.Contents.{IsOfBay};
ghost use Rattle.smore_base.specs.declared.limits.TheConstants.{BLOCK_BYTES, MAX_BLOCKS, MAX_SHARD_BYTES};
ghost use Rattle.marker_format.specs.Zone.{block_at};
ghost use Rattle.marker_format.specs.Marker.{IsMarker};
ghost use Rattle.marker_format.specs.Block.{marker_in_block};
ghost use Rattle.set_table.specs.Points.{point_at};
ghost use Rattle.set_reader.specs.Attempts.{Answered, Attempts, Failed};
ghost use Rattle.set_reader.specs.Calls.{CallsAtMost, ReadsUntil, failed_by, OnlyReadsBy, live_count, losses};
ghost use Rattle.set_reader.specs.Carriers.{HasEnough, Refuses};
ghost use Rattle.set_reader.specs.Record.{HasRecordAt, TellsLengths};
ghost use Rattle.set_reader.specs.Rows.{IsInBay};

use crate::carriers::enough_carriers;
use crate::refusal::ReadRefusal;
use marker_format::{Marker, read_marker_block};
use set_table::{Member, SetTable};
use smore_base::{BLOCK_BYTES, Place};
use zone_bay::Bay;

/// How many bytes each fragment of a record has, and its payload.
#[derive(Clone, Copy, Debug)]
pub(crate) struct Lengths {
    pub(crate) fragment: u16,
    pub(crate) payload: u32,
}

/// The marker that the zone has at the block, in one read. Where it fails, the device is told.
fn read_marker_at<B: Bay>(bay: &mut B, member: Member, block: u32) -> Result<Option<Marker>, u8>
    requires zone { IsInBay (B.state bay.old).shape member }
    requires few { block < MAX_BLOCKS }
    requires written { IfSome (B.state bay.old).contents
        (λ held. BLOCK_BYTES * (block + 1) ≤ length (held member.device member.zone)) }
    ensures marker { IfSome (B.state bay.old).contents (λ held. IfOk result
        (λ marker. marker ≡ marker_in_block (block_at (held member.device member.zone) block))) }
    ensures formed { IfOk result (λ marker. IfSome marker IsMarker) }
    ensures device { IfErr result (λ device. device ≡ member.device) }
    ensures reads { ReadsUntil 1 (failed_by result) (B.state bay.old) (B.state bay.new) }
{
    let mut bytes = [0; BLOCK_BYTES as usize];
    match bay.read(member.device, member.zone, BLOCK_BYTES * block, &mut bytes) {
        Ok(()) => Ok(read_marker_block(&bytes)),
        Err(_) => Err(member.device),
    }
}

/// The record's lengths, as its carrier of lowest index tells them. None where that carrier was lost instead.
///
/// A block that is no marker can only come from a bay that doesn't tell what it holds. Nothing of it is trusted.
fn try_lengths<B: Bay>(
    bay: &mut B,
    table: &mut SetTable,
    place: &Place,
) -> Result<Option<Lengths>, ReadRefusal>
    requires shape { IsOfBay table.old.geometry (B.state bay.old).shape }
    requires block { place.now.block < table.old.geometry.blocks }
    requires stands { IfSome (B.state bay.old).contents (HasRecordAt table.old place.now) }
    ensures lengths { IfSome (B.state bay.old).contents (λ held. IfOk result
        (λ told. IfSome told (TellsLengths table.old place.now held))) }
    ensures short { IfOk result (λ told. IfSome told (λ lengths. lengths.fragment ≤ MAX_SHARD_BYTES)) }
    ensures enough { IfOk result (λ told. IfSome told (λ _. HasEnough table.new place.now.set)) }
    ensures lost { IfOk result (λ told. IfNone told (live_count table.new < live_count table.old)) }
    ensures refused { IfErr result (Refuses table.new place.now.set) }
    ensures reads { OnlyReadsBy table.old table.new (B.state bay.old) (B.state bay.new) }
    ensures once { CallsAtMost 1 (B.state bay.old) (B.state bay.new) }
    ensures answered { IfOk result (λ told. IfSome told (λ _. Answered 1
        (point_at table.old (B.state bay.old)) (point_at table.new (B.state bay.new)))) }
    ensures failed { IfOk result (λ told. IfNone told (Failed 1 (B.state bay.new).failed
        (point_at table.old (B.state bay.old)) (point_at table.new (B.state bay.new)))) }
    ensures given_up { IfErr result (λ _. Answered 1
        (point_at table.old (B.state bay.old)) (point_at table.new (B.state bay.new))) }
    ensures some { 1 ≤ table.old.geometry.k }
{
    let members = enough_carriers(table, place.set)?;
    let first = members[0];
    match read_marker_at(bay, first, place.block) {
        Ok(Some(marker)) => Ok(Some(Lengths {
            fragment: marker.fragment,
            payload: marker.payload,
        })),
        Ok(None) => Err(ReadRefusal::Memory),
        Err(device) => {
            table.lose(device);
            Ok(None)
        }
    }
}

/// The record's lengths, from its marker.
pub(crate) fn read_lengths<B: Bay>(
    bay: &mut B,
    table: &mut SetTable,
    place: &Place,
) -> Result<Lengths, ReadRefusal>
    requires shape { IsOfBay table.old.geometry (B.state bay.old).shape }
    requires block { place.now.block < table.old.geometry.blocks }
    requires stands { IfSome (B.state bay.old).contents (HasRecordAt table.old place.now) }
    ensures lengths { IfSome (B.state bay.old).contents (λ held. IfOk result (TellsLengths table.old place.now held)) }
    ensures short { IfOk result (λ lengths. lengths.fragment ≤ MAX_SHARD_BYTES) }
    ensures enough { OnOk result (HasEnough table.new place.now.set) }
    ensures refused { IfErr result (Refuses table.new place.now.set) }
    ensures reads { OnlyReadsBy table.old table.new (B.state bay.old) (B.state bay.new) }
    ensures few { CallsAtMost (1 + losses table.old table.new) (B.state bay.old) (B.state bay.new) }
    ensures attempts { Attempts 1 (B.state bay.new).failed
        (point_at table.old (B.state bay.old)) (point_at table.new (B.state bay.new)) }
    ensures some { 1 ≤ table.old.geometry.k }
{
    loop {
        if let Some(lengths) = try_lengths(bay, table, place)? {
            return Ok(lengths);
        }
    }
}
