ghost use Rattle.std.specs.Prelude.{◌≡◌, ◌⊎◌, ◌<◌, ◌≤◌, ◌+◌, ◌*◌, ◌↔◌, length, IfSome, IfOk, IsErr, IsTrue, MatchOption, false};
ghost use Rattle.store_core.specs.declared.opening.Fault.TheVariants as faults;
ghost use Rattle.marker_format.specs.Fragment.{blocks_of};
ghost use Rattle.store_core.specs.DeviceCalls.{ReadsAny};
ghost use Rattle.zone_bay.specs.OneDevice.{ReadsOn};
ghost use Rattle.store_core.specs.Opening.{array_by, IsBlankFrom, IsAlone, BeginsSet, HoldsSet, CanNotOpen};
ghost use Rattle.store_core.specs.Found.{IsLost, IsOne, Fits, FitsZone, FitsFound, IsLabelled, IsRead, IsFound, IsOpening};
ghost use Rattle.store_core.specs.Core.{Opens, array_in, bay_of, is_lost_in, standing_of, store_over, map_in};
ghost use Rattle.store_core.specs.Zone.{standing_in};

use crate::first_set::{begin_set, begins_set, first_records};
use crate::said::Said;
use crate::store::{Core, DRIVE, FIRST_SET_ZONE, ZONE};
use crate::zone_records::ZoneRecords;
use label_reader::read_bay_label;
use marker_format::Label;
use smore_base::{BLOCK_BYTES, CONTENT_BYTES, MAX_SHARD_BYTES, Memory};
use std::alloc::{AllocError, Global};
use zone_bay::{Bay, Failed};
use zone_parse::{Lost, ZoneReader};

/// Why a bay isn't opened.
#[derive(Clone, Copy, Debug, PartialEq, Eq)]
pub enum OpenRefusal {
    /// No memory was found.
    Memory,
    /// The bay can't be opened, or a call on a drive failed.
    NoLabel,
}

/// Why an opening stopped.
#[derive(Clone, Copy, Debug, PartialEq, Eq)]
pub(crate) enum Fault {
    Memory,
    /// A call on a drive failed.
    Lost,
}

impl From<Failed> for Fault {
    ghost from_gives = { λ _ fault. fault ≡ faults.Lost };

    fn from(_: Failed) -> Self {
        Fault::Lost
    }
}

impl From<Lost> for Fault {
    ghost from_gives = { λ _ fault. fault ≡ faults.Lost };

    fn from(_: Lost) -> Self {
        Fault::Lost
    }
}

impl From<Memory> for Fault {
    ghost from_gives = { λ _ fault. fault ≡ faults.Memory };

    fn from(_: Memory) -> Self {
        Fault::Memory
    }
}

impl From<AllocError> for Fault {
    ghost from_gives = { λ _ fault. fault ≡ faults.Memory };

    fn from(_: AllocError) -> Self {
        Fault::Memory
    }
}

/// What the zone was found to hold.
#[derive(Drop)]
pub(crate) enum Found {
    /// A first part of the records that a set begins with, of so many bytes.
    Begins { written: u32 },
    /// A set's records.
    Holds { records: ZoneRecords },
}

/// What was found of a bay that can be opened.
#[derive(Drop)]
pub(crate) struct Opening {
    pub(crate) label: Label,
    pub(crate) found: Found,
    /// Room for the records of a step.
    pub(crate) buffer: Vec<u8>,
}

/// Whether no zone of the drive is written from this one on.
fn is_blank_from<B: Bay>(bay: &mut B, drive: u8, first: u16) -> Result<bool, Failed>
    requires { drive < (B.state bay.old).shape.devices }
    ensures blank { IfSome (B.state bay.old).contents
        (λ held. IfOk result (λ blank. IsTrue blank ↔ IsBlankFrom first (B.state bay.old).shape.zones (held drive))) }
    ensures reads { ReadsOn drive (B.state bay.old) (B.state bay.new) result }
{
    for zone in first..bay.zones() {
        if bay.written(drive, zone)? != 0 {
            return Ok(false);
        }
    }
    Ok(true)
}

/// Whether no set zone of a drive is written but the store's. The last device is the flash, and no drive.
fn is_alone<B: Bay>(bay: &mut B) -> Result<bool, Failed>
    requires { 1 < (B.state bay.old).shape.devices }
    ensures alone { IfSome (B.state bay.old).contents
        (λ held. IfOk result (λ alone. IsTrue alone ↔ IsAlone (B.state bay.old).shape held)) }
    ensures reads { ReadsAny (IsErr result) (B.state bay.old) (B.state bay.new) }
{
    if !is_blank_from(bay, DRIVE, ZONE + 1)? {
        return Ok(false);
    }
    for drive in DRIVE + 1..bay.devices() - 1 {
        if !is_blank_from(bay, drive, FIRST_SET_ZONE)? {
            return Ok(false);
        }
    }
    Ok(true)
}

/// The records of the zone, which holds so many bytes, where it holds a set's.
fn read_records<B: Bay>(
    alloc: Global,
    bay: &mut B,
    label: &Label,
    written: u32,
) -> Result<Option<ZoneRecords>, Fault>
    requires label { IsOne (B.state bay.old).shape label.now }
    requires written { IfSome (B.state bay.old).contents (λ held. length (held DRIVE ZONE) ≡ written) }
    ensures found { IfSome (B.state bay.old).contents
        (λ held. IfOk result (λ found. MatchOption found
        (HoldsSet (array_by label.now) (held DRIVE ZONE) → ⊥)
        (IsRead (array_by label.now) (held DRIVE ZONE)))) }
    ensures fits { IfOk result (λ found. IfSome found (FitsZone label.now)) }
    ensures reads { ReadsAny (IsLost result) (B.state bay.old) (B.state bay.new) }
{
    let mut reader = ZoneReader::new(DRIVE, ZONE, written, label.geometry, label.array);
    let mut records = ZoneRecords::new(alloc, label.geometry.blocks, label.geometry.shard);
    while let Some(marker) = reader.next(bay)? {
        if !records.add(alloc, &marker)? {
            return Ok(None);
        }
    }
    if records.is_ready {
        Ok(Some(records.within(written)))
    } else {
        Ok(None)
    }
}

/// What the zone holds, where a set can be begun or stands there.
fn find_zone<B: Bay>(alloc: Global, bay: &mut B, label: &Label) -> Result<Option<Found>, Fault>
    requires { IsOne (B.state bay.old).shape label.now }
    ensures found { IfSome (B.state bay.old).contents
        (λ held. IfOk result (λ found. MatchOption found
        ((BeginsSet (array_by label.now) (held DRIVE ZONE) ⊎ HoldsSet (array_by label.now) (held DRIVE ZONE)) → ⊥)
        (IsFound (array_by label.now) (held DRIVE ZONE)))) }
    ensures fits { IfOk result (λ found. IfSome found (FitsFound label.now)) }
    ensures reads { ReadsAny (IsLost result) (B.state bay.old) (B.state bay.new) }
{
    let written = bay.written(DRIVE, ZONE)?;
    if begins_set(bay, label, written)? {
        return Ok(Some(Found::Begins { written }));
    }
    match read_records(alloc, bay, label, written)? {
        None => Ok(None),
        Some(records) => Ok(Some(Found::Holds { records })),
    }
}

/// How many bytes the records of a step take at most: a part of a shard, and a note.
fn step_bytes(shard: u32) -> usize
    requires { shard ≤ MAX_SHARD_BYTES }
    ensures { result ≡ BLOCK_BYTES * (blocks_of shard + 2) }
{
    let blocks = shard.div_ceil(CONTENT_BYTES) + 2;
    (blocks * BLOCK_BYTES) as usize
}

/// The label of drive 0, where it is one of this bay, of k 1 and p 1, and no other set zone is written.
fn find_label<B: Bay>(bay: &mut B) -> Result<Option<Label>, Failed>
    ensures label { IfSome (B.state bay.old).contents
        (λ held. IfOk result (λ found. MatchOption found
        (CanNotOpen (B.state bay.old).shape held)
        (λ l. IsLabelled (B.state bay.old).shape held (array_by l)))) }
    ensures one { IfOk result (λ found. IfSome found (IsOne (B.state bay.old).shape)) }
    ensures reads { ReadsAny (IsErr result) (B.state bay.old) (B.state bay.new) }
{
    let Some(label) = read_bay_label(bay, DRIVE)? else {
        return Ok(None);
    };
    if label.geometry.k != 1 || label.geometry.p != 1 || !is_alone(bay)? {
        return Ok(None);
    }
    Ok(Some(label))
}

/// What there is to open, where the bay can be opened. It is only read.
pub(crate) fn find_opening<B: Bay>(alloc: Global, bay: &mut B) -> Result<Option<Opening>, Fault>
    ensures found { IfSome (B.state bay.old).contents
        (λ held. IfOk result (λ found. MatchOption found
        (CanNotOpen (B.state bay.old).shape held)
        (IsOpening (B.state bay.old).shape held))) }
    ensures fits { IfOk result (λ found. IfSome found (Fits (B.state bay.old).shape)) }
    ensures reads { ReadsAny (IsLost result) (B.state bay.old) (B.state bay.new) }
{
    let Some(label) = find_label(bay)? else {
        return Ok(None);
    };
    let Some(found) = find_zone(alloc, bay, &label)? else {
        return Ok(None);
    };
    let buffer = vec![in alloc; 0; step_bytes(label.geometry.shard)]?;
    Ok(Some(Opening {
        label,
        found,
        buffer,
    }))
}

/// The store over a zone whose records were read.
fn serve<B: Bay>(
    alloc: Global,
    bay: B,
    label: &Label,
    records: ZoneRecords,
    buffer: Vec<u8>,
) -> Core<B>
    requires one { IsOne (B.state bay).shape label.now }
    requires zone { FitsZone label.now records }
    requires room { length buffer.items ≡ BLOCK_BYTES * (blocks_of label.now.geometry.shard + 2) }
    requires labelled { IfSome (B.state bay).contents (λ held. IsLabelled (B.state bay).shape held (array_by label.now)) }
    requires read { IfSome (B.state bay).contents (λ held. IsRead (array_by label.now) (held DRIVE ZONE) records) }
    ensures bay { bay_of result ≡ bay }
    ensures array { array_in result ≡ array_by label.now }
    ensures works { is_lost_in result ≡ false }
    ensures at { IfSome (B.state (bay_of result)).contents (λ held. standing_of result ≡ standing_in (array_in result) (held DRIVE ZONE)) }
    ensures map { IfSome (B.state (bay_of result)).contents
        (λ held. (store_over result (B.state (bay_of result)) held).state.objects ≡ map_in (array_in result) (B.state (bay_of result)).shape held) }
{
    let ZoneRecords {
        zone,
        next_stamp,
        said,
        is_ready: _,
        blocks: _,
        shard: _,
    } = records;
    let Said { index, stamps: _ } = said;
    let geometry = label.geometry;
    let array = label.array;
    Core {
        alloc,
        bay,
        geometry,
        array,
        zone,
        next_stamp,
        index,
        buffer,
        is_lost: false,
    }
}

/// The store over what was found. Where a set is to be begun, its first records are put into the zone.
pub(crate) fn begin<B: Bay>(
    alloc: Global,
    mut bay: B,
    opening: Opening,
) -> Result<Core<B>, (OpenRefusal, B)>
    requires fits { Fits (B.state bay).shape opening }
    requires told { IfSome (B.state bay).contents (λ held. IsOpening (B.state bay).shape held opening) }
    ensures { Opens B.state bay result }
{
    let Opening {
        label,
        found,
        buffer,
    } = opening;
    match found {
        Found::Holds { records } => Ok(serve(alloc, bay, &label, records, buffer)),
        Found::Begins { written } => {
            if begin_set(&mut bay, &label, written).is_err() {
                return Err((OpenRefusal::NoLabel, bay));
            }
            let records = first_records(alloc, &label);
            Ok(serve(alloc, bay, &label, records, buffer))
        }
    }
}
