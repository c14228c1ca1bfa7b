ghost use Rattle.std.specs.Prelude.{◌≡◌, ◌+◌, ◌*◌, ◌<◌, ◌≤◌, true, false, length, take, drop, IfSome, IfOk, IfErr, OnOk, OnErr};
ghost use Rattle.zone_bay.specs.Contents.{IsOfBay};
ghost use Rattle.smore_base.specs.declared.limits.TheConstants.{MAX_SHARD_BYTES};
ghost use Rattle.set_table.specs.Points.{point_at};
ghost use Rattle.set_reader.specs.Attempts.{Answered, Attempts, Failed, ReadsInAttempts};
ghost use Rattle.set_reader.specs.Calls.{CallsAtMost, OnlyReadsBy, live_count, losses};
ghost use Rattle.set_reader.specs.Carriers.{HasEnough, Refuses};
ghost use Rattle.set_reader.specs.Record.{HasRecordAt, HasFragmentsAt, BeginsWithSources, Appends, Answers};
ghost use Rattle.set_reader.specs.Rows.{space_of};

use crate::carriers::enough_carriers;
use crate::decode::{are_sources, fill};
use crate::lengths::read_lengths;
use crate::refusal::ReadRefusal;
use marker_format::blocks_of;
use set_table::SetTable;
use smore_base::{BLOCK_BYTES, Place};
use zone_bay::Bay;

/// How many bytes reading takes: for the source fragments, where they aren't all had for as many others, and for the blocks of
/// one.
fn space_for(plain: bool, size: usize, f: usize) -> usize
    requires size { size ≤ 20 * MAX_SHARD_BYTES }
    requires short { f ≤ MAX_SHARD_BYTES }
    ensures { result ≡ space_of plain size f }
{
    let rows = if plain { size } else { 2 * size };
    rows + (BLOCK_BYTES * blocks_of(f as u32)) as usize
}

/// Puts the source fragments of the record behind the first bytes of `out`, and makes room for them. False where a carrier was
/// lost instead.
fn try_sources<B: Bay>(
    bay: &mut B,
    table: &mut SetTable,
    place: &Place,
    f: usize,
    from: usize,
    out: &mut Vec<u8>,
) -> Result<bool, ReadRefusal>
    requires shape { IsOfBay table.old.geometry (B.state bay.old).shape }
    requires block { place.now.block < table.old.geometry.blocks }
    requires short { f ≤ MAX_SHARD_BYTES }
    requires from { from ≤ length out.old.items }
    requires stands { IfSome (B.state bay.old).contents (HasFragmentsAt table.old place.now f) }
    ensures sources { IfSome (B.state bay.old).contents (λ held. IfOk result (λ done. done ≡ true
        → BeginsWithSources table.old table.new place.now f held (drop from out.new.items))) }
    ensures kept { take from out.new.items ≡ take from out.old.items }
    ensures from { from ≤ length out.new.items }
    ensures enough { IfOk result (λ done. done ≡ true → HasEnough table.new place.now.set) }
    ensures lost { IfOk result (λ done. done ≡ false → live_count table.new < live_count table.old) }
    ensures refused { IfErr result (Refuses table.new place.now.set) }
    ensures reads { OnlyReadsBy table.old table.new (B.state bay.old) (B.state bay.new) }
    ensures few { CallsAtMost table.old.geometry.k (B.state bay.old) (B.state bay.new) }
    ensures answered { IfOk result (λ done. done ≡ true → Answered table.old.geometry.k
        (point_at table.old (B.state bay.old)) (point_at table.new (B.state bay.new))) }
    ensures failed { IfOk result (λ done. done ≡ false → Failed table.old.geometry.k (B.state bay.new).failed
        (point_at table.old (B.state bay.old)) (point_at table.new (B.state bay.new))) }
    ensures given_up { IfErr result (λ _. Answered table.old.geometry.k
        (point_at table.old (B.state bay.old)) (point_at table.new (B.state bay.new))) }
{
    let members = enough_carriers(table, place.set)?;
    let geometry = *table.geometry();
    let first = &members[..geometry.k as usize];
    let plain = are_sources(first);
    let space = space_for(plain, first.len() * f, f);
    let Some(end) = from.checked_add(space) else {
        return Err(ReadRefusal::Memory);
    };
    out.resize(end, 0)?;
    match fill(
        bay,
        &geometry,
        first,
        place.block,
        f,
        plain,
        &mut out[from..],
    ) {
        Ok(()) => Ok(true),
        Err(device) => {
            table.lose(device);
            Ok(false)
        }
    }
}

/// The same, from carriers that aren't lost.
fn read_sources<B: Bay>(
    bay: &mut B,
    table: &mut SetTable,
    place: &Place,
    f: usize,
    from: usize,
    out: &mut Vec<u8>,
) -> Result<(), ReadRefusal>
    requires shape { IsOfBay table.old.geometry (B.state bay.old).shape }
    requires block { place.now.block < table.old.geometry.blocks }
    requires short { f ≤ MAX_SHARD_BYTES }
    requires from { from ≤ length out.old.items }
    requires stands { IfSome (B.state bay.old).contents (HasFragmentsAt table.old place.now f) }
    ensures sources { IfSome (B.state bay.old).contents (λ held. OnOk result
        (BeginsWithSources table.old table.new place.now f held (drop from out.new.items))) }
    ensures kept { take from out.new.items ≡ take from out.old.items }
    ensures from { from ≤ length out.new.items }
    ensures enough { OnOk result (HasEnough table.new place.now.set) }
    ensures refused { IfErr result (Refuses table.new place.now.set) }
    ensures reads { OnlyReadsBy table.old table.new (B.state bay.old) (B.state bay.new) }
    ensures few { CallsAtMost (table.old.geometry.k * (1 + losses table.old table.new)) (B.state bay.old) (B.state bay.new) }
    ensures attempts { Attempts table.old.geometry.k (B.state bay.new).failed
        (point_at table.old (B.state bay.old)) (point_at table.new (B.state bay.new)) }
{
    loop {
        if try_sources(bay, table, place, f, from, out)? {
            return Ok(());
        }
    }
}

/// Puts the payload of the record that stands at the place behind what is there.
fn append_payload<B: Bay>(
    bay: &mut B,
    table: &mut SetTable,
    place: &Place,
    out: &mut Vec<u8>,
) -> Result<(), ReadRefusal>
    requires shape { IsOfBay table.old.geometry (B.state bay.old).shape }
    requires block { place.now.block < table.old.geometry.blocks }
    requires stands { IfSome (B.state bay.old).contents (HasRecordAt table.old place.now) }
    ensures payload { IfSome (B.state bay.old).contents (λ held. OnOk result
        (Appends table.old table.new place.now held out.old.items out.new.items)) }
    ensures kept { take (length out.old.items) out.new.items ≡ out.old.items }
    ensures answer { Answers table.new place.now.set result }
    ensures reads { OnlyReadsBy table.old table.new (B.state bay.old) (B.state bay.new) }
    ensures few { CallsAtMost (1 + table.old.geometry.k * (1 + losses table.old table.new))
        (B.state bay.old) (B.state bay.new) }
    ensures attempts { ReadsInAttempts table.old table.new place.now (B.state bay.old) (B.state bay.new) }
{
    let from = out.len();
    let lengths = read_lengths(bay, table, place)?;
    if lengths.payload == 0 {
        return Ok(());
    }
    read_sources(bay, table, place, lengths.fragment as usize, from, out)?;
    out.truncate(from.saturating_add(lengths.payload as usize));
    Ok(())
}

/// Appends the payload of the record that stands at the place.
pub fn read_record<B: Bay>(
    bay: &mut B,
    table: &mut SetTable,
    place: &Place,
    out: &mut Vec<u8>,
) -> Result<(), ReadRefusal>
    requires shape { IsOfBay table.old.geometry (B.state bay.old).shape }
    requires block { place.now.block < table.old.geometry.blocks }
    requires stands { IfSome (B.state bay.old).contents (HasRecordAt table.old place.now) }
    ensures payload { IfSome (B.state bay.old).contents (λ held. OnOk result
        (Appends table.old table.new place.now held out.old.items out.new.items)) }
    ensures kept { OnErr result (out.new.items ≡ out.old.items) }
    ensures answer { Answers table.new place.now.set result }
    ensures reads { OnlyReadsBy table.old table.new (B.state bay.old) (B.state bay.new) }
    ensures few { CallsAtMost (1 + table.old.geometry.k * (1 + losses table.old table.new))
        (B.state bay.old) (B.state bay.new) }
    ensures attempts { ReadsInAttempts table.old table.new place.now (B.state bay.old) (B.state bay.new) }
{
    let from = out.len();
    let answer = append_payload(bay, table, place, out);
    if answer.is_err() {
        out.truncate(from);
    }
    answer
}
