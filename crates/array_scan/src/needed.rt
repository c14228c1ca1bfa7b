//! Which of the valid records are needed.
ghost use Rattle.std.specs.Prelude.{◌≡◌, ◌+◌, ◌<◌, ℕ, List, [], length, map, take, drop, true, slice_index_or, if◌then◌else◌, IfSome, IfOk, Bool};
ghost use Rattle.std.specs.List.{AllByRecursion, list_any};
ghost use Rattle.std.specs.Str.{bytes_eq};
ghost use Rattle.array_model.specs.Sets.{Placed};
ghost use Rattle.array_model.specs.NeedTests.{is_same, is_needed, needed_among, needed_of};
ghost use Rattle.array_scan.specs.declared.set_read.RecordAt.{RecordAt};
ghost use Rattle.array_scan.specs.declared.records.ValidRecord.{ValidRecord};
ghost use Rattle.array_scan.specs.Calls.{OnlyRead, lost_by};
ghost use Rattle.array_scan.specs.SetRead.{FitsBay};
ghost use Rattle.array_scan.specs.Judged.{record_with, sets_with};
ghost use Rattle.array_scan.specs.Valid.{item_with, items_with, placed_with};
ghost use Rattle.array_scan.specs.Objects.{IsReadable};
ghost use Rattle.array_scan.specs.Needed.{may_be_wanted, payloads_match, HasAlike};
ghost use Rattle.array_scan.specs.Scan.{payload_held};

use crate::cuts::is_last_cut;
use crate::judge::SetScan;
use crate::need::{is_alike, is_wanted};
use crate::payload::read_payload;
use crate::records::{ValidRecord, valid_records};
use crate::refusal::ScanRefusal;
use crate::set_read::RecordAt;
use crate::sets::Sets;
use marker_format::Kind;
use rs_code::Code;
use std::alloc::Global;
use zone_bay::Bay;

/// Whether copies of the record have equal payloads.
fn has_payload(at: &RecordAt) -> bool
    ensures { (own : RecordAt → List ℕ) (one other : List ℕ)
        → payloads_match (record_with own at.now) one other ≡ (if result then bytes_eq one other else true) }
{
    matches!(
        Kind::from_number(at.marker.kind),
        Some(Kind::Part | Kind::Snapshot)
    )
}

/// Whether the records are copies of each other. It is asked of records that may be wanted.
fn is_copy<B: Bay>(
    alloc: Global,
    bay: &mut B,
    code: &Code,
    copy: &ValidRecord,
    of: &ValidRecord,
) -> Result<bool, ScanRefusal>
    requires copy { let code = code.now in IsReadable (B.state bay.old).shape code.k (code.k + code.p) copy.now }
    requires of { let code = code.now in IsReadable (B.state bay.old).shape code.k (code.k + code.p) of.now }
    ensures copy { IfSome (B.state bay.old).contents (λ held. IfOk result (λ same.
        let payload = payload_held code.now.k held in may_be_wanted (item_with payload of.now) ≡ true
        → same ≡ is_same (item_with payload copy.now) (item_with payload of.now))) }
    ensures reads { OnlyRead (B.state bay.old) (B.state bay.new) (lost_by result) }
{
    if !is_alike(copy.at, of.at) {
        return Ok(false);
    }
    if !has_payload(of.at) {
        return Ok(true);
    }
    let one = read_payload(alloc, bay, code, copy.set, copy.at)?;
    let other = read_payload(alloc, bay, code, of.set, of.at)?;
    Ok(one.as_slice() == other.as_slice())
}

/// Whether the record has a copy among those before it. It is asked of a record that may be wanted.
fn has_copy<B: Bay>(
    alloc: Global,
    bay: &mut B,
    code: &Code,
    before: &[ValidRecord],
    of: &ValidRecord,
) -> Result<bool, ScanRefusal>
    requires before { let code = code.now in
        AllByRecursion (IsReadable (B.state bay.old).shape code.k (code.k + code.p)) before.now }
    requires of { let code = code.now in IsReadable (B.state bay.old).shape code.k (code.k + code.p) of.now }
    ensures copy { IfSome (B.state bay.old).contents (λ held. IfOk result (λ found.
        let payload = payload_held code.now.k held in may_be_wanted (item_with payload of.now) ≡ true
        → found ≡ list_any (λ copy. is_same copy.item (item_with payload of.now)) (map (placed_with payload) before.now))) }
    ensures reads { OnlyRead (B.state bay.old) (B.state bay.new) (lost_by result) }
{
    for valid in before {
        if is_copy(alloc, bay, code, valid, of)? {
            return Ok(true);
        }
    }
    Ok(false)
}

/// Whether the record there is needed.
fn is_needed<B: Bay>(
    alloc: Global,
    bay: &mut B,
    code: &Code,
    sets: &[SetScan],
    records: &[ValidRecord],
    i: usize,
) -> Result<bool, ScanRefusal>
    requires there { i < length records.now }
    requires readable { let code = code.now in
        AllByRecursion (IsReadable (B.state bay.old).shape code.k (code.k + code.p)) records.now }
    ensures needed { IfSome (B.state bay.old).contents (λ held. IfOk result (λ needed. (v : ValidRecord) (before : List Placed)
        → v ≡ slice_index_or records.now i v
        → let payload = payload_held code.now.k held in HasAlike (map (placed_with payload) (take i records.now)) before
        → needed ≡ is_needed [] (sets_with payload sets.now) (items_with payload records.now)
        (record { before = before; after = map (placed_with payload) (drop (i + 1) records.now) })
        (item_with payload v))) }
    ensures reads { OnlyRead (B.state bay.old) (B.state bay.new) (lost_by result) }
{
    let it = &records[i];
    if is_last_cut(sets, &records[i + 1..], it.at) {
        return Ok(true);
    }
    if !is_wanted(records, it.at) {
        return Ok(false);
    }
    Ok(!has_copy(alloc, bay, code, &records[..i], it)?)
}

/// The needed ones of the valid records of sets.
fn needed_among<'a, B: Bay>(
    alloc: Global,
    bay: &mut B,
    code: &Code,
    sets: &[SetScan],
    records: &[ValidRecord<'a>],
) -> Result<Vec<ValidRecord<'a>>, ScanRefusal>
    requires readable { let code = code.now in
        AllByRecursion (IsReadable (B.state bay.old).shape code.k (code.k + code.p)) records.now }
    ensures needed { IfSome (B.state bay.old).contents (λ held. IfOk result (λ needed.
        let payload = payload_held code.now.k held in map (placed_with payload) needed.items
        ≡ needed_among [] (sets_with payload sets.now) (items_with payload records.now) []
        (map (placed_with payload) records.now))) }
    ensures reads { OnlyRead (B.state bay.old) (B.state bay.new) (lost_by result) }
{
    let mut needed = Vec::new(alloc);
    for i in 0..records.len() {
        if is_needed(alloc, bay, code, sets, records, i)? {
            needed.push(records[i])?;
        }
    }
    Ok(needed)
}

/// The needed ones of the valid records of the sets, with no uploads in progress, by rising set and position.
pub(crate) fn needed_of<'a, B: Bay>(
    alloc: Global,
    bay: &mut B,
    code: &Code,
    sets: &'a Sets,
) -> Result<Vec<ValidRecord<'a>>, ScanRefusal>
    requires k { sets.now.k ≡ code.now.k }
    requires fit { AllByRecursion (λ s. FitsBay (B.state bay.old).shape (code.now.k + code.now.p) s.read)
        sets.now.list.items }
    ensures needed { IfSome (B.state bay.old).contents (λ held. IfOk result (λ needed.
        let payload = payload_held code.now.k held in map (placed_with payload) needed.items
        ≡ needed_of code.now.k [] (sets_with payload sets.now.list.items))) }
    ensures reads { OnlyRead (B.state bay.old) (B.state bay.new) (lost_by result) }
{
    let records = valid_records(alloc, sets)?;
    needed_among(alloc, bay, code, &sets.list, &records)
}
