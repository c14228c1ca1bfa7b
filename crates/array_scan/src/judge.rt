//! Which sets stand, and which of their records are valid.
ghost use Rattle.std.specs.Prelude.{◌≡◌, ◌≤◌, ℕ, List, length, map, take, None, IfOk};
ghost use Rattle.std.specs.List.{list_any};
ghost use Rattle.array_model.specs.Record.{Record, is_ready, kept_of};
ghost use Rattle.array_model.specs.Sets.{stands, lesser, least_kept, cut_to};
ghost use Rattle.array_scan.specs.declared.set_read.RecordAt.{RecordAt};
ghost use Rattle.array_scan.specs.Judged.{Payloads, record_with, set_with, noted, IsJudged};

use crate::set_read::{RecordAt, SetRead};
use marker_format::Kind;
use smore_base::Memory;
use std::alloc::Global;
use std::collections::BTreeMap;

/// A set, judged beside those with higher numbers.
#[derive(Debug, Drop)]
pub struct SetScan {
    pub read: SetRead,
    /// Whether it stands: else nothing of it counts.
    pub stands: bool,
    /// How many of its first records are valid.
    pub valid: usize,
}

fn is_ready(at: &RecordAt) -> bool
    ensures { (payload : RecordAt → List ℕ) → result ≡ is_ready (record_with payload at.now) }
{
    matches!(Kind::from_number(at.marker.kind), Some(Kind::Ready))
}

fn has_ready(records: &[RecordAt]) -> bool
    ensures { (payload : RecordAt → List ℕ)
        → result ≡ list_any is_ready (map (record_with payload) records.now) }
{
    for record in records {
        if is_ready(record) {
            return true;
        }
    }
    false
}

/// Whether k indexes of the set have a carrier, and it has a ready record.
pub(crate) fn stands(k: u8, set: &SetRead) -> bool
    ensures { (payload : Payloads) → result ≡ stands k (set_with payload set.now) }
{
    set.carriers.len() >= k as usize && has_ready(&set.records)
}

/// How many of the set's records no cut takes off.
fn valid_len(kept: &BTreeMap<u64, u32>, set: &SetRead) -> usize
    ensures within { result ≤ length set.now.records.items }
    ensures cut { (items : List Record) → length items ≡ length set.now.records.items
        → take result items ≡ cut_to (noted kept.now set.now.id) items }
{
    let len = set.records.len();
    match kept.get(&set.id) {
        Some(count) => len.min(*count as usize),
        None => len,
    }
}

/// Notes what the record keeps of its target, where it is a cut.
fn note_cut(kept: &mut BTreeMap<u64, u32>, at: &RecordAt) -> Result<(), Memory>
    ensures { IfOk result (λ _. (payload : RecordAt → List ℕ) (target : ℕ)
        → noted kept.new target
        ≡ lesser (kept_of target (record_with payload at.now)) (noted kept.old target)) }
{
    let marker = &at.marker;
    if let Some(Kind::Cut) = Kind::from_number(marker.kind) {
        let least = match kept.get(&marker.upload) {
            Some(other) => marker.length.min(*other),
            None => marker.length,
        };
        kept.insert(marker.upload, least)?;
    }
    Ok(())
}

/// Notes the same of each of the records.
fn note_cuts(kept: &mut BTreeMap<u64, u32>, records: &[RecordAt]) -> Result<(), Memory>
    ensures { IfOk result (λ _. (payload : RecordAt → List ℕ) (target : ℕ)
        → let items = map (record_with payload) records.now in
        noted kept.new target ≡ lesser (least_kept target items) (noted kept.old target)) }
{
    let count = records.len();
    for i in 0..count {
        note_cut(kept, &records[count - 1 - i])?;
    }
    Ok(())
}

/// Judges the sets, whose numbers rise, from the highest down.
pub(crate) fn judge(
    alloc: Global,
    k: u8,
    mut sets: Vec<SetRead>,
    kept: &mut BTreeMap<u64, u32>,
) -> Result<Vec<SetScan>, Memory>
    requires { (target : ℕ) → noted kept.old target ≡ None }
    ensures read { IfOk result (λ judged. map (λ s. s.read) judged.items ≡ sets.items) }
    ensures judged { IfOk result (λ judged. IsJudged k judged.items kept.new) }
{
    let mut judged = Vec::new(alloc);
    while let Some(read) = sets.pop() {
        let stands = stands(k, &read);
        let valid = if stands { valid_len(kept, &read) } else { 0 };
        note_cuts(kept, &read.records[..valid])?;
        judged.insert(
            0,
            SetScan {
                read,
                stands,
                valid,
            },
        )?;
    }
    Ok(judged)
}
