//! Which cuts count.
ghost use Rattle.std.specs.Prelude.{◌≡◌, ◌==◌, ◌&&◌, ℕ, List, map, not, nat_lt};
ghost use Rattle.std.specs.List.{list_any};
ghost use Rattle.array_model.specs.NeedTests.{has_carrier, cuts_at_most, is_last_cut};
ghost use Rattle.array_scan.specs.declared.set_read.RecordAt.{RecordAt};
ghost use Rattle.array_scan.specs.Judged.{Payloads, record_with, sets_with};
ghost use Rattle.array_scan.specs.Valid.{items_with, placed_with};

use crate::judge::SetScan;
use crate::records::ValidRecord;
use crate::set_read::RecordAt;
use marker_format::Kind;

/// Whether a set of this number has a carrier.
fn has_carrier(sets: &[SetScan], id: u64) -> bool
    ensures { (payload : Payloads) → result ≡ has_carrier (sets_with payload sets.now) id }
{
    for set in sets {
        if set.read.id == id && set.read.carriers.len() > 0 {
            return true;
        }
    }
    false
}

/// Whether the record is a cut that keeps as many of the target's records, or fewer.
fn cuts_at_most(at: &RecordAt, target: u64, kept: u32) -> bool
    ensures { (own : RecordAt → List ℕ)
        → result ≡ cuts_at_most target kept (record_with own at.now) }
{
    match Kind::from_number(at.marker.kind) {
        Some(Kind::Cut) => at.marker.upload == target && at.marker.length <= kept,
        _ => false,
    }
}

/// Whether one of the records is such a cut.
fn some_cuts_at_most(records: &[ValidRecord], target: u64, kept: u32) -> bool
    ensures { (payload : Payloads) → result
        ≡ list_any (λ later. cuts_at_most target kept later.item) (map (placed_with payload) records.now) }
{
    for valid in records {
        if cuts_at_most(valid.at, target, kept) {
            return true;
        }
    }
    false
}

/// Whether the record is a cut that counts, before these records.
pub(crate) fn is_last_cut(sets: &[SetScan], after: &[ValidRecord], at: &RecordAt) -> bool
    ensures { (payload : Payloads) (own : RecordAt → List ℕ) → result
        ≡ is_last_cut (sets_with payload sets.now) (map (placed_with payload) after.now) (record_with own at.now) }
{
    let marker = &at.marker;
    match Kind::from_number(marker.kind) {
        Some(Kind::Cut) => {
            has_carrier(sets, marker.upload)
                && !some_cuts_at_most(after, marker.upload, marker.length)
        }
        _ => false,
    }
}
