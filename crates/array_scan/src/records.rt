//! The valid records of sets, one after another.
ghost use Rattle.std.specs.Prelude.{◌≡◌, ◌≤◌, ◌++◌, List, length, map, take, IsTrue, IfOk, Contains};
ghost use Rattle.std.specs.List.{AllByRecursion};
ghost use Rattle.array_model.specs.Sets.{placed, placed_from};
ghost use Rattle.array_scan.specs.declared.judge.SetScan.{SetScan};
ghost use Rattle.array_scan.specs.Judged.{Payloads, records_with, valid_with};
ghost use Rattle.array_scan.specs.Valid.{placed_with, IsOfStanding};

use crate::judge::SetScan;
use crate::set_read::{RecordAt, SetRead};
use crate::sets::Sets;
use smore_base::Memory;
use std::alloc::Global;

/// A valid record of a set.
#[derive(Clone, Copy)]
pub struct ValidRecord<'a> {
    pub set: &'a SetRead,
    pub position: usize,
    pub at: &'a RecordAt,
}

/// Adds the valid records of the set.
fn add_valid<'a>(set: &'a SetScan, records: &mut Vec<ValidRecord<'a>>) -> Result<(), Memory>
    requires { set.now.valid ≤ length set.now.read.records.items }
    ensures added { IfOk result (λ _. (payload : Payloads)
        → map (placed_with payload) records.new.items ≡ map (placed_with payload) records.old.items
        ++ placed_from set.now.read.id 0 (take set.now.valid (records_with payload set.now.read))) }
    ensures of_set { IfOk result (λ _. (sets : List SetScan) → Contains sets set.now → IsTrue set.now.stands
        → AllByRecursion (IsOfStanding sets) records.old.items
        → AllByRecursion (IsOfStanding sets) records.new.items) }
{
    for position in 0..set.valid {
        records.push(ValidRecord {
            set: &set.read,
            position,
            at: &set.read.records[position],
        })?;
    }
    Ok(())
}

/// The valid records of the sets that stand, by rising set and position.
pub(crate) fn valid_records<'a>(
    alloc: Global,
    sets: &'a Sets,
) -> Result<Vec<ValidRecord<'a>>, Memory>
    ensures records { IfOk result (λ records. (payload : Payloads)
        → map (placed_with payload) records.items ≡ placed (valid_with payload sets.now.list.items)) }
    ensures of_sets { IfOk result (λ records.
        AllByRecursion (IsOfStanding sets.now.list.items) records.items) }
{
    let mut records = Vec::new(alloc);
    for set in &sets.list {
        if set.stands {
            add_valid(set, &mut records)?;
        }
    }
    Ok(records)
}
