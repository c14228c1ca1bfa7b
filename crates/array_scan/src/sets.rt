//! The sets of an array, and what is valid of them.
ghost use Rattle.std.specs.Prelude.{◌≡◌, map, IfOk};
ghost use Rattle.std.proofs.Props.{props};
ghost use Rattle.array_model.specs.Enough.{is_settled};
ghost use Rattle.array_scan.specs.Judged.{Payloads, set_with, sets_with, IsJudged};

use crate::judge::{SetScan, judge, stands};
use crate::set_read::SetRead;
use smore_base::Memory;
use std::alloc::Global;
use std::collections::BTreeMap;

/// The sets of which an array has carriers: `docs/RULES.md`, "Valid records".
#[derive(Drop)]
pub struct Sets {
    /// How many carriers a set needs to stand.
    pub k: u8,
    /// By rising number.
    pub list: Vec<SetScan>,
    /// How many records the valid cuts keep, by the number of the set that they cut.
    kept: BTreeMap<u64, u32>,
    ghost judged: { IsJudged k list.items kept } by { Prim.hlevel props },
}

impl Sets {
    /// Judges the sets, whose numbers rise.
    pub(crate) fn of(alloc: Global, k: u8, sets: Vec<SetRead>) -> Result<Sets, Memory>
        ensures k { IfOk result (λ judged. judged.k ≡ k) }
        ensures read { IfOk result (λ judged. map (λ s. s.read) judged.list.items ≡ sets.items) }
    {
        let mut kept = BTreeMap::new(alloc);
        let list = judge(alloc, k, sets, &mut kept)?;
        Ok(Sets { k, list, kept })
    }

    /// Whether the set's valid records are the same whichever of its carriers are read: it stands, and a valid cut names it
    /// or each of its carriers has a whole foot.
    pub fn is_settled(&self, set: &SetRead) -> bool
        ensures { (payload : Payloads) → let sets = sets_with payload self.now.list.items in
            result ≡ is_settled self.now.k sets (set_with payload set.now) }
    {
        stands(self.k, set) && (self.kept.contains_key(&set.id) || set.closed)
    }
}
