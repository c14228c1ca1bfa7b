//! Which zones carry a set.
ghost use Rattle.std.specs.Prelude.{◌≡◌, ◌+◌, ◌≤◌, ◌<◌, ℕ, length, map, IfOk, IfErr};
ghost use Rattle.set_table.specs.Table.{missing_of, HangsTogether};
ghost use Rattle.set_reader.specs.Carriers.{AreCarriers, carriers_by, Refuses};

use crate::refusal::ReadRefusal;
use set_table::{Member, Members, SetTable};

/// The live carriers of the set, by rising index.
fn carriers(table: &SetTable, set: u64) -> Members
    ensures { AreCarriers table.now set (carriers_by result.items) }
{
    let geometry = table.geometry();
    let mut members = Members::new();
    for index in 0..geometry.k + geometry.p {
        let Some((device, zone)) = table.carrier(set, index) else {
            continue;
        };
        members.push(Member {
            index,
            device,
            zone,
        });
    }
    members
}

/// The live carriers of the set, where there are as many as it has source fragments.
pub(crate) fn enough_carriers(table: &SetTable, set: u64) -> Result<Members, ReadRefusal>
    ensures carriers { IfOk result (λ members. AreCarriers table.now set (carriers_by members.items)) }
    ensures enough { IfOk result (λ members. table.now.geometry.k ≤ length members.items) }
    ensures few { IfOk result (λ _. missing_of table.now set ≤ table.now.geometry.p) }
    ensures refused { IfErr result (Refuses table.now set) }
    ensures together { HangsTogether table.now }
{
    let members = carriers(table, set);
    if members.len() < table.geometry().k as usize {
        return Err(ReadRefusal::TooFewFragments {
            set,
            missing: table.missing(set),
        });
    }
    Ok(members)
}
