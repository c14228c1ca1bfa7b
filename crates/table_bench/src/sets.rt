//! The table that is asked.

ghost use Rattle.std.specs.Prelude.{◌≡◌, true};
ghost use Rattle.set_table.specs.Table.{IsSetZone};

use set_table::SetTable;
use smore_base::{Geometry, Memory};
use std::alloc::Global;

/// Sets of the table.
pub(crate) const SETS: u64 = 2000;

/// Sets that there is room for.
const ROOM: usize = 8000;

/// Zones of each drive of which none is empty where most are taken.
const MOST: u16 = 4000;

/// An array of as many drives and zones as there may be.
const GEOMETRY: Geometry = Geometry {
    drives: 24,
    k: 10,
    p: 4,
    zones: 4096,
    blocks: 524_288,
    shard: 65_408,
};

/// Forms a set of all its members where it isn't there yet; the sum of the zones that it took, or how many drives have one.
pub(crate) fn form(table: &mut SetTable, set: u64) -> Result<u64, Memory> {
    table.reserve(1)?;
    if table.contains(set) {
        return Ok(0);
    }
    let least = table.geometry().k + table.geometry().p;
    Ok(match table.form_set(set, least) {
        Ok(members) => members.iter().fold(
            0u64,
            |sum, member| sum.wrapping_add(u64::from(member.zone)),
        ),
        Err(few) => u64::from(few.live),
    })
}

/// A table of so many sets, with room for more.
pub(crate) fn table_of(alloc: Global) -> Result<SetTable, Memory> {
    let mut table = SetTable::new(alloc, GEOMETRY, [0; 16])?;
    table.reserve(ROOM)?;
    for set in 1..=SETS {
        form(&mut table, set)?;
    }
    Ok(table)
}

/// Whether the table has this set zone.
fn has_zone(table: &SetTable, device: u8, zone: u16) -> bool
    ensures { result ≡ true → IsSetZone table.now.geometry device zone }
{
    let geometry = table.geometry();
    device < geometry.drives && zone >= 2 && zone < geometry.zones
}

/// Takes each set zone below `MOST` of each drive that is empty yet.
pub(crate) fn take_most(table: &mut SetTable) {
    for device in 0..GEOMETRY.drives {
        for zone in 2..MOST {
            if has_zone(table, device, zone) {
                table.take_zone(device, zone);
            }
        }
    }
}

/// Releases the zones of a set.
pub(crate) fn release(table: &mut SetTable, set: u64) {
    for index in 0..GEOMETRY.k + GEOMETRY.p {
        if let Some((device, zone)) = table.carrier(set, index) {
            if has_zone(table, device, zone) {
                table.release(device, zone);
            }
        }
    }
}
