ghost use Rattle.std.specs.Prelude.{◌≡◌, true};
ghost use Rattle.set_table.specs.Table.{IsSetZone};

use set_table::{Members, SetTable, TooFew};
use smore_base::Geometry;
use std::test::Fail;

/// Whether the table has a set zone of that number on a drive of that number.
fn is_set_zone(table: &SetTable, device: u8, zone: u16) -> bool
    ensures { result ≡ true → IsSetZone table.now.geometry device zone }
{
    let geometry = *table.geometry();
    if device >= geometry.drives {
        return false;
    }
    zone >= 2 && zone < geometry.zones
}

/// Drives, k, p and zones; how many zones of which drives are taken; the device that is lost, and none where it is 99; how
/// many sets of all their members can be formed; the drives of the first; the empty zones of drives 0 to 3 behind it; and
/// how many drives have an empty zone when no more can be formed.
type Case = (
    [u8; 3],
    u16,
    [(u8, u16); 3],
    u8,
    u32,
    &'static [u8],
    [u16; 4],
    u8,
);

const CASES: [Case; 6] = [
    (
        [4, 2, 1],
        8,
        [(0, 0), (1, 0), (2, 0)],
        99,
        8,
        &[0, 1, 2],
        [5, 5, 5, 6],
        0,
    ),
    // a drive, or the flash, is lost
    (
        [4, 2, 1],
        8,
        [(0, 0), (1, 0), (2, 0)],
        1,
        6,
        &[0, 2, 3],
        [5, 0, 5, 5],
        0,
    ),
    (
        [4, 2, 1],
        8,
        [(0, 0), (1, 0), (2, 0)],
        4,
        8,
        &[0, 1, 2],
        [5, 5, 5, 6],
        0,
    ),
    // uneven drives
    (
        [4, 2, 1],
        8,
        [(0, 1), (1, 1), (2, 1)],
        99,
        7,
        &[0, 1, 3],
        [4, 4, 5, 5],
        0,
    ),
    (
        [4, 2, 1],
        8,
        [(0, 5), (1, 2), (2, 0)],
        99,
        5,
        &[1, 2, 3],
        [1, 3, 5, 5],
        2,
    ),
    (
        [6, 4, 2],
        64,
        [(0, 60), (1, 3), (5, 0)],
        99,
        2,
        &[0, 1, 2, 3, 4, 5],
        [1, 58, 61, 61],
        5,
    ),
];

#[test]
fn sets_are_formed_while_there_is_room(rt: HostRuntime) -> Result<(), Fail> {
    for ([drives, k, p], zones, taken, lost, room, members, empty, live) in CASES {
        let geometry = Geometry {
            drives,
            k,
            p,
            zones,
            blocks: 128,
            shard: 1022,
        };
        geometry.check()?;
        let mut table = SetTable::new(rt.alloc(), geometry, [0; 16])?;
        for (device, zones) in taken {
            take(&mut table, device, zones);
        }
        lose(&mut table, lost);
        for formed in 0..room {
            assert_eq!(rt;
                (table.room_sets(), plain_room(&table)),
                (room - formed, room - formed)
            );
            let set = form(&mut table, u64::from(formed) + 1)??;
            if formed == 0 {
                assert_eq!(rt; set.len(), members.len());
                for (member, device) in set.iter().zip(members) {
                    assert_eq!(rt; member.device, *device);
                }
                for (device, zones) in (0..4).zip(empty) {
                    assert_eq!(rt; table.empty_zones(device), zones);
                }
            }
        }
        assert_eq!(rt; (table.room_sets(), plain_room(&table)), (0, 0));
        assert_eq!(rt; form(&mut table, 99)?.err(), Some(TooFew { live }));
    }
    Ok(())
}

#[test]
fn a_set_is_told_while_it_is_carried(rt: HostRuntime) -> Result<(), Fail> {
    let geometry = Geometry {
        drives: 4,
        k: 2,
        p: 1,
        zones: 8,
        blocks: 128,
        shard: 1022,
    };
    geometry.check()?;
    let mut table = SetTable::new(rt.alloc(), geometry, [7; 16])?;
    assert_eq!(rt; (table.array(), table.lost()), ([7; 16], 0));
    let _ = form(&mut table, 5)??;
    mark(&mut table, 5);
    assert!(rt; table.settled(5) && table.dropped(5) && !table.settled(4));
    assert_eq!(rt; (table.carrier(5, 1), table.missing(5)), (Some((1, 2)), 0));
    lose(&mut table, 1);
    assert_eq!(rt;
        (table.carrier(5, 1), table.missing(5), table.lost()),
        (None, 1, 2)
    );
    // another drive carries the index
    add(&mut table, 5, 1, 3)?;
    assert_eq!(rt; (table.carrier(5, 1), table.missing(5)), (Some((3, 2)), 0));
    // its zones are empty when it is back
    revive(&mut table, 1);
    assert_eq!(rt;
        (table.carrier(5, 1), table.missing(5), table.lost()),
        (Some((3, 2)), 0, 0)
    );
    assert_eq!(rt;
        (table.lowest_empty(1), table.lowest_empty(0)),
        (Some(2), Some(3))
    );
    // the set leaves with its last carrier
    release(&mut table, 3, 2);
    release(&mut table, 0, 2);
    assert_eq!(rt; (table.set_after(4), table.missing(5)), (Some(5), 2));
    release(&mut table, 2, 2);
    assert_eq!(rt; (table.set_after(4), table.missing(5)), (None, 3));
    assert_eq!(rt; (table.with_empty(), table.room_sets()), (4, 8));
    // five sets are formed, and all their zones are released before the sixth
    for set in 1..6 {
        let _ = form(&mut table, set)??;
    }
    for device in 0..4 {
        for zone in 2..8 {
            release(&mut table, device, zone);
        }
    }
    let _ = form(&mut table, 6)??;
    for (device, zones) in (0..4).zip([5, 5, 5, 6]) {
        assert_eq!(rt; table.empty_zones(device), zones);
    }
    Ok(())
}

/// How many zones of a drive are taken; the one of these that is released and taken again; and the lowest empty one then.
const AGAIN: [(u16, u16, Option<u16>); 5] = [
    (61, 2, Some(63)),
    (62, 40, Some(64)),
    (148, 63, Some(150)),
    (190, 2, Some(192)),
    (198, 64, None),
];

#[test]
fn the_lowest_empty_zone_is_found_above_used_ones(rt: HostRuntime) -> Result<(), Fail> {
    let geometry = Geometry {
        drives: 3,
        k: 2,
        p: 1,
        zones: 200,
        blocks: 128,
        shard: 1022,
    };
    geometry.check()?;
    for (taken, again, lowest) in AGAIN {
        let mut table = SetTable::new(rt.alloc(), geometry, [0; 16])?;
        take(&mut table, 0, taken);
        release(&mut table, 0, again);
        assert_eq!(rt; table.lowest_empty(0), Some(again));
        take(&mut table, 0, 1);
        assert_eq!(rt; table.lowest_empty(0), lowest);
    }
    Ok(())
}

/// Takes so many zones of the drive.
fn take(table: &mut SetTable, device: u8, zones: u16) {
    for _ in 0..zones {
        if let Some(zone) = table.lowest_empty(device) {
            if is_set_zone(table, device, zone) {
                table.take_zone(device, zone);
            }
        }
    }
}

fn lose(table: &mut SetTable, device: u8) {
    if device <= table.geometry().drives {
        table.lose(device);
    }
}

/// Forms a set of all its members. No set is formed where it is in the table.
fn form(table: &mut SetTable, set: u64) -> Result<Result<Members, TooFew>, Fail> {
    table.reserve(1)?;
    if table.contains(set) {
        return Ok(Ok(Members::new()));
    }
    let least = table.geometry().k + table.geometry().p;
    Ok(table.form_set(set, least))
}

/// Room by its definition: the greatest number of sets for which the drives have zones enough, of each drive one a set.
fn plain_room(table: &SetTable) -> u32 {
    let geometry = table.geometry();
    let members = u32::from(geometry.k) + u32::from(geometry.p);
    let mut room = 0;
    for sets in 1..=u32::from(geometry.zones) {
        let mut zones = 0u32;
        for device in 0..geometry.drives {
            zones = zones.saturating_add(sets.min(u32::from(table.empty_zones(device))));
        }
        if zones >= members * sets {
            room = sets;
        }
    }
    room
}

/// Lets the drive's lowest empty zone carry an index that none carries.
fn add(table: &mut SetTable, set: u64, index: u8, device: u8) -> Result<(), Fail> {
    table.reserve(1)?;
    let Some(zone) = table.lowest_empty(device) else {
        return Ok(());
    };
    if !is_set_zone(table, device, zone) || index >= table.geometry().k + table.geometry().p {
        return Ok(());
    }
    table.take_zone(device, zone);
    if table.carrier(set, index).is_none() {
        table.add_carrier(set, index, device, zone);
    }
    Ok(())
}

fn mark(table: &mut SetTable, set: u64) {
    if table.contains(set) {
        table.mark_settled(set);
    }
    if table.contains(set) {
        table.drop_set(set);
    }
}

fn release(table: &mut SetTable, device: u8, zone: u16) {
    if is_set_zone(table, device, zone) {
        table.release(device, zone);
    }
}

fn revive(table: &mut SetTable, device: u8) {
    if device <= table.geometry().drives {
        table.revive(device);
    }
}
