//! The life of a set over drives in memory, and what a scan says of it.

use array_scan::scan;
use bay_memory::MemoryBay;
use marker_format::{Label, write_label_block};
use set_table::SetTable;
use set_writer::{SetWriter, WriteRefusal, open_set};
use smore_base::Geometry;
use std::alloc::Global;
use std::process::Abort;
use std::test::Fail;
use zone_bay::Bay;

const GEOMETRY: Geometry = Geometry {
    drives: 4,
    k: 2,
    p: 1,
    zones: 5,
    blocks: 128,
    shard: 511,
};

const ARRAY: [u8; 16] = *b"0123456789abcdef";

/// Calls that are to fail, and numbers: behind each of open, flush, close and next set the answer, the live members, the
/// blocks and the records, and what drive 0 holds in zone 2; then of each set that the plain scan finds its number, its
/// carriers and its valid records.
const LIVES: [(&[u64], &[u64]); 5] = [
    (
        &[],
        &[
            0, 3, 2, 2, 1024, 0, 3, 2, 2, 1024, 0, 3, 5, 3, 2560, 1, 3, 3, 1,
        ],
    ),
    (
        &[1],
        &[
            0, 2, 2, 2, 1024, 0, 2, 2, 2, 1024, 0, 2, 5, 3, 2560, 1, 2, 3, 1,
        ],
    ),
    (&[1, 2], &[1, 1, 0, 0]),
    (
        &[12],
        &[
            0, 3, 2, 2, 1024, 0, 3, 2, 2, 1024, 0, 2, 5, 3, 1024, 1, 2, 3, 1,
        ],
    ),
    (
        &[16, 18],
        &[
            0, 3, 2, 2, 1024, 0, 3, 2, 2, 1024, 302, 1, 5, 3, 2048, 1, 1, 0, 0,
        ],
    ),
];

/// An answer as a number.
fn number(answer: &Result<(), WriteRefusal>) -> u64 {
    match answer {
        Ok(()) => 0,
        Err(WriteRefusal::Memory) => 1,
        Err(WriteRefusal::TooFew { live }) => 100 + u64::from(*live),
        Err(WriteRefusal::NoFit { .. }) => 200,
        Err(WriteRefusal::Short { missing, .. }) => 300 + u64::from(*missing),
    }
}

/// Tells the answer, and how the set stands.
fn tell(
    told: &mut Vec<u64>,
    answer: &Result<(), WriteRefusal>,
    bay: &MemoryBay,
    table: &SetTable,
    writer: &SetWriter,
) -> Result<(), Fail> {
    told.push(number(answer))?;
    told.push(u64::from(writer.live(table)))?;
    told.push(u64::from(writer.used()))?;
    told.push(u64::from(writer.records()))?;
    if bay.devices() > 0 && bay.zones() > 2 {
        told.push(bay.held(0, 2).len() as u64)?;
    }
    Ok(())
}

/// Puts labels on the drives, and tells what a scan of those that aren't lost says.
fn scanned(
    rt: &impl Abort,
    alloc: Global,
    bay: &mut MemoryBay,
    table: &SetTable,
    told: &mut Vec<u64>,
) -> Result<(), Fail> {
    let mut away = Vec::new(alloc);
    for device in 0..4 {
        if device < 32 && (table.lost() >> device) & 1 == 1 {
            away.push(device)?;
            continue;
        }
        let label = Label {
            version: 1,
            device,
            geometry: GEOMETRY,
            array: ARRAY,
        };
        let mut block = [0; 512];
        write_label_block(&label, &mut block);
        assert!(rt; bay.blocks() == 128 && device < bay.devices() && 0 < bay.zones());
        assert!(rt; bay.held(device, 0).len() == 0);
        bay.append(device, 0, &block)?;
    }
    let scan = scan(alloc, bay, &away)?;
    for set in &scan.sets.list {
        told.push(set.read.id)?;
        told.push(set.read.carriers.len() as u64)?;
        told.push(set.valid as u64)?;
        told.push(u64::from(scan.sets.is_settled(&set.read)))?;
    }
    Ok(())
}

/// A set is opened, flushed and closed.
fn life(rt: &impl Abort, alloc: Global, fails: &[u64]) -> Result<Vec<u64>, Fail> {
    let mut told = Vec::new(alloc);
    let mut bay = MemoryBay::new(alloc, 5, 5, 128)?;
    bay.fail_at(fails)?;
    let mut table = SetTable::new(alloc, GEOMETRY, ARRAY)?;
    table.reserve(4)?;
    let Ok(mut writer) = open_set(alloc, &mut bay, &mut table, 1, 3, &[]) else {
        scanned(rt, alloc, &mut bay, &table, &mut told)?;
        return Ok(told);
    };
    tell(&mut told, &Ok(()), &bay, &table, &writer)?;
    let flushed = writer.flush(&mut bay, &mut table);
    tell(&mut told, &flushed, &bay, &table, &writer)?;
    assert!(rt; !writer.closed());
    let closed = writer.close_with_digest(&mut bay, &mut table);
    tell(&mut told, &closed, &bay, &table, &writer)?;
    scanned(rt, alloc, &mut bay, &table, &mut told)?;
    Ok(told)
}

#[test]
fn sets_are_opened_and_closed(rt: HostRuntime) -> Result<(), Fail> {
    for (fails, numbers) in &LIVES {
        assert_eq!(rt; life(&rt, rt.alloc(), fails)?.as_slice(), *numbers);
    }
    Ok(())
}
