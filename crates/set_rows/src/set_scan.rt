//! What the plain scan says of sets.

use array_scan::{Scan, SetScan, scan};
use bay_memory::{Keep, MemoryBay};
use row_player::{Fault, image_of};
use std::alloc::{AllocError, Global};

/// The devices whose bits are set.
fn devices_of(alloc: Global, bits: u32) -> Result<Vec<u8>, AllocError> {
    let mut devices = Vec::new(alloc);
    for device in 0u8..32 {
        if (bits >> device) & 1 == 1 {
            devices.push(device)?;
        }
    }
    Ok(devices)
}

/// The plain scan of the array without these devices, a bit each.
pub(crate) fn scan_without(alloc: Global, bay: &MemoryBay, away: u32) -> Result<Scan, Fault> {
    let removed = devices_of(alloc, away)?;
    let mut copy = image_of(alloc, bay, Keep::All, &removed)?;
    match scan(alloc, &mut copy, &[]) {
        Ok(scan) => Ok(scan),
        Err(_) => Err(Fault::Memory),
    }
}

/// What it says of the sets, as a line has it.
pub(crate) fn told(alloc: Global, scan: &Scan) -> Result<String, AllocError> {
    if scan.sets.list.is_empty() {
        return String::from_str(alloc, "scan nothing");
    }
    let mut text = String::from_str(alloc, "scan")?;
    for seen in &scan.sets.list {
        let set = seen.read.id;
        let carriers = seen.read.carriers.len();
        let records = seen.valid;
        let settled = if scan.sets.is_settled(&seen.read) {
            "settled"
        } else {
            "unsettled"
        };
        write!(text, " {set} {carriers} {records} {settled}")?;
    }
    Ok(text)
}

/// Whether the set may be seen so where these four numbers were wanted of it and a call failed: with one carrier fewer, and, where
/// fewer than k are left, with no valid record.
fn may_be_one(scan: &Scan, k: u8, seen: &SetScan, wanted: &[u64]) -> bool {
    let [set, all, records, settled] = *wanted else {
        return false;
    };
    let carriers = seen.read.carriers.len() as u64;
    let valid = seen.valid as u64;
    let is_settled = scan.sets.is_settled(&seen.read);
    let is_whole = valid == records && is_settled == (settled == 1);
    let is_short = carriers < u64::from(k) && valid == 0 && !is_settled;
    seen.read.id == set
        && carriers <= all
        && all <= carriers.saturating_add(1)
        && (is_whole || is_short)
}

/// Whether the sets may be seen so where these numbers were wanted, four of each, and a call failed.
pub(crate) fn may_be(scan: &Scan, k: u8, wanted: &[u64]) -> bool {
    let mut rest = wanted;
    for seen in &scan.sets.list {
        let Some(four) = rest.get(..4) else {
            return false;
        };
        if !may_be_one(scan, k, seen, four) {
            return false;
        }
        let (_, behind) = rest.split_at(4.min(rest.len()));
        rest = behind;
    }
    rest.is_empty()
}
