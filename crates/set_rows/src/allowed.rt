//! Whether what a scan says of the sets is what the steps of a row allow.

use crate::set_log::Allowed;
use crate::set_marker::is_same;
use array_scan::{Scan, SetScan};
use marker_format::{Kind, Marker};
use std::alloc::{AllocError, Global};

/// How many bits are set.
fn count(bits: u32) -> usize {
    let mut count = 0usize;
    for bit in 0u8..32 {
        if (bits >> bit) & 1 == 1 {
            count = count.saturating_add(1);
        }
    }
    count
}

/// The bit of a device.
fn bit_of(device: u8) -> u32 {
    if device < 32 { 1 << device } else { 0 }
}

/// The devices that were lost by then, a bit each.
pub(crate) fn lost(allowed: &[Allowed]) -> u32 {
    let mut lost = 0;
    for set in allowed {
        lost |= set.reach.lost;
    }
    lost
}

/// The drives that are there, a bit each.
fn present(scan: &Scan) -> u32 {
    let mut drives = 0;
    for drive in &scan.drives.present {
        drives |= bit_of(*drive);
    }
    drives
}

fn has_cut(markers: &[Marker]) -> bool {
    for marker in markers {
        if marker.kind == Kind::Cut.number() {
            return true;
        }
    }
    false
}

fn find(scan: &Scan, set: u64) -> Option<&SetScan> {
    for seen in &scan.sets.list {
        if seen.read.id == set {
            return Some(seen);
        }
    }
    None
}

/// Why the set's carriers are others than may be, where `carriers` of its members are there.
fn fault_of_carriers(set: &Allowed, seen: &SetScan, carriers: usize) -> Option<&'static str> {
    for carrier in &seen.read.carriers {
        if bit_of(carrier.place.device) & set.reach.members == 0 {
            return Some("a drive carries it that isn't a member");
        }
    }
    if set.is_opened && seen.read.carriers.len() != carriers {
        return Some("a member doesn't carry it");
    }
    None
}

/// Why its agreed list is another than may be.
fn fault_of_records(set: &Allowed, seen: &SetScan) -> Option<&'static str> {
    let count = seen.read.records.len();
    if count < set.least {
        return Some("a record isn't there");
    }
    if count > set.records.len() {
        return Some("more records are there");
    }
    for (at, marker) in seen.read.records.iter().zip(&set.records) {
        if !is_same(&at.marker, marker) {
            return Some("another record is there");
        }
    }
    None
}

/// Why it is closed, or open, where it may not be.
fn fault_of_foot(set: &Allowed, seen: &SetScan) -> Option<&'static str> {
    let is_closed = seen.read.closed;
    if set.is_closed && !is_closed {
        return Some("a foot isn't there");
    }
    if is_closed && !set.may_be_closed {
        return Some("feet are there");
    }
    if is_closed && seen.read.records.len() != set.records.len() {
        return Some("feet are there without all records");
    }
    None
}

/// Why what counts of it is other than may be. `is_cut` where a cut may be there.
fn fault_of_valid(set: &Allowed, seen: &SetScan, k: u8, is_cut: bool) -> Option<&'static str> {
    let count = seen.read.records.len();
    let stands = seen.read.carriers.len() >= usize::from(k) && count >= set.first;
    if seen.stands != stands {
        return Some("it stands, or doesn't");
    }
    let valid = if stands { count } else { 0 };
    if seen.valid != valid && (!is_cut || seen.valid > valid) {
        return Some("other records are valid");
    }
    None
}

/// The set of this number.
fn one_of(allowed: &[Allowed], set: u64) -> Option<&Allowed> {
    for other in allowed {
        if other.set == set {
            return Some(other);
        }
    }
    None
}

/// Whether a set may have a cut.
fn may_cut(allowed: &[Allowed]) -> bool {
    for set in allowed {
        if has_cut(&set.records) {
            return true;
        }
    }
    false
}

/// Why the set before it is other than may be where this one is there: it is whole and closed then.
fn fault_of_behind(set: &Allowed, scan: &Scan, allowed: &[Allowed]) -> Option<&'static str> {
    let behind = set.behind?;
    let before = one_of(allowed, behind)?;
    let Some(seen) = find(scan, behind) else {
        if count(before.reach.members & !before.reach.lost & present(scan)) > 0 {
            return Some("the set before it isn't there");
        }
        return None;
    };
    if !seen.read.closed || seen.read.records.len() != before.records.len() {
        return Some("the set before it isn't closed");
    }
    None
}

/// Why the set is other than may be.
fn fault_of_set(set: &Allowed, scan: &Scan, allowed: &[Allowed]) -> Option<&'static str> {
    let carriers = count(set.reach.members & !set.reach.lost & present(scan));
    let Some(seen) = find(scan, set.set) else {
        if set.is_opened && carriers > 0 {
            return Some("a set isn't there");
        }
        return None;
    };
    let is_cut = may_cut(allowed);
    fault_of_carriers(set, seen, carriers)
        .or(fault_of_records(set, seen))
        .or(fault_of_foot(set, seen))
        .or(fault_of_valid(set, seen, scan.sets.k, is_cut))
        .or(fault_of_behind(set, scan, allowed))
}

/// A set that is other than may be, and why. Of sets that aren't there `None`.
pub(crate) fn fault_of(allowed: &[Allowed], scan: &Scan) -> Option<(u64, &'static str)> {
    for set in allowed {
        if let Some(why) = fault_of_set(set, scan, allowed) {
            return Some((set.set, why));
        }
    }
    for seen in &scan.sets.list {
        if one_of(allowed, seen.read.id).is_none() {
            return Some((seen.read.id, "no such set was opened"));
        }
    }
    None
}

/// What may be there in words.
pub(crate) fn told(alloc: Global, allowed: &[Allowed]) -> Result<String, AllocError> {
    if allowed.is_empty() {
        return String::from_str(alloc, "no set");
    }
    let mut text = String::new(alloc);
    for set in allowed {
        if !text.is_empty() {
            text.push_str(", ")?;
        }
        let number = set.set;
        let least = set.least;
        let most = set.records.len();
        write!(text, "set {number} with {least} to {most} records")?;
        if set.is_closed {
            text.push_str(", closed")?;
        } else if set.may_be_closed {
            text.push_str(", closed or not")?;
        }
    }
    Ok(text)
}
