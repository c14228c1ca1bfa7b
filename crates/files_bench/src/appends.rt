use bay_files::FileBay;
use smore_base::{Geometry, MIN_ZONES};
use std::fs::File;
use std::rt::Files;
use zone_bay::Bay;

const DRIVE: u8 = 0;

/// What is appended each time: two blocks' content.
const BYTES: [u8; 1022] = [0x5a; 1022];

/// As many drives as an array has, so that few files of each stay open. Zones have 2 MiB.
pub(crate) fn geometry_of(zones: u16) -> Geometry {
    Geometry {
        drives: 24,
        k: 1,
        p: 1,
        zones: zones.max(MIN_ZONES),
        blocks: 4096,
        shard: 1022,
    }
}

/// How many calls were answered, and how many bytes the zones hold behind the appends.
#[derive(Clone, Copy, Default)]
pub(crate) struct Answered {
    pub(crate) appends: u32,
    pub(crate) flushes: u32,
    pub(crate) held: u64,
    pub(crate) resets: u32,
    pub(crate) replacements: u32,
}

/// Appends that many times to drive 0, to so many zones in turn, each time with a flush.
pub(crate) fn append_all<R: Files<File = File> + AllocGlobal + Drop>(
    bay: &mut FileBay<R>,
    count: u32,
    zones: u16,
) -> Answered {
    let mut answered = Answered::default();
    let mut zone = 0;
    for _ in 0..count {
        append_one(bay, zone, &mut answered);
        zone = if zone < zones.saturating_sub(1) {
            zone + 1
        } else {
            0
        };
    }
    for zone in 0..zones {
        add_held(bay, zone, &mut answered);
    }
    answered
}

fn append_one<R: Files<File = File> + AllocGlobal + Drop>(
    bay: &mut FileBay<R>,
    zone: u16,
    answered: &mut Answered,
) {
    if bay.devices() <= DRIVE || bay.zones() <= zone {
        return;
    }
    if bay.append(DRIVE, zone, &BYTES).is_ok() {
        answered.appends = answered.appends.saturating_add(1);
    }
    if bay.flush(DRIVE).is_ok() {
        answered.flushes = answered.flushes.saturating_add(1);
    }
}

fn add_held<R: Files<File = File> + AllocGlobal + Drop>(
    bay: &mut FileBay<R>,
    zone: u16,
    answered: &mut Answered,
) {
    if bay.devices() <= DRIVE || bay.zones() <= zone {
        return;
    }
    if let Ok(bytes) = bay.written(DRIVE, zone) {
        answered.held = answered.held.saturating_add(u64::from(bytes));
    }
}

/// Resets the first zone of drive 0, and replaces the drive.
pub(crate) fn renew<R: Files<File = File> + AllocGlobal + Drop>(
    bay: &mut FileBay<R>,
    answered: &mut Answered,
) {
    if bay.devices() <= DRIVE || bay.zones() == 0 {
        return;
    }
    if bay.reset(DRIVE, 0).is_ok() {
        answered.resets = 1;
    }
    if bay.replace(DRIVE).is_ok() {
        answered.replacements = 1;
    }
}
