//! The appends of a set's records, without a set.
ghost use Rattle.std.specs.Prelude.{◌≡◌, ◌<◌, ◌≤◌};

use crate::array::{GEOMETRY, RECORD};
use smore_base::{BLOCK_BYTES, Memory};
use std::alloc::Global;
use zone_bay::Bay;

/// The zone of each drive that is appended to.
const ZONE: u16 = 2;

/// Appends the bytes to a drive. False where it can't.
fn append_to<B: Bay>(bay: &mut B, drive: u8, bytes: &[u8]) -> bool {
    if bay.devices() <= drive || bay.zones() <= ZONE {
        return false;
    }
    let most = (BLOCK_BYTES as usize).saturating_mul(bay.blocks() as usize);
    let Ok(held) = bay.written(drive, ZONE) else {
        return false;
    };
    if (held as usize).saturating_add(bytes.len()) > most {
        return false;
    }
    bay.append(drive, ZONE, bytes).is_ok()
}

/// Appends the bytes to each drive. False where one can't.
fn append_to_all<B: Bay>(bay: &mut B, bytes: &[u8]) -> bool {
    for drive in 0..GEOMETRY.drives {
        if !append_to(bay, drive, bytes) {
            return false;
        }
    }
    true
}

/// Appends as many bytes as a record has, that many times, and answers how often that could be done.
pub(crate) fn append_alone<B: Bay>(alloc: Global, bay: &mut B, rounds: u32) -> Result<u32, Memory> {
    let bytes = vec![in alloc; 0x5a; RECORD]?;
    for round in 0..rounds {
        if !append_to_all(bay, &bytes) {
            return Ok(round);
        }
    }
    Ok(rounds)
}
