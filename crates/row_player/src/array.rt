//! Arrays in memory.

use crate::fault::Fault;
use bay_memory::{Keep, MemoryBay};
use marker_format::{LABEL_VERSION, Label, write_label_block};
use smore_base::{BLOCK_BYTES, Geometry};
use std::alloc::Global;
use zone_bay::Bay;

/// Bytes of a block.
pub(crate) const BLOCK: usize = BLOCK_BYTES as usize;

/// The identity of each array.
pub const ARRAY: [u8; 16] = [0, 1, 2, 3, 4, 5, 6, 7, 8, 9, 10, 11, 12, 13, 14, 15];

/// A copy of the bay in which all that it holds is firm and no call was made, without these devices.
pub fn image_of(
    alloc: Global,
    bay: &MemoryBay,
    keep: Keep,
    removed: &[u8],
) -> Result<MemoryBay, Fault> {
    Ok(MemoryBay::from_image(alloc, bay.crash(keep, removed)?))
}

/// A fresh formatted array: a label on each device. Its calls are counted from 0.
pub fn formatted(alloc: Global, geometry: &Geometry) -> Result<MemoryBay, Fault> {
    if geometry.check().is_err() {
        return Err(Fault::wanted(alloc, "a geometry within the limits"));
    }
    let mut bay = MemoryBay::new(alloc, geometry.drives + 1, geometry.zones, geometry.blocks)?;
    for device in 0..bay.devices() {
        if !put_label(&mut bay, geometry, device) {
            return Err(Fault::Memory);
        }
    }
    image_of(alloc, &bay, Keep::All, &[])
}

/// Puts the label of a device. `false` where there is no room for it, or where the device fails.
fn put_label(bay: &mut MemoryBay, geometry: &Geometry, device: u8) -> bool {
    let label = Label {
        version: LABEL_VERSION,
        device,
        geometry: *geometry,
        array: ARRAY,
    };
    let mut block = [0; BLOCK];
    write_label_block(&label, &mut block);
    append_block(bay, device, 0, &block)
}

/// The bytes of a zone; of a zone that isn't there none.
pub fn zone_of(bay: &MemoryBay, device: u8, zone: u16) -> &[u8] {
    if device < bay.devices() && zone < bay.zones() {
        bay.held(device, zone)
    } else {
        &[]
    }
}

/// How many bytes the bay holds.
pub fn bytes_of_bay(bay: &MemoryBay) -> u64 {
    let mut sum = 0u64;
    for device in 0..bay.devices() {
        for zone in 0..bay.zones() {
            sum = sum.saturating_add(zone_of(bay, device, zone).len() as u64);
        }
    }
    sum
}

/// Appends a block that begins with these bytes, and makes it firm. `false` where there is no such zone, no room in it or
/// more bytes than a block has, or where the device fails.
pub fn append_block(bay: &mut MemoryBay, device: u8, zone: u16, bytes: &[u8]) -> bool {
    let mut block = [0; BLOCK];
    let Some(front) = block.get_mut(..bytes.len()) else {
        return false;
    };
    front.copy_from_slice(bytes);
    if device >= bay.devices() || zone >= bay.zones() {
        return false;
    }
    let room = bay.blocks() as usize * BLOCK;
    if bay.held(device, zone).len() + BLOCK > room {
        return false;
    }
    bay.append(device, zone, &block).is_ok() && bay.flush(device).is_ok()
}
