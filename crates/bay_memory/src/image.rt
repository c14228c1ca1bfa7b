ghost use Rattle.std.specs.Prelude.{◌≡◌, ◌<◌, map, IfOk};
ghost use Rattle.bay_memory.specs.Array.{AreFresh, contents_in, firm_in};
ghost use Rattle.bay_memory.specs.Views.{views_of, shape_of};
ghost use Rattle.bay_memory.specs.Zone.{track_of};
ghost use Rattle.bay_memory.specs.Device.{view_of};
ghost use Rattle.bay_memory.specs.Keep.{kept_with, left_by};
ghost use Rattle.bay_memory.specs.Copies.{AreCopies, IsCopy, AreDeviceCopies};

use crate::array::Array;
use crate::crash::Crash;
use crate::device::Device;
use crate::zone::Zone;
use std::alloc::{AllocError, Global};

/// What a crash left of an array: the numbers of devices, zones and blocks, and the bytes of each zone. All of them are
/// firm.
#[derive(Drop)]
pub struct Image {
    pub(crate) array: Array,
    ghost fresh: { AreFresh (views_of array) },
}

/// Copies of a device's zones, as a crash leaves them.
fn copied_zones(
    alloc: Global,
    array: &Array,
    crash: &Crash,
    device: u8,
) -> Result<Vec<Zone>, AllocError>
    requires { device < (shape_of array.now).devices }
    ensures { IfOk result (λ zones. AreCopies (kept_with crash.now (contents_in (views_of array.now)) (firm_in (views_of array.now))) device (shape_of array.now).zones (map track_of zones.items)) }
{
    let mut zones = Vec::new(alloc);
    for zone in 0..array.zones() {
        let held = array.held(device, zone);
        let firm = array.firm(device, zone);
        let kept = crash.keep.bytes(device, zone, held.len(), firm);
        let bytes = &held[..kept.min(held.len())];
        zones.push(Zone::of(alloc, bytes, crash.behind(device, zone))?)?;
    }
    Ok(zones)
}

/// A copy of a device, as a crash leaves it, or a blank one where it is removed.
fn copied_device(
    alloc: Global,
    array: &Array,
    crash: &Crash,
    device: u8,
) -> Result<Device, AllocError>
    requires { device < (shape_of array.now).devices }
    ensures { IfOk result (λ copy. IsCopy (left_by crash.now (contents_in (views_of array.now)) (firm_in (views_of array.now))) device (shape_of array.now).zones (view_of copy)) }
{
    if crash.removed.contains(&device) {
        return Device::blank(alloc, array.zones());
    }
    let zones = copied_zones(alloc, array, crash, device)?;
    Ok(Device::of(alloc, zones))
}

/// Copies of all devices.
fn copied_devices(alloc: Global, array: &Array, crash: &Crash) -> Result<Vec<Device>, AllocError>
    ensures { IfOk result (λ copies. AreDeviceCopies (left_by crash.now (contents_in (views_of array.now)) (firm_in (views_of array.now))) (shape_of array.now).devices (shape_of array.now).zones (map view_of copies.items)) }
{
    let mut devices = Vec::new(alloc);
    for device in 0..array.devices() {
        devices.push(copied_device(alloc, array, crash, device)?)?;
    }
    Ok(devices)
}

impl Image {
    ghost use Rattle.bay_memory.specs.Image.{image_shape, image_bytes};
    ghost use Rattle.bay_memory.specs.Operation.{PutFits};

    /// What the crash leaves of the array.
    pub(crate) fn of(alloc: Global, array: &Array, crash: &Crash) -> Result<Image, AllocError>
        requires { PutFits crash.now.put (shape_of array.now) (contents_in (views_of array.now)) }
        ensures shape { IfOk result (λ image. image_shape image ≡ shape_of array.now) }
        ensures bytes { IfOk result (λ image. image_bytes image ≡ left_by crash.now (contents_in (views_of array.now)) (firm_in (views_of array.now))) }
    {
        let devices = copied_devices(alloc, array, crash)?;
        Ok(Image {
            array: Array::of(array.zones(), array.blocks(), devices),
        })
    }

    /// The number of devices, the flash among them.
    pub fn devices(&self) -> u8
        ensures { result ≡ (image_shape self.now).devices }
    {
        self.array.devices()
    }

    /// The number of zones of each device.
    pub fn zones(&self) -> u16
        ensures { result ≡ (image_shape self.now).zones }
    {
        self.array.zones()
    }

    /// The number of blocks of each zone.
    pub fn blocks(&self) -> u32
        ensures { result ≡ (image_shape self.now).blocks }
    {
        self.array.blocks()
    }

    /// The bytes of a zone.
    pub fn held(&self, device: u8, zone: u16) -> &[u8]
        requires device_in { device < (image_shape self.now).devices }
        requires zone_in { zone < (image_shape self.now).zones }
        ensures { result.now ≡ image_bytes self.now device zone }
    {
        self.array.held(device, zone)
    }
}
