ghost use Rattle.std.specs.Prelude.{◌≡◌, ◌^◌, ◌*◌, ◌<◌, true, [], replicate, map, length, IfOk};
ghost use Rattle.smore_base.specs.declared.limits.TheConstants.{BLOCK_BYTES};
ghost use Rattle.bay_memory.specs.Device.{view_of, view_with};
ghost use Rattle.bay_memory.specs.Past.{blank_track};
ghost use Rattle.bay_memory.specs.Array.{IsWhole};

use crate::device::Device;
use crate::operation::Operation;
use std::alloc::{AllocError, Global};

/// The devices of an array, which hold their zones.
#[derive(Drop)]
pub(crate) struct Array {
    zones: u16,
    blocks: u32,
    devices: Vec<Device>,
    ghost small: { BLOCK_BYTES * blocks < 2 ^ 32 },
    ghost whole: { IsWhole zones blocks (map view_of devices.items) },
}

/// This many devices whose zones hold nothing.
fn blank_devices(alloc: Global, devices: u8, zones: u16) -> Result<Vec<Device>, AllocError>
    ensures { IfOk result (λ blank. map view_of blank.items ≡ replicate devices (view_with (replicate zones blank_track))) }
{
    let mut blank = Vec::new(alloc);
    for _device in 0..devices {
        blank.push(Device::blank(alloc, zones)?)?;
    }
    Ok(blank)
}

impl Array {
    ghost use Rattle.bay_memory.specs.Operation.{call_of, IsWithin};
    ghost use Rattle.bay_memory.specs.Array.{contents_in, firm_in, AreFresh, AllSteady, ArrayMakes, KeepsTracks, AllKeepFailures, NotesFault, lost_in, with_lost};
    ghost use Rattle.bay_memory.specs.Views.{views_of, shape_of};

    /// An array whose zones hold nothing.
    pub fn blank(alloc: Global, devices: u8, zones: u16, blocks: u32) -> Result<Array, AllocError>
        requires { BLOCK_BYTES * blocks < 2 ^ 32 }
        ensures shape { IfOk result (λ array. shape_of array ≡ record { devices = devices; zones = zones; blocks = blocks }) }
        ensures contents { IfOk result (λ array. contents_in (views_of array) ≡ (λ _ _. [])) }
        ensures fresh { IfOk result (λ array. AreFresh (views_of array)) }
    {
        Ok(Array::of(zones, blocks, blank_devices(alloc, devices, zones)?))
    }

    /// An array of these devices.
    pub fn of(zones: u16, blocks: u32, devices: Vec<Device>) -> Array
        requires small { BLOCK_BYTES * blocks < 2 ^ 32 }
        requires whole { IsWhole zones blocks (map view_of devices.items) }
        ensures shape { shape_of result ≡ record { devices = length devices.items; zones = zones; blocks = blocks } }
        ensures views { views_of result ≡ map view_of devices.items }
    {
        Array {
            zones,
            blocks,
            devices,
        }
    }

    pub fn devices(&self) -> u8
        ensures { result ≡ (shape_of self.now).devices }
    {
        self.devices.len() as u8
    }

    pub fn zones(&self) -> u16
        ensures { result ≡ (shape_of self.now).zones }
    {
        self.zones
    }

    pub fn blocks(&self) -> u32
        ensures { result ≡ (shape_of self.now).blocks }
    {
        self.blocks
    }

    /// The bytes that a zone holds.
    pub fn held(&self, device: u8, zone: u16) -> &[u8]
        requires device_in { device < (shape_of self.now).devices }
        requires zone_in { zone < (shape_of self.now).zones }
        ensures { result.now ≡ contents_in (views_of self.now) device zone }
    {
        self.devices[usize::from(device)].held(zone.into())
    }

    /// How many of them are firm.
    pub fn firm(&self, device: u8, zone: u16) -> usize
        requires device_in { device < (shape_of self.now).devices }
        requires zone_in { zone < (shape_of self.now).zones }
        ensures { result ≡ firm_in (views_of self.now) device zone }
    {
        self.devices[usize::from(device)].firm(zone.into())
    }

    pub fn is_lost(&self, device: u8) -> bool
        requires { device < (shape_of self.now).devices }
        ensures { result ≡ lost_in (views_of self.now) device }
    {
        self.devices[usize::from(device)].is_lost()
    }

    /// Makes a call, all of it or nothing. Only an append needs memory.
    pub fn make(&mut self, moment: u64, operation: Operation<'_>) -> Result<(), AllocError>
        requires within { IsWithin (call_of operation) (shape_of self.old) (contents_in (views_of self.old)) }
        requires steady { AllSteady moment (views_of self.old) }
        ensures shape { shape_of self.new ≡ shape_of self.old }
        ensures call { ArrayMakes moment (call_of operation.entry) (views_of self.old) (views_of self.new) result }
    {
        let device = usize::from(operation.device());
        self.devices[device].make(moment, operation)
    }

    /// The device is lost from now on.
    pub fn lose(&mut self, device: u8)
        requires { device < (shape_of self.old).devices }
        ensures zones { KeepsTracks (views_of self.old) (views_of self.new) }
        ensures shape { shape_of self.new ≡ shape_of self.old }
        ensures failures { AllKeepFailures (views_of self.old) (views_of self.new) }
        ensures lost { lost_in (views_of self.new) ≡ with_lost device true (views_of self.old) }
    {
        let device = usize::from(device);
        self.devices[device].lose();
    }

    /// Counts a failed call on the device and notes its moment.
    pub fn fail(&mut self, moment: u64, device: u8)
        requires { device < (shape_of self.old).devices }
        ensures shape { shape_of self.new ≡ shape_of self.old }
        ensures fault { NotesFault device moment (views_of self.old) (views_of self.new) }
    {
        let device = usize::from(device);
        self.devices[device].fail(moment);
    }
}
