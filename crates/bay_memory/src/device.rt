ghost use Rattle.std.specs.Prelude.{◌≡◌, ◌<◌, ◌≤◌, true, false, length, map, replicate, IfOk};
ghost use Rattle.zone_bay.specs.Outside.{counted};
ghost use Rattle.bay_memory.specs.Past.{now, changed_by, blank_track};
ghost use Rattle.bay_memory.specs.Zone.{track_of};
ghost use Rattle.bay_memory.specs.Operation.{call_of, ZoneIn};
ghost use Rattle.bay_memory.specs.Device.{view_of, view_with, track_in, AreSteady, ZonesGo, DeviceMakes, NotesFailure, KeepsFailures};

use crate::change::Change;
use crate::operation::Operation;
use crate::zone::Zone;
use std::alloc::{AllocError, Global};

/// A device: its zones, and when calls on it failed.
#[derive(Drop)]
pub(crate) struct Device {
    zones: Vec<Zone>,
    /// How often it failed.
    faults: u64,
    /// The moments at which it failed, but for those for which no memory was found.
    failed: Vec<u64>,
    /// The first of those.
    unnoted: Option<u64>,
    /// Whether all calls on it fail until it is replaced.
    lost: bool,
}

/// This many zones that hold nothing.
fn blank_zones(alloc: Global, zones: u16) -> Result<Vec<Zone>, AllocError>
    ensures { IfOk result (λ blank. map track_of blank.items ≡ replicate zones blank_track) }
{
    let mut blank = Vec::new(alloc);
    for _zone in 0..zones {
        blank.push(Zone::blank(alloc))?;
    }
    Ok(blank)
}

fn change_each(zones: &mut [Zone], moment: u64, change: Change)
    requires { AreSteady moment (map track_of zones.old) }
    ensures { ZonesGo moment (λ _. changed_by change) (map track_of zones.old) (map track_of zones.new) }
{
    for zone in zones.iter_mut() {
        zone.change(moment, change);
    }
}

impl Device {
    /// A device whose zones hold nothing.
    pub fn blank(alloc: Global, zones: u16) -> Result<Device, AllocError>
        ensures { IfOk result (λ device. view_of device ≡ view_with (replicate zones blank_track)) }
    {
        Ok(Device::of(alloc, blank_zones(alloc, zones)?))
    }

    /// A working device with these zones.
    pub fn of(alloc: Global, zones: Vec<Zone>) -> Device
        ensures { view_of result ≡ view_with (map track_of zones.items) }
    {
        Device {
            zones,
            faults: 0,
            failed: Vec::new(alloc),
            unnoted: None,
            lost: false,
        }
    }

    /// The bytes that a zone holds.
    pub fn held(&self, zone: usize) -> &[u8]
        requires { zone < length (view_of self.now).tracks }
        ensures { result.now ≡ (now (track_in (view_of self.now).tracks zone)).bytes }
    {
        self.zones[zone].held()
    }

    /// How many of them are firm.
    pub fn firm(&self, zone: usize) -> usize
        requires { zone < length (view_of self.now).tracks }
        ensures { result ≡ (now (track_in (view_of self.now).tracks zone)).firm }
    {
        self.zones[zone].firm()
    }

    pub fn is_lost(&self) -> bool
        ensures { result ≡ (view_of self.now).lost }
    {
        self.lost
    }

    /// Makes a call on it, all of it or nothing. Only an append needs memory.
    pub fn make(&mut self, moment: u64, operation: Operation<'_>) -> Result<(), AllocError>
        requires zone_in { ZoneIn (call_of operation) (length (view_of self.old).tracks) }
        requires steady { AreSteady moment (view_of self.old).tracks }
        ensures { DeviceMakes moment (call_of operation.entry) (view_of self.old) (view_of self.new) result }
    {
        match operation {
            Operation::Written { .. } | Operation::Read { .. } => {}
            Operation::Append(put) => {
                return self.zones[usize::from(put.zone)].append(moment, put.bytes);
            }
            Operation::Reset { zone, .. } => {
                self.zones[usize::from(zone)].change(moment, Change::Reset);
            }
            Operation::Flush { .. } => change_each(&mut self.zones, moment, Change::Flush),
            Operation::Replace { .. } => {
                change_each(&mut self.zones, moment, Change::Reset);
                self.lost = false;
            }
        }
        Ok(())
    }

    /// It is lost from now on.
    pub fn lose(&mut self)
        ensures zones { (view_of self.new).tracks ≡ (view_of self.old).tracks }
        ensures failures { KeepsFailures (view_of self.old) (view_of self.new) }
        ensures lost { (view_of self.new).lost ≡ true }
    {
        self.lost = true;
    }

    /// Counts a failed call and notes its moment.
    pub fn fail(&mut self, moment: u64)
        ensures zones { (view_of self.new).tracks ≡ (view_of self.old).tracks }
        ensures faults { (view_of self.new).faults ≡ counted (view_of self.old).faults }
        ensures no_fewer { (view_of self.old).faults ≤ (view_of self.new).faults }
        ensures failures { NotesFailure moment (view_of self.old) (view_of self.new) }
        ensures lost { (view_of self.new).lost ≡ (view_of self.old).lost }
    {
        self.faults = self.faults.saturating_add(1);
        if self.failed.push(moment).is_err() {
            self.unnoted = match self.unnoted {
                Some(first) if first <= moment => Some(first),
                _ => Some(moment),
            };
        }
    }
}

#[cfg(test)]
mod tests {
    use super::*;
    use std::test::Fail;

    #[test]
    fn failures_are_noted(rt: HostRuntime) -> Result<(), Fail> {
        let mut device = Device::blank(rt.alloc(), 1)?;
        let mut other = Device::blank(rt.alloc(), 1)?;
        device.fail(3);
        device.fail(4);
        other.fail(6);
        device.fail(9);
        assert_eq!(rt; device.failed.as_slice(), [3, 4, 9].as_slice());
        assert_eq!(rt; (device.faults, device.unnoted), (3, None));
        assert_eq!(rt; other.failed.as_slice(), [6].as_slice());
        assert_eq!(rt; (other.faults, other.unnoted), (1, None));
        Ok(())
    }
}
