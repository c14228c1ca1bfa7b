//! A bay that counts its calls, and tells nothing of what it holds: so each call of a set may be made on it.

ghost use Rattle.std.specs.Prelude.{◌≡◌, ◌<◌, true};
ghost use Rattle.bay_memory.specs.MemoryBay.{bay_shape};

use bay_memory::{Image, Keep, MemoryBay};
use smore_base::BLOCK_BYTES;
use zone_bay::{Bay, Failed};

/// Bytes of a block.
const BLOCK: usize = BLOCK_BYTES as usize;

/// Devices have numbers below this one.
const DEVICES: usize = 256;

/// An array in memory, of which what is held isn't told. A call that it has no room for, or that reads more than it holds,
/// fails.
#[derive(Drop)]
pub(crate) struct UntoldBay {
    bay: MemoryBay,
    devices: u8,
    zones: u16,
    blocks: u32,
    moment: u64,
    reads: u64,
    /// How often each device has failed.
    faults: [u64; DEVICES],
    /// The call of the array in which what is firm is kept.
    asked: Option<u64>,
    kept: Option<Image>,
}

impl UntoldBay {
    ghost use Rattle.zone_bay.specs.Counts.{CountsCall};

    /// The array as it is. Of the call that is asked for, the image of what is firm then is kept.
    pub(crate) fn new(bay: MemoryBay, asked: Option<u64>) -> UntoldBay {
        UntoldBay {
            devices: bay.devices(),
            zones: bay.zones(),
            blocks: bay.blocks(),
            bay,
            moment: 0,
            reads: 0,
            faults: [0; DEVICES],
            asked,
            kept: None,
        }
    }

    /// The array.
    pub(crate) fn array(&self) -> &MemoryBay {
        &self.bay
    }

    /// The array, and the image that was asked for, where its call has come.
    pub(crate) fn into_parts(self) -> (MemoryBay, Option<Image>) {
        let UntoldBay { bay, kept, .. } = self;
        (bay, kept)
    }

    /// Keeps the image of what is firm, where the call that is made next is asked for.
    fn begin(&mut self)
        ensures { self.new ≡ record self.old { kept = self.new.kept } }
    {
        if self.asked == Some(self.bay.moment()) {
            self.kept = self.bay.crash(Keep::Firm, &[]).ok();
        }
    }

    /// Counts a call on the device, and its fault where it has no answer.
    fn tell<T: Drop>(&mut self, device: u8, answer: Option<T>) -> Result<T, Failed>
        ensures call { CountsCall device (⟦<UntoldBay as Bay>⟧.state self.old) (⟦<UntoldBay as Bay>⟧.state self.new) result }
        ensures reads { self.new.reads ≡ self.old.reads }
    {
        let is_late = self.moment == u64::MAX;
        self.moment = self.moment.saturating_add(1);
        match answer {
            Some(answer) if !is_late => Ok(answer),
            _ => {
                let device = usize::from(device);
                self.faults[device] = self.faults[device].saturating_add(1);
                Err(Failed)
            }
        }
    }
}

impl Bay for UntoldBay {
    ghost use Rattle.std.specs.Prelude.{slice_index};
    ghost use Rattle.zone_bay.specs.Counts.{counts_alone, counts_are_sound};

    ghost state = { λ bay. counts_alone (record { shape = record { devices = bay.devices; zones = bay.zones; blocks = bay.blocks }; faults = λ device. slice_index bay.faults device; moment = bay.moment; reads = bay.reads }) };

    ghost sound = { λ bay. counts_are_sound _ };

    fn devices(&self) -> u8 {
        self.devices
    }

    fn zones(&self) -> u16 {
        self.zones
    }

    fn blocks(&self) -> u32 {
        self.blocks
    }

    fn moment(&self) -> u64 {
        self.moment
    }

    fn written(&mut self, device: u8, zone: u16) -> Result<u32, Failed> {
        self.begin();
        let bytes = written_in(&mut self.bay, device, zone);
        self.tell(device, bytes)
    }

    fn read(&mut self, device: u8, zone: u16, at: u32, out: &mut [u8]) -> Result<(), Failed> {
        self.begin();
        if u32::from(device) + 1 < u32::from(self.devices) {
            self.reads = self.reads.saturating_add(1);
        }
        let done = read_in(&mut self.bay, device, zone, at, out);
        self.tell(device, done)
    }

    fn append(&mut self, device: u8, zone: u16, bytes: &[u8]) -> Result<(), Failed> {
        self.begin();
        let done = append_in(&mut self.bay, device, zone, bytes);
        self.tell(device, done)
    }

    fn reset(&mut self, device: u8, zone: u16) -> Result<(), Failed> {
        self.begin();
        let done = reset_in(&mut self.bay, device, zone);
        self.tell(device, done)
    }

    fn flush(&mut self, device: u8) -> Result<(), Failed> {
        self.begin();
        let done = flush_in(&mut self.bay, device);
        self.tell(device, done)
    }

    fn replace(&mut self, device: u8) -> Result<(), Failed> {
        self.begin();
        let done = replace_in(&mut self.bay, device);
        self.tell(device, done)
    }
}

fn has_zone(bay: &MemoryBay, device: u8, zone: u16) -> bool
    ensures { result ≡ true → (device < (bay_shape bay.now).devices) × (zone < (bay_shape bay.now).zones) }
{
    device < bay.devices() && zone < bay.zones()
}

fn written_in(bay: &mut MemoryBay, device: u8, zone: u16) -> Option<u32> {
    if !has_zone(bay, device, zone) {
        return None;
    }
    bay.written(device, zone).ok()
}

/// Reads where the zone holds so many bytes.
fn read_in(bay: &mut MemoryBay, device: u8, zone: u16, at: u32, out: &mut [u8]) -> Option<()> {
    if !has_zone(bay, device, zone) {
        return None;
    }
    if (at as usize).saturating_add(out.len()) > bay.held(device, zone).len() {
        return None;
    }
    bay.read(device, zone, at, out).ok()
}

/// Appends where the zone has room.
fn append_in(bay: &mut MemoryBay, device: u8, zone: u16, bytes: &[u8]) -> Option<()> {
    if !has_zone(bay, device, zone) {
        return None;
    }
    let room = BLOCK * bay.blocks() as usize;
    if bay.held(device, zone).len().saturating_add(bytes.len()) > room {
        return None;
    }
    bay.append(device, zone, bytes).ok()
}

fn reset_in(bay: &mut MemoryBay, device: u8, zone: u16) -> Option<()> {
    if !has_zone(bay, device, zone) {
        return None;
    }
    bay.reset(device, zone).ok()
}

fn flush_in(bay: &mut MemoryBay, device: u8) -> Option<()> {
    if device >= bay.devices() {
        return None;
    }
    bay.flush(device).ok()
}

fn replace_in(bay: &mut MemoryBay, device: u8) -> Option<()> {
    if device >= bay.devices() {
        return None;
    }
    bay.replace(device).ok()
}
