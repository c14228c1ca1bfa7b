use crate::array::{BLOCK, append_block, image_of, zone_of};
use crate::difference::{Difference, differ};
use crate::does::Does;
use crate::fault::Fault;
use crate::line::Line;
use crate::text::word_of;
use crate::twist::Twist;
use bay_memory::{Keep, MemoryBay};
use smore_base::Geometry;
use std::alloc::Global;
use zone_bay::Bay;

/// A bay in the course of a segment.
#[derive(Drop)]
pub struct Stage {
    pub alloc: Global,
    pub geometry: Geometry,
    pub twist: Twist,
    /// The drives that are chosen.
    pub chosen: Vec<u8>,
    pub bay: MemoryBay,
    /// The call at which what is firm is kept.
    pub asked: Option<u64>,
    pub differences: Vec<Difference>,
}

impl Stage {
    /// The bay as it is, with the drives that are chosen.
    pub fn new(
        alloc: Global,
        geometry: Geometry,
        twist: Twist,
        chosen: &[u8],
        bay: &MemoryBay,
    ) -> Result<Stage, Fault> {
        Ok(Stage {
            alloc,
            geometry,
            twist,
            chosen: Vec::from_slice(alloc, chosen)?,
            bay: image_of(alloc, bay, Keep::All, &[])?,
            asked: None,
            differences: Vec::new(alloc),
        })
    }

    /// A line of which something else was wanted than came, where the texts aren't the same.
    pub fn differ(&mut self, line: &Line, wanted: &str, got: &str) -> Result<(), Fault> {
        differ(self.alloc, &mut self.differences, line, wanted, got)
    }

    /// Chooses the call that fails or stops.
    pub fn twist(&mut self) -> Result<(), Fault> {
        match self.twist {
            Twist::Fails(call) => self.bay.fail_at(&[call])?,
            Twist::Stops(call, bytes) => self.bay.image_at(call, bytes),
            Twist::StopsFirm(call) => self.asked = Some(call),
            _ => {}
        }
        Ok(())
    }

    /// Plays a line that any row may have.
    pub fn act(&mut self, line: &Line) -> Result<(), Fault> {
        match line.does {
            Does::ZoneBlocks => self.zone_is(line, BLOCK, "blocks"),
            Does::ZoneBytes => self.zone_is(line, 1, "bytes"),
            Does::ZoneFrom => self.zone_from(line),
            Does::Fail => Ok(self.bay.fail_at(&line.numbers)?),
            Does::Lose => self.lose(&[line.number_u8(0)]),
            Does::LoseEach => self.lose_chosen(),
            Does::CrashFirm => self.crash(Keep::Firm, &[]),
            Does::CrashAll => self.crash(Keep::All, &[]),
            Does::CrashShort => self.crash(short_of(line), &[]),
            Does::Without => self.without(line),
            Does::WithoutEach => self.without_chosen(),
            Does::Block => self.block(line),
            _ => Ok(()),
        }
    }

    fn lose(&mut self, devices: &[u8]) -> Result<(), Fault> {
        for device in devices {
            if *device < self.bay.devices() {
                self.bay.lose(*device);
            }
        }
        Ok(())
    }

    fn lose_chosen(&mut self) -> Result<(), Fault> {
        let chosen = Vec::from_slice(self.alloc, &self.chosen)?;
        self.lose(&chosen)
    }

    /// The bay becomes an image, whose calls are counted from 0.
    fn crash(&mut self, keep: Keep, removed: &[u8]) -> Result<(), Fault> {
        self.bay = image_of(self.alloc, &self.bay, keep, removed)?;
        Ok(())
    }

    fn without(&mut self, line: &Line) -> Result<(), Fault> {
        let mut devices = Vec::new(self.alloc);
        for number in &line.numbers {
            if let Ok(device) = u8::try_from(*number) {
                devices.push(device)?;
            }
        }
        self.crash(Keep::All, &devices)
    }

    fn without_chosen(&mut self) -> Result<(), Fault> {
        let chosen = Vec::from_slice(self.alloc, &self.chosen)?;
        self.crash(Keep::All, &chosen)
    }

    fn block(&mut self, line: &Line) -> Result<(), Fault> {
        let device = line.number_u8(0);
        let zone = line.number_u16(1);
        if append_block(&mut self.bay, device, zone, line.bytes(0)) {
            return Ok(());
        }
        self.differ(line, "a block", "no room for it")
    }

    /// Compares the length of a zone, in units of so many bytes.
    fn zone_is(&mut self, line: &Line, unit: usize, name: &str) -> Result<(), Fault> {
        let alloc = self.alloc;
        let held = zone_of(&self.bay, line.number_u8(0), line.number_u16(1)).len();
        let count = line.size(2);
        if count.checked_mul(unit) == Some(held) {
            return Ok(());
        }
        let wanted = format!(in alloc; "{count} {name}")?;
        let got = format!(in alloc; "{held} bytes")?;
        self.differ(line, &wanted, &got)
    }

    /// Compares the bytes of a zone from one on.
    fn zone_from(&mut self, line: &Line) -> Result<(), Fault> {
        let alloc = self.alloc;
        let held = zone_of(&self.bay, line.number_u8(0), line.number_u16(1));
        let behind = match held.get(line.size(2)..) {
            Some(behind) => behind,
            None => &[],
        };
        let got = match behind.get(..line.bytes(0).len()) {
            Some(got) => got,
            None => behind,
        };
        let got = word_of(alloc, got)?;
        let wanted = word_of(alloc, line.bytes(0))?;
        self.differ(line, &wanted, &got)
    }
}

/// What a crash leaves that cuts one zone.
fn short_of(line: &Line) -> Keep {
    Keep::Short {
        device: line.number_u8(0),
        zone: line.number_u16(1),
        bytes: line.number_u32(2),
    }
}
