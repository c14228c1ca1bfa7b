ghost use Rattle.std.specs.Prelude.{◌≡◌, ◌≤◌, MatchOption, IsSome, IfSome, None};
ghost use Rattle.bay_files.specs.declared.counts.TheConstants.{MAX_DEVICES};

use crate::counts::MAX_DEVICES;
use smore_base::{Geometry, MAX_BLOCKS, MAX_ZONES, MIN_BLOCKS, MIN_ZONES};
use std::alloc::AllocError;
use std::fs::File;
use std::io::{self, ErrorKind, Read};

/// More bytes than the line of a shape has.
const LINE_BYTES: usize = 64;

/// The numbers that the file `bay` tells.
#[derive(Clone, Copy)]
pub(crate) struct ShapeLine {
    pub(crate) devices: u8,
    pub(crate) zones: u16,
    pub(crate) blocks: u32,
    ghost few: { devices ≤ MAX_DEVICES },
}

impl ShapeLine {
    ghost use Rattle.smore_base.specs.Geometry.{first_fault};
    ghost use Rattle.bay_files.specs.Counts.{shape_in};
    ghost use Rattle.bay_files.specs.FileBay.{shape_of};

    /// No device, zone or block.
    pub(crate) const NONE: ShapeLine = ShapeLine {
        devices: 0,
        zones: 0,
        blocks: 0,
    };

    /// The shape of an array with this geometry, unless that breaks a limit.
    pub(crate) fn of(geometry: &Geometry) -> Option<ShapeLine>
        ensures { MatchOption (first_fault geometry.now) (IfSome result (λ line. shape_in line ≡ shape_of geometry.now) × IsSome result) (λ _. result ≡ None) }
    {
        match geometry.check() {
            Ok(()) => Some(ShapeLine {
                devices: geometry.drives + 1,
                zones: geometry.zones,
                blocks: geometry.blocks,
            }),
            Err(_) => None,
        }
    }

    pub(crate) fn text<R: AllocGlobal>(&self, rt: &R) -> Result<String, AllocError> {
        let ShapeLine {
            devices,
            zones,
            blocks,
        } = *self;
        format!(in rt.alloc(); "{devices} {zones} {blocks}\n")
    }

    /// The shape that the file tells.
    pub(crate) fn read<R: AllocGlobal>(rt: &R, file: &mut File) -> io::Result<ShapeLine> {
        let mut bytes = [0; LINE_BYTES];
        let count = file.read(&mut bytes)?;
        let text = String::from_utf8_lossy(rt.alloc(), bytes.get(..count).unwrap_or(&[]))?;
        match ShapeLine::parse(rt, text.as_str())? {
            Some(line) => Ok(line),
            None => Err(io::Error::from(ErrorKind::InvalidData)),
        }
    }

    /// Whether the file may have a first part of a line: nothing but digits, spaces and a line end.
    pub(crate) fn is_begun(file: &mut File) -> io::Result<bool> {
        let mut bytes = [0; LINE_BYTES];
        let count = file.read(&mut bytes)?;
        let begun = bytes.get(..count).unwrap_or(&[]);
        let is_plain = begun
            .iter()
            .all(|byte| matches!(*byte, b'0'..=b'9' | b' ' | b'\n'));
        Ok(count < LINE_BYTES && is_plain)
    }

    /// The shape whose line the text is.
    fn parse<R: AllocGlobal>(rt: &R, text: &str) -> Result<Option<ShapeLine>, AllocError> {
        let words: Vec<&str> = text.split_whitespace().collect(rt.alloc())?;
        let [devices, zones, blocks] = words.as_slice() else {
            return Ok(None);
        };
        let (Ok(devices), Ok(zones), Ok(blocks)) = (
            devices.parse::<u8>(),
            zones.parse::<u16>(),
            blocks.parse::<u32>(),
        ) else {
            return Ok(None);
        };
        if usize::from(devices) > MAX_DEVICES
            || !(MIN_ZONES..=MAX_ZONES).contains(&zones)
            || !(MIN_BLOCKS..=MAX_BLOCKS).contains(&blocks)
        {
            return Ok(None);
        }
        let line = ShapeLine {
            devices,
            zones,
            blocks,
        };
        // no other spelling
        if line.text(rt)?.as_str() == text {
            Ok(Some(line))
        } else {
            Ok(None)
        }
    }
}
