ghost use Rattle.std.specs.Prelude.{◌≡◌, ◌≤◌, ◌+◌, ◌<◌, nat_lt, false, MatchOption};
ghost use Rattle.bay_files.specs.declared.counts.TheConstants.{MAX_DEVICES};

use crate::change::Change;
use crate::counts::Counts;
use crate::folder::Folder;
use crate::shape_line::ShapeLine;
use smore_base::Geometry;
use std::fs::File;
use std::rt::Files;
use zone_bay::{Bay, Failed};

/// A bay over a folder. It doesn't tell what it holds. One program at a time has the folder.
///
/// `docs/FORMATS.md`, "The folder of an array", says what it keeps. All that a flush or a reset has answered is durable as far
/// as the file system keeps what was synced.
#[derive(Drop)]
pub struct FileBay<R> {
    line: ShapeLine,
    counts: Counts,
    /// Where it can't be used each call fails.
    folder: Option<Folder<R>>,
    ghost few: { line.devices ≤ MAX_DEVICES },
}

impl<R: Files<File = File> + AllocGlobal + Drop> FileBay<R> {
    ghost use Rattle.smore_base.specs.Geometry.{first_fault};
    ghost use Rattle.bay_files.specs.Counts.{TellsCall, shape_in};
    ghost use Rattle.bay_files.specs.FileBay.{IsFresh, shape_of, no_devices};

    fn over(line: ShapeLine, folder: Option<Folder<R>>) -> FileBay<R>
        requires { line.devices ≤ MAX_DEVICES }
        ensures { IsFresh (shape_in line) (⟦<FileBay<R> as Bay>⟧.state result) }
    {
        FileBay {
            line,
            counts: Counts::new(),
            folder,
        }
    }

    /// A bay without devices.
    pub fn none() -> FileBay<R>
        ensures fresh { IsFresh no_devices (⟦<FileBay<R> as Bay>⟧.state result) }
    {
        FileBay::over(ShapeLine::NONE, None)
    }

    /// Makes the folder of an array of this geometry in a folder that is there, unless it is there too, and its bay. Files of
    /// zones that are there stay. Where the folder can't be used, or another program has it, each call fails; the bay of a
    /// geometry that breaks a limit has no devices.
    pub fn create(rt: R, folder: &str, geometry: &Geometry) -> FileBay<R>
        ensures fresh { MatchOption (first_fault geometry.now)
            (IsFresh (shape_of geometry.now) (⟦<FileBay<R> as Bay>⟧.state result))
            (λ _. IsFresh no_devices (⟦<FileBay<R> as Bay>⟧.state result)) }
    {
        match ShapeLine::of(geometry) {
            Some(line) => FileBay::over(line, Folder::make(rt, folder, line).ok()),
            None => FileBay::none(),
        }
    }

    /// The bay of a folder. It has no devices where the folder has no array, or another program has it.
    pub fn at(rt: R, folder: &str) -> FileBay<R>
        ensures fresh { IsFresh (⟦<FileBay<R> as Bay>⟧.state result).shape (⟦<FileBay<R> as Bay>⟧.state result) }
    {
        match Folder::open(rt, folder) {
            Ok((line, folder)) => FileBay::over(line, Some(folder)),
            Err(_) => FileBay::none(),
        }
    }

    fn is_drive(&self, device: u8) -> bool
        ensures { result ≡ nat_lt (device + 1) self.now.line.devices }
    {
        u32::from(device) + 1 < u32::from(self.line.devices)
    }

    /// Makes the change, and counts it. At the last moment nothing is changed.
    fn change(&mut self, device: u8, change: Change<'_>) -> Result<(), Failed>
        requires { device < MAX_DEVICES }
        ensures line { self.new.line ≡ self.old.line }
        ensures told { TellsCall device false self.old.counts self.new.counts result }
    {
        let done = match &mut self.folder {
            Some(folder) if self.counts.is_in_time() => folder.change(device, change),
            _ => None,
        };
        self.counts.tell(device, false, done)
    }
}

impl<R: Files<File = File> + AllocGlobal + Drop> Bay for FileBay<R> {
    ghost use Rattle.bay_files.specs.Counts.{shape_in, state_of, is_sound};

    ghost state = { λ b. state_of (shape_in b.line) b.counts };

    ghost sound = { λ b. is_sound (shape_in b.line) b.counts };

    fn devices(&self) -> u8 {
        self.line.devices
    }

    fn zones(&self) -> u16 {
        self.line.zones
    }

    fn blocks(&self) -> u32 {
        self.line.blocks
    }

    fn moment(&self) -> u64 {
        self.counts.moment()
    }

    fn written(&mut self, device: u8, zone: u16) -> Result<u32, Failed> {
        let bytes = match &self.folder {
            Some(folder) => folder.written(device, zone),
            None => None,
        };
        self.counts.tell(device, false, bytes)
    }

    fn read(&mut self, device: u8, zone: u16, at: u32, out: &mut [u8]) -> Result<(), Failed> {
        let is_drive = self.is_drive(device);
        let done = match &mut self.folder {
            Some(folder) => folder.read(device, zone, at, out),
            None => None,
        };
        self.counts.tell(device, is_drive, done)
    }

    fn append(&mut self, device: u8, zone: u16, bytes: &[u8]) -> Result<(), Failed> {
        self.change(device, Change::Append(zone, bytes))
    }

    fn reset(&mut self, device: u8, zone: u16) -> Result<(), Failed> {
        self.change(device, Change::Reset(zone))
    }

    fn flush(&mut self, device: u8) -> Result<(), Failed> {
        self.change(device, Change::Flush)
    }

    fn replace(&mut self, device: u8) -> Result<(), Failed> {
        self.change(device, Change::Replace)
    }
}
