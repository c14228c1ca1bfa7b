use crate::change::Change;
use crate::paths::{device_path, sync_folder, unless, zone_path};
use crate::shape_line::ShapeLine;
use crate::zone_file::{ZoneFile, length_of};
use smore_base::{BLOCK_BYTES, MAX_ZONES};
use std::alloc::AllocError;
use std::collections::BTreeMap;
use std::fs::{self, File};
use std::io::{self, ErrorKind};
use std::rt::Files;

/// Files of zones that are open at a time, at most, of all devices. The program has a few others.
const MAX_OPEN: usize = 240;

/// The folder of a device, and the files in it. Files that were used stay open.
#[derive(Drop)]
pub(crate) struct DeviceFiles {
    folder: String,
    zones: u16,
    /// Bytes of a zone, at most.
    room: u64,
    open: BTreeMap<u16, ZoneFile>,
    most_open: usize,
    /// How often its files were used.
    uses: u64,
    /// A file was made since the folder was synced.
    has_new_file: bool,
    /// A sync failed, or a change stopped halfway, so that nobody knows what a crash would leave. Until the device is replaced
    /// each other call fails.
    is_broken: bool,
}

impl DeviceFiles {
    /// The files of a device in the array's folder. What they hold is made durable: a program that was stopped may have left
    /// it otherwise.
    pub(crate) fn new<R: Files<File = File> + AllocGlobal>(
        rt: &R,
        array_folder: &str,
        device: u8,
        line: ShapeLine,
    ) -> Result<DeviceFiles, AllocError> {
        let mut files = DeviceFiles {
            folder: device_path(rt, array_folder, device)?,
            zones: line.zones,
            room: u64::from(line.blocks) * u64::from(BLOCK_BYTES),
            open: BTreeMap::new(rt.alloc()),
            most_open: MAX_OPEN / usize::from(line.devices).max(1),
            uses: 0,
            has_new_file: false,
            is_broken: false,
        };
        files.is_broken = files.sync_whole(rt).is_err();
        Ok(files)
    }

    fn path<R: AllocGlobal>(&self, rt: &R, zone: u16) -> Result<String, AllocError> {
        zone_path(rt, self.folder.as_str(), zone)
    }

    fn sync_whole<R: Files<File = File> + AllocGlobal>(&self, rt: &R) -> io::Result<()> {
        for zone in 0..self.zones {
            self.sync_zone(rt, zone)?;
        }
        unless(ErrorKind::NotFound, sync_folder(rt, self.folder.as_str()))
    }

    fn sync_zone<R: Files<File = File> + AllocGlobal>(&self, rt: &R, zone: u16) -> io::Result<()> {
        let path = self.path(rt, zone)?;
        match ZoneFile::open(rt, path.as_str(), self.room)? {
            Some(file) => file.sync_whole(),
            None => Ok(()),
        }
    }

    /// The number of bytes that the zone holds: none where it has no file. Here and below `None` where the call fails.
    pub(crate) fn written<R: Files<File = File> + AllocGlobal>(
        &self,
        rt: &R,
        zone: u16,
    ) -> Option<u32> {
        if self.is_broken {
            return None;
        }
        let length = match self.open.get(&zone) {
            Some(file) => file.length(self.room),
            None => self.length_on_disk(rt, zone),
        };
        u32::try_from(length.ok()?).ok()
    }

    fn length_on_disk<R: Files<File = File> + AllocGlobal>(
        &self,
        rt: &R,
        zone: u16,
    ) -> io::Result<u64> {
        let path = self.path(rt, zone)?;
        match fs::metadata(rt, path.as_str()) {
            Ok(about) => length_of(&about, self.room),
            Err(error) if error.kind() == ErrorKind::NotFound => Ok(0),
            Err(error) => Err(error),
        }
    }

    /// Fills `out` with the zone's bytes from `at` on.
    pub(crate) fn read<R: Files<File = File> + AllocGlobal>(
        &mut self,
        rt: &R,
        zone: u16,
        at: u32,
        out: &mut [u8],
    ) -> Option<()> {
        if self.is_broken {
            return None;
        }
        self.read_zone(rt, zone, at, out).ok()
    }

    /// Makes the change.
    pub(crate) fn change<R: Files<File = File> + AllocGlobal>(
        &mut self,
        rt: &R,
        array_folder: &str,
        change: Change<'_>,
    ) -> Option<()> {
        if self.is_broken && !matches!(change, Change::Replace) {
            return None;
        }
        let answer = match change {
            Change::Append(zone, bytes) => return self.append(rt, zone, bytes).ok(),
            Change::Reset(zone) => self.reset(rt, zone),
            Change::Flush => self.flush(rt),
            Change::Replace => self.replace(rt, array_folder),
        };
        self.is_broken = answer.is_err();
        answer.ok()
    }

    /// Sees that one more file can be opened: where there are too many, closes the one whose last use is longest ago.
    fn make_room(&mut self) -> io::Result<()> {
        if self.open.len() < self.most_open {
            return Ok(());
        }
        let oldest = self
            .open
            .iter()
            .map(|(zone, file)| (file.last_use, *zone))
            .min();
        let Some((_, zone)) = oldest else {
            return Ok(());
        };
        match self.open.remove(&zone) {
            Some(mut file) => {
                let answer = file.sync();
                self.is_broken = answer.is_err();
                answer
            }
            None => Ok(()),
        }
    }

    /// Opens the zone's file, unless it is open or isn't there.
    fn open<R: Files<File = File> + AllocGlobal>(&mut self, rt: &R, zone: u16) -> io::Result<()> {
        self.uses = self.uses.saturating_add(1);
        if let Some(file) = self.open.get_mut(&zone) {
            file.last_use = self.uses;
            return Ok(());
        }
        let path = self.path(rt, zone)?;
        if let Some(mut file) = ZoneFile::open(rt, path.as_str(), self.room)? {
            file.last_use = self.uses;
            self.make_room()?;
            self.open.insert(zone, file)?;
        }
        Ok(())
    }

    /// Opens the zone's file, and makes it where it isn't there.
    fn open_or_make<R: Files<File = File> + AllocGlobal>(
        &mut self,
        rt: &R,
        zone: u16,
    ) -> io::Result<()> {
        self.open(rt, zone)?;
        if self.open.contains_key(&zone) {
            return Ok(());
        }
        self.make_room()?;
        let path = self.path(rt, zone)?;
        let mut file = ZoneFile::make(rt, path.as_str())?;
        self.has_new_file = true;
        file.last_use = self.uses;
        self.open.insert(zone, file)?;
        Ok(())
    }

    fn read_zone<R: Files<File = File> + AllocGlobal>(
        &mut self,
        rt: &R,
        zone: u16,
        at: u32,
        out: &mut [u8],
    ) -> io::Result<()> {
        self.open(rt, zone)?;
        match self.open.get(&zone) {
            Some(file) => file.read(u64::from(at), out, self.room),
            None if at == 0 && out.is_empty() => Ok(()),
            None => Err(io::Error::from(ErrorKind::UnexpectedEof)),
        }
    }

    fn append<R: Files<File = File> + AllocGlobal>(
        &mut self,
        rt: &R,
        zone: u16,
        bytes: &[u8],
    ) -> io::Result<()> {
        self.open_or_make(rt, zone)?;
        match self.open.get_mut(&zone) {
            Some(file) => file.append(bytes, self.room),
            None => Err(io::Error::from(ErrorKind::NotFound)),
        }
    }

    /// Empties the zone, durably.
    fn reset<R: Files<File = File> + AllocGlobal>(&mut self, rt: &R, zone: u16) -> io::Result<()> {
        self.open(rt, zone)?;
        match self.open.get_mut(&zone) {
            Some(file) => file.clear(),
            None => Ok(()),
        }
    }

    /// Makes durable all that was appended to the device, and which files its folder has.
    fn flush<R: Files<File = File>>(&mut self, rt: &R) -> io::Result<()> {
        for (_, file) in self.open.iter_mut() {
            file.sync()?;
        }
        if self.has_new_file {
            sync_folder(rt, self.folder.as_str())?;
            self.has_new_file = false;
        }
        Ok(())
    }

    /// Puts an empty folder in the place of the device's, durably. The old one gets another name, so that all of it goes at
    /// once, and is removed then.
    fn replace<R: Files<File = File> + AllocGlobal>(
        &mut self,
        rt: &R,
        array_folder: &str,
    ) -> io::Result<()> {
        let folder = self.folder.as_str();
        let old = format!(in rt.alloc(); "{folder}.old")?;
        // a replacement that was stopped may have left one
        unless(ErrorKind::NotFound, remove_folder(rt, old.as_str()))?;
        // by the slash a file and a link are refused
        let whole = format!(in rt.alloc(); "{folder}/")?;
        unless(
            ErrorKind::NotFound,
            fs::rename(rt, whole.as_str(), old.as_str()),
        )?;
        self.open.clear();
        self.has_new_file = false;
        fs::create_dir(rt, folder)?;
        sync_folder(rt, folder)?;
        sync_folder(rt, array_folder)?;
        // where it can't be removed now, it keeps the next replacement off
        let _ = remove_folder(rt, old.as_str());
        Ok(())
    }
}

/// Removes a device's folder with its files of zones. Where it has anything else, that stays, and so does the folder.
fn remove_folder<R: Files + AllocGlobal>(rt: &R, folder: &str) -> io::Result<()> {
    for zone in 0..MAX_ZONES {
        let path = zone_path(rt, folder, zone)?;
        unless(ErrorKind::NotFound, fs::remove_file(rt, path.as_str()))?;
    }
    fs::remove_dir(rt, folder)
}
