use crate::change::Change;
use crate::device_files::DeviceFiles;
use crate::paths::{device_path, make_folder, path_in, sync_folder};
use crate::shape_line::ShapeLine;
use std::fs::{self, File, Metadata, OpenOptions};
use std::io::{self, ErrorKind};
use std::os::unix::fs::{FileExt, MetadataExt};
use std::rt::Files;

/// The folder of an array that this program alone has: the file `bay`, which tells its shape, and a folder for each device.
#[derive(Drop)]
pub(crate) struct Folder<R> {
    rt: R,
    path: String,
    devices: Vec<DeviceFiles>,
    /// The file `bay`, which is locked while it is open.
    lock: File,
}

impl<R: Files<File = File> + AllocGlobal + Drop> Folder<R> {
    /// Opens the folder of an array, and tells its shape.
    pub(crate) fn open(rt: R, path: &str) -> io::Result<(ShapeLine, Folder<R>)> {
        let (lock, line) = locked_bay(&rt, path)?;
        sync_folder(&rt, path)?;
        let folder = Folder::of(rt, path, line, lock)?;
        Ok((line, folder))
    }

    /// Makes the folder of an array of this shape. Files of zones that are there stay.
    pub(crate) fn make(rt: R, path: &str, line: ShapeLine) -> io::Result<Folder<R>> {
        let lock = make_array(&rt, path, line)?;
        Folder::of(rt, path, line, lock)
    }

    fn of(rt: R, path: &str, line: ShapeLine, lock: File) -> io::Result<Folder<R>> {
        let mut devices = Vec::new(rt.alloc());
        for device in 0..line.devices {
            devices.push(DeviceFiles::new(&rt, path, device, line)?)?;
        }
        let path = String::from_str(rt.alloc(), path)?;
        Ok(Folder {
            rt,
            path,
            devices,
            lock,
        })
    }

    /// The number of bytes that a zone holds. Here and below `None` where the call fails.
    pub(crate) fn written(&self, device: u8, zone: u16) -> Option<u32> {
        let files = self.devices.get(usize::from(device))?;
        files.written(&self.rt, zone)
    }

    /// Fills `out` with a zone's bytes from `at` on.
    pub(crate) fn read(&mut self, device: u8, zone: u16, at: u32, out: &mut [u8]) -> Option<()> {
        let files = self.devices.get_mut(usize::from(device))?;
        files.read(&self.rt, zone, at, out)
    }

    /// Makes the change of the device.
    pub(crate) fn change(&mut self, device: u8, change: Change<'_>) -> Option<()> {
        let files = self.devices.get_mut(usize::from(device))?;
        files.change(&self.rt, self.path.as_str(), change)
    }
}

fn in_use() -> io::Error {
    io::Error::from(ErrorKind::WouldBlock)
}

/// What the path leads to, which must be a file: one that isn't, as a pipe, could keep an opening waiting.
fn file_at<R: Files>(rt: &R, path: &str) -> io::Result<Metadata> {
    let about = fs::metadata(rt, path)?;
    if about.is_file() {
        Ok(about)
    } else {
        Err(io::Error::from(ErrorKind::InvalidData))
    }
}

/// The file, which was opened by this path, once this program alone holds it.
fn locked<R: Files>(rt: &R, file: File, path: &str) -> io::Result<File> {
    if file.try_lock().is_err() {
        return Err(in_use());
    }
    // another program may have put a new file in its place since
    let held = file.metadata()?;
    let named = file_at(rt, path)?;
    if held.dev() == named.dev() && held.ino() == named.ino() {
        Ok(file)
    } else {
        Err(in_use())
    }
}

/// The file `bay` of this folder, which this program alone holds now, and the shape that it tells.
fn locked_bay<R: Files<File = File> + AllocGlobal>(
    rt: &R,
    folder: &str,
) -> io::Result<(File, ShapeLine)> {
    let path = path_in(rt, folder, "bay")?;
    let _there = file_at(rt, path.as_str())?;
    let mut file = locked(rt, fs::open(rt, path.as_str())?, path.as_str())?;
    let line = ShapeLine::read(rt, &mut file)?;
    Ok((file, line))
}

/// The file `bay`, where there is one.
fn locked_if_there<R: Files<File = File> + AllocGlobal>(
    rt: &R,
    folder: &str,
) -> io::Result<Option<File>> {
    match locked_bay(rt, folder) {
        Ok((file, _)) => Ok(Some(file)),
        Err(error) if error.kind() == ErrorKind::NotFound => Ok(None),
        Err(error) => Err(error),
    }
}

/// Makes the folder of an array of this shape, and holds its lock. Where an array is in use elsewhere, or a file has the name
/// of one of its own and isn't one, nothing is touched. The file `bay` comes last, once all else is durable, so that no half
/// of an array is ever opened.
fn make_array<R: Files<File = File> + AllocGlobal>(
    rt: &R,
    folder: &str,
    line: ShapeLine,
) -> io::Result<File> {
    make_folder(rt, folder)?;
    let held = locked_if_there(rt, folder)?;
    let new = path_in(rt, folder, "bay.new")?;
    let file = new_line(rt, new.as_str())?;
    sync_folder(rt, path_in(rt, folder, "..")?.as_str())?;
    for device in 0..line.devices {
        make_folder(rt, device_path(rt, folder, device)?.as_str())?;
    }
    sync_folder(rt, folder)?;
    let path = path_in(rt, folder, "bay")?;
    // while no other program can put one there
    if held.is_none() && fs::exists(rt, path.as_str())? {
        return Err(in_use());
    }
    let file = with_line(rt, file, line)?;
    fs::rename(rt, new.as_str(), path.as_str())?;
    sync_folder(rt, folder)?;
    Ok(file)
}

/// Opens the file of a new line, which this program alone holds then. One that is there must be left by a program that was
/// stopped at this.
fn new_line<R: Files<File = File> + AllocGlobal>(rt: &R, path: &str) -> io::Result<File> {
    if fs::exists(rt, path)? {
        let _there = file_at(rt, path)?;
    }
    let file = OpenOptions::new()
        .read(true)
        .write(true)
        .create(true)
        .open(rt, path)?;
    let mut file = locked(rt, file, path)?;
    if ShapeLine::is_begun(&mut file)? {
        Ok(file)
    } else {
        Err(io::Error::from(ErrorKind::InvalidData))
    }
}

/// Puts the line into its file, durably.
fn with_line<R: AllocGlobal>(rt: &R, file: File, line: ShapeLine) -> io::Result<File> {
    let text = line.text(rt)?;
    file.set_len(0)?;
    file.write_all_at(text.as_bytes(), 0)?;
    file.sync_all()?;
    Ok(file)
}
