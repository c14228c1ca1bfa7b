use std::fs::{File, OpenOptions};
use std::io::{self, ErrorKind};
use std::os::unix::fs::FileExt;
use std::rt::Files;

/// An open file of a zone.
#[derive(Drop)]
pub(crate) struct ZoneFile {
    file: File,
    /// Bytes that the file has. After an append that failed the file tells.
    length: Option<u64>,
    /// Bytes may have been written since the file was synced.
    is_dirty: bool,
    /// A number that rises with each use of a file of its device.
    pub(crate) last_use: u64,
}

fn wrong_size() -> io::Error {
    io::Error::from(ErrorKind::InvalidData)
}

/// The length of what is to be a zone's file.
pub(crate) fn length_of(about: &std::fs::Metadata, room: u64) -> io::Result<u64> {
    let length = about.len();
    if about.is_file() && length <= room {
        Ok(length)
    } else {
        Err(wrong_size())
    }
}

impl ZoneFile {
    /// Opens the file of a zone that has room for so many bytes; `None` where it isn't there.
    pub(crate) fn open<R: Files<File = File>>(
        rt: &R,
        path: &str,
        room: u64,
    ) -> io::Result<Option<ZoneFile>> {
        let file = match OpenOptions::new().read(true).write(true).open(rt, path) {
            Ok(file) => file,
            Err(error) if error.kind() == ErrorKind::NotFound => return Ok(None),
            Err(error) => return Err(error),
        };
        let length = length_of(&file.metadata()?, room)?;
        Ok(Some(ZoneFile {
            file,
            length: Some(length),
            is_dirty: false,
            last_use: 0,
        }))
    }

    /// Makes the file of a zone, which holds nothing.
    pub(crate) fn make<R: Files<File = File>>(rt: &R, path: &str) -> io::Result<ZoneFile> {
        let file = File::create_new(rt, path)?;
        Ok(ZoneFile {
            file,
            length: Some(0),
            is_dirty: false,
            last_use: 0,
        })
    }

    /// The number of bytes that the zone holds.
    pub(crate) fn length(&self, room: u64) -> io::Result<u64> {
        match self.length {
            Some(length) => Ok(length),
            None => length_of(&self.file.metadata()?, room),
        }
    }

    /// Fills `out` with the bytes from `at` on, all of which the zone must hold.
    pub(crate) fn read(&self, at: u64, out: &mut [u8], room: u64) -> io::Result<()> {
        let end = at.saturating_add(out.len() as u64);
        if end > self.length(room)? {
            return Err(io::Error::from(ErrorKind::UnexpectedEof));
        }
        self.file.read_exact_at(out, at)
    }

    /// Puts the bytes at the end, in one call of the system where it takes them. Where it fails, a first part of them may
    /// stand there.
    pub(crate) fn append(&mut self, bytes: &[u8], room: u64) -> io::Result<()> {
        let length = self.length(room)?;
        let end = length.saturating_add(bytes.len() as u64);
        if end > room {
            return Err(wrong_size());
        }
        self.is_dirty = true;
        self.length = None;
        self.file.write_all_at(bytes, length)?;
        self.length = Some(end);
        Ok(())
    }

    /// Empties the zone, durably.
    pub(crate) fn clear(&mut self) -> io::Result<()> {
        self.is_dirty = true;
        self.length = None;
        self.file.set_len(0)?;
        self.file.sync_all()?;
        self.length = Some(0);
        self.is_dirty = false;
        Ok(())
    }

    /// Makes durable what the file has. A file that couldn't be synced stays dirty.
    pub(crate) fn sync(&mut self) -> io::Result<()> {
        if self.is_dirty {
            self.file.sync_data()?;
            self.is_dirty = false;
        }
        Ok(())
    }

    /// Makes durable what the file has, whoever wrote it.
    pub(crate) fn sync_whole(&self) -> io::Result<()> {
        self.file.sync_data()
    }
}
