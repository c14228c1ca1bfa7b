//! The names of an array's files and folders, and what is done to them by name.

use std::alloc::AllocError;
use std::fs::{self, File};
use std::io::{self, ErrorKind};
use std::rt::Files;

/// The path of what has the name in the folder.
pub(crate) fn path_in<R: AllocGlobal>(
    rt: &R,
    folder: &str,
    name: &str,
) -> Result<String, AllocError> {
    format!(in rt.alloc(); "{folder}/{name}")
}

/// The path of a device's folder.
pub(crate) fn device_path<R: AllocGlobal>(
    rt: &R,
    folder: &str,
    device: u8,
) -> Result<String, AllocError> {
    format!(in rt.alloc(); "{folder}/d{device:02}")
}

/// The path of a zone's file in the folder of its device.
pub(crate) fn zone_path<R: AllocGlobal>(
    rt: &R,
    device_folder: &str,
    zone: u16,
) -> Result<String, AllocError> {
    format!(in rt.alloc(); "{device_folder}/z{zone:04}")
}

/// The answer, where a failure of this kind is as good as none.
pub(crate) fn unless(kind: ErrorKind, answer: io::Result<()>) -> io::Result<()> {
    match answer {
        Err(error) if error.kind() == kind => Ok(()),
        other => other,
    }
}

/// Makes the folder, unless it is there.
pub(crate) fn make_folder<R: Files>(rt: &R, path: &str) -> io::Result<()> {
    unless(ErrorKind::AlreadyExists, fs::create_dir(rt, path))
}

/// Makes durable which files the folder has.
pub(crate) fn sync_folder<R: Files<File = File>>(rt: &R, path: &str) -> io::Result<()> {
    fs::open(rt, path)?.sync_all()
}
