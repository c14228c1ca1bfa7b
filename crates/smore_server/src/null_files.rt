use std::fs::{File, OpenOptions};
use std::rt::Files;

/// The null device, held open as often as there are standard streams. Where one of those is closed it takes its place, so that
/// no file of the array gets what is meant for it.
#[derive(Drop)]
pub(crate) struct NullFiles {
    files: [Option<File>; 3],
}

fn open_null<R: Files<File = File>>(rt: &R) -> Option<File> {
    OpenOptions::new()
        .read(true)
        .write(true)
        .open(rt, "/dev/null")
        .ok()
}

impl NullFiles {
    /// Opens them, as the first files of a program.
    pub(crate) fn open<R: Files<File = File>>(rt: &R) -> NullFiles {
        NullFiles {
            files: [open_null(rt), open_null(rt), open_null(rt)],
        }
    }
}
