//! A bay over a folder of files: a folder for each device, and in it a file for each zone, whose length is the write pointer.
#![tactic(auto)]

mod change;
mod counts;
mod device_files;
mod file_bay;
mod folder;
mod paths;
mod shape_line;
mod zone_file;

pub use file_bay::FileBay;
