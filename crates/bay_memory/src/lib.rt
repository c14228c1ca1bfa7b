//! A bay in memory, for tests: it tells what it holds, fails where it is told to, and gives the images that a crash may
//! leave.
#![tactic(auto)]

mod array;
mod asked;
mod change;
mod crash;
mod device;
mod image;
mod keep;
mod memory_bay;
mod operation;
mod was;
mod zone;

pub use image::Image;
pub use keep::Keep;
pub use memory_bay::MemoryBay;
