//! Disks: files in memory, and files of the operating system.
#![tactic(auto)]

mod drive;
mod event;
mod file_disk;
mod files;
mod image;
mod memory_disk;
mod replay;

pub use file_disk::FileDisk;
pub use files::Files;
pub use memory_disk::{MemoryDisk, SureDisk};
