//! A log of notes in one file, in which each note is on the disk before it is acknowledged; and the
//! disks for it.
#![tactic(auto)]

mod disk;
mod disk_fault;
mod down;
mod fault_disk;
mod file_disk;
mod identity;
mod log;
mod log_fault;
mod making;
mod mem_disk;
mod opening;
mod reading;
mod record;

pub use disk::Disk;
pub use disk_fault::DiskFault;
pub use fault_disk::{Failing, FaultDisk};
pub use file_disk::FileDisk;
pub use identity::Identity;
pub use log::Log;
pub use log_fault::LogFault;
pub use mem_disk::{Left, MemDisk};
