//! The disk file under a node's record: what it promises, and three disks: one in memory that can fail and
//! crash, one that lets one call of another disk fail, and a real file.
#![tactic(auto)]

mod count;
mod crash;
mod disk;
mod fail_once;
mod file_disk;
mod mem_disk;
mod sync;

pub use disk::{Armed, Disk, DiskFailed};
pub use fail_once::FailOnce;
pub use file_disk::FileDisk;
pub use mem_disk::{Call, MemDisk};
