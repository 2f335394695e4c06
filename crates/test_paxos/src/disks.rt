//! Calls of a disk, and what they returned. Their contracts are long: here each call has a function of its
//! own, which promises nothing of it.
use site_disk::{Armed, Disk, FailOnce, MemDisk};

/// Whether the file has this length.
pub fn is_long(disk: &mut impl Disk, length: u64) -> bool {
    disk.len() == Ok(length)
}

/// Whether a read filled the bytes.
pub fn reads(disk: &mut impl Disk, at: u64, bytes: &mut [u8]) -> bool {
    disk.read_at(at, bytes).is_ok()
}

/// Whether the file begins with these bytes.
pub fn begins<const N: usize>(disk: &mut impl Disk, wanted: &[u8; N]) -> bool {
    let mut bytes = [0; N];
    reads(disk, 0, &mut bytes) && bytes == *wanted
}

/// Whether the file is these bytes.
pub fn holds<const N: usize>(disk: &mut impl Disk, wanted: &[u8; N]) -> bool {
    begins(disk, wanted) && is_long(disk, N as u64)
}

/// Whether a write passed.
pub fn writes(disk: &mut impl Disk, at: u64, bytes: &[u8]) -> bool {
    disk.write_at(at, bytes).is_ok()
}

/// Whether the file became longer, with these bytes from a place on.
pub fn lengthens(disk: &mut impl Disk, at: u64, bytes: &[u8]) -> bool {
    disk.lengthen(at, bytes)
}

/// Whether a sync passed.
pub fn syncs(disk: &mut impl Disk) -> bool {
    disk.sync().is_ok()
}

/// Lets the disk crash by that choice, or work again. Returns whether the file has this length then.
pub fn is_long_behind(disk: &mut MemDisk, choice: Option<u8>, length: u64) -> bool {
    match choice {
        Some(choice) => disk.crash(choice),
        None => disk.disarm(),
    }
    is_long(disk, length)
}

/// The disk within, after a crash by that choice.
pub fn crashed_within(disk: FailOnce<MemDisk>, choice: u8) -> MemDisk {
    let mut disk = disk.into_inner();
    disk.crash(choice);
    disk
}
