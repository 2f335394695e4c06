//! A file as it is at a moment, while another process may append to it.
//!
//! A node writes after its last gate, and then opens it. What follows an open gate never changes. Only the
//! gate at the end might be read open while what it opens is past the length that was taken. So its byte is
//! read once, between two looks at the length that agree.

ghost use Rattle.std.specs.Prelude.{◌≡◌};

use site_disk::{Disk, DiskFailed, FileDisk};
use std::fs::File;

/// How many times it looks for an end at rest.
const LOOKS: u32 = 1000;

/// The end of a file: its length, and its last byte.
#[derive(Clone, Copy, Debug, PartialEq, Eq, Drop)]
pub struct End {
    pub len: u64,
    pub last: u8,
}

/// A file that is read up to an end, and never written or synced. As for each real file, no clause says that
/// it stands for a state of the model.
#[derive(Drop)]
pub struct Snapshot {
    file: FileDisk,
    end: End,
}

/// The end of a file at one moment.
fn end_of(file: &mut FileDisk) -> Result<End, DiskFailed> {
    let len = file.len()?;
    let mut last = [0];
    if len > 0 {
        file.read_at(len - 1, &mut last)?;
    }
    Ok(End { len, last: last[0] })
}

/// The end of a file that did not grow while it was looked at.
fn end_at_rest(file: &mut FileDisk) -> Result<End, DiskFailed> {
    let mut end = end_of(file)?;
    for _ in 0..LOOKS {
        if file.len()? == end.len {
            return Ok(end);
        }
        end = end_of(file)?;
    }
    Ok(end)
}

impl Snapshot {
    /// The file as it is now. If it cannot be read, it is returned.
    pub fn new(file: File) -> Result<Snapshot, FileDisk> {
        let mut file = FileDisk::new(file);
        match end_at_rest(&mut file) {
            Ok(end) => Ok(Snapshot { file, end }),
            Err(_) => Err(file),
        }
    }

    /// Its end.
    pub fn end(&self) -> End
        ensures { result ≡ self.now.end }
    {
        self.end
    }

    /// The file.
    pub fn file(&self) -> &FileDisk
        ensures { result.now ≡ self.now.file }
    {
        &self.file
    }
}

impl Disk for Snapshot {
    ghost stands_for = { λ s d. ⊥ };

    ghost failed = { λ s. ⟦<FileDisk as Disk>⟧.failed s.file };

    fn failures(&self) -> u64 {
        self.file.failures()
    }

    fn len(&mut self) -> Result<u64, DiskFailed> {
        Ok(self.end.len)
    }

    fn read_at(&mut self, at: u64, buf: &mut [u8]) -> Result<(), DiskFailed> {
        self.file.read_at(at, buf)?;
        let size = buf.len() as u64;
        if size > 0 && self.end.len > at && self.end.len - at == size {
            let place = buf.len() - 1;
            buf[place] = self.end.last;
        }
        Ok(())
    }

    /// The system refuses this, as the file is open for reading.
    fn write_at(&mut self, at: u64, bytes: &[u8]) -> Result<(), DiskFailed> {
        self.file.write_at(at, bytes)
    }

    /// The system refuses this too.
    fn lengthen(&mut self, at: u64, bytes: &[u8]) -> bool {
        self.file.lengthen(at, bytes)
    }

    /// There is nothing to sync.
    fn sync(&mut self) -> Result<(), DiskFailed> {
        Ok(())
    }
}
