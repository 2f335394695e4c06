//! A disk over a real file.

ghost use Rattle.std.specs.Prelude.{◌≡◌, IfErr, IsErr, MatchResult, None, OnOk, Some};
ghost use Rattle.site_disk.specs.Model.{CountsFailure};

use crate::count::counted;
use crate::{Disk, DiskFailed};
use std::fs::File;
use std::io;
use std::os::unix::fs::FileExt;

/// What the system reported of calls on one file.
#[derive(Drop)]
struct Failures {
    count: u64,
    last: Option<io::Error>,
}

impl Failures {
    /// The result of a call, whose failure is counted and kept.
    fn take<T: Drop>(&mut self, answer: io::Result<T>) -> Result<T, DiskFailed>
        ensures same { MatchResult answer (λ x. result ≡ Ok x) (λ _. IsErr result) }
        ensures cause { CountsFailure result self.old.count self.new.count }
        ensures kept { OnOk answer (self.new.last ≡ self.old.last) }
        ensures last { IfErr answer (λ error. self.new.last ≡ Some error) }
    {
        if let Err(error) = &answer {
            self.last = Some(*error);
        }
        counted(answer, &mut self.count)
    }
}

/// A real file, open for reading and writing. It is a premise that it keeps the model: no clause says that it
/// stands for a state of the model.
#[derive(Drop)]
pub struct FileDisk {
    file: File,
    failures: Failures,
}

impl FileDisk {
    pub fn new(file: File) -> Self
        ensures count { result.failures.count ≡ 0 }
        ensures last { result.failures.last ≡ None }
    {
        FileDisk {
            file,
            failures: Failures {
                count: 0,
                last: None,
            },
        }
    }

    /// What the system reported of the last call that failed, `None` if none has failed.
    pub fn last_failure(&self) -> Option<io::Error>
        ensures { result ≡ self.now.failures.last }
    {
        self.failures.last
    }
}

impl Disk for FileDisk {
    ghost stands_for = { λ f d. ⊥ };

    ghost failed = { λ f. f.failures.count };

    fn failures(&self) -> u64 {
        self.failures.count
    }

    fn len(&mut self) -> Result<u64, DiskFailed> {
        let data = self.failures.take(self.file.metadata())?;
        Ok(data.len())
    }

    fn read_at(&mut self, at: u64, buf: &mut [u8]) -> Result<(), DiskFailed> {
        self.failures.take(self.file.read_exact_at(buf, at))
    }

    fn write_at(&mut self, at: u64, bytes: &[u8]) -> Result<(), DiskFailed> {
        self.failures.take(self.file.write_all_at(bytes, at))
    }

    fn lengthen(&mut self, at: u64, bytes: &[u8]) -> bool {
        self.file.write_all_at(bytes, at).is_ok()
    }

    fn sync(&mut self) -> Result<(), DiskFailed> {
        self.failures.take(self.file.sync_data())
    }
}
