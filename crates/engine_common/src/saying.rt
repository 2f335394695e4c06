//! A line that a program prints.
ghost use Rattle.std.specs.Prelude.{◌≡◌, ◌⊎◌, ℕ, List, codes};
ghost use Rattle.engine_common.specs.Faults.{fault_at};
ghost use Rattle.http_read.specs.Bytes.{end_of, IsGiven};

use http_read::{Counted, write_all};
use std::alloc::Global;
use std::io::Write;

/// Writes one line, as far as the writer takes it.
pub fn give<E: Write>(err: &mut Counted<E>, line: &str)
    ensures { IsGiven (end_of E.contents err.old err.new) line.now }
{
    let _ = write_all(err, line.as_bytes());
}

/// Writes the one line that a program prints in place of its work, and returns status 1.
pub fn say<E: Write>(err: &mut Counted<E>, line: &str) -> u8
    ensures status { result ≡ 1 }
    ensures said { IsGiven (end_of E.contents err.old err.new) line.now }
{
    give(err, line);
    1
}

/// Prints why line k of the input stopped a program, in these words, and returns status 1.
pub fn say_at<E: Write>(alloc: Global, err: &mut Counted<E>, k: u64, why: &str) -> u8
    ensures status { result ≡ 1 }
    ensures said { (said : List ℕ) × ((said ≡ fault_at k why.now) ⊎ (said ≡ codes "out of memory\n"))
        × IsGiven (end_of E.contents err.old err.new) said }
{
    match format!(in alloc; "line {k}: {why}\n") {
        Ok(line) => say(err, line.as_str()),
        Err(_) => say(err, "out of memory\n"),
    }
}
