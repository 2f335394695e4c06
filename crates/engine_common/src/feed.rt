//! The bytes of a file that were read and not yet used.
ghost use Rattle.std.specs.Prelude.{◌≡◌, ℕ, List, [], ◌≤◌, length, drop, vec_len};
ghost use Rattle.http_read.specs.Bytes.{end_of};
ghost use Rattle.engine_common.specs.Feeds.{ReadEnds};

use crate::ends::InputFault;
use http_read::Counted;
use std::alloc::Global;
use std::io::Read;
use std::marker::Model;

/// How many bytes one call asks for.
const CHUNK: usize = 8192;

/// The bytes of a file that were read and not yet used.
#[derive(Drop)]
pub struct Feed {
    bytes: Vec<u8>,
    used: usize,
}

impl Model for Feed {
    ghost Value = { List ℕ };

    ghost view = { λ f. drop f.used f.bytes.items };

    ghost invariant = { λ f. f.used ≤ vec_len f.bytes };
}

impl Feed {
    /// Nothing was read yet.
    pub fn new(alloc: Global) -> Feed
        ensures { result ≡ [] }
    {
        Feed {
            bytes: Vec::new(alloc),
            used: 0,
        }
    }

    /// What is held.
    pub fn held(&self) -> &[u8]
        ensures { result.now ≡ self.now }
    {
        &self.bytes.as_slice()[self.used..]
    }

    /// Drops the first bytes.
    pub fn pass(&mut self, n: usize)
        requires { n ≤ length self.old }
        ensures { self.new ≡ drop n self.old }
    {
        self.used += n;
    }

    /// Reads once, after what is held. Returns false if the input has ended.
    pub fn read_more<R: Read>(&mut self, reader: &mut Counted<R>) -> Result<bool, InputFault>
        ensures { ReadEnds (end_of R.remaining reader.old reader.new) self.old self.new result }
    {
        drop_front(&mut self.bytes, self.used);
        self.used = 0;
        let mut chunk = [0; CHUNK];
        match reader.read(&mut chunk) {
            Ok(0) => Ok(false),
            Ok(n) => {
                self.bytes.extend_from_slice(&chunk[..n])?;
                Ok(true)
            }
            Err(_) => Err(InputFault::Read),
        }
    }
}

/// Removes the first bytes.
fn drop_front(bytes: &mut Vec<u8>, n: usize)
    requires { n ≤ vec_len bytes.old }
    ensures { bytes.new.items ≡ drop n bytes.old.items }
{
    if n > 0 {
        let len = bytes.len();
        bytes.as_mut_slice().copy_within(n..len, 0);
        bytes.truncate(len - n);
    }
}
