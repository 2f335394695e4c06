//! A reader in pieces.
ghost use Rattle.std.specs.Prelude.{Some};

use std::io;
use std::io::{ErrorKind, Read};

/// Gives a first piece and then pieces of one size, and fails once `good` calls were made.
#[derive(Drop)]
pub struct Pieces<'a> {
    pub bytes: &'a [u8],
    pub first: usize,
    pub piece: usize,
    pub good: usize,
}

impl Read for Pieces<'_> {
    ghost remaining = { λ p. Some p.bytes.now };

    fn read(&mut self, buf: &mut [u8]) -> io::Result<usize> {
        if self.good == 0 {
            return Err(io::Error::from(ErrorKind::TimedOut));
        }
        self.good -= 1;
        let n = self.first.max(1).min(buf.len()).min(self.bytes.len());
        buf[..n].copy_from_slice(&self.bytes[..n]);
        self.bytes = &self.bytes[n..];
        self.first = self.piece;
        Ok(n)
    }
}

/// A first piece and then pieces of one size, up to a call that fails.
pub fn in_pieces(bytes: &[u8], first: usize, piece: usize, good: usize) -> Pieces<'_> {
    Pieces {
        bytes,
        first,
        piece,
        good,
    }
}

/// A byte at a time, up to a call that fails.
pub fn trickle(bytes: &[u8], good: usize) -> Pieces<'_> {
    in_pieces(bytes, 1, 1, good)
}

/// All at once.
pub fn whole(bytes: &[u8]) -> Pieces<'_> {
    in_pieces(bytes, usize::MAX, usize::MAX, usize::MAX)
}
