//! A writer with limited room.
ghost use Rattle.std.specs.Prelude.{Some};

use std::alloc::Global;
use std::io;
use std::io::{ErrorKind, Write};

/// Takes `room` bytes, at most `piece` at a time, and then fails.
#[derive(Drop)]
pub struct Sink {
    pub taken: Vec<u8>,
    pub room: usize,
    pub piece: usize,
}

impl Sink {
    /// One that takes all that it is given at once, as far as there is room.
    pub fn with_room(alloc: Global, room: usize) -> Sink {
        Sink {
            taken: Vec::new(alloc),
            room,
            piece: usize::MAX,
        }
    }

    pub fn into_taken(self) -> Vec<u8> {
        let Sink {
            taken,
            room: _,
            piece: _,
        } = self;
        taken
    }
}

impl Write for Sink {
    ghost contents = { λ s. Some s.taken.items };

    fn write(&mut self, buf: &[u8]) -> io::Result<usize> {
        let n = buf.len().min(self.room).min(self.piece);
        if n == 0 && !buf.is_empty() {
            return Err(io::Error::from(ErrorKind::BrokenPipe));
        }
        self.taken.extend_from_slice(&buf[..n])?;
        self.room -= n;
        Ok(n)
    }

    fn flush(&mut self) -> io::Result<()> {
        Ok(())
    }
}
