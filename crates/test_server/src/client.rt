//! A client without a socket.
use std::alloc::{AllocError, Global};
use std::io::{self, ErrorKind, Read, Write};

/// What it sends, and what it got. A call moves `piece` bytes at most. After it has sent all, it waits.
#[derive(Drop)]
pub(crate) struct Client {
    sends: Vec<u8>,
    sent: usize,
    got: Vec<u8>,
    piece: usize,
}

impl Client {
    pub(crate) fn new(alloc: Global, sends: &[u8], piece: usize) -> Result<Client, AllocError> {
        Ok(Client {
            sends: Vec::from_slice(alloc, sends)?,
            sent: 0,
            got: Vec::new(alloc),
            piece,
        })
    }

    /// Whether nothing that it sends was taken, and it got nothing.
    pub(crate) fn is_unheard(&self) -> bool {
        self.sent == 0 && self.got.is_empty()
    }

    /// Whether what it got begins with `front` and ends with `end`.
    pub(crate) fn got_from_to(&self, front: &[u8], end: &[u8]) -> bool {
        let got = self.got();
        got.starts_with(front) && got.ends_with(end)
    }

    /// All that it got.
    pub(crate) fn got(&self) -> &[u8] {
        self.got.as_slice()
    }
}

impl Read for Client {
    fn read(&mut self, buf: &mut [u8]) -> io::Result<usize> {
        let Some(left) = self.sends.get(self.sent..) else {
            return Ok(0);
        };
        let n = left.len().min(buf.len()).min(self.piece);
        if n == 0 {
            return Err(io::Error::from(ErrorKind::WouldBlock));
        }
        buf[..n].copy_from_slice(&left[..n]);
        self.sent += n;
        Ok(n)
    }
}

impl Write for Client {
    fn write(&mut self, buf: &[u8]) -> io::Result<usize> {
        let n = buf.len().min(self.piece);
        self.got.extend_from_slice(&buf[..n])?;
        Ok(n)
    }

    fn flush(&mut self) -> io::Result<()> {
        Ok(())
    }
}
