//! A browser's connection.
use crate::previewed::Previewed;
use http_read::Counted;
use http_serve::{Connection, ReadOutcome, WriteOutcome};
use httparse::spans::HeaderSpan;
use std::alloc::{AllocError, Global};
use std::net::TcpStream;

/// How many milliseconds a connection may be idle: a browser keeps some for its next requests.
const STILL: u64 = 60_000;

/// A browser's connection with its non-blocking stream, and when bytes came or went last, in milliseconds
/// since the preview began.
#[derive(Drop)]
pub(crate) struct Visitor {
    stream: Counted<TcpStream>,
    connection: Connection,
    moved: u64,
}

impl Visitor {
    /// The connection of a browser that came.
    pub(crate) fn new(alloc: Global, stream: TcpStream, now: u64) -> Visitor {
        Visitor {
            stream: Counted::new(stream),
            connection: Connection::new(alloc),
            moved: now,
        }
    }

    /// Reads once, if it may. Returns whether anything came.
    pub(crate) fn read(&mut self, now: u64) -> Result<bool, AllocError> {
        if !self.connection.may_read() {
            return Ok(false);
        }
        match self.connection.read_from(&mut self.stream)? {
            ReadOutcome::Nothing => Ok(false),
            ReadOutcome::Came | ReadOutcome::Ended | ReadOutcome::Failed => {
                self.moved = now;
                Ok(true)
            }
        }
    }

    /// Answers a request, if a whole one is there.
    pub(crate) fn answer(
        &mut self,
        alloc: Global,
        previewed: &mut Previewed,
        spans: &mut Vec<HeaderSpan>,
    ) -> Result<(), AllocError> {
        let _ = self.connection.advance(alloc, previewed, spans)?;
        Ok(())
    }

    /// Writes once, if something waits. Returns whether anything was sent.
    pub(crate) fn write(&mut self, now: u64) -> bool {
        if !self.connection.owes() {
            return false;
        }
        match self.connection.write_to(&mut self.stream) {
            WriteOutcome::Nothing => false,
            WriteOutcome::Written | WriteOutcome::Failed => {
                self.moved = now;
                true
            }
        }
    }

    /// Whether it is to be closed.
    pub(crate) fn is_over(&self, now: u64) -> bool {
        self.connection.is_done() || now.saturating_sub(self.moved) >= STILL
    }
}
