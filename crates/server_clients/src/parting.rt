//! A stream that has its last response.

ghost use Rattle.std.specs.Prelude.{◌≡◌};
ghost use Rattle.http_read.specs.Counted.{inside};
ghost use Rattle.server_clients.specs.declared.parting.TheConstants.{READS};
ghost use Rattle.server_clients.specs.Lingering.{AreDropped, Drops, IsDropped, IsShut, leaves};

use crate::linger::Linger;
use http_read::Counted;
use http_serve::{ReadOutcome, is_early};
use server_times::Times;
use std::io::Read;

/// How many times a stream is read in a step at most, so that it holds nobody up.
const READS: u32 = 16;

/// How many bytes a read takes at most.
const PIECE: usize = 4096;

/// A stream whose writing half is shut down: its client's last response is on the way, and the client may
/// still send. If that is left unread when the connection is closed, the system resets the connection, and
/// the client may lose the response (RFC 9112, section 9.6).
#[derive(Drop)]
pub(crate) struct Parting<S> {
    stream: Counted<S>,
    // when it was shut down
    shut: u64,
    // how many bytes were dropped since
    dropped: u64,
    // its client closed, or the stream failed
    ended: bool,
}

impl<S> Parting<S> {
    /// Its writing half was just shut down.
    pub(crate) fn new(stream: S, now: u64) -> Parting<S>
        ensures { IsShut stream now result }
    {
        Parting {
            stream: Counted::new(stream),
            shut: now,
            dropped: 0,
            ended: false,
        }
    }

    /// Whether it is closed: its client closed, the stream failed, or it lingers too long.
    pub(crate) fn leaves(&self, times: Times, now: u64) -> bool
        ensures { result ≡ leaves times now self.now }
    {
        let linger = Linger {
            since: now.saturating_sub(self.shut),
            dropped: self.dropped,
        };
        self.ended || linger.is_over(times)
    }

    /// The stream, which is to be closed.
    pub(crate) fn into_stream(self) -> S
        ensures { result ≡ inside self.stream }
    {
        let Parting { stream, .. } = self;
        stream.into_inner()
    }
}

impl<S: Read> Parting<S> {
    /// Reads once, and drops what came.
    fn read_once(&mut self) -> ReadOutcome
        ensures { Drops S.remaining result self.old self.new }
    {
        let mut piece = [0; PIECE];
        match self.stream.read(&mut piece) {
            Ok(0) => {
                self.ended = true;
                ReadOutcome::Ended
            }
            Ok(n) => {
                self.dropped = self.dropped.saturating_add(n as u64);
                ReadOutcome::Came
            }
            Err(e) if is_early(&e) => ReadOutcome::Nothing,
            Err(_) => {
                self.ended = true;
                ReadOutcome::Failed
            }
        }
    }

    /// Reads until nothing more is there, or as often as a step may, and drops what came.
    fn read_on(&mut self)
        ensures { AreDropped S.remaining READS self.old self.new }
    {
        let mut left = READS;
        while left > 0 {
            match self.read_once() {
                ReadOutcome::Came => left -= 1,
                ReadOutcome::Nothing | ReadOutcome::Ended | ReadOutcome::Failed => return,
            }
        }
    }

    /// The same. Returns whether any bytes came.
    pub(crate) fn read(&mut self) -> bool
        ensures { IsDropped S.remaining result self.old self.new }
    {
        let before = self.dropped;
        self.read_on();
        self.dropped > before
    }
}
