//! A client's connection, with what carries its bytes.

ghost use Rattle.std.specs.Prelude.{◌≡◌, ◌↔◌, ◌<◌, ◌≤◌, ℕ, IfOk, MatchOption, OnErr, OnOk, IsTrue};
ghost use Rattle.http_read.specs.Counted.{inside};
ghost use Rattle.http_serve.specs.Services.{MaySubmit, MaySubmitMany};
ghost use Rattle.server_clients.specs.Answering.{CountsAnswered, IsLeft, IsTurn, MayBeOneMore};
ghost use Rattle.server_clients.specs.Moving.{IsHeld, IsReadOnce, IsWrittenOnce, MayBeRead};
ghost use Rattle.server_clients.specs.Seating.{IsFresh, IsLeaving, IsSlow, MayGo, stay_of};
ghost use Rattle.server_clients.specs.Served.{offered};

use crate::hold::Hold;
use crate::served::Served;
use crate::stay::Stay;
use http_read::Counted;
use http_serve::{Connection, ReadOutcome, Service, WriteOutcome};
use httparse::spans::HeaderSpan;
use server_times::{Times, has_passed};
use site_disk::Disk;
use std::alloc::{AllocError, Global};
use std::io::{Read, Write};

/// A connection and its stream, which are always given away together. Times are milliseconds since the server
/// began.
#[derive(Drop)]
pub struct Seat<S> {
    stream: Counted<S>,
    connection: Connection,
    // when bytes last came or went
    moved: u64,
    // when bytes last came
    came: u64,
    // when the request began that is being read or answered, if one is
    begun: Option<u64>,
}

impl<S> Seat<S> {
    /// A client came.
    pub(crate) fn new(alloc: Global, stream: S, now: u64) -> Seat<S>
        ensures { IsFresh stream now result }
    {
        Seat {
            stream: Counted::new(stream),
            connection: Connection::new(alloc),
            moved: now,
            came: now,
            begun: None,
        }
    }

    /// What it does, and for how long.
    fn stay(&self, now: u64) -> Stay
        ensures { result ≡ stay_of now self.now }
    {
        Stay {
            still: now.saturating_sub(self.moved),
            busy: match self.begun {
                Some(begun) => Some(now.saturating_sub(begun)),
                None => None,
            },
        }
    }

    /// Whether it is to be closed: all is done, a call failed, or it stays too long.
    pub(crate) fn is_over(&self, times: Times, now: u64) -> bool
        ensures { IsTrue result ↔ IsLeaving times now self.now }
    {
        self.connection.is_done() || self.stay(now).is_too_long(times)
    }

    /// Whether its request keeps others from a seat for longer than it may: its client sends or reads slowly.
    fn is_slow(&self, times: Times, now: u64) -> bool
        ensures { IsTrue result ↔ IsSlow times now self.now }
    {
        match self.begun {
            Some(begun) => now.saturating_sub(begun) >= times.keeps_seat,
            None => false,
        }
    }

    /// Since when nothing moved, if it may be given up for another client: it owes no response, or is slow.
    pub(crate) fn goes_since(&self, times: Times, now: u64) -> Option<u64>
        ensures { MatchOption result
            (¬ (MayGo times now self.now)) (λ since. MayGo times now self.now × (since ≡ self.now.moved)) }
    {
        if self.connection.owes() && !self.is_slow(times, now) {
            None
        } else {
            Some(self.moved)
        }
    }

    /// Whether its next request is left, because it asks for a receipt that is not there yet.
    fn is_left<D: Disk>(&self, served: &Served<D>, times: Times, now: u64) -> bool
        ensures { IsTrue result ↔ IsLeft offered times now served.now self.now }
    {
        match self.connection.asks_receipt() {
            Some(ticket) => {
                !has_passed(Some(self.came), now, times.receipts)
                    && served.receipt(ticket).is_none()
            }
            None => false,
        }
    }

    /// Answers the next request, if it is there whole and is not left. Returns whether it did.
    fn answer_next<D: Disk>(
        &mut self,
        alloc: Global,
        served: &mut Served<D>,
        spans: &mut Vec<HeaderSpan>,
        times: Times,
        now: u64,
    ) -> Result<bool, AllocError>
        ensures next { IfOk result (λ did.
            MayBeOneMore offered times now did served.old served.new self.old self.new) }
        ensures few { OnErr result (self.old.connection.answered < 100) }
        ensures taken { MaySubmit offered served.old served.new }
    {
        if self.is_left(served, times, now) {
            return Ok(false);
        }
        self.connection.advance(alloc, served, spans)
    }

    /// Takes its turn: its requests are answered, until one is left, or no whole one is there, or 16 KB wait
    /// to be written. Returns whether one was answered.
    pub(crate) fn answer<D: Disk>(
        &mut self,
        alloc: Global,
        served: &mut Served<D>,
        spans: &mut Vec<HeaderSpan>,
        times: Times,
        now: u64,
    ) -> Result<bool, AllocError>
        ensures turn { OnOk result (IsTurn offered times now served.old served.new self.old self.new) }
        ensures counts { IfOk result (λ did. CountsAnswered did self.old self.new) }
        ensures taken { (n : ℕ) × (n ≤ 100) × MaySubmitMany offered n served.old served.new }
    {
        let mut count: u32 = 0;
        while self.answer_next(alloc, served, spans, times, now)? {
            count += 1;
        }
        Ok(count > 0)
    }

    /// Whether what it owes is held back, so that it goes out together with a receipt.
    fn is_held(&self, times: Times, now: u64) -> bool
        ensures { IsTrue result ↔ IsHeld times now self.now }
    {
        let hold = Hold {
            asked: self.connection.has_asked(),
            since: now.saturating_sub(self.came),
        };
        hold.is_on(times)
    }

    /// The stream, which is to be closed.
    pub(crate) fn into_stream(self) -> S
        ensures { result ≡ inside self.stream }
    {
        let Seat { stream, .. } = self;
        stream.into_inner()
    }
}

impl<S: Read> Seat<S> {
    /// Whether it is read: its client may send more, and it has more than the request that is left.
    fn may_be_read(&self) -> bool
        ensures { IsTrue result ↔ MayBeRead self.now }
    {
        self.connection.may_read() && !self.connection.has_asked()
    }

    /// Reads once, if it may. Returns whether anything came.
    pub(crate) fn read(&mut self, now: u64) -> Result<bool, AllocError>
        ensures read { IfOk result (λ came. IsReadOnce S.remaining now came self.old self.new) }
        ensures memory { OnErr result (self.new ≡ self.old) }
    {
        if !self.may_be_read() {
            return Ok(false);
        }
        match self.connection.read_from(&mut self.stream)? {
            ReadOutcome::Nothing => Ok(false),
            ReadOutcome::Came => {
                self.moved = now;
                self.came = now;
                if self.begun.is_none() {
                    self.begun = Some(now);
                }
                Ok(true)
            }
            ReadOutcome::Ended | ReadOutcome::Failed => Ok(true),
        }
    }
}

impl<S: Write> Seat<S> {
    /// Writes once, if something waits and is not held back. Returns whether anything went.
    pub(crate) fn write(&mut self, times: Times, now: u64) -> bool
        ensures { IsWrittenOnce S.contents times now result self.old self.new }
    {
        if !self.connection.owes() || self.is_held(times, now) {
            return false;
        }
        match self.connection.write_to(&mut self.stream) {
            WriteOutcome::Nothing => false,
            WriteOutcome::Written => {
                self.moved = now;
                if !self.connection.owes() {
                    self.begun = self.connection.has_begun().then_some(now);
                }
                true
            }
            WriteOutcome::Failed => true,
        }
    }
}
