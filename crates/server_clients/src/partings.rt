//! The streams of clients that have their last response.

ghost use Rattle.std.specs.Prelude.{◌≡◌, [], ◌<◌, ◌≤◌, List, length, vec_len, filter, not, IfOk};
ghost use Rattle.std.specs.Vec.{vec_capacity};
ghost use Rattle.server_clients.specs.Moving.{AreDone};
ghost use Rattle.server_clients.specs.Lingering.{IsDropped, IsOutOf, leaves, TakesIn};
ghost use Rattle.server_clients.specs.declared.parting.Parting.{Parting};

use crate::parting::Parting;
use server_times::Times;
use std::alloc::{AllocError, Global};
use std::io::Read;

/// How many there are at most.
const PARTINGS: usize = 64;

/// The streams of clients that have their last response, in the order in which they were shut down, 64 at
/// most. Each is read, and what comes is dropped, until its client closes. None has a seat. All room is
/// allocated at the beginning, so none is lost because an allocation fails.
#[derive(Drop)]
pub struct Partings<S> {
    times: Times,
    partings: Vec<Parting<S>>,
    ghost within: { vec_len partings ≤ 64 },
    ghost room: { 64 ≤ vec_capacity partings },
}

impl<S: Drop> Partings<S> {
    /// No stream is there yet.
    pub fn new(alloc: Global, times: Times) -> Result<Partings<S>, AllocError>
        ensures { IfOk result (λ none. (none.partings.items ≡ []) × (none.times ≡ times)) }
    {
        Ok(Partings {
            times,
            partings: Vec::with_capacity(alloc, PARTINGS)?,
        })
    }

    /// How many there are.
    pub fn len(&self) -> usize
        ensures { result ≡ length self.now.partings.items }
    {
        self.partings.len()
    }

    /// If there is no room, the stream that was shut down first goes, and is returned.
    fn make_room(&mut self) -> Option<S>
        ensures room { IsOutOf self.old.partings.items self.new.partings.items result }
        ensures below { length self.new.partings.items < 64 }
        ensures same { self.new.times ≡ self.old.times }
    {
        if self.partings.len() < PARTINGS {
            return None;
        }
        Some(self.partings.remove(0).into_stream())
    }

    /// A stream comes whose writing half was just shut down. The stream that is returned had to go for it,
    /// and is to be closed.
    pub fn take_in(&mut self, stream: S, now: u64) -> Option<S>
        ensures taken { TakesIn stream now self.old.partings.items self.new.partings.items result }
        ensures same { self.new.times ≡ self.old.times }
    {
        let gone = self.make_room();
        match self.partings.push(Parting::new(stream, now)) {
            Ok(()) => gone,
            Err(_) => unreachable!(),
        }
    }

    /// Closes those that leave.
    fn close(&mut self, now: u64)
        ensures stay { self.new.partings.items
            ≡ filter (λ p. not (leaves self.old.times now p)) self.old.partings.items }
        ensures same { self.new.times ≡ self.old.times }
    {
        let times = self.times;
        self.partings.retain(|p| !p.leaves(times, now));
    }
}

impl<S: Read + Drop> Partings<S> {
    /// Reads each. Returns whether any bytes came.
    fn drop_each(&mut self) -> bool
        ensures dropped { AreDone (IsDropped S.remaining) (length self.old.partings.items) result
            self.old.partings.items self.new.partings.items }
        ensures same { self.new.times ≡ self.old.times }
    {
        let mut came = false;
        let mut i = 0;
        while i < self.partings.len() {
            let from = &mut self.partings[i];
            came |= from.read();
            i += 1;
        }
        came
    }

    /// Reads from each, drops what came, and closes those that leave. Returns whether any bytes came. The
    /// others keep their order.
    pub fn read_each(&mut self, now: u64) -> bool
        ensures read { (read : List (Parting S))
            × AreDone (IsDropped S.remaining)
            (length self.old.partings.items) result self.old.partings.items read
            × (self.new.partings.items ≡ filter (λ p. not (leaves self.old.times now p)) read) }
        ensures same { self.new.times ≡ self.old.times }
    {
        let came = self.drop_each();
        self.close(now);
        came
    }
}
