//! The clients of a server.

ghost use Rattle.std.specs.Prelude.{◌≡◌, ◌⊎◌, ◌↔◌, [], ◌≤◌, ◌<◌, ℕ, Bool, length, vec_len, IfOk, IsTrue};
ghost use Rattle.std.specs.Prelude.{MatchOption, OnErr, OnOk};
ghost use Rattle.http_serve.specs.Services.{MaySubmitMany};
ghost use Rattle.server_clients.specs.Answering.{AreAnswered, TellsAnswered};
ghost use Rattle.server_clients.specs.Moving.{AreDone, IsReadOnce, IsWrittenOnce};
ghost use Rattle.server_clients.specs.Seating.{earlier, IsAdmitted, IsFirstToGo, Leaves, MakesRoom, NoneGoes};
ghost use Rattle.server_clients.specs.Served.{offered};

use crate::seat::Seat;
use crate::served::Served;
use httparse::spans::HeaderSpan;
use server_times::Times;
use site_disk::Disk;
use std::alloc::{AllocError, Global};
use std::io::{Read, Write};

/// How many clients have a seat at most.
const SEATS: usize = 64;

/// The clients that are connected, 64 at most.
#[derive(Drop)]
pub struct Seats<S> {
    alloc: Global,
    times: Times,
    seats: Vec<Seat<S>>,
    // room to read heads, for all of them
    spans: Vec<HeaderSpan>,
    ghost within: { vec_len seats ≤ 64 },
}

/// The seat that was silent longer: the one found so far, with the moment since when it was silent, or the
/// next one. If both were silent equally long, it is the one found.
fn earlier(found: Option<(usize, u64)>, i: usize, since: Option<u64>) -> Option<(usize, u64)>
    ensures { result ≡ earlier found i since }
{
    let Some(since) = since else {
        return found;
    };
    match found {
        Some((at, least)) => {
            if least <= since {
                Some((at, least))
            } else {
                Some((i, since))
            }
        }
        None => Some((i, since)),
    }
}

impl<S: Drop> Seats<S> {
    /// No client came yet.
    pub fn new(alloc: Global, times: Times) -> Seats<S>
        ensures { (result.seats.items ≡ []) × (result.times ≡ times) }
    {
        Seats {
            alloc,
            times,
            seats: Vec::new(alloc),
            spans: Vec::new(alloc),
        }
    }

    /// How many clients are there.
    pub fn len(&self) -> usize
        ensures { result ≡ length self.now.seats.items }
    {
        self.seats.len()
    }

    /// The seat of the client that was silent longest, of those that may go for another one.
    fn first_to_go(&self, now: u64) -> Option<usize>
        ensures { MatchOption result (NoneGoes self.now.times now self.now.seats.items)
            (IsFirstToGo self.now.times now self.now.seats.items) }
    {
        let mut first = None;
        let mut i = 0;
        while i < self.seats.len() {
            let since = self.seats[i].goes_since(self.times, now);
            first = earlier(first, i, since);
            i += 1;
        }
        match first {
            Some((at, _)) => Some(at),
            None => None,
        }
    }

    /// The stream of the client that goes for another one, if all seats are taken. It is the client that was
    /// silent longest, of those that are owed no response, or are owed one for too long.
    pub fn make_room(&mut self, now: u64) -> Option<S>
        ensures room { MakesRoom self.old.times now self.old.seats.items self.new.seats.items result }
        ensures same { (self.new.times ≡ self.old.times) × (self.new.alloc ≡ self.old.alloc) }
    {
        if self.seats.len() < SEATS {
            return None;
        }
        let first = self.first_to_go(now)?;
        Some(self.seats.swap_remove(first).into_stream())
    }

    /// Whether a client may be seated, perhaps for another one.
    pub fn has_room(&self, now: u64) -> bool
        ensures { IsTrue result ↔ ((length self.now.seats.items < 64)
            ⊎ ((i : ℕ) × IsFirstToGo self.now.times now self.now.seats.items i)) }
    {
        self.seats.len() < SEATS || self.first_to_go(now).is_some()
    }

    /// A client gets a seat, if one is free. Otherwise its stream is returned.
    pub fn admit(&mut self, stream: S, now: u64) -> Result<Option<S>, AllocError>
        ensures admitted { IfOk result (IsAdmitted stream now self.old.seats.items self.new.seats.items) }
        ensures memory { OnErr result (self.new.seats.items ≡ self.old.seats.items) }
        ensures same { (self.new.times ≡ self.old.times) × (self.new.alloc ≡ self.old.alloc) }
    {
        if self.seats.len() >= SEATS {
            return Ok(Some(stream));
        }
        self.seats.push(Seat::new(self.alloc, stream, now))?;
        Ok(None)
    }

    /// The stream of a client whose connection is to be closed, if there is one.
    pub fn leave(&mut self, now: u64) -> Option<S>
        ensures leaves { Leaves self.old.times now self.old.seats.items self.new.seats.items result }
        ensures same { (self.new.times ≡ self.old.times) × (self.new.alloc ≡ self.old.alloc) }
    {
        let mut i = 0;
        while i < self.seats.len() {
            if self.seats[i].is_over(self.times, now) {
                return Some(self.seats.swap_remove(i).into_stream());
            }
            i += 1;
        }
        None
    }

    /// Answers the requests of each client that are there whole, one after another, until one is left, or
    /// 16 KB wait to be written. Returns whether there was one.
    pub fn answer_each<D: Disk>(
        &mut self,
        served: &mut Served<D>,
        now: u64,
    ) -> Result<bool, AllocError>
        ensures same { (self.new.times ≡ self.old.times) × (self.new.alloc ≡ self.old.alloc) }
        ensures each { OnOk result (AreAnswered offered self.old.times now served.old served.new
            self.old.seats.items self.new.seats.items) }
        ensures tells { IfOk result (λ answered. TellsAnswered answered
            (length self.old.seats.items) self.old.seats.items self.new.seats.items) }
        ensures taken { (n : ℕ) × (n ≤ 6400) × MaySubmitMany offered n served.old served.new }
    {
        let times = self.times;
        let mut answered = false;
        let mut i = 0;
        while i < self.seats.len() {
            let seat = &mut self.seats[i];
            answered |= seat.answer(self.alloc, served, &mut self.spans, times, now)?;
            i += 1;
        }
        Ok(answered)
    }
}

impl<S: Read + Drop> Seats<S> {
    /// Reads once from each client, and returns whether anything came. After a failed allocation the first
    /// clients were read.
    pub fn read_each(&mut self, now: u64) -> Result<bool, AllocError>
        ensures read { IfOk result (λ came. AreDone (IsReadOnce S.remaining now)
            (length self.old.seats.items) came self.old.seats.items self.new.seats.items) }
        ensures memory { OnErr result ((k : ℕ) × (came : Bool) × (k < length self.old.seats.items)
            × AreDone (IsReadOnce S.remaining now) k came self.old.seats.items self.new.seats.items) }
        ensures same { (self.new.times ≡ self.old.times) × (self.new.alloc ≡ self.old.alloc) }
    {
        let mut came = false;
        let mut i = 0;
        while i < self.seats.len() {
            let from = &mut self.seats[i];
            came |= from.read(now)?;
            i += 1;
        }
        Ok(came)
    }
}

impl<S: Write + Drop> Seats<S> {
    /// Writes once to each client that is owed something that is not held back. Returns whether anything
    /// went.
    pub fn write_each(&mut self, now: u64) -> bool
        ensures written { AreDone (IsWrittenOnce S.contents self.old.times now)
            (length self.old.seats.items) result self.old.seats.items self.new.seats.items }
        ensures same { (self.new.times ≡ self.old.times) × (self.new.alloc ≡ self.old.alloc) }
    {
        let times = self.times;
        let mut went = false;
        let mut i = 0;
        while i < self.seats.len() {
            let to = &mut self.seats[i];
            went |= to.write(times, now);
            i += 1;
        }
        went
    }
}
