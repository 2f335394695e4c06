//! What the entries of a file record.
//!
//! The judges of the acceptor say what an entry must advance, also when it is read.

ghost use Rattle.std.specs.Prelude.{◌≡◌, ℕ, [], IfOk};
ghost use Rattle.durable.specs.Entries.{Round, Promised, PromisedSpan, Voted, Learned, Floor};
ghost use Rattle.durable.specs.Raising.{IsSpanned};
ghost use Rattle.site_ids.specs.Spans.{IsSpan, IsInSpan};

use crate::RecordFault;
use crate::cells::Change;
use crate::parsing::EntryRef;
use crate::slots::Slots;
use acceptor::{PrepareVerdict, ProposeVerdict, judge_prepare, judge_propose};
use site_ids::{Ballot, Instance, Value, Vote};
use std::alloc::{AllocError, Global};

/// What the entries up to a gate record.
#[derive(Drop)]
pub(crate) struct Recorded {
    pub(crate) gate: u64,
    pub(crate) round: u32,
    /// The greatest round that was recorded or promised.
    pub(crate) greatest: u32,
    /// The floor, or 0 if there is none.
    pub(crate) floor: u32,
    /// The greatest instance of a vote, or the floor if that is greater.
    pub(crate) reach: u32,
    pub(crate) slots: Slots,
}

/// The gate after the head: if it is the present one, there is no entry yet.
pub(crate) const FIRST_GATE: u64 = 10;

impl Recorded {
    ghost use Rattle.durable.specs.Puts.{Remembers};
    ghost use Rattle.durable.specs.Reading.{IsKept, Takes, meaning};
    ghost use Rattle.durable.specs.Slots.{IsThere};

    /// Nothing is recorded.
    pub(crate) fn new(alloc: Global) -> Recorded
        ensures gate { result.gate ≡ 10 }
        ensures kept { IsKept [] result }
    {
        Recorded {
            gate: FIRST_GATE,
            round: 0,
            greatest: 0,
            floor: 0,
            reach: 0,
            slots: Slots::new(alloc),
        }
    }

    /// Keeps a round.
    pub(crate) fn keep_round(&mut self, round: u32)
        ensures remembers { Remembers self.old self.new (Round round) }
        ensures gate { self.new.gate ≡ self.old.gate }
    {
        self.round = round;
        self.greatest = self.greatest.max(round);
    }

    /// Keeps a promise if there is room for the slot.
    pub(crate) fn keep_promise(&mut self, instance: Instance, ballot: Ballot)
        requires { IsThere self.old.slots instance }
        ensures remembers { Remembers self.old self.new (Promised instance ballot) }
        ensures gate { self.new.gate ≡ self.old.gate }
    {
        self.slots.change(instance, Change::Promise(ballot));
        self.greatest = self.greatest.max(ballot.round());
    }

    /// Keeps the promise of a span if there is room for its slots.
    pub(crate) fn keep_span(&mut self, first: Instance, count: u8, ballot: Ballot)
        requires span { IsSpan first count }
        requires room { (at : ℕ) → IsInSpan first count at → IsThere self.old.slots at }
        ensures remembers { Remembers self.old self.new (PromisedSpan first count ballot) }
        ensures gate { self.new.gate ≡ self.old.gate }
    {
        self.slots.promise_span(first, count, ballot);
        self.greatest = self.greatest.max(ballot.round());
    }

    /// Keeps a vote if there is room for the slot.
    pub(crate) fn keep_vote(&mut self, instance: Instance, vote: Vote)
        requires { IsThere self.old.slots instance }
        ensures remembers { Remembers self.old self.new (Voted instance vote.ballot vote.value) }
        ensures gate { self.new.gate ≡ self.old.gate }
    {
        self.greatest = self.greatest.max(vote.ballot.round());
        self.reach = self.reach.max(instance.number());
        self.slots.change(instance, Change::Vote(vote));
    }

    /// Keeps a learned value if there is room for the slot.
    pub(crate) fn keep_learned(&mut self, instance: Instance, value: Value)
        requires { IsThere self.old.slots instance }
        ensures remembers { Remembers self.old self.new (Learned instance value) }
        ensures gate { self.new.gate ≡ self.old.gate }
    {
        self.slots.change(instance, Change::Learn(value));
    }

    /// Keeps a floor.
    fn keep_floor(&mut self, floor: Instance)
        ensures remembers { Remembers self.old self.new (Floor floor) }
        ensures gate { self.new.gate ≡ self.old.gate }
    {
        self.floor = self.floor.max(floor.number());
        self.reach = self.reach.max(floor.number());
    }

    /// Takes one more entry, if it advances those before it.
    pub(crate) fn take(&mut self, alloc: Global, entry: EntryRef<'_>) -> Result<(), RecordFault>
        requires { IsSpanned (meaning entry) }
        ensures { Takes (meaning entry.entry) self.old self.new result }
    {
        match entry {
            EntryRef::Round(round) => self.take_round(round),
            EntryRef::Promised(instance, ballot) => self.take_promise(instance, ballot),
            EntryRef::PromisedSpan(first, count, ballot) => self.take_span(first, count, ballot),
            EntryRef::Voted(instance, ballot, value) => {
                self.take_vote(alloc, instance, ballot, value)
            }
            EntryRef::Learned(instance, value) => self.take_learned(alloc, instance, value),
            EntryRef::Floor(floor) => self.take_floor(floor),
        }
    }

    fn take_round(&mut self, round: u32) -> Result<(), RecordFault>
        ensures { Takes (Round round) self.old self.new result }
    {
        if round <= self.round {
            return Err(RecordFault::Damaged);
        }
        self.keep_round(round);
        Ok(())
    }

    fn take_promise(&mut self, instance: Instance, ballot: Ballot) -> Result<(), RecordFault>
        ensures { Takes (Promised instance ballot) self.old self.new result }
    {
        let PrepareVerdict::Promise = judge_prepare(self.slots.get(instance), ballot) else {
            return Err(RecordFault::Damaged);
        };
        self.slots.make_room(instance)?;
        self.keep_promise(instance, ballot);
        Ok(())
    }

    fn take_span(&mut self, first: Instance, count: u8, ballot: Ballot) -> Result<(), RecordFault>
        requires { IsSpan first count }
        ensures { Takes (PromisedSpan first count ballot) self.old self.new result }
    {
        if !self.slots.rises(first, count, ballot) {
            return Err(RecordFault::Damaged);
        }
        self.slots.make_room_for_span(first, count)?;
        self.keep_span(first, count, ballot);
        Ok(())
    }

    fn take_vote(
        &mut self,
        alloc: Global,
        instance: Instance,
        ballot: Ballot,
        value: &[u8],
    ) -> Result<(), RecordFault>
        ensures { Takes (Voted instance ballot value.now) self.old self.new result }
    {
        let ProposeVerdict::Vote = judge_propose(self.slots.get(instance), ballot, value) else {
            return Err(RecordFault::Damaged);
        };
        let value = Value::copied_from(alloc, value)?;
        self.slots.make_room(instance)?;
        self.keep_vote(instance, Vote { ballot, value });
        Ok(())
    }

    /// These bytes as a value. If the last vote at the instance is for them, the value shares the vote's
    /// bytes, so that they are in memory once.
    fn shared_value(
        &self,
        alloc: Global,
        instance: Instance,
        bytes: &[u8],
    ) -> Result<Value, AllocError>
        ensures { IfOk result (λ value. value ≡ bytes.now) }
    {
        if let Some(vote) = &self.slots.get(instance).vote {
            if vote.value.as_bytes() == bytes {
                return vote.value.try_clone();
            }
        }
        Value::copied_from(alloc, bytes)
    }

    fn take_learned(
        &mut self,
        alloc: Global,
        instance: Instance,
        value: &[u8],
    ) -> Result<(), RecordFault>
        ensures { Takes (Learned instance value.now) self.old self.new result }
    {
        if self.slots.learned(instance).is_some() {
            return Err(RecordFault::Damaged);
        }
        let value = self.shared_value(alloc, instance, value)?;
        self.slots.make_room(instance)?;
        self.keep_learned(instance, value);
        Ok(())
    }

    fn take_floor(&mut self, floor: Instance) -> Result<(), RecordFault>
        ensures { Takes (Floor floor) self.old self.new result }
    {
        if self.gate != FIRST_GATE {
            return Err(RecordFault::Damaged);
        }
        self.keep_floor(floor);
        Ok(())
    }
}
