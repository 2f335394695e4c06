//! What a node has promised, voted and learned at each instance.
//!
//! Nearly all instances follow one another, so the cells of these are in a vector: a look-up is one index.

ghost use Rattle.std.specs.Prelude.{◌≡◌, ◌≢◌, ◌↔◌, IsTrue, ◌≤◌, ◌<◌, ◌^◌, ℕ, None, Some, OnOk, IfOk, length};
ghost use Rattle.std.specs.Prelude.{option_copied};
ghost use Rattle.site_ids.specs.declared.TheConstants.{MAX_VALUE};
ghost use Rattle.site_ids.specs.Ids.{IsInstance};
ghost use Rattle.site_ids.specs.Spans.{IsSpan, IsInSpan};
ghost use Rattle.acceptor.specs.Judging.{IsFreeBelow};
ghost use Rattle.durable.specs.Raising.{IsRaised};
ghost use Rattle.durable.specs.Entries.{Voted, Learned};
ghost use Rattle.durable.specs.Spelling.{behind_gate};

use crate::cells::{Cell, Change, change_cell, empty_cell, lengthen};
use crate::spelling::{learned_behind, vote_behind};
use acceptor::Slot;
use site_ids::{Ballot, Instance, Value, Vote};
use std::alloc::{AllocError, Global};
use std::collections::BTreeMap;

/// The cells in which something is kept, and perhaps empty ones.
#[derive(Drop)]
pub(crate) struct Slots {
    /// The cells of the instances from 1 on, up to the first one that has none.
    prefix: Vec<Cell>,
    /// The other cells, by instance.
    beyond: BTreeMap<u32, Cell>,
    empty: Cell,
    ghost none_promised: { empty.slot.promised ≡ None },
    ghost none_voted: { empty.slot.vote ≡ None },
    ghost none_learned: { empty.learned ≡ None },
}

impl Slots {
    ghost use Rattle.durable.specs.Cells.{no_cell, changed};
    ghost use Rattle.durable.specs.Slots.{found_at, cell_at, slot_at, value_at, IsThere};

    pub(crate) fn new(alloc: Global) -> Slots
        ensures { (at : ℕ) → cell_at result at ≡ no_cell }
    {
        Slots {
            prefix: Vec::new(alloc),
            beyond: BTreeMap::new(alloc),
            empty: empty_cell(),
        }
    }

    fn found(&self, at: Instance) -> Option<&Cell>
        ensures { option_copied result ≡ found_at self.now at }
    {
        let number = at.number();
        match self.prefix.get(number as usize - 1) {
            Some(cell) => Some(cell),
            None => self.beyond.get(&number),
        }
    }

    fn cell(&self, at: Instance) -> &Cell
        ensures { result.now ≡ cell_at self.now at }
    {
        match self.found(at) {
            Some(cell) => cell,
            None => &self.empty,
        }
    }

    /// The slot, or an empty one.
    pub(crate) fn get(&self, at: Instance) -> &Slot
        ensures { result.now ≡ slot_at self.now at }
    {
        &self.cell(at).slot
    }

    pub(crate) fn learned(&self, at: Instance) -> Option<&Value>
        ensures { option_copied result ≡ value_at self.now at }
    {
        self.cell(at).learned.as_ref()
    }

    /// Makes room for a slot, which changes none of them.
    pub(crate) fn make_room(&mut self, at: Instance) -> Result<(), AllocError>
        ensures same { (other : ℕ) → cell_at self.new other ≡ cell_at self.old other }
        ensures room { OnOk result (IsThere self.new at) }
        ensures kept { (other : ℕ) → IsThere self.old other → IsThere self.new other }
    {
        if self.found(at).is_some() {
            return Ok(());
        }
        if at.number() as usize == self.prefix.len() + 1 {
            return lengthen(&mut self.prefix, &mut self.beyond);
        }
        self.beyond.insert(at.number(), empty_cell())?;
        Ok(())
    }

    /// Makes room for the slot of each instance of a span, which changes none of them.
    pub(crate) fn make_room_for_span(
        &mut self,
        first: Instance,
        count: u8,
    ) -> Result<(), AllocError>
        requires { IsSpan first count }
        ensures same { (other : ℕ) → cell_at self.new other ≡ cell_at self.old other }
        ensures room { OnOk result ((at : ℕ) → IsInSpan first count at → IsThere self.new at) }
    {
        for past in 0..count {
            if let Some(at) = first.plus(past as u32) {
                self.make_room(at)?;
            }
        }
        Ok(())
    }

    /// Whether the ballot is above the promise of some instance of the span, or some instance has no promise.
    pub(crate) fn rises(&self, first: Instance, count: u8, ballot: Ballot) -> bool
        requires { IsSpan first count }
        ensures { IsTrue result ↔ ((at : ℕ) × IsInSpan first count at
            × IsFreeBelow (slot_at self.now at).promised ballot) }
    {
        for past in 0..count {
            if let Some(at) = first.plus(past as u32) {
                if self.is_free(at, ballot) {
                    return true;
                }
            }
        }
        false
    }

    fn is_free(&self, at: Instance, ballot: Ballot) -> bool
        ensures { IsTrue result ↔ IsFreeBelow (slot_at self.now at).promised ballot }
    {
        match self.get(at).promised {
            None => true,
            Some(promised) => promised < ballot,
        }
    }

    /// Raises the promise of an instance if it is below the ballot or there is none, and if there is room for
    /// the slot.
    fn raise(&mut self, at: Instance, ballot: Ballot)
        requires { IsThere self.old at }
        ensures raised { IsRaised (slot_at self.old at) ballot (slot_at self.new at) }
        ensures learned { value_at self.new at ≡ value_at self.old at }
        ensures others { (other : ℕ) → other ≢ at → cell_at self.new other ≡ cell_at self.old other }
        ensures room { (other : ℕ) → IsThere self.old other → IsThere self.new other }
    {
        if self.is_free(at, ballot) {
            self.change(at, Change::Promise(ballot));
        }
    }

    /// Raises the promise of each instance of a span.
    pub(crate) fn promise_span(&mut self, first: Instance, count: u8, ballot: Ballot)
        requires span { IsSpan first count }
        requires room { (at : ℕ) → IsInSpan first count at → IsThere self.old at }
        ensures raised { (at : ℕ) → IsInSpan first count at
            → IsRaised (slot_at self.old at) ballot (slot_at self.new at)
            × (value_at self.new at ≡ value_at self.old at) }
        ensures others { (at : ℕ) → ¬ IsInSpan first count at → cell_at self.new at ≡ cell_at self.old at }
    {
        for past in 0..count {
            if let Some(at) = first.plus(past as u32) {
                self.raise(at, ballot);
            }
        }
    }

    /// Changes the cell of an instance if it has one.
    pub(crate) fn change(&mut self, at: Instance, change: Change)
        requires { IsThere self.old at }
        ensures changed { cell_at self.new at ≡ changed (cell_at self.old at) change }
        ensures others { (other : ℕ) → other ≢ at → cell_at self.new other ≡ cell_at self.old other }
        ensures kept { (other : ℕ) → IsThere self.old other → IsThere self.new other }
    {
        if let Some(cell) = self.prefix.get_mut(at.number() as usize - 1) {
            change_cell(cell, change);
        } else if let Some(cell) = self.beyond.get_mut(&at.number()) {
            change_cell(cell, change);
        }
    }

    /// Allocates all that a vote needs: its bytes after the gate, the vote, and room for its slot.
    pub(crate) fn room_for_vote(
        &mut self,
        alloc: Global,
        instance: Instance,
        ballot: Ballot,
        value: &Value,
    ) -> Result<(Vec<u8>, Vote), AllocError>
        requires { length value.now ≤ MAX_VALUE }
        ensures bytes { IfOk result (λ p. p.0.items ≡ behind_gate (Voted instance ballot value.now)) }
        ensures vote { IfOk result (λ p. p.1 ≡ record { ballot = ballot; value = value.now }) }
        ensures in_range { IsInstance instance × (1 ≤ ballot.round) × (ballot.round < 2 ^ 32) }
        ensures room { OnOk result (IsThere self.new instance) }
        ensures slots { (at : ℕ) → cell_at self.new at ≡ cell_at self.old at }
    {
        let bytes = vote_behind(alloc, instance, ballot, value.as_bytes())?;
        let value = value.try_clone()?;
        self.make_room(instance)?;
        Ok((bytes, Vote { ballot, value }))
    }

    /// Allocates all that a learned value needs: its bytes after the gate, itself, and room for its slot.
    pub(crate) fn room_for_learned(
        &mut self,
        alloc: Global,
        instance: Instance,
        value: &Value,
    ) -> Result<(Vec<u8>, Value), AllocError>
        requires { length value.now ≤ MAX_VALUE }
        ensures bytes { IfOk result (λ p. p.0.items ≡ behind_gate (Learned instance value.now)) }
        ensures value { IfOk result (λ p. p.1 ≡ value.now) }
        ensures in_range { IsInstance instance }
        ensures room { OnOk result (IsThere self.new instance) }
        ensures slots { (at : ℕ) → cell_at self.new at ≡ cell_at self.old at }
    {
        let bytes = learned_behind(alloc, instance, value.as_bytes())?;
        let value = value.try_clone()?;
        self.make_room(instance)?;
        Ok((bytes, value))
    }
}
