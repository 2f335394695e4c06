//! A widening: fresh attempts from the least free instance on.
//!
//! Whether an attempt has a value is looked up among 64 attempts; a set would have to allocate. Each widening
//! uses up a round, which bounds a drive.

ghost use Rattle.std.specs.Prelude.{◌≡◌, ◌↔◌, ◌+◌, ◌<◌, ◌≤◌, ℕ, Option, None, Some, IfOk, IfErr};
ghost use Rattle.std.specs.Prelude.{IfSome, OnOk, IsTrue, MatchOption, length, false};
ghost use Rattle.site_ids.specs.Spans.{IsSpan};
ghost use Rattle.node.specs.Beginning.{IsDue, IsRefusedBy};
ghost use Rattle.proposer.specs.declared.TheConstants.{MAX_ATTEMPTS};
ghost use Rattle.proposer.specs.Attempts.{Attempt};
ghost use Rattle.proposer.specs.Standing.{Attempting};

use crate::beginning::Beginning;
use crate::{Node, NodeFault, Outbox, WINDOW};
use site_disk::Disk;
use site_ids::{Instance, Value};
use std::alloc::AllocError;

impl<D: Disk> Node<D> {
    ghost use Rattle.node.specs.Nodes.{Node as AbstractNode, Value as Bytes, IsUnknown, IsFirstUnknown};
    ghost use Rattle.node.specs.Calls.{IsUntried, IsNextFree, MayWiden, widen as widening};
    ghost use Rattle.node.specs.Widening.{IsFreeRun, IsOldestUntried, AreOldest, PushesUntried};
    ghost use Rattle.node.specs.Standing.{IsNodeOf, IsEvent, TakesRound, OnlyGrows, KeepsOthers};
    ghost use Rattle.node.specs.Standing.{CountsDevice, ending_of};

    /// A fresh round goes on record. With it attempts begin from the least free instance on, as long as the
    /// next instance is free and in reach. They are for the oldest pending values that no attempt has as its
    /// own. One prepare for all of them goes out. If there is no such instance or no such value, it returns
    /// false, and nothing happens.
    pub fn widen(&mut self, outbox: &mut Outbox) -> Result<bool, NodeFault>
        ensures event { IsEvent D.stands_for self.old self.new widening
            (ending_of result) outbox.old.items outbox.new.items }
        ensures widened { IfOk result (λ widened. (s : AbstractNode) → IsNodeOf self.old s → IsTrue widened
            ↔ MayWiden s) }
        ensures rises { IfOk result (λ widened. IsTrue widened → TakesRound self.old self.new) }
        ensures counts { CountsDevice result (D.failed self.old.store.disk) (D.failed self.new.store.disk) }
        ensures grows { OnlyGrows outbox.old.items outbox.new.items }
        ensures others { KeepsOthers self.old self.new }
    {
        let Some(due) = self.next_widening()? else {
            return Ok(false);
        };
        self.begin_attempts(due, outbox)?;
        Ok(true)
    }

    /// What a widening begins, if anything.
    fn next_widening(&self) -> Result<Option<Beginning>, NodeFault>
        ensures running { OnOk result (self.now.store.stopped ≡ false) }
        ensures due { IfOk result (λ due. IfSome due (λ due. IsDue self.now widening due)) }
        ensures may { IfOk result (λ due. (s : AbstractNode) → IsNodeOf self.now s
            → MatchOption due (¬ MayWiden s) (λ due. MayWiden s)) }
        ensures refused { IfErr result (λ fault. IsRefusedBy self.now widening fault) }
    {
        if self.store.is_stopped() {
            return Err(NodeFault::Stopped);
        }
        let Some(gap) = self.next_gap() else {
            return Ok(None);
        };
        let Some(first) = self.next_free(gap) else {
            return Ok(None);
        };
        let Some(oldest) = self.next_untried() else {
            return Ok(None);
        };
        let Some(ballot) = self.own_ballot() else {
            return Err(NodeFault::RoundsUsedUp);
        };
        let most = self.free_run(gap, first);
        let values = self.untried(oldest, most)?;
        Ok(Some(Beginning {
            first,
            ballot,
            values,
            again: Vec::new(self.alloc),
        }))
    }

    /// The least free instance, from the first unknown one on. A node that is mute at the first unknown one
    /// has none.
    fn next_free(&self, first: Instance) -> Option<Instance>
        ensures least { (s : AbstractNode) → IsNodeOf self.now s → IsFirstUnknown s.known first
            → MatchOption result ((i : ℕ) → ¬ IsNextFree s i) (λ i. IsNextFree s i) }
        ensures near { IfSome result (λ i. (first ≤ i) × (i < first + MAX_ATTEMPTS)) }
    {
        if self.is_mute(first) {
            return None;
        }
        if self.is_full(first) {
            return None;
        }
        for past in 0..WINDOW {
            let instance = first.plus(past)?;
            if self.is_free(instance) {
                return Some(instance);
            }
        }
        None
    }

    /// Whether the last instance of the window has an attempt. If so, each unknown one has.
    fn is_full(&self, first: Instance) -> bool
        ensures { (s : AbstractNode) → IsNodeOf self.now s → IsFirstUnknown s.known first → IsTrue result
            → (i : ℕ) → ¬ IsNextFree s i }
    {
        match first.plus(WINDOW - 1) {
            Some(last) => self.proposer.own_value(last).is_some(),
            None => false,
        }
    }

    /// How many instances from a free one on are free, without a gap, up to the window's end.
    fn free_run(&self, first: Instance, instance: Instance) -> usize
        requires near { (first ≤ instance) × (instance < first + MAX_ATTEMPTS) }
        ensures free { (s : AbstractNode) → IsNodeOf self.now s → IsFirstUnknown s.known first
            → IsNextFree s instance → IsFreeRun s first instance result }
        ensures span { IsSpan instance result }
    {
        let most = first.number() + WINDOW - instance.number();
        for past in 1..most {
            let Some(at) = instance.plus(past) else {
                return past as usize;
            };
            if !self.is_free(at) {
                return past as usize;
            }
        }
        most as usize
    }

    /// Whether the instance is unknown and has no attempt.
    fn is_free(&self, instance: Instance) -> bool
        ensures { (s : AbstractNode) → IsNodeOf self.now s → IsTrue result
            ↔ (IsUnknown s instance × (s.attempts instance ≡ None)) }
    {
        match self.known.log.get(instance) {
            Some(_) => false,
            None => match self.proposer.own_value(instance) {
                Some(_) => false,
                None => true,
            },
        }
    }

    /// The place in the queue of the oldest value that no attempt has as its own.
    fn next_untried(&self) -> Option<usize>
        ensures oldest { (s : AbstractNode) → IsNodeOf self.now s
            → MatchOption result ((v : Bytes) → ¬ IsUntried s v) (λ n. IsOldestUntried s n) }
        ensures within { IfSome result (λ n. n < length self.now.queue.items.items) }
    {
        for place in 0..self.queue.len() {
            let Some(value) = self.queue.value_at(place) else {
                return None;
            };
            if !self.proposer.tries(value.as_bytes()) {
                return Some(place);
            }
        }
        None
    }

    /// Copies of the values that no attempt has as its own, from the oldest on, which is at this place of the
    /// queue: all of them, or as many as `most`.
    fn untried(&self, oldest: usize, most: usize) -> Result<Vec<Value>, AllocError>
        requires within { oldest < length self.now.queue.items.items }
        requires some { 1 ≤ most }
        ensures oldest { IfOk result (λ values. (s : AbstractNode) (first : ℕ) → IsNodeOf self.now s
            → IsFirstUnknown s.known first → IsOldestUntried s oldest → AreOldest s most values.items) }
        ensures few { IfOk result (λ values. (1 ≤ length values.items) × (length values.items ≤ most)) }
    {
        let mut values = Vec::new(self.alloc);
        let Some(first) = self.queue.value_at(oldest) else {
            return Ok(values);
        };
        values.push(first.try_clone()?)?;
        for place in oldest + 1..self.queue.len() {
            let Some(value) = self.queue.value_at(place) else {
                return Ok(values);
            };
            if values.len() == most {
                return Ok(values);
            }
            self.push_untried(value, &mut values)?;
        }
        Ok(values)
    }

    /// Puts a copy of the value after what is there, unless an attempt has it as its own.
    fn push_untried(&self, value: &Value, values: &mut Vec<Value>) -> Result<(), AllocError>
        ensures pushes { OnOk result ((attempts : ℕ → Option Attempt) → Attempting self.now.proposer attempts
            → PushesUntried attempts value.now values.old.items values.new.items) }
        ensures few { OnOk result ((length values.old.items ≤ length values.new.items)
            × (length values.new.items ≤ length values.old.items + 1)) }
    {
        if self.proposer.tries(value.as_bytes()) {
            return Ok(());
        }
        values.push(value.try_clone()?)?;
        Ok(())
    }
}
