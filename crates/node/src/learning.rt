//! A value that becomes known.

ghost use Rattle.std.specs.Prelude.{◌≡◌, ◌↔◌, None, IsTrue, IfOk, OnErr, OnOk};

use crate::Node;
use acceptor::Slot;
use site_disk::Disk;
use site_ids::{Instance, Value};
use std::alloc::AllocError;

/// Whether the two values are the same.
fn is_same(one: &Value, other: &Value) -> bool
    ensures { IsTrue result ↔ (one.now ≡ other.now) }
{
    one.as_bytes() == other.as_bytes()
}

/// The value. If the slot's vote is for it, these are the slot's bytes, so that they are kept once.
fn kept_by<'a>(slot: &'a Slot, value: &'a Value) -> &'a Value
    ensures { result.now ≡ value.now }
{
    match &slot.vote {
        Some(vote) if vote.value.as_bytes() == value.as_bytes() => &vote.value,
        _ => value,
    }
}

impl<D: Disk> Node<D> {
    ghost use Rattle.chosen_log.specs.Log.{value_at};
    ghost use Rattle.node.specs.Nodes.{Node as AbstractNode};
    ghost use Rattle.node.specs.Effects.{learned};
    ghost use Rattle.node.specs.Standing.{HasParts, KeepsOthers};

    /// Makes a value known at an instance that has none. Its votes and its attempt, and pending values with
    /// its ticket, are dropped.
    pub(crate) fn learn(&mut self, instance: Instance, value: &Value) -> Result<(), AllocError>
        requires unknown { value_at self.old.known.log instance ≡ None }
        ensures learned { OnOk result ((s : AbstractNode) → HasParts self.old s
            → HasParts self.new (learned s instance value.now)) }
        ensures refused { OnErr result ((s : AbstractNode) → HasParts self.old s → HasParts self.new s) }
        ensures same { (self.new.reached ≡ self.old.reached) × (self.new.store ≡ self.old.store) }
        ensures others { KeepsOthers self.old self.new }
    {
        let value = self.shared_copy(instance, value)?;
        let read = self.queue.take_read(&value);
        let ticket = self.known.learn(self.alloc, instance, value, read)?;
        self.learner.forget(instance);
        self.proposer.abandon(instance);
        if let Some(ticket) = ticket {
            self.queue.drop_ticket(ticket);
        }
        Ok(())
    }

    /// A copy of the value. If the value is learned on record or is that of the slot's vote, the copy shares
    /// those bytes.
    fn shared_copy(&self, instance: Instance, value: &Value) -> Result<Value, AllocError>
        ensures { IfOk result (λ copy. copy ≡ value.now) }
    {
        if let Some(learned) = self.store.learned(instance) {
            if is_same(learned, value) {
                return Ok(learned.try_clone()?);
            }
        }
        Ok(kept_by(self.store.slot(instance), value).try_clone()?)
    }
}
