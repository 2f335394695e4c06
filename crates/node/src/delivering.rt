//! A message that is delivered.
//!
//! An allocation may always fail for a promise (`TakesRoom`), since only the step shows whether there is a
//! majority.

ghost use Rattle.std.specs.Prelude.{◌≡◌, false};
ghost use Rattle.wire.specs.Messages.{IsMessage};
ghost use Rattle.node.specs.Deliveries.{reached_by};

use crate::{Node, NodeFault, Outbox};
use site_disk::Disk;
use wire::Message;

/// How far the messages have reached with this one: each counts with its instance, a prepare with the last
/// one of its span. A question or a refusal does not count.
fn reached_with(reached: u32, message: &Message) -> u32
    ensures { result ≡ reached_by reached message.now }
{
    match message {
        Message::Ask { .. } | Message::Nack { .. } => reached,
        Message::Prepare {
            instance,
            count,
            ..
        } => reached.max(instance.number() + *count as u32 - 1),
        Message::Promise { instance, .. }
        | Message::Propose { instance, .. }
        | Message::Accepted { instance, .. }
        | Message::Chosen { instance, .. } => reached.max(instance.number()),
    }
}

impl<D: Disk> Node<D> {
    ghost use Rattle.node.specs.Calls.{deliver as delivery};
    ghost use Rattle.node.specs.Standing.{IsEvent, IsHandled, OnlyGrows, KeepsOthers, CountsDevice};
    ghost use Rattle.node.specs.Standing.{ending_of};

    /// Handles a message, however old it is. It counts towards wanting a tick, unless it ends by a fault.
    pub fn deliver(&mut self, message: &Message, outbox: &mut Outbox) -> Result<(), NodeFault>
        requires { IsMessage self.old.cluster message.now }
        ensures event { IsEvent D.stands_for self.old self.new (delivery message.now)
            (ending_of result) outbox.old.items outbox.new.items }
        ensures counts { CountsDevice result (D.failed self.old.store.disk) (D.failed self.new.store.disk) }
        ensures grows { OnlyGrows outbox.old.items outbox.new.items }
        ensures others { KeepsOthers self.old self.new }
    {
        if self.store.is_stopped() {
            return Err(NodeFault::Stopped);
        }
        let reached = reached_with(self.reached, message);
        self.handle(message, outbox)?;
        self.reached = reached;
        Ok(())
    }

    /// Does what the message's kind does.
    fn handle(&mut self, message: &Message, outbox: &mut Outbox) -> Result<(), NodeFault>
        requires running { self.old.store.stopped ≡ false }
        requires of_cluster { IsMessage self.old.cluster message.now }
        ensures { IsHandled D.stands_for D.failed self.old self.new message.now
            result outbox.old.items outbox.new.items }
    {
        match message {
            Message::Prepare {
                instance,
                ballot,
                count,
                ..
            } => self.on_prepare(*instance, *count, *ballot, outbox),
            Message::Promise {
                from,
                instance,
                ballot,
                prior,
            } => self.on_promise(*from, *instance, *ballot, prior.as_ref(), outbox),
            Message::Propose {
                instance,
                ballot,
                value,
                ..
            } => self.on_propose(*instance, *ballot, value, outbox),
            Message::Accepted {
                from,
                instance,
                ballot,
                value,
            } => self.on_accepted(*from, *instance, *ballot, value),
            Message::Nack { promised, .. } => {
                self.on_nack(*promised);
                Ok(())
            }
            Message::Ask { from, instance } => self.on_ask(*from, *instance, outbox),
            Message::Chosen {
                instance,
                value,
                ..
            } => self.on_chosen(*instance, value),
        }
    }
}
