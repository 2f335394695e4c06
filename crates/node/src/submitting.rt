//! A submission.

ghost use Rattle.std.specs.Prelude.{◌≡◌, ◌↔◌, ◌<◌, [], Ok, IsTrue, IfOk, IfErr, IsErrOf, MatchResult};
ghost use Rattle.command.specs.Action.{Order};
ghost use Rattle.command.specs.Reading.{value_reading};
ghost use Rattle.command.specs.Standing.{StandsFor};
ghost use Rattle.node.specs.Faults.{IsUnread, IsSubmitCause};

use crate::{Node, NodeFault, Submitted};
use command::{Command, read};
use site_disk::Disk;
use site_ids::{Ticket, Value};
use std::alloc::Global;

/// The command that is submitted.
fn submitted(alloc: Global, value: &Value) -> Result<Command, NodeFault>
    ensures { MatchResult result (λ command. (order : Order) × (value_reading value.now ≡ Ok order)
        × StandsFor command order) (IsUnread value.now) }
{
    let command = read(alloc, value.as_bytes())?;
    Ok(command)
}

impl<D: Disk> Node<D> {
    ghost use Rattle.node.specs.Nodes.{Node as AbstractNode};
    ghost use Rattle.node.specs.Calls.{submit as submission, IsAnswered};
    ghost use Rattle.node.specs.Tickets.{HoldsTicket};
    ghost use Rattle.node.specs.Standing.{IsNodeOf, IsEvent, KeepsOthers, ending_of};

    /// Queues a command to be proposed, unless its ticket is pending or known.
    pub fn submit(&mut self, value: &Value) -> Result<Submitted, NodeFault>
        ensures event { IsEvent D.stands_for self.old self.new (submission value.now)
            (ending_of result) [] [] }
        ensures answered { IfOk result (λ answer. (s : AbstractNode) → IsNodeOf self.old s
            → IsAnswered s value.now answer) }
        ensures cause { IfErr result IsSubmitCause }
        ensures no_put { (¬ IsErrOf result NodeFault.Device) × (self.new.store ≡ self.old.store) }
        ensures others { KeepsOthers self.old self.new }
    {
        if self.store.is_stopped() {
            return Err(NodeFault::Stopped);
        }
        let command = submitted(self.alloc, value)?;
        if self.holds(command.ticket) {
            drop(command);
            return Ok(Submitted::Already);
        }
        if self.queue.is_full() {
            drop(command);
            return Err(NodeFault::QueueFull);
        }
        self.queue.push(value, command)?;
        Ok(Submitted::Queued)
    }

    /// Whether a pending or known value has that ticket.
    fn holds(&self, ticket: Ticket) -> bool
        ensures { (s : AbstractNode) → IsNodeOf self.now s → IsTrue result ↔ HoldsTicket s ticket }
    {
        self.queue.holds(ticket) || self.known.holds(&self.releases, ticket)
    }
}
