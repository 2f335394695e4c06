//! What a node is asked as a service.

ghost use Rattle.std.specs.Prelude.{◌≡◌, IfOk};
ghost use Rattle.command.specs.Written.{value_of};

use crate::Served;
use command::write;
use http_serve::{Service, Submission, SubmitFault};
use node::{NodeFault, Submitted};
use release::{Answer, AnswerFault};
use site_disk::Disk;
use site_ids::{Instance, Ticket, Value};
use std::alloc::{AllocError, Global};

/// A ticket and a text as a value.
fn written(alloc: Global, ticket: Ticket, text: &[u8]) -> Result<Value, AllocError>
    ensures { IfOk result (λ v. v ≡ value_of ticket text.now) }
{
    Value::from_bytes(write(alloc, ticket, text)?)
}

impl<D: Disk> Service for Served<D> {
    ghost use Rattle.server_clients.specs.Served.{offered};

    ghost offered = { offered };

    fn newest(&self) -> u64 {
        self.node.newest()
    }

    fn answer(&self, _alloc: Global, n: u64, path: &str) -> Result<Answer, AnswerFault> {
        self.node.answer(n, path)
    }

    fn receipt(&self, ticket: Ticket) -> Option<Instance> {
        self.node.receipt(ticket)
    }

    fn submit(
        &mut self,
        alloc: Global,
        ticket: Ticket,
        text: &[u8],
    ) -> Result<Submission, SubmitFault> {
        let value = written(alloc, ticket, text)?;
        match self.node.submit(&value) {
            Ok(Submitted::Queued) => Ok(Submission::Queued),
            Ok(Submitted::Already) => Ok(Submission::Already),
            Err(NodeFault::NotACommand(fault)) => Err(SubmitFault::Command(fault)),
            Err(NodeFault::QueueFull) => Err(SubmitFault::Busy),
            Err(NodeFault::Stopped) => Err(SubmitFault::Stopped),
            Err(NodeFault::OutOfMemory) => Err(SubmitFault::OutOfMemory),
            Err(NodeFault::Device) => unreachable!(),
            Err(NodeFault::InstancesUsedUp) => unreachable!(),
            Err(NodeFault::RoundsUsedUp) => unreachable!(),
            Err(NodeFault::Conflict) => unreachable!(),
        }
    }
}
