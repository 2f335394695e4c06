//! Fresh attempts that begin.

ghost use Rattle.std.specs.Prelude.{◌≡◌, ◌<◌, OnOk, length, false};
ghost use Rattle.site_ids.specs.Spans.{IsSpan};
ghost use Rattle.node.specs.Beginning.{IsDue};

use crate::{Node, NodeFault, Outbox, To};
use site_disk::Disk;
use site_ids::{Ballot, Instance, Value};
use wire::Message;

/// Attempts that are to begin: one for each value, from an instance on, all at one ballot. What is sent again
/// goes out after their prepare.
#[derive(Drop)]
pub(crate) struct Beginning {
    pub(crate) first: Instance,
    pub(crate) ballot: Ballot,
    pub(crate) values: Vec<Value>,
    pub(crate) again: Outbox,
}

impl<D: Disk> Node<D> {
    ghost use Rattle.node.specs.Calls.{Call};
    ghost use Rattle.node.specs.Standing.{IsEvent, TakesRound, OnlyGrows, KeepsOthers, CountsDevice};
    ghost use Rattle.node.specs.Standing.{ending_of};

    /// The ballot's round goes on record, the attempts begin, and one prepare for all of them goes out. All
    /// room is reserved first.
    pub(crate) fn begin_attempts(
        &mut self,
        due: Beginning,
        outbox: &mut Outbox,
    ) -> Result<(), NodeFault>
        requires running { self.old.store.stopped ≡ false }
        requires above { self.old.store.recorded.round < due.ballot.round }
        requires span { IsSpan due.first (length due.values.items) }
        ensures event { (call : Call) → IsDue self.old call due
            → IsEvent D.stands_for self.old self.new call
            (ending_of result) outbox.old.items outbox.new.items }
        ensures rises { OnOk result (TakesRound self.old self.new) }
        ensures counts { CountsDevice result (D.failed self.old.store.disk) (D.failed self.new.store.disk) }
        ensures grows { OnlyGrows outbox.old.items outbox.new.items }
        ensures others { KeepsOthers self.old self.new }
    {
        let Beginning {
            first,
            ballot,
            values,
            mut again,
        } = due;
        let count = values.len() as u8;
        outbox.reserve(1 + again.len())?;
        self.proposer.make_room_for_span(first, count)?;
        self.store.put_round(ballot.round())?;
        self.proposer.open_span(first, ballot, values);
        outbox.push_reserved((
            To::All,
            Message::Prepare {
                from: self.me,
                instance: first,
                ballot,
                count,
            },
        ));
        let _ = outbox.append(&mut again);
        Ok(())
    }
}
