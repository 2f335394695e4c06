//! What a server calls after the turns of a batch.

ghost use Rattle.std.specs.Prelude.{◌≡◌};
ghost use Rattle.server_pace.specs.Turns.{call_behind, goes_first};

use site_drive::LastCall;
use site_ids::{Instance, NodeId};

/// What is due as a batch begins.
#[derive(Clone, Copy, Debug, PartialEq, Eq, Drop)]
pub struct Due {
    /// A value was just submitted, and this server does not yield.
    pub fresh: bool,
    /// The first instance to put on record, and how many, if that is due.
    pub block: Option<(Instance, u32)>,
    /// Whom to tell, and from which instance on, if a telling is due.
    pub telling: Option<(NodeId, Instance)>,
    /// A question is due.
    pub question: bool,
    /// A tick is due.
    pub tick: bool,
    /// A majority answered since the last tick.
    pub answered: bool,
    /// A tick is due at once, for the next of the instances that are on its record.
    pub goes_on: bool,
    /// Another server's attempt stands at the first unknown instance, or it is another one's turn.
    pub waits: bool,
    /// It waits, and so it yields: its time to do so has not passed.
    pub yields: bool,
}

impl Due {
    /// The first that applies: a tick at once for a fresh value; what is known is put on record; a tick, a
    /// question or a telling that is due; nothing if it yields; widenings, so that the values that came since
    /// the last batch share a prepare. A question that is due goes before putting on record: its answer comes
    /// while the disk writes, and what waited is due in the next batch.
    pub fn last_call(self) -> LastCall
        ensures { result ≡ call_behind self }
    {
        if self.fresh {
            return LastCall::TickOrAsk;
        }
        if let Some((first, count)) = self.block {
            return if self.question {
                LastCall::Ask
            } else {
                LastCall::Keep { first, count }
            };
        }
        if self.tick || self.goes_on {
            return LastCall::TickOrAsk;
        }
        if self.question {
            return LastCall::Ask;
        }
        if let Some((to, first)) = self.telling {
            return LastCall::Tell { to, first };
        }
        if self.yields {
            return LastCall::Nothing;
        }
        LastCall::Widen
    }

    /// Whether something goes before a telling.
    pub fn goes_first(self) -> bool
        ensures { result ≡ goes_first self }
    {
        self.fresh || self.block.is_some() || self.tick || self.goes_on || self.question
    }
}
