//! The messages of a node, and to whom they go.
//!
//! A handler's clause has the premise that a message is in range; a call has no such condition.

ghost use Rattle.std.specs.Prelude.{◌≡◌};

use crate::To;
use site_ids::{Ballot, Instance, NodeId, Value, Vote};
use wire::Message;

/// A promise goes to the node of the ballot in question.
pub(crate) fn promise(
    from: NodeId,
    instance: Instance,
    ballot: Ballot,
    prior: Option<Vote>,
) -> (To, Message)
    ensures { result ≡ (To.One ballot.node, Message.Promise from instance ballot prior) }
{
    (
        To::One(ballot.node()),
        Message::Promise {
            from,
            instance,
            ballot,
            prior,
        },
    )
}

/// A refusal goes there too.
pub(crate) fn nack(
    from: NodeId,
    instance: Instance,
    asked: Ballot,
    promised: Ballot,
) -> (To, Message)
    ensures { result ≡ (To.One asked.node, Message.Nack from instance asked promised) }
{
    (
        To::One(asked.node()),
        Message::Nack {
            from,
            instance,
            asked,
            promised,
        },
    )
}

/// A vote goes to all nodes.
pub(crate) fn accepted(
    from: NodeId,
    instance: Instance,
    ballot: Ballot,
    value: Value,
) -> (To, Message)
    ensures { result ≡ (To.All, Message.Accepted from instance ballot value) }
{
    (
        To::All,
        Message::Accepted {
            from,
            instance,
            ballot,
            value,
        },
    )
}
