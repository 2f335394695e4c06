ghost use Rattle.std.specs.Prelude.{◌≡◌, ◌↔◌, IsTrue};
ghost use Rattle.wire.specs.Messages.{sender_of, instance_of, kind_of, Fits};
ghost use Rattle.wire.specs.Spelling.{version_of};

use site_ids::{Ballot, Instance, MAX_VALUE, NodeId, Value, Vote};

/// What one node reports to others about one instance, or asks of them about an instance or a span.
#[derive(Drop)]
pub enum Message {
    /// Asks for the promise of a ballot at each of `count` instances, from this one on.
    Prepare {
        from: NodeId,
        instance: Instance,
        ballot: Ballot,
        count: u8,
    },
    Promise {
        from: NodeId,
        instance: Instance,
        ballot: Ballot,
        /// The vote that the sender had, if any.
        prior: Option<Vote>,
    },
    Propose {
        from: NodeId,
        instance: Instance,
        ballot: Ballot,
        value: Value,
    },
    Accepted {
        from: NodeId,
        instance: Instance,
        ballot: Ballot,
        value: Value,
    },
    Nack {
        from: NodeId,
        instance: Instance,
        asked: Ballot,
        promised: Ballot,
    },
    /// Asks for the value of an instance.
    Ask {
        from: NodeId,
        instance: Instance,
    },
    /// The value of an instance, which the sender knows.
    Chosen {
        from: NodeId,
        instance: Instance,
        value: Value,
    },
}

impl Message {
    pub fn from(&self) -> NodeId
        ensures { result ≡ sender_of self.now }
    {
        match self {
            Message::Prepare { from, .. }
            | Message::Promise { from, .. }
            | Message::Propose { from, .. }
            | Message::Accepted { from, .. }
            | Message::Nack { from, .. }
            | Message::Ask { from, .. }
            | Message::Chosen { from, .. } => *from,
        }
    }

    pub fn instance(&self) -> Instance
        ensures { result ≡ instance_of self.now }
    {
        match self {
            Message::Prepare { instance, .. }
            | Message::Promise { instance, .. }
            | Message::Propose { instance, .. }
            | Message::Accepted { instance, .. }
            | Message::Nack { instance, .. }
            | Message::Ask { instance, .. }
            | Message::Chosen { instance, .. } => *instance,
        }
    }

    /// The version of its spelling.
    pub(crate) fn version(&self) -> u8
        ensures { result ≡ version_of self.now }
    {
        match self {
            Message::Prepare { count, .. } if *count != 1 => 2,
            _ => 1,
        }
    }

    /// The number of its kind in a datagram.
    pub(crate) fn kind(&self) -> u8
        ensures { result ≡ kind_of self.now }
    {
        match self {
            Message::Prepare { .. } => 1,
            Message::Promise { .. } => 2,
            Message::Propose { .. } => 3,
            Message::Accepted { .. } => 4,
            Message::Nack { .. } => 5,
            Message::Ask { .. } => 6,
            Message::Chosen { .. } => 7,
        }
    }

    /// Whether its value, if it has one, is within the limit, and its instances, if it is a prepare, are a
    /// span.
    pub fn fits(&self) -> bool
        ensures { IsTrue result ↔ Fits self.now }
    {
        match self {
            Message::Prepare {
                instance,
                count,
                ..
            } => instance.begins_span(*count),
            Message::Nack { .. } | Message::Ask { .. } => true,
            Message::Promise { prior: None, .. } => true,
            Message::Promise {
                prior: Some(vote),
                ..
            } => vote.value.as_bytes().len() <= MAX_VALUE,
            Message::Propose { value, .. }
            | Message::Accepted { value, .. }
            | Message::Chosen { value, .. } => value.as_bytes().len() <= MAX_VALUE,
        }
    }
}
