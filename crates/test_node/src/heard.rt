//! Messages that come to node 1, as tables have them.
use crate::samples::{Text, ballot, instance, node_of, value};
use site_ids::{Cluster, NodeId, Value, Vote};
use std::alloc::Global;
use std::process::Abort;
use wire::Message;

/// A message of the node whose number comes first.
#[derive(Clone, Copy)]
pub(crate) enum Heard {
    /// It prepares instances: the first one, how many, the round.
    Prepare(u8, u32, u8, u32),
    /// It proposes a value at an instance, in a round.
    Propose(u8, u32, u32, Text),
    /// It promises node 1 the first round at instance 1, and reports a vote for `v` in the second round, of
    /// node 2.
    Promise(u8, u32, u32),
    /// It votes for a value at instance 1, in round 1 of node 1.
    Vote(u8, Text),
    /// It refuses round 1 of node 1 at instance 1, since it promised node 2 that round.
    Nack(u8, u32),
    /// It asks for the value of an instance.
    Ask(u8, u32),
    /// It tells the value of an instance.
    Chosen(u8, u32, Text),
}

fn prepare(rt: &impl Abort, from: NodeId, span: (u32, u8), round: u32) -> Message {
    let (first, count) = span;
    Message::Prepare {
        from,
        instance: instance(rt, first),
        ballot: ballot(rt, round, from),
        count,
    }
}

fn propose(rt: &impl Abort, from: NodeId, at: (u32, u32), value: Value) -> Message {
    let (number, round) = at;
    Message::Propose {
        from,
        instance: instance(rt, number),
        ballot: ballot(rt, round, from),
        value,
    }
}

fn promise(
    rt: &impl Abort,
    cluster: Cluster,
    from: u8,
    rounds: (u32, u32),
    value: Value,
) -> Message {
    let (round, prior) = rounds;
    Message::Promise {
        from: node_of(rt, cluster, from),
        instance: instance(rt, 1),
        ballot: ballot(rt, round, node_of(rt, cluster, 1)),
        prior: Some(Vote {
            ballot: ballot(rt, prior, node_of(rt, cluster, 2)),
            value,
        }),
    }
}

fn vote(rt: &impl Abort, cluster: Cluster, from: u8, value: Value) -> Message {
    Message::Accepted {
        from: node_of(rt, cluster, from),
        instance: instance(rt, 1),
        ballot: ballot(rt, 1, node_of(rt, cluster, 1)),
        value,
    }
}

fn nack(rt: &impl Abort, cluster: Cluster, from: u8, round: u32) -> Message {
    Message::Nack {
        from: node_of(rt, cluster, from),
        instance: instance(rt, 1),
        asked: ballot(rt, 1, node_of(rt, cluster, 1)),
        promised: ballot(rt, round, node_of(rt, cluster, 2)),
    }
}

fn chosen(rt: &impl Abort, from: NodeId, at: u32, value: Value) -> Message {
    Message::Chosen {
        from,
        instance: instance(rt, at),
        value,
    }
}

/// The message of a node of that cluster.
pub(crate) fn message(rt: &impl Abort, alloc: Global, cluster: Cluster, heard: Heard) -> Message {
    match heard {
        Heard::Prepare(from, first, count, round) => {
            prepare(rt, node_of(rt, cluster, from), (first, count), round)
        }
        Heard::Propose(from, at, round, text) => {
            let value = value(rt, alloc, text);
            propose(rt, node_of(rt, cluster, from), (at, round), value)
        }
        Heard::Promise(from, round, prior) => {
            let value = value(rt, alloc, Text::Raw("v"));
            promise(rt, cluster, from, (round, prior), value)
        }
        Heard::Vote(from, text) => vote(rt, cluster, from, value(rt, alloc, text)),
        Heard::Nack(from, round) => nack(rt, cluster, from, round),
        Heard::Ask(from, at) => Message::Ask {
            from: node_of(rt, cluster, from),
            instance: instance(rt, at),
        },
        Heard::Chosen(from, at, text) => {
            let value = value(rt, alloc, text);
            chosen(rt, node_of(rt, cluster, from), at, value)
        }
    }
}
