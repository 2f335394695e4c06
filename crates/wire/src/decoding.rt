ghost use Rattle.std.specs.Prelude.{◌≡◌, ◌++◌, ◌∷◌};
ghost use Rattle.std.specs.Option.{IfSome, IfNone};
ghost use Rattle.site_ids.specs.Ids.{IsBallot};
ghost use Rattle.wire.specs.declared.message.Message.{Message};
ghost use Rattle.site_ids.specs.Spelling.{ballot_bytes};
ghost use Rattle.wire.specs.Decoding.{Spells, Decodes, IsHead, datagram};

use crate::fields::{ballot_at, ballot_in, instance_at, value_in, vote_in};
use crate::{Message, WireFault};
use site_ids::{Ballot, Cluster, Instance, NodeId, Value, Vote};
use std::alloc::Global;

/// Who sent a message, and the instance that it is about.
#[derive(Clone, Copy)]
pub(crate) struct Head {
    from: NodeId,
    instance: Instance,
}

/// The message that a whole datagram spells. Its value is copied.
pub fn decode(alloc: Global, bytes: &[u8], cluster: Cluster) -> Result<Message, WireFault>
    ensures { Decodes cluster bytes.now result }
{
    let Some((version, kind, head, fields)) = head_at(cluster, bytes) else {
        return Err(WireFault::Malformed);
    };
    match (version, kind) {
        (1, 1) => prepare(cluster, head, fields),
        (1, 2) => promise(alloc, cluster, head, fields),
        (1, 3) => propose(alloc, cluster, head, fields),
        (1, 4) => accepted(alloc, cluster, head, fields),
        (1, 5) => nack(cluster, head, fields),
        (1, 6) => ask(cluster, head, fields),
        (1, 7) => chosen(alloc, cluster, head, fields),
        (2, 1) => prepare_span(cluster, head, fields),
        _ => Err(WireFault::Malformed),
    }
}

// The version, the kind and the head at the front of a datagram, and its fields.
fn head_at(cluster: Cluster, bytes: &[u8]) -> Option<(u8, u8, Head, &[u8])>
    ensures found { IfSome result (λ r. IsHead cluster r.2 × (bytes.now ≡ datagram r.0 r.1 r.2 r.3.now)) }
    ensures none { IfNone result ((m : Message) → ¬ Spells cluster bytes.now m) }
{
    let [version, kind, from, rest @ ..] = bytes else {
        return None;
    };
    let from = cluster.node(*from)?;
    let Some((instance, fields)) = instance_at(rest) else {
        return None;
    };
    Some((*version, *kind, Head { from, instance }, fields))
}

fn prepare(cluster: Cluster, head: Head, fields: &[u8]) -> Result<Message, WireFault>
    requires { IsHead cluster head }
    ensures { Decodes cluster (datagram 1 1 head fields.now) result }
{
    let Head { from, instance } = head;
    match ballot_in(cluster, fields) {
        Some(ballot) => Ok(Message::Prepare {
            from,
            instance,
            ballot,
            count: 1,
        }),
        None => Err(WireFault::Malformed),
    }
}

// A prepare of two or more instances.
fn prepare_span(cluster: Cluster, head: Head, fields: &[u8]) -> Result<Message, WireFault>
    requires { IsHead cluster head }
    ensures { Decodes cluster (datagram 2 1 head fields.now) result }
{
    let Head { from, instance } = head;
    let Some((ballot, count)) = ballot_at(cluster, fields) else {
        return Err(WireFault::Malformed);
    };
    match count {
        [count] if 2 <= *count && instance.begins_span(*count) => Ok(Message::Prepare {
            from,
            instance,
            ballot,
            count: *count,
        }),
        _ => Err(WireFault::Malformed),
    }
}

fn promise(alloc: Global, cluster: Cluster, head: Head, fields: &[u8]) -> Result<Message, WireFault>
    requires { IsHead cluster head }
    ensures { Decodes cluster (datagram 1 2 head fields.now) result }
{
    let Head { from, instance } = head;
    let Some((ballot, mark)) = ballot_at(cluster, fields) else {
        return Err(WireFault::Malformed);
    };
    match mark {
        [0] => Ok(Message::Promise {
            from,
            instance,
            ballot,
            prior: None,
        }),
        [1, vote @ ..] => promise_with_prior(alloc, cluster, head, ballot, vote),
        _ => Err(WireFault::Malformed),
    }
}

fn promise_with_prior(
    alloc: Global,
    cluster: Cluster,
    head: Head,
    ballot: Ballot,
    vote: &[u8],
) -> Result<Message, WireFault>
    requires head { IsHead cluster head }
    requires ballot { IsBallot cluster ballot }
    ensures { Decodes cluster (datagram 1 2 head (ballot_bytes ballot ++ 1 ∷ vote.now)) result }
{
    let Head { from, instance } = head;
    let Some((voted, value)) = vote_in(cluster, vote) else {
        return Err(WireFault::Malformed);
    };
    let value = Value::copied_from(alloc, value)?;
    let prior = Some(Vote {
        ballot: voted,
        value,
    });
    Ok(Message::Promise {
        from,
        instance,
        ballot,
        prior,
    })
}

fn propose(alloc: Global, cluster: Cluster, head: Head, fields: &[u8]) -> Result<Message, WireFault>
    requires { IsHead cluster head }
    ensures { Decodes cluster (datagram 1 3 head fields.now) result }
{
    let Head { from, instance } = head;
    let Some((ballot, value)) = vote_in(cluster, fields) else {
        return Err(WireFault::Malformed);
    };
    let value = Value::copied_from(alloc, value)?;
    Ok(Message::Propose {
        from,
        instance,
        ballot,
        value,
    })
}

fn accepted(
    alloc: Global,
    cluster: Cluster,
    head: Head,
    fields: &[u8],
) -> Result<Message, WireFault>
    requires { IsHead cluster head }
    ensures { Decodes cluster (datagram 1 4 head fields.now) result }
{
    let Head { from, instance } = head;
    let Some((ballot, value)) = vote_in(cluster, fields) else {
        return Err(WireFault::Malformed);
    };
    let value = Value::copied_from(alloc, value)?;
    Ok(Message::Accepted {
        from,
        instance,
        ballot,
        value,
    })
}

fn nack(cluster: Cluster, head: Head, fields: &[u8]) -> Result<Message, WireFault>
    requires { IsHead cluster head }
    ensures { Decodes cluster (datagram 1 5 head fields.now) result }
{
    let Head { from, instance } = head;
    let Some((asked, rest)) = ballot_at(cluster, fields) else {
        return Err(WireFault::Malformed);
    };
    match ballot_in(cluster, rest) {
        Some(promised) => Ok(Message::Nack {
            from,
            instance,
            asked,
            promised,
        }),
        None => Err(WireFault::Malformed),
    }
}

fn ask(cluster: Cluster, head: Head, fields: &[u8]) -> Result<Message, WireFault>
    requires { IsHead cluster head }
    ensures { Decodes cluster (datagram 1 6 head fields.now) result }
{
    let Head { from, instance } = head;
    if fields.is_empty() {
        Ok(Message::Ask { from, instance })
    } else {
        Err(WireFault::Malformed)
    }
}

fn chosen(alloc: Global, cluster: Cluster, head: Head, fields: &[u8]) -> Result<Message, WireFault>
    requires { IsHead cluster head }
    ensures { Decodes cluster (datagram 1 7 head fields.now) result }
{
    let Head { from, instance } = head;
    let Some(value) = value_in(fields) else {
        return Err(WireFault::Malformed);
    };
    let value = Value::copied_from(alloc, value)?;
    Ok(Message::Chosen {
        from,
        instance,
        value,
    })
}
