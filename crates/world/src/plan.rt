//! The events of a plan.
//!
//! The refusal of the highest promise is delivered first, so one refusal is enough.

ghost use Rattle.std.specs.Prelude.{◌≡◌, ◌++◌, ◌+◌, ◌<◌, ◌^◌, OnOk, length};
ghost use Rattle.world.specs.Quiet.{each_to, one_attempt, overbid_first, quorum, to_each};

use crate::Event;
use node::Outbox;
use site_ids::{Cluster, NodeId};
use std::alloc::AllocError;

// The message at an index goes to each node of a quorum.
fn push_to_each(events: &mut Vec<Event>, cluster: Cluster, index: usize) -> Result<(), AllocError>
    ensures { OnOk result (events.new.items ≡ events.old.items ++ to_each index 1 (quorum cluster)) }
{
    let mut told = 0;
    while told < cluster.quorum() {
        let Some(node) = cluster.node(told + 1) else {
            return Ok(());
        };
        events.push(Event::Deliver { node, index })?;
        told += 1;
    }
    Ok(())
}

// Some messages, from an index on, go to a node.
fn push_each_to(
    events: &mut Vec<Event>,
    node: NodeId,
    first: usize,
    count: u8,
) -> Result<(), AllocError>
    requires { first + count < 2 ^ 64 }
    ensures { OnOk result (events.new.items ≡ events.old.items ++ each_to node first count) }
{
    let mut told = 0;
    while told < count {
        events.push(Event::Deliver {
            node,
            index: first + told as usize,
        })?;
        told += 1;
    }
    Ok(())
}

// An attempt of a node. It is given how many messages were handed out before the attempt, and how many its
// tick sends again.
fn push_attempt_at(
    events: &mut Vec<Event>,
    cluster: Cluster,
    me: NodeId,
    sent: usize,
    again: u8,
) -> Result<(), AllocError>
    requires { sent + again + 20 < 2 ^ 64 }
    ensures { OnOk result (events.new.items ≡ events.old.items ++ one_attempt cluster me sent again) }
{
    let quorum = cluster.quorum();
    let promises = sent + 1 + again as usize;
    let proposal = promises + quorum as usize;
    events.push(Event::Tick { node: me })?;
    push_to_each(events, cluster, sent)?;
    push_each_to(events, me, promises, quorum)?;
    push_to_each(events, cluster, proposal)?;
    push_each_to(events, me, proposal + 1, quorum)
}

/// An attempt of a node, after the messages that were handed out. It is given how many messages its tick
/// sends again.
pub(crate) fn push_attempt(
    events: &mut Vec<Event>,
    cluster: Cluster,
    me: NodeId,
    sent: &Outbox,
    again: u8,
) -> Result<(), AllocError>
    ensures { OnOk result (events.new.items
        ≡ events.old.items ++ one_attempt cluster me (length sent.now.items) again) }
{
    push_attempt_at(events, cluster, me, sent.len(), again)
}

/// An attempt of a node that another node refuses, and then one more.
pub(crate) fn push_overbid(
    events: &mut Vec<Event>,
    cluster: Cluster,
    me: NodeId,
    highest: NodeId,
    sent: &Outbox,
    again: u8,
) -> Result<(), AllocError>
    ensures { OnOk result (events.new.items
        ≡ events.old.items ++ overbid_first me highest (length sent.now.items) again
        (one_attempt cluster me (length sent.now.items + 2 + again) again)) }
{
    let prepare = sent.len();
    let refusal = prepare + 1 + again as usize;
    events.push(Event::Tick { node: me })?;
    events.push(Event::Deliver {
        node: highest,
        index: prepare,
    })?;
    events.push(Event::Deliver {
        node: me,
        index: refusal,
    })?;
    push_attempt_at(events, cluster, me, refusal + 1, again)
}
