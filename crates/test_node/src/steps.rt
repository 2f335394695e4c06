//! Steps of a node, as tables have them.
use crate::comparing::same;
use crate::heard::Heard;
use crate::peer::{Call, Peer, ends, passes};
use crate::said::{Said, ensure_last, is_all_said};
use crate::samples::{Text, instance, ticket};
use node::{NodeFault, Submitted};
use std::alloc::Global;
use std::process::Abort;

/// What happens at node 1, or what is seen there.
#[derive(Clone, Copy)]
pub(crate) enum Step {
    /// A call passes.
    Calls(Call),
    /// A call ends in that fault.
    Fails(Call, NodeFault),
    /// A message comes, and is taken.
    Hears(Heard),
    /// After how many calls its device fails.
    Arm(u32),
    /// Releases are queued, by the numbers of their tickets from the first to the last.
    Queues(u64, u64),
    /// A command is submitted, with this result.
    Submits(Text, Result<Submitted, NodeFault>),
    /// A text is submitted that is no command.
    Unread(Text),
    Widens(Result<bool, NodeFault>),
    /// The newest release.
    Publishes(u64),
    /// The list of what was handed out is emptied.
    Forget,
    /// That is all that was handed out, to one node, or to all for 0. Then the list is emptied.
    Says(u8, &'static [Said]),
    /// That was handed out last.
    Last(u8, Said),
    /// How many messages were handed out.
    Many(usize),
    /// How many values are known without a gap.
    Knows(u32),
    /// The number of a ticket, and the instance of its receipt.
    Receipt(u64, u32),
    /// Whether it wants a tick.
    Wants(bool),
    /// Its floor, and how far its record reaches.
    Reaches(u32, u32),
    /// Whether it only learns.
    Learns(bool),
    Stopped,
}

fn queues(rt: &impl Abort, node: &mut Peer, first: u64, last: u64) {
    for number in first..=last {
        let queued = node.submit(rt, Text::Command(number, "release\n"));
        same(rt, queued, Ok(Submitted::Queued));
    }
}

fn is_no_command(rt: &impl Abort, node: &mut Peer, text: Text) {
    let refused = node.submit(rt, text);
    assert!(rt; matches!(refused, Err(NodeFault::NotACommand(_))));
}

/// Sees whether what the step says is so.
fn look(rt: &impl Abort, node: &Peer, step: Step) {
    match step {
        Step::Last(to, said) => ensure_last(rt, &node.out, to, said),
        Step::Many(count) => same(rt, node.out.len(), count),
        Step::Knows(known) => same(rt, node.node.known(), known),
        Step::Receipt(number, at) => {
            let receipt = node.node.receipt(ticket(number));
            same(rt, receipt, Some(instance(rt, at)));
        }
        Step::Wants(wants) => same(rt, node.node.wants_tick(), wants),
        Step::Reaches(floor, reach) => same(
            rt,
            (node.node.floor(), node.node.reach()),
            (floor, reach),
        ),
        Step::Learns(learns) => same(rt, node.node.only_learns(), learns),
        Step::Stopped => same(rt, node.node.is_stopped(), true),
        _ => {}
    }
}

fn says(rt: &impl Abort, node: &mut Peer, to: u8, wanted: &[Said]) {
    is_all_said(rt, &node.out, to, wanted);
    node.out.clear();
}

/// Does a step whose result is more than whether it passed, or looks at what it says.
fn answers(rt: &impl Abort, node: &mut Peer, step: Step) {
    match step {
        Step::Submits(text, answer) => same(rt, node.submit(rt, text), answer),
        Step::Unread(text) => is_no_command(rt, node, text),
        Step::Widens(answer) => same(rt, node.widen(), answer),
        Step::Publishes(newest) => same(rt, node.node.publish(), Ok(newest)),
        Step::Says(to, wanted) => says(rt, node, to, wanted),
        _ => look(rt, node, step),
    }
}

/// Does a step, or looks at what it says.
fn act(rt: &impl Abort, node: &mut Peer, step: Step) {
    match step {
        Step::Calls(call) => passes(rt, node.call(rt, call)),
        Step::Fails(call, fault) => ends(rt, node.call(rt, call), Err(fault)),
        Step::Hears(heard) => passes(rt, node.hear(rt, heard)),
        Step::Arm(calls) => node.node.arm(calls),
        Step::Queues(first, last) => queues(rt, node, first, last),
        Step::Forget => node.out.clear(),
        _ => answers(rt, node, step),
    }
}

pub(crate) fn act_all(rt: &impl Abort, node: &mut Peer, steps: &[Step]) {
    for &step in steps {
        act(rt, node, step);
    }
}

/// Steps of a fresh node of three.
pub(crate) fn play(rt: &impl Abort, alloc: Global, steps: &[Step]) {
    act_all(rt, &mut Peer::fresh(rt, alloc), steps);
}

/// A fresh node of three after these steps, and opened again after a crash by that choice, or without one.
pub(crate) fn reopened(
    rt: &impl Abort,
    alloc: Global,
    before: &[&[Step]],
    crash: Option<u8>,
) -> Peer {
    let mut node = Peer::fresh(rt, alloc);
    for steps in before {
        act_all(rt, &mut node, steps);
    }
    node.again(rt, crash)
}

/// Steps before and after a crash that loses what was not synced.
pub(crate) fn play_over_a_crash(rt: &impl Abort, alloc: Global, before: &[Step], behind: &[Step]) {
    act_all(rt, &mut reopened(rt, alloc, &[before], Some(0)), behind);
}
