//! Steps of a driven node, as tables have them.
use crate::comparing::{ensure, same};
use crate::driven::driven_node::{DrivenNode, bytes, long, passes};
use crate::nodes::shows;
use crate::said::number_of;
use crate::samples::{instance, node_of};
use node::NodeFault;
use site_drive::{LastCall, Letter, Link, MemLink};
use std::alloc::Global;
use std::process::Abort;

/// A last call.
#[derive(Clone, Copy)]
pub(crate) enum Last {
    TickOrAsk,
    Widen,
    Ask,
    /// To a node, from an instance on.
    Tell(u8, u32),
    Nothing,
}

/// What happens at node 1, or what is seen there. Datagrams are in hexadecimal.
#[derive(Clone, Copy)]
pub(crate) enum Step {
    /// A release is submitted, with that ticket's number.
    Submits(u64),
    /// A datagram waits at its link.
    Hears(&'static str),
    /// A datagram with that beginning, and then bytes 7 up to a length.
    HearsLong(&'static str, usize),
    /// After how many calls its device fails.
    Arm(u32),
    /// A drive: how many turns it has, and how many malformed datagrams it ignores.
    Drives(u32, u32),
    /// The same for turns on its desk, with a last call.
    Turns(u32, Last, u32),
    /// A drive: how many turns it has, and the fault with which it ends, if any.
    Ends(u32, Option<NodeFault>),
    /// These are a batch, with a last call: how many are malformed, or the fault.
    Takes(&'static [&'static str], Last, Result<usize, NodeFault>),
    /// The datagram sent at a place went to that node.
    Sent(usize, u8, &'static str),
    /// It has that beginning, and then bytes 7 up to a length.
    SentLong(usize, u8, &'static str, usize),
    /// From a place on this datagram was sent to all nodes, in order, and nothing after that.
    SentToAll(usize, &'static str),
    /// How many datagrams were sent.
    Many(usize),
    /// How many receives were tried.
    Tried(u64),
    /// What is posted after a batch: to whom, 0 for all.
    Posts(&'static [(u8, &'static str)]),
    /// How many letters are posted.
    PostsMany(usize),
    /// How many messages of the last turns were of attempts, how many say that somebody does something, and
    /// for which instance node 3 asked; 0 if it did not.
    Delivered(u32, u32, u32),
    /// Whether it has votes at the first three instances on record.
    Votes(bool),
    Stopped(bool),
    /// How many values are known.
    Knows(u32),
    /// Whether it wants a tick.
    Wants(bool),
    /// The newest release has no page at `/`.
    NoPage,
}

fn call_of(rt: &impl Abort, server: &DrivenNode<MemLink>, last: Last) -> LastCall {
    match last {
        Last::TickOrAsk => LastCall::TickOrAsk,
        Last::Widen => LastCall::Widen,
        Last::Ask => LastCall::Ask,
        Last::Tell(to, first) => LastCall::Tell {
            to: node_of(rt, server.node.cluster(), to),
            first: instance(rt, first),
        },
        Last::Nothing => LastCall::Nothing,
    }
}

fn hears(rt: &impl Abort, server: &mut DrivenNode<MemLink>, head: &str, length: usize) {
    let datagram = long(rt, server.alloc, head, length);
    server.queue(rt, datagram.as_slice());
}

fn turns(rt: &impl Abort, server: &mut DrivenNode<MemLink>, count: u32, last: Last, bad: u32) {
    let last = call_of(rt, server, last);
    passes(rt, server.turns(count, last), bad, 0);
}

pub(crate) fn datagrams(rt: &impl Abort, alloc: Global, texts: &[&str]) -> Vec<Vec<u8>> {
    let mut came = Vec::new(alloc);
    for text in texts {
        came.push(bytes(rt, alloc, text)).expect(rt, "a place");
    }
    came
}

fn takes(
    rt: &impl Abort,
    server: &mut DrivenNode<MemLink>,
    texts: &[&str],
    last: Last,
    wanted: Result<usize, NodeFault>,
) {
    let last = call_of(rt, server, last);
    let came = datagrams(rt, server.alloc, texts);
    same(rt, server.batch(came.as_slice(), last), wanted);
}

fn sent(rt: &impl Abort, server: &DrivenNode<MemLink>, at: usize, to: u8, text: &str) {
    let datagram = bytes(rt, server.alloc, text);
    server.sent(rt, at, to, datagram.as_slice());
}

fn sent_long(
    rt: &impl Abort,
    server: &DrivenNode<MemLink>,
    at: usize,
    to: u8,
    head: &str,
    length: usize,
) {
    let datagram = long(rt, server.alloc, head, length);
    server.sent(rt, at, to, datagram.as_slice());
}

fn sent_to_all(rt: &impl Abort, server: &DrivenNode<MemLink>, first: usize, text: &str) {
    let mut at = first;
    for to in 1..=server.node.cluster().size() {
        sent(rt, server, at, to, text);
        at = at.saturating_add(1);
    }
    same(rt, server.link.sent().len(), at);
}

fn is_letter(letter: &Letter, to: u8, datagram: &[u8]) -> bool {
    number_of(&letter.to) == to && letter.bytes.as_slice() == datagram
}

fn is_posted(rt: &impl Abort, alloc: Global, letter: &Letter, to: u8, text: &str) {
    let datagram = bytes(rt, alloc, text);
    ensure(rt, is_letter(letter, to, datagram.as_slice()), text);
}

/// The letters, in order, are these.
fn are_posted(rt: &impl Abort, alloc: Global, letters: &[Letter], wanted: &[(u8, &str)]) {
    same(rt, letters.len(), wanted.len());
    for (letter, &(to, text)) in letters.iter().zip(wanted) {
        is_posted(rt, alloc, letter, to, text);
    }
}

fn posts(rt: &impl Abort, server: &DrivenNode<MemLink>, wanted: &[(u8, &str)]) {
    let letters = server.letters().expect(rt, "memory");
    are_posted(rt, server.alloc, letters.as_slice(), wanted);
}

fn posts_many(rt: &impl Abort, server: &DrivenNode<MemLink>, count: usize) {
    let letters = server.letters().expect(rt, "memory");
    same(rt, letters.len(), count);
}

/// The instance that a node asked for last, or 0.
fn question(server: &DrivenNode<MemLink>, place: usize) -> u32 {
    match server.desk.delivered().questions().get(place) {
        Some(Some(at)) => at.number(),
        _ => 0,
    }
}

/// No question is of node 1.
fn delivered(rt: &impl Abort, server: &DrivenNode<MemLink>, wanted: (u32, u32, u32)) {
    let delivered = server.desk.delivered();
    let counts = (delivered.attempts(), delivered.stirs());
    let questions = (question(server, 0), question(server, 2));
    let (attempts, stirs, asked) = wanted;
    same(rt, (counts, questions), ((attempts, stirs), (0, asked)));
}

fn votes(rt: &impl Abort, server: &DrivenNode<MemLink>, all: bool) {
    for number in 1..=3 {
        let slot = server.node.slot(instance(rt, number));
        ensure(rt, slot.vote.is_some() == all, number);
    }
}

/// Sees whether what the step says of the node is so.
fn see(rt: &impl Abort, server: &DrivenNode<MemLink>, step: Step) {
    match step {
        Step::Votes(all) => votes(rt, server, all),
        Step::Stopped(stopped) => same(rt, server.node.is_stopped(), stopped),
        Step::Knows(known) => same(rt, server.node.known(), known),
        Step::Wants(wants) => same(rt, server.node.wants_tick(), wants),
        Step::NoPage => ensure(rt, shows(&server.node, "/", 404, "not found\n"), "/"),
        _ => {}
    }
}

/// Sees whether what the step says of what it sends and hears is so.
fn look(rt: &impl Abort, server: &DrivenNode<MemLink>, step: Step) {
    match step {
        Step::Sent(at, to, text) => sent(rt, server, at, to, text),
        Step::SentLong(at, to, head, length) => sent_long(rt, server, at, to, head, length),
        Step::SentToAll(first, text) => sent_to_all(rt, server, first, text),
        Step::Many(count) => same(rt, server.link.sent().len(), count),
        Step::Tried(tries) => same(rt, server.link.tries(), tries),
        Step::Posts(letters) => posts(rt, server, letters),
        Step::PostsMany(count) => posts_many(rt, server, count),
        Step::Delivered(attempts, stirs, asked) => delivered(rt, server, (attempts, stirs, asked)),
        _ => see(rt, server, step),
    }
}

/// Drives the node, or looks at what the step says.
fn drive(rt: &impl Abort, server: &mut DrivenNode<MemLink>, step: Step) {
    match step {
        Step::Drives(count, malformed) => passes(rt, server.drive(count), malformed, 0),
        Step::Turns(count, last, malformed) => turns(rt, server, count, last, malformed),
        Step::Ends(count, fault) => same(rt, server.drive(count).err(), fault),
        Step::Takes(texts, last, wanted) => takes(rt, server, texts, last, wanted),
        _ => look(rt, server, step),
    }
}

/// Does a step, or looks at what it says.
fn act(rt: &impl Abort, server: &mut DrivenNode<MemLink>, step: Step) {
    match step {
        Step::Submits(number) => server.submit(rt, number),
        Step::Hears(text) => hears(rt, server, text, text.len() / 2),
        Step::HearsLong(head, length) => hears(rt, server, head, length),
        Step::Arm(calls) => server.node.arm(calls),
        _ => drive(rt, server, step),
    }
}

pub(crate) fn act_all(rt: &impl Abort, server: &mut DrivenNode<MemLink>, steps: &[Step]) {
    for &step in steps {
        act(rt, server, step);
    }
}

/// A fresh node of three after these steps.
pub(crate) fn behind(
    rt: &impl Abort,
    alloc: Global,
    parts: &[&[Step]],
) -> Box<DrivenNode<MemLink>> {
    let mut server = DrivenNode::over_queues(rt, alloc, 3);
    for steps in parts {
        act_all(rt, &mut server, steps);
    }
    server
}

/// Each of these tables, in parts, is played at a node of three.
pub(crate) fn play_each(rt: &impl Abort, alloc: Global, tables: &[&[&[Step]]]) {
    for &parts in tables {
        drop(behind(rt, alloc, parts));
    }
}

/// Steps of a fresh node of a group of `size`.
pub(crate) fn play(rt: &impl Abort, alloc: Global, size: u8, steps: &[Step]) {
    act_all(rt, &mut DrivenNode::over_queues(rt, alloc, size), steps);
}
