//! A pace over a written clock, beside node 1 of three that hears what a row says.
ghost use Rattle.site_ids.specs.Ids.{IsNode};

use crate::comparing::{ensure, same};
use command::write;
use durable::Record;
use node::{Node, Submitted};
use server_pace::{Pace, Times};
use site_disk::MemDisk;
use site_drive::{Desk, LastCall, MemLink};
use site_ids::{Cluster, NodeId, Ticket, Value};
use std::alloc::Global;
use std::process::Abort;

/// What is called. A telling has to whom it goes, and from which instance on.
#[derive(Clone, Copy, Debug, PartialEq, Eq, Drop)]
pub(crate) enum Call {
    Widen,
    Tick,
    Ask,
    Tell(u8, u32),
    Keep(u32, u32),
    Nothing,
}

/// A step: the moment, whether a value is submitted before it, whether all that had come was taken in; what
/// is called; and the datagrams that its batch takes in.
type Step = (u64, bool, bool, Call, &'static [&'static [u8]]);

/// A question of node 2 for the first instance, and one of node 3.
const SECOND_ASKS: &[u8] = &[1, 6, 2, 0, 0, 0, 1];

const THIRD_ASKS: &[u8] = &[1, 6, 3, 0, 0, 0, 1];

/// A prepare of node 2 at the first instance.
const PREPARE: &[u8] = &[1, 1, 2, 0, 0, 0, 1, 0, 0, 0, 1, 2];

/// A prepare of node 3 there, and a higher one of node 2.
const THIRD_PREPARE: &[u8] = &[1, 1, 3, 0, 0, 0, 1, 0, 0, 0, 1, 3];

const HIGHER_PREPARE: &[u8] = &[1, 1, 2, 0, 0, 0, 1, 0, 0, 0, 2, 2];

/// What two nodes answer to a prepare of node 1 there: node 2 refuses it, and node 3 promises.
const REFUSAL: &[u8] = &[1, 5, 2, 0, 0, 0, 1, 0, 0, 0, 1, 1, 0, 0, 0, 1, 2];

const PROMISE: &[u8] = &[1, 2, 3, 0, 0, 0, 1, 0, 0, 0, 1, 1, 0];

/// The values of the first two instances, as node 3 knows them.
const FIRST_KNOWN: &[u8] = &[1, 7, 3, 0, 0, 0, 1, 0, 0, 0, 1, 7];

const SECOND_KNOWN: &[u8] = &[1, 7, 3, 0, 0, 0, 2, 0, 0, 0, 1, 7];

/// A value is submitted to a quiet group, and nothing answers.
const ALONE: &[Step] = &[
    (0, false, true, Call::Ask, &[]),
    (1, false, true, Call::Widen, &[]),
    (5, true, true, Call::Tick, &[]),
    (6, false, true, Call::Widen, &[]),
    // It knows nothing, and asks again, each time later.
    (9, false, true, Call::Widen, &[]),
    (10, false, true, Call::Ask, &[]),
    (24, false, true, Call::Widen, &[]),
    (25, false, true, Call::Ask, &[]),
    (104, false, true, Call::Ask, &[]),
    (105, false, true, Call::Tick, &[]),
    (128, false, true, Call::Widen, &[]),
    (129, false, true, Call::Ask, &[]),
    (304, false, true, Call::Ask, &[]),
    (305, false, true, Call::Tick, &[]),
    (604, false, true, Call::Ask, &[]),
    (605, false, true, Call::Tick, &[]),
    (904, false, true, Call::Ask, &[]),
    // A question and a tick are due at once: the question comes next.
    (1600, false, true, Call::Tick, &[]),
    (1600, false, true, Call::Ask, &[]),
    (1600, false, true, Call::Widen, &[]),
];

/// A majority answers one tick after the other, and nothing becomes known.
const IN_VAIN: &[Step] = &[
    (0, false, true, Call::Ask, &[]),
    (5, true, true, Call::Tick, &[REFUSAL, PROMISE]),
    (104, false, true, Call::Ask, &[]),
    (105, false, true, Call::Tick, &[REFUSAL]),
    (106, false, true, Call::Widen, &[PROMISE]),
    (304, false, true, Call::Ask, &[]),
    // The tick before was in vain: the server waits ten patiences longer.
    (305, false, true, Call::Tick, &[REFUSAL, PROMISE]),
    (800, false, true, Call::Ask, &[]),
    (1404, false, true, Call::Ask, &[]),
    // So was this one. Then only node 3 answers.
    (1405, false, true, Call::Tick, &[PROMISE, PROMISE]),
    (1600, false, true, Call::Ask, &[]),
    (2400, false, true, Call::Ask, &[]),
    (3200, false, true, Call::Ask, &[]),
    (3504, false, true, Call::Ask, &[]),
    (3505, false, true, Call::Tick, &[]),
    // That is no majority of three: ticks in vain are forgotten.
    (3804, false, true, Call::Ask, &[]),
    (3805, false, true, Call::Tick, &[]),
];

/// Two nodes ask, and then one of them tries a value.
const ASKED: &[Step] = &[
    (0, false, true, Call::Ask, &[SECOND_KNOWN, SECOND_ASKS]),
    (1, false, true, Call::Tell(2, 1), &[SECOND_ASKS, THIRD_ASKS]),
    // In the step after a telling nobody is told.
    (2, false, true, Call::Widen, &[]),
    (3, false, true, Call::Tell(3, 1), &[]),
    (4, false, true, Call::Widen, &[]),
    // What node 2 was told may be on its way.
    (5, false, true, Call::Widen, &[]),
    (10, false, true, Call::Ask, &[]),
    (25, false, true, Call::Ask, &[]),
    (42, false, true, Call::Widen, &[SECOND_ASKS, PREPARE]),
    // Somebody tries a value, and nothing is known.
    (43, false, true, Call::Nothing, &[]),
    (45, false, true, Call::Ask, &[]),
    (46, false, true, Call::Tell(2, 1), &[]),
];

/// Nodes 2 and 3 ask a server that heard of no instance.
const UNHEARD: &[Step] = &[
    (0, false, true, Call::Ask, &[SECOND_ASKS, THIRD_ASKS]),
    (1, false, true, Call::Widen, &[]),
    (2, false, true, Call::Widen, &[SECOND_KNOWN]),
    // Now it may have votes to tell.
    (3, false, true, Call::Tell(2, 1), &[]),
];

/// What node 3 asks for becomes known after its question, in the same batch: no answer told it.
const KNOWN_BEHIND: &[Step] = &[
    (0, false, true, Call::Ask, &[THIRD_ASKS, FIRST_KNOWN]),
    (1, false, true, Call::Ask, &[]),
    (2, false, true, Call::Tell(3, 1), &[]),
    (3, false, true, Call::Widen, &[]),
];

/// Values become known, while nobody tries one and while somebody does, and one is submitted among them.
const NEWS: &[Step] = &[
    (0, false, true, Call::Ask, &[FIRST_KNOWN, THIRD_ASKS]),
    // Something came that was no question: a value that is submitted now waits for the patience.
    (1, true, false, Call::Tell(3, 1), &[]),
    (2, false, false, Call::Widen, &[]),
    (3, false, true, Call::Ask, &[]),
    (100, false, true, Call::Widen, &[]),
    (101, false, true, Call::Keep(1, 1), &[]),
    (101, false, true, Call::Tick, &[PREPARE, SECOND_KNOWN]),
    // The news begin the patience anew, and are no answer to a question.
    (301, false, true, Call::Widen, &[]),
    (400, false, true, Call::Widen, &[]),
    (401, false, true, Call::Keep(2, 1), &[]),
    (401, false, true, Call::Tick, &[]),
    (803, false, true, Call::Tick, &[]),
    (803, false, true, Call::Ask, &[]),
];

/// Two values become known, and are put on record together, a tenth of a second after the first; a telling
/// waits for that.
const KEPT: &[Step] = &[
    (0, false, true, Call::Ask, &[FIRST_KNOWN]),
    (1, false, true, Call::Ask, &[]),
    (50, false, true, Call::Widen, &[SECOND_KNOWN]),
    (51, false, true, Call::Ask, &[]),
    (100, false, true, Call::Widen, &[THIRD_ASKS]),
    (101, false, true, Call::Keep(1, 2), &[]),
    (101, false, true, Call::Tell(3, 1), &[]),
    (102, false, true, Call::Widen, &[]),
];

/// A value is submitted while node 2 tries one, of which nothing more is heard; and then it becomes known.
const YIELDS: &[Step] = &[
    (0, false, true, Call::Ask, &[PREPARE]),
    (1, true, true, Call::Nothing, &[]),
    (6, false, true, Call::Nothing, &[]),
    (7, false, true, Call::Widen, &[]),
    // It waited in vain, and does so once more.
    (8, false, true, Call::Nothing, &[]),
    // The patience is the same as without yielding.
    (100, false, true, Call::Ask, &[]),
    (101, false, true, Call::Tick, &[FIRST_KNOWN]),
    (102, false, true, Call::Ask, &[]),
    // Node 2 tried last: this node comes next.
    (103, false, true, Call::Widen, &[]),
];

/// Nodes 2 and 3 tried, and node 3 comes next.
const TURNS: &[Step] = &[
    (0, false, true, Call::Ask, &[THIRD_PREPARE]),
    (1, false, true, Call::Nothing, &[HIGHER_PREPARE]),
    (2, false, true, Call::Nothing, &[FIRST_KNOWN]),
    (3, false, true, Call::Nothing, &[]),
    // Node 2's attempt stood for a millisecond. The server waits as long for the next one, and a millisecond
    // more.
    (5, false, true, Call::Nothing, &[]),
    (6, false, true, Call::Widen, &[]),
    (7, false, true, Call::Widen, &[]),
];

/// Node 3 comes next here, too. A value is submitted that nobody tries: that waits too.
const SUBMITTED: &[Step] = &[
    (0, false, true, Call::Ask, &[THIRD_PREPARE]),
    (1, false, true, Call::Nothing, &[HIGHER_PREPARE]),
    (2, false, true, Call::Nothing, &[FIRST_KNOWN]),
    (3, false, true, Call::Nothing, &[]),
    (4, true, true, Call::Nothing, &[]),
    (5, false, true, Call::Nothing, &[]),
    (6, false, true, Call::Widen, &[]),
];

/// Node 2 asks a server that is asleep: the moment, what is called, the datagrams that come, and how many
/// microseconds the server rests after that step.
type Rest = (u64, Call, &'static [&'static [u8]], Option<u64>);

const RESTS: &[Rest] = &[
    (2, Call::Widen, &[SECOND_ASKS], None),
    (3, Call::Tell(2, 1), &[], Some(500)),
    (4, Call::Widen, &[], Some(500)),
    (5, Call::Widen, &[], Some(20_000)),
];

/// A node with its link, a desk and a pace.
#[derive(Drop)]
struct Paced {
    alloc: Global,
    node: Box<Node<MemDisk>>,
    link: MemLink,
    desk: Desk,
    pace: Pace,
}

/// That call, as a row names it.
pub(crate) fn called(last: &LastCall) -> Call {
    match last {
        LastCall::Widen => Call::Widen,
        LastCall::TickOrAsk => Call::Tick,
        LastCall::Ask => Call::Ask,
        LastCall::Tell { to, first } => Call::Tell(to.number(), first.number()),
        LastCall::Keep { first, count } => Call::Keep(first.number(), *count),
        LastCall::Nothing => Call::Nothing,
    }
}

/// A node over a new record. `None` if an allocation failed.
fn fresh(alloc: Global, cluster: Cluster, me: NodeId) -> Option<Box<Node<MemDisk>>>
    requires { IsNode cluster me }
{
    let mut disk = MemDisk::new(alloc);
    if Record::format(cluster, me, &mut disk).is_err() {
        return None;
    }
    match Node::open(alloc, cluster, me, disk) {
        Ok(node) => Box::new(alloc, node).ok(),
        Err(_) => None,
    }
}

fn begun(rt: &impl Abort, alloc: Global) -> Paced {
    let cluster = Cluster::new(3).expect(rt, "a cluster");
    let me = cluster.node(1).expect(rt, "a node");
    Paced {
        alloc,
        node: fresh(alloc, cluster, me).expect(rt, "memory"),
        link: MemLink::new(alloc),
        desk: Desk::new(alloc).expect(rt, "memory"),
        pace: Pace::new(Times::new(None, None), cluster, me, 0),
    }
}

/// These datagrams come. Returns how many there are.
fn come(rt: &impl Abort, link: &mut MemLink, heard: &[&[u8]]) -> u32 {
    for datagram in heard {
        link.push(datagram).expect(rt, "a place");
    }
    u32::try_from(heard.len()).expect(rt, "few datagrams")
}

impl Paced {
    fn submit(&mut self, rt: &impl Abort) {
        let ticket = Ticket {
            editor: 1,
            number: 1,
        };
        let bytes = write(self.alloc, ticket, b"release\n").expect(rt, "a command");
        let value = Value::from_bytes(bytes).expect(rt, "a value");
        same(rt, self.node.submit(&value), Ok(Submitted::Queued));
    }

    /// The desk takes these datagrams and then makes that call. The pace hears what was delivered.
    fn drive(&mut self, rt: &impl Abort, heard: &[&[u8]], last: LastCall) {
        let turns = come(rt, &mut self.link, heard);
        let driven = self
            .desk
            .drive_with(&mut self.node, &mut self.link, turns, last);
        ensure(rt, driven.is_ok(), turns);
        self.pace.hear(&self.desk.delivered());
    }

    fn take(&mut self, rt: &impl Abort, &(now, submits, drained, call, heard): &Step) {
        if submits {
            self.submit(rt);
        }
        let last = self.pace.due(now, &self.node, drained);
        same(rt, (now, called(&last)), (now, call));
        self.drive(rt, heard, last);
    }
}

fn run(rt: &impl Abort, alloc: Global, steps: &[Step]) {
    let mut paced = begun(rt, alloc);
    for step in steps {
        paced.take(rt, step);
    }
}

#[test]
fn a_value_that_nobody_answers_is_tried_again(rt: HostRuntime) {
    run(&rt, rt.alloc(), ALONE);
}

#[test]
fn a_tick_in_vain_makes_the_patience_longer(rt: HostRuntime) {
    run(&rt, rt.alloc(), IN_VAIN);
}

#[test]
fn who_asks_is_told_in_turn(rt: HostRuntime) {
    run(&rt, rt.alloc(), ASKED);
}

#[test]
fn who_tells_does_not_sleep(rt: HostRuntime) {
    let mut paced = begun(&rt, rt.alloc());
    paced.take(&rt, &(0, false, true, Call::Ask, &[SECOND_KNOWN]));
    paced.take(&rt, &(1, false, true, Call::Widen, &[]));
    for _ in 0..2_000 {
        let _ = paced.pace.rest(false, false, 0);
    }
    for &(now, call, heard, rest) in RESTS {
        paced.take(&rt, &(now, false, true, call, heard));
        let is = paced.pace.rest(!heard.is_empty(), false, 0);
        same(&rt, (now, is), (now, rest));
    }
}

#[test]
fn who_heard_of_nothing_tells_nothing(rt: HostRuntime) {
    run(&rt, rt.alloc(), UNHEARD);
}

#[test]
fn what_became_known_behind_a_question_is_told(rt: HostRuntime) {
    run(&rt, rt.alloc(), KNOWN_BEHIND);
}

#[test]
fn news_is_followed_by_a_question(rt: HostRuntime) {
    run(&rt, rt.alloc(), NEWS);
}

#[test]
fn what_became_known_is_put_on_record(rt: HostRuntime) {
    run(&rt, rt.alloc(), KEPT);
}

#[test]
fn a_server_yields_to_one_that_tries(rt: HostRuntime) {
    run(&rt, rt.alloc(), YIELDS);
}

#[test]
fn the_next_one_is_waited_for(rt: HostRuntime) {
    run(&rt, rt.alloc(), TURNS);
}

#[test]
fn a_value_just_submitted_waits_its_turn(rt: HostRuntime) {
    run(&rt, rt.alloc(), SUBMITTED);
}
