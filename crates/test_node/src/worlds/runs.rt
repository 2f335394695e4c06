//! Runs over lists of events: what they take, and what their faults count. A line of `sitesim` is a run of
//! one event, and its `get` has one word for both reasons why there is no page: so this is no schedule of
//! examples/schedules.
use crate::comparing::{ensure, same};
use crate::worlds::group::{Group, push, runs};
use crate::worlds::step::Step;
use release::Answer;
use site_ids::{Cluster, NodeId};
use std::process::Abort;
use world::{AskFault, Event, WorldFault};

/// Node 4 of a larger cluster.
fn stranger(rt: &impl Abort) -> NodeId {
    let larger = Cluster::new(5).expect(rt, "a cluster of five");
    larger.node(4).expect(rt, "its node 4")
}

/// The world handed out `count` messages.
fn has_sent(rt: &impl Abort, group: &Group, count: usize) {
    same(rt, group.sent_count(), count);
}

/// The fourth of five events names a message that was never handed out: three are taken. The second is
/// refused, as it submits no command, and ends no run.
const UNSENT: &[Step] = &[
    Step::Ask(1),
    Step::Submit(1, 1, "put template t\n{{#a}}"),
    Step::Ask(2),
    Step::Deliver(1, 2),
    Step::Ask(1),
];

fn unsent(rt: &impl Abort, group: &mut Group) {
    let ended = group.run_steps(rt, UNSENT);
    runs(rt, ended, Err(WorldFault::BadEvent(3)));
    has_sent(rt, group, 2);
}

/// The second of three events is one of a node that does not exist.
fn to_nowhere(rt: &impl Abort, group: &Group) -> Vec<Event> {
    let mut events = group.events(rt, &[Step::Deliver(1, 1)]);
    let node = stranger(rt);
    push(rt, &mut events, Event::Ask { node });
    let node = group.node(rt, 1);
    push(rt, &mut events, Event::Ask { node });
    events
}

/// One event is taken.
fn nowhere(rt: &impl Abort, group: &mut Group) {
    let events = to_nowhere(rt, group);
    let ended = group.run(events.as_slice());
    runs(rt, ended, Err(WorldFault::BadEvent(1)));
}

fn crash_nowhere(rt: &impl Abort, group: &mut Group) {
    let node = stranger(rt);
    let ended = group.run(&[Event::Crash { node, choice: 0 }]);
    runs(rt, ended, Err(WorldFault::BadEvent(0)));
    has_sent(rt, group, 2);
}

#[test]
fn a_bad_event_is_not_counted_as_taken(rt: HostRuntime) {
    let mut group = Group::new(&rt, rt.alloc(), 3);
    unsent(&rt, &mut group);
    nowhere(&rt, &mut group);
    crash_nowhere(&rt, &mut group);
}

/// Node 2 is down, and nothing is known yet.
const BEGUN: &[Step] = &[
    Step::Crash(2, 0),
    Step::Submit(1, 1, "release\n"),
    Step::Tick(1),
];

/// Answers are missing at a node that is down, and for releases that are not there.
const MISSING: &[(u8, u64, AskFault)] = &[
    (1, 0, AskFault::NoSuchRelease),
    (1, 1, AskFault::NoSuchRelease),
    (2, 1, AskFault::NotUp),
];

fn is_fault(answer: &Result<Answer, AskFault>, fault: AskFault) -> bool {
    match answer {
        Ok(_) => false,
        Err(found) => *found == fault,
    }
}

fn has_none(rt: &impl Abort, group: &Group, number: u8, n: u64, fault: AskFault) {
    let answer = group.answer(rt, number, n, "/");
    ensure(rt, is_fault(&answer, fault), number);
}

fn have_none(rt: &impl Abort, group: &mut Group) {
    let ended = group.run_steps(rt, BEGUN);
    runs(rt, ended, Ok(()));
    for &(number, n, fault) in MISSING {
        has_none(rt, group, number, n, fault);
    }
    has_sent(rt, group, 1);
}

#[test]
fn a_node_without_the_release_has_no_answer(rt: HostRuntime) {
    have_none(&rt, &mut Group::new(&rt, rt.alloc(), 3));
}
