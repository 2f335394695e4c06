//! Runs with one allocation that fails. A run goes on from the count that it gave, and every answer is that
//! of the schedule without the failure. If an allocation of a disk in memory fails, its node stops and is
//! opened again. Then the schedule comes once more. No line of `sitesim` makes an allocation fail.
//!
//! Each test tries everything twice. A second program, `tools/gate/refuse-growths`, runs each test once for
//! each of its allocations, and makes that one fail: the first try meets it, the second does not. Without
//! that program no allocation fails.
use crate::comparing::{ensure, is_page, same};
use crate::worlds::group::{Group, runs};
use crate::worlds::step::Step;
use release::Answer;
use std::alloc::Global;
use std::process::Abort;
use world::{AskFault, NodeState, WorldFault};

const PAGE: &[Step] = &[
    Step::Submit(1, 1, "put template t\nv{{n}}\n"),
    Step::Submit(1, 2, "put data d\n{\"n\":1}"),
    Step::Submit(1, 3, "put route / t d\n"),
    Step::Submit(1, 4, "release\n"),
    Step::Tick(1),
    Step::Settle,
    Step::Tick(1),
    Step::Settle,
    Step::Tick(1),
    Step::Settle,
    Step::Tick(1),
    Step::Settle,
];

const CRASHES: &[Step] = &[
    Step::Submit(1, 1, "release\n"),
    Step::Tick(1),
    Step::Settle,
    Step::Crash(2, 0),
    Step::Crash(1, 1),
    Step::Restart(1),
    Step::Restart(2),
    Step::Ask(1),
    Step::Ask(2),
    Step::Settle,
];

/// A call of node 2's vote fails. The node ends in a way of `VOTE_ENDS`, and is opened again. Then node 3
/// asks for promises: the release comes first, or the route.
const VOTE_FAILED: &[Step] = &[
    Step::Submit(1, 1, "release\n"),
    Step::Submit(3, 2, "put route / t d\n"),
    Step::Tick(1),
    Step::Deliver(1, 0),
    Step::Deliver(2, 0),
    Step::Deliver(1, 1),
    Step::Deliver(1, 2),
    Step::Arm(2, 3),
    Step::Deliver(2, 3),
];

const VOTE_ENDS: &[Step] = &[Step::Crash(2, 0), Step::Crash(2, 1), Step::Restart(2)];

const ASKED_AGAIN: &[Step] = &[
    Step::Restart(2),
    Step::Tick(3),
    Step::Deliver(2, 4),
    Step::Deliver(3, 4),
    Step::Deliver(3, 5),
    Step::Deliver(3, 6),
    Step::Settle,
    Step::Tick(1),
    Step::Settle,
];

/// A page's status and body.
type Page = (u16, &'static str);

const PAGE_SHOWN: &[Page] = &[(200, "v1\n")];

const NONE_SHOWN: &[Page] = &[(404, "not found\n")];

const EITHER_SHOWN: &[Page] = &[(404, "not found\n"), (500, "template missing\n")];

/// Which of these pages the answer is.
fn which(answer: &Result<Answer, AskFault>, pages: &[Page]) -> Option<usize> {
    let mut at: usize = 0;
    for &(status, body) in pages {
        if is_page(answer, status, body) {
            return Some(at);
        }
        at = at.saturating_add(1);
    }
    None
}

/// Which of these pages the answer is, if the node has the release.
fn shown(rt: &impl Abort, answer: &Result<Answer, AskFault>, pages: &[Page]) -> Option<usize> {
    if matches!(answer, Err(AskFault::NoSuchRelease)) {
        return None;
    }
    let shown = which(answer, pages);
    ensure(rt, shown.is_some(), pages.len());
    shown
}

/// Which of these pages a node shows for release 1, if it has that.
fn page_at(rt: &impl Abort, group: &Group, number: u8, pages: &[Page]) -> Option<usize> {
    let answer = group.answer(rt, number, 1, "/");
    shown(rt, &answer, pages)
}

fn agree(one: Option<usize>, other: Option<usize>) -> bool {
    one.is_none() || other.is_none() || one == other
}

/// Whether all three nodes have release 1. Those that have it show the same of these pages.
fn all_answer(rt: &impl Abort, group: &Group, pages: &[Page]) -> bool {
    let one = page_at(rt, group, 1, pages);
    let two = page_at(rt, group, 2, pages);
    let three = page_at(rt, group, 3, pages);
    let all_agree = agree(one, two) && agree(two, three) && agree(one, three);
    ensure(rt, all_agree, (one, two, three));
    one.is_some() && two.is_some() && three.is_some()
}

/// A message that wasn't handed out, since its node was stopped, reaches nobody.
fn is_done(done: Result<(), WorldFault>) -> bool {
    matches!(done, Ok(()) | Err(WorldFault::BadEvent(_)))
}

fn act_each(rt: &impl Abort, group: &mut Group, steps: &[Step]) {
    for &step in steps {
        let done = group.act(rt, step);
        ensure(rt, is_done(done), done);
    }
}

fn act_parts(rt: &impl Abort, group: &mut Group, parts: &[&[Step]]) {
    for steps in parts {
        act_each(rt, group, steps);
    }
}

fn open_stopped(rt: &impl Abort, group: &mut Group) {
    for number in 1..=3 {
        let (state, _, _) = group.shown(rt, number);
        if state == NodeState::Stopped {
            runs(rt, group.act(rt, Step::Restart(number)), Ok(()));
        }
    }
}

/// The schedule, and once more with all messages if a node lacks the release then.
fn goes(rt: &impl Abort, group: &mut Group, parts: &[&[Step]], pages: &[Page]) {
    act_parts(rt, group, parts);
    if !all_answer(rt, group, pages) {
        open_stopped(rt, group);
        group.settled = 0;
        act_parts(rt, group, parts);
    }
    ensure(rt, group.wants <= 1, group.wants);
    ensure(rt, all_answer(rt, group, pages), group.wants);
}

fn three_go(rt: &impl Abort, alloc: Global, parts: &[&[Step]], pages: &[Page]) {
    goes(rt, &mut Group::new(rt, alloc, 3), parts, pages);
}

#[test]
fn a_page(rt: HostRuntime) {
    three_go(&rt, rt.alloc(), &[PAGE], PAGE_SHOWN);
}

#[test]
fn crashes(rt: HostRuntime) {
    three_go(&rt, rt.alloc(), &[CRASHES], NONE_SHOWN);
}

#[test]
fn lost_votes(rt: HostRuntime) {
    for &end in VOTE_ENDS {
        let parts = [VOTE_FAILED, &[end], ASKED_AGAIN];
        three_go(&rt, rt.alloc(), &parts, EITHER_SHOWN);
    }
}

/// Each question hands out one message, so a count that is off by one shows.
const EACH_ONCE: &[Step] = &[
    Step::Ask(1),
    Step::Crash(2, 0),
    Step::Restart(2),
    Step::Deliver(1, 0),
    Step::Ask(2),
    Step::Crash(1, 0),
    Step::Restart(1),
    Step::Ask(1),
];

fn run_once(rt: &impl Abort, group: &mut Group) {
    let events = group.events(rt, EACH_ONCE);
    runs(rt, group.run_on(rt, events.as_slice()), Ok(()));
    same(rt, group.sent_count(), 3);
    for number in 1..=2 {
        ensure(rt, group.shown(rt, number) == (NodeState::Up, 0, 0), number);
    }
}

#[test]
fn one_run(rt: HostRuntime) {
    run_once(&rt, &mut Group::new(&rt, rt.alloc(), 3));
}
