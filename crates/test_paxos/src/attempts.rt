//! Proposals, told votes and chosen values, by rows that were worked out by hand.
use crate::comparing::{ensure, same};
use crate::member::{Member, Sent, Step, play};
use crate::samples::{ballot, cluster, instance, is_bytes, is_text, node, value};
use chosen_log::{ChosenLog, LearnFault, Learned};
use learner::Learner;
use proposer::ProposerFault;
use site_ids::{Ballot, Instance, NodeId, Value};
use std::alloc::Global;
use std::process::Abort;

const HIGHEST: &[Step] = &[
    Step::Start(7, 3, 1, "X"),
    Step::Tells(2, 3, 1, (1, 2, "P"), None),
    Step::Tells(4, 3, 1, (2, 3, "Q"), None),
    Step::Tells(2, 3, 1, (2, 5, "R"), None),
    Step::Promise(1, 3, 1, Some("Q")),
    Step::Promise(5, 3, 1, None),
    Step::Sends(7, Sent::Propose(3, 1, "Q")),
];

#[test]
fn the_highest_prior_is_proposed_once(rt: HostRuntime) {
    play(&rt, rt.alloc(), 5, 1, HIGHEST);
}

const ANOTHER_BALLOT: &[Step] = &[
    Step::Sends(7, Sent::Nothing),
    Step::Start(7, 3, 1, "X"),
    Step::Promise(1, 3, 1, None),
    Step::Promise(2, 2, 1, None),
    Step::Sends(7, Sent::Prepare(3, 1)),
    Step::Own(7, Some("X")),
    Step::Abandon(7),
    Step::Own(7, None),
    Step::Sends(7, Sent::Nothing),
];

#[test]
fn promises_of_another_ballot_count_for_nothing(rt: HostRuntime) {
    play(&rt, rt.alloc(), 3, 1, ANOTHER_BALLOT);
}

const OWN: &[Step] = &[
    Step::Start(7, 10, 2, "before"),
    Step::Promise(1, 10, 2, None),
    Step::Start(7, 11, 2, "own"),
    Step::Promise(2, 11, 2, None),
    Step::Promise(1, 11, 2, Some("own")),
];

/// A later attempt replaces an earlier one, and begins anew.
#[test]
fn the_own_value_where_no_prior_is_told(rt: HostRuntime) {
    play(&rt, rt.alloc(), 3, 2, OWN);
}

const COUNTED: &[Step] = &[
    Step::Open(0),
    Step::Start(9, 3, 1, "own"),
    Step::Open(1),
    Step::Start(7, 4, 1, "own"),
    Step::Open(2),
    Step::Start(8, 5, 1, "own"),
    Step::Open(3),
    Step::Start(9, 6, 1, "own"),
    Step::Open(3),
    Step::Room(10),
    Step::Abandon(8),
    Step::Open(2),
];

/// The last attempt begun at an instance replaces the one before. Room without an attempt does not count.
#[test]
fn open_attempts_are_counted(rt: HostRuntime) {
    play(&rt, rt.alloc(), 3, 1, COUNTED);
}

const APART: &[Step] = &[
    Step::Start(7, 4, 1, "X"),
    Step::Start(8, 5, 1, "Y"),
    Step::Promise(1, 4, 1, None),
    Step::Promise(2, 5, 1, None),
    Step::Promise(2, 4, 1, Some("X")),
    Step::Sends(7, Sent::Propose(4, 1, "X")),
    Step::Sends(8, Sent::Prepare(5, 1)),
];

#[test]
fn attempts_at_two_instances_are_apart(rt: HostRuntime) {
    play(&rt, rt.alloc(), 3, 1, APART);
}

const SPAN: &[Step] = &[
    Step::Span(6, 3, 1, b"ABC"),
    Step::Open(3),
    Step::Promise(3, 2, 1, None),
    Step::Promise(1, 3, 1, None),
    Step::Promise(2, 3, 1, Some("B")),
    Step::Sends(6, Sent::Prepare(3, 1)),
    Step::Sends(7, Sent::Propose(3, 1, "B")),
    Step::Sends(8, Sent::Prepare(3, 1)),
    Step::Span(7, 4, 1, b"DEF"),
    Step::Open(4),
    Step::Sends(6, Sent::Prepare(3, 1)),
    Step::Sends(7, Sent::Prepare(4, 1)),
    Step::Sends(8, Sent::Prepare(4, 1)),
    Step::Sends(9, Sent::Prepare(4, 1)),
];

/// A span that begins within another one replaces what that one has there.
#[test]
fn attempts_of_a_span_share_a_ballot(rt: HostRuntime) {
    play(&rt, rt.alloc(), 3, 1, SPAN);
}

fn next(member: &Member, recorded: u32) -> Result<Ballot, ProposerFault> {
    member.proposer().next_ballot(recorded)
}

fn rounds(rt: &impl Abort, member: &Member, recorded: u32, round: u32) {
    same(rt, next(member, recorded), Ok(ballot(rt, round, 2)));
}

fn hear(rt: &impl Abort, member: &mut Member) {
    rounds(rt, member, 0, 1);
    member.heard(ballot(rt, 9, 1));
    member.heard(ballot(rt, 4, 3));
    rounds(rt, member, 3, 10);
    rounds(rt, member, 12, 13);
    let last = next(member, 4_294_967_295);
    same(rt, last, Err(ProposerFault::RoundsUsedUp));
}

#[test]
fn ballots_above_all_rounds_heard(rt: HostRuntime) {
    hear(&rt, &mut Member::new(&rt, rt.alloc(), 3, 2));
}

/// The voter, the round and the node of its ballot, its value, and whether that value becomes known.
const VOTES: &[(u8, u32, u8, &str, bool)] = &[
    (2, 1, 1, "v", false),
    (2, 1, 1, "v", false),
    (2, 1, 1, "v", false),
    (3, 2, 3, "w", false),
    (4, 1, 1, "v", false),
    (5, 1, 1, "v", true),
];

fn known_by(
    rt: &impl Abort,
    learner: &mut Learner,
    voter: NodeId,
    at: Ballot,
    value: &Value,
) -> Option<Value> {
    let chosen = learner.on_accepted(voter, instance(rt, 1), at, value);
    chosen.expect(rt, "memory")
}

fn completes(rt: &impl Abort, learner: &Learner, voter: NodeId, at: Ballot, value: &Value) -> bool {
    learner.completes(voter, instance(rt, 1), at, value)
}

/// Whether the value that is known is the one that was told.
fn is_copy(known: Value, told: &Value) -> bool {
    let is_copy = is_bytes(known.as_bytes(), told.as_bytes());
    drop(known);
    is_copy
}

/// Whether the value becomes known. What becomes known is what the learner is told.
fn is_told(
    rt: &impl Abort,
    learner: &mut Learner,
    voter: NodeId,
    at: Ballot,
    value: &Value,
) -> bool {
    match known_by(rt, learner, voter, at, value) {
        Some(known) => {
            ensure(rt, is_copy(known, value), voter);
            true
        }
        None => false,
    }
}

fn tell(rt: &impl Abort, alloc: Global, learner: &mut Learner, row: (u8, u32, u8, &str, bool)) {
    let (voter, round, number, text, known) = row;
    let (voter, at) = (node(rt, voter), ballot(rt, round, number));
    let value = value(rt, alloc, text.as_bytes());
    same(rt, completes(rt, learner, voter, at, &value), known);
    same(rt, is_told(rt, learner, voter, at, &value), known);
}

/// Votes that were forgotten no longer count.
fn forgets(rt: &impl Abort, alloc: Global, learner: &mut Learner) {
    learner.forget(instance(rt, 1));
    let value = value(rt, alloc, b"v");
    let would = completes(rt, learner, node(rt, 5), ballot(rt, 1, 1), &value);
    same(rt, would, false);
}

fn votes(rt: &impl Abort, alloc: Global, learner: &mut Learner) {
    for &row in VOTES {
        tell(rt, alloc, learner, row);
    }
    forgets(rt, alloc, learner);
}

#[test]
fn votes_at_one_ballot_make_a_value_known(rt: HostRuntime) {
    votes(
        &rt,
        rt.alloc(),
        &mut Learner::new(rt.alloc(), cluster(&rt, 5)),
    );
}

/// The instance, its value, how it is learned (`None`: a conflict), and the first gap then.
const LEARNED: &[(u32, &str, Option<Learned>, u32)] = &[
    (1, "a", Some(Learned::New), 2),
    (3, "c", Some(Learned::New), 2),
    (1, "b", None, 2),
    (2, "b", Some(Learned::New), 4),
    (3, "c", Some(Learned::Known), 4),
];

/// The value that conflicts with the known one is handed back.
fn hands_back(rt: &impl Abort, fault: LearnFault, text: &str) {
    let is_back = matches!(&fault, LearnFault::Conflict(back) if is_text(back, text));
    drop(fault);
    ensure(rt, is_back, text);
}

/// How a value is learned, if it is.
fn learn(
    rt: &impl Abort,
    alloc: Global,
    log: &mut ChosenLog,
    number: u32,
    text: &str,
) -> Option<Learned> {
    let value = value(rt, alloc, text.as_bytes());
    match log.learn(instance(rt, number), value) {
        Ok(learned) => Some(learned),
        Err(fault) => {
            hands_back(rt, fault, text);
            None
        }
    }
}

fn is_known(rt: &impl Abort, log: &ChosenLog, number: u32, text: &str) -> bool {
    let known = log.get(instance(rt, number)).expect(rt, "a known value");
    is_text(known, text)
}

fn gap_of(log: &ChosenLog) -> Option<Instance> {
    log.next_gap()
}

/// Whether three values are known up to the first gap, and the second of them is this one.
fn has_second(log: &ChosenLog, text: &str) -> bool {
    matches!(log.prefix(), [_, value, _] if is_text(value, text))
}

fn learn_row(
    rt: &impl Abort,
    alloc: Global,
    log: &mut ChosenLog,
    row: (u32, &str, Option<Learned>, u32),
) {
    let (number, text, expected, gap) = row;
    same(rt, learn(rt, alloc, log, number, text), expected);
    same(rt, gap_of(log), Some(instance(rt, gap)));
    same(rt, is_known(rt, log, number, text), expected.is_some());
}

fn learn_each(rt: &impl Abort, alloc: Global, log: &mut ChosenLog) {
    for &row in LEARNED {
        learn_row(rt, alloc, log, row);
    }
    ensure(rt, has_second(log, "b"), 2);
}

#[test]
fn one_value_an_instance_up_to_the_first_gap(rt: HostRuntime) {
    learn_each(&rt, rt.alloc(), &mut ChosenLog::new(rt.alloc()));
}
