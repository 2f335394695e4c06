//! Each call with one allocation that fails. It returns what it always returns, or that an allocation failed.
//! Then nothing has changed, and the next try returns what it always returns.
//!
//! Each test tries everything twice. A second program, `tools/gate/refuse-growths`, runs each test once for
//! each of its allocations, and makes that one fail: the first try meets it, the second does not. Without
//! that program no allocation fails.
use crate::comparing::{ensure, same};
use crate::member::{Member, Sent, is_made, is_resent, is_sent, three_values};
use crate::messages::is_written;
use crate::samples::{ballot, cluster, instance, is_bytes, node, value, vote};
use crate::steps::{Step, act};
use crate::stored::{self, ends, format_above, found_floor, one_of_three};
use chosen_log::{ChosenLog, LearnFault, Learned};
use durable::{Record, RecordFault};
use learner::Learner;
use proposer::{Proposal, ProposerFault};
use site_disk::MemDisk;
use site_ids::{Ballot, Cluster, NodeId, Value, Vote};
use std::alloc::{AllocError, Global};
use std::process::Abort;
use wire::{Message, WireFault, decode};

/// A promise with a prior vote for the value of one byte.
const PROMISE: &[u8] = &[
    1, 2, 2, 0, 0, 0, 1, 0, 0, 0, 3, 1, 1, 0, 0, 0, 1, 2, 0, 0, 0, 1, 7,
];

fn decoded(rt: &impl Abort, alloc: Global) -> Message {
    let cluster = cluster(rt, 3);
    match decode(alloc, PROMISE, cluster) {
        Ok(message) => message,
        Err(fault) => {
            same(rt, fault, WireFault::OutOfMemory);
            decode(alloc, PROMISE, cluster).expect(rt, "a message")
        }
    }
}

/// The message is spelled as `PROMISE`.
fn encodes(rt: &impl Abort, alloc: Global, message: Message) {
    let mut out = Vec::new(alloc);
    if !is_written(&message, &mut out) {
        same(rt, out.len(), 0);
        ensure(rt, is_written(&message, &mut out), 1);
    }
    drop(message);
    ensure(rt, is_bytes(&out, PROMISE), 2);
}

fn copy_of(rt: &impl Abort, message: Message) -> Message {
    let copy = message.try_clone().expect(rt, "a copy");
    drop(message);
    copy
}

#[test]
fn messages(rt: HostRuntime) {
    let alloc = rt.alloc();
    encodes(&rt, alloc, copy_of(&rt, decoded(&rt, alloc)));
}

/// A call whose allocation failed changes nothing, so the next try returns what it always returns.
fn promised(
    rt: &impl Abort,
    member: &mut Member,
    from: u8,
    own: Ballot,
    prior: &Vote,
) -> Option<Proposal> {
    let at = instance(rt, 7);
    match member.promise(rt, from, at, own, Some(prior)) {
        Ok(proposal) => proposal,
        Err(fault) => {
            same(rt, fault, ProposerFault::OutOfMemory);
            member
                .promise(rt, from, at, own, Some(prior))
                .expect(rt, "memory")
        }
    }
}

fn start(rt: &impl Abort, member: &mut Member, own: Ballot, value: &Value) {
    let at = instance(rt, 7);
    if member.start(at, own, value).is_err() {
        ensure(rt, is_resent(rt, member, 7, Sent::Nothing), 1);
        ensure(rt, member.start(at, own, value).is_ok(), 2);
    }
}

fn is_sent_again(rt: &impl Abort, member: &Member) -> Result<bool, AllocError> {
    let message = member.resend(instance(rt, 7))?;
    Ok(is_sent(message, Sent::Propose(2, 1, "prior")))
}

fn send_again(rt: &impl Abort, member: &Member) {
    let is_right = match is_sent_again(rt, member) {
        Ok(is_right) => is_right,
        Err(_) => is_sent_again(rt, member).expect(rt, "memory"),
    };
    ensure(rt, is_right, 7);
}

fn propose(rt: &impl Abort, member: &mut Member, own: Ballot, value: &Value, prior: &Vote) {
    start(rt, member, own, value);
    let proposal = promised(rt, member, 1, own, prior);
    ensure(rt, is_made(proposal, own, None), 1);
    let proposal = promised(rt, member, 2, own, prior);
    ensure(rt, is_made(proposal, own, Some("prior")), 2);
    send_again(rt, member);
}

#[test]
fn proposals(rt: HostRuntime) {
    let alloc = rt.alloc();
    let prior = vote(&rt, alloc, ballot(&rt, 1, 3), "prior");
    let value = value(&rt, alloc, b"own");
    let mut member = Member::new(&rt, alloc, 3, 1);
    propose(&rt, &mut member, ballot(&rt, 2, 1), &value, &prior);
    drop(value);
    drop(prior);
}

fn values_of(rt: &impl Abort, alloc: Global, bytes: &[u8; 3]) -> Vec<Value> {
    match three_values(alloc, bytes) {
        Ok(values) => values,
        Err(_) => three_values(alloc, bytes).expect(rt, "values"),
    }
}

fn start_span(rt: &impl Abort, member: &mut Member, values: Vec<Value>) {
    let (first, ballot) = (instance(rt, 6), ballot(rt, 2, 1));
    ensure(rt, member.start_span(first, ballot, values), first);
    same(rt, member.proposer().attempts(), 3);
}

#[test]
fn spans(rt: HostRuntime) {
    let alloc = rt.alloc();
    let values = values_of(&rt, alloc, b"ABC");
    start_span(&rt, &mut Member::new(&rt, alloc, 3, 1), values);
}

/// Whether a vote for the value makes that known.
fn told(
    rt: &impl Abort,
    learner: &mut Learner,
    voter: u8,
    value: &Value,
) -> Result<bool, AllocError> {
    let first = instance(rt, 1);
    let known = learner.on_accepted(node(rt, voter), first, ballot(rt, 1, 1), value)?;
    let is_known = known.is_some();
    drop(known);
    Ok(is_known)
}

fn tell(rt: &impl Abort, learner: &mut Learner, voter: u8, value: &Value, completes: bool) {
    let first = instance(rt, 1);
    let known = match told(rt, learner, voter, value) {
        Ok(known) => known,
        Err(_) => {
            let would = learner.completes(node(rt, voter), first, ballot(rt, 1, 1), value);
            same(rt, would, completes);
            told(rt, learner, voter, value).expect(rt, "memory")
        }
    };
    same(rt, known, completes);
}

fn tell_two(rt: &impl Abort, learner: &mut Learner, value: Value) {
    tell(rt, learner, 1, &value, false);
    tell(rt, learner, 2, &value, true);
    drop(value);
}

#[test]
fn votes(rt: HostRuntime) {
    let value = value(&rt, rt.alloc(), b"v");
    tell_two(&rt, &mut Learner::new(rt.alloc(), cluster(&rt, 3)), value);
}

/// The value that was handed back because an allocation failed.
fn handed_back(rt: &impl Abort, fault: LearnFault) -> Value {
    match fault {
        LearnFault::Conflict(_) => panic!(rt; "a conflict"),
        LearnFault::OutOfMemory(back) => back,
    }
}

fn learn(rt: &impl Abort, log: &mut ChosenLog, number: u32, value: Value) {
    let at = instance(rt, number);
    let learned = match log.learn(at, value) {
        Ok(learned) => learned,
        Err(fault) => {
            let back = handed_back(rt, fault);
            ensure(rt, log.get(at).is_none(), number);
            log.learn(at, back).expect(rt, "memory")
        }
    };
    same(rt, learned, Learned::New);
}

const LEARNED: &[u32] = &[3, 1, 2];

fn learn_three(rt: &impl Abort, alloc: Global, log: &mut ChosenLog) {
    for &number in LEARNED {
        learn(rt, log, number, value(rt, alloc, b"v"));
    }
    same(rt, log.prefix().len(), 3);
}

#[test]
fn values(rt: HostRuntime) {
    learn_three(&rt, rt.alloc(), &mut ChosenLog::new(rt.alloc()));
}

/// A batch of round 1.
const BATCH: &[Step] = &[
    Step::Begin,
    Step::Round(1),
    Step::Promise(1, 1),
    Step::Span(5, 3, 1),
    Step::Vote(1, 1, "v"),
    Step::Learn(9, "w"),
];

fn format(alloc: Global, cluster: Cluster, node: NodeId) -> Option<MemDisk> {
    let mut disk = MemDisk::new(alloc);
    match Record::format(cluster, node, &mut disk) {
        Ok(()) => Some(disk),
        Err(_) => None,
    }
}

/// An empty record's disk. If an allocation failed, a beginning of the record is left, so it is made on
/// another disk then.
fn formatted(rt: &impl Abort, alloc: Global) -> MemDisk {
    let (cluster, node) = one_of_three(rt, 2);
    match format(alloc, cluster, node) {
        Some(disk) => disk,
        None => format(alloc, cluster, node).expect(rt, "a record"),
    }
}

/// What is left after an allocation failed is no record, or has the floor.
fn is_none_or_floor(rt: &impl Abort, alloc: Global, disk: MemDisk) {
    let found = found_floor(rt, alloc, disk);
    ensure(
        rt,
        found == Ok(65) || found == Err(RecordFault::NotARecord),
        65,
    );
}

/// The disk of a record above instance 65; another disk if an allocation failed.
fn floored(rt: &impl Abort, alloc: Global) -> MemDisk {
    let mut disk = MemDisk::new(alloc);
    if format_above(rt, &mut disk).is_ok() {
        return disk;
    }
    is_none_or_floor(rt, alloc, disk);
    let mut disk = MemDisk::new(alloc);
    ends(rt, format_above(rt, &mut disk), Ok(()));
    disk
}

/// The record on a disk, whose opening is tried twice.
fn opened(rt: &impl Abort, alloc: Global, disk: MemDisk) -> Record<MemDisk> {
    let (cluster, node) = one_of_three(rt, 2);
    match Record::open(alloc, cluster, node, disk) {
        Ok(record) => record,
        Err((_fault, disk)) => stored::opened(rt, alloc, disk),
    }
}

/// Instances at which the batch promises.
const RAISED: &[u32] = &[1, 5, 7];

/// This is promised at each instance of `RAISED`.
fn promises(rt: &impl Abort, record: &Record<MemDisk>, promised: Option<Ballot>) {
    for &at in RAISED {
        ensure(rt, record.slot(instance(rt, at)).promised == promised, at);
    }
}

/// The record has all of the batch, or nothing of it. Returns whether it has all.
fn tells(rt: &impl Abort, record: &Record<MemDisk>) -> bool {
    let all = record.round() == 1;
    if all {
        promises(rt, record, Some(ballot(rt, 1, 1)));
    } else {
        promises(rt, record, None);
    }
    same(rt, record.slot(instance(rt, 1)).vote.is_some(), all);
    same(rt, record.learned(instance(rt, 9)).is_some(), all);
    all
}

/// The step is taken, at the next try if an allocation failed.
fn take(rt: &impl Abort, alloc: Global, record: &mut Record<MemDisk>, step: Step) {
    if let Err(fault) = act(rt, alloc, record, step) {
        same(rt, fault, RecordFault::OutOfMemory);
        ends(rt, act(rt, alloc, record, step), Ok(()));
    }
}

/// A batch that waits to be sealed.
fn fill(rt: &impl Abort, alloc: Global, record: &mut Record<MemDisk>) {
    for &step in BATCH {
        take(rt, alloc, record, step);
    }
    same(rt, tells(rt, record), true);
}

/// If an allocation of the disk in memory failed, its call failed.
fn seal(rt: &impl Abort, record: &mut Record<MemDisk>) {
    if let Err(fault) = record.seal() {
        same(rt, fault, RecordFault::Device);
    }
}

/// The same on a record that a failed seal left, after it was opened again: it has all of the batch or none
/// of it.
fn fill_again(rt: &impl Abort, alloc: Global, record: &mut Record<MemDisk>) {
    if !tells(rt, record) {
        fill(rt, alloc, record);
        ends(rt, record.seal(), Ok(()));
    }
}

/// The record has all of the batch.
fn finds(rt: &impl Abort, record: Record<MemDisk>) {
    same(rt, tells(rt, &record), true);
    drop(record);
}

#[test]
fn batches(rt: HostRuntime) {
    let alloc = rt.alloc();
    let mut record = opened(&rt, alloc, formatted(&rt, alloc));
    fill(&rt, alloc, &mut record);
    seal(&rt, &mut record);
    let mut record = opened(&rt, alloc, record.close());
    fill_again(&rt, alloc, &mut record);
    finds(&rt, opened(&rt, alloc, record.close()));
}

#[test]
fn floors(rt: HostRuntime) {
    let alloc = rt.alloc();
    let record = opened(&rt, alloc, floored(&rt, alloc));
    same(&rt, (record.floor(), record.reach()), (65, 65));
    drop(record);
}
