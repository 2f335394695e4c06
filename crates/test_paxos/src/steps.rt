//! Steps of a record: what is put, and what the record reports then.
use crate::comparing::{ensure, same};
use crate::samples::{ballot, instance, is_text};
use crate::stored::{empty, put_learned, put_promise, put_round, put_span, put_vote_for};
use acceptor::Slot;
use durable::{Record, RecordFault};
use site_disk::{Disk, MemDisk};
use site_ids::Value;
use std::alloc::Global;
use std::process::Abort;

/// What is put, and what is found then. A ballot is its round, of node 1.
#[derive(Clone, Copy)]
pub(crate) enum Step {
    Begin,
    Seal,
    Round(u32),
    /// A promise at an instance.
    Promise(u32, u32),
    /// The promise of a span: its first instance, how many instances it has, and the round.
    Span(u32, u8, u32),
    /// The same is not to be put.
    NoSpan(u32, u8, u32),
    /// A vote at an instance for a text.
    Vote(u32, u32, &'static str),
    /// A text learned at an instance.
    Learn(u32, &'static str),
    /// The same is not to be put.
    NoLearn(u32, &'static str),
    /// The rounds promised from an instance on, 0 if none is.
    Promised(u32, &'static [u32]),
    /// What is voted for at an instance.
    Voted(u32, &'static str),
    /// What is learned at an instance, if anything.
    Learned(u32, Option<&'static str>),
    GreatestRound(u32),
    Floor(u32),
    /// How far the record reaches.
    Reach(u32),
}

/// What a step returns, if it puts or ends something.
pub(crate) fn act<D: Disk>(
    rt: &impl Abort,
    alloc: Global,
    record: &mut Record<D>,
    step: Step,
) -> Result<(), RecordFault> {
    match step {
        Step::Begin => record.begin(),
        Step::Seal => record.seal(),
        Step::Round(round) => put_round(record, round),
        Step::Promise(at, round) => put_promise(record, instance(rt, at), ballot(rt, round, 1)),
        Step::Span(first, count, round) | Step::NoSpan(first, count, round) => {
            put_span(record, instance(rt, first), count, ballot(rt, round, 1))
        }
        Step::Vote(at, round, text) => {
            let vote = (instance(rt, at), ballot(rt, round, 1));
            put_vote_for(rt, alloc, record, vote, text.as_bytes())
        }
        Step::Learn(at, text) | Step::NoLearn(at, text) => {
            put_learned(rt, alloc, record, instance(rt, at), text.as_bytes())
        }
        _ => Ok(()),
    }
}

fn wanted(step: Step) -> Result<(), RecordFault> {
    match step {
        Step::NoSpan(..) | Step::NoLearn(..) => Err(RecordFault::NotARecord),
        _ => Ok(()),
    }
}

fn promised_round(slot: &Slot) -> u32 {
    match slot.promised {
        Some(promised) => promised.round(),
        None => 0,
    }
}

/// The rounds promised from an instance on are these.
pub(crate) fn promises<D: Disk>(rt: &impl Abort, record: &Record<D>, first: u32, rounds: &[u32]) {
    let mut at = first;
    for &round in rounds {
        let promised = promised_round(record.slot(instance(rt, at)));
        same(rt, (at, promised), (at, round));
        at = at.saturating_add(1);
    }
}

fn is_voted_for(slot: &Slot, text: &str) -> bool {
    match &slot.vote {
        Some(vote) => is_text(&vote.value, text),
        None => false,
    }
}

fn is_learned(learned: Option<&Value>, text: Option<&str>) -> bool {
    match (learned, text) {
        (Some(learned), Some(text)) => is_text(learned, text),
        (None, None) => true,
        _ => false,
    }
}

/// The record reports what a step says, if it says something.
fn look<D: Disk>(rt: &impl Abort, record: &Record<D>, step: Step) {
    match step {
        Step::Promised(first, rounds) => promises(rt, record, first, rounds),
        Step::Voted(at, text) => {
            ensure(rt, is_voted_for(record.slot(instance(rt, at)), text), at);
        }
        Step::Learned(at, text) => {
            ensure(rt, is_learned(record.learned(instance(rt, at)), text), at);
        }
        Step::GreatestRound(round) => same(rt, record.greatest_round(), round),
        Step::Floor(floor) => same(rt, record.floor(), floor),
        Step::Reach(reach) => same(rt, record.reach(), reach),
        _ => {}
    }
}

/// Each step in turn, from the one numbered 0 on.
pub(crate) fn take<D: Disk>(
    rt: &impl Abort,
    alloc: Global,
    record: &mut Record<D>,
    steps: &[Step],
) {
    for (number, &step) in steps.iter().enumerate() {
        let came = act(rt, alloc, record, step);
        same(rt, (number, came), (number, wanted(step)));
        look(rt, record, step);
    }
}

/// The disk of an empty record after these steps.
pub(crate) fn disk_behind(rt: &impl Abort, alloc: Global, steps: &[Step]) -> MemDisk {
    let mut record = empty(rt, alloc);
    take(rt, alloc, &mut record, steps);
    record.close()
}
