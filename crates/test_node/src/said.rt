//! What was handed out, as tables have it.
use crate::comparing::{ensure, same};
use node::{Outbox, To};
use std::process::Abort;
use wire::Message;

#[derive(Clone, Copy, PartialEq, Eq)]
enum Kind {
    Prepare,
    /// Whether it reports a vote.
    Promise(bool),
    Propose,
    Accepted,
    Nack,
    Ask,
    Chosen,
}

/// A message.
#[derive(Clone, Copy)]
pub(crate) enum Said {
    /// A prepare: its first instance, its round, and how many instances it is of.
    Prepare(u32, u32, u8),
    /// A promise at an instance that reports no vote.
    Promise(u32),
    /// A promise that reports a vote of that round.
    Told(u32, u32),
    /// A proposal of these bytes, at any instance.
    Propose(&'static str),
    /// A vote at an instance, in a round, for these bytes.
    Vote(u32, u32, &'static str),
    /// A refusal at an instance, which says that this round was promised.
    Nack(u32, u32),
    /// A question about an instance.
    Ask(u32),
}

/// An instance, a round and a count; 0 if the message has none, or none that is looked at.
type Numbers = (u32, u32, u8);

fn kind_of(message: &Message) -> Kind {
    match message {
        Message::Prepare { .. } => Kind::Prepare,
        Message::Promise { prior, .. } => Kind::Promise(prior.is_some()),
        Message::Propose { .. } => Kind::Propose,
        Message::Accepted { .. } => Kind::Accepted,
        Message::Nack { .. } => Kind::Nack,
        Message::Ask { .. } => Kind::Ask,
        Message::Chosen { .. } => Kind::Chosen,
    }
}

fn numbers_of(message: &Message) -> Numbers {
    let at = message.instance().number();
    match message {
        Message::Prepare { ballot, count, .. } => (at, ballot.round(), *count),
        Message::Promise {
            prior: Some(vote),
            ..
        } => (at, vote.ballot.round(), 0),
        Message::Accepted { ballot, .. } => (at, ballot.round(), 0),
        Message::Nack { promised, .. } => (at, promised.round(), 0),
        Message::Propose { .. } => (0, 0, 0),
        _ => (at, 0, 0),
    }
}

/// The bytes of its value; none for a promise.
fn bytes_of(message: &Message) -> &[u8] {
    match message {
        Message::Propose { value, .. }
        | Message::Accepted { value, .. }
        | Message::Chosen { value, .. } => value.as_bytes(),
        _ => b"",
    }
}

/// The number of the node that something is for; 0 for all.
pub(crate) fn number_of(to: &To) -> u8 {
    match to {
        To::All => 0,
        To::One(node) => node.number(),
    }
}

/// The kind, the numbers and the value that a message has to have.
fn parts_of(said: Said) -> (Kind, Numbers, &'static str) {
    match said {
        Said::Prepare(at, round, count) => (Kind::Prepare, (at, round, count), ""),
        Said::Promise(at) => (Kind::Promise(false), (at, 0, 0), ""),
        Said::Told(at, round) => (Kind::Promise(true), (at, round, 0), ""),
        Said::Propose(text) => (Kind::Propose, (0, 0, 0), text),
        Said::Vote(at, round, text) => (Kind::Accepted, (at, round, 0), text),
        Said::Nack(at, round) => (Kind::Nack, (at, round, 0), ""),
        Said::Ask(at) => (Kind::Ask, (at, 0, 0), ""),
    }
}

fn has(message: &Message, said: Said) -> bool {
    let (kind, numbers, text) = parts_of(said);
    kind_of(message) == kind
        && numbers_of(message) == numbers
        && bytes_of(message) == text.as_bytes()
}

/// Whether that was handed out to the node of that number, or to all for 0.
pub(crate) fn is_said(handed: &(To, Message), to: u8, said: Said) -> bool {
    number_of(&handed.0) == to && has(&handed.1, said)
}

/// Exactly this was handed out, all of it to one node or to all.
pub(crate) fn is_all_said(rt: &impl Abort, out: &Outbox, to: u8, wanted: &[Said]) {
    same(rt, out.len(), wanted.len());
    for (handed, &said) in out.iter().zip(wanted) {
        let (_, numbers, _) = parts_of(said);
        ensure(rt, is_said(handed, to, said), (to, numbers));
    }
}

/// Whether that was handed out last.
pub(crate) fn is_last(out: &Outbox, to: u8, said: Said) -> bool {
    match out.last() {
        Some(handed) => is_said(handed, to, said),
        None => false,
    }
}

/// That was handed out last.
pub(crate) fn ensure_last(rt: &impl Abort, out: &Outbox, to: u8, said: Said) {
    let (_, numbers, _) = parts_of(said);
    ensure(rt, is_last(out, to, said), (to, numbers));
}

/// The round of a prepare to all that was handed out last.
pub(crate) fn prepared_round(out: &Outbox) -> Option<u32> {
    match out.last() {
        Some((To::All, Message::Prepare { ballot, .. })) => Some(ballot.round()),
        _ => None,
    }
}
