//! The entries that are spelled like another one except for one byte.
//!
//! An entry is spelled as its length, its kind, numbers of fixed lengths and, if it is a vote or a learned
//! value, its value. If the byte is in the length, the other entry has a beginning of the value, since
//! nothing comes after the last entry. If it is in the kind, a promise and a vote for the empty value take
//! each other's place, and so do a round and a floor; a vote for one byte takes the place of a span's
//! promise, and a learned value that of any of these. Otherwise the byte is in a number or the value. No
//! record here has a vote for one byte, or a learned value of no byte or of more than two.
use crate::samples::value;
use site_ids::{Ballot, Cluster, Instance, Value, Vote};
use std::alloc::Global;
use std::process::Abort;
use test_record::entry::Entry;

/// Puts a byte at a place, if there is one.
pub fn put_byte(bytes: &mut [u8], place: usize, byte: u8) {
    if place < bytes.len() {
        bytes[place] = byte;
    }
}

/// The bytes with this one at a place.
pub fn with_byte(rt: &impl Abort, alloc: Global, bytes: &[u8], place: usize, byte: u8) -> Vec<u8> {
    let mut bytes = Vec::from_slice(alloc, bytes).expect(rt, "memory");
    put_byte(&mut bytes, place, byte);
    bytes
}

fn number(number: u32, place: usize, byte: u8) -> u32 {
    let mut bytes = number.to_be_bytes();
    put_byte(&mut bytes, place, byte);
    u32::from_be_bytes(bytes)
}

/// Four bytes are the instance's, four the round's, and the next is the node.
fn ballot(
    cluster: Cluster,
    instance: Instance,
    ballot: Ballot,
    place: usize,
    byte: u8,
) -> Option<(Instance, Ballot)> {
    let instance = Instance::new(number(instance.number(), place, byte))?;
    let round = number(ballot.round(), place.wrapping_sub(4), byte);
    let node = if place == 8 {
        byte
    } else {
        ballot.node().number()
    };
    Some((instance, Ballot::new(round, cluster.node(node)?)?))
}

/// A vote for these bytes.
fn vote_for(
    rt: &impl Abort,
    alloc: Global,
    instance: Instance,
    ballot: Ballot,
    bytes: &[u8],
) -> Entry {
    let value = value(rt, alloc, bytes);
    Entry::Voted(instance, Vote { ballot, value })
}

/// A vote for the bytes with one of them changed, if it is there.
fn vote_with(
    rt: &impl Abort,
    alloc: Global,
    instance: Instance,
    vote: &Vote,
    place: usize,
    byte: u8,
) -> Entry {
    let bytes = with_byte(rt, alloc, vote.value.as_bytes(), place, byte);
    vote_for(rt, alloc, instance, vote.ballot, &bytes)
}

/// Nine bytes are the instance's and the ballot's, and then come the value's.
fn vote(
    rt: &impl Abort,
    alloc: Global,
    cluster: Cluster,
    instance: Instance,
    vote: &Vote,
    place: usize,
    byte: u8,
) -> Option<Entry> {
    if place >= 9 {
        return Some(vote_with(rt, alloc, instance, vote, place - 9, byte));
    }
    let (instance, ballot) = ballot(cluster, instance, vote.ballot, place, byte)?;
    let bytes = vote.value.as_bytes();
    Some(vote_for(rt, alloc, instance, ballot, bytes))
}

/// Four bytes are the first instance's, the next is the count.
fn span(
    cluster: Cluster,
    first: Instance,
    count: u8,
    promised: Ballot,
    place: usize,
    byte: u8,
) -> Option<Entry> {
    if place == 4 {
        return Some(Entry::PromisedSpan(first, byte, promised));
    }
    let place = if place < 4 { place } else { place - 1 };
    let (first, promised) = ballot(cluster, first, promised, place, byte)?;
    Some(Entry::PromisedSpan(first, count, promised))
}

/// Four bytes are the instance's, and then come the value's.
fn learned(
    rt: &impl Abort,
    alloc: Global,
    instance: Instance,
    learned: &Value,
    place: usize,
    byte: u8,
) -> Option<Entry> {
    let instance = Instance::new(number(instance.number(), place, byte))?;
    let bytes = with_byte(rt, alloc, learned.as_bytes(), place.wrapping_sub(4), byte);
    Some(Entry::Learned(instance, value(rt, alloc, &bytes)))
}

/// The floor, if that number is an instance.
fn floor_of(number: u32) -> Option<Entry> {
    Some(Entry::Floor(Instance::new(number)?))
}

/// How many bytes an entry has after its kind.
pub fn places(entry: &Entry) -> usize {
    match entry {
        Entry::Round(_) => 4,
        Entry::Promised(..) => 9,
        Entry::PromisedSpan(..) => 10,
        Entry::Voted(_, vote) => vote.value.as_bytes().len().saturating_add(9),
        Entry::Learned(_, value) => value.as_bytes().len().saturating_add(4),
        Entry::Floor(_) => 4,
    }
}

fn promise(
    cluster: Cluster,
    instance: Instance,
    promised: Ballot,
    place: usize,
    byte: u8,
) -> Option<Entry> {
    let (instance, promised) = ballot(cluster, instance, promised, place, byte)?;
    Some(Entry::Promised(instance, promised))
}

/// The entry with this byte at a place after its kind, if that is an entry.
pub fn changed(
    rt: &impl Abort,
    alloc: Global,
    cluster: Cluster,
    entry: &Entry,
    place: usize,
    byte: u8,
) -> Option<Entry> {
    match entry {
        Entry::Round(round) => Some(Entry::Round(number(*round, place, byte))),
        Entry::Promised(instance, promised) => {
            promise(cluster, *instance, *promised, place, byte)
        }
        Entry::PromisedSpan(first, count, promised) => {
            span(cluster, *first, *count, *promised, place, byte)
        }
        Entry::Voted(instance, voted) => vote(rt, alloc, cluster, *instance, voted, place, byte),
        Entry::Learned(instance, value) => learned(rt, alloc, *instance, value, place, byte),
        Entry::Floor(floor) => floor_of(number(floor.number(), place, byte)),
    }
}

/// The vote for one byte that is spelled like the promise of a span except for its kind: the count is the
/// first byte of its round, the last byte of the promised round its node, and the promised node its value.
fn vote_in_span(
    rt: &impl Abort,
    alloc: Global,
    cluster: Cluster,
    first: Instance,
    count: u8,
    promised: Ballot,
) -> Option<Entry> {
    let [a, b, c, d] = promised.round().to_be_bytes();
    let node = cluster.node(d)?;
    let ballot = Ballot::new(u32::from_be_bytes([count, a, b, c]), node)?;
    let value = [promised.node().number()];
    Some(vote_for(rt, alloc, first, ballot, &value))
}

fn ballot_bytes(ballot: Ballot) -> [u8; 5] {
    let [a, b, c, d] = ballot.round().to_be_bytes();
    [a, b, c, d, ballot.node().number()]
}

/// A learned value whose bytes are `front` and then `rest`.
fn learned_of(
    rt: &impl Abort,
    alloc: Global,
    instance: Instance,
    front: &[u8],
    rest: &[u8],
) -> Entry {
    let mut bytes = Vec::from_slice(alloc, front).expect(rt, "memory");
    bytes.extend_from_slice(rest).expect(rt, "memory");
    Entry::Learned(instance, value(rt, alloc, &bytes))
}

/// The learned value that is spelled like another entry except for its kind. Its instance is the entry's
/// instance or round, and what comes after that is its value.
fn learned_in(rt: &impl Abort, alloc: Global, entry: &Entry) -> Option<Entry> {
    Some(match entry {
        Entry::Round(round) => learned_of(rt, alloc, Instance::new(*round)?, b"", b""),
        Entry::Promised(instance, ballot) => {
            learned_of(rt, alloc, *instance, &ballot_bytes(*ballot), b"")
        }
        Entry::PromisedSpan(first, count, ballot) => {
            learned_of(rt, alloc, *first, &[*count], &ballot_bytes(*ballot))
        }
        Entry::Voted(instance, vote) => {
            let front = ballot_bytes(vote.ballot);
            learned_of(rt, alloc, *instance, &front, vote.value.as_bytes())
        }
        Entry::Floor(floor) => learned_of(rt, alloc, *floor, b"", b""),
        Entry::Learned(..) => return None,
    })
}

/// The beginnings of a learned value, shortest first.
fn other_of_learned(
    rt: &impl Abort,
    alloc: Global,
    instance: Instance,
    learned: &Value,
    number: usize,
) -> Option<Entry> {
    let bytes = learned.as_bytes();
    if number >= bytes.len() {
        return None;
    }
    Some(Entry::Learned(instance, value(rt, alloc, &bytes[..number])))
}

/// Votes for the beginnings of a vote's value, shortest first, and then a promise in place of it.
fn other_of_vote(
    rt: &impl Abort,
    alloc: Global,
    instance: Instance,
    vote: &Vote,
    number: usize,
) -> Option<Entry> {
    let bytes = vote.value.as_bytes();
    if number < bytes.len() {
        let beginning = &bytes[..number];
        Some(vote_for(rt, alloc, instance, vote.ballot, beginning))
    } else if number == bytes.len() {
        Some(Entry::Promised(instance, vote.ballot))
    } else {
        None
    }
}

/// The entries that take an entry's place with another length or kind, by number from 0 on. For a vote they
/// are those of `other_of_vote`, for a promise the vote for the empty value, for a span's promise a vote for
/// one byte, for a learned value its beginnings, for a round a floor, for a floor a round. Last comes the
/// learned value that is spelled so, if that is another entry.
pub fn other(
    rt: &impl Abort,
    alloc: Global,
    cluster: Cluster,
    entry: &Entry,
    number: usize,
) -> Option<Entry> {
    if number.saturating_add(1) == places(entry) {
        return learned_in(rt, alloc, entry);
    }
    match entry {
        Entry::Round(round) if number == 0 => floor_of(*round),
        Entry::Floor(floor) if number == 0 => Some(Entry::Round(floor.number())),
        Entry::Voted(instance, vote) => other_of_vote(rt, alloc, *instance, vote, number),
        Entry::Promised(instance, ballot) if number == 0 => {
            Some(vote_for(rt, alloc, *instance, *ballot, b""))
        }
        Entry::PromisedSpan(first, count, ballot) if number == 0 => {
            vote_in_span(rt, alloc, cluster, *first, *count, *ballot)
        }
        Entry::Learned(instance, value) => other_of_learned(rt, alloc, *instance, value, number),
        _ => None,
    }
}
