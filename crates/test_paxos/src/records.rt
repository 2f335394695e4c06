//! Record files byte by byte.
use crate::comparing::{ensure, same};
use crate::disks::holds;
use crate::samples::{ballot, instance, is_bytes};
use crate::stored::{
    ONE_PROMISE, ONE_ROUND, disk_of, empty, ends, found_round, is_promised, is_refused,
    one_of_three, opened, put_promise, put_round, put_vote_for,
};
use acceptor::Slot;
use durable::{Record, RecordFault};
use site_disk::{Call, MemDisk};
use site_ids::Ballot;
use std::alloc::Global;
use std::process::Abort;

fn letter_of(call: &Call) -> u8 {
    match call {
        Call::Len => b'L',
        Call::Read => b'R',
        Call::Write { .. } => b'W',
        Call::Sync => b'S',
    }
}

/// The same promise after a gate that isn't open.
const SHUT: [u8; 26] =
    *b"SITEREC1\x02\x03\x07\x00\x00\x00\x0a\x02\x00\x00\x00\x01\x00\x00\x00\x01\x01\x00";

/// How many bytes of the promise's record there are, the node that opens them, and why it is refused.
const OPENINGS: &[(usize, u8, Option<RecordFault>)] = &[
    (26, 2, None),
    (25, 2, Some(RecordFault::Damaged)),
    (26, 3, Some(RecordFault::WrongNode)),
    (10, 3, Some(RecordFault::NotARecord)),
];

/// The record of these bytes has this promise.
fn promises(rt: &impl Abort, alloc: Global, bytes: &[u8], promised: Option<Ballot>) {
    let record = opened(rt, alloc, disk_of(rt, alloc, bytes));
    is_promised(rt, &record, promised);
    drop(record);
}

#[test]
fn a_promise_record_is_read_or_refused(rt: HostRuntime) {
    let alloc = rt.alloc();
    for &(len, node, want) in OPENINGS {
        is_refused(&rt, alloc, node, &ONE_PROMISE[..len.min(26)], want);
    }
    is_refused(&rt, alloc, 2, &SHUT, None);
    promises(&rt, alloc, &ONE_PROMISE, Some(ballot(&rt, 1, 1)));
    promises(&rt, alloc, &SHUT, None);
}

/// Whether these are the calls, a letter each.
pub fn are_calls(calls: &[Call], letters: &[u8]) -> bool {
    for (call, &letter) in calls.iter().zip(letters) {
        if letter_of(call) != letter {
            return false;
        }
    }
    calls.len() == letters.len()
}

fn check_round(rt: &impl Abort, disk: &mut MemDisk) {
    let (cluster, node) = one_of_three(rt, 2);
    ensure(rt, are_calls(disk.calls(), b"SLRRWSWS"), 8);
    ensure(rt, holds(disk, &ONE_ROUND), 21);
    let again = Record::format(cluster, node, disk);
    ends(rt, again, Err(RecordFault::NotARecord));
}

fn put_one(rt: &impl Abort, record: &mut Record<MemDisk>) {
    ensure(rt, record.has_room(5), 5);
    ends(rt, put_round(record, 1), Ok(()));
}

/// The disk of an empty record that took round 1.
fn disk_of_one(rt: &impl Abort, alloc: Global) -> MemDisk {
    let mut record = empty(rt, alloc);
    put_one(rt, &mut record);
    record.close()
}

#[test]
fn a_round_is_four_calls_and_eleven_bytes(rt: HostRuntime) {
    let mut disk = disk_of_one(&rt, rt.alloc());
    check_round(&rt, &mut disk);
    same(&rt, found_round(&rt, rt.alloc(), disk), 1);
}

fn put_seventy(rt: &impl Abort, alloc: Global, record: &mut Record<MemDisk>) {
    let ballot = ballot(rt, 1, 1);
    for number in 1..71u8 {
        let at = instance(rt, u32::from(number));
        ends(rt, put_promise(record, at, ballot), Ok(()));
        let put = put_vote_for(rt, alloc, record, (at, ballot), &[number; 1000]);
        ends(rt, put, Ok(()));
    }
}

/// Whether the ballot is promised, and the slot has a vote at it for that value.
fn is_voted(slot: &Slot, ballot: Ballot, value: &[u8]) -> bool {
    match &slot.vote {
        Some(vote) => {
            slot.promised == Some(ballot)
                && vote.ballot == ballot
                && is_bytes(vote.value.as_bytes(), value)
        }
        None => false,
    }
}

fn read_seventy(rt: &impl Abort, record: Record<MemDisk>) {
    let ballot = ballot(rt, 1, 1);
    for number in 1..71u8 {
        let slot = record.slot(instance(rt, u32::from(number)));
        ensure(rt, is_voted(slot, ballot, &[number; 1000]), number);
    }
    drop(record);
}

#[test]
fn seventy_votes_read_back(rt: HostRuntime) {
    let alloc = rt.alloc();
    let mut record = empty(&rt, alloc);
    put_seventy(&rt, alloc, &mut record);
    read_seventy(&rt, opened(&rt, alloc, record.close()));
}
