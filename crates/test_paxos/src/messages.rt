//! Messages as datagrams, by rows in hexadecimal; verdicts of an acceptor; names of nodes, instances and
//! ballots.
use crate::comparing::{ensure, same};
use crate::samples::{ballot, cluster, instance, is_text, node, push, vote};
use acceptor::{PrepareVerdict, ProposeVerdict, Slot, judge_prepare, judge_propose};
use site_ids::{Ballot, Cluster, Instance, MAX_VALUE, NodeId, Value, Vote};
use std::alloc::Global;
use std::process::Abort;
use wire::{MAX_MESSAGE, Message, WireFault, decode, encode};

/// One spelling of each kind, in a cluster of three.
const SPELLINGS: &[&str] = &[
    "010102000000010000000102",
    "02010100000005000000020103",
    "020103000f423f000000010302",
    "020103000f4201000000010340",
    "02010200000001000000010202",
    "01020200000001000000010300",
    "0102020000000100000001030100000001010000001400000001000000000000000572656c656173650a",
    "01030100000102000000010100000000",
    "0104030000000100000002010000000107",
    "0105030000000100000001010000000202",
    "01060300000002",
    "010602000f4240",
    "0107010000000200000000",
    "010701000f4240000000020809",
];

/// Bytes that are no message of a cluster of three, each for one reason.
const MALFORMED: &[&str] = &[
    // A span of none, of one, of sixty-five, and one past the last instance.
    "02010100000005000000020100",
    "02010100000005000000020101",
    "02010100000005000000020141",
    "020101000f423f000000020103",
    // A count in version 1, and other kinds in version 2, with a count and without.
    "01010100000005000000020103",
    "0202020000000100000001030002",
    "02020200000001000000010300",
    "0205030000000100000001010000000202",
    "02060300000002",
    "03010100000005000000020103",
    // Another version, another kind.
    "000102000000010000000102",
    "020102000000010000000102",
    "010002000000010000000102",
    "010802000000010000000102",
    // Senders, a ballot's node, a prior's node and a promise's node that are not among the three.
    "01060400000002",
    "010104000000010000000102",
    "010100000000010000000102",
    "010102000000010000000104",
    "010102000000010000000100",
    "01020200000001000000010301000000010400000000",
    "0105030000000100000001010000000204",
    // An instance before the first and one past the last.
    "010102000000000000000102",
    "010102000f42410000000102",
    // A round 0, in a ballot, a prior and a promise.
    "010102000000010000000002",
    "01020200000001000000010301000000000100000000",
    "0105030000000100000001010000000002",
    // A mark that is neither 0 nor 1.
    "01020200000001000000010302",
    // A prior after the mark of none.
    "01020200000001000000010300000000010100000000",
    // A length of more bytes than there are, and one of fewer.
    "0104030000000100000002010000000207",
    "0104030000000100000002010000000007",
    "0103010000000100000001018000000107",
    "010701000000020000000207",
];

fn decoded(rt: &impl Abort, alloc: Global, bytes: &[u8]) -> Result<Message, WireFault> {
    decode(alloc, bytes, cluster(rt, 3))
}

/// Why the bytes are no message, if they are not.
fn fault_of(rt: &impl Abort, alloc: Global, bytes: &[u8]) -> Option<WireFault> {
    match decoded(rt, alloc, bytes) {
        Ok(message) => {
            drop(message);
            None
        }
        Err(fault) => Some(fault),
    }
}

fn is_malformed(rt: &impl Abort, alloc: Global, bytes: &[u8]) -> bool {
    fault_of(rt, alloc, bytes) == Some(WireFault::Malformed)
}

fn bytes_of(rt: &impl Abort, alloc: Global, text: &str) -> Vec<u8> {
    hex::decode(alloc, text).expect(rt, "bytes")
}

/// Whether a message fits and was written.
pub(crate) fn is_written(message: &Message, out: &mut Vec<u8>) -> bool {
    message.fits() && encode(message, out).is_ok()
}

/// Whether a message is written as these bytes, after those that were there before.
fn is_spelled(rt: &impl Abort, alloc: Global, message: Message, bytes: &[u8]) -> bool {
    let mut out = b"before".to_vec(alloc).expect(rt, "memory");
    let is_written = is_written(&message, &mut out);
    drop(message);
    is_written && out.strip_prefix(b"before") == Some(bytes)
}

/// The message that these bytes spell, in hexadecimal, is written as they are.
fn is_written_again(rt: &impl Abort, alloc: Global, text: &str) {
    let bytes = bytes_of(rt, alloc, text);
    let message = decoded(rt, alloc, &bytes).expect(rt, text);
    ensure(rt, is_spelled(rt, alloc, message, &bytes), text);
}

#[test]
fn spellings_are_read_and_written_again(rt: HostRuntime) {
    for &text in SPELLINGS {
        is_written_again(&rt, rt.alloc(), text);
    }
}

fn beginnings(rt: &impl Abort, alloc: Global, bytes: &[u8], text: &str) {
    for end in 0..bytes.len() {
        ensure(rt, is_malformed(rt, alloc, &bytes[..end]), (end, text));
    }
}

fn one_byte_more(rt: &impl Abort, alloc: Global, bytes: &mut Vec<u8>, text: &str) {
    for more in 0..=255 {
        push(rt, bytes, more);
        ensure(rt, is_malformed(rt, alloc, bytes), (text, more));
        bytes.pop();
    }
}

fn cut_or_longer(rt: &impl Abort, alloc: Global, text: &str) {
    let mut bytes = bytes_of(rt, alloc, text);
    beginnings(rt, alloc, &bytes, text);
    one_byte_more(rt, alloc, &mut bytes, text);
}

#[test]
fn beginnings_and_one_byte_more(rt: HostRuntime) {
    for &text in SPELLINGS {
        cut_or_longer(&rt, rt.alloc(), text);
    }
}

/// The bytes that this text spells, and `more` further ones.
fn bytes_and(rt: &impl Abort, alloc: Global, text: &str, more: usize) -> Vec<u8> {
    let mut bytes = bytes_of(rt, alloc, text);
    let len = bytes.len().saturating_add(more);
    bytes.resize(len, 65).expect(rt, "memory");
    bytes
}

/// The bytes that this text spells, with `more` further ones after them, are malformed.
fn is_refused(rt: &impl Abort, alloc: Global, text: &str, more: usize) {
    let bytes = bytes_and(rt, alloc, text, more);
    ensure(rt, is_malformed(rt, alloc, &bytes), text);
}

#[test]
fn other_bytes_are_malformed(rt: HostRuntime) {
    for &text in MALFORMED {
        is_refused(&rt, rt.alloc(), text, 0);
    }
}

/// A prepare of one instance at this ballot.
fn is_prepare(message: &Message, own: Ballot) -> bool {
    matches!(message, Message::Prepare { ballot, count, .. } if *ballot == own && *count == 1)
}

fn check_prepare(rt: &impl Abort, message: Message) {
    same(rt, message.from(), node(rt, 2));
    same(rt, message.instance(), instance(rt, 1));
    ensure(rt, is_prepare(&message, ballot(rt, 1, 2)), 1);
    drop(message);
}

fn message_of(rt: &impl Abort, alloc: Global, text: &str) -> Message {
    let bytes = bytes_of(rt, alloc, text);
    decoded(rt, alloc, &bytes).expect(rt, text)
}

#[test]
fn a_prepare_by_its_fields(rt: HostRuntime) {
    let message = message_of(&rt, rt.alloc(), "010102000000010000000102");
    check_prepare(&rt, message);
}

/// Whether a message is as long as one can be, and is read again.
fn is_longest(rt: &impl Abort, alloc: Global, message: Message) -> bool {
    let mut out = Vec::new(alloc);
    let is_written = is_written(&message, &mut out);
    drop(message);
    is_written && out.len() == MAX_MESSAGE && fault_of(rt, alloc, &out).is_none()
}

fn longest(rt: &impl Abort, value: Value) -> Message {
    Message::Promise {
        from: node(rt, 1),
        instance: instance(rt, 1_000_000),
        ballot: ballot(rt, 4_294_967_295, 3),
        prior: Some(Vote {
            ballot: ballot(rt, 1, 1),
            value,
        }),
    }
}

fn longest_value(rt: &impl Abort, alloc: Global) -> Value {
    Value::from_bytes(bytes_and(rt, alloc, "", MAX_VALUE)).expect(rt, "a value")
}

#[test]
fn the_longest_value(rt: HostRuntime) {
    let alloc = rt.alloc();
    let message = longest(&rt, longest_value(&rt, alloc));
    ensure(&rt, is_longest(&rt, alloc, message), MAX_MESSAGE);
}

#[test]
fn a_value_one_byte_too_long(rt: HostRuntime) {
    let header = "01030100000001000000010100008001";
    is_refused(&rt, rt.alloc(), header, MAX_VALUE + 1);
}

/// A slot with this promise and a vote for the value `v`.
fn slot(rt: &impl Abort, alloc: Global, promised: Ballot, voted: Ballot) -> Slot {
    Slot {
        promised: Some(promised),
        vote: Some(vote(rt, alloc, voted, "v")),
    }
}

fn prepare(rt: &impl Abort, slot: &Slot, at: Ballot, verdict: PrepareVerdict) {
    same(rt, judge_prepare(slot, at), verdict);
}

fn propose(rt: &impl Abort, slot: &Slot, at: Ballot, text: &str, verdict: ProposeVerdict) {
    same(rt, judge_propose(slot, at, text.as_bytes()), verdict);
}

fn check_prepares(rt: &impl Abort, slot: &Slot) {
    let own = ballot(rt, 2, 1);
    prepare(rt, slot, ballot(rt, 2, 2), PrepareVerdict::Promise);
    prepare(rt, slot, own, PrepareVerdict::Again);
    prepare(rt, slot, ballot(rt, 1, 9), PrepareVerdict::Nack(own));
}

/// The verdicts of a slot that voted at the ballot that it promised.
fn check_voted(rt: &impl Abort, slot: &Slot) {
    let own = ballot(rt, 2, 1);
    prepare(rt, slot, own, PrepareVerdict::Silent);
    propose(rt, slot, own, "v", ProposeVerdict::Again);
    propose(rt, slot, own, "w", ProposeVerdict::Silent);
    propose(rt, slot, ballot(rt, 2, 3), "w", ProposeVerdict::Vote);
    propose(rt, slot, ballot(rt, 1, 9), "v", ProposeVerdict::Nack(own));
}

fn check_empty(rt: &impl Abort) {
    let empty = Slot {
        promised: None,
        vote: None,
    };
    let first = ballot(rt, 1, 1);
    prepare(rt, &empty, first, PrepareVerdict::Promise);
    propose(rt, &empty, first, "", ProposeVerdict::Vote);
    drop(empty);
}

#[test]
fn verdicts_of_an_acceptor(rt: HostRuntime) {
    let alloc = rt.alloc();
    let own = ballot(&rt, 2, 1);
    let lower = slot(&rt, alloc, own, ballot(&rt, 1, 3));
    check_prepares(&rt, &lower);
    drop(lower);
    let voted = slot(&rt, alloc, own, own);
    check_voted(&rt, &voted);
    drop(voted);
    check_empty(&rt);
}

/// The cluster has `size` nodes, numbered from 1 on, and that quorum.
fn has_nodes(rt: &impl Abort, size: u8, quorum: u8) {
    let cluster = cluster(rt, size);
    let is_right = cluster.size() == size
        && cluster.quorum() == quorum
        && cluster.node(0).is_none()
        && cluster.node(size).is_some()
        && cluster.node(10).is_none();
    ensure(rt, is_right, size);
}

/// There is no cluster, instance or ballot of that node beyond the bounds.
fn is_bounded(node: NodeId) -> bool {
    Cluster::new(0).is_none()
        && Cluster::new(10).is_none()
        && Instance::new(0).is_none()
        && Instance::new(1_000_001).is_none()
        && Ballot::new(0, node).is_none()
}

/// The ballot of that round and that node is below one of round 2.
fn is_below(rt: &impl Abort, round: u32, number: u8, above: u8) {
    let below = ballot(rt, round, number);
    ensure(rt, below < ballot(rt, 2, above), below);
}

/// How many nodes there are, and how many make a majority.
const QUORUMS: &[(u8, u8)] = &[
    (1, 1),
    (2, 2),
    (3, 2),
    (4, 3),
    (5, 3),
    (6, 4),
    (7, 4),
    (8, 5),
    (9, 5),
];

#[test]
fn clusters_and_their_majorities(rt: HostRuntime) {
    for &(size, quorum) in QUORUMS {
        has_nodes(&rt, size, quorum);
    }
    ensure(&rt, is_bounded(node(&rt, 1)), 0);
    is_below(&rt, 1, 9, 1);
    is_below(&rt, 2, 1, 2);
}

/// The vote is the one for `abc` at that ballot.
fn is_abc(rt: &impl Abort, vote: Vote, at: Ballot) {
    same(rt, vote.ballot, at);
    ensure(rt, is_text(&vote.value, "abc"), at);
    drop(vote);
}

#[test]
fn values_and_votes_are_copied(rt: HostRuntime) {
    let at = ballot(&rt, 3, 2);
    let vote = vote(&rt, rt.alloc(), at, "abc");
    let copy = vote.try_clone().expect(&rt, "memory");
    is_abc(&rt, vote, at);
    is_abc(&rt, copy, at);
}
