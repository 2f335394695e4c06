//! A majority that is up shows everything without a new post, whoever was away before all lost power.
use crate::comparing::same;
use crate::group::{Group, turn};
use command::write;
use node::Submitted;
use site_ids::{Ticket, Value};
use std::alloc::Global;
use std::process::Abort;

/// How many values are published while a server is away.
const PUBLISHED: u32 = 20;

/// A release, under that ticket of editor 1.
fn release(rt: &impl Abort, alloc: Global, number: u32) -> Value {
    let ticket = Ticket {
        editor: 1,
        number: u64::from(number),
    };
    let bytes = write(alloc, ticket, b"release\n").expect(rt, "a command");
    Value::from_bytes(bytes).expect(rt, "a value")
}

/// Each server knows `known` values and shows as many releases, except for those that are away.
fn all_stand(rt: &impl Abort, group: &mut Group, size: u8, away: &[u8], known: u32) {
    for number in 1..=size {
        if !away.contains(&number) {
            group.stands(rt, number, known, u64::from(known));
        }
    }
}

/// A group of `size` servers. One is away while values are published, and then learns them from the others.
/// Then all lose power.
fn cut_behind(rt: &impl Abort, alloc: Global, size: u8, away: u8) -> Group {
    let mut group = Group::new(rt, alloc, size);
    let at = if away == 1 { 2 } else { 1 };
    for number in 1..=PUBLISHED {
        let value = release(rt, alloc, number);
        let done = group.server(rt, at).served.node.submit(&value);
        same(rt, (number, done), (number, Ok(Submitted::Queued)));
    }
    group.goes_on(rt, 300, &[away]);
    all_stand(rt, &mut group, size, &[away], PUBLISHED);
    group.stands(rt, away, 0, 0);
    group.goes_on(rt, 1_000, &[]);
    all_stand(rt, &mut group, size, &[], PUBLISHED);
    group.crash(rt, 0);
    group
}

/// Each server is away in turn before the power cut. The servers of `down` are away after it.
fn each_shows_all(rt: &impl Abort, alloc: Global, size: u8, down: &[u8]) {
    for away in 1..=size {
        let mut group = cut_behind(rt, alloc, size, away);
        group.goes_on(rt, 1_000, down);
        all_stand(rt, &mut group, size, down, PUBLISHED);
    }
}

#[test]
fn two_of_three_show_what_one_of_them_learned(rt: HostRuntime) {
    for down in 1..=3 {
        each_shows_all(&rt, rt.alloc(), 3, &[down]);
    }
}

#[test]
fn three_of_five_show_what_one_of_them_learned(rt: HostRuntime) {
    for down in 1..=5 {
        each_shows_all(&rt, rt.alloc(), 5, &[down, down % 5 + 1]);
    }
}

/// A proposal of a value at an instance, at the ballot of that round and node.
fn proposal(
    rt: &impl Abort,
    alloc: Global,
    instance: u32,
    round: u32,
    node: u8,
    value: &Value,
) -> Vec<u8> {
    let mut bytes = Vec::from_slice(alloc, &[1, 3, node]).expect(rt, "memory");
    let long = u32::try_from(value.as_bytes().len()).expect(rt, "a length");
    bytes
        .extend_from_slice(&instance.to_be_bytes())
        .expect(rt, "memory");
    bytes
        .extend_from_slice(&round.to_be_bytes())
        .expect(rt, "memory");
    bytes.push(node).expect(rt, "memory");
    bytes
        .extend_from_slice(&long.to_be_bytes())
        .expect(rt, "memory");
    bytes
        .extend_from_slice(value.as_bytes())
        .expect(rt, "memory");
    bytes
}

/// A server votes for a value at an instance, at the ballot of that round and node; nobody hears of it.
fn votes(rt: &impl Abort, group: &mut Group, at: u8, instance: u32, round: u32, node: u8) {
    let alloc = group.alloc;
    let value = release(rt, alloc, instance);
    let bytes = proposal(rt, alloc, instance, round, node, &value);
    let now = group.now;
    let server = group.server(rt, at);
    server
        .mail
        .take_in(bytes.as_slice(), now)
        .expect(rt, "memory");
    same(rt, (instance, turn(server, now)), (instance, Ok(())));
}

#[test]
fn votes_for_one_value_at_two_ballots_are_decided_again(rt: HostRuntime) {
    let mut group = Group::new(&rt, rt.alloc(), 3);
    for instance in 1..=40 {
        votes(&rt, &mut group, 2, instance, 1, 1);
        votes(&rt, &mut group, 3, instance, 2, 2);
    }
    group.crash(&rt, 0);
    group.goes_on(&rt, 1_000, &[1]);
    all_stand(&rt, &mut group, 3, &[1], 40);
}

/// The time of 2,000 instances at 150 a second, and a second before the first.
const MILLIS: u64 = 14_333;

#[test]
fn two_thousand_instances_with_one_vote_each_are_decided_again(rt: HostRuntime) {
    let mut group = Group::new(&rt, rt.alloc(), 3);
    for instance in 1..=2_000 {
        votes(
            &rt,
            &mut group,
            if instance % 3 == 0 { 2 } else { 3 },
            instance,
            1,
            1,
        );
    }
    group.crash(&rt, 0);
    group.goes_on(&rt, MILLIS, &[1]);
    all_stand(&rt, &mut group, 3, &[1], 2_000);
}
