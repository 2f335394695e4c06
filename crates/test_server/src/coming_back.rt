//! A group whose servers were all down comes back, however bad the network.
use crate::catching_up::{MANY, message, votes};
use crate::comparing::ensure;
use crate::far::{Far, release};
use crate::group::{Group, turn};
use std::alloc::Global;
use std::process::Abort;

/// How many values all servers knew: ten stretches, and a part of one.
const KNOWN: u32 = 650;

/// A server votes once more for each value, at a ballot at which no other server votes.
fn votes_alone(rt: &impl Abort, group: &mut Group, number: u8) {
    let (alloc, now) = (group.alloc, group.now);
    let ballot = [0, 0, 0, number.saturating_add(1), 1];
    let server = group.server(rt, number);
    for instance in 1..=KNOWN {
        let proposal = message(rt, alloc, 3, 1, instance, &ballot);
        server
            .mail
            .take_in(proposal.as_slice(), now)
            .expect(rt, "memory");
    }
    ensure(rt, turn(server, now).is_ok(), number);
}

/// Five servers knew all values, and then were all down. On their records no two votes at an instance are at
/// one ballot, so no majority of votes shows what was decided. Some of the servers stay down.
fn were_down(rt: &impl Abort, alloc: Global, down: &'static [u8]) -> Far {
    let mut group = Group::new(rt, alloc, 5);
    for number in 1..=5 {
        votes(rt, &mut group, number, KNOWN, 5);
        votes_alone(rt, &mut group, number);
    }
    group.goes_on(rt, 250, &[]);
    group.crash(rt, 0);
    Far::new(group, 20, 1, MANY, down)
}

/// Which servers stay down, and after how many milliseconds at most each other one knows all.
type Row = (&'static [u8], u64);

const ROWS: &[Row] = &[
    (&[], 100),
    (&[4, 5], 100),
    // The only server that is up knows what it kept.
    (&[1, 2, 3, 5], 100),
];

fn check(rt: &impl Abort, alloc: Global, &(down, millis): &Row) {
    let mut far = were_down(rt, alloc, down);
    // Server 4 tries a value, if it is up.
    let value = release(rt, alloc, 4);
    far.submit(rt, 4, &value);
    for _ in 0..millis {
        far.goes_on(rt, 5);
    }
    for number in 1..=5 {
        if !down.contains(&number) {
            let known = far.group.server(rt, number).served.node.known();
            ensure(rt, known >= KNOWN, (number, known));
        }
    }
}

#[test]
fn what_servers_knew_is_not_decided_again(rt: HostRuntime) {
    for row in ROWS {
        check(&rt, rt.alloc(), row);
    }
}
