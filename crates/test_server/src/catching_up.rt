//! A server that is behind catches up, however bad the network.
use crate::comparing::{ensure, same};
use crate::far::{Far, release};
use crate::group::{Group, turn};
use std::alloc::Global;
use std::process::Abort;

/// How many values the others know.
const KNOWN: u32 = 640;

/// One piece of eleven is lost, and in `MANY` five of 23. No telling has that order.
const FEW: &[bool] = &[
    false, false, false, true, false, false, false, false, false, false, false,
];

pub(crate) const MANY: &[bool] = &[
    false, true, false, false, false, false, false, true, true, false, false, false, false, false,
    false, true, false, false, false, false, false, true, false,
];

/// A message of that kind from a server, about an instance whose value has 100 bytes. `ballot` is empty if
/// the message has none.
pub(crate) fn message(
    rt: &impl Abort,
    alloc: Global,
    kind: u8,
    from: u8,
    instance: u32,
    ballot: &[u8],
) -> Vec<u8> {
    let mut bytes = Vec::from_slice(alloc, &[1, kind, from]).expect(rt, "memory");
    bytes
        .extend_from_slice(&instance.to_be_bytes())
        .expect(rt, "memory");
    bytes.extend_from_slice(ballot).expect(rt, "memory");
    bytes
        .extend_from_slice(&100_u32.to_be_bytes())
        .expect(rt, "memory");
    let whole = bytes.len().saturating_add(100);
    bytes.resize(whole, 7).expect(rt, "memory");
    bytes
}

/// A server tells the value of an instance.
fn told(rt: &impl Abort, alloc: Global, from: u8, instance: u32) -> Vec<u8> {
    message(rt, alloc, 7, from, instance, &[])
}

/// Node 1 tells a server the first `count` values.
fn learns(rt: &impl Abort, group: &mut Group, number: u8, count: u32) {
    let (alloc, now) = (group.alloc, group.now);
    let server = group.server(rt, number);
    for instance in 1..=count {
        let bytes = told(rt, alloc, 1, instance);
        server
            .mail
            .take_in(bytes.as_slice(), now)
            .expect(rt, "memory");
    }
    ensure(rt, turn(server, now).is_ok(), number);
    same(rt, (number, server.served.node.known()), (number, count));
}

/// A group of `size` servers over a bad network. The last server knows nothing.
fn behind(
    rt: &impl Abort,
    alloc: Global,
    size: u8,
    takes: u64,
    loses: &'static [bool],
    away: &'static [u8],
) -> Far {
    let mut group = Group::new(rt, alloc, size);
    for number in 1..size {
        learns(rt, &mut group, number, KNOWN);
    }
    Far::new(group, takes, 1, loses, away)
}

/// After how many milliseconds the last of `size` servers knows all values; more than `bound` if it does not
/// know them by then.
fn catches_up(rt: &impl Abort, far: &mut Far, size: u8, bound: u64) -> u64 {
    let since = far.group.now;
    for _ in 0..=bound {
        if far.group.server(rt, size).served.node.known() >= KNOWN {
            break;
        }
        far.goes_on(rt, size);
    }
    far.group.now.saturating_sub(since)
}

/// How many servers there are, how many milliseconds a letter takes, which pieces are lost, which servers are
/// away; and after how many milliseconds at most the last one knows all.
type Row = (u8, u64, &'static [bool], &'static [u8], u64);

const ROWS: &[Row] = &[
    (3, 1, &[], &[], 30),
    (3, 20, &[], &[], 200),
    (3, 100, &[], &[], 700),
    (5, 100, &[], &[], 700),
    (3, 20, FEW, &[], 220),
    (3, 20, MANY, &[], 360),
    (5, 20, MANY, &[], 320),
    (3, 100, MANY, &[], 1_500),
    // A server that is away never answers, whether it is its turn or not.
    (3, 20, &[], &[1], 380),
    (3, 20, MANY, &[2], 420),
    (5, 20, &[], &[1, 2], 380),
];

#[test]
fn a_server_catches_up_in_time(rt: HostRuntime) {
    for &(size, takes, loses, away, bound) in ROWS {
        let mut far = behind(&rt, rt.alloc(), size, takes, loses, away);
        let millis = catches_up(&rt, &mut far, size, bound);
        ensure(&rt, millis <= bound, (size, takes, away, millis));
    }
}

/// Node 1's first ballot.
const FIRST: &[u8] = &[0, 0, 0, 1, 1];

/// A server votes for the first `count` values, and hears that a majority of `size` servers did.
pub(crate) fn votes(rt: &impl Abort, group: &mut Group, number: u8, count: u32, size: u8) {
    let (alloc, now) = (group.alloc, group.now);
    let server = group.server(rt, number);
    for instance in 1..=count {
        let proposal = message(rt, alloc, 3, 1, instance, FIRST);
        server
            .mail
            .take_in(proposal.as_slice(), now)
            .expect(rt, "memory");
        for from in 1..=size / 2 + 1 {
            let vote = message(rt, alloc, 4, from, instance, FIRST);
            server
                .mail
                .take_in(vote.as_slice(), now)
                .expect(rt, "memory");
        }
    }
    ensure(rt, turn(server, now).is_ok(), number);
    same(rt, (number, server.served.node.known()), (number, count));
}

/// How many servers there are, how many milliseconds a letter takes, how many lie between passes, how many
/// values all except the last one know; and after how many milliseconds at most each shows the release that
/// was submitted to the last one.
type Pending = (u8, u64, u64, u32, u64);

const PENDING: &[Pending] = &[
    (3, 10, 1, 640, 1_500),
    (3, 10, 1, 3_000, 3_000),
    (9, 50, 50, 3_000, 15_000),
];

fn decides(rt: &impl Abort, alloc: Global, &(size, takes, step, known, bound): &Pending) {
    let mut group = Group::new(rt, alloc, size);
    for number in 1..size {
        votes(rt, &mut group, number, known, size);
    }
    let mut far = Far::new(group, takes, step, &[], &[]);
    let value = release(rt, alloc, size);
    far.submit(rt, size, &value);
    let millis = far.shows(rt, size, 1, bound);
    ensure(rt, millis <= bound, (size, takes, known, millis));
}

#[test]
fn a_value_of_its_own_keeps_nobody_back(rt: HostRuntime) {
    for row in PENDING {
        decides(&rt, rt.alloc(), row);
    }
}

/// Server `number` gets a question for the first instance, in the name of server `from`.
fn asks(rt: &impl Abort, far: &mut Far, from: u8, number: u8) {
    let now = far.group.now;
    let mail = &mut far.group.server(rt, number).mail;
    mail.take_in(&[1, 6, from, 0, 0, 0, 1], now)
        .expect(rt, "memory");
}

#[test]
fn no_more_sets_out_than_the_line_takes(rt: HostRuntime) {
    // Server 2 hears nothing, and asks in each millisecond of a second: it is told two stretches in 40 ms,
    // and the first value at each question.
    let mut far = behind(&rt, rt.alloc(), 2, 5, &[true], &[]);
    for _ in 0..1_000 {
        asks(&rt, &mut far, 2, 1);
        far.goes_on(&rt, 2);
    }
    ensure(&rt, far.sent > 3_000, far.sent);
    ensure(&rt, far.sent < 4_500, far.sent);
}

#[test]
fn forged_tellings_and_questions_raise_no_flood(rt: HostRuntime) {
    let mut far = behind(&rt, rt.alloc(), 3, 5, &[], &[]);
    let _ = catches_up(&rt, &mut far, 3, 1_000);
    let before = far.sent;
    for millis in 0..500 {
        // Somebody tells server 3 the value of a far instance, and asks server 1 for the first one in the
        // name of server 3.
        let forged = told(&rt, rt.alloc(), 2, 900_000 + millis);
        let now = far.group.now;
        let mail = &mut far.group.server(&rt, 3).mail;
        mail.take_in(forged.as_slice(), now).expect(&rt, "memory");
        asks(&rt, &mut far, 3, 1);
        far.goes_on(&rt, 3);
    }
    ensure(&rt, far.sent.saturating_sub(before) < 800, far.sent);
    far.group.stands(&rt, 3, KNOWN, 0);
}
