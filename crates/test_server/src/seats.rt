//! Seats: who makes room for the 65th client, and how long a connection stays.
use crate::client::Client;
use crate::comparing::{ensure, same};
use crate::group::{Group, is_seated};
use server::{Seats, Stay};
use server_pace::Times;
use std::alloc::Global;
use std::process::Abort;

const GET: &[u8] = b"GET /_newest HTTP/1.1\r\nHost: a\r\n\r\n";

/// How many milliseconds ago bytes moved, and how many ago the request began, if one did; whether a
/// connection is closed then, without a limit for a request and with one of two seconds.
const STAYS: &[(u64, Option<u64>, bool, bool)] = &[
    (0, None, false, false),
    (4_999, None, false, false),
    (5_000, None, true, true),
    (999, Some(999), false, false),
    (1_000, Some(1_000), true, true),
    (999, Some(1_999), false, false),
    (999, Some(2_000), false, true),
    (999, Some(60_000), false, true),
];

#[test]
fn a_connection_stays_as_long_as_it_moves_and_its_request_may_take(rt: HostRuntime) {
    for &(still, busy, alone, limited) in STAYS {
        let stay = Stay { still, busy };
        let is_alone = stay.is_too_long(Times::new(None, None));
        let is_limited = stay.is_too_long(Times::new(None, Some(2_000)));
        same(
            &rt,
            (still, busy, is_alone, is_limited),
            (still, busy, alone, limited),
        );
    }
}

fn comes(
    rt: &impl Abort,
    alloc: Global,
    seats: &mut Seats<Client>,
    sends: &[u8],
    now: u64,
) -> bool {
    let client = Client::new(alloc, sends, usize::MAX).expect(rt, "memory");
    is_seated(rt, seats, client, now)
}

/// Whether nothing was heard of the client that goes, if one does.
fn was_silent(gone: Option<Client>) -> Option<bool> {
    let client = gone?;
    let was = client.is_unheard();
    drop(client);
    Some(was)
}

/// Sixty-four clients: each comes a millisecond after the one before it. The first `asking` send a request.
fn full(rt: &impl Abort, alloc: Global, asking: u64) -> Seats<Client> {
    let mut seats = Seats::new(alloc, Times::new(None, None));
    for k in 0..64 {
        let stay = seats.has_room(k) && was_silent(seats.make_room(k)).is_none();
        let sends: &[u8] = if k < asking { GET } else { b"" };
        ensure(rt, stay && comes(rt, alloc, &mut seats, sends, k), k);
    }
    same(rt, seats.len(), 64);
    seats
}

#[test]
fn the_client_that_was_silent_longest_goes_for_another_one(rt: HostRuntime) {
    let mut seats = full(&rt, rt.alloc(), 2);
    same(&rt, comes(&rt, rt.alloc(), &mut seats, GET, 64), false);
    // The first two send now, so the third was silent longest; it has sent nothing.
    same(&rt, seats.read_each(100), Ok(true));
    same(&rt, was_silent(seats.make_room(100)), Some(true));
    same(&rt, seats.len(), 63);
    same(&rt, comes(&rt, rt.alloc(), &mut seats, GET, 101), true);
    drop(seats);
}

#[test]
fn clients_of_the_last_moment_go_too(rt: HostRuntime) {
    let mut seats = Seats::new(rt.alloc(), Times::new(None, None));
    for k in 0..64 {
        ensure(&rt, comes(&rt, rt.alloc(), &mut seats, b"", u64::MAX), k);
    }
    ensure(&rt, seats.has_room(u64::MAX), 64);
    same(&rt, was_silent(seats.make_room(u64::MAX)), Some(true));
    same(&rt, seats.len(), 63);
    drop(seats);
}

#[test]
fn who_reads_slowly_goes_for_another_one(rt: HostRuntime) {
    let mut group = Group::new(&rt, rt.alloc(), 1);
    for _ in 0..64 {
        group.comes(&rt, 1, GET, 1);
    }
    // Each sends a byte in a millisecond, and reads one.
    group.goes_on(&rt, 60, &[]);
    let seats = &mut group.server(&rt, 1).seats;
    ensure(&rt, !seats.has_room(2_000), 2_000);
    same(&rt, was_silent(seats.make_room(2_000)), None);
    ensure(&rt, seats.has_room(2_001), 2_001);
    same(&rt, was_silent(seats.make_room(2_001)), Some(false));
    same(&rt, seats.len(), 63);
}

/// When clients leave, and whether the one that does was silent. The first one's request is unanswered for a
/// second; the second one came at 1 and sent nothing in five seconds.
const LEAVES: &[(u64, Option<bool>)] = &[
    (1_063, None),
    (1_064, Some(false)),
    (5_000, None),
    (5_001, Some(true)),
    (5_001, None),
];

#[test]
fn connections_leave_in_their_time(rt: HostRuntime) {
    let mut seats = full(&rt, rt.alloc(), 1);
    same(&rt, seats.read_each(64), Ok(true));
    for &(now, leaves) in LEAVES {
        same(&rt, (now, was_silent(seats.leave(now))), (now, leaves));
    }
    drop(seats);
}
