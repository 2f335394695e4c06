//! Clients that have their last response: how long each is read, and which one makes room for another.
use crate::comparing::{ensure, same};
use crate::group::Group;
use server::{Linger, Partings};
use server_pace::Times;
use std::alloc::Global;
use std::io::{self, ErrorKind, Read};
use std::process::Abort;

/// For how long a connection lingers, how many bytes were dropped, and whether it is closed.
const LINGERS: &[(u64, u64, bool)] = &[
    (0, 0, false),
    (1_999, 67_108_863, false),
    (2_000, 0, true),
    (0, 67_108_864, true),
    (u64::MAX, u64::MAX, true),
];

#[test]
fn a_connection_lingers_for_so_long_and_so_many_bytes(rt: HostRuntime) {
    for &(since, dropped, over) in LINGERS {
        let is_over = Linger { since, dropped }.is_over(Times::new(None, None));
        same(&rt, (since, dropped, is_over), (since, dropped, over));
    }
}

/// What a client does after it has sent all.
#[derive(Clone, Copy, Drop)]
enum Then {
    Waits,
    Closes,
    Fails,
}

/// A client that sends `left` bytes more.
#[derive(Drop)]
struct Sender {
    number: u64,
    left: u64,
    then: Then,
}

impl Read for Sender {
    fn read(&mut self, buf: &mut [u8]) -> io::Result<usize> {
        let room = buf.len() as u64;
        let n = self.left.min(room);
        if n > 0 {
            self.left -= n;
            return Ok(n as usize);
        }
        match self.then {
            Then::Waits => Err(io::Error::from(ErrorKind::WouldBlock)),
            Then::Closes => Ok(0),
            Then::Fails => Err(io::Error::from(ErrorKind::ConnectionReset)),
        }
    }
}

fn nobody(rt: &impl Abort, alloc: Global) -> Partings<Sender> {
    Partings::new(alloc, Times::new(None, None)).expect(rt, "memory")
}

/// The number of the client that goes, if one does.
fn number_of(gone: Option<Sender>) -> Option<u64> {
    let sender = gone?;
    let number = sender.number;
    drop(sender);
    Some(number)
}

/// A moment at which all are read; whether bytes came; and how many stay.
type Look = (u64, bool, usize);

/// A client sends 100,000 bytes, of which a step takes 65,536, and then it waits, closes late, or fails.
const ROWS: &[(Then, &[Look])] = &[
    (
        Then::Waits,
        &[
            (0, true, 1),
            (1, true, 1),
            (2, false, 1),
            (1_999, false, 1),
            (2_000, false, 0),
        ],
    ),
    (Then::Closes, &[(1_500, true, 1), (1_900, true, 0)]),
    (Then::Fails, &[(1_500, true, 1), (1_501, true, 0)]),
];

#[test]
fn a_client_is_read_until_it_closes_or_its_time_has_passed(rt: HostRuntime) {
    for &(then, looks) in ROWS {
        let mut all = nobody(&rt, rt.alloc());
        let sender = Sender {
            number: 1,
            left: 100_000,
            then,
        };
        same(&rt, number_of(all.take_in(sender, 0)), None);
        for &(now, came, stay) in looks {
            same(&rt, (now, all.read_each(now), all.len()), (now, came, stay));
        }
        drop(all);
    }
}

#[test]
fn a_client_that_sends_without_end_is_closed(rt: HostRuntime) {
    let mut all = nobody(&rt, rt.alloc());
    let sender = Sender {
        number: 1,
        left: u64::MAX,
        then: Then::Closes,
    };
    same(&rt, number_of(all.take_in(sender, 0)), None);
    for k in 1..1_024 {
        same(&rt, (k, all.read_each(0), all.len()), (k, true, 1));
    }
    same(&rt, (all.read_each(0), all.len()), (true, 0));
    drop(all);
}

/// Sixty-four clients that send nothing, one in each millisecond.
fn full(rt: &impl Abort, alloc: Global) -> Partings<Sender> {
    let mut all = nobody(rt, alloc);
    for number in 0..64 {
        let sender = Sender {
            number,
            left: 0,
            then: Then::Waits,
        };
        same(
            rt,
            (number, number_of(all.take_in(sender, number))),
            (number, None),
        );
    }
    all
}

#[test]
fn the_oldest_goes_for_the_next_one(rt: HostRuntime) {
    let mut all = full(&rt, rt.alloc());
    for number in 64..66 {
        let sender = Sender {
            number,
            left: 0,
            then: Then::Waits,
        };
        let gone = number_of(all.take_in(sender, number));
        same(
            &rt,
            (number, gone, all.len()),
            (number, Some(number - 64), 64),
        );
    }
    // Those that came at 2 and 3 leave in their time, and make room.
    same(&rt, (all.read_each(2_003), all.len()), (false, 62));
    drop(all);
}

/// A post of more than a server takes, of which the client has sent a part.
const POST: &[u8] = b"POST /_submit/1/1 HTTP/1.1\r\nHost: a\r\nContent-Length: 20000000\r\n\r\n";

#[test]
fn a_client_that_sends_on_has_its_response_and_stays(rt: HostRuntime) {
    let alloc = rt.alloc();
    let mut group = Group::new(&rt, alloc, 1);
    let mut sends = Vec::from_slice(alloc, POST).expect(&rt, "memory");
    sends.resize(40_000, b'x').expect(&rt, "memory");
    group.comes(&rt, 1, sends.as_slice(), usize::MAX);
    group.goes_on(&rt, 3, &[]);
    let client = group.leaves(&rt, 1).expect(&rt, "a client");
    ensure(
        &rt,
        client.got_from_to(b"HTTP/1.1 413 ", b"too large\n"),
        413,
    );
    let mut all = Partings::new(alloc, Times::new(None, None)).expect(&rt, "memory");
    ensure(&rt, all.take_in(client, 3).is_none(), 3);
    same(&rt, (all.read_each(4), all.len()), (true, 1));
    same(&rt, (all.read_each(2_002), all.len()), (false, 1));
    same(&rt, (all.read_each(2_003), all.len()), (false, 0));
    drop(all);
    drop(group);
}
