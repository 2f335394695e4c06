//! Servers far apart: each letter takes some milliseconds.
use crate::comparing::{ensure, same};
use crate::group::{Group, node_of, packed, turn};
use command::write;
use node::Submitted;
use site_ids::{Ticket, Value};
use std::alloc::Global;
use std::collections::VecDeque;
use std::process::Abort;

/// A piece on its way: when it comes, and to whom.
#[derive(Drop)]
struct Flight {
    at: u64,
    to: u8,
    piece: Vec<u8>,
}

/// A group, how long a letter takes, how many milliseconds lie between passes, and pieces on their way, in
/// the order in which they come.
#[derive(Drop)]
pub(crate) struct Far {
    pub group: Group,
    takes: u64,
    step: u64,
    flights: VecDeque<Flight>,
    // for each piece in turn whether it is lost; the first entry follows the last
    loses: &'static [bool],
    /// How many pieces were sent.
    pub sent: usize,
    // these nodes are away
    away: &'static [u8],
}

/// A release that an editor of that number submits.
pub(crate) fn release(rt: &impl Abort, alloc: Global, editor: u8) -> Value {
    let ticket = Ticket {
        editor: u32::from(editor),
        number: 1,
    };
    let bytes = write(alloc, ticket, b"release\n").expect(rt, "a command");
    Value::from_bytes(bytes).expect(rt, "a value")
}

impl Far {
    /// Letters take `takes` milliseconds, some are lost, and the nodes of `away` are away.
    pub(crate) fn new(
        group: Group,
        takes: u64,
        step: u64,
        loses: &'static [bool],
        away: &'static [u8],
    ) -> Far {
        Far {
            flights: VecDeque::new(group.alloc),
            group,
            takes,
            step,
            loses,
            sent: 0,
            away,
        }
    }

    /// Whether the next piece that sets out is lost.
    fn is_lost(&mut self) -> bool {
        let place = self.sent % self.loses.len().max(1);
        self.sent = self.sent.saturating_add(1);
        match self.loses.get(place) {
            Some(lost) => *lost,
            None => false,
        }
    }

    /// Submits a value to the server of that number.
    pub(crate) fn submit(&mut self, rt: &impl Abort, number: u8, value: &Value) {
        let done = self.group.server(rt, number).served.node.submit(value);
        same(rt, (number, done), (number, Ok(Submitted::Queued)));
    }

    /// Each piece that has come by now waits at its server.
    fn arrive(&mut self, rt: &impl Abort) {
        for _ in 0..self.flights.len() {
            let is_there = match self.flights.front() {
                Some(flight) => flight.at <= self.group.now,
                None => false,
            };
            if !is_there {
                return;
            }
            let flight = self.flights.pop_front().expect(rt, "a flight");
            let now = self.group.now;
            let mail = &mut self.group.server(rt, flight.to).mail;
            mail.take_in(flight.piece.as_slice(), now)
                .expect(rt, "memory");
        }
    }

    /// Sends what the letters of one server have for another one.
    fn set_out(&mut self, rt: &impl Abort, from: u8, to: u8, size: u8) {
        let now = self.group.now;
        let at = now.saturating_add(self.takes);
        let node = node_of(rt, size, to);
        let alloc = self.group.alloc;
        let pieces = packed(rt, alloc, &mut self.group.server(rt, from).mail, node, now);
        for piece in pieces {
            if !self.is_lost() {
                let flight = Flight { at, to, piece };
                self.flights.push_back(flight).expect(rt, "memory");
            }
        }
    }

    /// A pass of one server.
    fn pass(&mut self, rt: &impl Abort, number: u8, size: u8) {
        let now = self.group.now;
        ensure(rt, turn(self.group.server(rt, number), now).is_ok(), number);
        for to in 1..=size {
            if to != number && !self.away.contains(&to) {
                self.set_out(rt, number, to, size);
            }
        }
    }

    /// A pass of each of the `size` servers, except for those that are away.
    pub(crate) fn goes_on(&mut self, rt: &impl Abort, size: u8) {
        self.group.now = self.group.now.saturating_add(self.step);
        self.arrive(rt);
        for number in 1..=size {
            if !self.away.contains(&number) {
                self.pass(rt, number, size);
            }
        }
    }

    /// The fewest releases that a server shows.
    fn fewest(&mut self, rt: &impl Abort, size: u8) -> u64 {
        let mut fewest = u64::MAX;
        for number in 1..=size {
            fewest = fewest.min(self.group.server(rt, number).served.node.newest());
        }
        fewest
    }

    /// After how many milliseconds each of `size` servers shows `releases` releases; more than `bound` if
    /// some server does not show them by then.
    pub(crate) fn shows(&mut self, rt: &impl Abort, size: u8, releases: u64, bound: u64) -> u64 {
        let since = self.group.now;
        for _ in 0..=bound / self.step.max(1) {
            if self.fewest(rt, size) == releases {
                break;
            }
            self.goes_on(rt, size);
        }
        self.group.now.saturating_sub(since)
    }
}

/// How many servers there are, how many milliseconds a letter takes, which servers get a value, how many
/// milliseconds apart; and how many milliseconds at most after the last value each shows them all.
type Row = (u8, u64, &'static [u8], u64, u64);

const ROWS: &[Row] = &[
    (2, 10, &[1], 0, 60),
    (3, 10, &[1, 2, 3], 0, 150),
    (3, 160, &[1], 0, 1_500),
    (3, 160, &[2], 0, 2_000),
    (3, 160, &[1, 2], 80, 5_000),
    (3, 160, &[2, 1], 0, 5_000),
    (2, 160, &[1, 2], 80, 5_000),
    (5, 125, &[1, 2, 3, 4, 5], 0, 5_000),
    (9, 160, &[1, 9], 333, 5_000),
    (3, 160, &[2, 1], 6_000, 2_000),
    (3, 400, &[1], 0, 5_000),
    (3, 400, &[2], 0, 5_000),
    (3, 400, &[3], 0, 5_000),
    (3, 400, &[2, 3], 6_000, 5_000),
    (2, 400, &[1, 2], 80, 15_000),
    (3, 400, &[1, 2], 80, 15_000),
    (9, 400, &[1, 5, 9], 0, 15_000),
    (2, 800, &[1], 0, 10_000),
    (3, 800, &[3, 1], 37, 15_000),
];

fn check(rt: &impl Abort, alloc: Global, &(size, takes, at, apart, bound): &Row) {
    let step = (takes / 40).max(1);
    let mut far = Far::new(Group::new(rt, alloc, size), takes, step, &[], &[]);
    for (&number, place) in at.iter().zip(0_u64..) {
        let waits = if place == 0 { 0 } else { apart / step };
        for _ in 0..waits {
            far.goes_on(rt, size);
        }
        let value = release(rt, alloc, number);
        far.submit(rt, number, &value);
    }
    let millis = far.shows(rt, size, at.len() as u64, bound);
    ensure(rt, millis <= bound, (size, takes, millis));
}

#[test]
fn servers_far_apart_show_all_in_time(rt: HostRuntime) {
    for row in ROWS {
        check(&rt, rt.alloc(), row);
    }
}
