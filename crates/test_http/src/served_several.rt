//! Several requests on a connection: responses one after another, when the connection is closed, and what is
//! written before a fault.
use crate::comparing::same;
use crate::desk::{Desk, open_desk, took};
use crate::each_end::{answers_in_pieces, ends_early, fails_to_read, fails_to_write};
use crate::ends::{Outcome, sends};
use crate::responses::{BAD, LAST_PAGE, PAGE};
use crate::texts::{joined, times};
use http_read::{Counted, Inbox};
use http_serve::{Next, ServeFault, exchange};
use std::alloc::Global;
use std::process::Abort;
use test_ends::Sink;

pub(crate) const GET: &str = "GET /h HTTP/1.1\r\nHost: a\r\n\r\n";

/// A request, and a last request.
pub(crate) const BOTH: &[u8] =
    b"GET /h HTTP/1.1\r\nHost: a\r\n\r\nGET /old HTTP/1.1\r\nHost: a\r\nConnection: close\r\n\r\n";

/// The page, and a page that moved.
pub(crate) const BOTH_PAGES: &[u8] =
    b"HTTP/1.1 200 OK\r\nContent-Type: text/html; charset=utf-8\r\nContent-Length: 3\r\n\r\nHi\nHTTP/1.1 301 Moved Permanently\r\nContent-Type: text/plain; charset=utf-8\r\nLocation: /h\r\nContent-Length: 12\r\nConnection: close\r\n\r\nmoved to /h\n";

/// Two submissions, each with a ticket of its own.
const TWO_SUBMISSIONS: &[u8] =
    b"POST /_submit/1/5 HTTP/1.1\r\nHost: a\r\nContent-Length: 8\r\n\r\nrelease\nPOST /_submit/1/6 HTTP/1.1\r\nHost: a\r\nContent-Length: 8\r\n\r\nrelease\n";

const BOTH_QUEUED: &[u8] =
    b"HTTP/1.1 202 Accepted\r\nContent-Type: text/plain; charset=utf-8\r\nContent-Length: 7\r\n\r\nqueued\nHTTP/1.1 202 Accepted\r\nContent-Type: text/plain; charset=utf-8\r\nContent-Length: 7\r\n\r\nqueued\n";

/// What a client sends, what is written, and how the connection ends. A request after a closing one is not
/// answered.
const ENDS: &[(&str, &str, Outcome)] = &[
    ("", "", Err(ServeFault::EndedEarly)),
    ("\r\n", "", Err(ServeFault::EndedEarly)),
    (
        "GET /h HTTP/1.1\r\nHost: a\r\n\r\n\r\n\r\n",
        PAGE,
        Err(ServeFault::EndedEarly),
    ),
    (
        "GET /h HTTP/1.1\r\nHost: a\r\nConnection: x, CLOSE\r\n\r\nGET /h HTTP/1.1\r\nHost: a\r\n\r\n",
        LAST_PAGE,
        Ok(()),
    ),
    (
        "GET /h HTTP/1.0\r\nConnection: keep-alive\r\n\r\nGET /h HTTP/1.1\r\nHost: a\r\n\r\n",
        LAST_PAGE,
        Ok(()),
    ),
    (
        "GET /h HTTP/1.1\r\n\r\nGET /h HTTP/1.1\r\nHost: a\r\n\r\n",
        BAD,
        Ok(()),
    ),
    // A submission after a refused request, and a refused submission, are not accepted.
    (
        "GET /h HTTP/1.1\r\n\r\nPOST /_submit/1/5 HTTP/1.1\r\nHost: a\r\nContent-Length: 8\r\n\r\nrelease\n",
        BAD,
        Ok(()),
    ),
    (
        "POST /_submit/1/5 HTTP/1.1\r\nContent-Length: 8\r\n\r\nrelease\n",
        BAD,
        Ok(()),
    ),
];

/// Checks each end after a byte: each whole request is answered.
fn check_short(rt: &impl Abort, desk: &mut Desk<'_>) {
    let (one, page) = (GET.as_bytes(), PAGE.as_bytes());
    ends_early(rt, desk, one, 0, b"");
    sends(rt, desk, one, Ok(()), page, one.len());
    ends_early(rt, desk, BOTH, one.len() + 1, page);
}

/// Checks readers and writers that fail. The readers fail at each byte of the second request.
fn check_broken(rt: &impl Abort, desk: &mut Desk<'_>) {
    fails_to_read(rt, desk, BOTH, GET.len(), PAGE.as_bytes());
    fails_to_write(rt, desk, BOTH, BOTH_PAGES);
}

#[test]
fn a_page_and_one_that_moved(rt: HostRuntime) {
    let mut desk = open_desk(rt.alloc(), 1);
    answers_in_pieces(&rt, &mut desk, BOTH, BOTH_PAGES);
    check_short(&rt, &mut desk);
    check_broken(&rt, &mut desk);
    drop(desk);
}

fn check_ends(rt: &impl Abort, desk: &mut Desk<'_>) {
    for &(sent, written, result) in ENDS {
        let (bytes, pages) = (sent.as_bytes(), written.as_bytes());
        sends(rt, desk, bytes, result, pages, sent.len());
    }
}

#[test]
fn where_it_ends(rt: HostRuntime) {
    let mut desk = open_desk(rt.alloc(), 1);
    check_ends(&rt, &mut desk);
    took(&rt, &desk, 0);
    drop(desk);
}

/// What is written for this many requests: the hundredth response is the last.
pub(crate) fn pages(rt: &impl Abort, alloc: Global, count: usize) -> String {
    let pages = times(rt, alloc, PAGE, count.min(99));
    let last = if count < 100 { "" } else { LAST_PAGE };
    joined(rt, alloc, pages.as_str(), last, "")
}

/// How many requests are sent, and how many of them are answered.
pub(crate) const COUNTS: &[(usize, u32)] = &[(1, 1), (99, 99), (100, 100), (101, 100), (250, 100)];

/// Checks this many requests, and what is written for the first hundred of them.
fn check_many(rt: &impl Abort, desk: &mut Desk<'_>, count: usize) {
    let sent = times(rt, desk.alloc, GET, count);
    let pages = pages(rt, desk.alloc, count);
    sends(rt, desk, sent.as_bytes(), Ok(()), pages.as_bytes(), count);
}

#[test]
fn a_hundred_requests_and_one_more(rt: HostRuntime) {
    let mut desk = open_desk(rt.alloc(), 1);
    for &(count, _) in COUNTS {
        check_many(&rt, &mut desk, count);
    }
    drop(desk);
}

#[test]
fn two_submissions(rt: HostRuntime) {
    let mut desk = open_desk(rt.alloc(), 1);
    sends(&rt, &mut desk, TWO_SUBMISSIONS, Ok(()), BOTH_QUEUED, 2);
    took(&rt, &desk, 2);
    drop(desk);
}

/// A client whose requests are served one at a time.
#[derive(Drop)]
struct Client<'a> {
    reader: Counted<&'a [u8]>,
    writer: Counted<Sink>,
    inbox: Inbox,
}

/// A client that sends these bytes, and whose writer takes all.
fn sending(alloc: Global, bytes: &[u8]) -> Client<'_> {
    Client {
        reader: Counted::new(bytes),
        writer: Counted::new(Sink::with_room(alloc, usize::MAX)),
        inbox: Inbox::new(alloc),
    }
}

impl Client<'_> {
    fn turn(&mut self, desk: &mut Desk<'_>, answered: u32) -> Result<Next, ServeFault> {
        exchange(
            desk.alloc,
            &mut self.reader,
            &mut self.writer,
            &mut self.inbox,
            desk,
            answered,
        )
    }

    /// Checks how the connection goes on after the next request, if this many were answered before.
    fn turns(&mut self, rt: &impl Abort, desk: &mut Desk<'_>, answered: u32, next: Next) {
        same(rt, self.turn(desk, answered), Ok(next));
    }

    fn into_written(self) -> Vec<u8> {
        let Client {
            reader: _reader,
            writer,
            inbox: _inbox,
        } = self;
        writer.into_inner().into_taken()
    }
}

const TWO_REQUESTS: &[u8] = b"GET /h HTTP/1.1\r\nHost: a\r\n\r\nGET /h HTTP/1.1\r\nHost: a\r\n\r\n";

const TWO_PAGES: &[u8] =
    b"HTTP/1.1 200 OK\r\nContent-Type: text/html; charset=utf-8\r\nContent-Length: 3\r\n\r\nHi\nHTTP/1.1 200 OK\r\nContent-Type: text/html; charset=utf-8\r\nContent-Length: 3\r\n\r\nHi\n";

/// Serves one request of each client at a time: what a client sent ahead waits in its inbox.
fn by_turns(rt: &impl Abort, one: &mut Client<'_>, other: &mut Client<'_>, desk: &mut Desk<'_>) {
    for answered in 0..2 {
        one.turns(rt, desk, answered, Next::Stays);
        other.turns(rt, desk, answered, Next::Stays);
    }
    one.turns(rt, desk, 2, Next::Ended);
}

/// Checks that the client received both pages.
fn got_both(rt: &impl Abort, client: Client<'_>) {
    same(rt, client.into_written().as_slice(), TWO_PAGES);
}

#[test]
fn two_connections_by_turns(rt: HostRuntime) {
    let mut desk = open_desk(rt.alloc(), 1);
    let mut one = sending(rt.alloc(), TWO_REQUESTS);
    let mut other = sending(rt.alloc(), TWO_REQUESTS);
    by_turns(&rt, &mut one, &mut other, &mut desk);
    got_both(&rt, one);
    got_both(&rt, other);
    drop(desk);
}
