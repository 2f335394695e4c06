//! Submissions: each outcome, and what is accepted if the response is lost.
use crate::comparing::same;
use crate::desk::{Desk, Mood, open_desk, took};
use crate::each_end::ends_early;
use crate::ends::{PLAIN, Row, answers, responds, sends, writes};
use crate::lines::QUEUED;
use crate::texts::{joined, times};
use http_serve::ServeFault;
use std::alloc::{AllocError, Global};
use std::process::Abort;

const CHUNKED: &[u8] =
    b"POST /_submit/1/5 HTTP/1.1\r\nHost: a\r\nTransfer-Encoding: chunked\r\n\r\n4\r\nrele\r\n4\r\nase\n\r\n0\r\n\r\n";

/// Ticket (1, 5), and the text.
const VALUE: &[u8] = &[
    0, 0, 0, 1, 0, 0, 0, 0, 0, 0, 0, 5, 0x72, 0x65, 0x6c, 0x65, 0x61, 0x73, 0x65, 0x0a,
];

const ALREADY: &Row = &("200 OK", PLAIN, "", "", "already\n");

const BUSY: &Row = &("503 Service Unavailable", PLAIN, "", "", "busy\n");

const STOPPED: &Row = &("503 Service Unavailable", PLAIN, "", "", "stopped\n");

/// The bytes of `ALREADY`.
const THERE: &[u8] =
    b"HTTP/1.1 200 OK\r\nContent-Type: text/plain; charset=utf-8\r\nContent-Length: 8\r\n\r\nalready\n";

/// Texts that are not commands, and the line that reports their fault.
const FAULTY: &[(&str, &str)] = &[
    ("", "2 Form\n"),
    ("release", "2 Form\n"),
    ("put nothing n\n", "2 Form\n"),
    ("put template é\n", "3 Name\n"),
    ("put route h t d\n", "4 Path\n"),
    ("put template t\n{{a", "5 Template 1 UnclosedTag at 0\n"),
    ("put template t\nx{{}}", "5 Template 2 EmptyName at 1\n"),
    ("put template t\n{{a b}}", "5 Template 3 BadName at 0\n"),
    (
        "put partial p\n{{=@=}}",
        "5 Template 4 BadDelimiters at 0\n",
    ),
    (
        "put template t\n{{#a}}{{/b}}",
        "5 Template 6 WrongEnd at 6\n",
    ),
    (
        "put template t\n{{#a}}",
        "5 Template 7 UnclosedSection at 0\n",
    ),
    ("put data d\n{", "6 Data 1 NotJson\n"),
    ("put data d\n{\"n\":1.5}", "6 Data 2 NotWhole\n"),
];

fn submission(alloc: Global, text: &str) -> Result<String, AllocError> {
    let size = text.len();
    format!(in alloc;
        "POST /_submit/1/5 HTTP/1.1\r\nHost: a\r\nContent-Length: {size}\r\n\r\n{text}"
    )
}

/// Submits the text under ticket (1, 5), with a Content-Length line.
fn check_text(rt: &impl Abort, desk: &mut Desk<'_>, text: &str, row: &Row) {
    let request = submission(desk.alloc, text).expect(rt, "memory");
    responds(rt, desk, request.as_str(), row, false);
}

/// Checks that the text is not a command, with this line.
fn check_fault(rt: &impl Abort, desk: &mut Desk<'_>, text: &str, line: &'static str) {
    let row = ("422 Unprocessable Content", PLAIN, "", "", line);
    check_text(rt, desk, text, &row);
}

fn check_faults(rt: &impl Abort, desk: &mut Desk<'_>) {
    for &(text, line) in FAULTY {
        check_fault(rt, desk, text, line);
    }
}

/// A text of 32,757 bytes is too long with its ticket, and so is the longest body.
fn check_too_long(rt: &impl Abort, desk: &mut Desk<'_>, letters: usize) {
    let letters = times(rt, desk.alloc, "x", letters);
    let text = joined(rt, desk.alloc, "put template t\n", letters.as_str(), "");
    check_fault(rt, desk, text.as_str(), "1 TooLong\n");
}

#[test]
fn texts_that_are_no_command(rt: HostRuntime) {
    let mut desk = open_desk(rt.alloc(), 1);
    check_faults(&rt, &mut desk);
    check_too_long(&rt, &mut desk, 32_742);
    check_too_long(&rt, &mut desk, 39_985);
    took(&rt, &desk, 0);
    drop(desk);
}

/// Checks pieces of each size: the value is queued once, and then already there.
fn check_pieces(rt: &impl Abort, desk: &mut Desk<'_>, bytes: &[u8]) {
    answers(rt, desk, bytes, 1, 1, QUEUED);
    let there = THERE;
    for piece in 2..bytes.len() {
        answers(rt, desk, bytes, piece, piece, there);
    }
    took(rt, desk, 1);
}

/// Checks the response to a release in that mood.
fn check_mood(rt: &impl Abort, desk: &mut Desk<'_>, mood: Mood, row: &Row) {
    desk.mood = mood;
    check_text(rt, desk, "release\n", row);
}

/// Checks that a busy and a stopped service accept nothing, and that what is there stays there.
fn check_outcomes(rt: &impl Abort, desk: &mut Desk<'_>) {
    check_mood(rt, desk, Mood::Stopped, STOPPED);
    check_mood(rt, desk, Mood::Busy, BUSY);
    took(rt, desk, 0);
    desk.mood = Mood::Open;
    check_pieces(rt, desk, CHUNKED);
    check_mood(rt, desk, Mood::Busy, ALREADY);
}

/// The first value that was accepted, if there is one.
fn first<'a>(desk: &'a Desk<'_>) -> &'a [u8] {
    match desk.values.get(0) {
        Some(value) => value.as_slice(),
        None => b"",
    }
}

#[test]
fn outcomes(rt: HostRuntime) {
    let mut desk = open_desk(rt.alloc(), 1);
    check_outcomes(&rt, &mut desk);
    same(&rt, first(&desk), VALUE);
    drop(desk);
}

/// Checks that nothing is accepted if an allocation fails, or if the request is cut short.
fn check_not_taken(rt: &impl Abort, desk: &mut Desk<'_>, bytes: &[u8]) {
    let nothing: &[u8] = b"";
    desk.mood = Mood::Starved;
    let starved = Err(ServeFault::OutOfMemory);
    sends(rt, desk, bytes, starved, nothing, bytes.len());
    desk.mood = Mood::Open;
    ends_early(rt, desk, bytes, 0, nothing);
    took(rt, desk, 0);
}

/// A submission stays accepted if its response cannot be written.
#[test]
fn lost_responses(rt: HostRuntime) {
    let mut desk = open_desk(rt.alloc(), 1);
    check_not_taken(&rt, &mut desk, CHUNKED);
    let failed = Err(ServeFault::Write);
    let begun = b"HTTP/1.1 202 Accepte".as_slice();
    writes(&rt, &mut desk, CHUNKED, (20, 7), failed, begun);
    took(&rt, &desk, 1);
    drop(desk);
}
