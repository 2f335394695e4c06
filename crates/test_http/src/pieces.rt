//! Requests in pieces, and the result of each, in a line of text.

use crate::comparing::same;
use crate::reading::Reading;
use crate::texts::joined;
use http_read::{Counted, Inbox, Incoming, Method, ReadFault, Request, request};
use std::alloc::{AllocError, Global};
use std::process::Abort;
use test_ends::{Pieces, in_pieces};

fn name_of(method: Method) -> &'static str {
    match method {
        Method::Get => "GET ",
        Method::Head => "HEAD ",
        Method::Post => "POST ",
    }
}

/// The body, and the word before it.
fn body_text(asked: &Request) -> (&'static str, &str) {
    if asked.body.is_empty() {
        return ("", "");
    }
    let body = str::from_utf8(&asked.body).unwrap_or("a body that is no text");
    (" with ", body)
}

fn request_text(alloc: Global, asked: &Request) -> Result<String, AllocError> {
    let method = name_of(asked.method);
    let path = asked.path.as_str();
    let (with, body) = body_text(asked);
    let closes = if asked.keep { "" } else { " and closes" };
    format!(in alloc; "{method}{path}{with}{body}{closes}")
}

fn refusal_text(alloc: Global, status: u16, head: bool) -> Result<String, AllocError> {
    let whose = if head { " to HEAD" } else { "" };
    format!(in alloc; "{status}{whose}")
}

fn fault_text(fault: &ReadFault) -> &'static str {
    match fault {
        ReadFault::Read => "read failed",
        ReadFault::OutOfMemory => "out of memory",
        ReadFault::EndedEarly => "ended early",
    }
}

/// The result in words: `GET /h`, with its body if it has one, and whether it closes its connection; `400`,
/// or `400 to HEAD`; or the end of the input.
fn text_of(alloc: Global, came: &Incoming) -> Result<String, AllocError> {
    match came {
        Incoming::Request(asked) => request_text(alloc, asked),
        Incoming::Ended => String::from_str(alloc, "ended"),
        Incoming::Refused { status, head } => refusal_text(alloc, *status, *head),
    }
}

/// The same, and drops the result.
fn told(rt: &impl Abort, alloc: Global, came: Incoming) -> String {
    let text = text_of(alloc, &came).expect(rt, "memory");
    drop(came);
    text
}

fn words(rt: &impl Abort, alloc: Global, words: &str) -> String {
    String::from_str(alloc, words).expect(rt, "memory")
}

/// Checks the result of the row with these words and this number.
fn is_so(rt: &impl Abort, came: &str, expected: &str, of: (&str, usize)) {
    same(rt, (of, came), (of, expected));
}

/// The fault of a read that returned this many bytes, or of one that failed (`None`).
fn fault_of(read: Option<usize>) -> Option<&'static str> {
    match read {
        Some(0) => Some("ended early"),
        Some(_) => None,
        None => Some("read failed"),
    }
}

/// A reader that gives bytes in pieces, and the progress of reading them.
#[derive(Drop)]
pub(crate) struct Input<'a> {
    alloc: Global,
    reader: Counted<Pieces<'a>>,
    reading: Reading,
}

impl<'a> Input<'a> {
    /// A first piece and then pieces of one size. No call fails.
    pub(crate) fn in_pieces(
        alloc: Global,
        bytes: &'a [u8],
        first: usize,
        piece: usize,
    ) -> Input<'a> {
        Input::new(alloc, in_pieces(bytes, first, piece, usize::MAX))
    }

    pub(crate) fn new(alloc: Global, reader: Pieces<'a>) -> Input<'a> {
        Input {
            alloc,
            reader: Counted::new(reader),
            reading: Reading::new(alloc),
        }
    }
}

impl Input<'_> {
    fn request(&mut self) -> Result<Incoming, ReadFault> {
        request(self.alloc, &mut self.reader, &mut self.reading.inbox)
    }

    /// The next request in words, read by one call.
    fn read(&mut self, rt: &impl Abort) -> String {
        match self.request() {
            Ok(came) => told(rt, self.alloc, came),
            Err(fault) => words(rt, self.alloc, fault_text(&fault)),
        }
    }

    /// Checks the next request, read by one call.
    pub(crate) fn comes(&mut self, rt: &impl Abort, expected: &str, of: (&str, usize)) {
        let text = self.read(rt);
        is_so(rt, text.as_str(), expected, of);
    }

    /// Reads once more: the fault, if that ends the reading.
    fn read_more(&mut self) -> Option<&'static str> {
        if self.reading.inbox.is_full() {
            return Some("full and not whole");
        }
        match self.reading.inbox.read_from(&mut self.reader) {
            Ok(read) => fault_of(read.ok()),
            Err(_) => Some("out of memory"),
        }
    }

    /// Reads on in what is held, and then once from the reader. Returns the result in words if it is whole,
    /// or the fault.
    fn step(&mut self, rt: &impl Abort) -> Option<String> {
        let came = self.reading.go_on(self.alloc).expect(rt, "memory");
        match came {
            Some(came) => Some(told(rt, self.alloc, came)),
            None => self.fault(rt),
        }
    }

    /// Reads once more: the fault in words, if that ends the reading.
    fn fault(&mut self, rt: &impl Abort) -> Option<String> {
        match self.read_more() {
            Some(fault) => Some(words(rt, self.alloc, fault)),
            None => None,
        }
    }

    /// The next request in words, read step by step.
    fn read_on(&mut self, rt: &impl Abort) -> String {
        for _ in 0..1_000_000 {
            if let Some(text) = self.step(rt) {
                return text;
            }
        }
        words(rt, self.alloc, "no end")
    }

    /// Checks the next request, read step by step.
    fn comes_so_far(&mut self, rt: &impl Abort, expected: &str, of: (&str, usize)) {
        let text = self.read_on(rt);
        is_so(rt, text.as_str(), expected, of);
    }

    /// Checks how many calls failed.
    pub(crate) fn failed(&self, rt: &impl Abort, failures: u64) {
        same(rt, self.reader.failures(), failures);
    }

    /// Checks what is left: what is held, and then what the reader has.
    fn leaves(self, rt: &impl Abort, left: &str) {
        let Input {
            alloc: _,
            reader,
            reading,
        } = self;
        let behind = reader.into_inner().bytes;
        let held = reading.inbox.held();
        let all = left.as_bytes();
        same(rt, (held, behind), all.split_at(held.len().min(all.len())));
        drop(reading);
    }
}

/// A part of a request, and the result of the request.
pub(crate) type Row = (&'static str, &'static str);

/// Bytes, their result, and what is left after them if they are a request.
#[derive(Drop)]
struct Case<'a> {
    text: &'a str,
    expected: &'a str,
    left: &'a str,
}

impl Case<'_> {
    /// Whether the result is a request: then it begins with the method.
    fn is_asked(&self) -> bool {
        matches!(self.expected.as_bytes().first(), Some(b'A'..=b'Z'))
    }
}

/// Checks that no call failed, and what is left.
fn check_behind(rt: &impl Abort, case: &Case<'_>, input: Input<'_>) {
    input.failed(rt, 0);
    if case.is_asked() {
        input.leaves(rt, case.left);
    } else {
        drop(input);
    }
}

/// Checks one call that reads a request in pieces of one size.
fn check_pieces(rt: &impl Abort, alloc: Global, case: &Case<'_>, piece: usize) {
    let mut input = Input::in_pieces(alloc, case.text.as_bytes(), piece, piece);
    input.comes(rt, case.expected, (case.text, piece));
    check_behind(rt, case, input);
}

/// Checks reading step by step, with a first piece and then pieces of one size.
fn check_so_far(rt: &impl Abort, alloc: Global, case: &Case<'_>, first: usize, piece: usize) {
    let mut input = Input::in_pieces(alloc, case.text.as_bytes(), first, piece);
    input.comes_so_far(rt, case.expected, (case.text, first));
    check_behind(rt, case, input);
}

const SHORT_PIECES: &[usize] = &[1, 2, 7, 999];

const LONG_PIECES: &[usize] = &[500, 700, 8_191, 99_999];

/// Checks pieces of each of these sizes.
fn check_sizes(rt: &impl Abort, alloc: Global, case: &Case<'_>, sizes: &[usize]) {
    for &piece in sizes {
        check_pieces(rt, alloc, case, piece);
    }
}

/// Checks each cut into two.
fn check_cuts(rt: &impl Abort, alloc: Global, case: &Case<'_>) {
    for first in 0..=case.text.len() {
        check_so_far(rt, alloc, case, first, usize::MAX);
    }
}

/// Checks one call with pieces of several sizes; and reading step by step, cut into two at each place and
/// byte by byte. A long request comes in longer pieces, and is cut only in the middle.
fn check_case(rt: &impl Abort, alloc: Global, case: &Case<'_>) {
    if case.text.len() < 1_000 {
        check_sizes(rt, alloc, case, SHORT_PIECES);
        check_cuts(rt, alloc, case);
        check_so_far(rt, alloc, case, 1, 1);
    } else {
        check_sizes(rt, alloc, case, LONG_PIECES);
        check_so_far(rt, alloc, case, case.text.len() / 2, usize::MAX);
        check_so_far(rt, alloc, case, 997, 997);
    }
}

/// What follows a request with that result: nothing if it ends early, else more bytes.
fn behind(expected: &str) -> &'static str {
    if expected == "ended early" {
        return "";
    }
    "next"
}

/// Checks one request in every way. The bytes that follow a request are left.
pub(crate) fn check_one(rt: &impl Abort, alloc: Global, bytes: &str, expected: &str) {
    let left = behind(expected);
    let text = joined(rt, alloc, bytes, left, "");
    let case = Case {
        text: text.as_str(),
        expected,
        left,
    };
    check_case(rt, alloc, &case);
}

/// Checks the request of each row, between these bytes.
pub(crate) fn check(rt: &impl Abort, alloc: Global, before: &str, rows: &[Row], behind: &str) {
    for &(part, expected) in rows {
        let bytes = joined(rt, alloc, before, part, behind);
        check_one(rt, alloc, bytes.as_str(), expected);
    }
}
