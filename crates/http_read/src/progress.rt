//! How far a request is read.
//!
//! How much of the input a request may still take has a bound. Each step lowers it, so reading ends.

ghost use Rattle.std.specs.Prelude.{◌≡◌, ◌≢◌, ℕ, List, ◌++◌, Some, IfOk, OnErr, IfSome, IfNone};
ghost use Rattle.http_read.specs.Incoming.{Shows};
ghost use Rattle.http_read.specs.Progress.{Resumes, awaited_of, asks_of, Advances, Waits, ShowsOpened};

use crate::awaited::Awaited;
use crate::body::{Body, BodyRead};
use crate::checks::Passed;
use crate::inbox::Inbox;
use crate::incoming::{Incoming, Request};
use crate::opening::{Opened, open_head};
use httparse::spans::HeaderSpan;
use std::alloc::{AllocError, Global};
use std::mem;

/// How far a request is read. Its bytes that are used already are no longer held.
#[derive(Drop)]
pub enum Progress {
    /// No byte is used: the head is not whole.
    Head,
    /// The head is used, and a part of the body.
    Body(Begun),
}

/// A request whose head is used.
#[derive(Drop)]
pub struct Begun {
    /// What the tests found in the head.
    pub(crate) passed: Passed,
    pub(crate) path: String,
    /// Whether the method is HEAD.
    pub(crate) of_head: bool,
    pub(crate) body: Body,
}

impl Begun {
    /// The request, whose body is whole.
    fn into_request(self) -> Request
        ensures { result ≡ asks_of self }
    {
        Request {
            method: self.passed.method,
            path: self.path,
            keep: self.passed.keep,
            body: self.body.bytes,
        }
    }
}

impl Progress {
    /// What of the body comes next, if the head is used.
    pub fn awaits(&self) -> Option<Awaited>
        ensures { result ≡ awaited_of self.now }
    {
        match self {
            Progress::Head => None,
            Progress::Body(begun) => Some(begun.body.awaits),
        }
    }
}

/// The request whose head is used, now or earlier. It is taken out of the progress.
fn take_begun(
    alloc: Global,
    progress: &mut Progress,
    inbox: &mut Inbox,
    spans: &mut Vec<HeaderSpan>,
) -> Result<Opened, AllocError>
    ensures head { IfOk result (λ opened. ShowsOpened opened progress.old inbox.old inbox.new) }
    ensures taken { progress.new ≡ Progress.Head }
    ensures kept { OnErr result ((progress.old ≡ Progress.Head) × (inbox.new ≡ inbox.old)) }
{
    match mem::replace(progress, Progress::Head) {
        Progress::Body(begun) => Ok(Opened::Head(begun)),
        Progress::Head => open_head(alloc, inbox, spans),
    }
}

/// Reads on in what the inbox holds. `None`: more bytes are needed, and an inbox has room for them.
///
/// After a request the progress is that of the next one. After a refusal the connection is to be closed. The
/// spans are room for where field lines are, of any length at first: they grow if a head or a trailer section
/// has more, up to 2,730 (87 KB). All other memory is allocated as `request` does.
pub fn advance(
    alloc: Global,
    progress: &mut Progress,
    inbox: &mut Inbox,
    spans: &mut Vec<HeaderSpan>,
) -> Result<Option<Incoming>, AllocError>
    ensures whole { IfOk result (λ read. IfSome read
        (λ incoming. (used : List ℕ) → Resumes progress.old used →
        Shows incoming (Some inbox.new) (used ++ inbox.old))) }
    ensures begun { IfOk result (λ read. IfSome read (λ incoming. incoming ≢ Incoming.Ended)) }
    ensures next { IfOk result (λ read. IfSome read (λ _. progress.new ≡ Progress.Head)) }
    ensures short { IfOk result (λ read. IfNone read (Waits progress.old progress.new inbox.old inbox.new)) }
    ensures kept { OnErr result (Advances progress.old progress.new inbox.old inbox.new) }
{
    let mut begun = match take_begun(alloc, progress, inbox, spans)? {
        Opened::Head(begun) => begun,
        Opened::Refused(status, head) => return Ok(Some(Incoming::Refused { status, head })),
        Opened::Open => return Ok(None),
    };
    match begun.body.read_on(inbox, spans) {
        Ok(BodyRead::Whole) => Ok(Some(Incoming::Request(begun.into_request()))),
        Ok(BodyRead::Refused(status)) => Ok(Some(Incoming::Refused {
            status,
            head: begun.of_head,
        })),
        Ok(BodyRead::Open) => {
            *progress = Progress::Body(begun);
            Ok(None)
        }
        Err(refused) => {
            *progress = Progress::Body(begun);
            Err(refused)
        }
    }
}
