//! A service in memory.
ghost use Rattle.std.specs.Prelude.{◌≡◌, IfOk, OnErr, IfSome, ⊤};
ghost use Rattle.release.specs.Standing.{answer_view};
ghost use Rattle.http_serve.specs.Services.{IsTold};
ghost use Rattle.release.specs.Page.{in_place, moved_to};
ghost use Rattle.test_http.specs.Desks.{page_at, shown_at};

use crate::comparing::same;
use command::{CommandFault, read, write};
use http_serve::{Service, Submission, SubmitFault};
use release::{Answer, AnswerFault};
use site_ids::{Instance, Ticket};
use std::alloc::{AllocError, Global};
use std::process::Abort;

/// How the service responds to submissions.
#[derive(Clone, Copy, PartialEq, Eq)]
pub(crate) enum Mood {
    Open,
    Busy,
    Stopped,
    Starved,
}

/// A service that shows releases and keeps the submitted values. The first release has this page at `/h`.
#[derive(Drop)]
pub(crate) struct Desk<'a> {
    pub alloc: Global,
    pub page: &'a str,
    pub newest: u64,
    /// The instance in every ticket's receipt.
    pub receipt: Option<Instance>,
    pub mood: Mood,
    pub values: Vec<Vec<u8>>,
}

/// An open service with this page, this many releases, and no receipts.
pub(crate) fn desk_of(alloc: Global, page: &str, newest: u64) -> Desk<'_> {
    Desk {
        alloc,
        page,
        newest,
        receipt: None,
        mood: Mood::Open,
        values: Vec::new(alloc),
    }
}

/// An open service whose page is `Hi`.
pub(crate) fn open_desk(alloc: Global, newest: u64) -> Desk<'static> {
    desk_of(alloc, "Hi\n", newest)
}

/// Checks how many submissions it accepted.
pub(crate) fn took(rt: &impl Abort, desk: &Desk<'_>, count: usize) {
    same(rt, desk.values.len(), count);
}

fn made(alloc: Global, status: u16, body: &str) -> Result<Answer, AllocError>
    ensures { IfOk result (λ a. answer_view a ≡ in_place status body.now) }
{
    Ok(Answer {
        status,
        body: String::from_str(alloc, body)?,
        location: None,
    })
}

fn moved(alloc: Global, target: &str) -> Result<Answer, AllocError>
    ensures { IfOk result (λ a. answer_view a ≡ moved_to target.now) }
{
    Ok(Answer {
        status: 301,
        body: format!(in alloc; "moved to {target}\n")?,
        location: Some(String::from_str(alloc, target)?),
    })
}

fn shown(alloc: Global, page: &str, n: u64, path: &str) -> Result<Answer, AllocError>
    ensures { IfOk result (λ a. answer_view a ≡ shown_at page.now n path.now) }
{
    match path {
        "/h" => made(alloc, 200, if n == 1 { page } else { "later\n" }),
        "/lost" => made(alloc, 500, "template missing\n"),
        "/old" => moved(alloc, "/h"),
        "/alt" => moved(alloc, "/é"),
        _ => made(alloc, 404, "not found\n"),
    }
}

/// Why the value is not a command.
fn refusal_of(alloc: Global, value: &[u8]) -> Option<SubmitFault>
    ensures { IfSome result IsTold }
{
    match read(alloc, value) {
        Ok(_) => None,
        Err(CommandFault::OutOfMemory) => Some(SubmitFault::OutOfMemory),
        Err(fault) => Some(SubmitFault::Command(fault)),
    }
}

fn holds(values: &[Vec<u8>], value: &[u8]) -> bool {
    for held in values {
        if held.as_slice() == value {
            return true;
        }
    }
    false
}

fn keep(values: &mut Vec<Vec<u8>>, value: Vec<u8>) -> Result<(), AllocError>
    ensures { OnErr result (values.new.items ≡ values.old.items) }
{
    Ok(values.push(value)?)
}

/// The tests check what the submissions leave. No clause says it.
impl Service for Desk<'_> {
    ghost offered = { record {
      newest_is = λ d. d.newest;
      page_is = λ d n path. page_at d.page.now d.newest n path;
      receipt_is = λ d _. d.receipt;
      takes = λ _ _ _ _ _. ⊤;
      stays = λ old new. new.values.items ≡ old.values.items;
    } };

    fn newest(&self) -> u64 {
        self.newest
    }

    fn answer(&self, alloc: Global, n: u64, path: &str) -> Result<Answer, AnswerFault> {
        if n == 0 || n > self.newest {
            return Err(AnswerFault::NoSuchRelease);
        }
        Ok(shown(alloc, self.page, n, path)?)
    }

    fn receipt(&self, _ticket: Ticket) -> Option<Instance> {
        self.receipt
    }

    fn submit(
        &mut self,
        alloc: Global,
        ticket: Ticket,
        text: &[u8],
    ) -> Result<Submission, SubmitFault> {
        match self.mood {
            Mood::Stopped => return Err(SubmitFault::Stopped),
            Mood::Starved => return Err(SubmitFault::OutOfMemory),
            Mood::Open | Mood::Busy => {}
        }
        let value = write(alloc, ticket, text)?;
        if let Some(fault) = refusal_of(alloc, value.as_slice()) {
            return Err(fault);
        }
        if holds(self.values.as_slice(), value.as_slice()) {
            return Ok(Submission::Already);
        }
        if self.mood == Mood::Busy {
            return Err(SubmitFault::Busy);
        }
        keep(&mut self.values, value)?;
        Ok(Submission::Queued)
    }
}
