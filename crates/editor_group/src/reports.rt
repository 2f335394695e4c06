//! What nodes say of themselves, all asked at once.
ghost use Rattle.std.specs.Prelude.{◌≡◌, length, vec_len, IfOk, None};
ghost use Rattle.editor_plan.specs.Standings.{last_shown};
ghost use Rattle.editor_group.specs.Published.{ticket_of};

use crate::address::Address;
use crate::asking::number_in;
use crate::asking_all::{Said, ask_each, silent_urls};
use editor_common::{TalkFault, say_made};
use editor_http::{Barred, NodeAnswer, Question};
use editor_ledger::Ledger;
use editor_plan::{FIRST_ANSWERS, LATER_ANSWERS, last_shown, last_ticket};
use site_ids::Ticket;
use std::alloc::{AllocError, Global};
use std::io::Write;
use std::net::{Net, TcpStream};
use std::rt::Clock;

/// What a folder has published: the newest release that its group has shown of it, 0 for none, and the last
/// ticket that has its receipt, if one has.
#[derive(Clone, Copy, Debug, Drop, PartialEq, Eq)]
pub struct Published {
    pub release: u64,
    pub last: Option<Ticket>,
}

impl Published {
    /// Of no folder.
    pub fn nothing() -> Published
        ensures release { result.release ≡ 0 }
        ensures last { result.last ≡ None }
    {
        Published {
            release: 0,
            last: None,
        }
    }

    /// As a folder's ledger has it.
    pub fn of(ledger: &Ledger) -> Published
        ensures release { result.release ≡ last_shown ledger.now }
        ensures last { result.last ≡ ticket_of ledger.now }
    {
        let (editor, number) = (ledger.editor(), last_ticket(ledger));
        Published {
            release: last_shown(ledger),
            last: if number == 0 {
                None
            } else {
                Some(Ticket { editor, number })
            },
        }
    }
}

/// A node: how many milliseconds it took to answer, whether it did, and why it keeps this client out, if it
/// does. `newest` is its newest release and `instance` that of a folder's last ticket, if it said them.
/// `page` is its start page in the newest release that all have.
#[derive(Drop)]
pub(crate) struct Report<'a> {
    pub node: &'a Address,
    pub millis: u64,
    pub answered: bool,
    pub barred: Option<Barred>,
    pub newest: Option<u64>,
    pub instance: Option<u64>,
    pub page: Option<NodeAnswer>,
}

/// The newest release that all nodes that answer have, and the newest of all; 0 if there is none.
#[derive(Clone, Copy)]
pub(crate) struct Range {
    pub common: u64,
    pub last: u64,
}

/// What a node's answers report.
fn report_in<'a>(said: &Said<'a>) -> Report<'a> {
    let first = said.answers.first();
    Report {
        node: said.node,
        millis: said.millis,
        answered: said.is_answered(),
        barred: said.barred(),
        newest: first.and_then(number_in),
        instance: said.answers.get(1).and_then(number_in),
        page: None,
    }
}

/// What is asked of each node: its newest release, and the receipt of a folder's last ticket.
fn questions_of<'a>(alloc: Global, published: Published) -> Result<Vec<Question<'a>>, AllocError> {
    let mut questions = Vec::with_capacity(alloc, 2)?;
    questions.push(Question::Newest)?;
    if let Some(ticket) = published.last {
        questions.push(Question::Receipt(ticket))?;
    }
    Ok(questions)
}

/// The nodes that are silent.
fn those_silent<'a>(alloc: Global, all: &[Said<'a>]) -> Result<Vec<&'a Address>, AllocError> {
    let mut nodes = Vec::new(alloc);
    for said in all {
        if said.is_silent() {
            nodes.push(said.node)?;
        }
    }
    Ok(nodes)
}

/// Asks the nodes that were silent once more, and prints which they are.
fn ask_again<'a, R: Net<Stream = TcpStream> + Clock + AllocGlobal, E: Write>(
    rt: &R,
    err: &mut E,
    all: &mut [Said<'a>],
    questions: &[Question<'_>],
) -> Result<(), TalkFault>
    ensures is { length all.new ≡ length all.old }
{
    let silent = those_silent(rt.alloc(), all)?;
    if silent.is_empty() {
        return Ok(());
    }
    let urls = silent_urls(rt.alloc(), all)?;
    let seconds = LATER_ANSWERS / 1000;
    say_made(
        err,
        format!(in rt.alloc();
            "no answer from{urls}: asking again, and waiting {seconds} seconds at most"
        ),
    )?;
    let mut later = ask_each(rt, &silent, questions, LATER_ANSWERS)?.into_iter();
    for said in all.iter_mut() {
        if said.is_silent() {
            if let Some(answered) = later.next() {
                *said = answered;
            }
        }
    }
    Ok(())
}

/// Asks each node what it says of itself and of a folder.
fn first_reports<'a, R: Net<Stream = TcpStream> + Clock + AllocGlobal, E: Write>(
    rt: &R,
    err: &mut E,
    nodes: &'a [Address],
    published: Published,
) -> Result<Vec<Report<'a>>, TalkFault>
    ensures is { IfOk result (λ reports. vec_len reports ≡ length nodes.now) }
{
    let questions = questions_of(rt.alloc(), published)?;
    let asked: Vec<&Address> = nodes.iter().collect(rt.alloc())?;
    let mut all = ask_each(rt, &asked, &questions, FIRST_ANSWERS)?;
    ask_again(rt, err, all.as_mut_slice(), &questions)?;
    let mut reports = Vec::new(rt.alloc());
    for said in &all {
        reports.push(report_in(said))?;
    }
    Ok(reports)
}

pub(crate) fn range_of(reports: &[Report<'_>]) -> Range {
    let common = reports.iter().filter_map(|report| report.newest).min();
    let last = reports.iter().filter_map(|report| report.newest).max();
    Range {
        common: common.unwrap_or(0),
        last: last.unwrap_or(0),
    }
}

/// The nodes that said their newest release.
fn those_that_answer<'a>(
    alloc: Global,
    reports: &[Report<'a>],
) -> Result<Vec<&'a Address>, AllocError> {
    let mut answering = Vec::new(alloc);
    for report in reports {
        if report.newest.is_some() {
            answering.push(report.node)?;
        }
    }
    Ok(answering)
}

/// Asks each node that answered for its start page of a release.
fn ask_pages<R: Net<Stream = TcpStream> + Clock + AllocGlobal>(
    rt: &R,
    reports: &mut [Report<'_>],
    release: u64,
) -> Result<(), TalkFault>
    ensures is { length reports.new ≡ length reports.old }
{
    let answering = those_that_answer(rt.alloc(), reports)?;
    let question = [Question::Page(release, "/")];
    let mut all = ask_each(rt, &answering, &question, LATER_ANSWERS)?.into_iter();
    for report in reports.iter_mut() {
        if report.newest.is_some() {
            report.page = all.next().and_then(|said| said.answers.into_iter().next());
        }
    }
    Ok(())
}

/// What each node says of itself and of a folder. It prints which nodes are silent at first.
pub(crate) fn reports_of<'a, R: Net<Stream = TcpStream> + Clock + AllocGlobal, E: Write>(
    rt: &R,
    err: &mut E,
    nodes: &'a [Address],
    published: Published,
) -> Result<Vec<Report<'a>>, TalkFault>
    ensures is { IfOk result (λ reports. vec_len reports ≡ length nodes.now) }
{
    let mut reports = first_reports(rt, err, nodes, published)?;
    let common = range_of(&reports).common;
    if common > 0 {
        ask_pages(rt, reports.as_mut_slice(), common)?;
    }
    Ok(reports)
}
