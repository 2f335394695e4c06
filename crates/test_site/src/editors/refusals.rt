//! Each step with one failed allocation: the step is taken as ever, or the allocation failed, nothing has
//! changed, and the next try takes the step.
//!
//! Each test tries twice. The reason is a second program, `tools/gate/refuse-growths`: it runs each test once
//! for each allocation, and makes that one fail. The first try meets the failure, the second does not.
//! Without that program no allocation of a test fails.
use crate::comparing::{ensure, same};
use crate::editors::folders::{SITE, files, lines_of, page_lines};
use crate::editors::ledgers::{commands, told};
use crate::editors::limits::ENDLESS;
use editor_folder::{Folder, folder_of, pages_of};
use editor_http::{NodeAnswer, NodeAnswerFault, Question, authority_in, read_answer};
use editor_ledger::{Ledger, LedgerFault};
use editor_plan::{Ask, Flight, Heard, Stage, advance};
use engine_common::Feed;
use http_read::Counted;
use std::alloc::{AllocError, Global};
use std::process::Abort;

/// How many commands and pages a folder has, and how many bytes the reports have on it and on its pages.
type Counts = (usize, usize, usize, usize);

fn counts(alloc: Global, folder: &Folder) -> Result<Counts, AllocError> {
    let pages = pages_of(alloc, folder)?.len();
    let lines = lines_of(alloc, &folder.findings)?.len();
    let faults = page_lines(alloc, folder)?.len();
    Ok((folder.commands.len(), pages, lines, faults))
}

fn read_folder(alloc: Global, rows: &[(&str, &[u8])]) -> Result<Folder, AllocError> {
    let found = files(alloc, rows)?;
    folder_of(alloc, &found)
}

fn read_counts(alloc: Global, rows: &[(&str, &[u8])]) -> Result<Counts, AllocError> {
    let folder = read_folder(alloc, rows)?;
    counts(alloc, &folder)
}

/// Folders, and their counts.
const FOLDERS: &[(&[(&str, &[u8])], Counts)] = &[(SITE, (9, 3, 105, 0)), (ENDLESS, (4, 1, 0, 316))];

fn counted(rt: &impl Abort, alloc: Global, rows: &[(&str, &[u8])]) -> Counts {
    match read_counts(alloc, rows) {
        Ok(found) => found,
        Err(_) => read_counts(alloc, rows).expect(rt, "memory"),
    }
}

#[test]
fn folders(rt: HostRuntime) {
    for &(rows, wanted) in FOLDERS {
        same(&rt, counted(&rt, rt.alloc(), rows), wanted);
    }
}

fn step(alloc: Global, ledger: &mut Ledger, wanted: &[&str]) -> Result<bool, LedgerFault> {
    if ledger.is_idle() {
        ledger.plan(alloc, wanted, &[])?;
        Ok(true)
    } else {
        Ok(false)
    }
}

fn wanted(rt: &impl Abort, alloc: Global) -> Vec<&'static str> {
    match commands(alloc, "TAB") {
        Ok(texts) => texts,
        Err(_) => commands(alloc, "TAB").expect(rt, "memory"),
    }
}

fn plan(rt: &impl Abort, alloc: Global, ledger: &mut Ledger, wanted: &[&str]) {
    if step(alloc, ledger, wanted).is_err() {
        same(rt, (ledger.next(), ledger.is_idle()), (1, true));
        same(rt, step(alloc, ledger, wanted), Ok(true));
    }
}

fn receive(rt: &impl Abort, ledger: &mut Ledger) {
    if ledger.receive(2).is_err() {
        same(rt, (ledger.sent().len(), ledger.kept().len()), (3, 0));
        ensure(rt, ledger.receive(2).is_ok(), 2);
    }
}

fn spelled(rt: &impl Abort, alloc: Global, ledger: &Ledger) -> String {
    match ledger.spelled(alloc) {
        Ok(file) => file,
        Err(_) => ledger.spelled(alloc).expect(rt, "memory"),
    }
}

fn read_ledger(rt: &impl Abort, alloc: Global, file: &str) -> Ledger {
    match Ledger::read(alloc, file) {
        Ok(ledger) => ledger,
        Err(_) => Ledger::read(alloc, file).expect(rt, "memory"),
    }
}

fn line_of(rt: &impl Abort, alloc: Global, ledger: &Ledger) -> String {
    match told(alloc, ledger) {
        Ok(line) => line,
        Err(_) => told(alloc, ledger).expect(rt, "memory"),
    }
}

fn is_told(rt: &impl Abort, alloc: Global, file: &str) {
    let again = read_ledger(rt, alloc, file);
    let line = line_of(rt, alloc, &again);
    same(rt, line.as_str(), "4 0 A 1T 3B");
}

fn go(rt: &impl Abort, alloc: Global, ledger: &mut Ledger) {
    let texts = wanted(rt, alloc);
    plan(rt, alloc, ledger, texts.as_slice());
    receive(rt, ledger);
    let file = spelled(rt, alloc, ledger);
    is_told(rt, alloc, file.as_str());
}

#[test]
fn ledgers(rt: HostRuntime) {
    let mut ledger = Ledger::new(rt.alloc(), 7);
    go(&rt, rt.alloc(), &mut ledger);
}

fn asked(alloc: Global) -> Result<String, AllocError> {
    let to = authority_in(alloc, "ed:pw@a:80")?;
    Question::Page(7, "/a b").spelled(alloc, &to, true)
}

fn request(rt: &impl Abort, alloc: Global) -> String {
    match asked(alloc) {
        Ok(request) => request,
        Err(_) => asked(alloc).expect(rt, "memory"),
    }
}

const REQUEST: &str =
    "GET /@7/a%20b HTTP/1.1\r\nHost: a:80\r\nAuthorization: Basic ZWQ6cHc=\r\nConnection: close\r\n";

fn read_one(alloc: Global) -> Result<NodeAnswer, NodeAnswerFault> {
    let bytes = b"HTTP/1.1 200\r\nContent-Length: 2\r\n\r\n7\n";
    let mut reader = Counted::new(bytes.as_slice());
    read_answer(alloc, &mut reader, &mut Feed::new(alloc))
}

fn answer(rt: &impl Abort, alloc: Global) -> NodeAnswer {
    match read_one(alloc) {
        Ok(answer) => answer,
        Err(fault) => {
            same(rt, fault, NodeAnswerFault::OutOfMemory);
            read_one(alloc).expect(rt, "an answer")
        }
    }
}

#[test]
fn answers(rt: HostRuntime) {
    let asks = request(&rt, rt.alloc()).as_str().starts_with(REQUEST);
    ensure(&rt, asks, 7);
    let answer = answer(&rt, rt.alloc());
    let is_seven = answer.body.as_slice() == b"7\n".as_slice();
    same(&rt, (answer.status, is_seven), (200, true));
}

fn go_on(alloc: Global, ledger: &mut Ledger) -> Result<Stage, LedgerFault> {
    advance(alloc, ledger, &["put data a\n1"])
}

fn advances(rt: &impl Abort, alloc: Global, ledger: &mut Ledger) {
    let planned = match go_on(alloc, ledger) {
        Ok(stage) => Ok(stage),
        Err(_) => go_on(alloc, ledger),
    };
    same(rt, planned, Ok(Stage::Sends));
}

fn asks(rt: &impl Abort, alloc: Global, flight: &Flight, ledger: &Ledger) -> Vec<Ask> {
    match flight.asks(alloc, ledger.sent()) {
        Ok(asks) => asks,
        Err(_) => flight.asks(alloc, ledger.sent()).expect(rt, "memory"),
    }
}

/// What the answer means. If an allocation failed, nothing has changed, and the answer is handled once more.
fn means(
    rt: &impl Abort,
    flight: &mut Flight,
    ledger: &mut Ledger,
    row: (Ask, u16),
    wanted: Heard,
) {
    let (ask, status) = row;
    let heard = match flight.hear(ledger, ask, status) {
        Ok(heard) => heard,
        Err(_) => {
            same(rt, ledger.is_idle(), false);
            flight.hear(ledger, ask, status).expect(rt, "memory")
        }
    };
    same(rt, heard, wanted);
}

fn fly(rt: &impl Abort, alloc: Global, flight: &mut Flight, ledger: &mut Ledger) {
    advances(rt, alloc, ledger);
    let asks = asks(rt, alloc, flight, ledger);
    ensure(
        rt,
        asks.as_slice() == [Ask::Submit(1)].as_slice(),
        asks.len(),
    );
    means(rt, flight, ledger, (Ask::Submit(1), 202), Heard::Taken);
    means(rt, flight, ledger, (Ask::Receipt(1), 200), Heard::Received);
    same(rt, ledger.is_idle(), true);
}

#[test]
fn flights(rt: HostRuntime) {
    let mut ledger = Ledger::new(rt.alloc(), 7);
    fly(&rt, rt.alloc(), &mut Flight::new(rt.alloc()), &mut ledger);
}
