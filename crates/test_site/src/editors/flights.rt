//! Publications into a group in memory. They are interrupted after each answer in turn, and another folder
//! goes on.
use crate::comparing::{ensure, same};
use crate::editors::ledgers::{new_file, read, read_lines, save};
use crate::editors::tickets::{Texts, has, insert, keep};
use editor_ledger::Ledger;
use editor_plan::{Ask, Flight, Heard, Stage, advance};
use std::alloc::{AllocError, Global};
use std::collections::BTreeMap;
use std::process::Abort;

/// The folders: the second changes a text, removes one and adds one.
const FIRST: &[&str] = &["put template t\nx", "put data a\n1\n", "put route /a t a\n"];

const SECOND: &[&str] = &["put template t\nx", "put data a\n2\n", "put route /b t a\n"];

/// A group of one node: the text of each ticket that is known, the few texts that wait, and how many answers
/// the node gives before the editor is interrupted.
#[derive(Drop)]
struct Town {
    known: Texts,
    waiting: Texts,
    left: usize,
}

/// How many commands wait at most.
const ROOM: usize = 2;

impl Town {
    /// Whether the command waits or is known. No ticket ever has two texts.
    fn has(&self, rt: &impl Abort, number: u64, text: &str) -> bool {
        has(rt, &self.known, number, text) || has(rt, &self.waiting, number, text)
    }

    /// Takes a command, and returns the status.
    fn submit(&mut self, rt: &impl Abort, alloc: Global, number: u64, text: &str) -> u16 {
        if self.has(rt, number, text) {
            return 200;
        }
        if self.waiting.len() >= ROOM {
            return 503;
        }
        keep(rt, alloc, &mut self.waiting, number, text);
        202
    }

    /// The status for a receipt.
    fn receipt(&self, number: u64) -> u16 {
        if self.known.contains_key(&number) {
            200
        } else {
            404
        }
    }

    fn decide_one(&mut self, rt: &impl Abort) {
        if let Some((number, text)) = self.waiting.pop_first() {
            insert(rt, &mut self.known, number, text);
        }
    }

    /// What waits becomes known.
    fn decide(&mut self, rt: &impl Abort) {
        for _ in 0..self.waiting.len() {
            self.decide_one(rt);
        }
    }

    /// The status for a sent command.
    fn submit_of(&mut self, rt: &impl Abort, alloc: Global, ledger: &Ledger, number: u64) -> u16 {
        for sent in ledger.sent() {
            if sent.number == number {
                return self.submit(rt, alloc, number, sent.text.as_str());
            }
        }
        panic!(rt; "asked for what is not on its way")
    }

    /// The answer to a request, unless the editor is interrupted before.
    fn answer(&mut self, rt: &impl Abort, alloc: Global, ledger: &Ledger, ask: Ask) -> Option<u16> {
        if self.left == 0 {
            return None;
        }
        self.left -= 1;
        match ask {
            Ask::Receipt(number) => Some(self.receipt(number)),
            Ask::Submit(number) => Some(self.submit_of(rt, alloc, ledger, number)),
        }
    }
}

/// What an answer means.
fn hear(rt: &impl Abort, flight: &mut Flight, ledger: &mut Ledger, ask: Ask, status: u16) -> Heard {
    flight.hear(ledger, ask, status).expect(rt, "memory")
}

fn asks(rt: &impl Abort, alloc: Global, flight: &Flight, ledger: &Ledger) -> Vec<Ask> {
    flight.asks(alloc, ledger.sent()).expect(rt, "memory")
}

/// Asks each of these. Returns whether the editor was interrupted.
fn ask_each(
    rt: &impl Abort,
    alloc: Global,
    town: &mut Town,
    ledger: &mut Ledger,
    flight: &mut Flight,
    asks: &[Ask],
) -> bool {
    for &ask in asks {
        match town.answer(rt, alloc, ledger, ask) {
            Some(status) => {
                let heard = hear(rt, flight, ledger, ask, status);
                ensure(rt, heard != Heard::Refused, ask);
            }
            None => return true,
        }
    }
    false
}

/// Sends what is on its way. Returns whether the editor was interrupted.
fn fly(
    rt: &impl Abort,
    alloc: Global,
    town: &mut Town,
    ledger: &mut Ledger,
    flight: &mut Flight,
) -> bool {
    for _ in 0..100 {
        if ledger.is_idle() {
            return false;
        }
        let asks = asks(rt, alloc, flight, ledger);
        if ask_each(rt, alloc, town, ledger, flight, asks.as_slice()) {
            return true;
        }
        town.decide(rt);
    }
    panic!(rt; "it comes to no end")
}

fn goes_on(rt: &impl Abort, alloc: Global, ledger: &mut Ledger, folder: &[&str]) -> bool {
    advance(alloc, ledger, folder).expect(rt, "memory") != Stage::Done
}

/// Publishes a folder, and saves the ledger in the file. Returns whether the editor was interrupted.
fn go(
    rt: &impl Abort,
    alloc: Global,
    town: &mut Town,
    ledger: &mut Ledger,
    file: &mut String,
    folder: &[&str],
) -> bool {
    for _ in 0..10 {
        if !goes_on(rt, alloc, ledger, folder) {
            return false;
        }
        save(rt, alloc, ledger, file);
        let is_cut = fly(rt, alloc, town, ledger, &mut Flight::new(alloc));
        if is_cut {
            return true;
        }
        save(rt, alloc, ledger, file);
    }
    panic!(rt; "it comes to no end")
}

/// Publishes a folder from the saved file.
fn publish(
    rt: &impl Abort,
    alloc: Global,
    town: &mut Town,
    file: &mut String,
    folder: &[&str],
) -> bool {
    let mut ledger = read(rt, alloc, file.as_str());
    go(rt, alloc, town, &mut ledger, file, folder)
}

/// What the group shows: the last text of each kind and name.
type Site = BTreeMap<String, String>;

fn put(rt: &impl Abort, alloc: Global, site: &mut Site, key: String, text: &str) {
    let text = String::from_str(alloc, text).expect(rt, "memory");
    ensure(rt, site.insert(key, text).is_ok(), 0);
}

/// Applies a command that puts a name of a kind, or removes it.
fn show(rt: &impl Abort, alloc: Global, site: &mut Site, words: (&str, &str, &str), text: &str) {
    let (verb, kind, name) = words;
    let key = format!(in alloc; "{kind} {name}").expect(rt, "memory");
    if verb == "put" {
        put(rt, alloc, site, key, text);
    } else {
        let _ = site.remove(key.as_str());
    }
}

fn words_of<'a>(rt: &impl Abort, alloc: Global, text: &'a str) -> Vec<&'a str> {
    text.split_ascii_whitespace()
        .collect(alloc)
        .expect(rt, "memory")
}

fn show_text(rt: &impl Abort, alloc: Global, site: &mut Site, text: &str) {
    let words = words_of(rt, alloc, text);
    if let [verb, kind, name, ..] = words.as_slice() {
        show(rt, alloc, site, (verb, kind, name), text);
    }
}

fn show_all(rt: &impl Abort, alloc: Global, site: &mut Site, town: &Town) {
    for (_, text) in town.known.iter() {
        show_text(rt, alloc, site, text.as_str());
    }
}

/// A site in a line.
fn line_of(alloc: Global, site: &Site) -> Result<String, AllocError> {
    let mut line = String::new(alloc);
    for (_, text) in site.iter() {
        line.push_str(text.as_str().trim_end())?;
        line.push_str("; ")?;
    }
    Ok(line)
}

/// Checks that the group shows this site, in a line.
fn is_shown(rt: &impl Abort, alloc: Global, town: &Town, wanted: &str) {
    let mut site = BTreeMap::new(alloc);
    show_all(rt, alloc, &mut site, town);
    let line = line_of(alloc, &site).expect(rt, "memory");
    same(rt, line.as_str(), wanted);
}

/// Checks that each given command has its receipt, and is released.
fn is_whole(rt: &impl Abort, town: &Town, ledger: &Ledger) {
    let is_shown = ledger.is_idle() && !ledger.has_unshown();
    ensure(rt, is_shown, ledger.next());
    same(rt, town.known.len() as u64, ledger.next().saturating_sub(1));
}

/// The site of the second folder.
const SHOWN: &str = "put data a\n2; put route /b t a; put template t\nx; ";

fn interrupt(rt: &impl Abort, alloc: Global, town: &mut Town) {
    let mut file = new_file(rt, alloc);
    let _ = publish(rt, alloc, town, &mut file, FIRST);
    town.left = 100;
    same(rt, publish(rt, alloc, town, &mut file, SECOND), false);
    is_shown(rt, alloc, town, SHOWN);
    is_whole(rt, town, &read(rt, alloc, file.as_str()));
}

#[test]
fn interrupted(rt: HostRuntime) {
    for left in 0..16 {
        let mut town = Town {
            known: BTreeMap::new(rt.alloc()),
            waiting: BTreeMap::new(rt.alloc()),
            left,
        };
        interrupt(&rt, rt.alloc(), &mut town);
    }
}

/// A request, a status, and what the status means.
const HEARD: &[(Ask, u16, Heard)] = &[
    (Ask::Receipt(1), 200, Heard::Received),
    (Ask::Receipt(1), 404, Heard::Waits),
    (Ask::Receipt(1), 503, Heard::Nothing),
    (Ask::Receipt(1), 301, Heard::Nothing),
    (Ask::Submit(1), 200, Heard::Taken),
    (Ask::Submit(1), 202, Heard::Taken),
    (Ask::Submit(1), 503, Heard::Waits),
    (Ask::Submit(1), 400, Heard::Refused),
    (Ask::Submit(1), 422, Heard::Refused),
    (Ask::Submit(1), 499, Heard::Refused),
    (Ask::Submit(1), 500, Heard::Nothing),
    (Ask::Submit(1), 399, Heard::Nothing),
];

/// The file of a ledger whose release is on its way.
const ONE_SENT: &str = "published 2\neditor 7\nnext 2\nlast_release 0\nsent 1 8\nrelease\n\n";

fn hears(rt: &impl Abort, alloc: Global, ask: Ask, status: u16, wanted: Heard) {
    let mut ledger = read_lines(rt, alloc, ONE_SENT);
    let heard = hear(rt, &mut Flight::new(alloc), &mut ledger, ask, status);
    ensure(rt, heard == wanted, status);
    ensure(rt, ledger.is_idle() == (wanted == Heard::Received), status);
}

#[test]
fn heard(rt: HostRuntime) {
    for &(ask, status, wanted) in HEARD {
        hears(&rt, rt.alloc(), ask, status, wanted);
    }
}
