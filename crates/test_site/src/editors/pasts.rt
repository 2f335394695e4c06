//! What the group had at a ticket, as a table.
use crate::comparing::same;
use crate::editors::ledgers::{letters_of, plan, plan_release, read, read_lines, receive, save};
use editor_ledger::Ledger;
use std::alloc::Global;
use std::process::Abort;

/// Folders that are published one after the other, a letter for each command; and the tickets of their
/// releases. Plans and releases take the numbers.
const FOLDERS: &[(&str, u64)] = &[("TA", 3), ("TB", 5), ("R", 9), ("TA", 13), ("", 16)];

/// Tickets, and the letters of what the group had when each was the last; the letters of removals are small.
const STOOD: &[(u64, &str)] = &[
    (0, "tar"),
    (3, "ArT"),
    (4, "rTB"),
    (5, "rTB"),
    (9, "taR"),
    (13, "rTA"),
    (16, "rta"),
    (99, "rta"),
];

/// Plans the folder, gives it its receipts, and releases it.
fn publish(rt: &impl Abort, alloc: Global, ledger: &mut Ledger, letters: &str, release: u64) {
    plan(rt, alloc, ledger, letters);
    let from = ledger.next().saturating_sub(ledger.sent().len() as u64);
    for number in from..ledger.next() {
        receive(rt, ledger, number);
    }
    plan_release(rt, alloc, ledger);
    same(rt, ledger.next(), release.saturating_add(1));
    receive(rt, ledger, release);
}

fn stands(rt: &impl Abort, alloc: Global, ledger: &Ledger, ticket: u64, wanted: &str) {
    let texts = ledger.texts_at(alloc, ticket).expect(rt, "memory");
    let letters = letters_of(alloc, &texts).expect(rt, "memory");
    same(rt, (ticket, letters.as_str()), (ticket, wanted));
    same(rt, ledger.reaches(ticket), true);
}

fn all_stand(rt: &impl Abort, alloc: Global, ledger: &Ledger) {
    for &(ticket, wanted) in STOOD {
        stands(rt, alloc, ledger, ticket, wanted);
    }
}

fn published(rt: &impl Abort, alloc: Global, ledger: &mut Ledger) {
    for &(letters, release) in FOLDERS {
        publish(rt, alloc, ledger, letters, release);
    }
}

#[test]
fn what_stood(rt: HostRuntime) {
    let mut ledger = Ledger::new(rt.alloc(), 7);
    published(&rt, rt.alloc(), &mut ledger);
    all_stand(&rt, rt.alloc(), &ledger);
    let mut file = String::new(rt.alloc());
    save(&rt, rt.alloc(), &ledger, &mut file);
    all_stand(&rt, rt.alloc(), &read(&rt, rt.alloc(), file.as_str()));
}

/// A file of an older version, which keeps nothing of what the group had: it reaches only its last release,
/// and each later one.
const BEFORE: &str = "published 2\neditor 7\nnext 9\nlast_release 8\nhas 16\nput template t\nx\n";

fn reaches(rt: &impl Abort, ledger: &Ledger, wanted: (bool, bool)) {
    same(rt, (ledger.reaches(7), ledger.reaches(8)), wanted);
}

#[test]
fn a_file_of_before(rt: HostRuntime) {
    let mut ledger = read_lines(&rt, rt.alloc(), BEFORE);
    reaches(&rt, &ledger, (false, true));
    publish(&rt, rt.alloc(), &mut ledger, "TA", 10);
    reaches(&rt, &ledger, (false, true));
    stands(&rt, rt.alloc(), &ledger, 8, "Ta");
}
