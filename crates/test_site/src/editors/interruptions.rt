//! A publication that is interrupted after each of its commands, and goes on from the file with another
//! folder.
use crate::comparing::same;
use crate::editors::ledgers::{kept, new_file, plan, plan_release, read, receive, save};
use crate::editors::tickets::{Texts, has, keep};
use editor_ledger::Ledger;
use std::alloc::Global;
use std::collections::BTreeMap;
use std::process::Abort;

/// A group as an editor sees it: the text of each given ticket, and how many commands it accepts before the
/// editor is interrupted.
#[derive(Drop)]
struct Town {
    given: Texts,
    left: usize,
}

impl Town {
    /// Accepts a command, unless the editor is interrupted before. Returns whether it did.
    fn post(&mut self, rt: &impl Abort, alloc: Global, number: u64, text: &str) -> bool {
        if self.left == 0 {
            return false;
        }
        self.left -= 1;
        if !has(rt, &self.given, number, text) {
            keep(rt, alloc, &mut self.given, number, text);
        }
        true
    }
}

/// Sends the first command that is on its way. Returns its number, or `None` if the editor is interrupted
/// before.
fn post_first(rt: &impl Abort, alloc: Global, town: &mut Town, ledger: &Ledger) -> Option<u64> {
    let sent = ledger.sent().first()?;
    if town.post(rt, alloc, sent.number, sent.text.as_str()) {
        Some(sent.number)
    } else {
        None
    }
}

/// Sends what is on its way, and notes each receipt.
fn deliver(rt: &impl Abort, alloc: Global, town: &mut Town, ledger: &mut Ledger) -> bool {
    for _ in 0..ledger.sent().len() {
        match post_first(rt, alloc, town, ledger) {
            Some(number) => receive(rt, ledger, number),
            None => return false,
        }
    }
    true
}

/// The same, and saves the ledger once each command has its receipt.
fn send(
    rt: &impl Abort,
    alloc: Global,
    town: &mut Town,
    ledger: &mut Ledger,
    file: &mut String,
) -> bool {
    let sent = deliver(rt, alloc, town, ledger);
    if sent {
        save(rt, alloc, ledger, file);
    }
    sent
}

/// Goes on with what is on its way, plans and sends a folder, and then its release. Returns whether it
/// reached the end.
fn go_on(
    rt: &impl Abort,
    alloc: Global,
    town: &mut Town,
    ledger: &mut Ledger,
    file: &mut String,
    folder: &str,
) -> bool {
    if !send(rt, alloc, town, ledger, file) {
        return false;
    }
    plan(rt, alloc, ledger, folder);
    save(rt, alloc, ledger, file);
    if !send(rt, alloc, town, ledger, file) {
        return false;
    }
    plan_release(rt, alloc, ledger);
    save(rt, alloc, ledger, file);
    send(rt, alloc, town, ledger, file)
}

/// Publishes a folder from the saved file.
fn publish(
    rt: &impl Abort,
    alloc: Global,
    town: &mut Town,
    file: &mut String,
    folder: &str,
) -> bool {
    let mut ledger = read(rt, alloc, file.as_str());
    go_on(rt, alloc, town, &mut ledger, file, folder)
}

/// After how many commands the first run ends, whether it was at its end, and the next ticket's number once
/// the second folder is published. A planned release is sent, too.
const RUNS: &[(usize, bool, u64)] = &[
    (0, false, 7),
    (1, false, 7),
    (2, false, 7),
    (3, false, 8),
    (4, true, 8),
    (5, true, 8),
];

/// Checks that the group has what the second folder has.
fn is_published(rt: &impl Abort, alloc: Global, file: &str, next: u64) {
    let ledger = read(rt, alloc, file);
    same(rt, ledger.next(), next);
    let has = kept(alloc, &ledger).expect(rt, "memory");
    same(rt, has.as_str(), "TBr");
}

fn interrupt(rt: &impl Abort, alloc: Global, town: &mut Town, ends: bool, next: u64) {
    let mut file = new_file(rt, alloc);
    same(rt, publish(rt, alloc, town, &mut file, "TAR"), ends);
    town.left = 20;
    same(rt, publish(rt, alloc, town, &mut file, "TB"), true);
    is_published(rt, alloc, file.as_str(), next);
    same(rt, town.given.len() as u64, next.saturating_sub(1));
}

#[test]
fn interrupted(rt: HostRuntime) {
    for &(after, ends, next) in RUNS {
        let mut town = Town {
            given: BTreeMap::new(rt.alloc()),
            left: after,
        };
        interrupt(&rt, rt.alloc(), &mut town, ends, next);
    }
}
