//! Files of ledgers: what is written, what is read back, and the faults of others.
use crate::comparing::{ensure, same};
use crate::editors::ledgers::{is_spelled, plan, plan_release, read_lines, receive, sealed};
use editor_ledger::{Ledger, LedgerReadFault, Message, Released};
use std::alloc::Global;
use std::process::Abort;

/// The file of a ledger: a release with a message, a text that the group has, what the group had before each,
/// and two commands on their way.
const FILE: &str =
    "published 2\neditor 4294967295\nnext 5\nlast_release 2\nreleased_by 31 1764057600 1\ntold 31 6\nspring\nhas 16\nput template t\nx\nwas 1 18\nremove template t\n\nwas 3 14\nremove data a\n\nwas 3 16\nput template t\nx\nsent 3 13\nput data a\n1\n\nsent 4 18\nremove template t\n\n";

/// Lines that no ledger has (the last line with their sum is added), and the fault of each.
const LINES: &[(&str, LedgerReadFault)] = &[
    (
        "published 2\neditor 4294967296\nnext 1\nlast_release 0\n",
        LedgerReadFault::Line(2),
    ),
    (
        "published 2\neditor 07\nnext 1\nlast_release 0\n",
        LedgerReadFault::Line(2),
    ),
    (
        "published 2\neditor 7\nnext +1\nlast_release 0\n",
        LedgerReadFault::Line(3),
    ),
    (
        "published 2\neditor 7\nlast_release 0\nnext 1\n",
        LedgerReadFault::Line(3),
    ),
    (
        "published 2\neditor 7\nnext 1\nlast_release 0\n\n",
        LedgerReadFault::Line(5),
    ),
    (
        "published 2\neditor 7\nnext 1\nlast_release 0\r\n",
        LedgerReadFault::Line(4),
    ),
    (
        "published 2\neditor 7\nnext 2\nlast_release 0\nhas 4\nab\n",
        LedgerReadFault::Line(6),
    ),
    (
        "published 2\neditor 7\nnext 2\nlast_release 0\nhas 2\nabc\n",
        LedgerReadFault::Line(6),
    ),
    (
        "published 2\neditor 7\nnext 2\nlast_release 0\nhas 1\n\u{e4}\n",
        LedgerReadFault::Line(6),
    ),
    (
        "published 2\neditor 7\nnext 2\nlast_release 0\nhas 5\na\nb\nc\nhas x\n",
        LedgerReadFault::Line(9),
    ),
    (
        "published 2\neditor 7\nnext 2\nlast_release 0\nsent 1 1\na\nhas 1\nb\n",
        LedgerReadFault::Line(5),
    ),
    (
        "published 2\neditor 7\nnext 2\nlast_release 0\nreleased 1 2\n",
        LedgerReadFault::Line(5),
    ),
];

/// Whole files, and the fault of each, if it has one.
const FILES: &[(&str, Option<LedgerReadFault>)] = &[
    ("", Some(LedgerReadFault::Line(1))),
    ("published 2", Some(LedgerReadFault::Line(1))),
    (
        "published 1\neditor 1\nnext 1\nlast_release 0\n",
        Some(LedgerReadFault::Line(1)),
    ),
    (
        "editor 7\nnext 3\nhas 0123 put data a\n",
        Some(LedgerReadFault::Line(1)),
    ),
    (
        "published 2\neditor 7\nnext 1\nlast_release 0",
        Some(LedgerReadFault::Line(4)),
    ),
    // the sum of the four lines
    (
        "published 2\neditor 7\nnext 1\nlast_release 0\nend b35f22f51e38d8df4a65c44dcedd2152ecb0f1cb2b6f1aaa284a29e7f1c61008\n",
        None,
    ),
    // the sum of other lines, no sum, one that is cut short, one in capitals, one with an extra line
    (
        "published 2\neditor 8\nnext 1\nlast_release 0\nend b35f22f51e38d8df4a65c44dcedd2152ecb0f1cb2b6f1aaa284a29e7f1c61008\n",
        Some(LedgerReadFault::Sum),
    ),
    (
        "published 2\neditor 7\nnext 1\nlast_release 0\nend \n",
        Some(LedgerReadFault::Sum),
    ),
    (
        "published 2\neditor 7\nnext 1\nlast_release 0\nend b35f22f51e38d8df4a65c44dcedd2152ecb0f1cb2b6f1aaa284a29e7f1c61008",
        Some(LedgerReadFault::Sum),
    ),
    (
        "published 2\neditor 7\nnext 1\nlast_release 0\nend B35F22F51E38D8DF4A65C44DCEDD2152ECB0F1CB2B6F1AAA284A29E7F1C61008\n",
        Some(LedgerReadFault::Sum),
    ),
    (
        "published 2\neditor 7\nnext 1\nlast_release 0\nend b35f22f51e38d8df4a65c44dcedd2152ecb0f1cb2b6f1aaa284a29e7f1c61008\nhas 1\nb\n",
        Some(LedgerReadFault::Sum),
    ),
    // cut short after a line or an entry, or within the last line
    (
        "published 2\neditor 7\nnext 1\nlast_release 0\n",
        Some(LedgerReadFault::Line(5)),
    ),
    (
        "published 2\neditor 7\nnext 2\nlast_release 0\nhas 1\nb\n",
        Some(LedgerReadFault::Line(7)),
    ),
    (
        "published 2\neditor 7\nnext 1\nlast_release 0\nend\n",
        Some(LedgerReadFault::Line(5)),
    ),
];

/// The release of that file.
const RELEASED: Released = Released {
    release: 31,
    time: 1_764_057_600,
    commands: 1,
    exact: false,
};

/// A folder of one text and its release.
fn publish(rt: &impl Abort, alloc: Global, ledger: &mut Ledger) {
    plan(rt, alloc, ledger, "T");
    receive(rt, ledger, 1);
    plan_release(rt, alloc, ledger);
    receive(rt, ledger, 2);
    ensure(rt, ledger.note(RELEASED).is_ok(), RELEASED.release);
    say(rt, alloc, ledger);
}

/// Adds a message to that release.
fn say(rt: &impl Abort, alloc: Global, ledger: &mut Ledger) {
    let text = String::from_str(alloc, "spring").expect(rt, "memory");
    let message = Message { release: 31, text };
    ensure(rt, ledger.say(message).is_ok(), 31);
}

fn is_read_back(rt: &impl Abort, alloc: Global, ledger: &Ledger) {
    let again = read_lines(rt, alloc, FILE);
    is_spelled(rt, alloc, &again, FILE);
    assert!(rt; again.log() == ledger.log());
}

fn written(rt: &impl Abort, alloc: Global, ledger: &mut Ledger) {
    publish(rt, alloc, ledger);
    plan(rt, alloc, ledger, "A");
    is_spelled(rt, alloc, ledger, FILE);
    is_read_back(rt, alloc, ledger);
}

#[test]
fn written_and_read_back(rt: HostRuntime) {
    let mut ledger = Ledger::new(rt.alloc(), 4_294_967_295);
    written(&rt, rt.alloc(), &mut ledger);
}

/// The fault of a file, if it is not a ledger's.
fn fault_of(alloc: Global, text: &str) -> Option<LedgerReadFault> {
    Ledger::read(alloc, text).err()
}

/// The fault of lines that no ledger has; the last line with their sum is added.
fn fault_of_lines(rt: &impl Abort, alloc: Global, lines: &str) -> Option<LedgerReadFault> {
    let file = sealed(alloc, lines).expect(rt, "memory");
    fault_of(alloc, file.as_str())
}

#[test]
fn faults(rt: HostRuntime) {
    for &(lines, wanted) in LINES {
        let told = fault_of_lines(&rt, rt.alloc(), lines);
        same(&rt, (lines, told), (lines, Some(wanted)));
    }
    for &(file, wanted) in FILES {
        let told = fault_of(rt.alloc(), file);
        same(&rt, (file, told), (file, wanted));
    }
}
