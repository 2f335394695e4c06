//! What a group's newest release may show of a folder after interrupted runs, what a publication may change
//! there, and what those runs left, as a table.
use crate::comparing::same;
use crate::editors::ledgers::{commands, letters_of, plan, plan_release, receive};
use editor_ledger::Ledger;
use editor_plan::{LeftOver, left_by, states_of, touched};
use std::alloc::{AllocError, Global};
use std::process::Abort;

/// A folder's publications, and their results, a letter for each command.
#[derive(Clone, Copy)]
struct Row {
    /// The texts that are planned one after the other, or a release (`!`), and how many of each plan receive
    /// their receipts.
    plans: &'static [(&'static str, u64)],
    /// The folder's texts in each state.
    states: &'static str,
    /// The folder as it is published next, and what that touches.
    wanted: &'static str,
    touched: &'static str,
    /// How many commands are in the log, and on their way.
    left: (u64, usize),
}

const ROWS: &[Row] = &[
    Row {
        plans: &[],
        states: "",
        wanted: "TA",
        touched: "TA",
        left: (0, 0),
    },
    // The first run is interrupted: the release may show nothing of it, what has its receipts, or all.
    Row {
        plans: &[("TA", 1)],
        states: "ta|T|TA",
        wanted: "TA",
        touched: "taA",
        left: (1, 1),
    },
    Row {
        plans: &[("TA", 2), ("!", 0)],
        states: "ta|TA|TA!",
        wanted: "TA",
        touched: "ta",
        left: (2, 1),
    },
    // After a release it may show nothing else.
    Row {
        plans: &[("TA", 2), ("!", 1)],
        states: "TA",
        wanted: "TB",
        touched: "B",
        left: (0, 0),
    },
    // What is removed is touched, even if this folder never put it.
    Row {
        plans: &[("TA", 2), ("!", 1)],
        states: "TA",
        wanted: "T",
        touched: "a",
        left: (0, 0),
    },
    Row {
        plans: &[("TA", 2), ("!", 1)],
        states: "TA",
        wanted: "TAr",
        touched: "r",
        left: (0, 0),
    },
    Row {
        plans: &[("TA", 2), ("!", 1)],
        states: "TA",
        wanted: "TA",
        touched: "",
        left: (0, 0),
    },
    // A later run is interrupted, and then another run, whose folder differs.
    Row {
        plans: &[("TA", 2), ("!", 1), ("TB", 0)],
        states: "TA|TA|TAB",
        wanted: "TB",
        touched: "AB",
        left: (0, 1),
    },
    Row {
        plans: &[("TA", 2), ("!", 1), ("TB", 1)],
        states: "TA|TB|TB",
        wanted: "TB",
        touched: "A",
        left: (1, 0),
    },
    Row {
        plans: &[("TA", 2), ("!", 1), ("TB", 1), ("R", 1)],
        states: "ArT|rTB|TBR|TBRta",
        wanted: "R",
        touched: "ArTBta",
        left: (2, 2),
    },
];

/// Makes a plan, of which this many commands receive their receipts.
fn take(rt: &impl Abort, alloc: Global, ledger: &mut Ledger, letters: &str, received: u64) {
    if letters == "!" {
        plan_release(rt, alloc, ledger);
    } else {
        plan(rt, alloc, ledger, letters);
    }
    let first = ledger.next().saturating_sub(ledger.sent().len() as u64);
    for number in first..ledger.next().min(first.saturating_add(received)) {
        receive(rt, ledger, number);
    }
}

/// The letters of each state, with a bar between.
fn joined(alloc: Global, states: &[Vec<String>]) -> Result<String, AllocError> {
    let mut all = String::new(alloc);
    for (i, texts) in states.iter().enumerate() {
        if i != 0 {
            all.push('|')?;
        }
        all.push_str(letters_of(alloc, texts)?.as_str())?;
    }
    Ok(all)
}

fn states_told(alloc: Global, ledger: &Ledger) -> Result<String, AllocError> {
    joined(alloc, &states_of(alloc, ledger)?)
}

fn touched_told(alloc: Global, ledger: &Ledger, letters: &str) -> Result<String, AllocError> {
    let wanted = commands(alloc, letters)?;
    letters_of(alloc, &touched(alloc, ledger, &wanted)?)
}

fn is_as_told(rt: &impl Abort, alloc: Global, ledger: &Ledger, row: Row) {
    let states = states_told(alloc, ledger).expect(rt, "memory");
    same(rt, states.as_str(), row.states);
    let touched = touched_told(alloc, ledger, row.wanted).expect(rt, "memory");
    same(rt, touched.as_str(), row.touched);
    let (logged, on_their_way) = row.left;
    let left = LeftOver {
        logged,
        on_their_way,
    };
    same(rt, left_by(ledger), left);
    same(rt, left.is_none(), row.left == (0, 0));
}

#[test]
fn states_of_folders(rt: HostRuntime) {
    for &row in ROWS {
        let mut ledger = Ledger::new(rt.alloc(), 7);
        for &(letters, received) in row.plans {
            take(&rt, rt.alloc(), &mut ledger, letters, received);
        }
        is_as_told(&rt, rt.alloc(), &ledger, row);
    }
}
