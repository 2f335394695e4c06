//! Whose turn it is to tell: each rule as a table.
use crate::comparing::same;
use crate::group::{node_of, nodes_of};
use server_pace::{Present, Times};
use std::process::Abort;

/// The nodes that were heard at 1000, those that were heard at 2500, who asks, how often it asked in a row
/// for nothing more; and who tells it at 3000.
type Row = (&'static [u8], &'static [u8], u8, u32, &'static [u8]);

const ROWS: &[Row] = &[
    // A node always tells itself.
    (&[], &[1, 2, 3, 4, 5], 5, 0, &[1, 5]),
    (&[], &[1, 2, 3, 4, 5], 1, 0, &[1, 2]),
    (&[], &[1, 2, 3, 4, 5], 3, 0, &[3, 4]),
    // Each question in vain brings in the next node.
    (&[], &[1, 2, 3, 4, 5], 3, 1, &[3, 4, 5]),
    (&[], &[1, 2, 3, 4, 5], 3, 2, &[1, 3, 4, 5]),
    (&[], &[1, 2, 3, 4, 5], 3, 3, &[1, 2, 3, 4, 5]),
    (&[], &[1, 2, 3, 4, 5], 3, u32::MAX, &[1, 2, 3, 4, 5]),
    // A node that falls silent is ignored; it does not know that it did.
    (&[4], &[1, 2, 3, 5], 3, 0, &[3, 4, 5]),
    (&[4, 5], &[1, 2, 3], 3, 0, &[1, 3, 4, 5]),
    (&[4, 5], &[1, 2, 3], 3, 1, &[1, 2, 3, 4, 5]),
    (&[1, 2, 3, 4, 5], &[], 3, 0, &[1, 2, 3, 4, 5]),
];

fn check(rt: &impl Abort, &(then, since, asks, repeats, tell): &Row) {
    let times = Times::new(None, None);
    let mut present = Present::new();
    present.hear(nodes_of(rt, then));
    present.note(1000);
    present.hear(nodes_of(rt, since));
    present.note(2500);
    let to = node_of(rt, 9, asks);
    for number in 1..=5 {
        let me = node_of(rt, 9, number);
        let turn = present.has_turn(times, 3000, to, me, repeats);
        same(
            rt,
            (asks, repeats, number, turn),
            (asks, repeats, number, tell.contains(&number)),
        );
    }
}

#[test]
fn one_tells_and_the_others_when_it_falls_silent(rt: HostRuntime) {
    for row in ROWS {
        check(&rt, row);
    }
}

#[test]
fn a_node_is_silent_after_its_time(rt: HostRuntime) {
    let times = Times::new(None, None);
    let mut present = Present::new();
    present.hear(nodes_of(&rt, &[1]));
    present.note(1000);
    let (to, me) = (node_of(&rt, 3, 3), node_of(&rt, 3, 2));
    for (now, turn) in [(1000, false), (2999, false), (3000, true)] {
        same(
            &rt,
            (now, present.has_turn(times, now, to, me, 0)),
            (now, turn),
        );
    }
}
