//! Commands as rows: their values, and the answers to them.
use crate::comparing::same;
use command::write;
use content::Applied;
use site_ids::Ticket;
use std::alloc::{AllocError, Global};
use std::process::Abort;

/// A command by its ticket's number, and the answer to it.
pub(crate) type Row = (u64, &'static str, Applied);

/// The sixth repeats the first one's ticket.
pub(crate) const COMMANDS: &[Row] = &[
    (1, "put template t\nv1\n", Applied::Changed),
    (2, "put data d\n{}", Applied::Changed),
    (3, "put route / t d\n", Applied::Changed),
    (4, "release\n", Applied::Released),
    (5, "put template t\nv2\n", Applied::Changed),
    (1, "release\n", Applied::Repeat),
    (6, "remove template t\n", Applied::Changed),
    (7, "release\n", Applied::Released),
];

pub(crate) fn ticket(number: u64) -> Ticket {
    Ticket { editor: 1, number }
}

pub(crate) fn value_of(rt: &impl Abort, alloc: Global, number: u64, text: &str) -> Vec<u8> {
    write(alloc, ticket(number), text.as_bytes()).expect(rt, "memory")
}

/// Checks the answer to a command.
pub(crate) fn is_answered(
    rt: &impl Abort,
    text: &str,
    answer: Result<Applied, AllocError>,
    applied: Applied,
) {
    same(rt, (text, answer), (text, Ok(applied)));
}
