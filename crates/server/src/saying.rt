//! What a server reports of its work.

ghost use Rattle.std.specs.Prelude.{◌≡◌, IfOk, true, string_bytes};
ghost use Rattle.http_read.specs.Bytes.{end_of};
ghost use Rattle.server_notes.specs.Lines.{line_of_note};
ghost use Rattle.server.specs.Noted.{HasNoted};
ghost use Rattle.server.specs.Running.{ReadyEnds, DoneEnds};

use crate::figures::take_figures;
use crate::watch::Watch;
use engine_common::give;
use http_read::{Counted, write_all};
use server_faults::{ServeOptions, ServerFault};
use server_notes::Note;
use std::alloc::{AllocError, Global};
use std::fs::File;
use std::io::Write;
use std::rt::Files;

/// The line of a note.
fn note_line(alloc: Global, note: &Note) -> Result<String, AllocError>
    ensures { IfOk result (λ text. string_bytes text ≡ line_of_note note.now) }
{
    format!(in alloc; "{note}\n")
}

/// Writes the line of a note. A failure of that, or of an allocation, is ignored.
fn tell_note<E: Write>(alloc: Global, err: &mut Counted<E>, note: &Note)
    ensures { HasNoted true (end_of E.contents err.old err.new) }
{
    if let Ok(line) = note_line(alloc, note) {
        give(err, line.as_str());
    }
}

/// Writes all that is to be reported after a pass, if the options ask for that: at most one line of each of
/// the fourteen kinds.
pub(crate) fn tell_notes<R: Files<File = File>, E: Write>(
    rt: &R,
    alloc: Global,
    err: &mut Counted<E>,
    watch: &mut Watch,
    options: &ServeOptions<'_>,
)
    ensures { HasNoted options.now.verbose (end_of E.contents err.old err.new) }
{
    if !options.verbose {
        return;
    }
    if watch.is_hour() {
        watch.figure(take_figures(rt, options.record));
    }
    for _ in 0..14 {
        match watch.next() {
            Some(note) => tell_note(alloc, err, &note),
            None => return,
        }
    }
}

/// Says that the node is ready.
pub(crate) fn say_ready<W: Write>(
    alloc: Global,
    out: &mut Counted<W>,
    node: u8,
) -> Result<(), ServerFault>
    ensures { ReadyEnds (end_of W.contents out.old out.new) node result }
{
    let line = format!(in alloc; "node {node} ready\n")?;
    match write_all(out, line.as_bytes()) {
        Ok(()) => Ok(()),
        Err(_) => Err(ServerFault::Write),
    }
}

/// Says that all laps are done.
pub(crate) fn say_done<W: Write>(out: &mut Counted<W>) -> Result<(), ServerFault>
    ensures { DoneEnds (end_of W.contents out.old out.new) result }
{
    match write_all(out, b"rounds done\n") {
        Ok(()) => Ok(()),
        Err(_) => Err(ServerFault::Write),
    }
}
