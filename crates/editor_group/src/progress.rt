//! What is printed while commands are on their way. `editor_plan` says when.

use crate::answering::silent_nodes;
use crate::group::Group;
use editor_common::{TalkFault, say_made};
use editor_files::Saved;
use editor_plan::{Came, Progress};
use std::io::Write;
use std::net::{Net, TcpStream};
use std::rt::{Clock, Files};

/// How many milliseconds nodes have to answer before they are named as silent.
const NAMING: u64 = 1_000;

/// Prints that no command comes into the log, and which nodes do not answer.
fn tell_silence<R: Net<Stream = TcpStream> + Clock + AllocGlobal, E: Write>(
    rt: &R,
    err: &mut E,
    group: &Group,
) -> Result<(), TalkFault> {
    let alloc = rt.alloc();
    let silent = silent_nodes(rt, group, NAMING)?;
    let line = if silent.is_empty() {
        format!(in alloc;
            "no command came into the log for 2 seconds, though each node that is named answers: waiting for \
             a majority, or the node that has the commands is mute"
        )
    } else {
        format!(in alloc;
            "no command came into the log for 2 seconds: waiting for a majority; no answer from{silent}"
        )
    };
    say_made(err, line)
}

/// Prints how many commands have their receipts, and saves the ledger if enough came since it was last saved.
fn tell_count<R: Files + AllocGlobal, E: Write>(
    rt: &R,
    err: &mut E,
    saved: &Saved<'_>,
    progress: &mut Progress,
    has: usize,
) -> Result<(), TalkFault> {
    let all = progress.all();
    say_made(err, format!(in rt.alloc(); "{has} of {all} commands"))?;
    if progress.keeps(has) {
        // If this fails the delivery goes on: the ledger is saved at its end too, and a fault is reported
        // there.
        drop(saved.keep(rt));
    }
    Ok(())
}

/// Prints how far a delivery is, if it is time to. `came` is what came of the last exchange.
pub(crate) fn tell_progress<R: Net<Stream = TcpStream> + Files + Clock + AllocGlobal, E: Write>(
    rt: &R,
    err: &mut E,
    group: &Group,
    saved: &Saved<'_>,
    progress: &mut Progress,
    now: u64,
    came: Came,
) -> Result<(), TalkFault> {
    let left = saved.ledger().sent().len();
    if let Some(has) = progress.count(now, left) {
        tell_count(rt, err, saved, progress, has)?;
    }
    if progress.falls_silent(now, came) {
        tell_silence(rt, err, group)?;
    }
    Ok(())
}
