//! The passes of a server's laps: what has come is taken in one step, and what goes out is sent.
//!
//! Laps count no failure of the device unless they end as stopped, since a node that was stopped before ends
//! with the same fault.

ghost use Rattle.std.specs.Prelude.{◌≡◌, ◌⊎◌, IfErr, OnOk};
ghost use Rattle.http_read.specs.Bytes.{end_of};
ghost use Rattle.node.specs.Standing.{failures};
ghost use Rattle.site_drive.specs.Batches.{LeadsSealed};
ghost use Rattle.site_drive.specs.Leading.{StaysWhose};
ghost use Rattle.server_faults.specs.ServerFaults.{CountsNone, EndsLaps};
ghost use Rattle.server.specs.Noted.{HasNoted};
ghost use Rattle.server.specs.Passes.{Led, TakesPass, TakesPasses, BreaksPass, BreaksPasses, LosesPass};
ghost use Rattle.server.specs.Passes.{LosesPasses};

use crate::saying::tell_notes;
use crate::server::{Server, Stepped};
use crate::shell::Shell;
use http_read::Counted;
use server_faults::{ServeOptions, ServerFault};
use site_disk::Disk;
use std::alloc::Global;
use std::fs::File;
use std::io::Write;
use std::net::TcpStream;
use std::rt::{Clock, Files};

/// Rests after a step, if it is time to.
fn rest_behind<D: Disk + Drop, C: Clock>(
    clock: &C,
    shell: &mut Shell,
    server: &mut Server<D, TcpStream>,
    stepped: Stepped,
    moved: bool,
)
    ensures { server.new.served ≡ server.old.served }
{
    if let Some(rest) = server.rest(stepped, moved) {
        shell.rest(clock, rest, &mut server.mail);
    }
}

/// One pass. If nothing came and nothing went, it rests.
fn take_pass<D: Disk + Drop, C: Clock>(
    clock: &C,
    shell: &mut Shell,
    server: &mut Server<D, TcpStream>,
) -> Result<(), ServerFault>
    ensures ok { OnOk result
        (LeadsSealed D.stands_for server.old.served.node server.new.served.node
        (TakesPass server.old.served.node.cluster server.old.served.node.me
        server.new.served.node.releases)) }
    ensures fault { IfErr result (λ why.
        LeadsSealed D.stands_for server.old.served.node server.new.served.node
        (BreaksPass server.old.served.node.cluster server.old.served.node.me why)
        ⊎ LosesPass D.stands_for server.old.served.node server.new.served.node why) }
    ensures ends { IfErr result EndsLaps }
    ensures whose { StaysWhose server.old.served.node server.new.served.node }
    ensures counts { CountsNone result (failures D.failed server.old.served.node)
        (failures D.failed server.new.served.node) }
{
    let now = shell.now(clock);
    let heard = shell.take_in(&mut server.mail, &mut server.seats, now)?;
    let stepped = server.step(now)?;
    let told = shell.give_out(&mut server.mail, &mut server.seats, now);
    let left = server.is_returning(now);
    let dropped = shell.part(&mut server.seats, now, left);
    let node = &server.served.node;
    shell
        .watch
        .pass(now, node.known(), node.reached(), node.newest(), stepped);
    rest_behind(clock, shell, server, stepped, heard || told || dropped);
    Ok(())
}

/// Takes `count` passes, and reports after each what is due.
pub(crate) fn take_passes<D: Disk + Drop, R: Files<File = File> + Clock, E: Write>(
    rt: &R,
    alloc: Global,
    err: &mut Counted<E>,
    shell: &mut Shell,
    server: &mut Server<D, TcpStream>,
    count: u64,
    options: &ServeOptions<'_>,
) -> Result<(), ServerFault>
    ensures ok { OnOk result
        (Led D.stands_for server.old.served.node server.new.served.node
        (TakesPasses server.old.served.node.cluster server.old.served.node.me count
        server.new.served.node.releases)) }
    ensures fault { IfErr result (λ why. Led D.stands_for server.old.served.node server.new.served.node
        (BreaksPasses server.old.served.node.cluster server.old.served.node.me count why)
        ⊎ LosesPasses D.stands_for server.old.served.node server.new.served.node count why) }
    ensures ends { IfErr result EndsLaps }
    ensures whose { StaysWhose server.old.served.node server.new.served.node }
    ensures counts { CountsNone result (failures D.failed server.old.served.node)
        (failures D.failed server.new.served.node) }
    ensures noted { HasNoted options.now.verbose (end_of E.contents err.old err.new) }
{
    for _ in 0..count {
        take_pass(rt, shell, server)?;
        tell_notes(rt, alloc, err, &mut shell.watch, options);
    }
    Ok(())
}
