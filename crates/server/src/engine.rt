//! A server: its parts opened in order, and its laps.

ghost use Rattle.std.specs.Prelude.{◌≡◌, IfOk, OnOk, IfErr, length};
ghost use Rattle.http_read.specs.Bytes.{end_of};
ghost use Rattle.server_faults.specs.ServerFaults.{EndsOpening};
ghost use Rattle.site_ids.specs.Ids.{IsNode};
ghost use Rattle.server.specs.Placing.{IsPlaced};
ghost use Rattle.server.specs.Passes.{TakesPasses, EndsWork, passes_of};
ghost use Rattle.server.specs.Runs.{IsOpened, IsRun};
ghost use Rattle.server.specs.Running.{EndsBefore, WorkEnds, RunEnds, HasServed};

use crate::addresses::read_addresses;
use crate::making::{Making, read_making};
use crate::openings::open_node;
use crate::passes::take_passes;
use crate::recorded::Recorded;
use crate::saying::{say_done, say_ready};
use crate::server::Server;
use crate::shell::Shell;
use crate::sockets::open_sockets;
use http_read::Counted;
use server_faults::{Cause, ServeOptions, ServerFault, say, say_why};
use server_notes::Notes;
use server_pace::Times;
use site_disk::{Disk, FileDisk};
use site_drive::Desk;
use site_ids::{Cluster, MAX_INSTANCE, NodeId};
use std::alloc::Global;
use std::fs::File;
use std::io::Write;
use std::net::{Net, TcpListener, TcpStream};
use std::rt::{Clock, Files};

type FileServer = Server<FileDisk, TcpStream>;

/// The server in a box. Whoever owns a server is proved to drop it, and a box is dropped in one step.
fn boxed(alloc: Global, server: FileServer) -> Result<Box<FileServer>, ServerFault>
    ensures kept { IfOk result (λ boxed. boxed.value ≡ server) }
    ensures fault { IfErr result EndsOpening }
{
    match Box::new(alloc, server) {
        Ok(boxed) => Ok(boxed),
        Err(server) => {
            drop(server);
            Err(ServerFault::OutOfMemory)
        }
    }
}

/// How many bytes the file of a running server's record is longer than what it records, so that few syncs
/// write the file system's journal too. At the most commits a second that were measured the file grows ten
/// times a second.
const ROOM: u64 = 262_144;

/// A server of the node over the record, and at how many instances the record has a vote.
fn open_server<R: Files<File = File>>(
    rt: &R,
    alloc: Global,
    cluster: Cluster,
    me: NodeId,
    times: Times,
    making: Making,
    record: &str,
    cause: &mut Cause,
) -> Result<(Box<FileServer>, u32), ServerFault>
    requires { IsNode cluster me }
    ensures opened { IfOk result (λ parts.
        IsOpened ⟦<FileDisk as Disk>⟧.stands_for cluster me parts.0.value.served.node) }
    ensures fault { IfErr result EndsOpening }
{
    let desk = Desk::new(alloc)?.with_room(ROOM);
    let served = open_node(rt, alloc, cluster, me, record, making, cause)?;
    let recorded = Recorded::of(&served.node, MAX_INSTANCE);
    let server = Server::new(alloc, me, served, desk, times, recorded);
    Ok((boxed(alloc, server)?, recorded.votes))
}

/// Opens the record and then the sockets.
fn open<R: Net<Listener = TcpListener, Stream = TcpStream> + Files<File = File> + Clock>(
    rt: &R,
    alloc: Global,
    options: &ServeOptions<'_>,
    cause: &mut Cause,
) -> Result<(Box<FileServer>, Shell), ServerFault>
    ensures ok { OnOk result (IsPlaced options.now) }
    ensures opened { IfOk result (λ parts. IsOpened ⟦<FileDisk as Disk>⟧.stands_for
        (length options.now.peers.items) options.now.id parts.0.value.served.node) }
    ensures err { IfErr result (λ why. EndsBefore options.now why) }
{
    let addresses = read_addresses(alloc, options)?;
    let (cluster, me) = (addresses.cluster, addresses.me);
    let making = read_making(alloc, cluster, me, options)?;
    let times = Times::new(options.patience, options.serve_ms);
    let (server, votes) = open_server(
        rt,
        alloc,
        cluster,
        me,
        times,
        making,
        options.record,
        cause,
    )?;
    let notes = Notes::new(cluster, me, votes, server.served.node.floor());
    let shell = open_sockets(rt, alloc, addresses, times, notes, cause)?;
    Ok((server, shell))
}

/// How many passes these laps of a node are.
fn count_passes(node: u8, rounds: u32) -> u64
    ensures { result ≡ passes_of node rounds }
{
    u64::from(rounds) * (40 + 10 * u64::from(node))
}

/// Says that the node is ready, takes this many passes, and says that its laps are done.
fn work<R: Files<File = File> + Clock, W: Write, E: Write>(
    rt: &R,
    alloc: Global,
    out: &mut Counted<W>,
    err: &mut Counted<E>,
    shell: &mut Shell,
    server: &mut FileServer,
    count: u64,
    options: &ServeOptions<'_>,
) -> Result<(), ServerFault>
    ensures said { WorkEnds options.now.verbose (end_of W.contents out.old out.new)
        (end_of E.contents err.old err.new) options.now.id result }
    ensures laps { EndsWork ⟦<FileDisk as Disk>⟧.stands_for count server.old.served.node
        server.new.served.node result }
{
    say_ready(alloc, out, options.id)?;
    take_passes(rt, alloc, err, shell, server, count, options)?;
    say_done(out)
}

/// Does a node's work, with the laps that were asked for.
fn start<R: Files<File = File> + Clock, W: Write, E: Write>(
    rt: &R,
    alloc: Global,
    out: &mut Counted<W>,
    err: &mut Counted<E>,
    shell: &mut Shell,
    server: &mut FileServer,
    options: &ServeOptions<'_>,
) -> Result<(), ServerFault>
    ensures said { WorkEnds options.now.verbose (end_of W.contents out.old out.new)
        (end_of E.contents err.old err.new) options.now.id result }
    ensures laps { EndsWork ⟦<FileDisk as Disk>⟧.stands_for (passes_of options.now.id options.now.rounds)
        server.old.served.node server.new.served.node result }
{
    let count = count_passes(options.id, options.rounds);
    work(rt, alloc, out, err, shell, server, count, options)
}

/// Opens a node, and does its work.
fn run<
    R: Net<Listener = TcpListener, Stream = TcpStream> + Files<File = File> + Clock,
    W: Write,
    E: Write,
>(
    rt: &R,
    alloc: Global,
    out: &mut Counted<W>,
    err: &mut Counted<E>,
    options: &ServeOptions<'_>,
    cause: &mut Cause,
) -> Result<(), ServerFault>
    ensures said { RunEnds (end_of W.contents out.old out.new)
        (end_of E.contents err.old err.new) options.now result }
    ensures laps { OnOk result (IsRun ⟦<FileDisk as Disk>⟧.stands_for
        (length options.now.peers.items) options.now.id
        (TakesPasses (length options.now.peers.items) options.now.id
        (passes_of options.now.id options.now.rounds))) }
{
    let (mut server, mut shell) = open(rt, alloc, options, cause)?;
    let done = start(rt, alloc, out, err, &mut shell, &mut *server, options);
    cause.error = server.served.node.disk().last_failure();
    done
}

/// Runs a node for its laps, and returns the exit status.
pub fn sited<
    R: Net<Listener = TcpListener, Stream = TcpStream> + Files<File = File> + Clock,
    W: Write,
    E: Write,
>(
    rt: &R,
    alloc: Global,
    out: &mut Counted<W>,
    err: &mut Counted<E>,
    options: &ServeOptions<'_>,
) -> u8
    ensures said { HasServed (end_of W.contents out.old out.new)
        (end_of E.contents err.old err.new) options.now result }
    ensures laps { result ≡ 0
        → IsRun ⟦<FileDisk as Disk>⟧.stands_for (length options.now.peers.items) options.now.id
        (TakesPasses (length options.now.peers.items) options.now.id
        (passes_of options.now.id options.now.rounds)) }
{
    let mut cause = Cause::none();
    match run(rt, alloc, out, err, options, &mut cause) {
        Ok(()) => 0,
        Err(fault) => {
            let status = say(alloc, err, fault);
            say_why(alloc, err, options, fault, &cause);
            status
        }
    }
}
