//! Opens a node over a record's file.

ghost use Rattle.std.specs.Prelude.{IfOk, IfErr};
ghost use Rattle.site_ids.specs.Ids.{IsNode};
ghost use Rattle.node.specs.Standing.{IsWhole};
ghost use Rattle.server_faults.specs.ServerFaults.{EndsOpening};
ghost use Rattle.server.specs.Making.{IsMade};
ghost use Rattle.server.specs.Runs.{IsOpened};

use crate::making::Making;
use durable::{Record, RecordFault};
use node::Node;
use server_clients::Served;
use server_faults::{Cause, ServerFault};
use site_disk::{Disk, FileDisk};
use site_ids::{Cluster, NodeId};
use std::alloc::Global;
use std::fs::{File, OpenOptions, TryLockError};
use std::io;
use std::path::Path;
use std::rt::Files;

/// The file, once only this process has it.
fn lock(file: File, cause: &mut Cause) -> Result<File, ServerFault>
    ensures { IfErr result EndsOpening }
{
    match file.try_lock() {
        Ok(()) => Ok(file),
        Err(TryLockError::WouldBlock) => {
            cause.locked = true;
            Err(ServerFault::Record(RecordFault::Device))
        }
        Err(TryLockError::Error(e)) => {
            cause.error = Some(e);
            Err(ServerFault::Record(RecordFault::Device))
        }
    }
}

/// The record's file. It is made if it is absent and that was asked for. Only this process has it as long as
/// it runs: two processes that write one record would damage it.
fn file<R: Files<File = File>>(
    rt: &R,
    path: &str,
    make: bool,
    cause: &mut Cause,
) -> Result<File, ServerFault>
    ensures { IfErr result EndsOpening }
{
    let opened = OpenOptions::new()
        .read(true)
        .write(true)
        .create(make)
        .open(rt, path);
    match opened {
        Ok(file) => lock(file, cause),
        Err(e) if e.kind() == io::ErrorKind::OutOfMemory => Err(ServerFault::OutOfMemory),
        Err(e) => {
            cause.error = Some(e);
            Err(ServerFault::Record(RecordFault::Device))
        }
    }
}

/// Syncs the folder of a file, so that a crash leaves the file in it.
fn sync_folder<R: Files<File = File>>(
    rt: &R,
    path: &str,
    cause: &mut Cause,
) -> Result<(), ServerFault>
    ensures { IfErr result EndsOpening }
{
    let folder = match Path::new(path).parent() {
        Some(folder) if !folder.as_str().is_empty() => folder.as_str(),
        _ => ".",
    };
    match File::open(rt, folder).and_then(|folder| folder.sync_all()) {
        Ok(()) => Ok(()),
        Err(e) => {
            cause.error = Some(e);
            Err(ServerFault::Record(RecordFault::Device))
        }
    }
}

/// Makes an empty file the record that is asked for, and returns whether it did. A file that is not empty
/// stays as it is: no record is made in its place. If a record with a floor is asked for, that is a fault.
fn make<D: Disk>(
    cluster: Cluster,
    me: NodeId,
    making: Making,
    disk: &mut D,
) -> Result<bool, RecordFault>
    ensures { IfOk result (IsMade D.stands_for disk.old disk.new cluster me making) }
{
    match making {
        Making::Nothing => Ok(false),
        Making::Empty => {
            let empty = disk.len()? == 0;
            if empty {
                Record::format(cluster, me, disk)?;
            }
            Ok(empty)
        }
        Making::Above(floor) => {
            Record::format_above(cluster, me, floor, disk)?;
            Ok(true)
        }
    }
}

/// The disk of a record at a path. If that was asked for, an empty or absent file becomes a record first.
fn open_disk<R: Files<File = File>>(
    rt: &R,
    cluster: Cluster,
    me: NodeId,
    path: &str,
    making: Making,
    cause: &mut Cause,
) -> Result<FileDisk, ServerFault>
    ensures { IfErr result EndsOpening }
{
    let mut disk = FileDisk::new(file(rt, path, making.makes(), cause)?);
    match make(cluster, me, making, &mut disk) {
        Ok(true) => sync_folder(rt, path, cause)?,
        Ok(false) => {}
        Err(fault) => {
            cause.error = disk.last_failure();
            return Err(fault.into());
        }
    }
    Ok(disk)
}

/// Opens a node over the record at a path. If that was asked for, an empty or absent file becomes a record
/// first.
pub(crate) fn open_node<R: Files<File = File>>(
    rt: &R,
    alloc: Global,
    cluster: Cluster,
    me: NodeId,
    path: &str,
    making: Making,
    cause: &mut Cause,
) -> Result<Served<FileDisk>, ServerFault>
    requires { IsNode cluster me }
    ensures opened { IfOk result (λ served. IsOpened ⟦<FileDisk as Disk>⟧.stands_for cluster me served.node) }
    ensures whole { IfOk result (λ served. IsWhole served.node) }
    ensures fault { IfErr result EndsOpening }
{
    let disk = open_disk(rt, cluster, me, path, making, cause)?;
    match Node::open(alloc, cluster, me, disk) {
        // it would have forgotten what it promised after the gate that an accident shut
        Ok(node) if node.is_cut_short() => Err(ServerFault::Record(RecordFault::Damaged)),
        Ok(node) => Ok(Served { node }),
        Err((fault, disk)) => {
            cause.error = disk.last_failure();
            Err(fault.into())
        }
    }
}
