//! Nodes over disks in memory, in boxes. What owns a node is proved to drop it at each of its ends, and a box
//! is dropped in one step. What fails because an allocation failed is tried once more.
ghost use Rattle.site_ids.specs.Ids.{IsNode};

use crate::comparing::{ensure, is_page, same};
use crate::samples::{Text, instance, value};
use durable::{Record, RecordFault};
use node::{Node, NodeFault, Submitted};
use site_disk::MemDisk;
use site_ids::{Cluster, NodeId};
use std::alloc::Global;
use std::process::Abort;

pub(crate) fn boxed<T: Drop>(rt: &impl Abort, alloc: Global, it: T) -> Box<T> {
    match Box::new(alloc, it) {
        Ok(boxed) => boxed,
        Err(refused) => Box::new(alloc, refused.value).ok().expect(rt, "memory"),
    }
}

fn format(alloc: Global, cluster: Cluster, me: NodeId) -> Result<MemDisk, RecordFault> {
    let mut disk = MemDisk::new(alloc);
    match Record::format(cluster, me, &mut disk) {
        Ok(()) => Ok(disk),
        Err(fault) => Err(fault),
    }
}

/// A new record. If an allocation failed, a beginning of it is left, so it is made on another disk then.
fn formatted(rt: &impl Abort, alloc: Global, cluster: Cluster, me: NodeId) -> MemDisk {
    match format(alloc, cluster, me) {
        Ok(disk) => disk,
        Err(fault) => {
            same(rt, fault, RecordFault::Device);
            format(alloc, cluster, me).expect(rt, "a record")
        }
    }
}

fn open(
    alloc: Global,
    cluster: Cluster,
    me: NodeId,
    disk: MemDisk,
) -> Result<Node<MemDisk>, (RecordFault, MemDisk)>
    requires { IsNode cluster me }
{
    Node::open(alloc, cluster, me, disk)
}

/// The disk of an opening that failed because an allocation failed.
fn disk_of(rt: &impl Abort, refused: (RecordFault, MemDisk)) -> MemDisk {
    let (fault, disk) = refused;
    let is_memory = matches!(fault, RecordFault::OutOfMemory | RecordFault::Device);
    ensure(rt, is_memory, fault);
    disk
}

fn opened(
    rt: &impl Abort,
    alloc: Global,
    cluster: Cluster,
    me: NodeId,
    disk: MemDisk,
) -> Node<MemDisk>
    requires { IsNode cluster me }
{
    match open(alloc, cluster, me, disk) {
        Ok(node) => node,
        Err(refused) => open(alloc, cluster, me, disk_of(rt, refused))
            .ok()
            .expect(rt, "a node"),
    }
}

/// Node 1 of `size` nodes, over a new record.
pub(crate) fn fresh(rt: &impl Abort, alloc: Global, size: u8) -> Box<Node<MemDisk>> {
    let cluster = Cluster::new(size).expect(rt, "a cluster");
    let me = cluster.node(1).expect(rt, "a node");
    let disk = formatted(rt, alloc, cluster, me);
    boxed(rt, alloc, opened(rt, alloc, cluster, me, disk))
}

/// A record with a floor, and nothing else.
fn formatted_above(
    rt: &impl Abort,
    alloc: Global,
    cluster: Cluster,
    me: NodeId,
    floor: u32,
) -> MemDisk {
    let mut disk = MemDisk::new(alloc);
    Record::format_above(cluster, me, instance(rt, floor), &mut disk).expect(rt, "a record");
    disk
}

/// Node 1 of three, over a record with that floor, which took the place of a lost one.
pub(crate) fn replaced(rt: &impl Abort, alloc: Global, floor: u32) -> Box<Node<MemDisk>> {
    let cluster = Cluster::new(3).expect(rt, "a cluster");
    let me = cluster.node(1).expect(rt, "a node");
    let disk = formatted_above(rt, alloc, cluster, me, floor);
    boxed(rt, alloc, opened(rt, alloc, cluster, me, disk))
}

/// Submits a value, which is dropped only here.
pub(crate) fn submit(
    rt: &impl Abort,
    alloc: Global,
    node: &mut Node<MemDisk>,
    text: Text,
) -> Result<Submitted, NodeFault> {
    let value = value(rt, alloc, text);
    node.submit(&value)
}

/// Whether the newest release has that page.
pub(crate) fn shows(node: &Node<MemDisk>, path: &str, status: u16, body: &str) -> bool {
    is_page(&node.answer(node.newest(), path), status, body)
}

/// The disk of a node that is closed, after a crash by that choice, or without one.
fn closed(node: Box<Node<MemDisk>>, crash: Option<u8>) -> MemDisk {
    let mut disk = Box::into_inner(node).close();
    match crash {
        Some(choice) => disk.crash(choice),
        None => disk.disarm(),
    }
    disk
}

/// Node 1, closed and opened again, after a crash by that choice, or without one.
pub(crate) fn again(
    rt: &impl Abort,
    alloc: Global,
    node: Box<Node<MemDisk>>,
    crash: Option<u8>,
) -> Box<Node<MemDisk>> {
    let cluster = node.cluster();
    let me = cluster.node(1).expect(rt, "a node");
    let disk = closed(node, crash);
    boxed(rt, alloc, opened(rt, alloc, cluster, me, disk))
}
