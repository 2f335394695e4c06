//! The file of a record grows ahead: when, as a table; and by how much, between two batches.
ghost use Rattle.site_ids.specs.Ids.{IsNode};

use crate::comparing::{ensure, same};
use durable::Record;
use node::Node;
use site_disk::{Disk, MemDisk};
use site_drive::{Desk, LastCall, Room};
use site_ids::{Cluster, NodeId};
use std::alloc::Global;
use std::process::Abort;

/// How much room a file gets and from which length of the record on, how long the record is, whether nothing
/// waits; and whether the file grows then.
const DUE: &[(u64, u64, u64, bool, bool)] = &[
    (0, 0, 9000, true, false),
    (64, 0, 10, true, true),
    (64, 0, 10, false, false),
    (64, 0, 15, false, false),
    (64, 0, 16, false, true),
    (64, 42, 41, true, false),
    (64, 42, 42, true, true),
    (64, 42, 57, false, false),
    (64, 42, 58, false, true),
];

#[test]
fn a_file_grows_when_half_of_its_room_is_used(rt: HostRuntime) {
    for &(size, next, bytes, idle, due) in DUE {
        let room = Room { size, next };
        let is = room.is_due(bytes, idle);
        same(&rt, (room, bytes, idle, is), (room, bytes, idle, due));
    }
}

/// How much room a file gets, how long the record is; and from which length of the record on it grows again.
const AGAIN: &[(u64, u64, u64)] = &[(64, 10, 42), (64, 100, 132), (2, u64::MAX, u64::MAX)];

#[test]
fn a_file_grows_again_when_half_is_used(rt: HostRuntime) {
    for &(size, bytes, next) in AGAIN {
        let room = Room { size, next: 7 };
        same(&rt, room.after(bytes), Room { size, next });
    }
}

/// A node alone, over a new record. `None` if an allocation failed.
fn fresh(alloc: Global, cluster: Cluster, me: NodeId) -> Option<Node<MemDisk>>
    requires { IsNode cluster me }
{
    let mut disk = MemDisk::new(alloc);
    if Record::format(cluster, me, &mut disk).is_err() {
        return None;
    }
    Node::open(alloc, cluster, me, disk).ok()
}

fn alone(rt: &impl Abort, alloc: Global) -> Node<MemDisk> {
    let cluster = Cluster::new(1).expect(rt, "a cluster");
    let me = cluster.node(1).expect(rt, "a node");
    fresh(alloc, cluster, me).expect(rt, "memory")
}

/// How long the file of a node is after `batches` empty batches at this desk.
fn length_after(rt: &impl Abort, alloc: Global, mut desk: Desk, batches: u32) -> u64 {
    let mut node = alone(rt, alloc);
    for _ in 0..batches {
        let taken = desk.take_batch(&mut node, &[], LastCall::Nothing);
        same(rt, taken, Ok(0));
    }
    drop(desk);
    let mut disk = node.close();
    let length = disk.len();
    drop(disk);
    ensure(rt, length.is_ok(), batches);
    length.unwrap_or(0)
}

/// An empty record has 11 bytes. With room after its gate, which is byte 10, the file has that room from the
/// first batch on, and no more after the second.
#[test]
fn a_batch_makes_room_first(rt: HostRuntime) {
    let alloc = rt.alloc();
    let plain = Desk::new(alloc).expect(&rt, "memory");
    same(&rt, length_after(&rt, alloc, plain, 2), 11);
    for batches in 1..3 {
        let desk = Desk::new(alloc).expect(&rt, "memory").with_room(64);
        same(&rt, length_after(&rt, alloc, desk, batches), 74);
    }
}
