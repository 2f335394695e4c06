//! Records of node 2 of three, on disks in memory.
ghost use Rattle.std.specs.Option.{IfSome};
ghost use Rattle.site_ids.specs.Spans.{IsInSpan};
ghost use Rattle.acceptor.specs.Judging.{IsFreeBelow};
ghost use Rattle.durable.specs.Slots.{slot_at};

use crate::comparing::{ensure, same};
use crate::disks::{syncs, writes};
use crate::samples::{cluster, instance, value};
use acceptor::{PrepareVerdict, ProposeVerdict, judge_prepare, judge_propose};
use durable::{Record, RecordFault, damage};
use site_disk::{Armed, Disk, MemDisk};
use site_ids::{Ballot, Cluster, Instance, MAX_VALUE, NodeId, Value};
use std::alloc::Global;
use std::process::Abort;
use test_record::history::is_free_below;

/// Node 2 of 3, which promised ballot (1, 1) at instance 1.
pub const ONE_PROMISE: [u8; 26] =
    *b"SITEREC1\x02\x03\x01\x00\x00\x00\x0a\x02\x00\x00\x00\x01\x00\x00\x00\x01\x01\x00";

/// The same node, which took round 1.
pub const ONE_ROUND: [u8; 21] = *b"SITEREC1\x02\x03\x01\x00\x00\x00\x05\x01\x00\x00\x00\x01\x00";

/// A cluster of three, and a node of it.
pub fn one_of_three(rt: &impl Abort, number: u8) -> (Cluster, NodeId) {
    let cluster = cluster(rt, 3);
    (cluster, cluster.node(number).expect(rt, "a node"))
}

/// A disk that holds these bytes, all of them synced.
pub fn disk_of(rt: &impl Abort, alloc: Global, bytes: &[u8]) -> MemDisk {
    let mut disk = MemDisk::new(alloc);
    ensure(rt, writes(&mut disk, 0, bytes), 0);
    ensure(rt, syncs(&mut disk), 1);
    disk
}

/// An empty record's disk, with an empty list of calls.
pub fn formatted(rt: &impl Abort, alloc: Global) -> MemDisk {
    let (cluster, node) = one_of_three(rt, 2);
    let mut disk = MemDisk::new(alloc);
    Record::format(cluster, node, &mut disk).expect(rt, "a record");
    disk.crash(0);
    disk
}

/// The record on a disk, or why a node of three refuses it.
fn read<D: Disk + Drop>(
    rt: &impl Abort,
    alloc: Global,
    number: u8,
    disk: D,
) -> Result<Record<D>, RecordFault> {
    let (cluster, node) = one_of_three(rt, number);
    match Record::open(alloc, cluster, node, disk) {
        Ok(record) => Ok(record),
        Err((fault, disk)) => {
            drop(disk);
            Err(fault)
        }
    }
}

/// The byte from which on these bytes are a damaged record of node 2 of three.
pub fn damaged_from(
    rt: &impl Abort,
    alloc: Global,
    bytes: &[u8],
) -> Result<Option<u64>, RecordFault> {
    let (cluster, node) = one_of_three(rt, 2);
    let mut disk = disk_of(rt, alloc, bytes);
    let from = damage(alloc, cluster, node, &mut disk);
    drop(disk);
    from
}

/// The record of node 2 of three.
pub fn opened<D: Disk + Drop>(rt: &impl Abort, alloc: Global, disk: D) -> Record<D> {
    read(rt, alloc, 2, disk).expect(rt, "a record")
}

/// The round that the next opening finds.
pub fn found_round(rt: &impl Abort, alloc: Global, disk: MemDisk) -> u32 {
    let record = opened(rt, alloc, disk);
    let round = record.round();
    drop(record);
    round
}

/// Makes node 2's record above instance 65.
pub fn format_above<D: Disk>(rt: &impl Abort, disk: &mut D) -> Result<(), RecordFault> {
    let (cluster, node) = one_of_three(rt, 2);
    Record::format_above(cluster, node, instance(rt, 65), disk)
}

/// The floor that the next opening finds, or why the record is refused.
pub fn found_floor(rt: &impl Abort, alloc: Global, disk: MemDisk) -> Result<u32, RecordFault> {
    let record = read(rt, alloc, 2, disk)?;
    let floor = record.floor();
    drop(record);
    Ok(floor)
}

/// Node 2's empty record.
pub fn empty(rt: &impl Abort, alloc: Global) -> Record<MemDisk> {
    opened(rt, alloc, formatted(rt, alloc))
}

/// Lets `calls` further calls of the record's disk pass.
pub fn arm<D: Armed>(record: &mut Record<D>, calls: u32) {
    record.arm(calls);
}

/// A call of a record returned what was wanted.
pub fn ends(rt: &impl Abort, came: Result<(), RecordFault>, wanted: Result<(), RecordFault>) {
    same(rt, came, wanted);
}

/// That is what the record promised at instance 1.
pub fn is_promised<D: Disk>(rt: &impl Abort, record: &Record<D>, promised: Option<Ballot>) {
    same(rt, record.slot(instance(rt, 1)).promised, promised);
}

/// The record of these bytes, or why a node of three refuses them.
pub fn read_bytes(
    rt: &impl Abort,
    alloc: Global,
    number: u8,
    bytes: &[u8],
) -> Result<Record<MemDisk>, RecordFault> {
    read(rt, alloc, number, disk_of(rt, alloc, bytes))
}

/// Why a node of three refuses these bytes, if it does.
fn refusal(rt: &impl Abort, alloc: Global, number: u8, bytes: &[u8]) -> Option<RecordFault> {
    match read_bytes(rt, alloc, number, bytes) {
        Ok(record) => {
            drop(record);
            None
        }
        Err(fault) => Some(fault),
    }
}

/// A node of three refuses these bytes for that reason, or opens them if there is none.
pub fn is_refused(
    rt: &impl Abort,
    alloc: Global,
    number: u8,
    bytes: &[u8],
    wanted: Option<RecordFault>,
) {
    same(rt, refusal(rt, alloc, number, bytes), wanted);
}

/// Puts a round. `NotARecord` if it is not a higher one.
pub fn put_round<D: Disk>(record: &mut Record<D>, round: u32) -> Result<(), RecordFault> {
    if record.round() < round {
        record.put_round(round)
    } else {
        Err(RecordFault::NotARecord)
    }
}

/// Puts a promise. `NotARecord` if an acceptor wouldn't promise.
pub fn put_promise<D: Disk>(
    record: &mut Record<D>,
    instance: Instance,
    ballot: Ballot,
) -> Result<(), RecordFault> {
    if record.cluster().node(ballot.node().number()).is_none() {
        return Err(RecordFault::NotARecord);
    }
    match judge_prepare(record.slot(instance), ballot) {
        PrepareVerdict::Promise => record.put_promise(instance, ballot),
        _ => Err(RecordFault::NotARecord),
    }
}

/// An instance of a span at which an acceptor would promise.
fn rising<D: Disk>(
    store: &Record<D>,
    first: Instance,
    count: u8,
    ballot: Ballot,
) -> Option<Instance>
    ensures { IfSome result (λ at. IsInSpan first count at
        × IsFreeBelow (slot_at store.now.recorded.slots at).promised ballot) }
{
    for past in 0..count {
        if let Some(at) = Instance::new(first.number() + past as u32) {
            if is_free_below(&store.slot(at).promised, ballot) {
                return Some(at);
            }
        }
    }
    None
}

/// Puts the promise of a span of two or more. `NotARecord` if it is no such span, or if an acceptor would
/// promise at none of its instances.
pub fn put_span<D: Disk>(
    record: &mut Record<D>,
    first: Instance,
    count: u8,
    ballot: Ballot,
) -> Result<(), RecordFault> {
    if record.cluster().node(ballot.node().number()).is_none() {
        return Err(RecordFault::NotARecord);
    }
    if count < 2 || !first.begins_span(count) {
        return Err(RecordFault::NotARecord);
    }
    match rising(record, first, count, ballot) {
        Some(_) => record.put_promise_span(first, count, ballot),
        None => Err(RecordFault::NotARecord),
    }
}

/// Puts these bytes as a learned value. `NotARecord` if one is learned there.
pub fn put_learned<D: Disk>(
    rt: &impl Abort,
    alloc: Global,
    record: &mut Record<D>,
    instance: Instance,
    bytes: &[u8],
) -> Result<(), RecordFault> {
    let value = value(rt, alloc, bytes);
    if record.learned(instance).is_some() || value.as_bytes().len() > MAX_VALUE {
        return Err(RecordFault::NotARecord);
    }
    record.put_learned(instance, &value)
}

/// Puts a vote for these bytes.
pub fn put_vote_for<D: Disk>(
    rt: &impl Abort,
    alloc: Global,
    record: &mut Record<D>,
    vote: (Instance, Ballot),
    bytes: &[u8],
) -> Result<(), RecordFault> {
    let (instance, ballot) = vote;
    let value = value(rt, alloc, bytes);
    put_vote(record, instance, ballot, &value)
}

/// Puts a vote. `NotARecord` if an acceptor wouldn't vote.
pub fn put_vote<D: Disk>(
    record: &mut Record<D>,
    instance: Instance,
    ballot: Ballot,
    value: &Value,
) -> Result<(), RecordFault> {
    if record.cluster().node(ballot.node().number()).is_none()
        || value.as_bytes().len() > MAX_VALUE
    {
        return Err(RecordFault::NotARecord);
    }
    match judge_propose(record.slot(instance), ballot, value.as_bytes()) {
        ProposeVerdict::Vote => record.put_vote(instance, ballot, value),
        _ => Err(RecordFault::NotARecord),
    }
}
