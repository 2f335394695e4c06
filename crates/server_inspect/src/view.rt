//! What is reported of a record.

ghost use Rattle.std.specs.Prelude.{◌≡◌, ◌≢◌, IfOk, IfErr, None, length, List, slice_index};
ghost use Rattle.site_disk.specs.Model.{DiskState};
ghost use Rattle.durable.specs.Counts.{IsCounted, CountsFault};
ghost use Rattle.durable.specs.Damage.{IsDamage};
ghost use Rattle.durable.specs.Entries.{Entry};
ghost use Rattle.durable.specs.Reading.{IsKept};
ghost use Rattle.durable.specs.Standing.{StandsFor};
ghost use Rattle.server_inspect.specs.Views.{IsViewOf, IsRefused, Names};

use crate::counting::count;
use durable::{Record, RecordFault, damage};
use site_disk::Disk;
use site_ids::{Cluster, MAX_INSTANCE, NodeId};
use std::alloc::Global;

const MARK: [u8; 8] = *b"SITEREC1";

/// What is reported of a record: whose it is, and what its entries amount to.
#[derive(Clone, Copy, Drop)]
pub struct View {
    pub node: NodeId,
    /// How many nodes its group has.
    pub nodes: Cluster,
    /// At how many instances it has a vote.
    pub votes: u32,
    /// At how many instances it has a learned value.
    pub learned: u32,
    /// The last instance at which it has either; 0 if it has neither.
    pub last: u32,
    /// Its floor, if it took a lost record's place; 0 if not.
    pub floor: u32,
    /// The greatest instance of a vote, or the floor if that is greater; 0 if it has neither.
    pub reach: u32,
    /// The length of its file.
    pub bytes: u64,
}

/// The length of a file, and the node and the group that its head names.
fn head<D: Disk>(disk: &mut D) -> Result<(u64, NodeId, Cluster), RecordFault>
    ensures state { (d : DiskState) → D.stands_for disk.old d → D.stands_for disk.new d }
    ensures named { IfOk result (λ p. (d : DiskState) → D.stands_for disk.old d → (p.0 ≡ length d.seen)
        × Names p.1 p.2 d.seen) }
    ensures fault { IfErr result (λ fault. (d : DiskState) → D.stands_for disk.old d → IsRefused fault d.seen
        × (fault ≢ RecordFault.Damaged)) }
    ensures counts { CountsFault RecordFault.Device result (D.failed disk.old) (D.failed disk.new) }
{
    let bytes = disk.len()?;
    if bytes < 11 {
        return Err(RecordFault::NotARecord);
    }
    let mut head = [0; 10];
    disk.read_at(0, &mut head)?;
    if !head.starts_with(&MARK) {
        return Err(RecordFault::NotARecord);
    }
    let Some(nodes) = Cluster::new(head[9]) else {
        return Err(RecordFault::WrongNode);
    };
    match nodes.node(head[8]) {
        Some(node) => Ok((bytes, node, nodes)),
        None => Err(RecordFault::WrongNode),
    }
}

/// The byte from which on the record on a disk is damaged; `None` if it is whole.
pub fn damage_of<D: Disk>(alloc: Global, disk: &mut D) -> Result<Option<u64>, RecordFault>
    ensures found { IfOk result (λ at. (d : DiskState) → D.stands_for disk.old d
        → IsDamage (slice_index d.seen 8) (slice_index d.seen 9) d.seen at) }
    ensures refused { IfErr result (λ fault. (d : DiskState) → D.stands_for disk.old d
        → IsRefused fault d.seen × (fault ≢ RecordFault.Damaged)) }
    ensures counts { CountsFault RecordFault.Device result (D.failed disk.old) (D.failed disk.new) }
{
    let (_, node, nodes) = head(disk)?;
    damage(alloc, nodes, node, disk)
}

impl View {
    /// What a record has that was opened over a file of `bytes` bytes.
    fn of_record<D: Disk>(opened: &Record<D>, node: NodeId, nodes: Cluster, bytes: u64) -> View
        ensures view { (entries : List Entry) → IsKept entries opened.now.recorded → IsViewOf entries result }
        ensures whose { (result.node ≡ node) × (result.nodes ≡ nodes) × (result.bytes ≡ bytes) }
    {
        let counts = count(opened, MAX_INSTANCE);
        View {
            node,
            nodes,
            votes: counts.votes,
            learned: counts.learned,
            last: counts.last,
            floor: opened.floor(),
            reach: opened.reach(),
            bytes,
        }
    }

    /// What is reported of the record on a disk. A refusal returns the disk.
    pub fn of<D: Disk + Drop>(alloc: Global, disk: D) -> Result<View, (RecordFault, D)>
        ensures viewed { IfOk result (λ v. (entries : List Entry) × IsViewOf entries v
            × ((d : DiskState) → D.stands_for disk d
            → StandsFor v.node v.nodes d.seen entries × IsDamage v.node v.nodes d.seen None
            × (v.bytes ≡ length d.seen))) }
        ensures refused { IfErr result (λ p. (d : DiskState) → D.stands_for disk d → IsRefused p.0 d.seen) }
        ensures cause { IfErr result (λ p. p.0 ≡ RecordFault.Device
            → IsCounted (D.failed disk) (D.failed p.1)) }
    {
        let mut disk = disk;
        let (bytes, node, nodes) = match head(&mut disk) {
            Ok(named) => named,
            Err(fault) => return Err((fault, disk)),
        };
        match Record::open(alloc, nodes, node, disk) {
            Ok(record) if record.is_cut_short() => Err((RecordFault::Damaged, record.close())),
            Ok(record) => Ok(View::of_record(&record, node, nodes, bytes)),
            Err(refused) => Err(refused),
        }
    }
}
