//! Reads the file of a record: its head, its items, and what follows the gate at which they end.

ghost use Rattle.std.specs.Prelude.{◌≡◌, ◌≢◌, ◌↔◌, ◌⊎◌, ◌≤◌, List, length, IsTrue, IfErr, IfOk};
ghost use Rattle.site_disk.specs.Model.{DiskState, after_sync};
ghost use Rattle.durable.specs.Counts.{CountsFault};
ghost use Rattle.durable.specs.Cutting.{IsCutShort};
ghost use Rattle.durable.specs.Damage.{IsDamage};
ghost use Rattle.durable.specs.Items.{Item};
ghost use Rattle.durable.specs.Reading.{AreRead};
ghost use Rattle.durable.specs.Standing.{HasHead, IsLaid, IsRefusal};

use crate::RecordFault;
use crate::cutting::is_cut_short;
use crate::reading::read_items;
use crate::record::MARK;
use crate::recorded::Recorded;
use site_disk::Disk;
use site_ids::{Cluster, NodeId};
use std::alloc::Global;

// Syncs, and then reads the head. Returns the length of the file.
fn read_head<D: Disk>(cluster: Cluster, node: NodeId, disk: &mut D) -> Result<u64, RecordFault>
    ensures read { IfOk result (λ len. (d : DiskState) → D.stands_for disk.old d
        → D.stands_for disk.new (after_sync d) × HasHead node cluster d.seen × (len ≡ length d.seen)) }
    ensures long { IfOk result (λ len. 11 ≤ len) }
    ensures refused { IfErr result (λ fault. (d : DiskState) → D.stands_for disk.old d
        → (D.stands_for disk.new (after_sync d) ⊎ (D.stands_for disk.new d × (fault ≡ RecordFault.Device)))
        × IsRefusal fault node cluster d.seen × (fault ≢ RecordFault.Damaged)) }
    ensures counts { CountsFault RecordFault.Device result (D.failed disk.old) (D.failed disk.new) }
{
    disk.sync()?;
    let len = disk.len()?;
    if len < 11 {
        return Err(RecordFault::NotARecord);
    }
    let mut head = [0; 10];
    disk.read_at(0, &mut head)?;
    if !head.starts_with(&MARK) {
        return Err(RecordFault::NotARecord);
    }
    if head[8] != node.number() || head[9] != cluster.size() {
        return Err(RecordFault::WrongNode);
    }
    Ok(len)
}

/// Syncs, and then reads the record. The result also says whether an accident shut the gate after its
/// entries.
pub(crate) fn read<D: Disk>(
    alloc: Global,
    cluster: Cluster,
    node: NodeId,
    disk: &mut D,
) -> Result<(Recorded, bool), RecordFault>
    ensures read { IfOk result (λ r. (items : List Item) × AreRead cluster items r.0
        × ((d : DiskState) → D.stands_for disk.old d → D.stands_for disk.new (after_sync d)
        × IsLaid node cluster d.seen items × (IsTrue r.1 ↔ IsCutShort r.0.gate d.seen))) }
    ensures refused { IfErr result (λ fault. (d : DiskState) → D.stands_for disk.old d
        → (D.stands_for disk.new (after_sync d) ⊎ (D.stands_for disk.new d × (fault ≡ RecordFault.Device)))
        × IsRefusal fault node cluster d.seen) }
    ensures counts { CountsFault RecordFault.Device result (D.failed disk.old) (D.failed disk.new) }
{
    let len = read_head(cluster, node, disk)?;
    let mut recorded = Recorded::new(alloc);
    read_items(alloc, disk, cluster, len, &mut recorded)?;
    let cut_short = is_cut_short(alloc, disk, recorded.gate, len)?;
    Ok((recorded, cut_short))
}

/// Syncs, and then finds the byte from which on a record is damaged; `None` if it is whole. That byte is the
/// gate of a batch whose sum is wrong, or of bytes that no node wrote, or the gate that an accident shut.
pub fn damage<D: Disk>(
    alloc: Global,
    cluster: Cluster,
    node: NodeId,
    disk: &mut D,
) -> Result<Option<u64>, RecordFault>
    ensures found { IfOk result (λ at. (d : DiskState) → D.stands_for disk.old d
        → D.stands_for disk.new (after_sync d) × IsDamage node cluster d.seen at) }
    ensures refused { IfErr result (λ fault. (d : DiskState) → D.stands_for disk.old d
        → IsRefusal fault node cluster d.seen × (fault ≢ RecordFault.Damaged)) }
    ensures counts { CountsFault RecordFault.Device result (D.failed disk.old) (D.failed disk.new) }
{
    let len = read_head(cluster, node, disk)?;
    let mut recorded = Recorded::new(alloc);
    match read_items(alloc, disk, cluster, len, &mut recorded) {
        Ok(()) => {
            if is_cut_short(alloc, disk, recorded.gate, len)? {
                Ok(Some(recorded.gate))
            } else {
                Ok(None)
            }
        }
        Err(RecordFault::Damaged) => Ok(Some(recorded.gate)),
        Err(fault) => Err(fault),
    }
}
