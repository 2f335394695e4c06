//! A record in the place of a lost one.
//!
//! The mark comes last: until the floor is on the disk, the file is no record.

ghost use Rattle.std.specs.Prelude.{◌≡◌, ◌+◌, [], OnOk, OnErr, length};
ghost use Rattle.site_disk.specs.Model.{DiskState, LeavesOnly, CountsFailure};
ghost use Rattle.durable.specs.Append.{IsSettled};
ghost use Rattle.durable.specs.Standing.{IsNoRecord};
ghost use Rattle.durable.specs.Formatting.{blank_head, FormatsAbove, FormatsInPart, FormatsOnlyEmpty};

use crate::append::write_through;
use crate::record::MARK;
use crate::recorded::FIRST_GATE;
use crate::spelling::floor_batch;
use crate::{Record, RecordFault};
use site_disk::{Disk, DiskFailed};
use site_ids::{Cluster, Instance, NodeId};

// The head of a record without its mark.
fn blank(cluster: Cluster, node: NodeId) -> [u8; 10]
    ensures { result ≡ blank_head node cluster }
{
    let mut bytes = [0; 10];
    bytes[8] = node.number();
    bytes[9] = cluster.size();
    bytes
}

// Makes an empty file the head of a record without its mark, which no crash makes a record.
fn write_blank<D: Disk>(cluster: Cluster, node: NodeId, disk: &mut D) -> Result<(), DiskFailed>
    ensures done { OnOk result ((d : DiskState) → D.stands_for disk.old d → d.seen ≡ []
        → (e : DiskState) × D.stands_for disk.new e × LeavesOnly d e IsNoRecord × IsSettled e
        × (e.seen ≡ blank_head node cluster) × (length e.past ≡ 2 + length d.past)) }
    ensures torn { OnErr result ((d : DiskState) → D.stands_for disk.old d → d.seen ≡ []
        → (e : DiskState) × D.stands_for disk.new e × LeavesOnly d e IsNoRecord × IsNoRecord e.seen) }
    ensures cause { CountsFailure result (D.failed disk.old) (D.failed disk.new) }
{
    disk.write_at(0, &blank(cluster, node))?;
    disk.sync()
}

impl<D: Disk> Record<D> {
    /// Makes a record with only a floor on an empty disk, for a node whose record was lost. A crash meanwhile
    /// leaves a file that is no record, or this record: never a record without the floor.
    pub fn format_above(
        cluster: Cluster,
        node: NodeId,
        floor: Instance,
        disk: &mut D,
    ) -> Result<(), RecordFault>
        ensures formatted { OnOk result (FormatsAbove D.stands_for disk.old disk.new node cluster floor) }
        ensures in_part { OnErr result (FormatsInPart D.stands_for disk.old disk.new node cluster floor) }
        ensures only_empty { FormatsOnlyEmpty D.stands_for D.failed disk.old disk.new result }
    {
        if disk.len()? != 0 {
            return Err(RecordFault::NotARecord);
        }
        let batch = floor_batch(floor);
        write_blank(cluster, node, disk)?;
        write_through(disk, FIRST_GATE, &batch)?;
        Ok(write_through(disk, 0, &MARK)?)
    }
}
