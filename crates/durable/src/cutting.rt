//! What follows the gate at which a record ends.
//!
//! A node opens a batch's gate before it writes anything after the batch. So no crash of a real disk leaves,
//! after a gate that isn't open, a whole batch with its right sum and an open gate after it: an accident shut
//! the first gate.

ghost use Rattle.std.specs.Prelude.{◌≡◌, ◌⊎◌, ◌↔◌, length, IsTrue, IfOk, OnErr, IsErrOf};
ghost use Rattle.site_disk.specs.Model.{DiskState};
ghost use Rattle.durable.specs.Counts.{CountsFault};
ghost use Rattle.durable.specs.Cutting.{HasBatchAfter, IsCutShort};

use crate::RecordFault;
use crate::sum::{SUM_BLOCK, Sum};
use site_disk::Disk;
use std::alloc::Global;

/// Whether a batch with its right sum follows the gate at which a record of `len` bytes ends, and then an
/// open gate.
fn has_batch_after<D: Disk>(
    alloc: Global,
    disk: &mut D,
    gate: u64,
    len: u64,
) -> Result<bool, RecordFault>
    ensures state { (d : DiskState) → D.stands_for disk.old d → D.stands_for disk.new d }
    ensures told { IfOk result (λ told. (d : DiskState) → D.stands_for disk.old d → len ≡ length d.seen
        → IsTrue told ↔ HasBatchAfter gate d.seen) }
    ensures others { OnErr result (IsErrOf result RecordFault.Device
        ⊎ IsErrOf result RecordFault.OutOfMemory) }
    ensures counts { CountsFault RecordFault.Device result (D.failed disk.old) (D.failed disk.new) }
{
    let left = len.saturating_sub(gate);
    if left <= SUM_BLOCK as u64 {
        return Ok(false);
    }
    let mut front = [0; SUM_BLOCK];
    disk.read_at(gate, &mut front)?;
    front[0] = 1;
    let Some(sum) = Sum::at(&front) else {
        return Ok(false);
    };
    if left - SUM_BLOCK as u64 <= sum.size as u64 {
        return Ok(false);
    }
    let mut room = Vec::new(alloc);
    room.resize(sum.size + 1, 0u8)?;
    let batch = &mut room[..];
    disk.read_at(gate + SUM_BLOCK as u64, batch)?;
    Ok(sum.goes_on(batch))
}

/// Whether an accident shut the gate at which a record of `len` bytes ends: a batch with its right sum
/// follows, and another open gate.
///
/// The gate is read after these. So what a node writes to its file meanwhile is not taken for an accident:
/// the node has opened this gate by then.
pub(crate) fn is_cut_short<D: Disk>(
    alloc: Global,
    disk: &mut D,
    gate: u64,
    len: u64,
) -> Result<bool, RecordFault>
    ensures state { (d : DiskState) → D.stands_for disk.old d → D.stands_for disk.new d }
    ensures told { IfOk result (λ told. (d : DiskState) → D.stands_for disk.old d → len ≡ length d.seen
        → IsTrue told ↔ IsCutShort gate d.seen) }
    ensures others { OnErr result (IsErrOf result RecordFault.Device
        ⊎ IsErrOf result RecordFault.OutOfMemory) }
    ensures counts { CountsFault RecordFault.Device result (D.failed disk.old) (D.failed disk.new) }
{
    if !has_batch_after(alloc, disk, gate, len)? {
        return Ok(false);
    }
    let mut now = [0];
    disk.read_at(gate, &mut now)?;
    Ok(now[0] != 1)
}
