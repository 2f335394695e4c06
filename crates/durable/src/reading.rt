//! Reads the items of a file, from gate to gate.
//!
//! It reads pieces of 1 MB, and a longer one for a longer batch. The buffer is allocated after the head was
//! read, so a file that is no record is refused without an allocation.

ghost use Rattle.std.specs.Prelude.{⊤, ◌≡◌, ◌⊎◌, ◌+◌, ◌≤◌, ◌<◌, ◌^◌, List, []};
ghost use Rattle.std.specs.Prelude.{length, drop, max, min, true, false, None};
ghost use Rattle.std.specs.Prelude.{IfOk, MatchOption, OnOk, OnErr, IsErrOf};
ghost use Rattle.site_disk.specs.Model.{DiskState};
ghost use Rattle.durable.specs.Counts.{CountsFault};
ghost use Rattle.durable.specs.Entries.{Entry};
ghost use Rattle.durable.specs.Damage.{IsDamagedAt};
ghost use Rattle.durable.specs.Items.{Item};
ghost use Rattle.durable.specs.Reading.{AreRead, AreSpelled, BreaksOff, HasNoSum, IsSumAt, IsDamagedEntry};
ghost use Rattle.durable.specs.Reading.{IsDamagedBatch, IsDamagedItem, TakesEntry, TakesEntries, TakesItem};
ghost use Rattle.durable.specs.Reading.{TakesPiece};

use crate::RecordFault;
use crate::parsing::{Next, next_entry};
use crate::recorded::Recorded;
use crate::sum::{SUM_BLOCK, Sum};
use site_disk::Disk;
use site_ids::Cluster;
use std::alloc::{AllocError, Global};

// How much of the file is read at once, many times the longest block: what is cut off at a piece's end is
// read twice.
const PIECE: u64 = 1_048_576;

// The longest block of an entry, and the next gate.
const MAX_BLOCK: usize = 32_784;

/// What was at a gate.
pub(crate) enum Taken {
    /// An item of that many bytes, which was taken.
    Whole(usize),
    /// The gate isn't open.
    Ended,
    /// A batch that goes on after the bytes: that many bytes show it and the next gate.
    CutOff(usize),
}

/// Reads the items after the head into an empty `recorded`, in pieces that each begin at a gate. If the file
/// is damaged, that is at `recorded.gate`.
pub(crate) fn read_items<D: Disk>(
    alloc: Global,
    disk: &mut D,
    cluster: Cluster,
    len: u64,
    recorded: &mut Recorded,
) -> Result<(), RecordFault>
    requires goes_on { 11 ≤ len }
    requires fresh { AreRead cluster [] recorded.old }
    ensures state { (d : DiskState) → D.stands_for disk.old d → D.stands_for disk.new d }
    ensures read { OnOk result ((items : List Item) × AreRead cluster items recorded.new
        × ((d : DiskState) → D.stands_for disk.old d → len ≡ length d.seen
        → AreSpelled (drop 10 d.seen) items)) }
    ensures damaged { IsErrOf result RecordFault.Damaged → (d : DiskState) → D.stands_for disk.old d
        → len ≡ length d.seen → IsDamagedAt cluster recorded.new.gate d.seen }
    ensures others { OnErr result (IsErrOf result RecordFault.Device
        ⊎ (IsErrOf result RecordFault.OutOfMemory ⊎ IsErrOf result RecordFault.Damaged)) }
    ensures counts { CountsFault RecordFault.Device result (D.failed disk.old) (D.failed disk.new) }
{
    let mut buffer = Vec::new(alloc);
    buffer.resize(len.min(PIECE) as usize, 0u8)?;
    loop {
        let left = len - recorded.gate;
        let size = left.min(buffer.len() as u64);
        let piece = &mut buffer[..size as usize];
        disk.read_at(recorded.gate, piece)?;
        match take_piece(alloc, piece, left <= size, cluster, recorded)? {
            None => return Ok(()),
            Some(least) => make_room(&mut buffer, least, len)?,
        }
    }
}

// Makes room for `least` bytes, or for the whole file.
fn make_room(buffer: &mut Vec<u8>, least: usize, len: u64) -> Result<(), AllocError>
    ensures { OnOk result (length buffer.new.items ≡ max (length buffer.old.items) (min least len)) }
{
    let size = len.min(least as u64) as usize;
    if buffer.len() < size {
        buffer.resize(size, 0)?;
    }
    Ok(())
}

// Takes the items that are whole in a piece. Returns how long the next piece has to be, or `None` if a gate
// that isn't open ended them.
fn take_piece(
    alloc: Global,
    piece: &[u8],
    is_last: bool,
    cluster: Cluster,
    recorded: &mut Recorded,
) -> Result<Option<usize>, RecordFault>
    requires fits { recorded.old.gate + length piece.now < 2 ^ 64 }
    requires some { 0 < length piece.now }
    requires whole { (is_last ≡ true) ⊎ (32784 ≤ length piece.now) }
    ensures taken { IfOk result (λ least. TakesPiece cluster piece.now recorded.old recorded.new least) }
    ensures onward { IfOk result (λ o. MatchOption o ⊤ (λ least. (is_last ≡ false)
        × ((recorded.old.gate < recorded.new.gate) ⊎ (length piece.now < least)))) }
    ensures within { OnOk result ((recorded.old.gate ≤ recorded.new.gate)
        × (recorded.new.gate < recorded.old.gate + length piece.now)) }
    ensures damaged { IsErrOf result RecordFault.Damaged
        → BreaksOff cluster piece.now is_last recorded.old recorded.new.gate }
    ensures others { OnErr result (IsErrOf result RecordFault.OutOfMemory
        ⊎ IsErrOf result RecordFault.Damaged) }
{
    let mut rest = piece;
    while is_last || MAX_BLOCK <= rest.len() {
        match take_item(alloc, rest, is_last, cluster, recorded)? {
            Taken::Whole(size) => rest = &rest[size..],
            Taken::Ended => return Ok(None),
            Taken::CutOff(least) => return Ok(Some(least)),
        }
    }
    Ok(Some(MAX_BLOCK))
}

// Takes what is at a gate.
fn take_item(
    alloc: Global,
    bytes: &[u8],
    is_last: bool,
    cluster: Cluster,
    recorded: &mut Recorded,
) -> Result<Taken, RecordFault>
    requires fits { recorded.old.gate + length bytes.now < 2 ^ 64 }
    requires whole { (is_last ≡ true) ⊎ (32784 ≤ length bytes.now) }
    ensures taken { IfOk result (TakesItem cluster bytes.now is_last recorded.old recorded.new) }
    ensures damaged { IsErrOf result RecordFault.Damaged
        → (recorded.new.gate ≡ recorded.old.gate)
        × IsDamagedItem cluster bytes.now is_last recorded.old }
    ensures others { OnErr result (IsErrOf result RecordFault.OutOfMemory
        ⊎ IsErrOf result RecordFault.Damaged) }
{
    match Sum::at(bytes) {
        Some(sum) => take_summed(alloc, bytes, sum, is_last, cluster, recorded),
        None => take_put(alloc, bytes, is_last, cluster, recorded),
    }
}

// Takes an entry that is in no batch. The next gate has to follow it.
fn take_put(
    alloc: Global,
    bytes: &[u8],
    is_last: bool,
    cluster: Cluster,
    recorded: &mut Recorded,
) -> Result<Taken, RecordFault>
    requires fits { recorded.old.gate + length bytes.now < 2 ^ 64 }
    requires whole { (is_last ≡ true) ⊎ (32784 ≤ length bytes.now) }
    requires unsummed { HasNoSum bytes.now }
    ensures taken { IfOk result (TakesItem cluster bytes.now is_last recorded.old recorded.new) }
    ensures damaged { IsErrOf result RecordFault.Damaged
        → (recorded.new.gate ≡ recorded.old.gate)
        × IsDamagedItem cluster bytes.now is_last recorded.old }
    ensures others { OnErr result (IsErrOf result RecordFault.OutOfMemory
        ⊎ IsErrOf result RecordFault.Damaged) }
{
    let gate = recorded.gate;
    match take_entry(alloc, bytes, cluster, recorded)? {
        None => Ok(Taken::Ended),
        Some(size) => {
            if size < bytes.len() {
                Ok(Taken::Whole(size))
            } else {
                recorded.gate = gate;
                Err(RecordFault::Damaged)
            }
        }
    }
}

// Takes a batch whose sum is at a gate.
fn take_summed(
    alloc: Global,
    bytes: &[u8],
    sum: Sum,
    is_last: bool,
    cluster: Cluster,
    recorded: &mut Recorded,
) -> Result<Taken, RecordFault>
    requires fits { recorded.old.gate + length bytes.now < 2 ^ 64 }
    requires at { IsSumAt bytes.now sum.size sum.sum }
    ensures taken { IfOk result (TakesItem cluster bytes.now is_last recorded.old recorded.new) }
    ensures damaged { IsErrOf result RecordFault.Damaged
        → (recorded.new.gate ≡ recorded.old.gate)
        × IsDamagedItem cluster bytes.now is_last recorded.old }
    ensures others { OnErr result (IsErrOf result RecordFault.OutOfMemory
        ⊎ IsErrOf result RecordFault.Damaged) }
{
    let end = SUM_BLOCK + sum.size;
    if bytes.len() <= end {
        return if is_last {
            Err(RecordFault::Damaged)
        } else {
            Ok(Taken::CutOff(end + 1))
        };
    }
    let blocks = &bytes[SUM_BLOCK..end];
    if !sum.is_of(blocks) {
        return Err(RecordFault::Damaged);
    }
    let gate = recorded.gate;
    match take_batch(alloc, blocks, cluster, recorded) {
        Ok(()) => {
            recorded.gate += SUM_BLOCK as u64;
            Ok(Taken::Whole(end))
        }
        Err(fault) => {
            recorded.gate = gate;
            Err(fault)
        }
    }
}

// Takes the entries whose blocks these are.
fn take_batch(
    alloc: Global,
    blocks: &[u8],
    cluster: Cluster,
    recorded: &mut Recorded,
) -> Result<(), RecordFault>
    requires fits { recorded.old.gate + length blocks.now < 2 ^ 64 }
    ensures taken { OnOk result ((entries : List Entry)
        × TakesEntries cluster blocks.now (length blocks.now) entries recorded.old recorded.new) }
    ensures damaged { IsErrOf result RecordFault.Damaged → IsDamagedBatch cluster blocks.now recorded.old }
    ensures others { OnErr result (IsErrOf result RecordFault.OutOfMemory
        ⊎ IsErrOf result RecordFault.Damaged) }
{
    let mut rest = blocks;
    while !rest.is_empty() {
        match take_entry(alloc, rest, cluster, recorded)? {
            Some(size) => rest = &rest[size..],
            None => return Err(RecordFault::Damaged),
        }
    }
    Ok(())
}

// Takes the entry at a gate. Returns how long its block is, or `None` if the gate isn't open.
fn take_entry(
    alloc: Global,
    bytes: &[u8],
    cluster: Cluster,
    recorded: &mut Recorded,
) -> Result<Option<usize>, RecordFault>
    requires fits { recorded.old.gate + length bytes.now < 2 ^ 64 }
    ensures taken { IfOk result (λ size. TakesEntry cluster bytes.now recorded.old recorded.new size) }
    ensures damaged { IsErrOf result RecordFault.Damaged
        → (recorded.new.gate ≡ recorded.old.gate) × IsDamagedEntry cluster bytes.now recorded.old }
    ensures others { OnErr result (IsErrOf result RecordFault.OutOfMemory
        ⊎ IsErrOf result RecordFault.Damaged) }
{
    match next_entry(bytes, cluster) {
        Next::End => Ok(None),
        Next::Damaged => Err(RecordFault::Damaged),
        Next::Found(entry, size) => {
            recorded.take(alloc, entry)?;
            recorded.gate += size as u64;
            Ok(Some(size))
        }
    }
}
