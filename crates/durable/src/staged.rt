//! What waits to be written after a gate.

ghost use Rattle.std.specs.Prelude.{◌≡◌, ◌↔◌, ◌+◌, ◌-◌, ◌<◌, ◌≤◌, ◌^◌, ◌∷◌, ◌++◌, [], ℕ, List};
ghost use Rattle.std.specs.Prelude.{if◌then◌else◌, IsTrue, IsOk, OnOk, OnErr, nat_lt, not, length, drop};
ghost use Rattle.site_ids.specs.declared.TheConstants.{MAX_RECORD};
ghost use Rattle.durable.specs.Items.{summed};

use crate::sum::{SUM_BLOCK, sum_front};
use site_ids::MAX_RECORD;
use std::alloc::{AllocError, Global};

// How many bytes wait while a batch has no entry: room for a sum, and a closed gate.
const EMPTY: usize = SUM_BLOCK + 1;

// Writes what comes before the blocks of a batch.
fn write_front(bytes: &mut Vec<u8>, front: &[u8])
    requires { length front.now ≤ length bytes.old.items }
    ensures { bytes.new.items ≡ front.now ++ drop (length front.now) bytes.old.items }
{
    bytes[0..front.len()].copy_from_slice(front);
}

/// What is written of a batch after the gate on the disk: the bytes from index `from` on, which end at a
/// gate.
pub(crate) struct Sealed {
    pub(crate) from: usize,
    pub(crate) end: u64,
}

/// The entries of a batch that is open.
#[derive(Drop)]
pub(crate) struct Staged {
    // nothing while no batch is open; else room for a sum, the blocks of its entries, and a closed gate
    pub(crate) bytes: Vec<u8>,
    // the gate on the disk, if the batch has entries
    pub(crate) base: u64,
    ghost near: { 19 < length bytes.items → base < 2 ^ 63 },
    ghost room: { 0 < length bytes.items → 18 < length bytes.items },
}

impl Staged {
    /// No batch is open.
    pub(crate) fn new(alloc: Global) -> Staged
        ensures { result.bytes.items ≡ [] }
    {
        Staged {
            bytes: Vec::new(alloc),
            base: 0,
        }
    }

    pub(crate) fn is_open(&self) -> bool
        ensures { IsTrue result ↔ (0 < length self.now.bytes.items) }
    {
        !self.bytes.is_empty()
    }

    pub(crate) fn has_entries(&self) -> bool
        ensures { IsTrue result ↔ (19 < length self.now.bytes.items) }
    {
        self.bytes.len() > EMPTY
    }

    // Whether a file has room for what waits, including a sum.
    fn fits_with_sum(&self) -> bool
        requires { 19 < length self.now.bytes.items }
        ensures { result ≡ not (nat_lt MAX_RECORD (self.now.base + length self.now.bytes.items)) }
    {
        self.base + self.bytes.len() as u64 <= MAX_RECORD
    }

    // Writes the sum of the blocks into its room in front of them.
    fn sum_up(&mut self)
        requires open { 18 < length self.old.bytes.items }
        requires counted { length self.old.bytes.items < 2 ^ 32 }
        ensures summed { (blocks : List ℕ) → drop 18 self.old.bytes.items ≡ blocks ++ 0 ∷ []
            → self.new.bytes.items ≡ summed blocks ++ 0 ∷ [] }
        ensures same { (length self.new.bytes.items ≡ length self.old.bytes.items)
            × (self.new.base ≡ self.old.base) }
    {
        let end = self.bytes.len() - 1;
        let front = sum_front(&self.bytes[SUM_BLOCK..end]);
        write_front(&mut self.bytes, &front);
    }

    /// Puts the sum before the blocks, if the file has room for it. Without a sum the blocks end at the given
    /// gate.
    pub(crate) fn seal(&mut self, gate: u64) -> Sealed
        requires { 19 < length self.old.bytes.items }
        ensures bytes { (blocks : List ℕ) → drop 18 self.old.bytes.items ≡ blocks ++ 0 ∷ []
            → drop result.from self.new.bytes.items
            ≡ drop 1 ((if nat_lt MAX_RECORD
            (self.old.base + length self.old.bytes.items) then blocks else summed blocks) ++ 0 ∷ []) }
        ensures end { result.end ≡ (if nat_lt MAX_RECORD
            (self.old.base + length self.old.bytes.items) then gate else
            (self.old.base + length self.old.bytes.items) - 1) }
        ensures within { result.from ≤ length self.new.bytes.items }
        ensures base { self.new.base ≡ self.old.base }
    {
        if !self.fits_with_sum() {
            return Sealed {
                from: EMPTY,
                end: gate,
            };
        }
        self.sum_up();
        Sealed {
            from: 1,
            end: self.base + (self.bytes.len() - 1) as u64,
        }
    }

    /// Opens a batch if none is open.
    pub(crate) fn open(&mut self) -> Result<(), AllocError>
        ensures opened { OnOk result (self.old.bytes.items ≡ [] → (length self.new.bytes.items ≡ 19)
            × (drop 18 self.new.bytes.items ≡ 0 ∷ [])) }
        ensures was_open { 0 < length self.old.bytes.items → (self.new ≡ self.old) × IsOk result }
        ensures refused { OnErr result (self.new.bytes.items ≡ self.old.bytes.items) }
        ensures base { self.new.base ≡ self.old.base }
    {
        if self.is_open() {
            return Ok(());
        }
        self.bytes.extend_from_slice(&[0; EMPTY])?;
        Ok(())
    }

    /// Takes an entry's bytes, after the gate that ends those that wait. The first entry is at the given gate
    /// of the disk.
    pub(crate) fn push(&mut self, gate: u64, bytes: &[u8]) -> Result<(), AllocError>
        requires open { 0 < length self.old.bytes.items }
        requires near { gate < 2 ^ 63 }
        ensures waiting { OnOk result ((front : List ℕ) → drop 18 self.old.bytes.items ≡ front ++ 0 ∷ []
            → drop 18 self.new.bytes.items ≡ front ++ 1 ∷ bytes.now) }
        ensures first { OnOk result (length self.old.bytes.items ≡ 19 → self.new.base ≡ gate) }
        ensures later { OnOk result (19 < length self.old.bytes.items → self.new.base ≡ self.old.base) }
        ensures still_open { 0 < length self.new.bytes.items }
        ensures refused { OnErr result ((self.new.bytes.items ≡ self.old.bytes.items)
            × (self.new.base ≡ self.old.base)) }
    {
        let closed = self.bytes.len() - 1;
        self.bytes.extend_from_slice(bytes)?;
        self.bytes[closed] = 1;
        if closed == SUM_BLOCK {
            self.base = gate;
        }
        Ok(())
    }

    /// Closes the batch, and keeps its memory for the next.
    pub(crate) fn close(&mut self)
        ensures { self.new.bytes.items ≡ [] }
    {
        self.bytes.clear();
    }
}
