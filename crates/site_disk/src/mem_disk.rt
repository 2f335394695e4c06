//! A disk in memory, which can be made to fail and to crash.
//!
//! `crash` does not allocate, as each write reserved room. The calls that passed are listed.

ghost use Rattle.std.specs.Prelude.{◌≡◌, ◌≢◌, ◌↔◌, ◌+◌, ◌-◌, ◌≤◌, ◌<◌, ◌∷◌, ◌++◌, [], List, ℕ};
ghost use Rattle.std.specs.Prelude.{length, take, drop, max, None, Some, OnOk, OnErr, IfOk, vec_capacity};
ghost use Rattle.std.specs.Prelude.{IsTrue};
ghost use Rattle.site_disk.specs.Memory.{after_one};
ghost use Rattle.site_disk.specs.Model.{DiskState, after_write, after_sync, overwritten, at_rest, moment};
ghost use Rattle.site_disk.specs.Model.{MayLeave};

use crate::count::counted;
use crate::crash::fill_unsynced;
use crate::sync::catch_up;
use crate::{Armed, Disk, DiskFailed};
use std::alloc::{AllocError, Global};

/// A call that a disk in memory let pass.
#[derive(Drop)]
pub enum Call {
    Len,
    Read,
    Write { at: usize, bytes: Vec<u8> },
    Sync,
}

/// A file in memory. A failed allocation inside it is a failure of the device.
#[derive(Drop)]
pub struct MemDisk {
    alloc: Global,
    // what the last crash left, what the last sync kept, what a read gives
    first: Vec<u8>,
    kept: Vec<u8>,
    bytes: Vec<u8>,
    // the calls since the last crash
    calls: Vec<Call>,
    left: Option<u32>,
    failures: u64,
}

// Whether a disk that may be armed lets a call pass. It counts the call.
fn lets_pass(left: &mut Option<u32>) -> bool
    ensures passes { IsTrue result ↔ (left.old ≢ Some 0) }
    ensures counts { left.new ≡ after_one left.old }
{
    match *left {
        None => true,
        Some(0) => false,
        Some(calls) => {
            *left = Some(calls - 1);
            true
        }
    }
}

// Writes over the bytes from a place on, and past their end.
fn overwrite(file: &mut Vec<u8>, at: usize, bytes: &[u8])
    requires within { at ≤ length file.old.items }
    requires room { at + length bytes.now ≤ vec_capacity file.old }
    ensures items { file.new.items ≡ overwritten file.old.items at bytes.now }
{
    let over = file.len() - at;
    if bytes.len() <= over {
        file[at..at + bytes.len()].copy_from_slice(bytes);
    } else {
        file.truncate(at);
        let _ = file.extend_from_slice(bytes);
    }
}

// Reserves room for this many bytes in all.
fn reserve_to(file: &mut Vec<u8>, size: usize) -> Result<(), AllocError>
    ensures items { file.new.items ≡ file.old.items }
    ensures room { OnOk result (size ≤ vec_capacity file.new) }
    ensures capacity { vec_capacity file.old ≤ vec_capacity file.new }
{
    file.reserve(size.saturating_sub(file.len()))
}

// Puts other bytes in the place of these.
fn replace(file: &mut Vec<u8>, bytes: &[u8])
    ensures items { length bytes.now ≤ vec_capacity file.old → file.new.items ≡ bytes.now }
    ensures capacity { vec_capacity file.old ≤ vec_capacity file.new }
{
    file.clear();
    let _ = file.extend_from_slice(bytes);
}

// Cuts the bytes to the length of these, and puts these in their place.
fn put_back(bytes: &mut Vec<u8>, kept: &[u8])
    ensures { length kept.now ≤ length bytes.old.items → bytes.new.items ≡ kept.now }
{
    bytes.truncate(kept.len());
    if bytes.len() == kept.len() {
        bytes.copy_from_slice(kept);
    }
}

impl MemDisk {
    ghost use Rattle.site_disk.specs.Memory.{MemoryStandsFor, IsFilled};

    /// An empty file, not armed.
    pub fn new(alloc: Global) -> Self
        ensures state { MemoryStandsFor result (at_rest [] []) }
        ensures failed { result.failures ≡ 0 }
    {
        MemDisk {
            alloc,
            first: Vec::new(alloc),
            kept: Vec::new(alloc),
            bytes: Vec::new(alloc),
            calls: Vec::new(alloc),
            left: None,
            failures: 0,
        }
    }

    /// The calls that passed since the last crash, the oldest first. A call that failed is not among them.
    pub fn calls(&self) -> &[Call]
        ensures { result.now ≡ self.now.calls.items }
    {
        &self.calls
    }

    pub fn disarm(&mut self)
        ensures state { (d : DiskState) → MemoryStandsFor self.old d → MemoryStandsFor self.new d }
        ensures failed { self.new.failures ≡ self.old.failures }
        ensures disarmed { self.new.left ≡ None }
    {
        self.left = None;
    }

    /// Crashes, and comes up again unarmed. 0: what was written since the last sync is lost. 1: all of it is
    /// kept. Any other choice: the length is kept, and each byte in a range written since then becomes this
    /// one.
    pub fn crash(&mut self, choice: u8)
        ensures left { (d : DiskState) → MemoryStandsFor self.old d → (left : List ℕ)
            × MayLeave (moment d) left × MemoryStandsFor self.new (at_rest left []) }
        ensures lost { (d : DiskState) → MemoryStandsFor self.old d → choice ≡ 0
            → MemoryStandsFor self.new (at_rest d.synced []) }
        ensures kept { (d : DiskState) → MemoryStandsFor self.old d → choice ≡ 1
            → MemoryStandsFor self.new (at_rest d.seen []) }
        ensures filled { (d : DiskState) → MemoryStandsFor self.old d → 1 < choice → (left : List ℕ)
            × IsFilled choice d left × MemoryStandsFor self.new (at_rest left []) }
        ensures failed { self.new.failures ≡ self.old.failures }
        ensures disarmed { self.new.left ≡ None }
    {
        match choice {
            0 => put_back(&mut self.bytes, &self.kept),
            1 => {}
            _ => fill_unsynced(&self.calls, &mut self.bytes, choice),
        }
        self.calls.clear();
        self.left = None;
        replace(&mut self.kept, &self.bytes);
        replace(&mut self.first, &self.bytes);
    }

    // Lets a call pass and notes it, or refuses it.
    fn take_note(&mut self, call: Call) -> Result<(), DiskFailed>
        ensures passes { OnOk result (self.old.left ≢ Some 0) }
        ensures counts { self.new.left ≡ after_one self.old.left }
        ensures ok { OnOk result (self.new.calls.items ≡ self.old.calls.items ++ call ∷ []) }
        ensures err { OnErr result (self.new.calls.items ≡ self.old.calls.items) }
        ensures same { (self.new.first ≡ self.old.first) × (self.new.kept ≡ self.old.kept)
            × (self.new.bytes ≡ self.old.bytes) × (self.new.failures ≡ self.old.failures) }
    {
        if !lets_pass(&mut self.left) {
            return Err(DiskFailed);
        }
        match self.calls.push(call) {
            Ok(()) => Ok(()),
            Err(_) => Err(DiskFailed),
        }
    }

    fn size(&mut self) -> Result<u64, DiskFailed>
        ensures state { (d : DiskState) → MemoryStandsFor self.old d → MemoryStandsFor self.new d }
        ensures size { IfOk result (λ n. n ≡ length self.old.bytes.items) }
        ensures failed { self.new.failures ≡ self.old.failures }
    {
        self.take_note(Call::Len)?;
        Ok(self.bytes.len() as u64)
    }

    fn read(&mut self, at: usize, buf: &mut [u8]) -> Result<(), DiskFailed>
        ensures state { (d : DiskState) → MemoryStandsFor self.old d → MemoryStandsFor self.new d }
        ensures read { OnOk result (buf.new ≡ take (length buf.old) (drop at self.old.bytes.items)) }
        ensures failed { self.new.failures ≡ self.old.failures }
    {
        if at > self.bytes.len() || buf.len() > self.bytes.len() - at {
            return Err(DiskFailed);
        }
        self.take_note(Call::Read)?;
        buf.copy_from_slice(&self.bytes[at..at + buf.len()]);
        Ok(())
    }

    fn write(&mut self, at: usize, bytes: &[u8]) -> Result<(), DiskFailed>
        ensures written { OnOk result ((d : DiskState) → MemoryStandsFor self.old d
            → MemoryStandsFor self.new
            (after_write d at (length bytes.now) (overwritten d.seen at bytes.now))) }
        ensures refused { OnErr result ((d : DiskState) → MemoryStandsFor self.old d
            → MemoryStandsFor self.new d) }
        ensures failed { self.new.failures ≡ self.old.failures }
    {
        let size = at.saturating_add(bytes.len()).max(self.bytes.len());
        if at > self.bytes.len() || size - at < bytes.len() {
            return Err(DiskFailed);
        }
        reserve_to(&mut self.first, size)?;
        reserve_to(&mut self.kept, size)?;
        reserve_to(&mut self.bytes, size)?;
        let copy = bytes.to_vec(self.alloc)?;
        self.take_note(Call::Write { at, bytes: copy })?;
        overwrite(&mut self.bytes, at, bytes);
        Ok(())
    }

    fn sync_all(&mut self) -> Result<(), DiskFailed>
        ensures synced { OnOk result ((d : DiskState) → MemoryStandsFor self.old d
            → MemoryStandsFor self.new (after_sync d)) }
        ensures refused { OnErr result ((d : DiskState) → MemoryStandsFor self.old d
            → MemoryStandsFor self.new d) }
        ensures failed { self.new.failures ≡ self.old.failures }
    {
        self.take_note(Call::Sync)?;
        if let Some((_, earlier)) = self.calls.split_last() {
            catch_up(earlier, &self.bytes, &mut self.kept);
        }
        Ok(())
    }
}

impl Disk for MemDisk {
    ghost use Rattle.site_disk.specs.Memory.{MemoryStandsFor};

    ghost stands_for = { λ m d. MemoryStandsFor m d };

    ghost failed = { λ m. m.failures };

    fn failures(&self) -> u64 {
        self.failures
    }

    fn len(&mut self) -> Result<u64, DiskFailed> {
        counted(self.size(), &mut self.failures)
    }

    fn read_at(&mut self, at: u64, buf: &mut [u8]) -> Result<(), DiskFailed> {
        counted(self.read(at as usize, buf), &mut self.failures)
    }

    fn write_at(&mut self, at: u64, bytes: &[u8]) -> Result<(), DiskFailed> {
        counted(self.write(at as usize, bytes), &mut self.failures)
    }

    fn lengthen(&mut self, at: u64, bytes: &[u8]) -> bool {
        self.write(at as usize, bytes).is_ok()
    }

    fn sync(&mut self) -> Result<(), DiskFailed> {
        counted(self.sync_all(), &mut self.failures)
    }
}

impl Armed for MemDisk {
    ghost armed = { λ m calls. m.left ≡ Some calls };

    fn arm(&mut self, calls: u32) {
        self.left = Some(calls);
    }
}
