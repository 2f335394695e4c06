//! What a crash does to the ranges written since the last sync.

ghost use Rattle.std.specs.Prelude.{◌≡◌, ◌⊎◌, ◌+◌, ◌≤◌, ◌<◌, ℕ, [], length, slice_index};
ghost use Rattle.site_disk.specs.Model.{DiskState, IsOutside, IsWithin};
ghost use Rattle.site_disk.specs.Memory.{after_calls};

use crate::Call;

/// Makes each byte in a range written since the last sync this one.
pub(crate) fn fill_unsynced(calls: &[Call], bytes: &mut [u8], byte: u8)
    ensures outside { (d : DiskState) (place : ℕ) → IsOutside place (after_calls d calls.now).written
        → slice_index bytes.new place ≡ slice_index bytes.old place }
    ensures within { (d : DiskState) (place : ℕ) → d.written ≡ [] → place < length bytes.old
        → IsWithin place (after_calls d calls.now).written → slice_index bytes.new place ≡ byte }
{
    let mut rest = calls;
    while let Some((last, earlier)) = rest.split_last() {
        match last {
            Call::Sync => return,
            Call::Write { at, bytes: written } => fill(bytes, *at, written.len(), byte),
            Call::Len => {}
            Call::Read => {}
        }
        rest = earlier;
    }
}

// Makes each byte of a range this one.
fn fill(bytes: &mut [u8], at: usize, size: usize, byte: u8)
    ensures outside { (place : ℕ) → (place < at) ⊎ (at + size ≤ place)
        → slice_index bytes.new place ≡ slice_index bytes.old place }
    ensures within { (place : ℕ) → place < length bytes.old → at ≤ place → place < at + size
        → slice_index bytes.new place ≡ byte }
{
    let end = bytes.len().min(at.saturating_add(size));
    if at < end {
        bytes[at..end].fill(byte);
    }
}
