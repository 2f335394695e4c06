//! What a sync has to copy: the ranges written since the last one.

ghost use Rattle.std.specs.Prelude.{◌≡◌, ◌+◌, ◌≤◌, ◌<◌, ◌++◌, ℕ, [], length, drop, slice_index, vec_capacity};
ghost use Rattle.site_disk.specs.Model.{DiskState, IsOutside};
ghost use Rattle.site_disk.specs.Memory.{after_calls};

use crate::Call;

/// Makes what the last sync kept equal to what is read, given the calls since then.
pub(crate) fn catch_up(calls: &[Call], bytes: &[u8], kept: &mut Vec<u8>)
    ensures items { (d : DiskState) → d.written ≡ [] → length kept.old.items ≤ length bytes.now
        → length bytes.now ≤ vec_capacity kept.old
        → ((place : ℕ) → place < length kept.old.items → IsOutside place (after_calls d calls.now).written
        → slice_index bytes.now place ≡ slice_index kept.old.items place) → kept.new.items ≡ bytes.now }
    ensures capacity { vec_capacity kept.old ≤ vec_capacity kept.new }
{
    grow(bytes, kept);
    if kept.len() == bytes.len() {
        copy_unsynced(calls, bytes, kept);
    }
}

// Appends the bytes past the kept ones.
fn grow(bytes: &[u8], kept: &mut Vec<u8>)
    ensures items { length kept.old.items ≤ length bytes.now → length bytes.now ≤ vec_capacity kept.old
        → kept.new.items ≡ kept.old.items ++ drop (length kept.old.items) bytes.now }
    ensures capacity { vec_capacity kept.old ≤ vec_capacity kept.new }
{
    if let Some(grown) = bytes.get(kept.len()..) {
        let _ = kept.extend_from_slice(grown);
    }
}

// Copies each range written since the last sync. If the bytes differ nowhere else, they are the same after
// that.
fn copy_unsynced(calls: &[Call], from: &[u8], to: &mut [u8])
    requires { length to.old ≡ length from.now }
    ensures { (d : DiskState) → d.written ≡ []
        → ((place : ℕ) → place < length from.now → IsOutside place (after_calls d calls.now).written
        → slice_index to.old place ≡ slice_index from.now place) → to.new ≡ from.now }
{
    let mut rest = calls;
    while let Some((last, earlier)) = rest.split_last() {
        match last {
            Call::Sync => return,
            Call::Write { at, bytes } => copy_range(from, to, *at, bytes.len()),
            Call::Len => {}
            Call::Read => {}
        }
        rest = earlier;
    }
}

// Copies a range, as far as there are bytes.
fn copy_range(from: &[u8], to: &mut [u8], at: usize, size: usize)
    requires { length to.old ≡ length from.now }
    ensures within { (place : ℕ) → place < length from.now → at ≤ place → place < at + size
        → slice_index to.new place ≡ slice_index from.now place }
    ensures stays { (place : ℕ) → slice_index to.old place ≡ slice_index from.now place
        → slice_index to.new place ≡ slice_index from.now place }
{
    let end = from.len().min(at.saturating_add(size));
    if at < end {
        to[at..end].copy_from_slice(&from[at..end]);
    }
}
