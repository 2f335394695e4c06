//! What a file stands for, and why it is refused.

ghost use Rattle.std.specs.Prelude.{◌≡◌, ◌≢◌, ◌⊎◌, ◌↔◌, ◌++◌, ℕ, List, IsTrue, IfOk, MatchOption, length};
ghost use Rattle.std.specs.Prelude.{◌≤◌};
ghost use Rattle.durable.specs.Items.{puts};
ghost use Rattle.durable.specs.Standing.{IsLaid, IsNoRecord, IsOfAnother, IsDamaged, IsRefusal};
ghost use Rattle.test_record.specs.Meaning.{meanings};
ghost use Rattle.test_record.specs.Gates.{IsShutBehind};

use crate::entry::Entry;
use crate::history::is_history;
use crate::spelling::spelled;
use durable::RecordFault;
use site_ids::{Cluster, NodeId};
use std::alloc::{AllocError, Global};

/// What follows the front of a file.
fn behind<'a>(file: &'a [u8], front: &[u8]) -> Option<&'a [u8]>
    ensures { MatchOption result ((rest : List ℕ) → file.now ≢ front.now ++ rest)
        (λ rest. file.now ≡ front.now ++ rest.now) }
{
    file.strip_prefix(front)
}

/// Whether a gate that isn't open follows the front of a file.
fn is_shut_behind(file: &[u8], front: &[u8]) -> bool
    ensures { IsTrue result ↔ IsShutBehind file.now front.now }
{
    match behind(file, front) {
        Some([gate, ..]) => *gate != 1,
        Some([]) => false,
        None => false,
    }
}

/// Whether a file has these entries, and no sum.
pub fn stands_plainly_for(
    alloc: Global,
    cluster: Cluster,
    node: NodeId,
    file: &[u8],
    entries: &[Entry],
) -> Result<bool, AllocError>
    ensures { IfOk result (λ stands. IsTrue stands
        ↔ IsLaid node cluster file.now (puts (meanings entries.now))) }
{
    if !is_history(cluster, entries) {
        return Ok(false);
    }
    let bytes = spelled(alloc, cluster, node, entries)?;
    Ok(is_shut_behind(file, &bytes))
}

fn is_no_record(file: &[u8]) -> bool
    ensures { IsTrue result ↔ IsNoRecord file.now }
{
    file.len() < 11 || !file.starts_with(b"SITEREC1")
}

fn is_of_another(cluster: Cluster, node: NodeId, file: &[u8]) -> bool
    requires { 11 ≤ length file.now }
    ensures { IsTrue result ↔ IsOfAnother node cluster file.now }
{
    file[8] != node.number() || file[9] != cluster.size()
}

/// Why a file that stands for no entries is refused.
pub fn refusal(cluster: Cluster, node: NodeId, file: &[u8]) -> RecordFault
    ensures refused { IsDamaged node cluster file.now → IsRefusal result node cluster file.now }
    ensures of_bytes { (result ≡ RecordFault.NotARecord)
        ⊎ ((result ≡ RecordFault.WrongNode) ⊎ (result ≡ RecordFault.Damaged)) }
{
    if is_no_record(file) {
        RecordFault::NotARecord
    } else if is_of_another(cluster, node, file) {
        RecordFault::WrongNode
    } else {
        RecordFault::Damaged
    }
}
