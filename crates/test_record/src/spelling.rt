//! How a list of entries is spelled.

ghost use Rattle.std.specs.Prelude.{◌≡◌, ◌<◌, ◌^◌, ◌∷◌, ◌++◌, length, IfOk, OnOk};
ghost use Rattle.byteorder.specs.Endian.{big_bytes};
ghost use Rattle.site_ids.specs.Spelling.{ballot_bytes};
ghost use Rattle.durable.specs.Entries.{PromisedSpan};
ghost use Rattle.durable.specs.Histories.{IsHistory};
ghost use Rattle.durable.specs.Spelling.{head, payload, block, blocks};
ghost use Rattle.test_record.specs.Meaning.{meaning, meanings};

use crate::entry::Entry;
use byteorder::{BigEndian, ByteOrder};
use site_ids::{Ballot, Cluster, Instance, NodeId};
use std::alloc::{AllocError, Global};

/// An open gate, the payload's length, its kind, and the instance and the ballot in it.
fn front(size: u32, kind: u8, instance: Instance, ballot: Ballot) -> [u8; 15]
    ensures { result ≡ 1 ∷ big_bytes 4 size ++ kind ∷ big_bytes 4 instance ++ ballot_bytes ballot }
{
    let node = ballot.node().number();
    let mut bytes = [1, 0, 0, 0, 0, kind, 0, 0, 0, 0, 0, 0, 0, 0, node];
    BigEndian::write_u32(&mut bytes[1..], size);
    BigEndian::write_u32(&mut bytes[6..], instance.number());
    BigEndian::write_u32(&mut bytes[10..], ballot.round());
    bytes
}

/// The promise of a span after its open gate.
fn span_block(first: Instance, count: u8, ballot: Ballot) -> [u8; 16]
    ensures { result ≡ block (PromisedSpan first count ballot) }
{
    let node = ballot.node().number();
    let mut bytes = [1, 0, 0, 0, 11, 4, 0, 0, 0, 0, count, 0, 0, 0, 0, node];
    BigEndian::write_u32(&mut bytes[6..], first.number());
    BigEndian::write_u32(&mut bytes[11..], ballot.round());
    bytes
}

/// An open gate, the payload's length, its kind, and the instance at which a value was learned.
fn learned_front(size: u32, instance: Instance) -> [u8; 10]
    ensures { result ≡ 1 ∷ big_bytes 4 size ++ 6 ∷ big_bytes 4 instance }
{
    let mut bytes = [1, 0, 0, 0, 0, 6, 0, 0, 0, 0];
    BigEndian::write_u32(&mut bytes[1..], size);
    BigEndian::write_u32(&mut bytes[6..], instance.number());
    bytes
}

/// Appends the entry after its open gate.
fn push_block(bytes: &mut Vec<u8>, entry: &Entry) -> Result<(), AllocError>
    requires { length (payload (meaning entry.now)) < 2 ^ 32 }
    ensures { OnOk result (bytes.new.items ≡ bytes.old.items ++ block (meaning entry.now)) }
{
    match entry {
        Entry::Round(round) => {
            let mut block = [1, 0, 0, 0, 5, 1, 0, 0, 0, 0];
            BigEndian::write_u32(&mut block[6..], *round);
            bytes.extend_from_slice(&block)
        }
        Entry::Promised(instance, ballot) => {
            bytes.extend_from_slice(&front(10, 2, *instance, *ballot))
        }
        Entry::PromisedSpan(first, count, ballot) => {
            bytes.extend_from_slice(&span_block(*first, *count, *ballot))
        }
        Entry::Voted(instance, vote) => {
            let value = vote.value.as_bytes();
            let size = value.len() as u32 + 10;
            bytes.extend_from_slice(&front(size, 3, *instance, vote.ballot))?;
            bytes.extend_from_slice(value)
        }
        Entry::Learned(instance, value) => {
            let value = value.as_bytes();
            let size = value.len() as u32 + 5;
            bytes.extend_from_slice(&learned_front(size, *instance))?;
            bytes.extend_from_slice(value)
        }
        Entry::Floor(floor) => {
            let mut block = [1, 0, 0, 0, 5, 5, 0, 0, 0, 0];
            BigEndian::write_u32(&mut block[6..], floor.number());
            bytes.extend_from_slice(&block)
        }
    }
}

/// The head, and a history's entries after open gates.
pub fn spelled(
    alloc: Global,
    cluster: Cluster,
    node: NodeId,
    entries: &[Entry],
) -> Result<Vec<u8>, AllocError>
    requires { IsHistory cluster (meanings entries.now) }
    ensures { IfOk result (λ bytes. bytes.items ≡ head node cluster ++ blocks (meanings entries.now)) }
{
    let mut bytes = Vec::from_slice(alloc, b"SITEREC1")?;
    bytes.push(node.number())?;
    bytes.push(cluster.size())?;
    for entry in entries {
        push_block(&mut bytes, entry)?;
    }
    Ok(bytes)
}
