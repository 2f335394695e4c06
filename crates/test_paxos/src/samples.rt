//! What the rows are made of.
use site_ids::{Ballot, Cluster, Instance, NodeId, Value, Vote};
use std::alloc::{AllocError, Global};
use std::process::Abort;

pub(crate) fn instance(rt: &impl Abort, number: u32) -> Instance {
    Instance::new(number).expect(rt, "an instance")
}

pub(crate) fn cluster(rt: &impl Abort, size: u8) -> Cluster {
    Cluster::new(size).expect(rt, "a cluster")
}

/// A node of nine.
pub(crate) fn node(rt: &impl Abort, number: u8) -> NodeId {
    cluster(rt, 9).node(number).expect(rt, "a node")
}

pub(crate) fn ballot(rt: &impl Abort, round: u32, number: u8) -> Ballot {
    Ballot::new(round, node(rt, number)).expect(rt, "a ballot")
}

/// Whether a ballot has that round and that node.
pub(crate) fn is_ballot(ballot: Ballot, round: u32, number: u8) -> bool {
    ballot.round() == round && ballot.node().number() == number
}

/// An allocation that failed is tried once more.
fn copied(alloc: Global, bytes: &[u8]) -> Result<Value, AllocError> {
    match Value::copied_from(alloc, bytes) {
        Ok(value) => Ok(value),
        Err(_) => Value::copied_from(alloc, bytes),
    }
}

pub(crate) fn value(rt: &impl Abort, alloc: Global, bytes: &[u8]) -> Value {
    copied(alloc, bytes).expect(rt, "a value")
}

pub(crate) fn vote(rt: &impl Abort, alloc: Global, ballot: Ballot, text: &str) -> Vote {
    let value = value(rt, alloc, text.as_bytes());
    Vote { ballot, value }
}

/// Puts one more at the end.
pub(crate) fn push<T: Drop>(rt: &impl Abort, to: &mut Vec<T>, one: T) {
    to.push(one).expect(rt, "memory");
}

pub(crate) fn is_bytes(came: &[u8], wanted: &[u8]) -> bool {
    came == wanted
}

/// Whether a value is the bytes of this text.
pub(crate) fn is_text(value: &Value, text: &str) -> bool {
    is_bytes(value.as_bytes(), text.as_bytes())
}
