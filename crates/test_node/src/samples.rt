//! What the rows are made of. An allocation that failed is tried once more.
use command::write;
use site_ids::{Ballot, Cluster, Instance, NodeId, Ticket, Value};
use std::alloc::Global;
use std::process::Abort;

/// The bytes of a value, as tables have them.
#[derive(Clone, Copy)]
pub(crate) enum Text {
    /// These.
    Raw(&'static str),
    /// Those of a command of editor 1, by the number of its ticket.
    Command(u64, &'static str),
}

/// The no-op.
pub(crate) const NOTHING: Text = Text::Raw("");

pub(crate) const RELEASE: Text = Text::Command(1, "release\n");

pub(crate) fn instance(rt: &impl Abort, number: u32) -> Instance {
    Instance::new(number).expect(rt, "an instance")
}

pub(crate) fn ballot(rt: &impl Abort, round: u32, node: NodeId) -> Ballot {
    Ballot::new(round, node).expect(rt, "a ballot")
}

pub(crate) fn node_of(rt: &impl Abort, cluster: Cluster, number: u8) -> NodeId {
    cluster.node(number).expect(rt, "a node")
}

pub(crate) fn ticket(number: u64) -> Ticket {
    Ticket { editor: 1, number }
}

fn written(rt: &impl Abort, alloc: Global, number: u64, text: &str) -> Vec<u8> {
    match write(alloc, ticket(number), text.as_bytes()) {
        Ok(bytes) => bytes,
        Err(_) => write(alloc, ticket(number), text.as_bytes()).expect(rt, "a command"),
    }
}

fn copied(rt: &impl Abort, alloc: Global, bytes: &[u8]) -> Value {
    match Value::copied_from(alloc, bytes) {
        Ok(value) => value,
        Err(_) => Value::copied_from(alloc, bytes).expect(rt, "a value"),
    }
}

pub(crate) fn value(rt: &impl Abort, alloc: Global, text: Text) -> Value {
    match text {
        Text::Raw(text) => copied(rt, alloc, text.as_bytes()),
        Text::Command(number, text) => {
            let bytes = written(rt, alloc, number, text);
            copied(rt, alloc, bytes.as_slice())
        }
    }
}
