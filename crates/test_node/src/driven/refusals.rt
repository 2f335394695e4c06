//! A drive with one allocation that fails, turn by turn and as one batch. It ends as always, or with the
//! fault that an allocation failed. If that was one of the disk in memory, it ends with the fault of the
//! device, and then the node is opened again. If it was one of the link, that counts a failure. Either way
//! what was heard may be lost, as a datagram may. So it comes once more, and then the node is where it is
//! without the failure.
//!
//! Each test tries everything twice. A second program, `tools/gate/refuse-growths`, runs each test once for
//! each of its allocations, and makes that one fail: the first try meets it, the second does not. Without
//! that program no allocation fails.
use crate::comparing::{ensure, same};
use crate::driven::driven_node::{DrivenNode, bytes, reopened};
use node::NodeFault;
use site_drive::{LastCall, MemLink};
use std::alloc::Global;
use std::process::Abort;

/// A prepare and a proposal of node 2 at instance 2, a release chosen at instance 1, bytes that are no
/// message, a question.
const HEARD: &[&str] = &[
    "010102000000020000000102",
    "0103020000000200000001020000000107",
    "010702000000010000001400000001000000000000000172656c656173650a",
    "ff",
    "01060300000001",
];

/// The answer to the question.
const ANSWER: &str = "010701000000010000001400000001000000000000000172656c656173650a";

fn heard(rt: &impl Abort, alloc: Global) -> Result<Vec<Vec<u8>>, NodeFault> {
    let mut came = Vec::new(alloc);
    for &text in HEARD {
        if came.push(bytes(rt, alloc, text)).is_err() {
            return Err(NodeFault::OutOfMemory);
        }
    }
    Ok(came)
}

/// The result of a batch that hears all of it: it ended as without a failed allocation.
fn batch(rt: &impl Abort, server: &mut DrivenNode<MemLink>) -> Result<bool, NodeFault> {
    let came = heard(rt, server.alloc)?;
    let malformed = server.batch(came.as_slice(), LastCall::TickOrAsk)?;
    let letters = server.letters()?;
    ensure(rt, malformed == 1 && letters.len() > 1, malformed);
    Ok(true)
}

fn hears(rt: &impl Abort, server: &mut DrivenNode<MemLink>, text: &str) {
    let datagram = bytes(rt, server.alloc, text);
    server.queue(rt, datagram.as_slice());
}

/// The result of a drive that hears all of it: whether it ended as without a failed allocation. Turns are
/// left for what an earlier drive did not take.
fn turns(rt: &impl Abort, server: &mut DrivenNode<MemLink>) -> Result<bool, NodeFault> {
    for &text in HEARD {
        hears(rt, server, text);
    }
    let driven = server.drive(10)?;
    ensure(rt, 1 <= driven.malformed && driven.failed <= 1, driven);
    Ok(driven.failed == 0)
}

fn turn(
    rt: &impl Abort,
    server: &mut DrivenNode<MemLink>,
    at_once: bool,
) -> Result<bool, NodeFault> {
    if at_once {
        batch(rt, server)
    } else {
        turns(rt, server)
    }
}

/// Why a call fails if an allocation failed.
fn cause(server: &DrivenNode<MemLink>) -> NodeFault {
    if server.node.is_stopped() {
        NodeFault::Device
    } else {
        NodeFault::OutOfMemory
    }
}

fn drives(rt: &impl Abort, server: &mut DrivenNode<MemLink>, at_once: bool) -> bool {
    match turn(rt, server, at_once) {
        Ok(whole) => whole,
        Err(fault) => {
            same(rt, fault, cause(server));
            false
        }
    }
}

/// A node that is stopped is opened again.
fn going(rt: &impl Abort, server: Box<DrivenNode<MemLink>>) -> Box<DrivenNode<MemLink>> {
    if server.node.is_stopped() {
        reopened(rt, server, None)
    } else {
        server
    }
}

/// The node is where it is without a failed allocation.
fn check_end(rt: &impl Abort, server: &DrivenNode<MemLink>, at_once: bool) {
    same(rt, (server.node.known(), server.node.newest()), (1, 1));
    if !at_once {
        // The last are the answer, and a tick to all.
        let at = server.link.sent().len().saturating_sub(4);
        let answer = bytes(rt, server.alloc, ANSWER);
        server.sent(rt, at, 3, answer.as_slice());
    }
}

/// If an allocation fails, the second drive has all that the first one may have lost.
fn driven(rt: &impl Abort, alloc: Global, at_once: bool) {
    let mut server = DrivenNode::over_queues(rt, alloc, 3);
    let whole = drives(rt, &mut server, at_once);
    let mut server = going(rt, server);
    ensure(rt, whole || drives(rt, &mut server, at_once), at_once);
    check_end(rt, &server, at_once);
}

#[test]
fn driving(rt: HostRuntime) {
    driven(&rt, rt.alloc(), false);
}

#[test]
fn batching(rt: HostRuntime) {
    driven(&rt, rt.alloc(), true);
}
