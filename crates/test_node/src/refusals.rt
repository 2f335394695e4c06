//! Each call with one allocation that fails. It returns what it always returns, or that an allocation failed,
//! and then the next try returns what it always returns. If an allocation of the disk in memory failed, its
//! call failed, so the node is opened again. An opening is tried twice. No line of `sitesim` makes an
//! allocation fail.
//!
//! Each test tries everything twice. A second program, `tools/gate/refuse-growths`, runs each test once for
//! each of its allocations, and makes that one fail: the first try meets it, the second does not. Without
//! that program no allocation fails.
use crate::comparing::{ensure, same};
use crate::heard::Heard;
use crate::peer::{Call, Peer, ends, passes};
use crate::said::{Said, ensure_last, prepared_round};
use crate::samples::{RELEASE, Text};
use node::NodeFault;
use std::alloc::Global;
use std::process::Abort;

#[derive(Clone, Copy)]
enum Step {
    Calls(Call),
    Hears(Heard),
    /// A node's promise to the last prepare comes: it voted for `v` in an earlier round.
    Promise(u8),
}

const V: Text = Text::Raw("v");

/// Node 3 proposes.
const PROPOSAL: Step = Step::Hears(Heard::Propose(3, 1, 1, V));

const PREPARE: Step = Step::Hears(Heard::Prepare(3, 1, 1, 2));

fn promise(rt: &impl Abort, node: &mut Peer, from: u8) -> Result<(), NodeFault> {
    let round = prepared_round(&node.out).expect(rt, "a prepare");
    node.hear(rt, Heard::Promise(from, round, 1))
}

fn act(rt: &impl Abort, node: &mut Peer, step: Step) -> Result<(), NodeFault> {
    match step {
        Step::Calls(call) => node.call(rt, call),
        Step::Hears(heard) => node.hear(rt, heard),
        Step::Promise(from) => promise(rt, node, from),
    }
}

/// Why a call fails if an allocation failed.
fn cause(node: &Peer) -> NodeFault {
    if node.node.is_stopped() {
        NodeFault::Device
    } else {
        NodeFault::OutOfMemory
    }
}

/// `said` messages were handed out, and `known` instances are known.
fn is_where(rt: &impl Abort, node: &Peer, said: usize, known: u32) {
    same(rt, (node.out.len(), node.node.known()), (said, known));
}

/// Whether the step was taken. A step that failed hands out nothing and makes nothing known.
fn takes(rt: &impl Abort, node: &mut Peer, step: Step) -> bool {
    let said = node.out.len();
    let known = node.node.known();
    let acted = act(rt, node, step);
    if acted.is_ok() {
        return true;
    }
    ends(rt, acted, Err(cause(node)));
    is_where(rt, node, said, known);
    false
}

/// A node that is stopped is opened again.
fn going(rt: &impl Abort, node: Peer) -> Peer {
    if node.node.is_stopped() {
        node.again(rt, None)
    } else {
        node
    }
}

/// The node after the step.
fn stepped(rt: &impl Abort, node: Peer, step: Step) -> Peer {
    let mut node = node;
    let took = takes(rt, &mut node, step);
    let mut node = going(rt, node);
    if !took {
        passes(rt, act(rt, &mut node, step));
    }
    node
}

/// Node 1 of three after the steps.
fn after(rt: &impl Abort, alloc: Global, steps: &[Step]) -> Peer {
    let mut node = Peer::fresh(rt, alloc);
    for &step in steps {
        node = stepped(rt, node, step);
    }
    node
}

const SUBMISSIONS: &[Step] = &[Step::Calls(Call::Submit(RELEASE)), Step::Calls(Call::Ask)];

const TICKS: &[Step] = &[Step::Calls(Call::Tick), Step::Promise(2), Step::Promise(3)];

const WIDENINGS: &[Step] = &[
    Step::Calls(Call::Submit(RELEASE)),
    Step::Calls(Call::Widen),
    Step::Calls(Call::Tick),
];

const REQUESTS: &[Step] = &[PROPOSAL, PREPARE];

const OPENINGS: &[Step] = &[Step::Calls(Call::Tick), PROPOSAL];

const VOTES_TOLD: &[Step] = &[
    Step::Hears(Heard::Vote(2, RELEASE)),
    Step::Hears(Heard::Vote(3, RELEASE)),
    Step::Calls(Call::Publish),
];

const VALUES_TOLD: &[Step] = &[
    Step::Hears(Heard::Chosen(3, 1, V)),
    Step::Hears(Heard::Ask(3, 1)),
];

const TELLINGS: &[Step] = &[PROPOSAL, Step::Calls(Call::Tell(0, 1))];

#[test]
fn submissions(rt: HostRuntime) {
    let node = after(&rt, rt.alloc(), SUBMISSIONS);
    ensure_last(&rt, &node.out, 0, Said::Ask(1));
    same(&rt, node.node.wants_tick(), true);
}

#[test]
fn ticks(rt: HostRuntime) {
    let node = after(&rt, rt.alloc(), TICKS);
    ensure_last(&rt, &node.out, 0, Said::Propose("v"));
}

#[test]
fn widenings(rt: HostRuntime) {
    let node = after(&rt, rt.alloc(), WIDENINGS);
    ensure(&rt, prepared_round(&node.out).is_some(), 1);
}

#[test]
fn requests(rt: HostRuntime) {
    let node = after(&rt, rt.alloc(), REQUESTS);
    is_where(&rt, &node, 2, 0);
    ensure_last(&rt, &node.out, 3, Said::Told(1, 1));
}

#[test]
fn openings(rt: HostRuntime) {
    let node = after(&rt, rt.alloc(), OPENINGS).again(&rt, None);
    let node = stepped(&rt, node, PREPARE);
    ensure_last(&rt, &node.out, 3, Said::Told(1, 1));
    let node = stepped(&rt, node, Step::Calls(Call::Tick));
    let round = prepared_round(&node.out).unwrap_or(0);
    ensure(&rt, 1 < round, round);
}

#[test]
fn votes_told(rt: HostRuntime) {
    let node = after(&rt, rt.alloc(), VOTES_TOLD);
    same(&rt, (node.node.known(), node.node.newest()), (1, 1));
}

#[test]
fn values_told(rt: HostRuntime) {
    is_where(&rt, &after(&rt, rt.alloc(), VALUES_TOLD), 1, 1);
}

#[test]
fn tellings(rt: HostRuntime) {
    is_where(&rt, &after(&rt, rt.alloc(), TELLINGS), 2, 0);
}
