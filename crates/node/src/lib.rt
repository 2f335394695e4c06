//! A node of the replicated log: what it keeps, what each call does to it, and how a call may end.
#![tactic(auto)]

mod accepted;
mod again;
mod asked;
mod asking;
mod batching;
mod beginning;
mod chosen;
mod delivering;
mod fault;
mod growing;
mod keeping;
mod known;
mod laws;
mod learning;
mod messages;
mod nacked;
mod node;
mod prepared;
mod promised;
mod proposed;
mod publishing;
mod queries;
mod queue;
mod read_value;
mod submitted;
mod submitting;
mod telling;
mod ticking;
mod to;
mod widening;

pub use fault::NodeFault;
pub use laws::{
    calls_forget_nothing, known_values_are_kept, no_call_is_stuck, nodes_stay_in_range,
    nodes_stay_tidy,
};
pub use node::Node;
use proposer::MAX_ATTEMPTS;
pub use submitted::Submitted;
pub use to::{Outbox, To};

/// A node has attempts at no more than 64 instances, from the first unknown one on.
pub(crate) const WINDOW: u32 = MAX_ATTEMPTS as u32;

/// A telling is about 64 instances.
pub const MAX_TOLD: u32 = 64;

/// The values of a telling have at most 65,536 bytes in all: the tellings of a few nodes at once fit into the
/// buffer of a socket.
pub const MAX_TOLD_BYTES: usize = 65_536;
