//! The votes that were reported to a node, and which values they make known.
#![tactic(auto)]

mod learner;
mod node_mask;
mod tally;

pub use learner::Learner;
