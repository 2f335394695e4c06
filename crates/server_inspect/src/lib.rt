//! What a record holds, for whoever runs a server. It is read without a lock, even while a node runs over it,
//! and nothing is written.
#![tactic(auto)]

mod counting;
mod inspecting;
mod lines;
mod snapshot;
mod view;

pub use inspecting::inspect;
pub use lines::lines_of;
pub use snapshot::Snapshot;
pub use view::{View, damage_of};
