//! The site that a list of values leaves, by name.
#![tactic(auto)]

mod applied;
mod contents;
mod maps;
mod site;
mod target;

pub use applied::Applied;
pub use contents::Contents;
pub use site::Site;
