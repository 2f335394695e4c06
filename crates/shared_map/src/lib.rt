//! A map whose copies share what they have in common.
#![tactic(auto)]

mod shared_map;
mod sought;
mod tree;

pub use shared_map::SharedMap;
pub use sought::Sought;
