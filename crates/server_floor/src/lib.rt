//! The floor of a record that takes the place of a lost one: how far the records of others reach, as their
//! operators report it, and what is 64 above the furthest.
#![tactic(auto)]

mod counting;
mod fault;
mod floor;
mod told;

pub use fault::FloorFault;
pub use floor::{floor_above, read_floor};
pub use told::{Told, told_in};
