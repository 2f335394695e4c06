//! The data of a page: JSON whose numbers are whole, and names looked up in it.
#![tactic(auto)]

mod copying;
mod fault;
mod json;
mod look_up;
mod tree;

pub use fault::DataFault;
pub use look_up::{Frame, resolve};
pub use tree::{Data, items, truthy};
