//! The clients of a server: what each sent and is owed, on 64 seats; those that have their last response; and
//! a node that answers them. It is a crate apart from `server` so that it is proved beside `server_pace`.
#![tactic(auto)]

mod hold;
mod linger;
mod parting;
mod partings;
mod seat;
mod seats;
mod served;
mod serving_node;
mod stay;

pub use hold::Hold;
pub use linger::Linger;
pub use partings::Partings;
pub use seat::Seat;
pub use seats::Seats;
pub use served::Served;
pub use stay::Stay;
