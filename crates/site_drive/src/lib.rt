//! A node at work: messages between nodes over a link, and turns that take what was received and send what is
//! handed out.
#![tactic(auto)]

mod batch;
mod calls;
mod delivered;
mod desk;
mod driven;
mod driving;
mod last_call;
mod letter;
mod link;
mod mem_link;
mod queues;
mod room;
mod sending;
mod turns;
mod udp_link;

pub use delivered::Delivered;
pub use desk::Desk;
pub use driven::Driven;
pub use driving::drive;
pub use last_call::LastCall;
pub use letter::Letter;
pub use link::{Link, LinkFailed};
pub use mem_link::MemLink;
pub use room::Room;
pub use udp_link::UdpLink;
