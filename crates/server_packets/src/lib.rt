//! What goes between servers in one piece: a datagram, or several of them as one packet.
#![tactic(auto)]

mod frames;
mod laws;
mod packet;

pub use frames::{first_frame, frames_in};
pub use laws::{packets_hold_one_list, what_is_sent_is_held};
pub use packet::Packet;

/// What a packet of several datagrams begins with, and no message does.
pub const MARK: u8 = 3;

/// The most bytes of such a packet: with the heads of UDP and IP it fits one frame of an Ethernet, so none is
/// cut into fragments, of which each has to arrive.
pub const MAX_PACKET: usize = 1400;

/// The bytes of a datagram's length before it.
pub const LENGTH_BYTES: usize = 4;
