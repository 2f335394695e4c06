//! A server: one node on UDP and TCP, and its clients (`server_clients`), for the laps that it is asked for.
#![tactic(auto)]

mod addresses;
mod answering;
mod engine;
mod figures;
mod mail;
mod making;
mod openings;
mod packing;
mod passes;
mod peers;
mod recorded;
mod saying;
mod server;
mod shell;
mod sockets;
mod watch;

pub use engine::sited;
pub use http_read::Counted;
pub use mail::Mail;
pub use packing::pack;
pub use peers::Peers;
pub use recorded::Recorded;
pub use server::{Server, Stepped};
pub use server_clients::{Hold, Linger, Partings, Seats, Served, Stay};
pub use server_faults::{ServeOptions, ServerFault};
pub use shell::close;
pub use sockets::datagrams;
