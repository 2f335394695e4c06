//! The engine of three servers that a script drives.
#![tactic(auto)]

mod client;
mod cluster;
mod laws;
mod loopback_fault;
mod loopback_server;
mod script;
mod servers;

pub use cluster::sitecluster;
pub use laws::a_script_has_one_reading;
