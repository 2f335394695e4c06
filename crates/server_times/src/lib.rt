//! All times of a server, in one record. It is a crate of its own so that `server_pace` and `server_clients`,
//! which use it, are proved side by side.
#![tactic(auto)]

mod times;

pub use times::{Times, has_passed};
