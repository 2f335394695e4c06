//! Reads HTTP/1.1 requests, one at a time, from any reader (RFC 9112).
//!
//! `request` reads the next one of a connection: its method, its path and its body, or the status of its
//! refusal, or that the client sent no more. What the client sent is read as one list of bytes, however it
//! was cut. Readers and writers are counted ends: `Counted` says how many of their calls failed.
#![tactic(auto)]

mod awaited;
mod body;
mod breaks;
mod checks;
mod chunk_lines;
mod codings;
mod connection;
mod counted;
mod escaping;
mod fault;
mod fields;
mod heads;
mod inbox;
mod incoming;
mod judging;
mod laws;
mod lengths;
mod lines;
mod opening;
mod progress;
mod reading;
mod taking;
mod targets;
mod trailers;
mod writing;

pub use awaited::Awaited;
pub use counted::Counted;
pub use escaping::ESCAPED;
pub use fault::ReadFault;
pub use fields::first_named;
pub use inbox::Inbox;
pub use incoming::{Incoming, Method, Request};
pub use laws::{answer_is_one, answer_stands, candidates_agree, head_is_one};
pub use progress::{Progress, advance};
pub use reading::request;
pub use writing::write_all;
