//! What a server is asked to be, why it ends, and the lines that say so.
#![tactic(auto)]

mod cause;
mod saying;
mod serve_options;
mod server_fault;
mod why;

pub use cause::Cause;
pub use saying::say;
pub use serve_options::ServeOptions;
pub use server_fault::ServerFault;
pub use why::{say_where_of_record, say_why, say_why_of_record};
