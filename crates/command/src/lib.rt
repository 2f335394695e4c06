//! Commands of a site: their values, and why other bytes are not commands.
#![tactic(auto)]

mod commands;
mod fault;
mod laws;
mod names;
mod reading;
mod rows;
mod writing;

pub use commands::{Action, Command, Kind};
pub use fault::{CommandFault, fault_line};
pub use laws::{readings_are_by_the_table, releases_only_grow, the_last_command_counts};
pub use reading::{read, ticket};
pub use writing::write;
