//! The command lines of the programs.
#![tactic(auto)]

mod arguments;
mod cluster_line;
mod commands;
mod inspection;
mod matched;
mod misuse;
mod render_line;
mod serve_line;
mod sim_line;
mod version;

pub use cluster_line::cluster_options;
pub use inspection::inspected;
pub use misuse::{Misuse, command_line, refuse};
pub use render_line::{RenderOptions, render_options};
pub use serve_line::sited_options;
pub use sim_line::{SimOptions, sim_options};
pub use version::{asks_version, tell_version};
