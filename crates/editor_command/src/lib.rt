//! Whether a text is a command of a site, and if not, why.
//!
//! `refusal.rt` asks `command` whether it is. `command_text.rt` has the texts that are.
#![tactic(auto)]

mod command_text;
mod refusal;

pub use command_text::CommandText;
pub use refusal::{Refusal, refused};
