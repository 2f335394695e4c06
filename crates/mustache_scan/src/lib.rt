//! Reads a Mustache template into tokens.
#![tactic(auto)]

mod cuts;
mod delimiters;
mod fault;
mod laws;
mod names;
mod padding;
mod push;
mod scanner;
mod standalone;
mod tag;
mod token;

pub use fault::{FaultKind, TemplateFault};
pub use laws::{cuts_are_first, readings_go_on};
pub use scanner::scan;
pub use token::{Token, TokenKind};
