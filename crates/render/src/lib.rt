//! Mustache pages: what a template means over data, within its cost.
#![tactic(auto)]

mod escape;
mod fault;
mod lines;
mod margin;
mod nodes;
mod output;
mod page;
mod partials;
mod printed;

pub use escape::escape_into;
pub use fault::RenderFault;
pub use page::render;
pub use partials::Partials;
