//! Mustache templates: the nesting of a source's tokens, as a tree.
#![tactic(auto)]

mod indenting;
mod laws;
mod nesting;
mod node;
mod parser;
mod template;

pub use indenting::{indenting_keeps_trees, indents_are_blank, margin_makes_tree};
pub use laws::{faults_are_first, trees_are_made};
pub use mustache_scan::{FaultKind, TemplateFault};
pub use node::Node;
pub use parser::parse;
pub use template::Template;
