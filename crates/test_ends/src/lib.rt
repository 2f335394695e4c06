//! For tests: a reader and a writer in memory that work in pieces and fail when a test wants it.
#![tactic(auto)]

mod pieces;
mod sink;

pub use pieces::{Pieces, in_pieces, trickle, whole};
pub use sink::Sink;
