//! What the words of `sitepub` share: why one failed, the outcome of one, lines that are written, and
//! waiting.
#![tactic(auto)]

mod editor_fault;
mod listing;
mod outcome;
mod patience;
mod talk_fault;
mod telling;

pub use editor_fault::EditorFault;
pub use listing::texts_value;
pub use outcome::Outcome;
pub use patience::{now, passed, rest};
pub use talk_fault::TalkFault;
pub use telling::{say, say_made};
