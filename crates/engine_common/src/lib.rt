//! What the engines of the programs share: their ends, what was read and not yet used, words and numbers.
#![tactic(auto)]

mod body;
mod cutting;
mod ends;
mod feed;
mod filling;
mod found;
mod saying;
mod words;

pub use body::body_in;
pub use cutting::{MAX_TEXT, cut, read_number};
pub use ends::{InputFault, read_all};
pub use feed::Feed;
pub use filling::fill;
pub use found::Found;
pub use saying::{give, say, say_at};
pub use words::{SubmissionLine, after, number_at_node, read_node, submission_after, word_after};
