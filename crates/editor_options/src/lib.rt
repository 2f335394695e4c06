//! The command line of `sitepub`. It is a crate of its own, so that it is proved beside what its words do.
//!
//! `line.rt` reads its words (`word.rt`), `arguments.rt` has what they are made of, and `manner.rt` how they
//! are to report.
#![tactic(auto)]

mod arguments;
mod line;
mod manner;
mod word;

pub use line::word_in;
pub use manner::Manner;
pub use word::{CheckWord, FileWord, PublishWord, StatusWord, ToldWord, Word};
