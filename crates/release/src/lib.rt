//! Releases of a site: the values fed in order, and the pages of each release.
#![tactic(auto)]

mod answer;
mod fault;
mod kept;
mod laws;
mod page;
mod releases;
mod step;

pub use answer::Answer;
pub use fault::AnswerFault;
pub use laws::{answers_stay, receipts_are_first};
pub use releases::Releases;
