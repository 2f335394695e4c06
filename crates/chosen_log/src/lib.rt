//! The chosen values: one for each instance, and those from instance 1 on without a gap.
#![tactic(auto)]

mod chosen_log;
mod fault;

pub use chosen_log::{ChosenLog, Learned};
pub use fault::LearnFault;
