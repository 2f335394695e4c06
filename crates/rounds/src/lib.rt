//! Servers in rounds. In each round every server takes one step, and what the steps hand out waits before the
//! next ones. A calm group decides in five rounds, and steps of a server's code are such steps.
#![tactic(auto)]

mod laws;

pub use laws::{attempts_decide, calm_rounds_decide, rounds_agree, rounds_of_code_decide};
