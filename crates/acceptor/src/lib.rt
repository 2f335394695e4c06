//! An acceptor's judgement of requests at one instance.
#![tactic(auto)]

mod judging;
mod laws;
mod slot;

pub use judging::{PrepareVerdict, ProposeVerdict, judge_prepare, judge_propose};
pub use laws::{promises_only_rise, requests_have_one_verdict, verdicts_are_steps};
pub use site_ids::Vote;
pub use slot::Slot;
