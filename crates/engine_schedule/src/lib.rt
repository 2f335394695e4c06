//! The engine of the simulator: a schedule in, what its nodes show out.
#![tactic(auto)]

mod laws;
mod schedule;
mod simulator;
mod tracing;

pub use laws::a_schedule_has_one_reading;
pub use simulator::sitesim;
