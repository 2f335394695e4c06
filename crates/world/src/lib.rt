//! A cluster's nodes and the list of all messages ever handed out: events, schedules, that every schedule
//! agrees, and a world that runs.
#![tactic(auto)]

mod batches;
mod bid;
mod event;
mod fault;
mod floors;
mod laws;
mod machine;
mod node_state;
mod passing;
mod plan;
mod queries;
mod quiet;
mod run_stop;
mod world;

pub use batches::batches_are_runs;
pub use event::Event;
pub use fault::{AskFault, WorldFault};
pub use laws::{
    every_schedule_agrees, kept_values_are_decided, quiet_stretches_decide, records_of_worlds_open,
    running_nodes_learn_together, runs_are_schedules, worked_keeping_is_taken,
    worked_plans_are_taken, worked_replacement_is_taken, worked_schedules_are_taken,
    worlds_answer_as_one,
};
pub use node_state::NodeState;
pub use world::World;
