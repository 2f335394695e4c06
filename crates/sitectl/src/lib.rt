//! All programs' engines and command lines in one place, for tests that run programs without a process
//! (`test_server`); and the two laws that know servers and worlds: what a server does with its node is a
//! schedule's (`passes.rt`), and a floor that it is given one of the world's (`floors.rt`).
#![tactic(auto)]

mod floors;
mod passes;

pub use engine_options::{
    Misuse, RenderOptions, SimOptions, asks_version, cluster_options, command_line, inspected,
    refuse, render_options, sim_options, sited_options, tell_version,
};
pub use engine_page::{an_input_has_one_verdict, siterender};
pub use engine_schedule::{a_schedule_has_one_reading, sitesim};
pub use engine_script::{a_script_has_one_reading, sitecluster};
pub use floors::floors_are_allowed;
pub use http_read::Counted;
pub use passes::passes_are_batches;
pub use server::{ServeOptions, Served, sited};
pub use server_inspect::inspect;
