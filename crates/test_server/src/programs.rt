//! The renderer and the simulator over memory, with readers and writers that fail; command lines.

mod ends;
mod inspections;
mod misuses;
mod options;
mod refusals;
mod runs;
mod serve_options;
mod simulator;
mod versions;
