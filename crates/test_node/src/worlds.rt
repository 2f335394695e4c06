//! Worlds over disks in memory: runs that stop at an event or go on after a refusal, and each allocation that
//! fails. Schedules are files of examples/schedules, and rows of them cases of examples/cases/sitesim.

mod group;
mod refusals;
mod runs;
mod step;
