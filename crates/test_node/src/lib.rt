//! Nodes over disks in memory: worked rows of one node, devices that fail at each call of a seal, and each
//! allocation that fails. `driven` has nodes that are driven over links, `worlds` runs of whole groups. What
//! lines of `sitesim` show is a file of examples/schedules or a case of examples/cases/sitesim. Here is what
//! no line shows or does: a message that no node of a group would send, a fault's kind, a batch, an
//! allocation that fails.
#![tactic(auto)]

#[cfg(test)]
mod batches;
#[cfg(test)]
mod comparing;
#[cfg(test)]
mod driven;
#[cfg(test)]
mod failures;
#[cfg(test)]
mod heard;
#[cfg(test)]
mod last_instance;
#[cfg(test)]
mod mute;
#[cfg(test)]
mod nodes;
#[cfg(test)]
mod peer;
#[cfg(test)]
mod refusals;
#[cfg(test)]
mod rows;
#[cfg(test)]
mod said;
#[cfg(test)]
mod samples;
#[cfg(test)]
mod steps;
#[cfg(test)]
mod worlds;
