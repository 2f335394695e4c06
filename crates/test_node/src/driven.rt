//! Nodes driven over links: what is sent for what is heard, links that fail, faults, sockets on loopback,
//! each allocation that fails. No schedule has datagrams or links. The script of `crates/sitecluster/stdin`
//! shows that three nodes agree on a page. A test owns its servers and lends them to small functions: what
//! owns one is proved to drop it at each of its ends.

mod batches;
mod broken;
mod datagrams;
mod driven_node;
mod faults;
mod refusals;
mod sockets;
mod steps;
mod turns;
