//! A link of queues in memory.

ghost use Rattle.std.specs.Prelude.{◌≤◌, length};

use site_ids::NodeId;
use std::alloc::Global;

/// Receives what was queued for it, and keeps what it was given to send, unless an allocation fails.
#[derive(Drop)]
pub struct MemLink {
    pub(crate) alloc: Global,
    pub(crate) queue: Vec<Vec<u8>>,
    pub(crate) taken: usize,
    pub(crate) sent: Vec<(NodeId, Vec<u8>)>,
    pub(crate) lost: bool,
    pub(crate) tries: u64,
    pub(crate) failures: u64,
    ghost within: { taken ≤ length queue.items },
}
