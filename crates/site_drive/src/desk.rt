//! What turns and the calls after them work with.
//!
//! Room for turns is made once, since it takes a fifth of what an idle node costs. The buffer has one byte
//! more than the longest spelling.

ghost use Rattle.std.specs.Prelude.{◌≡◌, ◌+◌, [], length, IfOk};
ghost use Rattle.wire.specs.declared.TheConstants.{MAX_MESSAGE};

use crate::delivered::Delivered;
use crate::room::Room;
use node::Outbox;
use std::alloc::{AllocError, Global};
use wire::MAX_MESSAGE;

/// Room for a datagram and one more byte, so that one that was cut short spells nothing; for a spelling; and
/// for what the node hands out. Many drives can share a desk: each begins it anew, and none allocates the 32
/// KB of a datagram again.
#[derive(Drop)]
pub struct Desk {
    pub(crate) alloc: Global,
    pub(crate) datagram: Vec<u8>,
    pub(crate) spelling: Vec<u8>,
    pub(crate) outbox: Outbox,
    /// Calls of the link that failed.
    pub(crate) failed: u64,
    /// What this drive delivered.
    pub(crate) delivered: Delivered,
    /// When the file of its node's record grows ahead.
    pub(crate) ahead: Room,
    ghost room: { length datagram.items ≡ MAX_MESSAGE + 1 },
}

impl Desk {
    /// An empty desk, whose memory is allocated here. Its batches let no file grow ahead.
    pub fn new(alloc: Global) -> Result<Desk, AllocError>
        ensures empty { IfOk result (λ desk. (desk.outbox.items ≡ []) × (desk.failed ≡ 0)) }
        ensures ahead { IfOk result (λ desk. desk.ahead ≡ record { size = 0; next = 0 }) }
    {
        let mut datagram = Vec::new(alloc);
        datagram.resize(MAX_MESSAGE + 1, 0)?;
        Ok(Desk {
            alloc,
            datagram,
            spelling: Vec::new(alloc),
            outbox: Vec::new(alloc),
            failed: 0,
            delivered: Delivered::none(),
            ahead: Room::none(),
        })
    }

    /// The same desk, but its batches give a record's file this many bytes of room ahead.
    pub fn with_room(mut self, size: u64) -> Desk
        ensures { result ≡ record self { ahead = record { size = size; next = 0 } } }
    {
        self.ahead = Room { size, next: 0 };
        self
    }

    /// What the last drive delivered.
    pub fn delivered(&self) -> Delivered
        ensures { result ≡ self.now.delivered }
    {
        self.delivered
    }
}
