//! What a link in memory does.

ghost use Rattle.std.specs.Prelude.{◌≡◌, ◌++◌, ◌∷◌, [], OnOk, OnErr, false};
ghost use Rattle.site_drive.specs.Memory.{kept_of, received_of, waiting_of};

use crate::{Link, LinkFailed, MemLink};
use site_ids::NodeId;
use std::alloc::{AllocError, Global};

impl MemLink {
    /// Nothing was received, and nothing sent.
    pub fn new(alloc: Global) -> MemLink
        ensures nothing { (received_of result ≡ []) × (kept_of result ≡ []) × (result.lost ≡ false) }
        ensures none { (result.tries ≡ 0) × (result.failures ≡ 0) }
    {
        MemLink {
            alloc,
            queue: Vec::new(alloc),
            taken: 0,
            sent: Vec::new(alloc),
            lost: false,
            tries: 0,
            failures: 0,
        }
    }

    /// Queues a datagram after the others, to be received.
    pub fn push(&mut self, datagram: &[u8]) -> Result<(), AllocError>
        ensures queued { OnOk result (waiting_of self.new ≡ waiting_of self.old ++ datagram.now ∷ []) }
        ensures refused { OnErr result (waiting_of self.new ≡ waiting_of self.old) }
        ensures same { (received_of self.new ≡ received_of self.old) × (self.new.sent ≡ self.old.sent)
            × (self.new.lost ≡ self.old.lost) × (self.new.tries ≡ self.old.tries)
            × (self.new.failures ≡ self.old.failures) }
    {
        let datagram = Vec::from_slice(self.alloc, datagram)?;
        self.queue.push(datagram)?;
        Ok(())
    }

    /// What was given to send, and kept: to whom, and the bytes.
    pub fn sent(&self) -> &[(NodeId, Vec<u8>)]
        ensures { result.now ≡ self.now.sent.items }
    {
        self.sent.as_slice()
    }

    // Keeps what was given to send.
    fn keep(&mut self, to: NodeId, datagram: &[u8]) -> Result<(), AllocError>
        ensures kept { OnOk result (kept_of self.new ≡ kept_of self.old ++ (to, datagram.now) ∷ []) }
        ensures others { (self.new.queue ≡ self.old.queue) × (self.new.taken ≡ self.old.taken)
            × (self.new.lost ≡ self.old.lost) × (self.new.tries ≡ self.old.tries)
            × (self.new.failures ≡ self.old.failures) }
    {
        let datagram = Vec::from_slice(self.alloc, datagram)?;
        self.sent.push((to, datagram))?;
        Ok(())
    }
}

impl Link for MemLink {
    ghost use Rattle.std.specs.Prelude.{◌≡◌, true};
    ghost use Rattle.site_drive.specs.Memory.{kept_of, received_of};

    ghost received = { λ l ds. ds ≡ received_of l };

    ghost given = { λ l gs. ¬ (l.lost ≡ true) → gs ≡ kept_of l };

    ghost tried = { λ l. l.tries };

    ghost failed = { λ l. l.failures };

    fn receive(&mut self, buf: &mut [u8]) -> Result<Option<usize>, LinkFailed> {
        self.tries = self.tries.saturating_add(1);
        let Some(datagram) = self.queue.get(self.taken) else {
            return Ok(None);
        };
        let bytes = datagram.as_slice();
        let n = bytes.len().min(buf.len());
        buf[..n].copy_from_slice(&bytes[..n]);
        self.taken += 1;
        Ok(Some(n))
    }

    fn send(&mut self, to: NodeId, datagram: &[u8]) -> Result<(), LinkFailed> {
        if self.keep(to, datagram).is_ok() {
            return Ok(());
        }
        self.lost = true;
        self.failures = self.failures.saturating_add(1);
        Err(LinkFailed)
    }

    fn tries(&self) -> u64 {
        self.tries
    }

    fn failures(&self) -> u64 {
        self.failures
    }
}
