//! The bytes that wait to be written.
//!
//! Room for a response after others is made before its request is answered (`Spare`), so that nothing is
//! allocated after a submission that was accepted.
ghost use Rattle.std.specs.Prelude.{◌≡◌, ◌≤◌, ◌<◌, ◌+◌, ◌*◌, ◌++◌, List, ℕ, [], length, drop, vec_capacity};
ghost use Rattle.std.specs.Prelude.{IfOk, IsTrue, MatchOption, ◌↔◌};
ghost use Rattle.http_serve.specs.declared.outbox.TheConstants.{WAITING};

use std::alloc::{AllocError, Global};
use std::marker::Model;

/// While this many bytes wait, no further request is answered. A response of this many bytes is a long one.
pub(crate) const WAITING: usize = 16_384;

/// The responses that are not written yet, in order, without what of the first one is written.
#[derive(Drop)]
pub(crate) struct Outbox {
    // responses one after another, and how many of their bytes were written
    bytes: Vec<u8>,
    sent: usize,
    // a long response after them, as it lies in memory
    long: Option<Vec<u8>>,
}

/// Room for all that waits, and for a response that is not long.
#[derive(Drop)]
pub(crate) struct Spare {
    bytes: Vec<u8>,
    ghost empty: { bytes.items ≡ [] },
    ghost room: { 2 * WAITING ≤ vec_capacity bytes },
}

impl Model for Outbox {
    ghost use Rattle.std.specs.Prelude.{◌≤◌, ◌++◌, ℕ, List, drop, vec_len};
    ghost use Rattle.http_serve.specs.Outboxes.{behind, IsBehind};

    ghost Value = { List ℕ };

    ghost view = { λ b. drop b.sent b.bytes.items ++ behind b.long };

    ghost invariant = { λ b. (b.sent ≤ vec_len b.bytes) × IsBehind (drop b.sent b.bytes.items) b.long };
}

impl Spare {
    fn new(alloc: Global) -> Result<Spare, AllocError> {
        let bytes = Vec::with_capacity(alloc, 2 * WAITING)?;
        Ok(Spare { bytes })
    }

    /// Both, one after the other. It does not allocate.
    fn joined(self, first: &[u8], second: &[u8]) -> Vec<u8>
        requires { length first.now + length second.now ≤ 2 * WAITING }
        ensures { result.items ≡ first.now ++ second.now }
    {
        let mut bytes = self.bytes;
        let _ = bytes.extend_from_slice(first);
        let _ = bytes.extend_from_slice(second);
        bytes
    }
}

impl Outbox {
    pub(crate) fn new(alloc: Global) -> Outbox
        ensures { result ≡ [] }
    {
        Outbox {
            bytes: Vec::new(alloc),
            sent: 0,
            long: None,
        }
    }

    /// What is written next.
    pub(crate) fn waiting(&self) -> &[u8]
        ensures front { (rest : List ℕ) × (self.now ≡ result.now ++ rest) }
        ensures some { 0 < length self.now → 0 < length result.now }
    {
        &self.bytes.as_slice()[self.sent..]
    }

    pub(crate) fn is_empty(&self) -> bool
        ensures { IsTrue result ↔ (length self.now ≡ 0) }
    {
        self.sent >= self.bytes.len()
    }

    /// Whether so few bytes wait that a further response may wait after them.
    pub(crate) fn has_room(&self) -> bool
        ensures { IsTrue result ↔ (length self.now < WAITING) }
    {
        self.long.is_none() && self.bytes.len() - self.sent < WAITING
    }

    /// The room that the next response needs: none if nothing waits.
    pub(crate) fn spare(&self, alloc: Global) -> Result<Option<Spare>, AllocError>
        ensures { IfOk result (λ spare. MatchOption spare (length self.now ≡ 0) (λ _. 0 < length self.now)) }
    {
        if self.is_empty() {
            return Ok(None);
        }
        Ok(Some(Spare::new(alloc)?))
    }

    /// Takes a whole response after those that wait. The first one, and a long one, stay as they lie in
    /// memory. It does not allocate.
    pub(crate) fn put(&mut self, message: Vec<u8>, spare: Option<Spare>)
        requires few { length self.old < WAITING }
        requires spare { MatchOption spare (length self.old ≡ 0) (λ _. 0 < length self.old) }
        ensures { self.new ≡ self.old ++ message.items }
    {
        match spare {
            None => {
                self.bytes = message;
                self.sent = 0;
            }
            Some(spare) => {
                if message.len() < WAITING {
                    let waits = &self.bytes.as_slice()[self.sent..];
                    self.bytes = spare.joined(waits, message.as_slice());
                    self.sent = 0;
                } else {
                    self.long = Some(message);
                }
            }
        }
    }

    /// Drops the first bytes, which were written.
    pub(crate) fn pass(&mut self, n: usize)
        requires { n ≤ length self.old }
        ensures { self.new ≡ drop n self.old }
    {
        let rest = self.bytes.len() - self.sent;
        if n < rest {
            self.sent += n;
            return;
        }
        match self.long.take() {
            Some(bytes) => {
                self.bytes = bytes;
                self.sent = n - rest;
            }
            None => self.sent += n,
        }
    }

    /// Gives up what waits.
    pub(crate) fn clear(&mut self)
        ensures { self.new ≡ [] }
    {
        self.bytes.clear();
        self.sent = 0;
        self.long = None;
    }
}
