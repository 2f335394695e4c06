//! What a batch handed out, as datagrams to send.

ghost use Rattle.std.specs.Prelude.{◌≡◌, ◌++◌, ◌∷◌, [], ℕ, take, IfOk, OnOk, OnErr};
ghost use Rattle.wire.specs.Messages.{Fits};
ghost use Rattle.wire.specs.Spelling.{spelled};
ghost use Rattle.site_drive.specs.Leading.{AllFit};
ghost use Rattle.site_drive.specs.Posting.{letters_of, spelled_of};

use crate::desk::Desk;
use node::To;
use std::alloc::{AllocError, Global};
use wire::{Message, encode};

/// A datagram to send: to whom, and its bytes.
#[derive(Drop)]
pub struct Letter {
    pub to: To,
    pub bytes: Vec<u8>,
}

/// A message, spelled.
fn spell(alloc: Global, to: To, message: &Message) -> Result<Letter, AllocError>
    requires { Fits message.now }
    ensures { IfOk result (λ l. (l.to ≡ to) × (l.bytes.items ≡ spelled message.now)) }
{
    let mut bytes = Vec::new(alloc);
    encode(message, &mut bytes)?;
    Ok(Letter { to, bytes })
}

/// Puts a message after these letters. One that fits no datagram is ignored; no message of a node is such.
fn put(
    alloc: Global,
    letters: &mut Vec<Letter>,
    to: To,
    message: &Message,
) -> Result<(), AllocError>
    ensures ok { OnOk result (Fits message.now
        → letters_of letters.new.items ≡ letters_of letters.old.items ++ (to, spelled message.now) ∷ []) }
    ensures refused { OnErr result (letters_of letters.new.items ≡ letters_of letters.old.items) }
{
    if message.fits() {
        letters.push(spell(alloc, to, message)?)?;
    }
    Ok(())
}

impl Desk {
    /// Puts what waits after these letters, in order: one letter for each message, whether it is for one node
    /// or for all.
    pub fn post(&self, letters: &mut Vec<Letter>) -> Result<(), AllocError>
        ensures ok { OnOk result (AllFit self.now.outbox.items
            → letters_of letters.new.items
            ≡ letters_of letters.old.items ++ spelled_of self.now.outbox.items) }
        ensures refused { OnErr result (AllFit self.now.outbox.items → (k : ℕ)
            × (letters_of letters.new.items
            ≡ letters_of letters.old.items ++ take k (spelled_of self.now.outbox.items))) }
    {
        for (to, message) in self.outbox.as_slice() {
            put(self.alloc, letters, *to, message)?;
        }
        Ok(())
    }
}
