//! A packet that is being made.

ghost use Rattle.std.specs.Prelude.{◌≡◌, ◌↔◌, ◌≤◌, ◌++◌, ◌∷◌, [], ℕ, ◌+◌, ◌*◌, List, length, vec_len, IfOk};
ghost use Rattle.std.specs.Prelude.{IfNone, IfSome, IsTrue, OnOk, OnErr};
ghost use Rattle.byteorder.specs.Endian.{big_bytes};
ghost use Rattle.server_packets.specs.Packets.{framed_all, IsPacketOf, IsSent};
ghost use Rattle.server_packets.specs.declared.TheConstants.{MAX_PACKET};

use crate::{LENGTH_BYTES, MARK, MAX_PACKET};
use byteorder::{BigEndian, ByteOrder};
use std::alloc::{AllocError, Global};

/// Datagrams that go together, in order.
#[derive(Drop)]
pub struct Packet {
    // the mark, and after it each datagram, after its length
    bytes: Vec<u8>,
    count: usize,
    ghost lengths: { 4 * count + 1 ≤ vec_len bytes },
}

/// The length of a datagram, its highest byte first. No packet has a datagram among others whose length needs
/// more than four bytes.
fn length_of(datagram: &[u8]) -> [u8; LENGTH_BYTES]
    ensures { length datagram.now ≤ MAX_PACKET → result ≡ big_bytes 4 (length datagram.now) }
{
    let mut bytes = [0; LENGTH_BYTES];
    let len = u32::try_from(datagram.len()).unwrap_or(u32::MAX);
    BigEndian::write_u32(&mut bytes, len);
    bytes
}

impl Packet {
    ghost use Rattle.server_packets.specs.Making.{HasRoom, Packs};

    /// A packet without datagrams.
    pub fn new(alloc: Global) -> Result<Packet, AllocError>
        ensures { IfOk result (λ packet. Packs packet []) }
    {
        let mut bytes = Vec::new(alloc);
        bytes.push(MARK)?;
        Ok(Packet { bytes, count: 0 })
    }

    /// Removes the datagrams. The memory stays.
    pub fn clear(&mut self)
        ensures { (ds : List (List ℕ)) → Packs self.old ds → Packs self.new [] }
    {
        self.bytes.truncate(1);
        self.count = 0;
    }

    /// Whether it has no datagram.
    pub fn is_empty(&self) -> bool
        ensures { (ds : List (List ℕ)) → Packs self.now ds → IsTrue result ↔ (ds ≡ []) }
    {
        self.count == 0
    }

    /// Whether a datagram of `len` bytes may go with these. The first one may, however long it is.
    pub fn has_room(&self, len: usize) -> bool
        ensures { (ds : List (List ℕ)) → Packs self.now ds → IsTrue result ↔ HasRoom ds len }
    {
        self.count == 0
            || self
                .bytes
                .len()
                .saturating_add(LENGTH_BYTES)
                .saturating_add(len)
                <= MAX_PACKET
    }

    /// Adds one more datagram, for which there is room.
    pub fn push(&mut self, datagram: &[u8]) -> Result<(), AllocError>
        ensures ok { OnOk result ((ds : List (List ℕ)) → Packs self.old ds → HasRoom ds (length datagram.now)
            → Packs self.new (ds ++ datagram.now ∷ [])) }
        ensures refused { OnErr result ((ds : List (List ℕ)) → Packs self.old ds → Packs self.new ds) }
    {
        let before = self.bytes.len();
        self.bytes.extend_from_slice(&length_of(datagram))?;
        if let Err(refused) = self.bytes.extend_from_slice(datagram) {
            self.bytes.truncate(before);
            return Err(refused);
        }
        self.count += 1;
        Ok(())
    }

    /// The datagrams as a packet, even if it is only one, unless that has more bytes than a packet may.
    pub fn as_packet(&self) -> Option<&[u8]>
        ensures fits { IfSome result (λ bytes. (ds : List (List ℕ)) → Packs self.now ds
            → IsPacketOf ds bytes.now) }
        ensures long { IfNone result ((ds : List (List ℕ)) → Packs self.now ds
            → MAX_PACKET ≤ length (framed_all ds)) }
    {
        if self.bytes.len() > MAX_PACKET {
            return None;
        }
        Some(self.bytes.as_slice())
    }

    /// What is to be sent. One datagram by itself is sent as it is.
    pub fn bytes(&self) -> &[u8]
        ensures { (ds : List (List ℕ)) → Packs self.now ds → IsSent ds result.now }
    {
        if self.count == 1 {
            &self.bytes[1 + LENGTH_BYTES..]
        } else {
            self.bytes.as_slice()
        }
    }
}
