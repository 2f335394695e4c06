//! The datagrams of a packet that came.

ghost use Rattle.std.specs.Prelude.{◌≡◌, ◌≢◌, ◌<◌, ◌≤◌, ◌^◌, ◌↔◌, ◌++◌, ◌∷◌, ℕ, List, length, IfNone, IfSome};
ghost use Rattle.std.specs.Prelude.{IsTrue, MatchOption};
ghost use Rattle.byteorder.specs.Endian.{big_bytes};
ghost use Rattle.server_packets.specs.Packets.{framed, framed_all, IsPacket};
ghost use Rattle.server_packets.specs.declared.TheConstants.{MARK, MAX_PACKET};

use crate::{LENGTH_BYTES, MARK, MAX_PACKET};
use byteorder::{BigEndian, ByteOrder};

/// The length at the front, and what follows it.
fn length_at(frames: &[u8]) -> Option<(u32, &[u8])>
    ensures found { IfSome result (λ r. frames.now ≡ big_bytes 4 r.0 ++ r.1.now) }
    ensures none { IfNone result (length frames.now < 4) }
{
    if frames.len() < LENGTH_BYTES {
        return None;
    }
    Some((BigEndian::read_u32(frames), &frames[LENGTH_BYTES..]))
}

/// The first datagram of what follows the mark, and what follows that datagram.
pub fn first_frame(frames: &[u8]) -> Option<(&[u8], &[u8])>
    ensures found { IfSome result (λ r. frames.now ≡ framed r.0.now ++ r.1.now) }
    ensures none { IfNone result ((d rest : List ℕ) → length d < 2 ^ 32 → frames.now ≢ framed d ++ rest) }
{
    let (len, rest) = length_at(frames)?;
    rest.split_at_checked(len as usize)
}

/// Whether these are whole datagrams, each after its length.
fn are_frames(frames: &[u8]) -> bool
    requires { length frames.now ≤ MAX_PACKET }
    ensures { IsTrue result ↔ ((ds : List (List ℕ)) × (frames.now ≡ framed_all ds)) }
{
    let mut rest = frames;
    while let Some((_, behind)) = first_frame(rest) {
        rest = behind;
    }
    rest.is_empty()
}

/// What follows the mark, if these bytes are a packet of several datagrams.
pub fn frames_in(bytes: &[u8]) -> Option<&[u8]>
    ensures { MatchOption result (¬ IsPacket bytes.now)
        (λ frames. (bytes.now ≡ MARK ∷ frames.now) × (length bytes.now ≤ MAX_PACKET)
        × ((ds : List (List ℕ)) × (frames.now ≡ framed_all ds))) }
{
    let [mark, frames @ ..] = bytes else {
        return None;
    };
    (*mark == MARK && bytes.len() <= MAX_PACKET && are_frames(frames)).then_some(frames)
}
