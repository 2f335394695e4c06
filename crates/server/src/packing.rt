//! Letters, packed for the nodes that they are for.

ghost use Rattle.std.specs.Prelude.{◌≡◌, ◌≤◌, ◌↔◌, [], ℕ, List, length, take, true, IfOk, IsTrue};
ghost use Rattle.site_drive.specs.Posting.{letters_of};
ghost use Rattle.server_packets.specs.Making.{Packs};
ghost use Rattle.server.specs.Mailing.{own_of};
ghost use Rattle.server.specs.Speaking.{IsFull, MayJoin};

use crate::mail::reaches;
use server_packets::Packet;
use site_drive::Letter;
use site_ids::NodeId;
use std::alloc::AllocError;

/// Whether a datagram of `len` bytes may go with those that are packed. The first may. A further one may if
/// it is not to go `alone` and there is room.
fn may_join(packet: &Packet, len: usize, alone: bool) -> bool
    ensures { (ds : List (List ℕ)) → Packs packet.now ds → IsTrue result ↔ MayJoin ds len alone }
{
    packet.is_empty() || (!alone && packet.has_room(len))
}

/// Packs what the first of these letters have for a node, in the place of what was packed. It packs as many
/// as go into one packet, and at least one, however long that is; or only one, for a node that reads no
/// packets (`Peers`). Returns how many of the letters these are, including those for other nodes.
pub fn pack(
    letters: &[Letter],
    to: NodeId,
    alone: bool,
    packet: &mut Packet,
) -> Result<usize, AllocError>
    ensures packed { IfOk result (λ n. (ds : List (List ℕ)) → Packs packet.old ds
        → Packs packet.new (own_of to (letters_of (take n letters.now)))) }
    ensures single { IfOk result (λ n. (ds : List (List ℕ)) → Packs packet.old ds → alone ≡ true
        → length (own_of to (letters_of (take n letters.now))) ≤ 1) }
    ensures full { IfOk result (λ n. (ds : List (List ℕ)) → Packs packet.old ds
        → IsFull to letters.now n alone) }
    ensures within { IfOk result (λ n. n ≤ length letters.now) }
    ensures goes_on { IfOk result (λ n. (ds : List (List ℕ)) → Packs packet.old ds → n ≡ 0
        → letters.now ≡ []) }
{
    packet.clear();
    for (n, letter) in letters.iter().enumerate() {
        if reaches(letter.to, to) {
            if !may_join(packet, letter.bytes.len(), alone) {
                return Ok(n);
            }
            packet.push(letter.bytes.as_slice())?;
        }
    }
    Ok(letters.len())
}
