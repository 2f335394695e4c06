//! Datagrams between a node and what carries them, in memory.

ghost use Rattle.std.specs.Prelude.{◌≡◌, ◌++◌, ◌∷◌, [], ◌↔◌, ◌⊎◌, ◌≤◌, ℕ, List, length, IsTrue, OnOk, OnErr};
ghost use Rattle.site_drive.specs.Posting.{bytes_of, letters_of};
ghost use Rattle.server_packets.specs.Packets.{Holds, framed_all};
ghost use Rattle.server_packets.specs.declared.TheConstants.{MAX_PACKET};
ghost use Rattle.server.specs.Speaking.{no_peers, HearsFrames, HearsPiece};
ghost use Rattle.server.specs.Mailing.{waiting_of, posted_of, own_of, is_for, counted, HasRoom};

use crate::peers::Peers;
use node::To;
use server_packets::{first_frame, frames_in};
use server_times::Times;
use site_drive::Letter;
use site_ids::{Cluster, NodeId};
use std::alloc::{AllocError, Global};
use wire::decode;

/// How many datagrams wait at most.
const DATAGRAMS: usize = 256;

/// While this many bytes wait, some 1 MB, no further datagram is received.
const BYTES: usize = 1_000_000;

/// Datagrams that came and wait for the next step, and letters that the last one handed out.
///
/// The carrier takes in what came, and sends each letter to the node that it is for, or to each other node if
/// it is for all (`pack`). What is for this node itself never leaves it: it waits for the next step, before
/// all that comes until then.
#[derive(Drop)]
pub struct Mail {
    alloc: Global,
    cluster: Cluster,
    /// Which other nodes read packets.
    pub peers: Peers,
    pub(crate) came: Vec<Vec<u8>>,
    // how many bytes of datagrams were pushed since the last step, as far as they are counted
    bytes: usize,
    pub(crate) letters: Vec<Letter>,
}

/// Whether a letter is for a node.
pub(crate) fn reaches(to: To, node: NodeId) -> bool
    ensures { result ≡ is_for node to }
{
    match to {
        To::All => true,
        To::One(one) => one.number() == node.number(),
    }
}

/// If a letter is for that node, it waits as one more datagram.
fn put_own(
    alloc: Global,
    letter: &Letter,
    me: NodeId,
    came: &mut Vec<Vec<u8>>,
) -> Result<(), AllocError>
    ensures { OnOk result (bytes_of came.new.items
        ≡ bytes_of came.old.items ++ own_of me (letters_of (letter.now ∷ []))) }
{
    if reaches(letter.to, me) {
        came.push(Vec::from_slice(alloc, letter.bytes.as_slice())?)?;
    }
    Ok(())
}

/// Puts each of these letters that is for that node.
fn put_each(
    alloc: Global,
    letters: &[Letter],
    me: NodeId,
    came: &mut Vec<Vec<u8>>,
) -> Result<(), AllocError>
    ensures { OnOk result (bytes_of came.new.items
        ≡ bytes_of came.old.items ++ own_of me (letters_of letters.now)) }
{
    for letter in letters {
        put_own(alloc, letter, me, came)?;
    }
    Ok(())
}

impl Mail {
    /// Nothing waits, and nothing is to be sent.
    pub fn new(alloc: Global, cluster: Cluster, times: Times) -> Mail
        ensures empty { (waiting_of result ≡ []) × (posted_of result ≡ []) }
        ensures peers { (result.cluster ≡ cluster) × (result.peers ≡ no_peers times) }
        ensures room { result.bytes ≡ 0 }
    {
        Mail {
            alloc,
            cluster,
            peers: Peers::new(times),
            came: Vec::new(alloc),
            bytes: 0,
            letters: Vec::new(alloc),
        }
    }

    /// Whether a datagram may be received before the next step.
    pub fn has_room(&self) -> bool
        ensures { IsTrue result ↔ HasRoom self.now }
    {
        self.came.len() < DATAGRAMS && self.bytes < BYTES
    }

    /// Whether nothing waits.
    pub fn is_empty(&self) -> bool
        ensures { IsTrue result ↔ (waiting_of self.now ≡ []) }
    {
        self.came.is_empty()
    }

    /// A datagram came: it waits after the others.
    pub fn push(&mut self, datagram: &[u8]) -> Result<(), AllocError>
        ensures came { OnOk result (waiting_of self.new ≡ waiting_of self.old ++ datagram.now ∷ []) }
        ensures room { OnOk result (self.new.bytes ≡ counted self.old.bytes (datagram.now ∷ [])) }
        ensures refused { OnErr result (waiting_of self.new ≡ waiting_of self.old) }
        ensures same { self.new.letters ≡ self.old.letters }
        ensures peers { (self.new.peers ≡ self.old.peers) × (self.new.cluster ≡ self.old.cluster) }
    {
        let datagram = Vec::from_slice(self.alloc, datagram)?;
        self.bytes = self.bytes.saturating_add(datagram.len());
        self.came.push(datagram)?;
        Ok(())
    }

    /// Takes in what came in one piece: each datagram that it holds waits after the others. If an allocation
    /// fails, the first of them may wait. A node that sends a packet reads packets.
    pub fn take_in(&mut self, piece: &[u8], now: u64) -> Result<(), AllocError>
        ensures came { OnOk result ((ds : List (List ℕ)) × Holds piece.now ds
            × (waiting_of self.new ≡ waiting_of self.old ++ ds)
            × (self.new.bytes ≡ counted self.old.bytes ds)) }
        ensures refused { OnErr result ((done left : List (List ℕ)) × Holds piece.now (done ++ left)
            × (waiting_of self.new ≡ waiting_of self.old ++ done)) }
        ensures same { (self.new.letters ≡ self.old.letters) × (self.new.cluster ≡ self.old.cluster) }
        ensures peers { HearsPiece self.old.cluster piece.now now self.old.peers self.new.peers }
    {
        match frames_in(piece) {
            Some(frames) => {
                self.hear(frames, now);
                self.take_frames(frames)
            }
            None => self.push(piece),
        }
    }

    /// The node that sent the first message of a packet reads packets. If an allocation fails, no node is
    /// noted.
    fn hear(&mut self, frames: &[u8], now: u64)
        ensures hears { HearsFrames self.old.cluster frames.now now self.old.peers self.new.peers
            ⊎ (self.new.peers ≡ self.old.peers) }
        ensures same { self.new ≡ record self.old { peers = self.new.peers } }
    {
        let Some((first, _)) = first_frame(frames) else {
            return;
        };
        if let Ok(message) = decode(self.alloc, first, self.cluster) {
            self.peers.hear(message.from(), now);
        }
    }

    /// Takes in what follows the mark of a packet.
    fn take_frames(&mut self, frames: &[u8]) -> Result<(), AllocError>
        requires { length frames.now ≤ MAX_PACKET }
        ensures came { OnOk result ((ds : List (List ℕ)) → frames.now ≡ framed_all ds
            → (waiting_of self.new ≡ waiting_of self.old ++ ds)
            × (self.new.bytes ≡ counted self.old.bytes ds)) }
        ensures refused { OnErr result ((ds : List (List ℕ)) → frames.now ≡ framed_all ds
            → (done left : List (List ℕ)) × (ds ≡ done ++ left)
            × (waiting_of self.new ≡ waiting_of self.old ++ done)) }
        ensures same { self.new.letters ≡ self.old.letters }
        ensures peers { (self.new.peers ≡ self.old.peers) × (self.new.cluster ≡ self.old.cluster) }
    {
        let mut rest = frames;
        while let Some((datagram, behind)) = first_frame(rest) {
            self.push(datagram)?;
            rest = behind;
        }
        Ok(())
    }

    /// What is to be sent.
    pub fn letters(&self) -> &[Letter]
        ensures { result.now ≡ self.now.letters.items }
    {
        self.letters.as_slice()
    }

    /// What waited was taken. Now the letters for this node wait.
    pub(crate) fn keep_own(&mut self, me: NodeId) -> Result<(), AllocError>
        ensures own { OnOk result (waiting_of self.new ≡ own_of me (posted_of self.old)) }
        ensures room { self.new.bytes ≡ 0 }
        ensures same { self.new.letters ≡ self.old.letters }
        ensures peers { (self.new.peers ≡ self.old.peers) × (self.new.cluster ≡ self.old.cluster) }
    {
        self.came.clear();
        self.bytes = 0;
        put_each(self.alloc, self.letters.as_slice(), me, &mut self.came)
    }
}
