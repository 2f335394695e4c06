//! What carries datagrams. `sitecluster` and tests have links. A server has none: `Server::step` takes
//! datagrams as data, so that its tests need no socket.
//!
//! A failed receive is a turn without a datagram. A failed send is ignored, and so is a message that fits no
//! datagram: nodes hand out no such message.

ghost use Rattle.std.specs.Prelude.{◌≡◌, ◌≤◌, ◌++◌, ◌∷◌, [], ℕ, List, length, take, IfOk, IfSome, IfNone};
ghost use Rattle.std.specs.Prelude.{OnOk, OnErr};
ghost use Rattle.site_drive.specs.Links.{RoseBy};

use site_ids::NodeId;

/// The link failed. Nothing was received, or it is not known whether anything was sent.
#[derive(Clone, Copy, Debug, PartialEq, Eq, Drop)]
pub struct LinkFailed;

/// Carries datagrams between nodes, as UDP does (RFC 768): each whole or not at all, perhaps twice, in any
/// order.
pub trait Link {
    // these may be the datagrams received so far, and these what was given to send so far: to whom, and the
    // bytes
    ghost received: { Self → List (List ℕ) → Type 0 };

    ghost given: { Self → List (ℕ × List ℕ) → Type 0 };

    // how many receives were tried, and how many calls failed
    ghost tried: { Self → ℕ };

    ghost failed: { Self → ℕ };

    /// Receives one datagram, as much of it as the slice holds. Returns how many bytes that is; `None` if no
    /// datagram is there.
    fn receive(&mut self, buf: &mut [u8]) -> Result<Option<usize>, LinkFailed>
        ensures bound { IfOk result (λ r. IfSome r (λ n. n ≤ length buf.new)) }
        ensures heard { IfOk result (λ r. IfSome r (λ n. (ds : List (List ℕ)) → received self.old ds
            → (d : List ℕ) × received self.new (ds ++ d ∷ []) × (take n buf.new ≡ take (length buf.new) d))) }
        ensures none { IfOk result (λ r. IfNone r ((ds : List (List ℕ)) → received self.old ds
            → received self.new ds)) }
        ensures lost { OnErr result ((ds : List (List ℕ)) → received self.old ds → received self.new ds) }
        ensures given { (gs : List (ℕ × List ℕ)) → given self.old gs → given self.new gs }
        ensures tried { RoseBy 1 (tried self.old) (tried self.new) }
        ensures failed { OnErr result (RoseBy 1 (failed self.old) (failed self.new)) }
        ensures fine { OnOk result (failed self.new ≡ failed self.old) };

    /// Sends a datagram to a node.
    fn send(&mut self, to: NodeId, datagram: &[u8]) -> Result<(), LinkFailed>
        ensures received { (ds : List (List ℕ)) → received self.old ds → received self.new ds }
        ensures given { (gs : List (ℕ × List ℕ)) → given self.old gs
            → given self.new (gs ++ (to, datagram.now) ∷ []) }
        ensures tried { tried self.new ≡ tried self.old }
        ensures failed { OnErr result (RoseBy 1 (failed self.old) (failed self.new)) }
        ensures fine { OnOk result (failed self.new ≡ failed self.old) };

    /// How many receives were tried. The number stays at `u64::MAX` once it is there.
    fn tries(&self) -> u64
        ensures { result ≡ tried self.now };

    /// How many calls failed. The number stays at `u64::MAX` once it is there.
    fn failures(&self) -> u64
        ensures { result ≡ failed self.now };
}
