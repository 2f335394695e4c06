//! A link over a UDP socket.

ghost use Rattle.std.specs.Prelude.{◌≡◌};

use crate::{Link, LinkFailed};
use site_ids::NodeId;
use std::io::{self, ErrorKind};
use std::net::{SocketAddr, UdpSocket};

/// A socket, and the addresses of nodes 1 to n. No clause says what it carries.
#[derive(Drop)]
pub struct UdpLink {
    socket: UdpSocket,
    peers: Vec<SocketAddr>,
    tries: u64,
    failures: u64,
}

impl UdpLink {
    /// Node p has the p-th address. How long a receive waits is the socket's read timeout.
    pub fn new(socket: UdpSocket, peers: Vec<SocketAddr>) -> UdpLink
        ensures { (result.tries ≡ 0) × (result.failures ≡ 0) }
    {
        UdpLink {
            socket,
            peers,
            tries: 0,
            failures: 0,
        }
    }

    /// Whether a receive waits for the socket's read timeout, as at first, or not at all.
    pub fn set_waiting(&self, waits: bool) -> io::Result<()> {
        self.socket.set_nonblocking(!waits)
    }
}

impl Link for UdpLink {
    ghost use Rattle.std.specs.Prelude.{⊤};

    ghost received = { λ _ _. ⊤ };

    ghost given = { λ _ _. ⊤ };

    ghost tried = { λ l. l.tries };

    ghost failed = { λ l. l.failures };

    fn receive(&mut self, buf: &mut [u8]) -> Result<Option<usize>, LinkFailed> {
        self.tries = self.tries.saturating_add(1);
        match self.socket.recv_from(buf) {
            Ok((n, _from)) => Ok(Some(n)),
            Err(e) if matches!(e.kind(), ErrorKind::WouldBlock | ErrorKind::TimedOut) => Ok(None),
            Err(_) => {
                self.failures = self.failures.saturating_add(1);
                Err(LinkFailed)
            }
        }
    }

    fn send(&mut self, to: NodeId, datagram: &[u8]) -> Result<(), LinkFailed> {
        if let Some(peer) = self.peers.get(to.number() as usize - 1) {
            if self.socket.send_to(datagram, *peer).is_ok() {
                return Ok(());
            }
        }
        self.failures = self.failures.saturating_add(1);
        Err(LinkFailed)
    }

    fn tries(&self) -> u64 {
        self.tries
    }

    fn failures(&self) -> u64 {
        self.failures
    }
}
