//! A link whose calls fail.

use crate::comparing::same;
use crate::driven::driven_node::{DrivenNode, passes};
use site_drive::{Link, LinkFailed};
use site_ids::NodeId;
use std::process::Abort;

/// Receives nothing, and takes all that it is given to send, or fails.
#[derive(Drop)]
struct Broken {
    receives_fail: bool,
    sends_fail: bool,
    tries: u64,
    failures: u64,
}

impl Link for Broken {
    ghost use Rattle.std.specs.Prelude.{⊤};

    ghost received = { λ _ _. ⊤ };

    ghost given = { λ _ _. ⊤ };

    ghost tried = { λ l. l.tries };

    ghost failed = { λ l. l.failures };

    fn receive(&mut self, _buf: &mut [u8]) -> Result<Option<usize>, LinkFailed> {
        self.tries = self.tries.saturating_add(1);
        if self.receives_fail {
            self.failures = self.failures.saturating_add(1);
            return Err(LinkFailed);
        }
        Ok(None)
    }

    fn send(&mut self, _to: NodeId, _datagram: &[u8]) -> Result<(), LinkFailed> {
        if self.sends_fail {
            self.failures = self.failures.saturating_add(1);
            return Err(LinkFailed);
        }
        Ok(())
    }

    fn tries(&self) -> u64 {
        self.tries
    }

    fn failures(&self) -> u64 {
        self.failures
    }
}

/// Whether receives fail, and whether sends do; the turns of a drive, whose last call sends to three nodes;
/// how many calls fail.
const DRIVES: &[(bool, bool, u32, u64)] = &[
    (false, false, 9, 0),
    (true, false, 9, 9),
    (false, true, 9, 3),
    (true, true, 99, 102),
    (true, true, 0, 3),
];

fn drive(rt: &impl Abort, server: &mut DrivenNode<Broken>, turns: u32, failed: u64) {
    let tries = server.link.tries.saturating_add(u64::from(turns));
    let failures = server.link.failures.saturating_add(failed);
    passes(rt, server.drive(turns), 0, failed);
    same(
        rt,
        (server.link.tries, server.link.failures),
        (tries, failures),
    );
}

fn drive_each(rt: &impl Abort, server: &mut DrivenNode<Broken>) {
    for &(receives_fail, sends_fail, turns, failed) in DRIVES {
        server.link.receives_fail = receives_fail;
        server.link.sends_fail = sends_fail;
        drive(rt, server, turns, failed);
    }
}

#[test]
fn failed_calls_are_counted_and_passed_over(rt: HostRuntime) {
    let broken = Broken {
        receives_fail: false,
        sends_fail: false,
        tries: 0,
        failures: 0,
    };
    let mut server = DrivenNode::new(&rt, rt.alloc(), 3, broken);
    drive_each(&rt, &mut server);
    // Then a value is pending, and the last call is a tick.
    server.submit(&rt, 1);
    drive_each(&rt, &mut server);
}
