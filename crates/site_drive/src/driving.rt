//! Turns without calls, and turns with calls after the last one.
//!
//! `sitecluster` and tests drive nodes by `drive`. `sited` goes by `Server::step` instead: its pace chooses
//! the last call, and one seal covers all datagrams of a step.

ghost use Rattle.std.specs.Prelude.{◌≡◌, ◌≤◌, [], ℕ, IfOk, IfErr, OnOk, OnErr};
ghost use Rattle.node.specs.Standing.{CountsDevice, failures};
ghost use Rattle.site_drive.specs.Links.{RoseBy};
ghost use Rattle.site_drive.specs.Sending.{Counted};
ghost use Rattle.site_drive.specs.Drives.{Exchanges, GivesUp, DrivesWith, GivesUpDrivingWith, Drives};
ghost use Rattle.site_drive.specs.Drives.{GivesUpDriving};
ghost use Rattle.site_drive.specs.Ending.{EndsDrive};
ghost use Rattle.site_drive.specs.Leading.{LeadsTo, StaysWhose};

use crate::delivered::Delivered;
use crate::desk::Desk;
use crate::{Driven, LastCall, Link};
use node::{Node, NodeFault};
use site_disk::Disk;
use std::alloc::Global;

impl Desk {
    /// Takes `turns` turns, and returns how many datagrams were malformed.
    fn take_turns<D: Disk, L: Link>(
        &mut self,
        node: &mut Node<D>,
        link: &mut L,
        turns: u32,
    ) -> Result<u32, NodeFault>
        requires { self.old.outbox.items ≡ [] }
        ensures ok { IfOk result (λ malformed.
            LeadsTo D.stands_for L.received L.given node.old node.new link.old link.new
            (Exchanges node.old.cluster node.old.me turns malformed node.new.releases)) }
        ensures fault { IfErr result (λ fault.
            LeadsTo D.stands_for L.received L.given node.old node.new link.old link.new
            (GivesUp node.old.cluster node.old.me turns fault)) }
        ensures empty { OnOk result (self.new.outbox.items ≡ []) }
        ensures whose { StaysWhose node.old node.new }
        ensures tried { OnOk result (RoseBy turns (L.tried link.old) (L.tried link.new)) }
        ensures tried_fewer { OnErr result ((made : ℕ) × (made ≤ turns)
            × RoseBy made (L.tried link.old) (L.tried link.new)) }
        ensures counted { Counted self.old.failed self.new.failed (L.failed link.old) (L.failed link.new) }
        ensures counts { CountsDevice result (failures D.failed node.old) (failures D.failed node.new) }
    {
        let mut malformed = 0;
        let mut made = 0;
        while made < turns {
            malformed += self.turn(node, link)?;
            made += 1;
        }
        Ok(malformed)
    }

    /// Takes `turns` turns. Each receives at most one datagram, delivers what it spells, publishes, and sends
    /// what is handed out. After the last turn it makes the last call, and sends what that hands out. If that
    /// call is refused because every instance is known, the refusal is ignored.
    ///
    /// A datagram that spells no message and a call of the link that fails are counted, and otherwise
    /// ignored, as losses. What an earlier drive left on the desk does not count.
    pub fn drive_with<D: Disk, L: Link>(
        &mut self,
        node: &mut Node<D>,
        link: &mut L,
        turns: u32,
        last: LastCall,
    ) -> Result<Driven, NodeFault>
        ensures { EndsDrive D.stands_for D.failed L.received L.given L.tried L.failed turns
            node.old node.new link.old link.new result
            (λ driven. DrivesWith last node.old.cluster node.old.me turns driven.malformed node.new.releases)
            (GivesUpDrivingWith last node.old.cluster node.old.me turns) }
    {
        self.outbox.clear();
        self.failed = 0;
        self.delivered = Delivered::none();
        let malformed = self.take_turns(node, link, turns)?;
        self.close(node, link, last)?;
        Ok(Driven {
            malformed,
            failed: self.failed,
        })
    }
}

/// Takes turns as `Desk::drive_with` does. After them it ticks and widens if a tick is wanted, and asks if
/// not.
pub fn drive<D: Disk, L: Link>(
    alloc: Global,
    node: &mut Node<D>,
    link: &mut L,
    turns: u32,
) -> Result<Driven, NodeFault>
    ensures { EndsDrive D.stands_for D.failed L.received L.given L.tried L.failed turns
        node.old node.new link.old link.new result
        (λ driven. Drives node.old.cluster node.old.me turns driven.malformed node.new.releases)
        (GivesUpDriving node.old.cluster node.old.me turns) }
{
    let mut desk = Desk::new(alloc)?;
    desk.drive_with(node, link, turns, LastCall::TickOrAsk)
}
