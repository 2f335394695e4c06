//! What a node has published, and its answers.

ghost use Rattle.std.specs.Prelude.{◌≡◌, ◌↔◌, ◌⊎◌, ◌<◌, ◌≤◌, ◌++◌, List, Some, true, IfOk, OnOk, OnErr};
ghost use Rattle.std.specs.Prelude.{IfSome, IsErrOf, is_some, length, take};
ghost use Rattle.site_ids.specs.declared.TheConstants.{MAX_INSTANCE};
ghost use Rattle.site_disk.specs.Model.{DiskState};
ghost use Rattle.command.specs.Effective.{effective};
ghost use Rattle.command.specs.Releases.{release_count};
ghost use Rattle.node.specs.Nodes.{Value as Bytes};
ghost use Rattle.node.specs.Published.{AreHeldWith};
ghost use Rattle.release.specs.Page.{answer};
ghost use Rattle.release.specs.Receipts.{receipt_of};
ghost use Rattle.release.specs.Standing.{answer_view};

use crate::read_value::{ReadValue, feed_value};
use crate::{Node, NodeFault};
use release::{Answer, AnswerFault, Releases};
use site_disk::Disk;
use site_ids::{Instance, Ticket, Value};
use std::alloc::AllocError;
use std::collections::{BTreeMap, BTreeSet};

// Takes a ticket that was published out of a set.
fn drop_published(tickets: &mut BTreeSet<Ticket>, ticket: Option<Ticket>)
    ensures { (published : List Bytes) → IfSome ticket (λ t. is_some (receipt_of t published) ≡ true)
        → AreHeldWith tickets.old tickets.new published }
{
    if let Some(ticket) = ticket {
        tickets.remove(&ticket);
    }
}

// Feeds those of the values that were not fed yet, in order, each with what was read of it. The tickets that
// are taken out are those that the releases have.
fn feed(
    values: &[Value],
    unpublished: &mut BTreeMap<u32, ReadValue>,
    tickets: &mut BTreeSet<Ticket>,
    releases: &mut Releases,
) -> Result<(), AllocError>
    requires { length values.now ≤ MAX_INSTANCE }
    ensures more { (more : List Bytes) × (releases.new ≡ releases.old ++ more) }
    ensures begins { releases.old ≡ take (length releases.old) values.now
        → releases.new ≡ take (length releases.new) values.now }
    ensures tickets { AreHeldWith tickets.old tickets.new releases.new }
    ensures all { OnOk result (length values.now ≤ length releases.new) }
    ensures short { OnErr result (length releases.new < length values.now) }
{
    while let Some(value) = values.get(releases.len()) {
        let read = unpublished.remove(&(releases.len() as u32 + 1));
        let ticket = feed_value(value, read, releases)?;
        drop_published(tickets, ticket);
    }
    Ok(())
}

impl<D: Disk> Node<D> {
    ghost use Rattle.node.specs.Nodes.{Node as AbstractNode, IsKnownPrefix};
    ghost use Rattle.node.specs.Standing.{IsNodeOf, IsOnDisk};

    /// Publishes all that is known without a gap, and returns the number of the newest release. If an
    /// allocation fails, a part is published.
    pub fn publish(&mut self) -> Result<u64, NodeFault>
        ensures same { (s : AbstractNode) → IsNodeOf self.old s → IsNodeOf self.new s }
        ensures on_disk { (s : AbstractNode) (d : DiskState) → IsOnDisk D.stands_for self.old s d
            → IsOnDisk D.stands_for self.new s d }
        ensures store { self.new.store ≡ self.old.store }
        ensures more { (more : List Bytes) × (self.new.releases ≡ self.old.releases ++ more) }
        ensures ok { IfOk result (λ n. (n ≡ release_count (effective self.new.releases))
            × ((s : AbstractNode) → IsNodeOf self.old s → IsKnownPrefix s self.new.releases)) }
        ensures err { OnErr result (IsErrOf result NodeFault.OutOfMemory) }
        ensures short { OnErr result ((s : AbstractNode) → IsNodeOf self.old s
            → ¬ IsKnownPrefix s self.new.releases) }
        ensures whose { (self.new.me ≡ self.old.me) × (self.new.cluster ≡ self.old.cluster) }
    {
        let known = &mut self.known;
        feed(
            known.log.prefix(),
            &mut known.unpublished,
            &mut known.tickets,
            &mut self.releases,
        )?;
        Ok(self.releases.newest())
    }

    /// The number of the newest release published; 0 if there is none.
    pub fn newest(&self) -> u64
        ensures { result ≡ release_count (effective self.now.releases) }
    {
        self.releases.newest()
    }

    /// The page of release n for a path.
    pub fn answer(&self, n: u64, path: &str) -> Result<Answer, AnswerFault>
        ensures ok { IfOk result (λ a. answer self.now.releases n path.now ≡ Some (answer_view a)) }
        ensures none { IsErrOf result AnswerFault.NoSuchRelease
            ↔ ((n ≡ 0) ⊎ (release_count (effective self.now.releases) < n)) }
    {
        self.releases.answer(n, path)
    }

    /// The instance of the first value published that is a command with that ticket.
    pub fn receipt(&self, ticket: Ticket) -> Option<Instance>
        ensures { result ≡ receipt_of ticket self.now.releases }
    {
        self.releases.receipt(ticket)
    }
}
