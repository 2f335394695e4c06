//! A server without sockets and clock.

ghost use Rattle.std.specs.Prelude.{◌≡◌, ◌↔◌, ◌||◌, [], IfOk, IfErr, IfSome, IsFalse, IsSome, OnOk};
ghost use Rattle.std.specs.Prelude.{length, true, false};
ghost use Rattle.node.specs.Standing.{failures};
ghost use Rattle.site_drive.specs.Batches.{LeadsSealed};
ghost use Rattle.site_drive.specs.Leading.{StaysWhose};
ghost use Rattle.site_drive.specs.declared.last_call.LastCall.{LastCall};
ghost use Rattle.server_clients.specs.Answering.{TellsAnswered};
ghost use Rattle.server_faults.specs.ServerFaults.{CountsNone};
ghost use Rattle.server_pace.specs.Pacing.{empty_after, first_pace, resting_of, Rests};
ghost use Rattle.server_pace.specs.Returning.{returning_of};
ghost use Rattle.server_times.specs.Timing.{rest_after};
ghost use Rattle.server.specs.Returning.{AnswersOrLeaves, ComesBack, IsBack};
ghost use Rattle.server.specs.Mailing.{waiting_of, posted_of, own_of, has_come};
ghost use Rattle.server.specs.Speaking.{no_peers};
ghost use Rattle.server.specs.Passes.{AreSenders, TakesStep, EndsByStep, IsBatchOf, Paces};
ghost use Rattle.server_clients.specs.declared.served.Served.{Served};

use crate::answering::{answer, is_returning};
use crate::mail::Mail;
use crate::recorded::Recorded;
use server_clients::{Seats, Served};
use server_faults::ServerFault;
use server_pace::{Pace, Returning, Times};
use site_disk::Disk;
use site_drive::Desk;
use site_ids::{NodeId, NodeSet};
use std::alloc::Global;

/// A server without sockets and clock: a node, its mail, its clients, and when it tries and asks.
///
/// Whoever has the sockets puts datagrams into the mail and clients on seats. In each pass they let the seats
/// read, take a step, send the mail's letters, let the seats write, and part with the clients that leave. S
/// is the stream of a client.
#[derive(Drop)]
pub struct Server<D, S> {
    me: NodeId,
    pub served: Served<D>,
    pub mail: Mail,
    pub seats: Seats<S>,
    desk: Desk,
    pace: Pace,
    returning: Returning,
}

/// What a step did.
#[derive(Clone, Copy, Debug, PartialEq, Eq, Drop)]
pub struct Stepped {
    /// Whether datagrams waited for it.
    pub came: bool,
    /// How many of them spelled no message.
    pub malformed: u64,
    /// The nodes that sent the others.
    pub heard: NodeSet,
    /// Whether requests were answered.
    pub answered: bool,
}

/// What the batch of a step did.
#[derive(Clone, Copy, Drop)]
struct Batched {
    // how many of its datagrams spelled no message
    malformed: u64,
    // the nodes that sent the others
    heard: NodeSet,
}

impl<D: Disk + Drop, S: Drop> Server<D, S> {
    /// The node serves nobody yet, and has heard nothing. The desk is an empty one.
    pub fn new(
        alloc: Global,
        me: NodeId,
        served: Served<D>,
        desk: Desk,
        times: Times,
        recorded: Recorded,
    ) -> Server<D, S>
        requires { me ≡ served.node.me }
        ensures node { (result.served ≡ served) × (result.me ≡ me) }
        ensures mail { (waiting_of result.mail ≡ []) × (posted_of result.mail ≡ []) }
        ensures room { result.mail.bytes ≡ 0 }
        ensures peers { (result.mail.peers ≡ no_peers times) × (result.mail.cluster ≡ served.node.cluster) }
        ensures clients { (result.seats.seats.items ≡ []) × (result.seats.times ≡ times) }
        ensures pace { result.pace ≡ first_pace times served.node.cluster me recorded.last }
        ensures returning { result.returning ≡ returning_of times recorded.furthest }
    {
        let cluster = served.node.cluster();
        Server {
            me,
            served,
            mail: Mail::new(alloc, cluster, times),
            seats: Seats::new(alloc, times),
            desk,
            pace: Pace::new(times, cluster, me, recorded.last),
            returning: Returning::new(times, recorded.furthest),
        }
    }

    /// Takes the batch of a step: all that waits, and the call that is due after it. What that hands out is
    /// posted.
    fn take_batch(&mut self, now: u64) -> Result<Batched, ServerFault>
        ensures ok { IfOk result (λ batched. (last : LastCall)
            × IsBatchOf D.stands_for last (waiting_of self.old.mail) batched.malformed
            (posted_of self.new.mail) self.old.served.node self.new.served.node
            × Paces self.old.served.node self.old.mail now last self.old.pace self.new.pace) }
        ensures heard { IfOk result (λ batched.
            AreSenders self.old.served.node.cluster (waiting_of self.old.mail) batched.heard) }
        ensures own { OnOk result (waiting_of self.new.mail ≡ own_of self.old.me (posted_of self.new.mail)) }
        ensures room { OnOk result (self.new.mail.bytes ≡ 0) }
        ensures peers { (self.new.mail.peers ≡ self.old.mail.peers)
            × (self.new.mail.cluster ≡ self.old.mail.cluster) }
        ensures seats { self.new.seats ≡ self.old.seats }
        ensures returning { self.new.returning ≡ self.old.returning }
        ensures me { self.new.me ≡ self.old.me }
        ensures fault { IfErr result (EndsByStep D.stands_for (waiting_of self.old.mail)
            (posted_of self.new.mail) self.old.served.node self.new.served.node) }
        ensures whose { StaysWhose self.old.served.node self.new.served.node }
        ensures counts { CountsNone result (failures D.failed self.old.served.node)
            (failures D.failed self.new.served.node) }
    {
        let drained = self.mail.has_room();
        let last = self.pace.due(now, &self.served.node, drained);
        self.mail.letters.clear();
        let came = self.mail.came.as_slice();
        let malformed = self.desk.take_batch(&mut self.served.node, came, last)?;
        let delivered = self.desk.delivered();
        self.pace.hear(&delivered);
        self.desk.post(&mut self.mail.letters)?;
        self.mail.keep_own(self.me)?;
        Ok(Batched {
            malformed: malformed as u64,
            heard: delivered.heard(),
        })
    }

    /// Whether the server is coming back, `now` milliseconds after it began. Then requests are left.
    pub fn is_returning(&self, now: u64) -> bool
        ensures returns { result ≡ true → ComesBack self.now.returning now self.now.served.node }
        ensures back { result ≡ false → IsBack self.now.returning now self.now.served.node }
    {
        is_returning(self.returning, &self.served.node, now)
    }

    /// One step, `now` milliseconds after the server began, and never less than before. All that waits is one
    /// batch, after which the node publishes. What the batch hands out is the mail's letters. Then requests
    /// are answered, except those that are left. While the server is coming back, all are left.
    pub fn step(&mut self, now: u64) -> Result<Stepped, ServerFault>
        ensures clients { IfOk result (λ stepped. (mid : Served D) × (last : LastCall)
            × IsBatchOf D.stands_for last (waiting_of self.old.mail) stepped.malformed
            (posted_of self.new.mail) self.old.served.node mid.node
            × Paces self.old.served.node self.old.mail now last self.old.pace self.new.pace
            × AnswersOrLeaves self.old.returning now self.old.seats.times mid self.new.served
            self.old.seats.seats.items self.new.seats.seats.items) }
        ensures heard { IfOk result (λ stepped.
            AreSenders self.old.served.node.cluster (waiting_of self.old.mail) stepped.heard) }
        ensures came { IfOk result (λ stepped. IsFalse stepped.came ↔ (waiting_of self.old.mail ≡ [])) }
        ensures answered { IfOk result (λ stepped. TellsAnswered stepped.answered
            (length self.old.seats.seats.items) self.old.seats.seats.items self.new.seats.seats.items) }
        ensures ok { OnOk result (LeadsSealed D.stands_for self.old.served.node self.new.served.node
            (TakesStep self.old.served.node.cluster self.old.served.node.me (waiting_of self.old.mail)
            (posted_of self.new.mail) self.new.served.node.releases)) }
        ensures own { OnOk result (waiting_of self.new.mail ≡ own_of self.old.me (posted_of self.new.mail)) }
        ensures room { OnOk result (self.new.mail.bytes ≡ 0) }
        ensures peers { (self.new.mail.peers ≡ self.old.mail.peers)
            × (self.new.mail.cluster ≡ self.old.mail.cluster) }
        ensures same { (self.new.me ≡ self.old.me) × (self.new.returning ≡ self.old.returning)
            × (self.new.seats.times ≡ self.old.seats.times) }
        ensures fault { IfErr result (EndsByStep D.stands_for (waiting_of self.old.mail)
            (posted_of self.new.mail) self.old.served.node self.new.served.node) }
        ensures whose { StaysWhose self.old.served.node self.new.served.node }
        ensures counts { CountsNone result (failures D.failed self.old.served.node)
            (failures D.failed self.new.served.node) }
    {
        let came = !self.mail.is_empty();
        let batched = self.take_batch(now)?;
        let answered = answer(self.returning, &mut self.seats, &mut self.served, now)?;
        Ok(Stepped {
            came,
            malformed: batched.malformed,
            heard: batched.heard,
            answered,
        })
    }

    /// Whether datagrams came for a step, or wait for the next one.
    fn has_come(&self, stepped: Stepped) -> bool
        ensures { result ≡ has_come stepped.came (waiting_of self.now.mail) }
    {
        stepped.came || !self.mail.is_empty()
    }

    /// How many microseconds to rest after this step. `moved` says whether bytes of clients moved. `None`
    /// while datagrams or bytes of clients came or went.
    pub fn rest(&mut self, stepped: Stepped, moved: bool) -> Option<u64>
        ensures rests { IsSome result ↔ Rests (resting_of self.old.pace
            (has_come stepped.came (waiting_of self.old.mail)) (moved || stepped.answered)) }
        ensures long { IfSome result (λ micros.
            micros ≡ rest_after self.old.pace.times self.old.pace.empty self.old.pace.tells
            (length self.old.seats.seats.items)) }
        ensures counts { self.new.pace ≡ record self.old.pace {
          empty = empty_after (resting_of self.old.pace
              (has_come stepped.came (waiting_of self.old.mail)) (moved || stepped.answered));
        } }
        ensures same { self.new ≡ record self.old { pace = self.new.pace } }
    {
        let came = self.has_come(stepped);
        let clients = self.seats.len();
        self.pace.rest(came, moved || stepped.answered, clients)
    }
}
