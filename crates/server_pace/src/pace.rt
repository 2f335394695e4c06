//! When a server tries again, asks and tells, and how long it rests.

ghost use Rattle.std.specs.Prelude.{◌≡◌, ◌↔◌, ◌<◌, ◌||◌, Option, IsSome, IsTrue, IfSome, Some};
ghost use Rattle.std.specs.Prelude.{None, false};
ghost use Rattle.node.specs.Nodes.{Node as AbstractNode, WantsTick};
ghost use Rattle.node.specs.Standing.{IsNodeOf};
ghost use Rattle.server_pace.specs.declared.due.Due.{Due};
ghost use Rattle.server_pace.specs.declared.seen.Seen.{Seen};
ghost use Rattle.site_drive.specs.declared.last_call.LastCall.TheVariants.{Ask, TickOrAsk};
ghost use Rattle.server_pace.specs.Keeping.{keeping_after, owed_at, IsNextBlock};
ghost use Rattle.server_pace.specs.Pacing.{answers_after, called, empty_after, first_pace, heard, noticed};
ghost use Rattle.server_pace.specs.Pacing.{question_after, resting_of, ticking_after, IsAnswered};
ghost use Rattle.server_pace.specs.Pacing.{CallsDue, HearsBatch, IsDue, IsFresh, IsTelling, IsUntried};
ghost use Rattle.server_pace.specs.Pacing.{IsYielding, teller_of};
ghost use Rattle.server_times.specs.Timing.{rest_after};
ghost use Rattle.server_pace.specs.Turns.{call_behind, goes_first, is_telling};

use crate::due::Due;
use crate::keeping::Keeping;
use crate::last_question::LastQuestion;
use crate::questions::{Questions, Teller};
use crate::resting::Resting;
use crate::seen::{Seen, first_tried_by};
use crate::ticking::Ticking;
use crate::yielding::Yielding;
use node::Node;
use server_times::Times;
use site_disk::Disk;
use site_drive::{Delivered, LastCall};
use site_ids::{Cluster, Instance, NodeId, NodeSet};

/// What was tried, asked, heard and told: by whom and when.
///
/// A step calls `due`, then `hear` after its batch, and then `rest`. Its moments are milliseconds since the
/// server began, none of them less than the one before.
#[derive(Clone, Copy, Drop)]
pub struct Pace {
    times: Times,
    cluster: Cluster,
    // what this server waits before its first try
    patience: u64,
    ticking: Ticking,
    // those that promised or refused something since its last tick
    answered: NodeSet,
    last: LastQuestion,
    // the questions of other nodes
    questions: Questions,
    // how much of what is known was put on record
    keeping: Keeping,
    // whether messages that are no questions came since `due` was called
    stirred: bool,
    // how many steps went by in which nothing came except questions
    empty: u32,
    me: NodeId,
    // the furthest instance at which its record had a vote as it began
    recorded: u32,
    yielding: Yielding,
    // the last call was a telling
    told: bool,
    // the last call was a telling, or the one before it
    tells: bool,
}

/// Whether the call is a telling.
fn is_telling(last: &LastCall) -> bool
    ensures { result ≡ is_telling last.now }
{
    matches!(last, LastCall::Tell { .. })
}

impl Pace {
    /// The pace of a server which begins: it is quiet. The furthest vote on its record is at instance
    /// `recorded`; 0 if there is none.
    pub fn new(times: Times, cluster: Cluster, me: NodeId, recorded: u32) -> Pace
        ensures { result ≡ first_pace times cluster me recorded }
    {
        Pace {
            times,
            cluster,
            patience: times.patience_of(me.number()),
            ticking: Ticking::new(),
            answered: NodeSet::new(),
            last: LastQuestion::never(),
            questions: Questions::new(me),
            keeping: Keeping::new(),
            stirred: false,
            empty: times.quiet,
            me,
            recorded,
            yielding: Yielding::new(),
            told: false,
            tells: false,
        }
    }

    /// Takes in what a batch delivered.
    pub fn hear(&mut self, delivered: &Delivered)
        ensures { HearsBatch self.old delivered.now self.new }
    {
        self.questions.hear(delivered);
        self.answered = delivered.answered().union(self.answered);
        self.note(delivered.attempts(), delivered.stirs());
    }

    /// `attempts` messages of attempts came, and `stirs` messages that are no questions.
    fn note(&mut self, attempts: u32, stirs: u32)
        ensures { self.new ≡ heard self.old attempts stirs }
    {
        self.last.tried |= attempts != 0;
        self.stirred |= stirs != 0;
    }

    /// The call after the turns of the next batch, which begins now. `drained` says that the last batch took
    /// in all that had come. The call counts from now on. A value that was just submitted is tried at once if
    /// nobody tries one and it is no other server's turn.
    pub fn due<D: Disk>(&mut self, now: u64, node: &Node<D>, drained: bool) -> LastCall
        ensures fresh { (s : AbstractNode) → IsNodeOf node.now s → WantsTick s → IsUntried s
            → ¬ IsYielding self.old now None → self.old.ticking.since ≡ None → self.old.stirred ≡ false
            → result ≡ TickOrAsk }
        ensures due { (s : AbstractNode) → IsNodeOf node.now s
            → CallsDue self.old node.now.cluster s now drained result self.new }
    {
        let seen = Seen::of(node, self.me, self.recorded, drained);
        let block = self.next_block(now, seen.known);
        let tries = first_tried_by(node, seen.known);
        let due = self.notice(now, seen, tries, block);
        let waits = self.tells_nobody(&due);
        let telling = self.next_telling(now, node, seen, waits);
        self.call(now, seen.known, Due { telling, ..due })
    }

    /// The first instance that is put on record next, and how many, if any.
    fn next_block(&self, now: u64, known: u32) -> Option<(Instance, u32)>
        ensures { IsNextBlock (owed_at self.now.keeping now known) self.now.times now known result }
    {
        self.keeping.noted(now, known).next(self.times, now, known)
    }

    /// Whether a telling that is due waits: somebody was told in the last step, or something goes before a
    /// telling.
    fn tells_nobody(&self, due: &Due) -> bool
        ensures { result ≡ (self.now.told || goes_first due.now) }
    {
        self.told || due.goes_first()
    }

    /// This server as a teller.
    fn teller(&self, now: u64, seen: Seen) -> Teller
        ensures { result ≡ teller_of self.now now seen }
    {
        Teller {
            times: self.times,
            at: now,
            me: self.me,
            known: seen.known,
            furthest: seen.reached.max(self.recorded),
            calm: !self.last.tried,
        }
    }

    /// The next telling, unless tellings wait.
    fn next_telling<D: Disk>(
        &mut self,
        now: u64,
        node: &Node<D>,
        seen: Seen,
        waits: bool,
    ) -> Option<(NodeId, Instance)>
        ensures told { (s : AbstractNode) → IsNodeOf node.now s
            → IsTelling self.old node.now.cluster s now seen waits result self.new.questions }
        ensures same { self.new ≡ record self.old { questions = self.new.questions } }
    {
        if waits {
            return None;
        }
        let teller = self.teller(now, seen);
        self.questions.next(&teller, node)
    }

    /// Whether a value was just submitted and is tried at once, since this server does not yield to another.
    fn is_fresh(&self, wanted: bool, yields: bool) -> bool
        ensures { IsTrue result ↔ (IsFresh self.now.ticking wanted self.now.stirred × (yields ≡ false)) }
    {
        !yields && self.ticking.is_fresh(wanted, self.stirred)
    }

    /// Whether a majority answered since the last tick.
    fn is_answered(&self) -> bool
        ensures { IsTrue result ↔ IsAnswered self.now }
    {
        self.answered.len() >= usize::from(self.cluster.quorum())
    }

    /// What is due except tellings, from what is seen.
    fn notice(
        &mut self,
        now: u64,
        seen: Seen,
        tries: Option<NodeId>,
        block: Option<(Instance, u32)>,
    ) -> Due
        ensures due { IsDue self.old now seen tries block None result }
        ensures noticed { self.new ≡ noticed self.old now seen tries result }
    {
        let (me, times) = (self.me, self.times);
        self.yielding.note(now, tries);
        let waits = self.yielding.waits(me);
        let yields = self.yielding.is_due(times, now, me);
        let fresh = self.is_fresh(seen.wanted, yields);
        self.yielding.pass(now, waits, yields);
        self.ticking = self.ticking.noted(times, now, seen, self.stirred);
        let more = self.ticking.awaits();
        let tick = self.ticking.is_due(now, self.patience, times, seen.stake);
        let asking = self.last.asking(self.times, now, seen, self.empty, more);
        self.keeping = self.keeping.noted(now, seen.known);
        Due {
            fresh,
            block,
            telling: None,
            question: asking.is_due(),
            tick,
            answered: self.is_answered(),
            goes_on: self.ticking.goes_on(),
            waits,
            yields,
        }
    }

    /// The call that is due. It counts from now on.
    fn call(&mut self, now: u64, known: u32, due: Due) -> LastCall
        ensures called { result ≡ call_behind due }
        ensures after { self.new ≡ called self.old now known due result }
    {
        let last = due.last_call();
        self.begin(now, known, &due, &last);
        self.stirred = false;
        let told = is_telling(&last);
        self.tells = self.told || told;
        self.told = told;
        last
    }

    /// The ticking after a tick: for a fresh value, or at once, or as it was due.
    fn ticked(&self, now: u64, due: &Due) -> Ticking
        ensures { result ≡ ticking_after self.now.times self.now.ticking now due.now TickOrAsk }
    {
        if due.fresh || !due.tick {
            return self.ticking.begun();
        }
        self.ticking.ticked(self.times, now, due.answered)
    }

    /// A question, a tick, or putting on record counts from now on.
    fn begin(&mut self, now: u64, known: u32, due: &Due, last: &LastCall)
        ensures { self.new ≡ record self.old {
          ticking = ticking_after self.old.times self.old.ticking now due.now last.now;
          answered = answers_after self.old.answered last.now;
          last = question_after self.old.last now known last.now;
          keeping = keeping_after self.old.keeping last.now;
        } }
    {
        match last {
            LastCall::Ask => {
                self.last = LastQuestion {
                    at: Some(now),
                    known,
                    tried: false,
                    again: self.last.again_after(known),
                };
            }
            LastCall::TickOrAsk => {
                self.answered = NodeSet::new();
                self.ticking = self.ticked(now, due);
            }
            LastCall::Keep { count, .. } => self.keeping = self.keeping.passed(*count),
            _ => {}
        }
    }

    /// How many microseconds the server rests after a step: not at all if something came, and only a few if
    /// it tells somebody something. Datagrams or bytes of clients came (`came`), or a response was written
    /// (`served`).
    pub fn rest(&mut self, came: bool, served: bool, clients: usize) -> Option<u64>
        ensures rests { IsSome result ↔ (came ≡ false) × (served ≡ false) × (self.old.stirred ≡ false) }
        ensures long { IfSome result (λ micros. micros
            ≡ rest_after self.old.times self.old.empty self.old.tells clients) }
        ensures counts { self.new ≡ record self.old {
          empty = empty_after
              (resting_of self.old came served);
        } }
    {
        let resting = Resting {
            came,
            served,
            stirred: self.stirred,
            empty: self.empty,
        };
        let micros = self.times.rest_after(self.empty, self.tells, clients);
        self.empty = resting.empty_after();
        resting.is_due().then_some(micros)
    }
}
