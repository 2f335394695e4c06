//! A proposer of a cluster, and what the rows do with it.
ghost use Rattle.std.specs.Prelude.{◌≡◌};

use crate::comparing::{ensure, same};
use crate::samples::{ballot, cluster, instance, is_ballot, is_text, value, vote};
use proposer::{Proposal, Proposer, ProposerFault};
use site_ids::{Ballot, Cluster, Instance, Value, Vote};
use std::alloc::{AllocError, Global};
use std::process::Abort;
use wire::Message;

#[derive(Drop)]
pub(crate) struct Member {
    alloc: Global,
    cluster: Cluster,
    proposer: Proposer,
    ghost same: { proposer.cluster ≡ cluster },
}

/// A message about an instance: the round and the node of its ballot, and its value.
#[derive(Clone, Copy)]
pub(crate) enum Sent {
    Nothing,
    Prepare(u32, u8),
    Propose(u32, u8, &'static str),
}

/// The round and the node of a ballot, and a value.
type Told = (u32, u8, &'static str);

/// What is done with a proposer, and what it returns. A ballot is a round and a node.
#[derive(Clone, Copy)]
pub(crate) enum Step {
    /// Begins an attempt at an instance, at a ballot, for a value.
    Start(u32, u32, u8, &'static str),
    /// Begins three attempts, from an instance on, at a ballot, for a byte each.
    Span(u32, u32, u8, &'static [u8; 3]),
    /// A node promises instance 7 at a ballot, and reports no vote there. This value is proposed then.
    Promise(u8, u32, u8, Option<&'static str>),
    /// The same, and the node reports a vote.
    Tells(u8, u32, u8, Told, Option<&'static str>),
    /// What is sent again for an instance.
    Sends(u32, Sent),
    /// What the attempt at an instance is for.
    Own(u32, Option<&'static str>),
    Abandon(u32),
    /// Makes room at an instance.
    Room(u32),
    /// How many attempts are open.
    Open(usize),
}

/// If no room was made, no attempt was opened, and room is made once more.
fn start_span(proposer: &mut Proposer, first: Instance, ballot: Ballot, values: Vec<Value>) -> bool
    ensures { proposer.new.cluster ≡ proposer.old.cluster }
{
    let open = proposer.attempts();
    if values.len() > 64 || !first.begins_span(values.len() as u8) {
        drop(values);
        return false;
    }
    let count = values.len() as u8;
    if proposer.make_room_for_span(first, count).is_ok() {
        proposer.open_span(first, ballot, values);
        return true;
    }
    if proposer.attempts() != open || proposer.make_room_for_span(first, count).is_err() {
        drop(values);
        return false;
    }
    proposer.open_span(first, ballot, values);
    true
}

/// Three values of one byte.
pub(crate) fn three_values(alloc: Global, bytes: &[u8; 3]) -> Result<Vec<Value>, AllocError> {
    let mut values = Vec::new(alloc);
    for byte in bytes {
        values.push(Value::copied_from(alloc, &[*byte])?)?;
    }
    Ok(values)
}

/// Whether the proposal is this one, for instance 7 at a ballot.
fn is_proposal(made: &Proposal, at: Ballot, text: &str) -> bool {
    made.instance.number() == 7 && made.ballot == at && is_text(&made.value, text)
}

/// Whether this value is proposed, for instance 7 at a ballot; without a value, whether nothing is.
pub(crate) fn is_made(made: Option<Proposal>, at: Ballot, value: Option<&str>) -> bool {
    let is_made = match &made {
        Some(made) => matches!(value, Some(text) if is_proposal(made, at, text)),
        None => value.is_none(),
    };
    drop(made);
    is_made
}

fn is_message(message: &Message, sent: Sent) -> bool {
    match message {
        Message::Propose { ballot, value, .. } => {
            matches!(sent, Sent::Propose(round, node, text)
                if is_ballot(*ballot, round, node) && is_text(value, text))
        }
        Message::Prepare { ballot, .. } => {
            matches!(sent, Sent::Prepare(round, node) if is_ballot(*ballot, round, node))
        }
        _ => false,
    }
}

pub(crate) fn is_sent(message: Option<Message>, sent: Sent) -> bool {
    let is_sent = match &message {
        Some(message) => is_message(message, sent),
        None => matches!(sent, Sent::Nothing),
    };
    drop(message);
    is_sent
}

impl Member {
    /// The node of that number in a cluster of `size` nodes.
    pub(crate) fn new(rt: &impl Abort, alloc: Global, size: u8, number: u8) -> Member {
        let cluster = cluster(rt, size);
        let me = cluster.node(number).expect(rt, "a node");
        Member {
            alloc,
            cluster,
            proposer: Proposer::new(alloc, cluster, me),
        }
    }

    pub(crate) fn proposer(&self) -> &Proposer {
        &self.proposer
    }

    pub(crate) fn heard(&mut self, promised: Ballot) {
        self.proposer.on_nack(promised);
    }

    pub(crate) fn start(
        &mut self,
        at: Instance,
        ballot: Ballot,
        own: &Value,
    ) -> Result<(), AllocError> {
        self.proposer.start(at, ballot, own)
    }

    /// Whether the attempts of a span were begun.
    pub(crate) fn start_span(
        &mut self,
        first: Instance,
        ballot: Ballot,
        values: Vec<Value>,
    ) -> bool {
        start_span(&mut self.proposer, first, ballot, values)
    }

    /// A node of the cluster promises an instance.
    pub(crate) fn promise(
        &mut self,
        rt: &impl Abort,
        from: u8,
        at: Instance,
        ballot: Ballot,
        prior: Option<&Vote>,
    ) -> Result<Option<Proposal>, ProposerFault> {
        let from = self.cluster.node(from).expect(rt, "a node");
        self.proposer.on_promise(from, at, ballot, prior)
    }

    pub(crate) fn resend(&self, at: Instance) -> Result<Option<Message>, AllocError> {
        self.proposer.resend(at)
    }

    fn is_own(&self, at: Instance, value: Option<&str>) -> bool {
        match self.proposer.own_value(at) {
            Some(own) => matches!(value, Some(text) if is_text(own, text)),
            None => value.is_none(),
        }
    }
}

fn span(rt: &impl Abort, member: &mut Member, first: u32, ballot: Ballot, bytes: &[u8; 3]) {
    let values = three_values(member.alloc, bytes).expect(rt, "values");
    ensure(
        rt,
        member.start_span(instance(rt, first), ballot, values),
        first,
    );
}

/// Whether a promise of that node makes this proposal.
fn makes(
    rt: &impl Abort,
    member: &mut Member,
    from: u8,
    at: Ballot,
    prior: Option<&Vote>,
    made: Option<&str>,
) -> bool {
    let proposal = member.promise(rt, from, instance(rt, 7), at, prior);
    is_made(proposal.expect(rt, "memory"), at, made)
}

fn promise(
    rt: &impl Abort,
    member: &mut Member,
    from: u8,
    at: Ballot,
    prior: Option<&Vote>,
    made: Option<&str>,
) {
    ensure(rt, makes(rt, member, from, at, prior, made), from);
}

fn tell(
    rt: &impl Abort,
    member: &mut Member,
    from: u8,
    at: Ballot,
    told: Told,
    made: Option<&str>,
) {
    let (round, node, text) = told;
    let prior = vote(rt, member.alloc, ballot(rt, round, node), text);
    promise(rt, member, from, at, Some(&prior), made);
}

/// Whether that is sent again for an instance.
pub(crate) fn is_resent(rt: &impl Abort, member: &Member, at: u32, sent: Sent) -> bool {
    let message = member.resend(instance(rt, at)).expect(rt, "memory");
    is_sent(message, sent)
}

fn sends(rt: &impl Abort, member: &Member, at: u32, sent: Sent) {
    ensure(rt, is_resent(rt, member, at, sent), at);
}

fn start(rt: &impl Abort, member: &mut Member, at: u32, ballot: Ballot, text: &str) {
    let own = value(rt, member.alloc, text.as_bytes());
    ensure(rt, member.start(instance(rt, at), ballot, &own).is_ok(), at);
}

fn owns(rt: &impl Abort, member: &Member, at: u32, text: Option<&str>) {
    ensure(rt, member.is_own(instance(rt, at), text), at);
}

fn make_room(rt: &impl Abort, member: &mut Member, at: u32) {
    ensure(rt, member.proposer.make_room(instance(rt, at)).is_ok(), at);
}

fn has_open(rt: &impl Abort, member: &Member, count: usize) {
    same(rt, member.proposer.attempts(), count);
}

/// Checks what a step asks of the proposer, if it asks something.
fn look(rt: &impl Abort, member: &Member, step: Step) {
    match step {
        Step::Sends(at, sent) => sends(rt, member, at, sent),
        Step::Own(at, text) => owns(rt, member, at, text),
        Step::Open(count) => has_open(rt, member, count),
        _ => {}
    }
}

fn act(rt: &impl Abort, member: &mut Member, step: Step) {
    match step {
        Step::Start(at, round, node, text) => {
            start(rt, member, at, ballot(rt, round, node), text);
        }
        Step::Span(first, round, node, bytes) => {
            span(rt, member, first, ballot(rt, round, node), bytes);
        }
        Step::Promise(from, round, node, made) => {
            promise(rt, member, from, ballot(rt, round, node), None, made);
        }
        Step::Tells(from, round, node, told, made) => {
            tell(rt, member, from, ballot(rt, round, node), told, made);
        }
        Step::Abandon(at) => member.proposer.abandon(instance(rt, at)),
        Step::Room(at) => make_room(rt, member, at),
        _ => look(rt, member, step),
    }
}

/// The steps of a proposer that has done nothing before.
pub(crate) fn play(rt: &impl Abort, alloc: Global, size: u8, number: u8, steps: &[Step]) {
    let mut member = Member::new(rt, alloc, size, number);
    for step in steps {
        act(rt, &mut member, *step);
    }
}
