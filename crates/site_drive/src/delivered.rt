//! What a drive delivered, by kind.

ghost use Rattle.std.specs.Prelude.{◌≡◌, ◌-◌, true, None};
ghost use Rattle.site_ids.specs.NodeSets.{with_node};
ghost use Rattle.site_drive.specs.Delivering.{counted_if, none_noted, noted};

use site_ids::{Instance, NodeId, NodeSet};
use wire::Message;

/// The messages that a drive delivered: which nodes sent them, which nodes answered an attempt, each node's
/// last question, how many were of an attempt, and how many were not questions.
#[derive(Clone, Copy, Debug, PartialEq, Eq, Drop)]
pub struct Delivered {
    heard: NodeSet,
    answered: NodeSet,
    questions: [Option<Instance>; 9],
    attempts: u32,
    stirs: u32,
}

impl Delivered {
    /// No message.
    pub(crate) fn none() -> Delivered
        ensures { result ≡ none_noted }
    {
        Delivered {
            heard: NodeSet::new(),
            answered: NodeSet::new(),
            questions: [None; 9],
            attempts: 0,
            stirs: 0,
        }
    }

    /// One more message.
    pub(crate) fn note(&mut self, message: &Message)
        ensures { self.new ≡ noted message.now self.old }
    {
        self.heard.insert(message.from());
        match message {
            Message::Ask { from, instance } => {
                self.questions[usize::from(from.number()) - 1] = Some(*instance);
            }
            Message::Promise { from, .. } => {
                self.note_answer(*from);
                self.note_attempt();
            }
            Message::Prepare { .. } | Message::Propose { .. } => self.note_attempt(),
            Message::Nack { from, .. } => {
                self.note_answer(*from);
                self.note_stir();
            }
            Message::Accepted { .. } | Message::Chosen { .. } => self.note_stir(),
        }
    }

    /// The node promised or refused something.
    fn note_answer(&mut self, from: NodeId)
        ensures { self.new ≡ record self.old { answered = with_node self.old.answered from } }
    {
        self.answered.insert(from);
    }

    /// One more message of an attempt.
    fn note_attempt(&mut self)
        ensures { self.new ≡ record self.old {
          attempts = counted_if true self.old.attempts;
          stirs = counted_if true self.old.stirs;
        } }
    {
        self.attempts = self.attempts.saturating_add(1);
        self.note_stir();
    }

    /// One more message that is not a question.
    fn note_stir(&mut self)
        ensures { self.new ≡ record self.old { stirs = counted_if true self.old.stirs } }
    {
        self.stirs = self.stirs.saturating_add(1);
    }

    /// The nodes that sent any of them.
    pub fn heard(&self) -> NodeSet
        ensures { result ≡ self.now.heard }
    {
        self.heard
    }

    /// The nodes from which a promise or a refusal came.
    pub fn answered(&self) -> NodeSet
        ensures { result ≡ self.now.answered }
    {
        self.answered
    }

    /// The instance that each node's last question was for, if it asked: node p at index p - 1.
    pub fn questions(&self) -> &[Option<Instance>; 9]
        ensures { result.now ≡ self.now.questions }
    {
        &self.questions
    }

    /// How many were of an attempt: a prepare, a promise or a proposal.
    pub fn attempts(&self) -> u32
        ensures { result ≡ self.now.attempts }
    {
        self.attempts
    }

    /// How many were not questions. These show that some node does something.
    pub fn stirs(&self) -> u32
        ensures { result ≡ self.now.stirs }
    {
        self.stirs
    }
}
