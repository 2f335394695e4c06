//! How long a delivery stays with a node, rests, and waits for a receipt.
ghost use Rattle.std.specs.Prelude.{◌≡◌};
ghost use Rattle.editor_plan.specs.DeliveryClocks.{first_clock, turns, clock_after, step_of, within_of};

/// For how many milliseconds a node may give no receipt before the next one is spoken to.
pub(crate) const STAYING: u64 = 5_000;

/// How many milliseconds a delivery rests at first between two exchanges with a node. It doubles them each
/// time that no receipt came.
pub(crate) const FIRST_REST: u64 = 2;

/// How many milliseconds it rests at most between them, and between two rounds over all nodes.
pub const LONGEST_REST: u64 = 250;

/// What came of an exchange with a node.
#[derive(Clone, Copy, Debug, Drop, PartialEq, Eq)]
pub enum Came {
    /// A receipt, or several.
    Receipt,
    /// Answers, and no receipt.
    Answers,
    /// No answer.
    Silence,
}

/// How a delivery goes on.
#[derive(Clone, Copy, Debug, Drop, PartialEq, Eq)]
pub enum Step {
    /// With the same node, after that many milliseconds.
    Again(u64),
    /// With the next node.
    Next,
    /// Not at all: no receipt came for too long.
    GiveUp,
}

/// When a delivery made progress, in milliseconds since it began.
#[derive(Clone, Copy, Drop)]
pub struct DeliveryClock {
    /// When the last receipt came.
    moved: u64,
    /// When the last one came from the node that is spoken to, or else when that was first spoken to.
    stayed: u64,
    /// How many milliseconds the next rest takes.
    rest: u64,
}

impl DeliveryClock {
    /// The clock of a delivery that begins.
    pub fn new() -> DeliveryClock
        ensures { result ≡ first_clock }
    {
        DeliveryClock {
            moved: 0,
            stayed: 0,
            rest: FIRST_REST,
        }
    }

    /// Whether the next node is spoken to.
    fn turns(self, came: Came, now: u64) -> bool
        ensures { result ≡ turns came now self }
    {
        match came {
            Came::Receipt => false,
            Came::Answers => now.saturating_sub(self.stayed) >= STAYING,
            Came::Silence => true,
        }
    }

    /// The clock after an exchange that ended now.
    fn after(self, came: Came, now: u64) -> DeliveryClock
        ensures { result ≡ clock_after came now self }
    {
        if came == Came::Receipt {
            return DeliveryClock {
                moved: now,
                stayed: now,
                rest: FIRST_REST,
            };
        }
        if self.turns(came, now) {
            return DeliveryClock {
                moved: self.moved,
                stayed: now,
                rest: FIRST_REST,
            };
        }
        DeliveryClock {
            moved: self.moved,
            stayed: self.stayed,
            rest: self.rest.saturating_mul(2).min(LONGEST_REST),
        }
    }

    /// How many milliseconds an exchange that begins now waits for an answer, if `patience` seconds may pass
    /// without a receipt.
    pub fn within(&self, now: u64, patience: u64) -> u64
        ensures { result ≡ within_of now patience self.now }
    {
        let left = patience.saturating_sub(now.saturating_sub(self.moved) / 1000);
        left.min(STAYING / 1000).max(1) * 1000
    }

    /// How the delivery goes on after an exchange that ended now, if `patience` seconds may pass without a
    /// receipt.
    pub fn step(&mut self, came: Came, now: u64, patience: u64) -> Step
        ensures clock { self.new ≡ clock_after came now self.old }
        ensures step { result ≡ step_of came now patience self.old }
    {
        let old = *self;
        *self = old.after(came, now);
        if came == Came::Receipt {
            return Step::Again(0);
        }
        if now.saturating_sub(old.moved) / 1000 >= patience {
            return Step::GiveUp;
        }
        if old.turns(came, now) {
            return Step::Next;
        }
        Step::Again(old.rest)
    }
}
