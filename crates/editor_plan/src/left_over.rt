//! What an interrupted run left in the log.
ghost use Rattle.std.specs.Prelude.{◌≡◌, ◌-◌, ◌==◌, ◌&&◌};
ghost use Rattle.editor_plan.specs.Leftovers.{left_by};

use editor_ledger::Ledger;

/// Commands of a folder that no release of it has: the next release of any editor shows those in the log.
#[derive(Clone, Copy, Debug, Drop, PartialEq, Eq)]
pub struct LeftOver {
    /// How many have their receipts, and so are in the log.
    pub logged: u64,
    /// How many are on their way, and may be in the log.
    pub on_their_way: usize,
}

/// What the runs since the last release of a folder left.
pub fn left_by(ledger: &Ledger) -> LeftOver
    ensures { result ≡ left_by ledger.now }
{
    let on_their_way = ledger.sent().len();
    LeftOver {
        logged: ledger
            .next()
            .saturating_sub(ledger.last_release())
            .saturating_sub(1)
            .saturating_sub(on_their_way as u64),
        on_their_way,
    }
}

impl LeftOver {
    /// Whether nothing was left.
    pub fn is_none(&self) -> bool
        ensures { result ≡ (self.now.logged == 0 && self.now.on_their_way == 0) }
    {
        self.logged == 0 && self.on_their_way == 0
    }
}
