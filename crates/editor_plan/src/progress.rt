//! What is printed of a delivery while it is under way, and when; and when its ledger is saved meanwhile.
ghost use Rattle.std.specs.Prelude.{◌≡◌};
ghost use Rattle.editor_plan.specs.Progresses.{first_progress, is_counted, count_told, after_count, is_kept};
ghost use Rattle.editor_plan.specs.Progresses.{after_keeping, falls_silent, after_exchange};

use crate::delivery_clock::Came;

/// How many milliseconds pass before the number of receipts is printed again.
pub(crate) const EACH: u64 = 1_000;

/// After how many milliseconds it is printed that no receipt came.
pub(crate) const SILENCE: u64 = 2_000;

/// The number of equal parts of the commands: the ledger is saved again after more than one part has its
/// receipts.
pub(crate) const PARTS: usize = 16;

/// What was printed of a delivery, and when, in milliseconds since it began.
#[derive(Clone, Copy, Drop)]
pub struct Progress {
    /// How many commands are brought in all.
    all: usize,
    /// How many of them had their receipts when that was last printed.
    told: usize,
    /// How many of them had their receipts when the ledger was last saved.
    kept: usize,
    /// When their number was last printed.
    at: u64,
    /// When the last receipt came.
    moved: u64,
    /// Whether it was printed that none came since.
    silent: bool,
}

impl Progress {
    /// The progress of a delivery of `all` commands that begins.
    pub fn new(all: usize) -> Progress
        ensures { result ≡ first_progress all }
    {
        Progress {
            all,
            told: 0,
            kept: 0,
            at: 0,
            moved: 0,
            silent: false,
        }
    }

    /// How many commands are brought in all.
    pub fn all(&self) -> usize
        ensures { result ≡ self.now.all }
    {
        self.all
    }

    /// Whether to print now that `has` commands have their receipts.
    fn is_counted(&self, now: u64, has: usize) -> bool
        ensures { result ≡ is_counted now has self.now }
    {
        has != self.told && now.saturating_sub(self.at) >= EACH
    }

    /// How many commands have their receipts if `left` are left; `None` if that is not to be printed now.
    pub fn count(&mut self, now: u64, left: usize) -> Option<usize>
        ensures count { result ≡ count_told now left self.old }
        ensures progress { self.new ≡ after_count now left self.old }
    {
        let has = self.all.saturating_sub(left);
        if !self.is_counted(now, has) {
            return None;
        }
        self.told = has;
        self.at = now;
        Some(has)
    }

    /// Whether to save the ledger now that `has` commands have their receipts. The count of a run that is
    /// killed is then close, and the work stays in proportion to the ledger's size.
    pub fn keeps(&mut self, has: usize) -> bool
        ensures keeps { result ≡ is_kept has self.old }
        ensures progress { self.new ≡ after_keeping has self.old }
    {
        if has.saturating_sub(self.kept) <= self.all / PARTS {
            return false;
        }
        self.kept = has;
        true
    }

    /// Whether to print now, after an exchange, that no receipt comes.
    pub fn falls_silent(&mut self, now: u64, came: Came) -> bool
        ensures silent { result ≡ falls_silent came now self.old }
        ensures progress { self.new ≡ after_exchange came now self.old }
    {
        if came == Came::Receipt {
            self.moved = now;
            self.silent = false;
            return false;
        }
        if self.silent || now.saturating_sub(self.moved) < SILENCE {
            return false;
        }
        self.silent = true;
        true
    }
}
