//! The number of a release that was made, and of its commands.
ghost use Rattle.std.specs.Prelude.{◌≡◌, ◌-◌, ◌==◌};
ghost use Rattle.editor_shown.specs.Endings.{commands_of};
ghost use Rattle.editor_shown.specs.Numbers.{is_exact};

use editor_ledger::Ledger;

/// Whether `release` comes right after `before`.
fn is_next(before: u64, release: u64) -> bool
    ensures { result ≡ (release - before == 1) }
{
    release.saturating_sub(before) == 1
}

/// Whether the newest release, `release`, is the one that was sent and has its receipt. Before it was sent,
/// the newest one was `before`, if the node reported it, and the folder's own last one was `shown`. If an
/// interrupted run had begun the release, it may have been made before that.
pub fn is_exact(begun: bool, before: Option<u64>, shown: u64, release: u64) -> bool
    ensures { result ≡ is_exact begun before shown release }
{
    is_next(shown, release)
        || !begun
            && match before {
                Some(before) => is_next(before, release),
                None => false,
            }
}

/// How many commands the release of a ticket shows that no release showed before.
pub fn commands_of(ledger: &Ledger, ticket: u64) -> u64
    ensures { result ≡ commands_of ticket ledger.now }
{
    ticket
        .saturating_sub(ledger.last_release())
        .saturating_sub(1)
}
