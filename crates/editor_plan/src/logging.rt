//! What the log says of tickets: the ticket of a release, and a release that has its receipt and is not in
//! the log.
ghost use Rattle.std.specs.Prelude.{◌≡◌, None};
ghost use Rattle.editor_plan.specs.Unlogged.{tickets_left, unlogged, ticket_in, ticket_of};

use editor_ledger::{Ledger, Released};

/// How many tickets up to the last release a log leaves out. Each of its releases has its own ticket, and
/// those of its commands.
fn tickets_left(last: u64, log: &[Released]) -> u64
    ensures { result ≡ tickets_left last log.now }
{
    let mut left = last;
    for released in log {
        left = left.saturating_sub(released.commands).saturating_sub(1);
    }
    left
}

/// How many commands a release shows that has its receipt and is not in the log: its node said no number, or
/// the run ended before it asked for that. `None` if the log has all releases.
pub fn unlogged(ledger: &Ledger) -> Option<u64>
    ensures { result ≡ unlogged ledger.now }
{
    let left = tickets_left(ledger.last_release(), ledger.log());
    if left == 0 { None } else { Some(left - 1) }
}

/// The ticket of a release that a log has, up to the last release's.
fn ticket_in(release: u64, last: u64, log: &[Released]) -> Option<u64>
    ensures { result ≡ ticket_in release last last log.now None }
{
    let mut left = last;
    let mut found = None;
    for released in log {
        left = left.saturating_sub(released.commands).saturating_sub(1);
        if released.release == release {
            found = Some(last.saturating_sub(left));
        }
    }
    found
}

/// The ticket of a release of a folder, by what the log says of it and of those before. If several have that
/// number, it is the ticket of the last.
pub fn ticket_of(ledger: &Ledger, release: u64) -> Option<u64>
    ensures { result ≡ ticket_of release ledger.now }
{
    ticket_in(release, ledger.last_release(), ledger.log())
}
