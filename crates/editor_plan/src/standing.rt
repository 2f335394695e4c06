//! Whether a ledger is the newest of its editor, by what nodes say.
ghost use Rattle.std.specs.Prelude.{◌≡◌};
ghost use Rattle.std.specs.List.{list_any};
ghost use Rattle.editor_plan.specs.Standings.{last_ticket, last_shown, is_behind, is_elsewhere, is_given};
ghost use Rattle.editor_plan.specs.Standings.{is_unknown, confirms, standing_of};

use crate::told::Told;
use editor_ledger::Ledger;

/// What a node says of two tickets of an editor, and which release it shows.
#[derive(Clone, Copy, Debug, Drop, PartialEq, Eq)]
pub struct Witness {
    /// Of the last one that has its receipt by the ledger.
    pub last: Told,
    /// Of the next one, which nobody has.
    pub next: Told,
    /// Its newest release, if it says one; 0 for none.
    pub newest: Option<u64>,
}

/// How a ledger stands to a group.
#[derive(Clone, Copy, Debug, Drop, PartialEq, Eq)]
pub enum Standing {
    /// It is the newest of its editor, as far as nodes know.
    Newest,
    /// The group knows a command of its next ticket: there is a newer ledger.
    Older,
    /// No node knows its last ticket, though one shows as many releases: it is of another group.
    Elsewhere,
    /// No node knows its last ticket, and each that answers shows an older release than this folder's last
    /// one: the nodes have not learned again what they had.
    Returning,
    /// No node answers.
    Unanswered,
}

/// The ticket whose receipt the group has to know; 0 if none was given. If something is on its way it is the
/// ticket of the last release.
pub fn last_ticket(ledger: &Ledger) -> u64
    ensures { result ≡ last_ticket ledger.now }
{
    if ledger.is_idle() {
        ledger.next().saturating_sub(1)
    } else {
        ledger.last_release()
    }
}

/// The newest release that the group has shown of this folder; 0 for none.
pub fn last_shown(ledger: &Ledger) -> u64
    ensures { result ≡ last_shown ledger.now }
{
    match ledger.log().last() {
        Some(released) => released.release,
        None => 0,
    }
}

/// Whether a node shows an older release than `shown`.
fn is_behind(newest: Option<u64>, shown: u64) -> bool
    ensures { result ≡ is_behind shown newest }
{
    match newest {
        Some(newest) => newest < shown,
        None => false,
    }
}

fn is_elsewhere(witness: Witness, shown: u64) -> bool
    ensures { result ≡ is_elsewhere shown witness }
{
    witness.next.is_unknown() && !is_behind(witness.newest, shown)
}

fn is_older(witness: Witness) -> bool
    ensures { result ≡ is_given witness.next }
{
    witness.next.is_given()
}

/// Whether a node knows the last ticket, if there is one, and not the next.
fn confirms(witness: Witness, last: u64) -> bool
    ensures { result ≡ confirms last witness }
{
    witness.next.is_unknown() && (last == 0 || witness.last.is_given())
}

fn answers(witness: Witness) -> bool
    ensures { result ≡ is_unknown witness.next }
{
    witness.next.is_unknown()
}

fn some_is_older(witnesses: &[Witness]) -> bool
    ensures { result ≡ list_any (λ w. is_given w.next) witnesses.now }
{
    witnesses.iter().any(|witness| is_older(*witness))
}

fn some_confirms(witnesses: &[Witness], last: u64) -> bool
    ensures { result ≡ list_any (confirms last) witnesses.now }
{
    witnesses.iter().any(|witness| confirms(*witness, last))
}

fn some_is_elsewhere(witnesses: &[Witness], shown: u64) -> bool
    ensures { result ≡ list_any (is_elsewhere shown) witnesses.now }
{
    witnesses
        .iter()
        .any(|witness| is_elsewhere(*witness, shown))
}

fn some_answers(witnesses: &[Witness]) -> bool
    ensures { result ≡ list_any (λ w. is_unknown w.next) witnesses.now }
{
    witnesses.iter().any(|witness| answers(*witness))
}

/// How a ledger stands to a group of which some nodes were asked. `last` is its last ticket, and `shown` the
/// last release of its folder.
pub fn standing_of(last: u64, shown: u64, witnesses: &[Witness]) -> Standing
    ensures { result ≡ standing_of last shown witnesses.now }
{
    if some_is_older(witnesses) {
        Standing::Older
    } else if some_confirms(witnesses, last) {
        Standing::Newest
    } else if some_is_elsewhere(witnesses, shown) {
        Standing::Elsewhere
    } else if some_answers(witnesses) {
        Standing::Returning
    } else {
        Standing::Unanswered
    }
}
