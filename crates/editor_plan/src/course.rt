//! What is planned next.
ghost use Rattle.std.specs.Prelude.{◌≡◌, [], map, IfOk, OnOk, OnErr, IsErrOf};
ghost use Rattle.editor_ledger.specs.Steps.{planned};
ghost use Rattle.editor_plan.specs.Courses.{advanced, stage_of, IsDone, LacksTickets};

use editor_ledger::{Ledger, LedgerFault};
use std::alloc::Global;

/// How a publication goes on.
#[derive(Clone, Copy, Debug, Drop, PartialEq, Eq)]
pub enum Stage {
    /// Something is on its way: the ledger is to be saved, then the commands are to be sent.
    Sends,
    /// The group has the folder, and has released it.
    Done,
}

fn stage_of(ledger: &Ledger) -> Stage
    ensures { result ≡ stage_of ledger.now }
{
    if ledger.is_idle() {
        Stage::Done
    } else {
        Stage::Sends
    }
}

/// Plans the texts of a folder that the group lacks, if nothing is on its way.
fn plan_texts(alloc: Global, ledger: &mut Ledger, wanted: &[&str]) -> Result<(), LedgerFault>
    ensures ok { OnOk result (ledger.new ≡ planned [] (map (λ t. t.now) wanted.now) ledger.old) }
    ensures err { OnErr result (ledger.new ≡ ledger.old) }
    ensures tickets { IsErrOf result LedgerFault.NoTickets
        → LacksTickets (map (λ t. t.now) wanted.now) ledger.old }
{
    if ledger.is_idle() {
        ledger.plan(alloc, wanted, &[])?;
    }
    Ok(())
}

/// Plans these texts, or the release if there are none.
fn plan_next(alloc: Global, ledger: &mut Ledger, wanted: &[&str]) -> Result<(), LedgerFault>
    ensures ok { OnOk result (ledger.new ≡ advanced (map (λ t. t.now) wanted.now) ledger.old) }
    ensures err { OnErr result (ledger.new ≡ ledger.old) }
    ensures tickets { IsErrOf result LedgerFault.NoTickets
        → LacksTickets (map (λ t. t.now) wanted.now) ledger.old }
{
    plan_texts(alloc, ledger, wanted)?;
    if ledger.is_idle() {
        ledger.plan_release(alloc)?;
    }
    Ok(())
}

/// Plans what a folder of these texts sends next. While something is on its way it plans nothing more.
/// Otherwise it plans the texts that the group lacks, and the removals of those that the group has and the
/// folder lacks; if there are none, their release. It fails with `NoTickets` only if the numbers of tickets
/// no longer fit 64 bits.
pub fn advance(alloc: Global, ledger: &mut Ledger, wanted: &[&str]) -> Result<Stage, LedgerFault>
    ensures ok { OnOk result (ledger.new ≡ advanced (map (λ t. t.now) wanted.now) ledger.old) }
    ensures stage { IfOk result (λ stage. stage ≡ stage_of ledger.new) }
    ensures done { IfOk result (λ stage. stage ≡ Stage.Done
        → IsDone (map (λ t. t.now) wanted.now) ledger.old ledger.new) }
    ensures err { OnErr result (ledger.new ≡ ledger.old) }
    ensures tickets { IsErrOf result LedgerFault.NoTickets
        → LacksTickets (map (λ t. t.now) wanted.now) ledger.old }
{
    plan_next(alloc, ledger, wanted)?;
    Ok(stage_of(ledger))
}
