//! A repeat is found by its receipt, so kept sites have no set of tickets: this saves 112 bytes a value in
//! each of them.

ghost use Rattle.std.specs.Prelude.{◌≡◌, ◌≢◌, ◌⊎◌, ◌<◌, ◌≤◌, ◌↔◌, ℕ, List, [], ◌∷◌, ◌++◌, length, Some, Ok};
ghost use Rattle.std.specs.Prelude.{IfOk, IfSome, IsNone, OnOk, OnErr, IsErrOf};
ghost use Rattle.site_ids.specs.declared.TheConstants.{MAX_INSTANCE};
ghost use Rattle.command.specs.Action.{Order};
ghost use Rattle.command.specs.Effective.{effective};
ghost use Rattle.command.specs.Reading.{value_reading};
ghost use Rattle.command.specs.Releases.{release_count};
ghost use Rattle.command.specs.Standing.{StandsFor};
ghost use Rattle.content.specs.Answered.{applied};
ghost use Rattle.release.specs.Page.{answer};
ghost use Rattle.release.specs.Receipts.{receipt_of};
ghost use Rattle.release.specs.ReleaseSite.{IsSiteOfRelease};
ghost use Rattle.release.specs.Standing.{answer_view};

use crate::answer::Answer;
use crate::fault::AnswerFault;
use crate::kept::{Effect, Kept};
use crate::page::page;
use crate::step::{Step, step_of};
use command::{Command, CommandFault, read};
use content::{Applied, Contents};
use site_ids::{Instance, Ticket, Value};
use std::alloc::{AllocError, Global};
use std::collections::BTreeMap;
use std::marker::Model;

/// The values of a log from its first instance on, and the releases that they make. Each value is applied
/// once, and the site of each release is kept; kept sites share what they have in common.
pub struct Releases {
    alloc: Global,
    kept: Kept<Contents>,
}

impl Drop for Releases {
    // Whoever drops it proves one step: only here it is proved that its parts can be dropped.
    fn drop(self) {
        let Releases { alloc: _, kept: _ } = self;
    }
}

impl Model for Releases {
    ghost use Rattle.std.specs.Prelude.{ℕ, List};
    ghost use Rattle.std.specs.Coded.{coded_ℕ, coded_list};

    ghost Value = { List (List ℕ) };

    ghost coded = { coded_list (coded_list coded_ℕ) };

    ghost use Rattle.release.specs.Standing.{values_fed, IsKept};

    ghost view = { values_fed };

    ghost invariant = { IsKept };
}

/// What a value that was not read gives: it is not a command, or an allocation failed.
fn no_command(fault: CommandFault) -> Result<(), AllocError>
    ensures { IfOk result (λ done. fault ≢ CommandFault.OutOfMemory) }
{
    match fault {
        CommandFault::OutOfMemory => Err(AllocError),
        _ => Ok(()),
    }
}

impl Releases {
    /// No values, and no releases.
    pub fn new(alloc: Global) -> Releases
        ensures { result ≡ [] }
    {
        Releases {
            alloc,
            kept: Kept {
                fed: Vec::new(alloc),
                live: Contents::new(alloc),
                sites: Vec::new(alloc),
                receipts: BTreeMap::new(alloc),
            },
        }
    }

    /// How many values were fed, `MAX_INSTANCE` at most.
    pub fn len(&self) -> usize
        ensures is { result ≡ length self.now }
        ensures range { result ≤ MAX_INSTANCE }
    {
        self.kept.fed.len()
    }

    /// Feeds the value of the next instance.
    pub fn feed(&mut self, value: &[u8]) -> Result<Applied, AllocError>
        requires { length self.old < MAX_INSTANCE }
        ensures ok { IfOk result (λ a. (self.new ≡ self.old ++ (value.now ∷ []))
            × (a ≡ applied self.old value.now)) }
        ensures err { OnErr result (self.new ≡ self.old) }
    {
        let value = Value::copied_from(self.alloc, value)?;
        self.feed_value(value)
    }

    /// Feeds the value of the next instance, without a copy of it.
    pub fn feed_value(&mut self, value: Value) -> Result<Applied, AllocError>
        requires { length self.old < MAX_INSTANCE }
        ensures ok { IfOk result (λ a. (self.new ≡ self.old ++ (value ∷ [])) × (a ≡ applied self.old value)) }
        ensures err { OnErr result (self.new ≡ self.old) }
    {
        match read(self.alloc, value.as_bytes()) {
            Ok(command) => self.feed_command(value, command),
            Err(fault) => {
                no_command(fault)?;
                self.pass(value)?;
                Ok(Applied::NotACommand)
            }
        }
    }

    /// Feeds the value of the next instance, which was read as this command.
    pub fn feed_command(&mut self, value: Value, command: Command) -> Result<Applied, AllocError>
        requires few { length self.old < MAX_INSTANCE }
        requires reads { (order : Order) × (value_reading value ≡ Ok order) × StandsFor command order }
        ensures ok { IfOk result (λ a. (self.new ≡ self.old ++ (value ∷ [])) × (a ≡ applied self.old value)) }
        ensures err { OnErr result (self.new ≡ self.old) }
    {
        let Command { ticket, action } = command;
        if self.kept.receipts.contains_key(&ticket) {
            drop(action);
            self.pass(value)?;
            return Ok(Applied::Repeat);
        }
        let step = match step_of(&self.kept.live, action) {
            Ok(step) => step,
            Err(refused) => {
                drop(value);
                return Err(refused);
            }
        };
        match step {
            Step::Change(site) => {
                self.kept.take(Effect {
                    value,
                    ticket,
                    site,
                    release: None,
                })?;
                Ok(Applied::Changed)
            }
            Step::Release(site, copy) => {
                self.kept.take(Effect {
                    value,
                    ticket,
                    site,
                    release: Some(copy),
                })?;
                Ok(Applied::Released)
            }
        }
    }

    /// Adds a value that has no effect.
    fn pass(&mut self, value: Value) -> Result<(), AllocError>
        requires few { length self.old < MAX_INSTANCE }
        requires passes { (applied self.old value ≢ Applied.Changed)
            × (applied self.old value ≢ Applied.Released) }
        ensures ok { OnOk result (self.new ≡ self.old ++ (value ∷ [])) }
        ensures err { OnErr result (self.new ≡ self.old) }
    {
        self.kept.fed.push(value)?;
        Ok(())
    }

    /// The number of the newest release; 0 if there is none.
    pub fn newest(&self) -> u64
        ensures { result ≡ release_count (effective self.now) }
    {
        self.kept.sites.len() as u64
    }

    /// The site of release n, if there is such a release.
    pub fn site(&self, n: u64) -> Option<&Contents>
        ensures stands { IfSome result (λ s. IsSiteOfRelease self.now n s.now) }
        ensures none { IsNone result ↔ ((n ≡ 0) ⊎ (release_count (effective self.now) < n)) }
    {
        let place = n.checked_sub(1)?;
        self.kept.sites.get(place as usize)
    }

    /// The page of release n for a path.
    pub fn answer(&self, n: u64, path: &str) -> Result<Answer, AnswerFault>
        ensures ok { IfOk result (λ a. answer self.now n path.now ≡ Some (answer_view a)) }
        ensures none { IsErrOf result AnswerFault.NoSuchRelease
            ↔ ((n ≡ 0) ⊎ (release_count (effective self.now) < n)) }
    {
        let Some(site) = self.site(n) else {
            return Err(AnswerFault::NoSuchRelease);
        };
        Ok(page(self.alloc, site, path)?)
    }

    /// The instance of the first value that is a command with that ticket.
    pub fn receipt(&self, ticket: Ticket) -> Option<Instance>
        ensures { result ≡ receipt_of ticket self.now }
    {
        self.kept.receipts.get(&ticket).copied()
    }
}
