//! What a command that is not a repeat does to the site of the commands before it.
//!
//! A value that is not a command is read again for the line of its fault.

ghost use Rattle.std.specs.Prelude.{◌≡◌, List, IfOk};
ghost use Rattle.command.specs.Action.{Order};
ghost use Rattle.command.specs.Standing.{StandsAs};
ghost use Rattle.content.specs.Standing.{HasContents};
ghost use Rattle.release.specs.Stepping.{IsStep};

use command::Action;
use content::{Applied, Contents};
use std::alloc::AllocError;

/// What a command does.
#[derive(Drop)]
pub(crate) enum Step {
    /// It puts or removes a name: the site after it.
    Change(Contents),
    /// It is a release: the site after it, twice.
    Release(Contents, Contents),
}

/// A release: the site, and a copy of it.
fn released(site: Contents) -> Result<Step, AllocError>
    ensures { IfOk result (λ step. step ≡ Step.Release site site) }
{
    match site.copy() {
        Ok(copy) => Ok(Step::Release(site, copy)),
        Err(refused) => {
            drop(site);
            Err(refused)
        }
    }
}

/// The step of an action: the site applies it.
fn acted(mut site: Contents, action: Action) -> Result<Step, AllocError>
    ensures { IfOk result (λ step. (orders : List Order) (order : Order) → StandsAs action order.action
        → HasContents site orders → IsStep step orders order) }
{
    match site.act(action) {
        Ok(applied) => match applied {
            Applied::Released => released(site),
            _ => Ok(Step::Change(site)),
        },
        Err(refused) => {
            drop(site);
            Err(refused)
        }
    }
}

/// The step of the next command, by its action.
pub(crate) fn step_of(live: &Contents, action: Action) -> Result<Step, AllocError>
    ensures { IfOk result (λ step. (orders : List Order) (order : Order) → StandsAs action order.action
        → HasContents live.now orders → IsStep step orders order) }
{
    match live.copy() {
        Ok(site) => acted(site, action),
        Err(refused) => {
            drop(action);
            Err(refused)
        }
    }
}
