//! A command of the log that was read.

ghost use Rattle.std.specs.Prelude.{◌≡◌, ◌↔◌, ◌<◌, ◌++◌, [], ◌∷◌, None, Some, Ok, true, length, IsTrue, IfOk};
ghost use Rattle.std.specs.Prelude.{IfSome, MatchOption, OnOk, OnErr, is_some};
ghost use Rattle.site_ids.specs.declared.TheConstants.{MAX_INSTANCE};
ghost use Rattle.command.specs.Action.{Order};
ghost use Rattle.command.specs.Reading.{value_reading};
ghost use Rattle.command.specs.Standing.{StandsFor};
ghost use Rattle.release.specs.Receipts.{receipt_of};
ghost use Rattle.node.specs.Tickets.{ticket_in};

use command::{Command, CommandFault, read};
use release::Releases;
use site_ids::{Ticket, Value};
use std::alloc::{AllocError, Global};
use std::marker::Model;

/// A value, and the command that it was read as.
#[derive(Drop)]
pub(crate) struct ReadValue {
    value: Value,
    command: Command,
}

impl Model for ReadValue {
    ghost use Rattle.std.specs.Prelude.{ℕ, List};
    ghost use Rattle.std.specs.Coded.{coded_ℕ, coded_list};
    ghost use Rattle.node.specs.ReadValues.{value_read, IsRead};

    ghost Value = { List ℕ };

    ghost coded = { coded_list coded_ℕ };

    ghost view = { value_read };

    ghost invariant = { IsRead };
}

impl ReadValue {
    /// A value, and the command that it was read as.
    pub(crate) fn of(value: Value, command: Command) -> ReadValue
        requires { (order : Order) × (value_reading value ≡ Ok order) × StandsFor command order }
        ensures { result ≡ value }
    {
        ReadValue { value, command }
    }

    /// Reads a value that is a command. Any other value gives `None`.
    pub(crate) fn read(alloc: Global, value: &Value) -> Result<Option<ReadValue>, AllocError>
        ensures { IfOk result (λ read. MatchOption read (ticket_in value.now ≡ None) (λ r. r ≡ value.now)) }
    {
        match read(alloc, value.as_bytes()) {
            Ok(command) => {
                let value = value.try_clone()?;
                Ok(Some(ReadValue { value, command }))
            }
            Err(fault) => match fault {
                CommandFault::OutOfMemory => Err(AllocError),
                _ => Ok(None),
            },
        }
    }

    /// Reads a value that is a command, as `read` does, but takes what was read of it before, if that is
    /// there.
    pub(crate) fn read_once(
        alloc: Global,
        value: &Value,
        before: Option<ReadValue>,
    ) -> Result<Option<ReadValue>, AllocError>
        ensures { IfOk result (λ read. MatchOption read (ticket_in value.now ≡ None) (λ r. r ≡ value.now)) }
    {
        if let Some(read) = before {
            if read.is_of(value) {
                return Ok(Some(read));
            }
            drop(read);
        }
        ReadValue::read(alloc, value)
    }

    pub(crate) fn ticket(&self) -> Ticket
        ensures { ticket_in self.now ≡ Some result }
    {
        self.command.ticket
    }

    fn is_of(&self, value: &Value) -> bool
        ensures { IsTrue result ↔ (self.now ≡ value.now) }
    {
        self.value.as_bytes() == value.as_bytes()
    }

    fn feed(self, releases: &mut Releases) -> Result<(), AllocError>
        requires { length releases.old < MAX_INSTANCE }
        ensures ok { OnOk result (releases.new ≡ releases.old ++ (self ∷ [])) }
        ensures err { OnErr result (releases.new ≡ releases.old) }
    {
        releases.feed_command(self.value, self.command)?;
        Ok(())
    }
}

/// Feeds a value. It is not read again if it was read before: then its ticket is returned, of which the
/// releases have a receipt.
pub(crate) fn feed_value(
    value: &Value,
    read: Option<ReadValue>,
    releases: &mut Releases,
) -> Result<Option<Ticket>, AllocError>
    requires { length releases.old < MAX_INSTANCE }
    ensures ok { OnOk result (releases.new ≡ releases.old ++ (value.now ∷ [])) }
    ensures err { OnErr result (releases.new ≡ releases.old) }
    ensures receipt { IfOk result (λ ticket. IfSome ticket (λ t. is_some (receipt_of t releases.new)
        ≡ true)) }
{
    if let Some(read) = read {
        if read.is_of(value) {
            let ticket = read.ticket();
            read.feed(releases)?;
            return Ok(Some(ticket));
        }
        drop(read);
    }
    releases.feed_value(value.try_clone()?)?;
    Ok(None)
}
