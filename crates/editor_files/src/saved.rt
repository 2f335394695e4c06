//! A ledger that was saved.
ghost use Rattle.std.specs.Prelude.{◌≡◌, IfOk, OnOk, OnErr};
ghost use Rattle.editor_plan.specs.Flights.{after_hearing, heard_of};

use crate::saving::write_ledger;
use editor_common::EditorFault;
use editor_ledger::Ledger;
use editor_plan::{Ask, Flight, Heard};
use std::alloc::AllocError;
use std::rt::Files;

/// A ledger that its folder has in its file, except receipts that came since: what is on its way may be sent.
/// Only `save` makes one, so no text is sent under a ticket that the file lacks.
#[derive(Drop)]
pub struct Saved<'a> {
    pub(crate) folder: &'a str,
    pub(crate) ledger: &'a mut Ledger,
}

impl Saved<'_> {
    pub fn ledger(&self) -> &Ledger
        ensures { result.now ≡ self.now.ledger.now }
    {
        self.ledger
    }

    /// Saves the ledger again, with the receipts that came since.
    pub fn keep<R: Files + AllocGlobal>(&self, rt: &R) -> Result<(), EditorFault> {
        write_ledger(rt, self.folder, self.ledger)
    }

    /// Hears the status of an answer: a receipt takes its command off its way, and nothing else changes the
    /// ledger.
    pub fn hear(&mut self, flight: &mut Flight, ask: Ask, status: u16) -> Result<Heard, AllocError>
        ensures heard { IfOk result (λ heard. heard ≡ heard_of ask status) }
        ensures ledger { OnOk result (self.new.ledger.now ≡ after_hearing ask status self.old.ledger.now) }
        ensures err { OnErr result (self.new.ledger.now ≡ self.old.ledger.now) }
    {
        flight.hear(self.ledger, ask, status)
    }
}
