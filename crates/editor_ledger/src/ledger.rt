//! What an editor keeps of its publications.
ghost use Rattle.std.specs.Prelude.{◌≡◌, ◌≤◌, ◌<◌, ◌+◌, ◌^◌, [], length, map, true, Err, IfOk, OnOk, OnErr};
ghost use Rattle.std.specs.Prelude.{string_bytes};
ghost use Rattle.editor_ledger.specs.View.{given_view, past_view, message_view};

use crate::fault::LedgerFault;
use crate::kept::Kept;
use crate::message::Message;
use crate::past::Past;
use crate::planning::{overtaken, plan_of};
use crate::released::Released;
use crate::sent::{Sent, drop_under, numbered, under};
use std::alloc::{AllocError, Global};
use std::marker::Model;

/// The command that makes a release.
const RELEASE: &str = "release\n";

/// What the group has of an editor's folder, and what is on its way.
#[derive(Drop)]
pub struct Ledger {
    pub(crate) editor: u32,
    /// The number of the next ticket; the first is 1.
    pub(crate) next: u64,
    /// The ticket of the last release that has its receipt; 0 for none.
    pub(crate) last_release: u64,
    /// The last text about each kind and name, in the order of the receipts.
    pub(crate) kept: Kept,
    /// What is on its way, in the order of the tickets.
    pub(crate) sent: Vec<Sent>,
    /// The releases, the oldest first.
    pub(crate) log: Vec<Released>,
    /// What the group had before each text that was planned, in the order of planning.
    pub(crate) past: Vec<Past>,
    /// What was said of releases.
    pub(crate) messages: Vec<Message>,
}

impl Model for Ledger {
    ghost use Rattle.std.specs.Prelude.{map};
    ghost use Rattle.editor_ledger.specs.Books.{Book};

    ghost Value = { Book };

    ghost use Rattle.editor_ledger.specs.View.{given_view, past_view, message_view};

    ghost view = { λ l. record {
      editor = l.editor;
      next = l.next;
      last_release = l.last_release;
      kept = l.kept;
      sent = map given_view l.sent.items;
      log = l.log.items;
      past = map past_view l.past.items;
      messages = map message_view l.messages.items;
    } };
}

impl Ledger {
    ghost use Rattle.editor_ledger.specs.Books.{fresh};
    ghost use Rattle.editor_ledger.specs.Steps.{is_idle, has_unshown, with_tickets, with_past, planned};
    ghost use Rattle.editor_ledger.specs.Steps.{release_planned, noted, received, logged, messaged};
    ghost use Rattle.editor_ledger.specs.Plans.{plan_of};

    /// The ledger of an editor that has published nothing.
    pub fn new(alloc: Global, editor: u32) -> Ledger
        ensures { result ≡ fresh editor }
    {
        Ledger {
            editor,
            next: 1,
            last_release: 0,
            kept: Kept::new(alloc),
            sent: Vec::new(alloc),
            log: Vec::new(alloc),
            past: Vec::new(alloc),
            messages: Vec::new(alloc),
        }
    }

    pub fn editor(&self) -> u32
        ensures { result ≡ self.now.editor }
    {
        self.editor
    }

    /// The number of the next ticket.
    pub fn next(&self) -> u64
        ensures { result ≡ self.now.next }
    {
        self.next
    }

    /// The ticket of the last release that has its receipt; 0 for none.
    pub fn last_release(&self) -> u64
        ensures { result ≡ self.now.last_release }
    {
        self.last_release
    }

    /// The last text that the group has about each kind and name.
    pub fn kept(&self) -> &[String]
        ensures { map string_bytes result.now ≡ self.now.kept }
    {
        self.kept.as_slice()
    }

    /// What is on its way, in the order of the tickets.
    pub fn sent(&self) -> &[Sent]
        ensures { map given_view result.now ≡ self.now.sent }
    {
        self.sent.as_slice()
    }

    /// The releases, the oldest first.
    pub fn log(&self) -> &[Released]
        ensures { result.now ≡ self.now.log }
    {
        self.log.as_slice()
    }

    /// What the group had before each text that was planned, in the order of planning.
    pub fn past(&self) -> &[Past]
        ensures { map past_view result.now ≡ self.now.past }
    {
        self.past.as_slice()
    }

    /// What was said of releases.
    pub fn messages(&self) -> &[Message]
        ensures { map message_view result.now ≡ self.now.messages }
    {
        self.messages.as_slice()
    }

    /// Whether nothing is on its way.
    pub fn is_idle(&self) -> bool
        ensures { result ≡ is_idle self.now }
    {
        self.sent.is_empty()
    }

    /// Whether tickets were given since the last release.
    pub fn has_unshown(&self) -> bool
        ensures { result ≡ has_unshown self.now }
    {
        self.next.saturating_sub(self.last_release) > 1
    }

    /// The number of the next ticket after each of these texts has one.
    fn next_behind(&self, texts: &[String]) -> Result<u64, LedgerFault>
        ensures ok { IfOk result (λ n. (n ≡ self.now.next + length texts.now) × (n < 2 ^ 64)) }
        ensures tickets { result ≡ Err LedgerFault.NoTickets → 2 ^ 64 ≤ self.now.next + length texts.now }
    {
        match self.next.checked_add(texts.len() as u64) {
            Some(next) => Ok(next),
            None => Err(LedgerFault::NoTickets),
        }
    }

    /// Gives each text a ticket that no text had.
    fn give(&mut self, alloc: Global, texts: Vec<String>) -> Result<(), LedgerFault>
        ensures ok { OnOk result (self.new ≡ with_tickets (map string_bytes texts.items) self.old) }
        ensures err { OnErr result (self.new ≡ self.old) }
        ensures tickets { result ≡ Err LedgerFault.NoTickets → 2 ^ 64 ≤ self.old.next + length texts.items }
    {
        let next = self.next_behind(&texts)?;
        self.sent = numbered(alloc, self.next, texts)?;
        self.next = next;
        Ok(())
    }

    /// Gives the texts of a plan their tickets. It keeps what the group had before each.
    fn take_plan(&mut self, alloc: Global, texts: Vec<String>) -> Result<(), LedgerFault>
        ensures ok { OnOk result (self.new
            ≡ with_tickets (map string_bytes texts.items)
            (with_past (map string_bytes texts.items) self.old)) }
        ensures err { OnErr result (self.new ≡ self.old) }
        ensures tickets { result ≡ Err LedgerFault.NoTickets → 2 ^ 64 ≤ self.old.next + length texts.items }
    {
        let next = self.next_behind(&texts)?;
        let mut past = overtaken(alloc, self.next, self.kept.as_slice(), &texts)?;
        let sent = numbered(alloc, self.next, texts)?;
        self.past.append(&mut past)?;
        self.sent = sent;
        self.next = next;
        Ok(())
    }

    /// The texts that a plan of these texts puts on their way.
    pub fn next_texts(&self, alloc: Global, wanted: &[&str]) -> Result<Vec<String>, AllocError>
        ensures { IfOk result (λ v. map string_bytes v.items
            ≡ plan_of [] self.now.kept (map (λ t. t.now) wanted.now)) }
    {
        plan_of(alloc, self.kept.as_slice(), wanted, &[])
    }

    /// Plans what turns the texts that the group has into the wanted ones, each about another kind and name.
    /// It keeps what the group had before each. Those of `again` are put again, though the group has them by
    /// this ledger: another editor may have put something in their place.
    pub fn plan(
        &mut self,
        alloc: Global,
        wanted: &[&str],
        again: &[String],
    ) -> Result<(), LedgerFault>
        requires { is_idle self.old ≡ true }
        ensures ok { OnOk result (self.new
            ≡ planned (map string_bytes again.now) (map (λ t. t.now) wanted.now) self.old) }
        ensures err { OnErr result (self.new ≡ self.old) }
        ensures tickets { result ≡ Err LedgerFault.NoTickets → 2 ^ 64 ≤ self.old.next
            + length (plan_of (map string_bytes again.now) self.old.kept (map (λ t. t.now) wanted.now)) }
    {
        let texts = plan_of(alloc, self.kept.as_slice(), wanted, again)?;
        self.take_plan(alloc, texts)
    }

    /// Plans the release of what the group has, if tickets were given since the last one.
    pub fn plan_release(&mut self, alloc: Global) -> Result<(), LedgerFault>
        requires { is_idle self.old ≡ true }
        ensures ok { OnOk result (self.new ≡ release_planned self.old) }
        ensures err { OnErr result (self.new ≡ self.old) }
        ensures tickets { result ≡ Err LedgerFault.NoTickets → 2 ^ 64 ≤ self.old.next + 1 }
    {
        if !self.has_unshown() {
            return Ok(());
        }
        let mut texts = Vec::with_capacity(alloc, 1)?;
        texts.push(String::from_str(alloc, RELEASE)?)?;
        self.give(alloc, texts)
    }

    /// Notes that the group has the text of the ticket.
    fn hold(&mut self, number: u64, text: String) -> Result<(), AllocError>
        ensures ok { OnOk result (self.new
            ≡ noted (record { number = number; text = string_bytes text }) self.old) }
        ensures err { OnErr result (self.new ≡ self.old) }
    {
        if text.as_str() == RELEASE {
            self.last_release = number;
            Ok(())
        } else {
            self.kept.keep(text)
        }
    }

    /// Notes that the command of a ticket has its receipt.
    pub fn receive(&mut self, number: u64) -> Result<(), AllocError>
        ensures ok { OnOk result (self.new ≡ received number self.old) }
        ensures err { OnErr result (self.new ≡ self.old) }
    {
        let Some(found) = under(&self.sent, number) else {
            return Ok(());
        };
        let text = found.text.clone()?;
        self.hold(number, text)?;
        drop_under(&mut self.sent, number);
        Ok(())
    }

    /// Adds a release to the log.
    pub fn note(&mut self, released: Released) -> Result<(), AllocError>
        ensures ok { OnOk result (self.new ≡ logged released self.old) }
        ensures err { OnErr result (self.new ≡ self.old) }
    {
        self.log.push(released)?;
        Ok(())
    }

    /// Says something of a release.
    pub fn say(&mut self, message: Message) -> Result<(), AllocError>
        ensures ok { OnOk result (self.new ≡ messaged message.release (string_bytes message.text) self.old) }
        ensures err { OnErr result (self.new ≡ self.old) }
    {
        self.messages.push(message)?;
        Ok(())
    }
}
