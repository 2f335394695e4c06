//! The ledger of an editor: what the group has of its folder, and what is on its way.
//!
//! `ledger.rt` has the steps: a plan gives tickets that no text had, and a receipt takes a text off its way.
//! `head.rt` says what a command is about, `firsts.rt` finds texts by that, and `kept.rt` has those of the
//! group. `planning.rt` says what a plan has, and `past.rt` what the group had before. `spelling.rt` writes a
//! ledger as the text of a file, and `reading.rt` reads it back. `laws.rt` says what follows, for every
//! interruption and continuation. Nothing here sends or saves: the caller saves a plan before it sends any of
//! it.
#![tactic(auto)]

mod fault;
mod firsts;
mod head;
mod kept;
mod laws;
mod ledger;
mod message;
mod past;
mod planning;
mod reading;
mod released;
mod sent;
mod spelling;

pub use fault::{LedgerFault, LedgerReadFault};
pub use laws::{each_ticket_has_one_text, files_keep_ledgers, pasts_stay, plans_turn_sites};
pub use ledger::Ledger;
pub use message::Message;
pub use past::Past;
pub use released::Released;
pub use sent::Sent;
