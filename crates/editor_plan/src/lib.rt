//! The decisions of a publication: whether a file of publications is the newest, what is planned and sent
//! next, and what an answer means.
//!
//! `standing.rt` judges a ledger by what nodes say of two tickets and show. `course.rt` plans: first the
//! commands, then their release. `flight.rt` says what is asked of a node next, and hears its answers: only
//! receipts move the ledger. `taking.rt` says what is taken over from others, `states.rt` what a release may
//! show of the folder itself, and `left_over.rt` what an interrupted run left. `answering.rt` says how long
//! nodes that are asked at once have to answer. `delivery_clock.rt` says how long a delivery stays with a
//! node and waits for it, and `progress.rt` what is printed meanwhile. `logging.rt` finds the ticket of a
//! release, and a release that is not in the log. `laws.rt` says what follows, for every interruption and
//! continuation. Nothing here sends, waits or saves: `editor_group` and `editor_publish` do, and save a plan
//! before any of it is sent.
#![tactic(auto)]

mod answering;
mod course;
mod delivery_clock;
mod flight;
mod laws;
mod left_over;
mod logging;
mod progress;
mod standing;
mod states;
mod taking;
mod told;

pub use answering::{FIRST_ANSWERS, LATER_ANSWERS, answers_within};
pub use course::{Stage, advance};
pub use delivery_clock::{Came, DeliveryClock, LONGEST_REST, Step};
pub use flight::{Ask, Flight, Heard};
pub use laws::{done_is_the_folder, tickets_have_one_text};
pub use left_over::{LeftOver, left_by};
pub use logging::{ticket_of, unlogged};
pub use progress::Progress;
pub use standing::{Standing, Witness, last_shown, last_ticket, standing_of};
pub use states::{states_of, touched};
pub use taking::{is_of_page, is_taken, joins};
pub use told::{Told, told_by};
