//! What a server reports to whoever runs it, and when, given the moment in milliseconds. Data and pure
//! functions, without a clock.
#![tactic(auto)]

mod catching;
mod hours;
mod listening;
mod muteness;
mod note;
mod notes;
mod publishing;
mod silence;

pub use catching::Catching;
pub use hours::{Figures, HOUR, Hours};
pub use listening::Listening;
pub use muteness::Muteness;
pub use note::Note;
pub use notes::{EACH, Notes};
pub use publishing::Publishing;
pub use silence::{LONG, Silence};
