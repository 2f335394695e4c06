//! What a node's answers say of a folder: whether a release shows it, and whose a path is.
//!
//! `showing.rt` says whether an answer is what a view shows, and what is compared. `which.rt` says which
//! paths another editor took over, `numbers.rt` whether the number of a release is exact, and `ending.rt`
//! how a publication ends.
#![tactic(auto)]

mod ending;
mod numbers;
mod showing;
mod which;

pub use ending::{Ending, Found, Shown};
pub use numbers::{commands_of, is_exact};
pub use showing::{NOTHING, is_compared, shows};
pub use which::{Which, is_own, those_of};
