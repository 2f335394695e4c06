//! When a server tries again, asks, tells and rests, given the moment in milliseconds. Data and pure
//! functions, without a clock.
#![tactic(auto)]

mod asking;
mod course;
mod due;
mod keeping;
mod last_question;
mod laws;
mod pace;
mod places;
mod present;
mod questions;
mod resting;
mod returning;
mod seen;
mod ticking;
mod yielding;

pub use asking::{Asking, Telling};
pub use course::Course;
pub use due::Due;
pub use keeping::Keeping;
pub use last_question::LastQuestion;
pub use laws::{no_line_is_flooded, patience_grows, questions_come_in_time};
pub use pace::Pace;
pub use present::Present;
pub use resting::Resting;
pub use returning::Returning;
pub use seen::Seen;
pub use server_times::{Times, has_passed};
pub use ticking::Ticking;
pub use yielding::Yielding;
