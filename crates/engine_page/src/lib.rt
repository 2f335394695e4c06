//! The engine of the renderer: framed commands in, one page out.
#![tactic(auto)]

mod engine;
mod framed;
mod input;
mod laws;

pub use engine::siterender;
pub use framed::frame_of;
pub use laws::an_input_has_one_verdict;
