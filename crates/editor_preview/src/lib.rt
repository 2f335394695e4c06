//! A folder of a site, served to browsers as it is on disk, with the code that a node serves with.
//!
//! `previewed.rt` is the folder as a service, with what it shows (`shown.rt`) and the script that loads a
//! page again (`script.rt`). `source.rt` reads the folder whenever its files look different. `serving.rt`
//! carries bytes between sockets and the connections of `visitor.rt` and `visitors.rt`: it is tested, not
//! proved.
#![tactic(auto)]

mod previewed;
mod script;
mod serving;
mod shown;
mod source;
mod visitor;
mod visitors;

pub use previewed::Previewed;
pub use serving::preview;
pub use shown::Shown;
