//! The words of `sitepub` that need no node. `checking.rt` reports what is wrong with a folder.
//! `exporting.rt` writes a static copy, or a small site to start from. `framing.rt` writes a folder's
//! commands as `siterender` reads them. `log_word.rt` prints the releases of a folder. `restoring.rt` writes
//! the files of a release. What real files give and take is tested, not proved. The crate is separate, so
//! that it is proved beside the crates that publish and preview.
#![tactic(auto)]

mod checking;
mod exporting;
mod framing;
mod log_word;
mod restoring;

pub use checking::{Checking, check};
pub use exporting::{begin, export, takes_files};
pub use framing::frame;
pub use log_word::tell_log;
pub use restoring::restore;
