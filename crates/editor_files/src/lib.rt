//! The files of a site's folder, read and written: what an editor's program has from a disk.
//!
//! `files.rt` reads the files of a folder and writes some. `holding.rt` keeps other processes from publishing
//! the folder meanwhile. `reading.rt` prints what is wrong with the files, as `editor_folder` says.
//! `saving.rt` keeps the file `published`: only it makes the `Saved` of `saved.rt`, out of which commands are
//! sent. `released.rt` has the texts of a release from there, and `listing.rt` findings for programs.
//! `secrets.rt` reads a file that has passwords. What real files do is tested, not proved.
#![tactic(auto)]

mod files;
mod holding;
mod listing;
mod reading;
mod released;
mod saved;
mod saving;
mod secrets;

pub use files::{below, is_free, pages_below, seen_in, write_file};
pub use holding::hold;
pub use listing::list_findings;
pub use reading::{Clean, Read, clean_of, read_clean, read_folder, tell_findings, texts_of};
pub use released::{lent, release_texts};
pub use saved::Saved;
pub use saving::{new_editor, read_ledger, save};
pub use secrets::read_secret;
