//! A folder of a site as data: its files in, its commands and all that is wrong with it out.
//!
//! Nothing here reads a file: `editor_files` does. `folder.rt` goes over the files. `editor_command` judges
//! whether a text is a command. If it is not, `template_reasons.rt`, `data_reasons.rt` and `reasons.rt` say
//! why, for people: the place, and what to do. `lines.rt` reads `routes`, `redirects` and `removes`,
//! `keys.rt` reads the keys of data, and `tags.rt` keeps names. `checks.rt` looks for names of what does
//! not exist, `unreached.rt` for paths that a link has to spell otherwise, `endless.rt` for redirects in
//! circles, and `unused.rt` for what no page reaches. `pages.rt` renders each route, as a node would.
//! `limits.rt` says which limit a page exceeds, `moved.rt` makes the file of a page that moved, and
//! `copies.rt` says which file of a static copy a page is. `views.rt` says what a node shows of any texts,
//! and `restoring.rt` which files put them. `beginning.rt` has a small site to start from.
#![tactic(auto)]

mod beginning;
mod checks;
mod copies;
mod data_reasons;
mod endless;
mod file;
mod finding;
mod folder;
mod keys;
mod limits;
mod lines;
mod moved;
mod pages;
mod place;
mod reasons;
mod restoring;
mod roles;
mod tags;
mod template_reasons;
mod unreached;
mod unused;
mod views;

pub use beginning::BEGINNING;
pub use copies::{Copies, NoCopy};
pub use file::SiteFile;
pub use finding::{Finding, Weight};
pub use folder::{Folder, Redirect, Route, folder_of};
pub use pages::{Page, page_faults, pages_of, release_of};
pub use place::{Place, place_of};
pub use restoring::files_of;
pub use roles::{is_of_site, is_part, is_passed_over};
pub use unused::unused_of;
pub use views::{View, path_in, views_of};
