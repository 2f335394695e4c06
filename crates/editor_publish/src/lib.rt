//! A folder of a site becomes the next release of a group.
//!
//! `next_release.rt` reads the folder and its ledger. `publisher.rt` does the rest: it asks the group whether
//! the file `published` is the newest, sends and releases what changed, and checks with `comparing.rt`
//! whether the release shows the folder. `going_back.rt` is for an earlier release. `taking_over.rt` reports
//! what a publication would take over from others, `asked.rt` which paths are theirs, and `own.rt` what is
//! shown of the folder itself. `replacing.rt` finds what an interrupted run has replaced, and `renewing.rt`
//! which texts are put again then. `dry_run.rt` prints what a publication would send, and `made.rt` reports
//! the release that was made. `editor_shown` judges what nodes show, and `editor_plan` decides all else;
//! `editor_files` reads and saves, `editor_group` asks and sends.
#![tactic(auto)]

mod asked;
mod comparing;
mod dry_run;
mod going_back;
mod made;
mod next_release;
mod own;
mod publisher;
mod publishing;
mod renewing;
mod replacing;
mod taking_over;

pub use publishing::publish;
