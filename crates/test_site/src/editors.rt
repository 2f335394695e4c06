//! Tables of what an editor works with: folders, their faults, pages, static copies and what no page shows of
//! them; another generator's pages; files of ledgers and plans; requests to nodes, answers in pieces, paces,
//! reports of progress, standings, releases that a log does not have, what a release may show of a folder;
//! publications (`interruptions` of a ledger, `flights` into a group) that are cut off and go on with another
//! folder. Each allocation is made to fail once.

mod answers;
mod copies;
mod delivery_clocks;
mod flights;
mod folder_faults;
mod folders;
mod imports;
mod interruptions;
mod ledger_files;
mod ledgers;
mod limits;
mod pasts;
mod places;
mod plans;
mod progresses;
mod questions;
mod refusals;
mod restored;
mod standings;
mod states;
mod takings;
mod tickets;
mod unlogged;
mod unused;
