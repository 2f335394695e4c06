//! What a pass saw, for the lines that a server says of itself.
//!
//! A message counts for the node that it names as its sender, as it does for the server's node. If addresses
//! are translated, no node would be recognized by its address.

use crate::server::Stepped;
use server_notes::{Figures, Note, Notes};

/// What happened to clients in a pass, and the notes of all passes before it.
#[derive(Drop)]
pub(crate) struct Watch {
    notes: Notes,
    // the moment of the last pass, in milliseconds since the server began, and how many values were known and
    // which release was the newest after it
    now: u64,
    known: u32,
    newest: u64,
    displaced: u64,
    full: bool,
}

impl Watch {
    /// Nothing was seen.
    pub(crate) fn new(notes: Notes) -> Watch {
        Watch {
            notes,
            now: 0,
            known: 0,
            newest: 0,
            displaced: 0,
            full: false,
        }
    }

    /// A connection was closed for another client.
    pub(crate) fn displace(&mut self) {
        self.displaced = self.displaced.saturating_add(1);
    }

    /// No client can be seated.
    pub(crate) fn fill(&mut self) {
        self.full = true;
    }

    /// The pass is over, whose step saw this. `known` values are known, values up to `reached` were heard of,
    /// and `newest` is the newest release.
    pub(crate) fn pass(
        &mut self,
        now: u64,
        known: u32,
        reached: u32,
        newest: u64,
        stepped: Stepped,
    ) {
        self.notes.hear(now, known, reached, stepped.heard);
        self.notes
            .count(stepped.malformed, self.displaced, self.full);
        self.now = now;
        self.known = known;
        self.newest = newest;
        self.displaced = 0;
        self.full = false;
    }

    /// Whether the figures of the hour are to be taken.
    pub(crate) fn is_hour(&self) -> bool {
        self.notes.is_hour(self.now)
    }

    /// Keeps the figures that were taken.
    pub(crate) fn figure(&mut self, figures: Figures) {
        self.notes.figure(figures);
    }

    /// The next note to be written, if any.
    pub(crate) fn next(&mut self) -> Option<Note> {
        self.notes.next(self.now, self.known, self.newest)
    }
}
