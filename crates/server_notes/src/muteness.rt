//! Whether a server's node is mute, and what was reported of it.

ghost use Rattle.std.specs.Prelude.{◌≡◌};
ghost use Rattle.server_notes.specs.Muteness.{first_muteness, mute_note, ended_note};

use crate::note::Note;

/// The muteness of a node whose record took the place of a lost one. Until it knows all values up to its
/// floor it promises and votes for nothing there, and tries nothing.
#[derive(Clone, Copy, Drop)]
pub enum Muteness {
    /// The node has no floor, or the end of its muteness was reported.
    Over,
    /// Nothing was reported yet.
    Unsaid { floor: u32 },
    /// It was reported that the node is mute up to its floor.
    Said { floor: u32 },
}

impl Muteness {
    /// The server begins, over a record with that floor; 0 if it has none.
    pub fn new(floor: u32) -> Muteness
        ensures { result ≡ first_muteness floor }
    {
        if floor == 0 {
            Muteness::Over
        } else {
            Muteness::Unsaid { floor }
        }
    }

    /// The line at the beginning.
    pub(crate) fn beginning(self) -> Option<Note>
        ensures { result ≡ mute_note self }
    {
        match self {
            Muteness::Unsaid { floor } => Some(Note::Mute { instance: floor }),
            _ => None,
        }
    }

    /// The line of the end, which is due as soon as all values up to the floor are known.
    pub(crate) fn end(self, known: u32) -> Option<Note>
        ensures { result ≡ ended_note self known }
    {
        match self {
            Muteness::Said { floor } if floor <= known => Some(Note::NoLongerMute),
            _ => None,
        }
    }
}
