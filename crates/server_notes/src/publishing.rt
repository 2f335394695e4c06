//! What a server reported of releases, and of commands after them.

ghost use Rattle.std.specs.Prelude.{◌≡◌, true, false};
ghost use Rattle.server_notes.specs.Publishing.{nothing_said, began_note, release_note};

use crate::note::Note;

/// The newest release that was reported, how many values were known then, and whether it was reported that
/// more became known since.
#[derive(Clone, Copy, Drop)]
pub struct Publishing {
    release: u64,
    known: u32,
    began: bool,
}

impl Publishing {
    /// Nothing was reported.
    pub fn new() -> Publishing
        ensures { result ≡ nothing_said }
    {
        Publishing {
            release: 0,
            known: 0,
            began: false,
        }
    }

    /// The line of a release that is published and was not reported.
    pub(crate) fn release(self, known: u32, newest: u64) -> Option<Note>
        ensures { result ≡ release_note self known newest }
    {
        if self.release < newest {
            Some(Note::Published {
                release: newest,
                instance: known,
            })
        } else {
            None
        }
    }

    /// The line that more became known since the newest release was reported, if that was not reported.
    pub(crate) fn beginning(self, known: u32, newest: u64) -> Option<Note>
        ensures { result ≡ began_note self known newest }
    {
        if newest <= self.release && self.known < known && !self.began {
            Some(Note::Began {
                instance: self.known.saturating_add(1),
            })
        } else {
            None
        }
    }

    /// This release was reported, when `known` values were known.
    pub(crate) fn released(release: u64, known: u32) -> Publishing
        ensures { result ≡ record { release = release; known = known; began = false } }
    {
        Publishing {
            release,
            known,
            began: false,
        }
    }

    /// It was reported that more became known.
    pub(crate) fn begun(self) -> Publishing
        ensures { result ≡ record self { began = true } }
    {
        Publishing {
            began: true,
            ..self
        }
    }
}
