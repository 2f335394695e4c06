//! What a server reports of its size, once an hour.

ghost use Rattle.std.specs.Prelude.{◌≡◌, None};
ghost use Rattle.server_notes.specs.Hours.{no_hour, is_hour, hour_after, figures_note};

use crate::note::Note;

/// Milliseconds of an hour.
pub const HOUR: u64 = 3_600_000;

/// How many bytes a server's record has, and how many bytes of memory it uses; 0 if the system does not
/// report it.
#[derive(Clone, Copy, Debug, PartialEq, Eq, Drop)]
pub struct Figures {
    pub bytes: u64,
    pub memory: u64,
}

/// The hour in which figures are due next, counted from the server's start, and those that were taken for it.
#[derive(Clone, Copy, Drop)]
pub struct Hours {
    next: u64,
    taken: Option<Figures>,
}

impl Hours {
    /// No figures were reported.
    pub fn new() -> Hours
        ensures { result ≡ no_hour }
    {
        Hours {
            next: 0,
            taken: None,
        }
    }

    /// Whether figures are due.
    pub fn is_hour(self, now: u64) -> bool
        ensures { result ≡ is_hour self now }
    {
        self.next <= now / HOUR
    }

    /// These figures were taken.
    pub(crate) fn taken(self, figures: Figures) -> Hours
        ensures { result ≡ record self { taken = Some figures } }
    {
        Hours {
            taken: Some(figures),
            ..self
        }
    }

    /// The line of the figures that were taken. `known` values are known, and `newest` is the newest release.
    pub(crate) fn figures(self, known: u32, newest: u64) -> Option<Note>
        ensures { result ≡ figures_note self known newest }
    {
        match self.taken {
            Some(Figures { bytes, memory }) => Some(Note::Figures {
                instance: known,
                release: newest,
                bytes,
                memory,
            }),
            None => None,
        }
    }

    /// The figures were reported.
    pub(crate) fn said(now: u64) -> Hours
        ensures { result ≡ hour_after now }
    {
        Hours {
            next: (now / HOUR).saturating_add(1),
            taken: None,
        }
    }
}
