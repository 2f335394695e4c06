ghost use Rattle.std.specs.Prelude.{◌≡◌, ◌↔◌, IsTrue};

use command::CommandFault;
use site_ids::{MAX_PATH, MAX_VALUE, TICKET_BYTES};
use std::fmt;

/// Why a file is not a page of a site.
#[derive(Clone, Copy, Debug, Drop, PartialEq, Eq)]
pub enum NotTaken {
    /// It is not one of a generator's pages: a picture, a style, a script.
    Other,
    /// Its bytes are not text.
    NoText,
    /// The commands that would put it are invalid.
    NoCommand(CommandFault),
}

impl fmt::Display for NotTaken {
    fn fmt<W: fmt::Write>(&self, f: &mut fmt::Formatter<W>) -> fmt::Result {
        match self {
            NotTaken::Other => f.write_str("no page"),
            NotTaken::NoText => f.write_str("a page that is no UTF-8"),
            NotTaken::NoCommand(CommandFault::TooLong) => {
                let most = MAX_VALUE - TICKET_BYTES;
                write!(
                    f,
                    "a page too long: a template, with the line that names it, may have {most} bytes"
                )
            }
            NotTaken::NoCommand(_) => {
                write!(
                    f,
                    "a page without a path: one has neither /_ nor /@ in front, {MAX_PATH} bytes at most, \
                     and no blank"
                )
            }
        }
    }
}

impl NotTaken {
    /// Whether the file is a page, and too long for a template.
    pub(crate) fn is_too_long(self) -> bool
        ensures { IsTrue result ↔ (self ≡ NotTaken.NoCommand CommandFault.TooLong) }
    {
        matches!(self, NotTaken::NoCommand(CommandFault::TooLong))
    }
}

/// A file that is not a page of the folder, and why.
#[derive(Drop)]
pub struct LeftOut {
    pub file: String,
    pub why: NotTaken,
}
