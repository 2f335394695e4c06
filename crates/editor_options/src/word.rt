//! What `sitepub` is told to do.
ghost use Rattle.std.specs.Prelude.{◌≡◌};
ghost use Rattle.editor_options.specs.Words.{manner_of};

use crate::manner::Manner;

/// What `sitepub` is told to do.
#[derive(Drop)]
pub enum Word<'a> {
    /// Reads and writes files.
    Files(FileWord<'a>),
    /// Serves a folder as it is on disk.
    Preview {
        folder: &'a str,
        http: &'a str,
        ignore: bool,
    },
    /// Reports to people or to programs, as it is told.
    Told(ToldWord<'a>, Manner),
}

/// A word that reads and writes files.
#[derive(Clone, Copy, Drop)]
pub enum FileWord<'a> {
    /// Writes a small site to start from.
    New {
        folder: &'a str,
    },
    /// Makes a folder of another generator's pages.
    Import {
        pages: &'a str,
        folder: &'a str,
    },
    /// Writes a static copy of a folder's pages.
    Export {
        folder: &'a str,
        out: &'a str,
        ignore: bool,
    },
    /// Writes a folder's commands as `siterender` reads them.
    Frame {
        folder: &'a str,
        editor: u32,
        ignore: bool,
    },
    /// Writes a folder as it was at a release.
    Restore {
        folder: &'a str,
        release: u64,
        out: &'a str,
    },
}

/// A word that is told how to report.
#[derive(Drop)]
pub enum ToldWord<'a> {
    /// Prints what is wrong with a folder.
    Check(CheckWord<'a>),
    /// Makes a folder the next release of a group.
    Publish(PublishWord<'a>),
    /// Prints the releases of a folder.
    Log { folder: &'a str },
    /// Prints what each node says of itself, and whether the group shows what a folder made.
    Status(StatusWord<'a>),
}

#[derive(Clone, Copy, Drop)]
pub struct CheckWord<'a> {
    pub folder: &'a str,
    pub ignore: bool,
    pub unused: bool,
}

/// How a folder is published.
#[derive(Drop)]
pub struct PublishWord<'a> {
    pub folder: &'a str,
    /// The nodes, by the URLs as they were given.
    pub urls: Vec<&'a str>,
    /// The file of their logins.
    pub logins: Option<&'a str>,
    /// The editor's number; without one it is that of the file `published`, or picked at random.
    pub editor: Option<u32>,
    /// How many seconds may pass without progress.
    pub patience: u64,
    /// Nothing is sent: what would be sent is printed.
    pub dry_run: bool,
    /// The status says whether a dry run found something to send.
    pub exit_code: bool,
    /// What others have put is taken over.
    pub take_over: bool,
    /// The release of this folder that becomes the next one; without one the folder does.
    pub release: Option<u64>,
    /// What is said of the release that is made.
    pub message: Option<&'a str>,
    /// Files that are not part of a site are ignored.
    pub ignore: bool,
}

#[derive(Drop)]
pub struct StatusWord<'a> {
    pub folder: Option<&'a str>,
    pub urls: Vec<&'a str>,
    pub logins: Option<&'a str>,
}

impl Word<'_> {
    /// How the word is to report.
    pub fn manner(&self) -> Manner
        ensures { result ≡ manner_of self.now }
    {
        match self {
            Word::Told(_, manner) => *manner,
            _ => Manner {
                quiet: false,
                json: false,
            },
        }
    }
}
