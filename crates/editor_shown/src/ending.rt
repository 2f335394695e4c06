//! How a publication ends.
ghost use Rattle.std.specs.Prelude.{◌≡◌};
ghost use Rattle.editor_shown.specs.Endings.{shown_of, ending_of, dry_ending, status_of};

/// Whether a release shows what a publication put into it.
#[derive(Clone, Copy, Debug, Drop, PartialEq, Eq)]
pub enum Shown {
    Whole,
    /// Some paths are not as the folder has them.
    NotWhole,
}

impl Shown {
    /// By the number of paths that a release does not show as the folder has them.
    pub fn of(unshown: usize) -> Shown
        ensures { result ≡ shown_of unshown }
    {
        if unshown == 0 {
            Shown::Whole
        } else {
            Shown::NotWhole
        }
    }
}

/// What a dry run found.
#[derive(Clone, Copy)]
pub struct Found {
    /// Something would be sent.
    pub sends: bool,
    /// If nothing would be sent, whether the group shows the folder.
    pub shown: Shown,
}

/// How a publication ends.
#[derive(Clone, Copy, Debug, Drop, PartialEq, Eq)]
pub enum Ending {
    /// What was wanted is shown, or a dry run printed what it had to.
    Well,
    /// The folder has a fault, or is not shown.
    Bad,
    /// A dry run found something to send, and its status is to say so.
    WouldSend,
}

impl Ending {
    /// The ending of a publication.
    pub fn of(shown: Shown) -> Ending
        ensures { result ≡ ending_of shown }
    {
        match shown {
            Shown::Whole => Ending::Well,
            Shown::NotWhole => Ending::Bad,
        }
    }

    /// The ending of a dry run. If `tells`, its status says whether something would be sent.
    pub fn of_dry_run(found: Found, tells: bool) -> Ending
        ensures { result ≡ dry_ending found tells }
    {
        if found.sends && tells {
            Ending::WouldSend
        } else {
            Ending::of(found.shown)
        }
    }

    /// The exit status.
    pub fn status(self) -> u8
        ensures { result ≡ status_of self }
    {
        match self {
            Ending::Well => 0,
            Ending::Bad => 1,
            Ending::WouldSend => 3,
        }
    }
}
