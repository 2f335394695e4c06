//! How a word is to report.
ghost use Rattle.clap.specs.Words.{found_of};
ghost use Rattle.editor_options.specs.Words.{IsManner};

use crate::arguments::{flag, taking};
use clap::{Arg, ArgMatches, Command};
use std::alloc::{AllocError, Global};

/// How a word is to report.
#[derive(Clone, Copy, Debug, Drop, PartialEq, Eq)]
pub struct Manner {
    /// It writes only why its status is not 0.
    pub quiet: bool,
    /// Standard output has the outcome as one JSON object, and nothing else.
    pub json: bool,
}

fn json_flag<'a>(alloc: Global) -> Arg<'a> {
    flag(
        alloc,
        "json",
        "Writes what it came to on standard output, as one JSON object in one line",
    )
}

fn quiet_flag<'a>(alloc: Global) -> Arg<'a> {
    flag(
        alloc,
        "quiet",
        "Writes nothing but why its status is not 0, if it isn't",
    )
}

/// A word that is told how to report.
pub(crate) fn speaking<'a>(
    alloc: Global,
    word: Result<Command<'a>, AllocError>,
) -> Result<Command<'a>, AllocError> {
    let word = taking(word, json_flag(alloc));
    taking(word, quiet_flag(alloc))
}

/// How a word was told to report.
pub(crate) fn manner_in(found: &ArgMatches<'_>) -> Manner
    ensures { IsManner (found_of found.now) result }
{
    Manner {
        quiet: found.get_flag("quiet"),
        json: found.get_flag("json"),
    }
}
