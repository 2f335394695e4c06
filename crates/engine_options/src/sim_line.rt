//! The command line of `sitesim`.
ghost use Rattle.std.specs.Prelude.{◌≡◌, Some, IfOk, IfErr, true, is_some, codes};
ghost use Rattle.clap.specs.Words.{found_of, first_value, rows_of, matches_of, takes, kind_of, FailsBy};
ghost use Rattle.clap.specs.Words.{fault_of};
ghost use Rattle.engine_options.specs.Options.{words_of};
ghost use Rattle.engine_options.specs.SimOptions.{sim_app, NamesFile};

use crate::arguments::word_argument;
use crate::commands::described;
use clap::error::ErrorKind;
use clap::{ArgMatches, Error};
use std::alloc::Global;

/// What a command line of `sitesim` names: the file of a schedule.
#[derive(Clone, Copy, Drop)]
pub struct SimOptions<'a> {
    pub file: &'a str,
}

/// What the words give to the argument of `sitesim FILE`.
fn sim_matches<'a>(alloc: Global, words: &'a [String]) -> Result<ArgMatches<'a>, Error>
    ensures rows { IfOk result (λ m. rows_of (found_of m) ≡ matches_of sim_app (words_of words.entry.now)) }
    ensures taken { takes sim_app (words_of words.entry.now) ≡ true
        → IfErr result (λ e. kind_of e ≡ ErrorKind.OutOfMemory) }
    ensures refused { FailsBy (fault_of sim_app (words_of words.entry.now)) result }
    ensures file { IfOk result (λ m. is_some (first_value (found_of m) (codes "file")) ≡ true) }
{
    let does =
        "Runs one to nine servers in memory by a schedule in a file, and prints what each publishes";
    let example = "Example, a file of these lines:\
         \n  nodes 3\
         \n  submit 1 7 1 8\
         \n  release\
         \n\n  tick 1\
         \n  settle\
         \n  show 3\
         \n\n--version prints the program's version";
    let command = described(alloc, "sitesim", does, example).arg(word_argument(
        alloc,
        "file",
        "FILE",
        "The schedule: a line 'nodes N', and then a line for each event or question",
    ))?;
    command.try_get_matches_from(words)
}

/// Reads the words of a command line, the program's name first.
pub fn sim_options<'a>(alloc: Global, words: &'a [String]) -> Result<SimOptions<'a>, Error>
    ensures given { IfOk result (NamesFile (matches_of sim_app (words_of words.entry.now))) }
    ensures taken { takes sim_app (words_of words.entry.now) ≡ true
        → IfErr result (λ e. kind_of e ≡ ErrorKind.OutOfMemory) }
    ensures refused { FailsBy (fault_of sim_app (words_of words.entry.now)) result }
{
    let matches = sim_matches(alloc, words)?;
    match matches.get_str("file") {
        Some(file) => Ok(SimOptions { file }),
        None => unreachable!(),
    }
}
