//! The command line of `sitecluster`.
ghost use Rattle.std.specs.Prelude.{◌≡◌, IfErr, true};
ghost use Rattle.clap.specs.Words.{takes, kind_of, FailsBy, fault_of};
ghost use Rattle.engine_options.specs.Options.{words_of};
ghost use Rattle.engine_options.specs.ClusterOptions.{cluster_app};

use crate::commands::described;
use clap::error::ErrorKind;
use clap::{ArgMatches, Error};
use std::alloc::Global;

/// What the words give to `sitecluster`.
fn cluster_matches<'a>(alloc: Global, words: &'a [String]) -> Result<ArgMatches<'a>, Error>
    ensures taken { takes cluster_app (words_of words.entry.now) ≡ true
        → IfErr result (λ e. kind_of e ≡ ErrorKind.OutOfMemory) }
    ensures refused { FailsBy (fault_of cluster_app (words_of words.entry.now)) result }
{
    let does =
        "Runs three servers of a site on this machine by a script on standard input, and prints what they \
         answer";
    let example = "Lines of a script, P a server, 1 to 3:\
         \n  post P E K LENGTH  posts the LENGTH bytes after this line to P, as command K of editor E\
         \n  get P TARGET       asks P for a page, such as / or /_newest\
         \n  drive P K          lets P take K turns, and then propose what waits\
         \n  turns K            lets each server take 20 turns, K times\
         \n\nExample, a script of these lines:\
         \n  post 1 7 1 8\
         \n  release\
         \n\n  drive 1 0\
         \n  drive 1 0\
         \n  drive 2 9\
         \n  drive 1 9\
         \n  drive 2 9\
         \n  drive 1 9\
         \n  get 1 /_newest\
         \n\n--version prints the program's version";
    let command = described(alloc, "sitecluster", does, example);
    command.try_get_matches_from(words)
}

/// Reads the words of a command line, the program's name first. Any other word is refused.
pub fn cluster_options(alloc: Global, words: &[String]) -> Result<(), Error>
    ensures taken { takes cluster_app (words_of words.now) ≡ true
        → IfErr result (λ e. kind_of e ≡ ErrorKind.OutOfMemory) }
    ensures refused { FailsBy (fault_of cluster_app (words_of words.now)) result }
{
    cluster_matches(alloc, words)?;
    Ok(())
}
