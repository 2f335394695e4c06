//! The command line of `siterender`.
ghost use Rattle.std.specs.Prelude.{◌≡◌, ℕ, List, IfOk, IfErr, Some, true, is_some, codes};
ghost use Rattle.clap.specs.Words.{found_of, first_value, one_text, rows_of, matches_of, takes, kind_of};
ghost use Rattle.clap.specs.Words.{FailsBy, fault_of, IsUnsignedIn};
ghost use Rattle.engine_options.specs.Options.{render_app, words_of, Gives};

use crate::arguments::{number_option, word_argument};
use crate::commands::described;
use clap::error::ErrorKind;
use clap::{ArgMatches, Error};
use std::alloc::Global;

/// What a command line of `siterender` names: a release, or the newest if it names none, and a path.
#[derive(Clone, Copy, Drop)]
pub struct RenderOptions<'a> {
    pub release: Option<u64>,
    pub path: &'a str,
}

/// What the words give to the arguments of `siterender [--release N] PATH`.
fn render_matches<'a>(alloc: Global, words: &'a [String]) -> Result<ArgMatches<'a>, Error>
    ensures rows { IfOk result (λ m. rows_of (found_of m)
        ≡ matches_of render_app (words_of words.entry.now)) }
    ensures taken { takes render_app (words_of words.entry.now) ≡ true
        → IfErr result (λ e. kind_of e ≡ ErrorKind.OutOfMemory) }
    ensures refused { FailsBy (fault_of render_app (words_of words.entry.now)) result }
    ensures path { IfOk result (λ m. is_some (first_value (found_of m) (codes "path")) ≡ true) }
    ensures release { IfOk result (λ m. (t : List ℕ) → one_text (found_of m) (codes "release") ≡ Some t
        → IsUnsignedIn 0 18446744073709551615 t) }
{
    let does =
        "Prints a page of the site whose commands come on standard input (sitepub frame writes them)";
    let example = "Example:\
         \n  sitepub frame examples/status/1 | siterender /status\
         \n\n--version prints the program's version";
    let command = described(alloc, "siterender", does, example)
        .arg(number_option(
            alloc,
            "release",
            "Prints the page of release N, not of the newest. Releases count from 1",
        ))?
        .arg(word_argument(
            alloc,
            "path",
            "PATH",
            "The path of the page, such as /status",
        ))?;
    command.try_get_matches_from(words)
}

/// Reads the words of a command line, the program's name first.
pub fn render_options<'a>(alloc: Global, words: &'a [String]) -> Result<RenderOptions<'a>, Error>
    ensures given { IfOk result (Gives (matches_of render_app (words_of words.entry.now))) }
    ensures taken { takes render_app (words_of words.entry.now) ≡ true
        → IfErr result (λ e. kind_of e ≡ ErrorKind.OutOfMemory) }
    ensures refused { FailsBy (fault_of render_app (words_of words.entry.now)) result }
{
    let matches = render_matches(alloc, words)?;
    let release = matches.get_one::<u64>("release");
    match matches.get_str("path") {
        Some(path) => Ok(RenderOptions { release, path }),
        None => unreachable!(),
    }
}
