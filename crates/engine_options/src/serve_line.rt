//! The command line of `sited`.
ghost use Rattle.std.specs.Prelude.{◌≡◌, ◌^◌, ℕ, List, Some, IfOk, IfErr, true, is_some, pos, codes};
ghost use Rattle.clap.specs.Built.{TakesValue};
ghost use Rattle.clap.specs.Words.{found_of, first_value, one_text, rows_of, matches_of, takes};
ghost use Rattle.clap.specs.Words.{kind_of, FailsBy, fault_of, IsUnsignedIn};
ghost use Rattle.clap.specs.declared.builder.value_parser.ValueParser.TheVariants.{Signed};
ghost use Rattle.engine_options.specs.Arguments.{IsArgument};
ghost use Rattle.engine_options.specs.Options.{words_of};
ghost use Rattle.engine_options.specs.ServeOptions.{serve_app, id_rule, rounds_rule, format_rule, above_rule};
ghost use Rattle.engine_options.specs.ServeOptions.{verbose_rule, address_rule, SpellsBelow, GivesServe};

use crate::arguments::{number_option, required_option};
use crate::commands::described;
use crate::matched::{byte_in, flag_in, number_in, some_number_in, text_in, texts_in};
use clap::error::ErrorKind;
use clap::{Arg, ArgAction, ArgMatches, Error};
use server_faults::ServeOptions;
use std::alloc::Global;

fn id_option<'a>(alloc: Global) -> Arg<'a>
    ensures is { IsArgument id_rule (codes "id") result }
    ensures takes { TakesValue result }
    ensures parser { result.value_parser ≡ Some (Signed (pos 0) (pos 255)) }
{
    required_option(
        alloc,
        "id",
        "P",
        "This server's number: 1 for the first ADDRESS, 2 for the second, and so on",
    )
    .value_parser(clap::value_parser!(u8))
}

fn rounds_option<'a>(alloc: Global) -> Arg<'a>
    ensures is { IsArgument rounds_rule (codes "rounds") result }
    ensures takes { TakesValue result }
    ensures parser { result.value_parser ≡ Some (Signed (pos 0) (pos 4294967295)) }
{
    required_option(
        alloc,
        "rounds",
        "R",
        "Ends after R laps. A lap of server P is 40 + 10 P turns of its loop. 4294967295 laps take years",
    )
    .value_parser(clap::value_parser!(u32))
}

fn format_flag<'a>(alloc: Global) -> Arg<'a>
    ensures { IsArgument format_rule (codes "format") result }
{
    Arg::new(alloc, "format")
        .long("format")
        .help(
            "Makes an empty record first, if FILE is empty or missing. Only for a new group: a number that \
             was in use needs --above too",
        )
        .action(ArgAction::SetTrue)
}

fn above_option<'a>(alloc: Global) -> Arg<'a>
    ensures { IsArgument above_rule (codes "above") result }
{
    Arg::new(alloc, "above")
        .long("above")
        .value_name("P:REACH")
        .help(
            "With --format: makes a record for a server whose own is lost. REACH is what '--inspect' prints \
             as 'reaches' of server P's record. Give it for more than half of the group's servers, without \
             this one",
        )
        .action(ArgAction::Append)
}

fn verbose_flag<'a>(alloc: Global) -> Arg<'a>
    ensures { IsArgument verbose_rule (codes "verbose") result }
{
    Arg::new(alloc, "verbose")
        .long("verbose")
        .help("Reports on standard error what it sees of the other servers, and why it ended")
        .action(ArgAction::SetTrue)
}

fn address_arguments<'a>(alloc: Global) -> Arg<'a>
    ensures { IsArgument address_rule (codes "address") result }
{
    Arg::new(alloc, "address")
        .value_name("ADDRESS")
        .help(
            "Where each server receives datagrams, IP:PORT: the address of server 1, then that of server 2, \
             and so on. This server's own is one of them",
        )
        .action(ArgAction::Append)
}

/// What the words give to the arguments of `sited`.
fn serve_matches<'a>(alloc: Global, words: &'a [String]) -> Result<ArgMatches<'a>, Error>
    ensures rows { IfOk result (λ m. rows_of (found_of m) ≡ matches_of serve_app (words_of words.entry.now)) }
    ensures taken { takes serve_app (words_of words.entry.now) ≡ true
        → IfErr result (λ e. kind_of e ≡ ErrorKind.OutOfMemory) }
    ensures refused { FailsBy (fault_of serve_app (words_of words.entry.now)) result }
    ensures id { IfOk result (λ m. SpellsBelow (2 ^ 8) (one_text (found_of m) (codes "id"))) }
    ensures file { IfOk result (λ m. is_some (first_value (found_of m) (codes "record")) ≡ true) }
    ensures http { IfOk result (λ m. is_some (first_value (found_of m) (codes "http")) ≡ true) }
    ensures rounds { IfOk result (λ m. SpellsBelow (2 ^ 32) (one_text (found_of m) (codes "rounds"))) }
    ensures patience { IfOk result (λ m. (t : List ℕ) → one_text (found_of m) (codes "patience-ms") ≡ Some t
        → IsUnsignedIn 0 18446744073709551615 t) }
    ensures serving { IfOk result (λ m. (t : List ℕ) → one_text (found_of m) (codes "serve-ms") ≡ Some t
        → IsUnsignedIn 0 18446744073709551615 t) }
{
    let example = "Examples, server 1 of 3 on one machine. Once, for a new group:\
         \n  sited --id 1 --record 1.record --format --http 127.0.0.1:8001 --rounds 0 127.0.0.1:7001 \
         127.0.0.1:7002 127.0.0.1:7003\
         \n\nEach later start:\
         \n  sited --id 1 --record 1.record --http 127.0.0.1:8001 --rounds 4294967295 127.0.0.1:7001 \
         127.0.0.1:7002 127.0.0.1:7003\
         \n\nOnce, if server 1 is lost with its record, and '--inspect' prints 'reaches: 57' for server 2 \
         and 'reaches: 60' for server 3:\
         \n  sited --id 1 --record 1.record --format --above 2:57 --above 3:60 --http 127.0.0.1:8001 \
         --rounds 0 127.0.0.1:7001 127.0.0.1:7002 127.0.0.1:7003\
         \n\nsited --inspect FILE prints what a record holds, even while a server runs over it\
         \nsited --version prints the program's version";
    let args = vec![in alloc;
        id_option(alloc),
        required_option(
            alloc,
            "record",
            "FILE",
            "The file in which this server keeps its promises, its votes and what it learned",
        ),
        required_option(
            alloc,
            "http",
            "ADDRESS",
            "Where this server answers HTTP requests, IP:PORT. It has 64 connections at once. It closes one \
             on which nothing moves for 5 seconds between requests, or for 1 second within a request",
        ),
        rounds_option(alloc),
        format_flag(alloc),
        above_option(alloc),
        number_option(
            alloc,
            "patience-ms",
            "Tries again after N milliseconds without progress. The default is 100. Take three round trips \
             between the servers, if that is more",
        ),
        number_option(
            alloc,
            "serve-ms",
            "Closes a connection if a request takes longer than N milliseconds, from its first byte to the \
             last byte of its response",
        ),
        verbose_flag(alloc),
        address_arguments(alloc),
    ]?;
    let command = described(alloc, "sited", "Runs one server of a site", example).args(args)?;
    command.try_get_matches_from(words)
}

/// Reads the words of a command line, the program's name first.
pub fn sited_options<'a>(alloc: Global, words: &'a [String]) -> Result<ServeOptions<'a>, Error>
    ensures given { IfOk result (GivesServe (matches_of serve_app (words_of words.entry.now))) }
    ensures taken { takes serve_app (words_of words.entry.now) ≡ true
        → IfErr result (λ e. kind_of e ≡ ErrorKind.OutOfMemory) }
    ensures refused { FailsBy (fault_of serve_app (words_of words.entry.now)) result }
{
    let matches = serve_matches(alloc, words)?;
    let peers = texts_in(alloc, &matches, "address")?;
    let above = texts_in(alloc, &matches, "above")?;
    Ok(ServeOptions {
        id: byte_in(&matches, "id"),
        record: text_in(&matches, "record"),
        http: text_in(&matches, "http"),
        rounds: number_in(&matches, "rounds"),
        format: flag_in(&matches, "format"),
        above,
        patience: some_number_in(&matches, "patience-ms"),
        serve_ms: some_number_in(&matches, "serve-ms"),
        verbose: flag_in(&matches, "verbose"),
        peers,
    })
}
