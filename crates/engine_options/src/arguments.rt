//! Arguments of command lines.
ghost use Rattle.std.specs.Prelude.{◌≡◌, Some};
ghost use Rattle.clap.specs.Built.{TakesValue};
ghost use Rattle.clap.specs.declared.builder.value_parser.ValueParser.TheVariants.{Unsigned};
ghost use Rattle.engine_options.specs.Arguments.{IsArgument, number_rule, option_rule, required_rule};
ghost use Rattle.engine_options.specs.Arguments.{word_rule};

use clap::{Arg, ArgAction};
use std::alloc::Global;

/// `--NAME VALUE`, which has to be there.
pub(crate) fn required_option<'a>(
    alloc: Global,
    name: &'a str,
    value: &'a str,
    help: &'a str,
) -> Arg<'a>
    ensures is { IsArgument (required_rule name.entry.now) name.entry.now result }
    ensures takes { TakesValue result }
{
    Arg::new(alloc, name)
        .long(name)
        .value_name(value)
        .help(help)
        .required(true)
        .action(ArgAction::Set)
}

/// `--NAME VALUE`, which may be there.
fn value_option<'a>(alloc: Global, name: &'a str, value: &'a str, help: &'a str) -> Arg<'a>
    ensures { IsArgument (option_rule name.entry.now) name.entry.now result }
{
    Arg::new(alloc, name)
        .long(name)
        .value_name(value)
        .help(help)
        .action(ArgAction::Set)
}

/// `--NAME N`, which may be there, N a number below 2^64.
pub(crate) fn number_option<'a>(alloc: Global, name: &'a str, help: &'a str) -> Arg<'a>
    ensures is { IsArgument (number_rule name.entry.now) name.entry.now result }
    ensures parser { result.value_parser ≡ Some (Unsigned 0 18446744073709551615) }
{
    value_option(alloc, name, "N", help).value_parser(clap::value_parser!(u64))
}

/// A word by itself, which has to be there.
pub(crate) fn word_argument<'a>(
    alloc: Global,
    name: &'a str,
    value: &'a str,
    help: &'a str,
) -> Arg<'a>
    ensures is { IsArgument (word_rule name.entry.now) name.entry.now result }
    ensures takes { TakesValue result }
{
    Arg::new(alloc, name)
        .value_name(value)
        .help(help)
        .required(true)
        .action(ArgAction::Set)
}
