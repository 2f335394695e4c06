//! A command before its arguments: its name, what it does, and an example of it.
ghost use Rattle.std.specs.Prelude.{◌≡◌, [], false};
ghost use Rattle.clap.specs.Words.{app_of, new_app, args_of, groups_of};
ghost use Rattle.clap.specs.declared.builder.command.Command.TheViews.{out-Command};

use clap::Command;
use std::alloc::Global;

/// `--help` shows what it does at the top and the example at the end.
pub(crate) fn described<'a>(
    alloc: Global,
    name: &'a str,
    does: &'a str,
    example: &'a str,
) -> Command<'a>
    ensures app { app_of result ≡ new_app name.entry.now }
    ensures empty { (args_of result ≡ []) × (groups_of result ≡ []) }
    ensures local { (out-Command result).has_globals ≡ false }
    ensures negates { (out-Command result).subcommand_negates_reqs ≡ false }
{
    Command::new(alloc, name).about(does).after_help(example)
}
