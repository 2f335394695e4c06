//! Arguments, and words that take them.
use clap::{Arg, ArgAction, Command};
use std::alloc::{AllocError, Global};

/// An argument of one value. Help calls the value `called`.
pub(crate) fn value<'a>(
    alloc: Global,
    name: &'static str,
    called: &'static str,
    help: &'static str,
) -> Arg<'a> {
    Arg::new(alloc, name)
        .value_name(called)
        .help(help)
        .action(ArgAction::Set)
}

/// An option of one value.
pub(crate) fn option<'a>(
    alloc: Global,
    name: &'static str,
    called: &'static str,
    help: &'static str,
) -> Arg<'a> {
    value(alloc, name, called, help).long(name)
}

pub(crate) fn flag<'a>(alloc: Global, name: &'static str, help: &'static str) -> Arg<'a> {
    Arg::new(alloc, name)
        .long(name)
        .help(help)
        .action(ArgAction::SetTrue)
}

pub(crate) fn ignore_flag<'a>(alloc: Global) -> Arg<'a> {
    flag(alloc, "ignore", "Ignores files that are no part of a site")
}

/// A word that takes one argument more, if the word could be made.
pub(crate) fn taking<'a>(
    word: Result<Command<'a>, AllocError>,
    argument: Arg<'a>,
) -> Result<Command<'a>, AllocError> {
    match word {
        Ok(word) => word.arg(argument),
        Err(refused) => {
            drop(argument);
            Err(refused)
        }
    }
}

/// A word that is followed by a folder.
pub(crate) fn folder_word<'a>(
    alloc: Global,
    name: &'static str,
    about: &'static str,
    folder: &'static str,
) -> Result<Command<'a>, AllocError> {
    let folder = value(alloc, "folder", "FOLDER", folder).required(true);
    Command::new(alloc, name).about(about).arg(folder)
}

/// A word that is followed by the folder of a site.
pub(crate) fn site_word<'a>(
    alloc: Global,
    name: &'static str,
    about: &'static str,
) -> Result<Command<'a>, AllocError> {
    folder_word(alloc, name, about, "The folder of the site")
}

/// A command that has one word more, if both could be made.
pub(crate) fn with_word<'a>(
    command: Result<Command<'a>, AllocError>,
    word: Result<Command<'a>, AllocError>,
) -> Result<Command<'a>, AllocError> {
    match command {
        Ok(command) => match word {
            Ok(word) => command.subcommand(word),
            Err(refused) => {
                drop(command);
                Err(refused)
            }
        },
        Err(refused) => {
            drop(word);
            Err(refused)
        }
    }
}
