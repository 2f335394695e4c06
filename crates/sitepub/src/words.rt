//! What the words do.
use clap::error::ErrorKind;
use editor_common::{EditorFault, Outcome, say_made};
use editor_files::{lent, read_ledger};
use editor_group::{Published, tell_status, with_logins};
use editor_import::import;
use editor_options::{
    CheckWord, FileWord, Manner, PublishWord, StatusWord, ToldWord, Word, word_in,
};
use editor_preview::preview;
use editor_publish::publish;
use editor_words::{Checking, begin, check, export, frame, restore, tell_log};
use serde_json::Value;
use std::alloc::{AllocError, Global};
use std::env;
use std::fmt::Display;
use std::fs::{self, File};
use std::io::{self, Write};
use std::net::{Net, TcpListener, TcpStream};
use std::random::RandomSource;
use std::rt::{Clock, Env, Files};

/// The refusal of a command line that is not UTF-8.
const NOT_UTF8: &str = "error: invalid UTF-8 was detected in one or more arguments";

/// What is written if an allocation failed.
const OUT_OF_MEMORY: &str = "out of memory";

/// What `--version` prints: the heading of this version in `docs/CHANGES.md`.
const VERSION: &str = "sitepub 1.0";

/// Writes a line, if it can be written, and returns the exit status that goes with it.
fn tell<W: Write, L: Display>(out: &mut W, line: &L, status: u8) -> u8 {
    let _ = writeln!(out, "{line}");
    status
}

/// Why a folder has published nothing: it does not exist, or was never published.
fn unpublished<R: Files + AllocGlobal>(rt: &R, folder: &str) -> Result<EditorFault, AllocError> {
    let alloc = rt.alloc();
    match fs::metadata(rt, folder) {
        Ok(_) => Ok(EditorFault::Unpublished(String::from_str(alloc, folder)?)),
        Err(fault) => Ok(EditorFault::at_path(alloc, folder, fault)),
    }
}

/// What a folder has published, by its ledger, if one is named.
fn published_by<R: Files + AllocGlobal>(
    rt: &R,
    folder: Option<&str>,
) -> Result<Published, EditorFault> {
    let Some(folder) = folder else {
        return Ok(Published::nothing());
    };
    match read_ledger(rt, folder)? {
        Some(ledger) => Ok(Published::of(&ledger)),
        None => Err(unpublished(rt, folder)?),
    }
}

/// How a folder is checked.
fn checking<'a>(word: &CheckWord<'a>) -> Checking<'a> {
    Checking {
        folder: word.folder,
        ignore: word.ignore,
        unused: word.unused,
    }
}

/// Keeps why a word failed.
fn keep_fault(alloc: Global, outcome: &mut Outcome, why: &EditorFault) -> Result<(), AllocError> {
    let why = format!(in alloc; "{why}")?;
    outcome.put(alloc, "fault", Value::String(why))
}

/// Writes the results of a word as one JSON object, including its exit status.
fn write_outcome<W: Write>(
    alloc: Global,
    out: &mut W,
    mut outcome: Outcome,
    status: u8,
) -> Result<(), EditorFault> {
    outcome.put(alloc, "status", Value::from(status))?;
    Ok(say_made(out, outcome.spelled(alloc))?)
}

/// The words of the command line.
fn words_of<R: Env + AllocGlobal>(rt: &R) -> io::Result<Vec<String>> {
    Ok(env::args(rt)?.collect(rt.alloc())?)
}

/// Reports why the words cannot be read, and returns the exit status.
fn tell_no_words<E: Write>(err: &mut E, why: &io::Error) -> u8 {
    if why.kind() == io::ErrorKind::OutOfMemory {
        return tell(err, &OUT_OF_MEMORY, 1);
    }
    tell(err, &NOT_UTF8, 2)
}

/// Prints why a command line is invalid, or the help that it asks for, and returns the exit status.
fn tell_refusal<W: Write, E: Write>(out: &mut W, err: &mut E, refused: &clap::Error) -> u8 {
    if refused.kind() == ErrorKind::OutOfMemory {
        return tell(err, &OUT_OF_MEMORY, 1);
    }
    if refused.use_stderr() {
        return tell(err, refused, 2);
    }
    tell(out, refused, 0)
}

fn asks_version(words: &[String]) -> bool {
    matches!(words, [_, word] if word.as_str() == "--version")
}

/// What the words are done with: the system, the writer of results and the writer of reports.
#[derive(Drop)]
struct Run<'a, R, W, E> {
    rt: &'a R,
    out: &'a mut W,
    err: &'a mut E,
}

impl<
    R: Files<File = File>
        + Env
        + Net<Listener = TcpListener, Stream = TcpStream>
        + Clock
        + RandomSource
        + AllocGlobal
        + Clone
        + Drop,
    W: Write,
    E: Write,
> Run<'_, R, W, E> {
    /// Prints what nodes say of themselves. A file may have their logins.
    fn status_by(
        &mut self,
        outcome: &mut Outcome,
        word: &StatusWord<'_>,
    ) -> Result<u8, EditorFault> {
        let urls = with_logins(self.rt, &word.urls, word.logins)?;
        let urls = lent(self.rt.alloc(), &urls)?;
        let published = published_by(self.rt, word.folder)?;
        tell_status(self.rt, self.out, self.err, outcome, &urls, published)
    }

    /// Publishes a folder to nodes. A file may have their logins.
    fn publish_by(
        &mut self,
        outcome: &mut Outcome,
        word: &PublishWord<'_>,
    ) -> Result<u8, EditorFault> {
        let urls = with_logins(self.rt, &word.urls, word.logins)?;
        let urls = lent(self.rt.alloc(), &urls)?;
        publish(self.rt, self.out, self.err, outcome, word, &urls)
    }

    /// Does a word that is told how to report, and keeps its results in the outcome.
    fn tell_word(&mut self, outcome: &mut Outcome, word: &ToldWord<'_>) -> Result<u8, EditorFault> {
        match word {
            ToldWord::Check(word) => check(self.rt, self.out, self.err, outcome, checking(word)),
            ToldWord::Publish(word) => self.publish_by(outcome, word),
            ToldWord::Log { folder } => tell_log(self.rt, self.out, self.err, outcome, folder),
            ToldWord::Status(word) => self.status_by(outcome, word),
        }
    }

    /// Does a word that reads and writes files.
    fn write_files(&mut self, word: FileWord<'_>) -> Result<u8, EditorFault> {
        match word {
            FileWord::New { folder } => begin(self.rt, self.out, self.err, folder),
            FileWord::Import { pages, folder } => {
                import(self.rt, self.out, self.err, pages, folder)
            }
            FileWord::Export {
                folder,
                out,
                ignore,
            } => export(self.rt, self.err, folder, out, ignore),
            FileWord::Frame {
                folder,
                editor,
                ignore,
            } => frame(self.rt, self.out, self.err, folder, editor, ignore),
            FileWord::Restore {
                folder,
                release,
                out,
            } => restore(self.rt, self.err, folder, release, out),
        }
    }

    /// Does what a word says, and keeps its results in the outcome.
    fn done(&mut self, outcome: &mut Outcome, word: &Word<'_>) -> Result<u8, EditorFault> {
        match word {
            Word::Files(word) => self.write_files(*word),
            Word::Preview {
                folder,
                http,
                ignore,
            } => preview(self.rt, self.out, self.err, folder, http, *ignore),
            Word::Told(word, _) => self.tell_word(outcome, word),
        }
    }

    /// Does what a word says, and returns the exit status. If it fails, the reason is written, and kept in
    /// the outcome.
    fn status_of(&mut self, outcome: &mut Outcome, word: &Word<'_>) -> u8 {
        match self.done(outcome, word) {
            Ok(status) => status,
            Err(why) => {
                let _ = keep_fault(self.rt.alloc(), outcome, &why);
                tell(self.err, &why, 1)
            }
        }
    }

    /// Does what a word says, and writes nothing if the status is 0. Otherwise it writes at the end what the
    /// word reported to `err`, after the table of `status`, which says why.
    fn quiet_status_of(&mut self, outcome: &mut Outcome, word: &Word<'_>) -> u8 {
        let mut table: Vec<u8> = Vec::new(self.rt.alloc());
        let mut told: Vec<u8> = Vec::new(self.rt.alloc());
        let rt = self.rt;
        let status = match word {
            Word::Told(ToldWord::Status(_), _) => {
                Run {
                    rt,
                    out: &mut table,
                    err: &mut told,
                }
                .status_of(outcome, word)
            }
            _ => Run {
                rt,
                out: &mut io::sink(),
                err: &mut told,
            }
            .status_of(outcome, word),
        };
        if status != 0 {
            let _ = self.err.write_all(&table);
            let _ = self.err.write_all(&told);
        }
        status
    }

    /// Does what a word says in the manner that its command line asks for, and returns the exit status.
    fn end_of(&mut self, word: &Word<'_>) -> u8 {
        let Manner { quiet, json } = word.manner();
        let mut outcome = Outcome::new(self.rt.alloc());
        let status = if quiet {
            self.quiet_status_of(&mut outcome, word)
        } else if json {
            Run {
                rt: self.rt,
                out: &mut io::sink(),
                err: self.err,
            }
            .status_of(&mut outcome, word)
        } else {
            self.status_of(&mut outcome, word)
        };
        if !json {
            return status;
        }
        match write_outcome(self.rt.alloc(), self.out, outcome, status) {
            Ok(()) => status,
            Err(why) => tell(self.err, &why, 1),
        }
    }

    /// Does what words say, the program's name first.
    fn by_words(&mut self, words: &[String]) -> u8 {
        if asks_version(words) {
            return tell(self.out, &VERSION, 0);
        }
        match word_in(self.rt.alloc(), words) {
            Ok(Some(word)) => self.end_of(&word),
            Ok(None) => 2,
            Err(refused) => tell_refusal(self.out, self.err, &refused),
        }
    }
}

/// Does what the command line says, and returns the exit status: 1 if something was refused or failed, 2 if
/// the line is invalid. The reason is written to `err`.
pub fn sitepub<
    'a,
    R: Files<File = File>
        + Env
        + Net<Listener = TcpListener, Stream = TcpStream>
        + Clock
        + RandomSource
        + AllocGlobal
        + Clone
        + Drop,
    W: Write,
    E: Write,
>(rt: &'a R, out: &'a mut W, err: &'a mut E) -> u8 {
    match words_of(rt) {
        Ok(words) => Run { rt, out, err }.by_words(&words),
        Err(why) => tell_no_words(err, &why),
    }
}
