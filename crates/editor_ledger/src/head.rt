//! What a command is about.
ghost use Rattle.std.specs.Prelude.{◌≡◌, ◌==◌, ◌<◌, option_map, IfOk, string_bytes};
ghost use Rattle.std.specs.List.{before_first};
ghost use Rattle.command.specs.Cuts.{cut_at};
ghost use Rattle.command.specs.View.{pair_view};
ghost use Rattle.editor_ledger.specs.Heads.{head_of, is_about, puts, removal};
ghost use Rattle.editor_ledger.specs.View.{head_view};

use std::alloc::{AllocError, Global};

/// The first three words of a command: what is done, to which kind, under which name.
#[derive(Clone, Copy)]
pub(crate) struct Head<'a> {
    pub verb: &'a str,
    pub kind: &'a str,
    pub name: &'a str,
}

/// What is before the first such character, and what is after it.
pub(crate) fn cut(text: &str, at: char) -> Option<(&str, &str)>
    requires { at < 128 }
    ensures { option_map pair_view result ≡ cut_at at text.now }
{
    text.split_once(at)
}

/// The text before the first such character; all of it if there is none.
fn before(text: &str, at: char) -> &str
    requires { at < 128 }
    ensures { result.now ≡ before_first (λ b. b == at) text.now }
{
    match text.split_once(at) {
        Some((front, _)) => front,
        None => text,
    }
}

/// The first three words of the first line; a release has too few.
pub(crate) fn head_of(text: &str) -> Option<Head<'_>>
    ensures { option_map head_view result ≡ head_of text.now }
{
    let (verb, rest) = cut(before(text, '\n'), ' ')?;
    let (kind, rest) = cut(rest, ' ')?;
    Some(Head {
        verb,
        kind,
        name: before(rest, ' '),
    })
}

impl Head<'_> {
    /// Whether a text is about the same kind and name.
    pub(crate) fn is_about(&self, text: &str) -> bool
        ensures { result ≡ is_about (head_view self.now) (head_of text.now) }
    {
        match head_of(text) {
            Some(other) => self.kind == other.kind && self.name == other.name,
            None => false,
        }
    }

    pub(crate) fn puts(&self) -> bool
        ensures { result ≡ puts (head_view self.now) }
    {
        self.verb == "put"
    }

    /// The command that removes what the head names.
    pub(crate) fn removal(&self, alloc: Global) -> Result<String, AllocError>
        ensures { IfOk result (λ text. string_bytes text ≡ removal (head_view self.now)) }
    {
        let kind = self.kind;
        let name = self.name;
        format!(in alloc; "remove {kind} {name}\n")
    }
}
