//! A text that is a command.
ghost use Rattle.std.specs.Prelude.{◌≡◌, IfOk, MatchResult};
ghost use Rattle.editor_command.specs.Texts.{IsRefused};

use crate::refusal::{Refusal, refused};
use std::alloc::{AllocError, Global};
use std::marker::Model;

/// A text that is a command.
#[derive(Drop)]
pub struct CommandText {
    text: Vec<u8>,
}

impl Model for CommandText {
    ghost use Rattle.std.specs.Prelude.{ℕ, List};
    ghost use Rattle.editor_command.specs.Texts.{IsCommandText};

    ghost Value = { List ℕ };

    ghost view = { λ c. c.text.items };

    ghost invariant = { λ c. IsCommandText c.text.items };
}

impl CommandText {
    /// The text as a command, or why it is not one.
    pub fn of(alloc: Global, text: Vec<u8>) -> Result<Result<CommandText, Refusal>, AllocError>
        ensures { IfOk result (λ read. MatchResult read (λ c. c ≡ text.items) (IsRefused text.items)) }
    {
        match refused(alloc, &text)? {
            Some(refusal) => Ok(Err(refusal)),
            None => Ok(Ok(CommandText { text })),
        }
    }

    pub fn text(&self) -> &[u8]
        ensures { result.now ≡ self.now }
    {
        self.text.as_slice()
    }
}
