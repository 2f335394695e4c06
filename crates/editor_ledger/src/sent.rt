ghost use Rattle.std.specs.Prelude.{◌≡◌, ◌==◌, ◌+◌, ◌<◌, ◌^◌, length, map, filter, find, not, option_map};
ghost use Rattle.std.specs.Prelude.{IfOk, string_bytes};
ghost use Rattle.editor_ledger.specs.Steps.{numbered};
ghost use Rattle.editor_ledger.specs.View.{given_view};

use std::alloc::{AllocError, Global};

/// A command on its way: the number of its ticket, and its text.
#[derive(Drop)]
pub struct Sent {
    pub number: u64,
    pub text: String,
}

/// Texts with successive numbers, from `next` on.
pub(crate) fn numbered(
    alloc: Global,
    next: u64,
    texts: Vec<String>,
) -> Result<Vec<Sent>, AllocError>
    requires { next + length texts.items < 2 ^ 64 }
    ensures { IfOk result (λ sent. map given_view sent.items ≡ numbered next (map string_bytes texts.items)) }
{
    let mut sent = Vec::with_capacity(alloc, texts.len())?;
    let mut number = next;
    for text in texts {
        sent.push(Sent { number, text })?;
        number += 1;
    }
    Ok(sent)
}

/// The command that is on its way with this number.
pub(crate) fn under(sent: &[Sent], number: u64) -> Option<&Sent>
    ensures { option_map (λ s. given_view s.now) result
        ≡ find (λ g. g.number == number) (map given_view sent.now) }
{
    sent.iter().find(|sent| sent.number == number)
}

/// Takes the command with this number off its way.
pub(crate) fn drop_under(sent: &mut Vec<Sent>, number: u64)
    ensures { map given_view sent.new.items
        ≡ filter (λ g. not (g.number == number)) (map given_view sent.old.items) }
{
    sent.retain(|sent| sent.number != number);
}
