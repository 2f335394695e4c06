ghost use Rattle.std.specs.Prelude.{◌≡◌, ◌<◌, List, ℕ, [], ◌∷◌, ◌++◌, MatchOption, OnOk, OnErr, length};
ghost use Rattle.std.specs.Prelude.{string_bytes};
ghost use Rattle.render.specs.Printed.{escaped, escaped_byte};

use std::alloc::AllocError;

/// A text cut at its first byte that has an entity.
#[derive(Clone, Copy)]
struct Special<'a> {
    plain: &'a str,
    entity: &'static str,
    rest: &'a str,
}

/// The entity of a byte that is not printed as itself.
fn entity_of(byte: u8) -> Option<&'static str>
    ensures { MatchOption result (escaped_byte byte ≡ byte ∷ [])
        (λ x. (escaped_byte byte ≡ x.now) × (byte < 128)) }
{
    if byte > b'&' && byte < b'<' {
        return None;
    }
    match byte {
        b'&' => Some("&amp;"),
        b'"' => Some("&quot;"),
        b'<' => Some("&lt;"),
        b'>' => Some("&gt;"),
        _ => None,
    }
}

fn next_special(text: &str) -> Option<Special<'_>>
    ensures { MatchOption result (escaped text.now ≡ text.now)
        (λ x. (escaped text.now ≡ x.plain.now ++ x.entity.now ++ escaped x.rest.now)
        × (length x.rest.now < length text.now)) }
{
    for (at, byte) in text.as_bytes().iter().enumerate() {
        if let Some(entity) = entity_of(*byte) {
            return Some(Special {
                plain: &text[..at],
                entity,
                rest: &text[at + 1..],
            });
        }
    }
    None
}

/// Adds the text escaped, or a beginning of that if an allocation fails.
fn push_escaped(text: &str, out: &mut String) -> Result<(), AllocError>
    ensures ok { OnOk result (string_bytes out.new ≡ string_bytes out.old ++ escaped text.now) }
    ensures err { OnErr result ((more : List ℕ) × (string_bytes out.new ≡ string_bytes out.old ++ more)) }
{
    let mut rest = text;
    while let Some(found) = next_special(rest) {
        out.push_str(found.plain)?;
        out.push_str(found.entity)?;
        rest = found.rest;
    }
    out.push_str(rest)
}

/// Adds the text with its `&`, `"`, `<` and `>` as entities (mustache(5), "Variables"). If an allocation
/// fails, nothing is added.
pub fn escape_into(text: &str, out: &mut String) -> Result<(), AllocError>
    ensures ok { OnOk result (string_bytes out.new ≡ string_bytes out.old ++ escaped text.now) }
    ensures err { OnErr result (string_bytes out.new ≡ string_bytes out.old) }
{
    let kept = out.len();
    let pushed = push_escaped(text, out);
    if pushed.is_err() {
        out.truncate(kept);
    }
    pushed
}
