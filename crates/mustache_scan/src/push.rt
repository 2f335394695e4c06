ghost use Rattle.std.specs.Prelude.{◌≡◌, ◌++◌, ◌-◌, ◌≤◌, OnOk, IfOk, IfErr, [], ◌∷◌, length, max};
ghost use Rattle.std.specs.Prelude.{slice_range};
ghost use Rattle.std.specs.Str.{IsCharBoundary};
ghost use Rattle.mustache_scan.specs.Faults.{memory_wanted};
ghost use Rattle.mustache_scan.specs.Progress.{literal_at, tag_at, taken};
ghost use Rattle.mustache_scan.specs.Marks.{AreMarked};
ghost use Rattle.mustache_scan.specs.View.{tokens_view};

use crate::standalone::lines_of;
use crate::tag::{Tag, name_of};
use crate::{TemplateFault, Token, TokenKind};

/// Adds what is from place to place as a literal, unless it is empty.
pub(crate) fn push_literal<'a>(
    tokens: &mut Vec<Token<'a>>,
    source: &'a str,
    from: usize,
    to: usize,
) -> Result<(), TemplateFault>
    requires from { IsCharBoundary source.now from }
    requires to { IsCharBoundary source.now to }
    ensures ok { OnOk result (tokens_view tokens.new.items
        ≡ tokens_view tokens.old.items ++ literal_at from (slice_range source.now from to)) }
    ensures marks { OnOk result (AreMarked source.now tokens.old.items
        → AreMarked source.now tokens.new.items) }
    ensures err { IfErr result (λ f. f ≡ memory_wanted) }
{
    if from < to {
        tokens.push(Token {
            kind: TokenKind::Literal,
            inside: "",
            place: from,
            text: &source[from..to],
            indent: "",
            is_alone: false,
        })?;
    }
    Ok(())
}

/// Adds a tag, and before it the literal that begins at `from`. Returns the place where a literal after the
/// tag begins.
pub(crate) fn push_tag<'a>(
    tokens: &mut Vec<Token<'a>>,
    source: &'a str,
    from: usize,
    place: usize,
    tag: Tag<'a>,
) -> Result<usize, TemplateFault>
    requires from { IsCharBoundary source.now from }
    requires place { IsCharBoundary source.now place }
    requires past { IsCharBoundary source.now (length source.now - length tag.rest.now) }
    requires order { place ≤ length source.now - length tag.rest.now }
    requires rest { length tag.rest.now ≤ length source.now }
    ensures ok { let past = length source.now - length tag.entry.rest.now in
        let part = taken source.now tag.entry.kind place past in
        IfOk result (λ next. (next ≡ max from part.1)
        × (tokens_view tokens.new.items
        ≡ tokens_view tokens.old.items
        ++ (literal_at from (slice_range source.now from part.0)
        ++ tag_at source.now tag.entry.kind tag.entry.inside.now place past ∷ []))) }
    ensures marks { OnOk result (AreMarked source.now tokens.old.items
        → AreMarked source.now tokens.new.items) }
    ensures err { IfErr result (λ f. f ≡ memory_wanted) }
{
    let past = source.len() - tag.rest.len();
    let lines = lines_of(source.as_bytes(), tag.kind, place, past);
    let (start, end) = lines.unwrap_or((place, past));
    push_literal(tokens, source, from, start)?;
    let indent = match tag.kind {
        TokenKind::Partial => &source[start..place],
        _ => "",
    };
    tokens.push(Token {
        kind: tag.kind,
        inside: name_of(tag.kind, tag.inside),
        place,
        text: &source[place..past],
        indent,
        is_alone: lines.is_some(),
    })?;
    Ok(from.max(end))
}
