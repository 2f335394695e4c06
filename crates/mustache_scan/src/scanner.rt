//! A literal is cut once the next tag is known, so only one place is kept.

ghost use Rattle.std.specs.Prelude.{◌≡◌, ◌≢◌, IfOk, IfErr, Ok, Err};
ghost use Rattle.mustache_scan.specs.Marks.{AreMarked};
ghost use Rattle.mustache_scan.specs.Reading.{delimiters_after};
ghost use Rattle.mustache_scan.specs.Slices.{AreSlices};
ghost use Rattle.mustache_scan.specs.Standalone.{scanned};
ghost use Rattle.mustache_scan.specs.View.{pair_view, tokens_view};
ghost use Rattle.mustache_scan.specs.declared.fault.FaultKind.TheVariants.{OutOfMemory};

use crate::cuts::cut;
use crate::delimiters::{Delimiters, delimiters_in};
use crate::push::{push_literal, push_tag};
use crate::tag::{Tag, tag_after};
use crate::{TemplateFault, Token, TokenKind};
use std::alloc::{AllocError, Global};

/// The delimiters in force after a tag.
fn delimiters_after<'a>(
    alloc: Global,
    delimiters: Delimiters<'a>,
    tag: Tag<'a>,
) -> Result<Delimiters<'a>, AllocError>
    ensures { IfOk result (λ next. pair_view next
        ≡ delimiters_after (pair_view delimiters.entry) tag.entry.kind tag.entry.inside.now) }
{
    match delimiters_in(tag.inside) {
        Some((opening, closing)) if tag.kind == TokenKind::Delimiters => {
            Delimiters::new(alloc, opening, closing)
        }
        _ => Ok(delimiters),
    }
}

/// The tokens of a template, after mustache(5): literals without the lines of standalone tags, and tags.
pub fn scan<'a>(alloc: Global, source: &'a str) -> Result<Vec<Token<'a>>, TemplateFault>
    ensures tokens { IfOk result (λ ts. scanned source.now ≡ Ok (tokens_view ts.items)) }
    ensures fault { IfErr result (λ f. f.kind ≢ OutOfMemory → scanned source.now ≡ Err f) }
    ensures memory { IfErr result (λ f. f.kind ≡ OutOfMemory → f.place ≡ 0) }
    ensures marks { IfOk result (λ ts. AreMarked source.now ts.items) }
    ensures slices { IfOk result (λ ts. AreSlices source.now 0 (tokens_view ts.items)) }
{
    let mut tokens = Vec::new(alloc);
    let mut delimiters = Delimiters::new(alloc, "{{", "}}")?;
    let mut from = 0;
    let mut rest = source;
    while let Some((before, after)) = cut(rest, delimiters.opening) {
        let place = source.len() - rest.len() + before.len();
        let tag = match tag_after(&delimiters, after) {
            Ok(tag) => tag,
            Err(kind) => return Err(TemplateFault { kind, place }),
        };
        from = push_tag(&mut tokens, source, from, place, tag)?;
        delimiters = delimiters_after(alloc, delimiters, tag)?;
        rest = tag.rest;
    }
    push_literal(&mut tokens, source, from, source.len())?;
    Ok(tokens)
}
