//! The template that shows a page as it is.
ghost use Rattle.std.specs.Prelude.{◌≡◌, count_by, IfOk, string_bytes};
ghost use Rattle.editor_import.specs.Verbatim.{is_caret, verbatim, Shows};

use std::alloc::{AllocError, Global};

/// How many carets a page has.
fn carets_in(page: &str) -> usize
    ensures { result ≡ count_by is_caret page.now }
{
    page.as_bytes().iter().filter(|b| **b == b'^').count()
}

/// The template whose page is this text, whatever data it has. Its delimiters have one caret more than the
/// text, so none occurs there. The tag that sets them is alone on its line, and removes that line.
#[tactic(auto, using(crate::proofs::VerbatimLemmas::page_shown))]
pub fn template_of(alloc: Global, page: &str) -> Result<String, AllocError>
    ensures text { IfOk result (λ t. string_bytes t ≡ verbatim page.now) }
    ensures shows { IfOk result (λ t. Shows (string_bytes t) page.now) }
{
    let carets = "^".repeat(alloc, carets_in(page) + 1)?;
    format!(in alloc; "{{{{={carets} {carets}=}}}}\n{page}")
}
