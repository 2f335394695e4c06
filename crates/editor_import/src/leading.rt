//! Which path of the same site an address is.
ghost use Rattle.std.specs.Prelude.{◌≡◌, ◌↔◌, ℕ, List, Some, Ok, IfOk, MatchOption, string_bytes, IsTrue};
ghost use Rattle.std.specs.Prelude.{IsUtf8};
ghost use Rattle.percent_encoding.specs.Percent.{percent_decode as decoded_form};
ghost use Rattle.url.specs.Parser.{parse_url};
ghost use Rattle.url.specs.Parts.{Parts};
ghost use Rattle.editor_import.specs.Leading.{Leads, IsAt, IsWhole, HasHostOf};

use http_read::ESCAPED;
use percent_encoding::{percent_decode, utf8_percent_encode};
use std::alloc::{AllocError, Global};
use url::{ParseError, Url};

/// The URL that an address means at another URL, if it means one. A URL of 4 GB is reported as a failed
/// allocation.
fn joined(from: &Url, address: &str) -> Result<Option<Url>, AllocError>
    ensures { IfOk result (λ o. MatchOption o
        ((url : Parts) → ¬ (parse_url (Some from.now) address.now ≡ Ok url))
        (λ url. parse_url (Some from.now) address.now ≡ Ok url)) }
{
    match from.join(address) {
        Ok(url) => Ok(Some(url)),
        Err(ParseError::OutOfMemory | ParseError::Overflow) => Err(AllocError),
        Err(_) => Ok(None),
    }
}

/// Whether a URL names a whole page: it has no query and no fragment.
fn is_whole(url: &Url) -> bool
    ensures { IsTrue result ↔ IsWhole url.now }
{
    url.query().is_none() && url.fragment().is_none()
}

/// Whether two URLs have one host.
fn has_host_of(own: &Url, url: &Url) -> bool
    ensures { IsTrue result ↔ HasHostOf own.now url.now }
{
    own.host_str() == url.host_str() && own.port() == url.port()
}

/// The text decoded once, if that is text again.
fn decoded(alloc: Global, text: &str) -> Result<Option<String>, AllocError>
    ensures { IfOk result (λ o. MatchOption o (¬ (IsUtf8 (decoded_form text.now)))
        (λ path. string_bytes path ≡ decoded_form text.now)) }
{
    let mut bytes = Vec::with_capacity(alloc, text.len())?;
    percent_decode(text.as_bytes()).append_to(&mut bytes)?;
    match String::from_utf8(bytes) {
        Ok(path) => Ok(Some(path)),
        Err(_) => Ok(None),
    }
}

/// Whether a URL names a whole page of the same host.
fn is_page_at(own: &Url, url: &Url) -> bool
    ensures { IsTrue result ↔ (HasHostOf own.now url.now × IsWhole url.now) }
{
    has_host_of(own, url) && is_whole(url)
}

/// The path of a URL, if the URL is of the same host and names a whole page.
#[tactic(auto, using(crate::proofs::LeadingLemmas::none_at, crate::proofs::LeadingLemmas::is_decoded))]
fn path_at(alloc: Global, own: &Url, url: &Url) -> Result<Option<String>, AllocError>
    ensures { IfOk result (λ o. MatchOption o
        ((path : List ℕ) → IsUtf8 path → ¬ (IsAt own.now url.now path))
        (λ path. IsAt own.now url.now (string_bytes path))) }
{
    if !is_page_at(own, url) {
        return Ok(None);
    }
    decoded(alloc, url.path())
}

/// The path to which an address leads from the page at a path of a site, if it leads to a page of that site.
#[tactic(auto, using(crate::proofs::LeadingLemmas::leads_to))]
pub(crate) fn target_of(
    alloc: Global,
    site: &Url,
    from: &str,
    address: &str,
) -> Result<Option<String>, AllocError>
    ensures { IfOk result (λ o. MatchOption o
        ((path : List ℕ) → IsUtf8 path → ¬ (Leads site.now from.now address.now path))
        (λ path. Leads site.now from.now address.now (string_bytes path))) }
{
    let mut from_url = String::new(alloc);
    utf8_percent_encode(from, ESCAPED).append_to(&mut from_url)?;
    let Some(page) = joined(site, from_url.as_str())? else {
        return Ok(None);
    };
    match joined(&page, address)? {
        Some(target) => path_at(alloc, site, &target),
        None => Ok(None),
    }
}
