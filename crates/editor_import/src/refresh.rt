//! Where a page leads on to.
ghost use Rattle.std.specs.Prelude.{◌≡◌, ◌↔◌, ◌<◌, ℕ, List, length, option_map, IsTrue, MatchOption};
ghost use Rattle.mustache_scan.specs.Cutting.{cut};
ghost use Rattle.editor_import.specs.Refreshes.{address_behind, refresh, canonical, IsPlain, LeadsOn};

/// What comes before the address in a page that goes elsewhere at once, as generators write it.
const REFRESH: &str = "<meta http-equiv=\"refresh\" content=\"0; url=";

/// The same in a page without the quotation marks that HTML can do without.
const SHORT_REFRESH: &str = "<meta http-equiv=refresh content=\"0; url=";

/// What comes before a page's canonical address, as generators write it.
const CANONICAL: &str = "<link rel=\"canonical\" href=\"";

/// The same in a page without the quotation marks that HTML can do without.
const SHORT_CANONICAL: &str = "<link rel=canonical href=";

/// A text cut around the first place of a part.
fn cut<'a>(text: &'a str, part: &str) -> Option<(&'a str, &'a str)>
    requires { 0 < length part.now }
    ensures { option_map (λ x. (x.0.now, x.1.now)) result ≡ cut part.now text.now }
{
    text.split_once(part)
}

/// What comes after an opening, up to the next mark.
fn address_behind<'a>(opening: &str, mark: &str, page: &'a str) -> Option<&'a str>
    requires opening { 0 < length opening.now }
    requires mark { 0 < length mark.now }
    ensures { option_map (λ a. a.now) result ≡ address_behind opening.now mark.now page.now }
{
    let (_, behind) = cut(page, opening)?;
    let (address, _) = cut(behind, mark)?;
    Some(address)
}

/// The address to which a page goes at once, if it does.
fn refresh_of(page: &str) -> Option<&str>
    ensures { option_map (λ a. a.now) result ≡ refresh page.now }
{
    match address_behind(REFRESH, "\"", page) {
        Some(address) => Some(address),
        None => address_behind(SHORT_REFRESH, "\"", page),
    }
}

/// The address that a page names as its canonical one (RFC 6596), if it does.
fn canonical_of(page: &str) -> Option<&str>
    ensures { option_map (λ a. a.now) result ≡ canonical page.now }
{
    match address_behind(CANONICAL, "\"", page) {
        Some(address) => Some(address),
        None => address_behind(SHORT_CANONICAL, ">", page),
    }
}

/// Whether a page has neither a comment nor a part for browsers without scripts.
fn is_plain(page: &str) -> bool
    ensures { IsTrue result ↔ IsPlain page.now }
{
    cut(page, "<!--").is_none() && cut(page, "<noscript").is_none()
}

/// The address to which a page leads on, if it does: it goes there at once, and names the same address as its
/// canonical one.
pub fn alias_of(page: &str) -> Option<&str>
    ensures { MatchOption result ((a : List ℕ) → ¬ (LeadsOn page.now a)) (λ a. LeadsOn page.now a.now) }
{
    if !is_plain(page) {
        return None;
    }
    let address = refresh_of(page)?;
    let canonical = canonical_of(page)?;
    if canonical == address {
        Some(address)
    } else {
        None
    }
}
