//! The transfer codings of a request (RFC 9112, section 7).
ghost use Rattle.std.specs.Prelude.{◌≡◌, ◌<◌, ℕ, List, [], ◌∷◌, ◌++◌, length, reverse, MatchOption};
ghost use Rattle.httparse.specs.Grammar.{trim_ows, skip_ows};
ghost use Rattle.http_read.specs.Checks.{comma_parts, coding_in, codings_of, is_chunked};
ghost use Rattle.http_read.specs.Codings.{Tells, codings_in};
ghost use Rattle.http_read.specs.Spans.{covered, LieIn};

use crate::fields::has_name;
use httparse::spans::HeaderSpan;

/// What the codings so far are.
#[derive(Clone, Copy)]
pub(crate) struct Codings {
    pub any: bool,
    pub several: bool,
    /// Whether the last is `chunked`.
    pub is_chunked_last: bool,
}

/// What is before the first comma, and what is after it.
pub(crate) fn cut_at_comma(value: &[u8]) -> Option<(&[u8], &[u8])>
    ensures { MatchOption result (comma_parts value.now ≡ value.now ∷ [])
        (λ cut. (comma_parts value.now ≡ cut.0.now ∷ comma_parts cut.1.now)
        × (length cut.1.now < length value.now)) }
{
    for i in 0..value.len() {
        if value[i] == b',' {
            return Some((&value[..i], &value[i + 1..]));
        }
    }
    None
}

/// The bytes without the spaces and tabs at their front.
fn without_front(bytes: &[u8]) -> &[u8]
    ensures { result.now ≡ skip_ows bytes.now }
{
    let mut rest = bytes;
    while let [first, others @ ..] = rest {
        if *first != b' ' && *first != b'\t' {
            return rest;
        }
        rest = others;
    }
    rest
}

/// The bytes without the spaces and tabs at their end.
fn without_back(bytes: &[u8]) -> &[u8]
    ensures { result.now ≡ reverse (skip_ows (reverse bytes.now)) }
{
    let mut rest = bytes;
    while let [others @ .., last] = rest {
        if *last != b' ' && *last != b'\t' {
            return rest;
        }
        rest = others;
    }
    rest
}

/// The bytes without the spaces and tabs at both ends.
#[tactic(auto, unfolding(httparse::specs::Grammar::trim_ows))]
pub(crate) fn trimmed(bytes: &[u8]) -> &[u8]
    ensures { result.now ≡ trim_ows bytes.now }
{
    without_back(without_front(bytes))
}

/// Whether the coding is `chunked`, whatever its case.
fn is_chunks(coding: &[u8]) -> bool
    ensures { result ≡ is_chunked coding.now }
{
    coding.eq_ignore_ascii_case(b"chunked")
}

/// Goes on with one part.
fn with_part(codings: Codings, part: &[u8]) -> Codings
    ensures { (seen : List (List ℕ)) → Tells codings seen → Tells result (seen ++ coding_in part.now) }
{
    let coding = trimmed(part);
    if coding.is_empty() {
        return codings;
    }
    Codings {
        any: true,
        several: codings.any,
        is_chunked_last: is_chunks(coding),
    }
}

/// Goes on with the parts of a value.
fn with_value(codings: Codings, value: &[u8]) -> Codings
    ensures { (seen : List (List ℕ)) → Tells codings seen → Tells result (seen ++ codings_in value.now) }
{
    let mut now = codings;
    let mut rest = value;
    while let Some((part, after)) = cut_at_comma(rest) {
        now = with_part(now, part);
        rest = after;
    }
    with_part(now, rest)
}

/// The codings that the fields name.
pub(crate) fn codings_named(bytes: &[u8], fields: &[HeaderSpan]) -> Codings
    requires { LieIn bytes.now fields.now }
    ensures { Tells result (codings_of (covered bytes.now fields.now)) }
{
    let mut codings = Codings {
        any: false,
        several: false,
        is_chunked_last: false,
    };
    for i in 0..fields.len() {
        if has_name(bytes, fields[i], b"transfer-encoding") {
            codings = with_value(codings, fields[i].value.of(bytes));
        }
    }
    codings
}
