//! Whether a connection may stay after a request (RFC 9112, section 9.3).
ghost use Rattle.std.specs.Prelude.{◌≡◌, codes};
ghost use Rattle.std.specs.Str.{str_eq_ignore_ascii_case};
ghost use Rattle.httparse.specs.Grammar.{trim_ows};
ghost use Rattle.http_read.specs.Checks.{says_close, keeps as is_kept};
ghost use Rattle.http_read.specs.Spans.{covered, LieIn};

use crate::codings::{cut_at_comma, trimmed};
use crate::fields::has_name;
use httparse::spans::HeaderSpan;

/// Whether the part is `close`, whatever its case.
fn is_close(part: &[u8]) -> bool
    ensures { result ≡ str_eq_ignore_ascii_case (trim_ows part.now) (codes "close") }
{
    trimmed(part).eq_ignore_ascii_case(b"close")
}

/// Whether the value has the word `close`.
fn says_close(value: &[u8]) -> bool
    ensures { result ≡ says_close value.now }
{
    let mut rest = value;
    while let Some((part, after)) = cut_at_comma(rest) {
        if is_close(part) {
            return true;
        }
        rest = after;
    }
    is_close(rest)
}

/// Whether the head lets the connection stay.
pub(crate) fn keeps(minor: u8, bytes: &[u8], fields: &[HeaderSpan]) -> bool
    requires { LieIn bytes.now fields.now }
    ensures { result ≡ is_kept minor (covered bytes.now fields.now) }
{
    if minor != 1 {
        return false;
    }
    for i in 0..fields.len() {
        if has_name(bytes, fields[i], b"connection") && says_close(fields[i].value.of(bytes)) {
            return false;
        }
    }
    true
}
