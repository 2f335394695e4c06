//! The tests that a head has to pass, in their order.
ghost use Rattle.std.specs.Prelude.{◌≡◌, ◌≤◌, ◌<◌, MatchOption, MatchResult, IfOk, codes, false};
ghost use Rattle.std.specs.Prelude.{None, Some};
ghost use Rattle.http_read.specs.declared.lengths.TheConstants.{BODY_LIMIT};
ghost use Rattle.http_read.specs.Checks.{host_fault, coding_fault, length_fault, fault_of, is_known_method};
ghost use Rattle.http_read.specs.Checks.{values_of, stated_length};
ghost use Rattle.http_read.specs.Framings.{Passes};
ghost use Rattle.http_read.specs.Methods.{method_name};
ghost use Rattle.http_read.specs.Spans.{covered, LieIn};

use crate::codings::codings_named;
use crate::connection::keeps;
use crate::fields::{count_named, first_named};
use crate::incoming::Method;
use crate::lengths::{Stated, number_in};
use httparse::spans::HeaderSpan;

/// The most field lines of a head, and of a trailer section.
pub(crate) const FIELD_LIMIT: usize = 64;

/// How the body is cut from what follows the head (RFC 9112, section 6).
#[derive(Clone, Copy)]
pub(crate) enum Cut {
    Length(usize),
    Chunks,
}

/// What the tests found in a head.
#[derive(Clone, Copy)]
pub(crate) struct Passed {
    pub method: Method,
    pub cut: Cut,
    /// Whether the connection may stay.
    pub keep: bool,
}

/// The method of this name; names differ by case (RFC 9110, section 9.1).
pub(crate) fn method_named(name: &[u8]) -> Option<Method>
    ensures { MatchOption result (is_known_method name.now ≡ false)
        (λ method. method_name method ≡ name.now) }
{
    if name == b"GET".as_slice() {
        Some(Method::Get)
    } else if name == b"HEAD".as_slice() {
        Some(Method::Head)
    } else if name == b"POST".as_slice() {
        Some(Method::Post)
    } else {
        None
    }
}

/// The status for too many or too few Host lines (RFC 9112, section 3.2).
fn host_status(minor: u8, bytes: &[u8], fields: &[HeaderSpan]) -> Option<u16>
    requires { LieIn bytes.now fields.now }
    ensures { result ≡ host_fault minor (covered bytes.now fields.now) }
{
    let hosts = count_named(bytes, fields, b"host");
    if hosts > 1 || (hosts == 0 && minor == 1) {
        Some(400)
    } else {
        None
    }
}

/// The status for transfer codings that can't be taken (RFC 9112, section 6.1).
fn coding_status(minor: u8, bytes: &[u8], fields: &[HeaderSpan]) -> Option<u16>
    requires { LieIn bytes.now fields.now }
    ensures { result ≡ coding_fault minor (covered bytes.now fields.now) }
{
    if count_named(bytes, fields, b"transfer-encoding") == 0 {
        return None;
    }
    if count_named(bytes, fields, b"content-length") != 0 || minor == 0 {
        return Some(400);
    }
    let codings = codings_named(bytes, fields);
    if !codings.is_chunked_last {
        Some(400)
    } else if codings.several {
        Some(501)
    } else {
        None
    }
}

/// The stated length of the body, or the status if it cannot be read (RFC 9112, section 6.2).
fn length_named(bytes: &[u8], fields: &[HeaderSpan]) -> Result<usize, u16>
    requires { LieIn bytes.now fields.now }
    ensures stated { let values = values_of (codes "content-length") (covered bytes.now fields.now) in
        MatchResult result (λ n. (length_fault values ≡ None) × (n ≡ stated_length values))
        (λ status. length_fault values ≡ Some status) }
    ensures small { IfOk result (λ n. n ≤ BODY_LIMIT) }
{
    if count_named(bytes, fields, b"content-length") > 1 {
        return Err(400);
    }
    match first_named(bytes, fields, b"content-length") {
        Some(value) => match number_in(value) {
            Stated::NoNumber => Err(400),
            Stated::TooLarge => Err(413),
            Stated::Fits(n) => Ok(n),
        },
        None => Ok(0),
    }
}

/// The method, how the body is cut and whether the connection may stay; or the status of the first test that
/// the head fails.
pub(crate) fn pass(
    minor: u8,
    method: &[u8],
    bytes: &[u8],
    fields: &[HeaderSpan],
) -> Result<Passed, u16>
    requires { LieIn bytes.now fields.now }
    ensures { MatchResult result (Passes minor method.now (covered bytes.now fields.now))
        (λ status. fault_of minor method.now (covered bytes.now fields.now) ≡ Some status) }
{
    if fields.len() > FIELD_LIMIT {
        return Err(431);
    }
    if let Some(status) = host_status(minor, bytes, fields) {
        return Err(status);
    }
    if let Some(status) = coding_status(minor, bytes, fields) {
        return Err(status);
    }
    let stated = match length_named(bytes, fields) {
        Ok(n) => n,
        Err(status) => return Err(status),
    };
    let Some(method) = method_named(method) else {
        return Err(501);
    };
    let keep = keeps(minor, bytes, fields);
    if count_named(bytes, fields, b"transfer-encoding") == 0 {
        Ok(Passed {
            method,
            cut: Cut::Length(stated),
            keep,
        })
    } else {
        Ok(Passed {
            method,
            cut: Cut::Chunks,
            keep,
        })
    }
}
