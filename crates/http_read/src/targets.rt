//! The path that a request target asks for (RFC 9112, section 3.2).
ghost use Rattle.std.specs.Prelude.{◌≡◌, ◌≢◌, ◌<◌, ℕ, List, IfOk, MatchOption, string_bytes};
ghost use Rattle.std.specs.Prelude.{IsTrue, IsUtf8, ◌↔◌, codes};
ghost use Rattle.percent_encoding.specs.Percent.{percent_decode as decoded_form};
ghost use Rattle.http_uri.specs.Uri.{Spells};
ghost use Rattle.http_read.specs.Targets.{AsksFor, IsPlainTarget, is_authority_alone};

use http_uri::{Uri, UriError};
use percent_encoding::percent_decode;
use std::alloc::{AllocError, Global};

/// Whether each byte is visible ASCII, and none begins a fragment.
fn is_plain(target: &[u8]) -> bool
    ensures { IsTrue result ↔ IsPlainTarget target.now }
{
    target.iter().all(|b| *b > 32 && *b < 127 && *b != 35)
}

/// Whether the URI is a host and a port, and nothing else.
fn is_host_alone(uri: &Uri) -> bool
    ensures { result ≡ is_authority_alone uri.now }
{
    uri.scheme_str().is_none() && uri.authority().is_some()
}

/// The text decoded once, if that is text again.
fn decoded(alloc: Global, text: &str) -> Result<Option<String>, AllocError>
    ensures text { IfOk result (λ found. MatchOption found (¬ (IsUtf8 (decoded_form text.now)))
        (λ path. (string_bytes path ≡ decoded_form text.now) × IsUtf8 (string_bytes path))) }
{
    let mut bytes = Vec::with_capacity(alloc, text.len())?;
    percent_decode(text.as_bytes()).append_to(&mut bytes)?;
    match String::from_utf8(bytes) {
        Ok(path) => {
            let _text = path.as_str();
            Ok(Some(path))
        }
        Err(_) => Ok(None),
    }
}

/// The path of a URI that the target spells.
fn uri_target(alloc: Global, target: &[u8], uri: &Uri) -> Result<Option<String>, AllocError>
    requires plain { IsPlainTarget target.now }
    requires no_asterisk { target.now ≢ codes "*" }
    requires spelled { Spells target.now uri.now }
    ensures { IfOk result (λ found. MatchOption found
        ((path : List ℕ) → ¬ (AsksFor target.now path)) (λ path. AsksFor target.now (string_bytes path))) }
{
    if is_host_alone(uri) {
        return Ok(None);
    }
    decoded(alloc, uri.path())
}

/// The path that the target asks for.
pub(crate) fn target_path(alloc: Global, target: &[u8]) -> Result<Option<String>, AllocError>
    ensures { IfOk result (λ found. MatchOption found
        ((path : List ℕ) → ¬ (AsksFor target.now path)) (λ path. AsksFor target.now (string_bytes path))) }
{
    if !is_plain(target) || target == b"*".as_slice() {
        return Ok(None);
    }
    match Uri::from_bytes(alloc, target) {
        Ok(uri) => uri_target(alloc, target, &uri),
        Err(UriError::Invalid(_)) => Ok(None),
        Err(UriError::OutOfMemory) => Err(AllocError),
    }
}
