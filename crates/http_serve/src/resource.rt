//! What a decoded path names.
ghost use Rattle.std.specs.Prelude.{◌≡◌, ◌≢◌, ℕ, ◌+◌, ◌<◌, ◌^◌, List, ◌++◌, length, drop, codes, slice_index};
ghost use Rattle.std.specs.Prelude.{MatchOption, decimal};
ghost use Rattle.http_serve.specs.Paths.{Resource as Meant, Names, IsOwn};
ghost use Rattle.http_serve.specs.Resources.{resource_shown};

use engine_common::read_number;
use site_ids::Ticket;

/// What a path names; the rest of a release's path is lent.
#[derive(Clone, Copy)]
pub(crate) enum Resource<'a> {
    Submission(Ticket),
    Receipt(Ticket),
    Newest,
    Release { n: u64, rest: &'a str },
    Unknown,
    Page,
}

/// The first place of the byte.
pub(crate) fn first_of(byte: u8, bytes: &[u8]) -> Option<usize>
    ensures { MatchOption result ((k : ℕ) → k < length bytes.now → slice_index bytes.now k ≢ byte)
        (λ at. (at < length bytes.now) × (slice_index bytes.now at ≡ byte)
        × ((k : ℕ) → k < at → slice_index bytes.now k ≢ byte)) }
{
    for i in 0..bytes.len() {
        if bytes[i] == byte {
            return Some(i);
        }
    }
    None
}

/// What follows the prefix.
pub(crate) fn after<'a>(bytes: &'a [u8], prefix: &[u8]) -> Option<&'a [u8]>
    ensures { MatchOption result ((rest : List ℕ) → bytes.now ≢ prefix.now ++ rest)
        (λ rest. bytes.now ≡ prefix.now ++ rest.now) }
{
    bytes.strip_prefix(prefix)
}

/// The ticket with these two numbers, which a slash separates.
pub(crate) fn ticket_in(rest: &[u8]) -> Option<Ticket>
    ensures { MatchOption result
        ((editor number : ℕ) → editor < 2 ^ 32 → number < 2 ^ 64
        → rest.now ≢ decimal editor ++ (codes "/" ++ decimal number))
        (λ t. (t.editor < 2 ^ 32) × (t.number < 2 ^ 64)
        × (rest.now ≡ decimal t.editor ++ (codes "/" ++ decimal t.number))) }
{
    let at = first_of(b'/', rest)?;
    let editor = read_number(&rest[..at])?;
    if editor > u32::MAX as u64 {
        return None;
    }
    let number = read_number(&rest[at + 1..])?;
    Some(Ticket {
        editor: editor as u32,
        number,
    })
}

/// The number of a release, and the place where the path in it begins.
fn release_in(rest: &[u8]) -> Option<(u64, usize)>
    ensures { MatchOption result ((n : ℕ) (tail : List ℕ) → n < 2 ^ 64
        → rest.now ≢ decimal n ++ (codes "/" ++ tail))
        (λ r. (r.0 < 2 ^ 64) × (r.1 < length rest.now) × (slice_index rest.now r.1 ≡ 47)
        × (rest.now ≡ decimal r.0 ++ drop r.1 rest.now)) }
{
    let at = first_of(b'/', rest)?;
    let n = read_number(&rest[..at])?;
    Some((n, at))
}

/// What the path names of the server's own resources.
fn own_resource(path: &str) -> Option<Resource<'_>>
    ensures { MatchOption result ((resource : Meant) → ¬ (IsOwn path.now resource))
        (λ resource. IsOwn path.now (resource_shown resource)) }
{
    let bytes = path.as_bytes();
    if let Some(rest) = after(bytes, b"/_submit/") {
        return Some(Resource::Submission(ticket_in(rest)?));
    }
    if let Some(rest) = after(bytes, b"/_ticket/") {
        return Some(Resource::Receipt(ticket_in(rest)?));
    }
    if bytes == b"/_newest".as_slice() {
        return Some(Resource::Newest);
    }
    let rest = after(bytes, b"/@")?;
    let (n, at) = release_in(rest)?;
    Some(Resource::Release {
        n,
        rest: &path[at + 2..],
    })
}

/// What the path names.
pub(crate) fn resource_of(path: &str) -> Resource<'_>
    ensures { Names path.now (resource_shown result) }
{
    let bytes = path.as_bytes();
    if let Some(resource) = own_resource(path) {
        return resource;
    }
    if after(bytes, b"/_").is_some() || after(bytes, b"/@").is_some() {
        Resource::Unknown
    } else {
        Resource::Page
    }
}
