//! The length that a head states.
ghost use Rattle.std.specs.Prelude.{◌≡◌, ◌≢◌, ℕ, ◌<◌, ◌^◌, Some, codes, decimal, MatchOption};
ghost use Rattle.http_read.specs.Checks.{values_of};
ghost use Rattle.http_read.specs.Spans.{covered, LieIn, head_of};

use engine_common::read_number;
use http_read::first_named;
use httparse::spans::HeaderSpan;

/// The length that the first Content-Length line states.
pub(crate) fn stated_length(bytes: &[u8], fields: &[HeaderSpan]) -> Option<u64>
    requires { LieIn bytes.now fields.now }
    ensures { MatchOption result ((n : ℕ) → n < 2 ^ 64
        → head_of (values_of (codes "content-length") (covered bytes.now fields.now)) ≢ Some (decimal n))
        (λ n. (n < 2 ^ 64) × (head_of (values_of (codes "content-length") (covered bytes.now fields.now))
        ≡ Some (decimal n))) }
{
    read_number(first_named(bytes, fields, b"content-length")?)
}
