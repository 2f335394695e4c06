//! Words and numbers, cut from the bytes of a line.
ghost use Rattle.std.specs.Prelude.{◌≡◌, ◌≢◌, ℕ, ◌<◌, ◌^◌, MatchOption, decimal};
ghost use Rattle.engine_common.specs.Cuts.{Lacks, IsCut};

use itoa::Buffer;
use memchr::memchr;

/// The most bytes of a command text.
pub const MAX_TEXT: u64 = 1_000_000;

/// What is before the first such byte, and what is after it.
pub fn cut(bytes: &[u8], at: u8) -> Option<(&[u8], &[u8])>
    ensures { MatchOption result (Lacks at bytes.now) (λ p. IsCut at bytes.now p.0.now p.1.now) }
{
    let i = memchr(at, bytes)?;
    Some((&bytes[..i], &bytes[i + 1..]))
}

/// A number as it is printed: no sign, and no zero in front of another digit.
pub fn read_number(word: &[u8]) -> Option<u64>
    ensures { MatchOption result ((n : ℕ) → n < 2 ^ 64 → word.now ≢ decimal n)
        (λ n. (n < 2 ^ 64) × (word.now ≡ decimal n)) }
{
    let Ok(text) = str::from_utf8(word) else {
        return None;
    };
    let Ok(n) = text.parse::<u64>() else {
        return None;
    };
    let mut buffer = Buffer::new();
    if buffer.format(n) == text {
        Some(n)
    } else {
        None
    }
}
