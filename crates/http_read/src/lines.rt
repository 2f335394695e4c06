//! Finds the end of a chunk line.
ghost use Rattle.std.specs.Prelude.{MatchOption};
ghost use Rattle.http_read.specs.Bodies.{IsFirstLine, HasNoFeed};

/// The most bytes of a chunk line.
pub(crate) const LINE_LIMIT: usize = 256;

/// The length of the first line, if it ends within the first 256 bytes.
pub(crate) fn line_len(bytes: &[u8]) -> Option<usize>
    ensures { MatchOption result (HasNoFeed bytes.now) (IsFirstLine bytes.now) }
{
    for i in 0..LINE_LIMIT.min(bytes.len()) {
        if bytes[i] == b'\n' {
            return Some(i + 1);
        }
    }
    None
}
