//! What follows the words of a submission.
ghost use Rattle.engine_common.specs.Bodies.{IsBody};

use crate::found::Found;

/// The text of `len` bytes at the front of these, and what follows the newline after it.
pub fn body_in(bytes: &[u8], len: usize) -> Found<'_, &[u8]>
    ensures { IsBody bytes.now len result }
{
    let Some((text, rest)) = bytes.split_at_checked(len) else {
        return Found::Short;
    };
    let Some((end, rest)) = rest.split_first() else {
        return Found::Short;
    };
    if *end != b'\n' {
        return Found::Bad;
    }
    Found::Line(text, rest)
}
