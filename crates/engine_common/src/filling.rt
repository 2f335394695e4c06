//! Reading on until what is held is enough.
ghost use Rattle.std.specs.Prelude.{false};
ghost use Rattle.std.specs.Fn.{FnReturnsAt};
ghost use Rattle.http_read.specs.Bytes.{end_of};
ghost use Rattle.engine_common.specs.Filling.{FillEnds};

use crate::ends::InputFault;
use crate::feed::Feed;
use http_read::Counted;
use std::io::Read;

/// Reads while what is held is short, and the input has not ended.
pub fn fill<R: Read, F: Fn(&[u8]) -> bool>(
    feed: &mut Feed,
    reader: &mut Counted<R>,
    is_short: F,
) -> Result<(), InputFault>
    requires { F.IsAlwaysCallable is_short }
    ensures { FillEnds (λ held. FnReturnsAt F.Fn is_short held false)
        (end_of R.remaining reader.old reader.new) feed.old feed.new result }
{
    while is_short(feed.held()) {
        if !feed.read_more(reader)? {
            return Ok(());
        }
    }
    Ok(())
}
