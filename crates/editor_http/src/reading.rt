//! The answers of a connection, one after another.
ghost use Rattle.std.specs.Prelude.{IfOk, IfSome, IsErrOf};
ghost use Rattle.std.specs.Io.KnownBytes.{prepend_known, IsAtEnd};
ghost use Rattle.http_read.specs.Counted.{inside};
ghost use Rattle.http_read.specs.Bytes.{end_of, HasFailed};
ghost use Rattle.editor_http.specs.Answers.{HasNone};
ghost use Rattle.editor_http.specs.Input.{Takes};

use crate::fault::NodeAnswerFault;
use crate::looking::{Look, seen_in};
use crate::node_answer::NodeAnswer;
use engine_common::Feed;
use http_read::Counted;
use std::alloc::Global;
use std::io::Read;

/// The most bytes of an answer.
pub(crate) const MOST: usize = 2_100_000;

/// Reads the next answer of a connection. The feed is the connection's: what came ahead waits there for the
/// next call.
pub fn read_answer<R: Read>(
    alloc: Global,
    reader: &mut Counted<R>,
    feed: &mut Feed,
) -> Result<NodeAnswer, NodeAnswerFault>
    ensures ok { IfOk result (Takes (prepend_known feed.old (R.remaining (inside reader.old)))
        (prepend_known feed.new (R.remaining (inside reader.new)))) }
    ensures read { IsErrOf result NodeAnswerFault.Read
        → HasFailed (end_of R.remaining reader.old reader.new) }
    ensures ended { IsErrOf result NodeAnswerFault.Ended
        → IsAtEnd (R.remaining (inside reader.new))
        × IfSome (prepend_known feed.old (R.remaining (inside reader.old))) HasNone }
    ensures never { IsErrOf result NodeAnswerFault.NoAnswer
        → IfSome (prepend_known feed.old (R.remaining (inside reader.old))) HasNone }
{
    loop {
        match seen_in(alloc, feed.held())? {
            Look::Whole(answer, length) => {
                feed.pass(length);
                return Ok(answer);
            }
            Look::Never => return Err(NodeAnswerFault::NoAnswer),
            Look::Open => {}
        }
        if feed.held().len() >= MOST {
            return Err(NodeAnswerFault::NoAnswer);
        }
        if !feed.read_more(reader)? {
            return Err(NodeAnswerFault::Ended);
        }
    }
}
