//! Which nodes answer, all asked at once.
ghost use Rattle.std.specs.Prelude.{◌≡◌, length, vec_len, IfOk};

use crate::address::Address;
use crate::asking::number_in;
use crate::asking_all::{Said, ask_each};
use crate::group::Group;
use editor_common::TalkFault;
use editor_http::Question;
use std::net::{Net, TcpStream};
use std::rt::Clock;

/// Whether a node said its newest release.
fn tells_newest(said: &Said<'_>) -> bool {
    said.answers.first().and_then(number_in).is_some()
}

/// Asks each node for its newest release, and gives it `within` milliseconds to answer.
fn ask_newest<'a, R: Net<Stream = TcpStream> + Clock + AllocGlobal>(
    rt: &R,
    group: &'a Group,
    within: u64,
) -> Result<Vec<Said<'a>>, TalkFault>
    ensures is { IfOk result (λ all. vec_len all ≡ length group.now.nodes.items) }
{
    let nodes: Vec<&Address> = group.nodes().iter().collect(rt.alloc())?;
    ask_each(rt, &nodes, &[Question::Newest], within)
}

/// The URLs of the nodes that do not say their newest release within `within` milliseconds, each after a
/// blank.
pub(crate) fn silent_nodes<R: Net<Stream = TcpStream> + Clock + AllocGlobal>(
    rt: &R,
    group: &Group,
    within: u64,
) -> Result<String, TalkFault> {
    let mut silent = String::new(rt.alloc());
    for said in &ask_newest(rt, group, within)? {
        if !tells_newest(said) {
            silent.push(' ')?;
            silent.push_str(said.node.url.as_str())?;
        }
    }
    Ok(silent)
}
