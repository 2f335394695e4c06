//! What commands of an interrupted run have replaced.
//!
//! Another editor may put something at the path of such a command before it comes into the log, and release
//! it. If a third editor's release then shows the command, the newest release no longer shows what was there.
use crate::asked::compare;
use crate::own::OwnTexts;
use editor_common::EditorFault;
use editor_group::Address;
use std::alloc::Global;
use std::net::{Net, TcpStream};

/// The paths show, in the newest release, `newest`, what the folder has put since its last release, `shown`.
/// This returns those that showed something of another editor right before that.
pub(crate) fn replaced<N: Net<Stream = TcpStream>>(
    net: &N,
    alloc: Global,
    node: &Address,
    shown: u64,
    newest: u64,
    own: OwnTexts<'_>,
    mut paths: Vec<String>,
) -> Result<Vec<String>, EditorFault> {
    let mut replaced = Vec::new(alloc);
    for release in (shown.saturating_add(1)..newest).rev() {
        if paths.is_empty() {
            break;
        }
        let mut compared = compare(net, alloc, node, release, own, &paths)?;
        replaced.append(&mut compared.taken)?;
        paths = compared.fresh;
    }
    Ok(replaced)
}
