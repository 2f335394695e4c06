//! What a server reports on standard error.

use site_ids::NodeId;
use std::fmt;

/// An event that matters to whoever runs a server. Its `Display` is its line, without the newline.
#[derive(Clone, Copy, Debug, PartialEq, Eq, Drop)]
pub enum Note {
    /// The server is ready, and its record has that many votes.
    Opened {
        votes: u32,
    },
    /// Its record took the place of a lost one: it promises and votes for nothing up to this instance, and
    /// tries nothing before it knows that far.
    Mute {
        instance: u32,
    },
    /// It knows all values up to its floor: from now on it takes part in everything.
    NoLongerMute,
    /// After a start or an absence: it knows all values up to this instance, and all that it heard of except
    /// in the last moments. Few more values become known.
    CaughtUp {
        instance: u32,
    },
    /// For this long no majority was heard. The server counts itself.
    NoMajority {
        seconds: u64,
    },
    /// A majority is heard again, after this long.
    Majority {
        seconds: u64,
    },
    /// For this long this node was not heard.
    Silent {
        node: NodeId,
        seconds: u64,
    },
    /// This node is heard again, after this long.
    Heard {
        node: NodeId,
        seconds: u64,
    },
    /// How many datagrams came that spell no message.
    Malformed {
        count: u64,
    },
    /// How many connections were closed for further clients, each time the one that was silent longest.
    Displaced {
        count: u64,
    },
    /// A response is owed on every connection, so further clients wait.
    Full,
    /// This is the newest release, and was not reported yet; all values up to this instance are known.
    Published {
        release: u64,
        instance: u32,
    },
    /// The value of this instance is known: the first one that became known after the newest release was
    /// reported.
    Began {
        instance: u32,
    },
    /// Each hour: how far it knows, its newest release, how many bytes its record has, and how many of memory
    /// it takes.
    Figures {
        instance: u32,
        release: u64,
        bytes: u64,
        memory: u64,
    },
}

impl fmt::Display for Note {
    ghost use Rattle.std.specs.Prelude.{Some};
    ghost use Rattle.server_notes.specs.Lines.{text_of};

    ghost output = { λ note. Some (text_of note) };

    fn fmt<W: fmt::Write>(&self, f: &mut fmt::Formatter<W>) -> fmt::Result {
        match self {
            Note::Opened { votes } => write!(f, "opened: votes on record: {votes}"),
            Note::Mute { instance } => write!(f, "mute up to instance {instance}"),
            Note::NoLongerMute => f.write_str("no longer mute"),
            Note::CaughtUp { instance } => write!(f, "caught up to instance {instance}"),
            Note::NoMajority { seconds } => write!(f, "no majority heard for {seconds} s"),
            Note::Majority { seconds } => write!(f, "a majority is heard again, after {seconds} s"),
            Note::Silent { node, seconds } => {
                let number = node.number();
                write!(f, "node {number} not heard for {seconds} s")
            }
            Note::Heard { node, seconds } => {
                let number = node.number();
                write!(f, "node {number} is heard again, after {seconds} s")
            }
            Note::Malformed { count } => write!(f, "datagrams that are no message: {count}"),
            Note::Displaced { count } => {
                write!(f, "silent connections closed for other clients: {count}")
            }
            Note::Full => f.write_str(
                "all 64 connections wait for a response: further clients wait",
            ),
            Note::Published { release, instance } => {
                write!(f, "published release={release} instance={instance}")
            }
            Note::Began { instance } => write!(f, "publishing instance={instance}"),
            Note::Figures {
                instance,
                release,
                bytes,
                memory,
            } => write!(
                f,
                "figures instance={instance} release={release} record_bytes={bytes} memory_bytes={memory}"
            ),
        }
    }
}
