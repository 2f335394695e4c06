//! The outcome of a word, for programs.
ghost use Rattle.std.specs.Prelude.{◌≡◌, false, IfOk, OnOk, OnErr, string_bytes};
ghost use Rattle.serde_json.specs.Data.{put as with_member, no_members, object};
ghost use Rattle.serde_json.specs.View.{view, members_view};
ghost use Rattle.serde_json.specs.Written.{has_float, compact_text};

use serde_json::Map;
use std::alloc::{AllocError, Global};

/// The outcome of a word: the members of one JSON object.
#[derive(Drop)]
pub struct Outcome {
    members: Map<String, serde_json::Value>,
}

impl Outcome {
    /// An outcome of which nothing is known yet.
    pub fn new(alloc: Global) -> Outcome
        ensures { members_view result.members.entries ≡ no_members }
    {
        Outcome {
            members: Map::new(alloc),
        }
    }

    /// Keeps a value under a name, in place of one that is there.
    pub fn put(
        &mut self,
        alloc: Global,
        name: &str,
        value: serde_json::Value,
    ) -> Result<(), AllocError>
        ensures ok { OnOk result (members_view self.new.members.entries
            ≡ with_member name.now (view value) (members_view self.old.members.entries)) }
        ensures err { OnErr result (self.new.members.entries ≡ self.old.members.entries) }
    {
        serde_json::put(&mut self.members, alloc, name, value)
    }

    /// The object in one line, its members in the order of their names.
    pub fn spelled(self, alloc: Global) -> Result<String, AllocError>
        ensures { IfOk result (λ line. has_float (object (members_view self.members.entries)) ≡ false
            → string_bytes line ≡ compact_text (object (members_view self.members.entries))) }
    {
        serde_json::Value::Object(self.members).to_string(alloc)
    }
}
