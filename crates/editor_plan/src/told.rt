ghost use Rattle.std.specs.Prelude.{◌≡◌};
ghost use Rattle.editor_plan.specs.Standings.{told_by, is_given, is_unknown};

/// What a node says of a ticket.
#[derive(Clone, Copy, Debug, Drop, PartialEq, Eq)]
pub enum Told {
    /// Its command is known.
    Given,
    /// No command is known, as far as this node knows.
    Unknown,
    /// Nothing that can be used.
    Nothing,
}

/// What the status of an answer to a question for a ticket's receipt says; no answer says nothing.
pub fn told_by(status: Option<u16>) -> Told
    ensures { result ≡ told_by status }
{
    match status {
        Some(200) => Told::Given,
        Some(404) => Told::Unknown,
        _ => Told::Nothing,
    }
}

impl Told {
    pub(crate) fn is_given(self) -> bool
        ensures { result ≡ is_given self }
    {
        match self {
            Told::Given => true,
            Told::Unknown => false,
            Told::Nothing => false,
        }
    }

    pub(crate) fn is_unknown(self) -> bool
        ensures { result ≡ is_unknown self }
    {
        match self {
            Told::Unknown => true,
            Told::Given => false,
            Told::Nothing => false,
        }
    }
}
