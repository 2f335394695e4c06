use site_ids::{Ballot, Vote};

/// What an acceptor has promised and accepted at one instance.
#[derive(Drop)]
pub struct Slot {
    pub promised: Option<Ballot>,
    pub vote: Option<Vote>,
}
