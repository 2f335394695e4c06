ghost use Rattle.proposer.specs.Laws.{ProposesOnce};

/// An attempt proposes at most once.
pub fn attempts_propose_once()
    ensures { ProposesOnce }
{}
