ghost use Rattle.acceptor.specs.Judging.{JudgesPrepare, JudgesProposal};

use crate::Slot;
use site_ids::Ballot;

/// What an acceptor does with a prepare.
#[derive(Clone, Copy, Debug, Drop, PartialEq, Eq)]
pub enum PrepareVerdict {
    /// It records the promise, and answers with its vote.
    Promise,
    /// It gives the same answer again, and records nothing.
    Again,
    /// It refuses, and reports the higher ballot that it has promised.
    Nack(Ballot),
    Silent,
}

/// What an acceptor does with a proposal.
#[derive(Clone, Copy, Debug, Drop, PartialEq, Eq)]
pub enum ProposeVerdict {
    /// It records the vote, and reports it.
    Vote,
    /// It reports the same vote again, and records nothing.
    Again,
    /// It refuses, and reports the higher ballot that it has promised.
    Nack(Ballot),
    Silent,
}

pub fn judge_prepare(slot: &Slot, ballot: Ballot) -> PrepareVerdict
    ensures { JudgesPrepare slot.now ballot result }
{
    let Some(promised) = slot.promised else {
        return PrepareVerdict::Promise;
    };
    if promised < ballot {
        return PrepareVerdict::Promise;
    }
    if promised > ballot {
        return PrepareVerdict::Nack(promised);
    }
    match &slot.vote {
        Some(vote) if vote.ballot == ballot => PrepareVerdict::Silent,
        _ => PrepareVerdict::Again,
    }
}

pub fn judge_propose(slot: &Slot, ballot: Ballot, value: &[u8]) -> ProposeVerdict
    ensures { JudgesProposal slot.now ballot value.now result }
{
    if let Some(promised) = slot.promised {
        if ballot < promised {
            return ProposeVerdict::Nack(promised);
        }
    }
    match &slot.vote {
        Some(vote) if vote.ballot == ballot => {
            if vote.value.as_bytes() == value {
                ProposeVerdict::Again
            } else {
                ProposeVerdict::Silent
            }
        }
        _ => ProposeVerdict::Vote,
    }
}
