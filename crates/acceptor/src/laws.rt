ghost use Rattle.acceptor.specs.Laws.{PrepareSteps, ProposalSteps, OnePrepareVerdict, OneProposalVerdict};
ghost use Rattle.acceptor.specs.Laws.{OneStep, PromiseRises, VoteRises};

/// The verdicts lead to the acceptor's steps, and to no others.
pub fn verdicts_are_steps()
    ensures prepare { PrepareSteps }
    ensures proposal { ProposalSteps }
{}

/// A request at a slot has one verdict, so it leads to one new slot and one answer. (That it has a verdict is
/// said by the contracts of `judge_prepare` and `judge_propose`.)
pub fn requests_have_one_verdict()
    ensures prepare { OnePrepareVerdict }
    ensures proposal { OneProposalVerdict }
    ensures one { OneStep }
{}

/// No step takes a promise back, and a new vote is at no lower ballot than the promise.
pub fn promises_only_rise()
    ensures promise { PromiseRises }
    ensures vote { VoteRises }
{}
