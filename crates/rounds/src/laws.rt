//! Rounds decide.
ghost use Rattle.rounds.specs.Agreeing.{RoundsAnswerAlike, RoundsAreRuns, RoundsKnowSame};
ghost use Rattle.rounds.specs.Agreeing.{RoundsKnowSubmitted, SchedulesSayMessages, StartIsLedTo};
ghost use Rattle.rounds.specs.Coding.{CodeRoundsDecide, StepsAreSteps};
ghost use Rattle.rounds.specs.Deciding.{CalmRoundsDecide, RoundsKeep, StartIsCalm};
ghost use Rattle.rounds.specs.Proposing.{AttemptDecides, HighestDecides, ProposalDecides};
ghost use Rattle.rounds.specs.Proposing.{RequestsAreHeeded};
ghost use Rattle.rounds.specs.Ticking.{NewIsBegun, TicksAreApart};

use site_disk::{Disk, MemDisk};
use world::batches_are_runs;

/// Five rounds of a calm group decide. In a calm group all servers know the same values and attempt nothing,
/// and values were just submitted at one of them. If two rounds take less than each patience, every server
/// knows the oldest of these values after five rounds, and after any more. A group that begins is calm.
pub fn calm_rounds_decide()
    ensures decides { CalmRoundsDecide }
    ensures keeps { RoundsKeep }
    ensures start { StartIsCalm }
{}

/// What `Server::step` promises of its batch and of its pace is a step of a round. So the rounds say nothing
/// about a server that its code does not promise, and five rounds of the code of a calm group decide. In
/// these rounds no client submits a value.
pub fn rounds_of_code_decide<D: Disk>()
    ensures step { StepsAreSteps D.stands_for }
    ensures decides { CodeRoundsDecide D.stands_for }
{}

/// Rounds are events of a world. So rounds of a group that a schedule led to continue that schedule, and what
/// holds of every schedule holds of them. Two servers know the same values, which were submitted, and answer
/// alike.
pub fn rounds_agree()
    ensures runs { RoundsAreRuns }
    ensures messages { SchedulesSayMessages }
    ensures same { RoundsKnowSame }
    ensures alike { RoundsAnswerAlike }
    ensures submitted { RoundsKnowSubmitted }
    ensures start { StartIsLedTo }
{
    batches_are_runs::<MemDisk>();
}

/// The highest ballot that is asked for, and that no record exceeds, decides in four rounds if nobody
/// overbids it in the first two. What else the servers do does not matter. An attempt decides in four rounds,
/// too. A proposal that waits for all servers decides in two. After a request its ballot or a higher one is
/// on record. A ballot above all that are on record comes from a tick, or from widenings of a server that had
/// no attempt. Ticks that are due are a patience apart, so there are few.
pub fn attempts_decide()
    ensures highest { HighestDecides }
    ensures attempt { AttemptDecides }
    ensures proposal { ProposalDecides }
    ensures heeded { RequestsAreHeeded }
    ensures begun { NewIsBegun }
    ensures apart { TicksAreApart }
{
    batches_are_runs::<MemDisk>();
}
