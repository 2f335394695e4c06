//! What a server does with its node is a schedule's.
ghost use Rattle.sitectl.specs.Passes.{WorkIsCalls, StepIsCalls, GivenUpIsCalls, CallsAreABatch};

use site_disk::MemDisk;
use world::batches_are_runs;

/// A step of a server is calls of its node: those of one batch, each of whose deliveries is of a datagram
/// that came, and then submissions. If no datagram is forged, the batch's calls are a batch of the world, of
/// which `batches_are_runs` speaks: a run of its events. If it is cut short, it is a crash of the node before
/// the first of them or after the last one.
pub fn passes_are_batches()
    ensures work { WorkIsCalls }
    ensures step { StepIsCalls }
    ensures given_up { GivenUpIsCalls }
    ensures batch { CallsAreABatch }
{
    batches_are_runs::<MemDisk>();
}
