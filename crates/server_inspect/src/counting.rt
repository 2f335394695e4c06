//! What a record has over all instances.

ghost use Rattle.std.specs.Prelude.{◌≡◌, ◌≤◌, ◌<◌, ◌^◌, ◌-◌, ◌+◌, ◌||◌, is_some, if◌then◌else◌};
ghost use Rattle.site_ids.specs.declared.TheConstants.{MAX_INSTANCE};
ghost use Rattle.durable.specs.Slots.{slot_at, value_at};
ghost use Rattle.server_inspect.specs.Counting.{count_to, last_to};

use durable::Record;
use site_disk::Disk;
use site_ids::Instance;

/// At how many instances a record has a vote, at how many a learned value, and the last of both.
#[derive(Clone, Copy, Drop)]
pub(crate) struct Counts {
    pub votes: u32,
    pub learned: u32,
    pub last: u32,
}

/// `many`, and one more if `is` holds.
fn counted(many: u32, is: bool) -> u32
    requires { many < 2 ^ 32 - 1 }
    ensures { result ≡ (if is then many + 1 else many) }
{
    if is { many + 1 } else { many }
}

fn either(a: bool, b: bool) -> bool
    ensures { result ≡ (a || b) }
{
    a || b
}

/// This instance if `is` holds, or else the last one so far.
fn last_of(last: u32, number: u32, is: bool) -> u32
    ensures { result ≡ (if is then number else last) }
{
    if is { number } else { last }
}

/// What it has at the first `instances` instances.
pub(crate) fn count<D: Disk>(opened: &Record<D>, instances: u32) -> Counts
    requires { instances ≤ MAX_INSTANCE }
    ensures votes { result.votes ≡ count_to
        (λ i. is_some (slot_at opened.now.recorded.slots i).vote) instances }
    ensures learned { result.learned ≡ count_to
        (λ i. is_some (value_at opened.now.recorded.slots i)) instances }
    ensures last { result.last ≡ last_to (λ i. is_some (slot_at opened.now.recorded.slots i).vote
        || is_some (value_at opened.now.recorded.slots i)) instances }
{
    let (mut votes, mut learned, mut last) = (0, 0, 0);
    for past in 0..instances {
        let Some(instance) = Instance::new(past + 1) else {
            unreachable!()
        };
        let voted = opened.slot(instance).vote.is_some();
        let knows = opened.learned(instance).is_some();
        votes = counted(votes, voted);
        learned = counted(learned, knows);
        last = last_of(last, past + 1, either(voted, knows));
    }
    Counts {
        votes,
        learned,
        last,
    }
}
