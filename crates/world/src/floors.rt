//! Which floor a record may have that takes the place of a lost one.

ghost use Rattle.std.specs.Prelude.{◌≡◌, ◌↔◌, ◌+◌, ◌-◌, ◌<◌, ◌^◌, if◌then◌else◌, IsTrue};
ghost use Rattle.world.specs.Worlds.{World as AbstractWorld, IsFloor};

use crate::{Event, World};
use site_ids::Instance;

// One more if `is` holds.
fn counted(many: usize, is: bool) -> usize
    requires { many < 2 ^ 64 - 1 }
    ensures { result ≡ (if is then many + 1 else many) }
{
    if is {
        return many + 1;
    }
    many
}

impl World {
    ghost use Rattle.world.specs.Standing.{IsWorldOf};
    ghost use Rattle.world.specs.Taking.{NamesFloor};

    /// Whether the event names a floor that is allowed, or names none.
    pub(crate) fn names_floor(&self, event: &Event) -> bool
        ensures { (w : AbstractWorld) → IsWorldOf self.now w → IsTrue result
            ↔ NamesFloor self.now.cluster w event.now }
    {
        match event {
            Event::Replace { floor, .. } => self.is_floor(*floor),
            _ => true,
        }
    }

    /// Whether a majority of the nodes answer, and the floor is 64 or more above what the record of each of
    /// them reaches.
    pub fn is_floor(&self, floor: Instance) -> bool
        ensures { (w : AbstractWorld) → IsWorldOf self.now w → IsTrue result
            ↔ IsFloor self.now.cluster w floor }
    {
        let at = floor.number();
        let mut below = 0;
        let mut seen = 0;
        while let Some(machine) = self.machines.get(seen) {
            below = counted(below, machine.reaches_below(at));
            seen += 1;
        }
        self.cluster.quorum() as usize <= below
    }
}
