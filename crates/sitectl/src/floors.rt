//! The floor that a server's command line gives is one of the definitions.
ghost use Rattle.sitectl.specs.Floors.{FloorsAreAllowed};

/// If each node that was asked runs, and its record reaches no further than what is reported of it, the floor
/// that is made of this is allowed in every world. So the record that `--above` makes is that of a `Replace`
/// of the world, of which `every_schedule_agrees` speaks.
pub fn floors_are_allowed()
    ensures { FloorsAreAllowed }
{}
