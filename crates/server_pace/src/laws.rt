//! Laws of trying, asking and telling.

ghost use Rattle.server_pace.specs.Laws.{BeginsWithin, ComesInTime, HearsWithin, IsAsked, PatienceGrows};
ghost use Rattle.server_pace.specs.Laws.{TellsWithin};

/// A node that asks has no more on its way to it than its budget of stretches, of 64 instances each.
pub fn no_line_is_flooded()
    ensures begins { BeginsWithin }
    ensures hears { HearsWithin }
    ensures tells { TellsWithin }
{}

/// A server asks again for its first unknown instance, in a bounded time.
pub fn questions_come_in_time()
    ensures comes { ComesInTime }
    ensures asked { IsAsked }
{}

/// After each try in vain that a majority answered a server waits longer before the next one. If that wait
/// had a bound, servers far apart would outbid one another for ever.
pub fn patience_grows()
    ensures { PatienceGrows }
{}
