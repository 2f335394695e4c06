//! Nodes in turn, by their numbers, with 1 after 9.

ghost use Rattle.std.specs.Prelude.{◌≡◌, ◌≤◌};
ghost use Rattle.server_pace.specs.Places.{number_behind, places_behind};

use site_ids::NodeId;

/// How many places after a node a number comes, from 1 to 9 and round again; after itself 9.
pub(crate) fn places_behind(last: NodeId, number: u8) -> u8
    requires { number ≤ 9 }
    ensures { result ≡ places_behind last number }
{
    if last.number() < number {
        number - last.number()
    } else {
        number + 9 - last.number()
    }
}

/// The number that comes `place` places after another one.
pub(crate) fn number_behind(last: u8, place: u8) -> u8
    requires { (last ≤ 9) × (place ≤ 9) }
    ensures { result ≡ number_behind last place }
{
    let number = last + place;
    if number <= 9 { number } else { number - 9 }
}
