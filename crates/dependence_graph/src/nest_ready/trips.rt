//! The trips of loops.
ghost use Rattle.std.specs.Prelude.{◌≤◌, ◌+◌, ◌↔◌, IsTrue, length, map};
ghost use Rattle.nest.specs.View.{loop_of};
ghost use Rattle.dependence_graph.specs.nest_graph.Ready.{HasTrip, HaveTrips, IsTripIn};

use crate::nest_ready::conjunctions::both_true;
use nest::{Loop, Trip};

// A form under so many loops, and a divisor that is at least 1.
fn is_trip_in(depth: u8, trip: &Trip) -> bool
    ensures { IsTrue result ↔ IsTripIn depth trip.now }
{
    both_true(trip.by >= 1, trip.top.is_form(usize::from(depth)))
}

fn has_trip(depth: u8, turns: &Loop) -> bool
    ensures { IsTrue result ↔ HasTrip depth (loop_of turns.now) }
{
    match turns.trip {
        Some(trip) => is_trip_in(depth, &trip),
        None => false,
    }
}

/// Whether the loops, each within those before it, have linear trips.
pub fn have_trips(depth: u8, loops: &[Loop]) -> bool
    requires { depth + length loops.now ≤ 7 }
    ensures { IsTrue result ↔ HaveTrips depth (map loop_of loops.now) }
{
    let Some((turns, inner)) = loops.split_first() else {
        return true;
    };
    has_trip(depth, turns) && have_trips(depth + 1, inner)
}
