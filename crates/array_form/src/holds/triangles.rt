//! Trips that vary with other loops.
ghost use Rattle.std.specs.Prelude.{◌≡◌, ◌≤◌, length, true};
ghost use Rattle.std.specs.List.{list_any};
ghost use Rattle.array_form.specs.forms.Loops.{coefficient, is_among};
ghost use Rattle.array_form.specs.forms.Statements.{depends_on, is_triangle};
ghost use Rattle.array_form.specs.holds.Surroundings.{counted_of};
ghost use Rattle.array_form.specs.holds.View.{loop_names, surroundings_view};
ghost use Rattle.array_form.specs.holds.Levels.{AreWithin, loops_from_place};

use crate::holds::loops::{CountedLoop, Surroundings};
use tree::Name;

// The coefficient that goes with a loop, of coefficients in the order of the loops.
fn coefficient(loops: &[CountedLoop], name: Name, times: &[i64]) -> i64
    ensures { result ≡ coefficient (loop_names loops.now) name times.now }
{
    let Some((first, loops)) = loops.split_first() else {
        return 0;
    };
    let Some((number, times)) = times.split_first() else {
        return 0;
    };
    if first.var == name {
        return *number;
    }
    coefficient(loops, name, times)
}

// Whether the trip of a loop has the variable of another one of the loops.
#[tactic(auto, using(crate::proofs::holds::TripLaws::trip_laws))]
fn depends_on(a: &Surroundings, l: &CountedLoop, m: &CountedLoop) -> bool
    requires few { length a.now.loops ≤ 7 }
    requires within { is_among (loop_names a.now.loops) m.now.var ≡ true }
    ensures { result ≡ depends_on (surroundings_view a.now) (counted_of (length a.now.loops) l.now)
        (counted_of (length a.now.loops) m.now) }
{
    l.var != m.var && coefficient(a.loops.as_slice(), m.var, &l.trip.top.loops) != 0
}

fn depends_on_one(a: &Surroundings, l: &CountedLoop, others: &[CountedLoop]) -> bool
    requires few { length a.now.loops ≤ 7 }
    requires within { AreWithin a.now others.now }
    ensures { result ≡ list_any (λ m. depends_on (surroundings_view a.now) (counted_of (length a.now.loops) l.now)
        (counted_of (length a.now.loops) m)) others.now }
{
    for m in others {
        if depends_on(a, l, m) {
            return true;
        }
    }
    false
}

/// Whether the trip of a loop from this place on, counted from 0, has the variable of another one of these.
#[tactic(auto, using(crate::proofs::holds::TripLaws::triangle_laws))]
pub fn is_triangle(a: &Surroundings, from: usize) -> bool
    requires few { length a.now.loops ≤ 7 }
    requires from { from ≤ length a.now.loops }
    ensures { result ≡ is_triangle (surroundings_view a.now) (loops_from_place a.now from) }
{
    is_triangle_of(a, &a.loops.as_slice()[from..])
}

fn is_triangle_of(a: &Surroundings, loops: &[CountedLoop]) -> bool
    requires few { length a.now.loops ≤ 7 }
    requires within { AreWithin a.now loops.now }
    ensures { result ≡ list_any (λ l. list_any (λ m. depends_on (surroundings_view a.now)
        (counted_of (length a.now.loops) l) (counted_of (length a.now.loops) m)) loops.now) loops.now }
{
    for l in loops {
        if depends_on_one(a, l, loops) {
            return true;
        }
    }
    false
}
