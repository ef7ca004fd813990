//! Groups whose members all have one and the same loop, with a constant trip: the loop alone decides. Each member is a
//! line over the loop's two iterations, and what all lines share is nothing, a point or a line.
ghost use Rattle.std.specs.Prelude.{◌≡◌, ◌↔◌, ◌<◌, ℤ, Some, All, IsTrue, MatchOption, length};
ghost use Rattle.subscripts.specs.Classes.{Loop, HasOneLoop, span_of};
ghost use Rattle.subscripts.specs.Shapes.{IsPairing, AreDirsOf, IsBeside};
ghost use Rattle.dependence_tests.specs.loop_lines.OneLoop.{HasSevenLists};
ghost use Rattle.dependence_tests.specs.loop_lines.Places.{loop_at};
ghost use Rattle.dependence_tests.specs.delta_test.Constraints.{IsConstraint, Allows};
ghost use Rattle.dependence_tests.specs.delta_test.Members.{AreMembers};
ghost use Rattle.dependence_tests.specs.delta_test.Groups.{HasNoneOfAll, HasNoLoopOfAll, HasOneLoopOfAll, IsLeastOfAll};
ghost use Rattle.dependence_tests.specs.delta_test.Groups.{OnAllLines};

use crate::delta_test::constraint::{Constraint, meet_of};
use crate::delta_test::iterations_left::{constraint_of, least_left};
use crate::loop_lines::{LoopPlace, bounds_at, line_of, only_loop_of, points_at};
use subscripts::{Dirs, Pairing, Point};

/// The one loop that all pairings have.
pub fn loop_of_all(ps: &[Pairing]) -> Option<LoopPlace>
    requires some { 0 < length ps.now }
    requires pairings { All IsPairing ps.now }
    ensures { MatchOption result (HasNoLoopOfAll ps.now) (λ at. HasOneLoopOfAll ps.now (loop_at at)) }
{
    let at = only_loop_of(&ps[0])?;
    for p in ps {
        let same = only_loop_of(p)? == at;
        if !same {
            return None;
        }
    }
    Some(at)
}

/// What the lines of all pairings share.
fn shared_by_all(ps: &[Pairing], at: LoopPlace) -> Constraint
    requires pairings { All IsPairing ps.now }
    requires one { HasOneLoopOfAll ps.now (loop_at at) }
    ensures same { (i j : ℤ) → Allows result i j ↔ OnAllLines (loop_at at) ps.now i j }
    ensures constraint { IsConstraint result }
    ensures places { All HasSevenLists ps.now }
{
    let mut shared = Constraint::Anywhere;
    for p in ps {
        shared = meet_of(shared, constraint_of(line_of(p, at)));
    }
    shared
}

/// The least pair of iterations of all pairings within the trip of their loop.
pub fn least_pair_of_all(
    ps: &[Pairing],
    d: &Dirs,
    at: LoopPlace,
    trip: i64,
) -> Option<(Point, Point)>
    requires members { AreMembers ps.now d.now }
    requires one { HasOneLoopOfAll ps.now (loop_at at) }
    requires trip { All (λ p. (span_of p (loop_at at)).last ≡ Some trip) ps.now }
    ensures { MatchOption result (HasNoneOfAll ps.now d.now) (λ r. IsLeastOfAll ps.now d.now r.0.at r.1.at) }
{
    let shared = shared_by_all(ps, at);
    let both = least_left(shared, i128::from(trip), bounds_at(&ps[0], d, at).dir)?;
    Some(points_at(at, both.i as i64, both.j as i64))
}
