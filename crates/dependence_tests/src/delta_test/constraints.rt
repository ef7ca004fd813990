//! A constraint for each loop.
ghost use Rattle.std.specs.Prelude.{List, ℤ};
ghost use Rattle.dependence_tests.specs.loop_lines.OneLoop.{IsWithinPlaces};
ghost use Rattle.dependence_tests.specs.loop_lines.Places.{loop_at};
ghost use Rattle.dependence_tests.specs.delta_test.Constraints.{IsConstraint};
ghost use Rattle.dependence_tests.specs.delta_test.Kept.{AreConstraints, AreKept, IsKeptWith};

use crate::delta_test::constraint::{Constraint, meet_of};
use crate::loop_lines::LoopPlace;

/// What is known of the two iterations of each loop. A loop that stands round one reference alone has one iteration; 1
/// stands for the other one, so that a value is a point.
#[derive(Clone, Copy, Debug)]
pub struct Constraints {
    /// Those of the loops round both references.
    pub shared: [Constraint; 7],
    /// Those of the loops round the first reference alone.
    pub first: [Constraint; 7],
    /// Those of the loops round the second reference alone.
    pub second: [Constraint; 7],
}

impl Constraints {
    /// Nothing is known.
    pub fn nothing() -> Constraints
        ensures constraints { AreConstraints result }
        ensures kept { (x y : List ℤ) → AreKept result x y }
    {
        let anywhere = Constraint::Anywhere;
        let all = [
            anywhere, anywhere, anywhere, anywhere, anywhere, anywhere, anywhere,
        ];
        Constraints {
            shared: all,
            first: all,
            second: all,
        }
    }

    /// With one more constraint on a loop's iterations.
    pub fn with(self, at: LoopPlace, constraint: Constraint) -> Constraints
        requires constraints { AreConstraints self }
        requires at { IsWithinPlaces (loop_at at) }
        requires constraint { IsConstraint constraint }
        ensures constraints { AreConstraints result }
        ensures kept { IsKeptWith self (loop_at at) constraint result }
    {
        let mut all = self;
        match at {
            LoopPlace::Shared(place) => all.shared[place] = meet_of(self.shared[place], constraint),
            LoopPlace::First(place) => all.first[place] = meet_of(self.first[place], constraint),
            LoopPlace::Second(place) => all.second[place] = meet_of(self.second[place], constraint),
        }
        all
    }
}
