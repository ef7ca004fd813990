//! Points and distances put into a subscript pair.
ghost use Rattle.std.specs.Prelude.{◌≡◌, ◌≤◌, ◌<◌, ◌^◌, ℤ, ◌-ℤ◌, ◌*ℤ◌, pos, unsigned_abs};
ghost use Rattle.subscripts.specs.Shapes.{IsPairing, IsSmall};
ghost use Rattle.dependence_tests.specs.delta_test.Constraints.{Allows, IsConstraint};
ghost use Rattle.dependence_tests.specs.delta_test.Kept.{AreConstraints};
ghost use Rattle.dependence_tests.specs.delta_test.Reductions.{IsReducedTo, IsTermAt, term_value, with_term};

use crate::delta_test::constraint::Constraint;
use crate::delta_test::constraints::Constraints;
use crate::loop_lines::line_points::times;
use subscripts::Pairing;

/// A subscript pair into which iterations have been put.
#[derive(Clone, Copy, Debug)]
pub struct Reduced {
    /// Its loops and symbols. Its constants count for nothing.
    pub pairing: Pairing,
    /// How much the first side's constant is above the second's.
    pub constant: i128,
}

/// What a loop adds to the difference of both sides: `first * i - second * j + constant` at its iterations i and j.
#[derive(Clone, Copy, Debug)]
struct Term {
    first: i64,
    second: i64,
    constant: i128,
}

// The size that no number which is put is above.
const LARGEST: u128 = 1 << 41;

/// A loop's term with this point put in.
fn at_point(first: i64, second: i64, i: i128, j: i128) -> Term
    requires first { unsigned_abs first ≤ 2 ^ 41 }
    requires second { unsigned_abs second ≤ 2 ^ 41 }
    requires i { unsigned_abs i ≤ 2 ^ 41 }
    requires j { unsigned_abs j ≤ 2 ^ 41 }
    ensures first { result.first ≡ pos 0 }
    ensures second { result.second ≡ pos 0 }
    ensures constant { result.constant ≡ first *ℤ i -ℤ second *ℤ j }
    ensures size { unsigned_abs result.constant ≤ 2 ^ 83 }
{
    Term {
        first: 0,
        second: 0,
        constant: times(i128::from(first), i) - times(i128::from(second), j),
    }
}

/// A loop's term with this distance put in: `i + distance` stands for j.
fn at_distance(first: i64, second: i64, distance: i128) -> Term
    requires first { IsSmall first }
    requires second { IsSmall second }
    requires distance { unsigned_abs distance ≤ 2 ^ 41 }
    ensures first { result.first ≡ first -ℤ second }
    ensures second { result.second ≡ pos 0 }
    ensures constant { result.constant ≡ pos 0 -ℤ (second *ℤ distance) }
    ensures size { unsigned_abs result.constant ≤ 2 ^ 83 }
{
    Term {
        first: first - second,
        second: 0,
        constant: -times(i128::from(second), distance),
    }
}

/// A loop's term with its point put in, if the constraint is one and its numbers aren't too large.
fn put_point(constraint: Constraint, first: i64, second: i64) -> Term
    requires first { unsigned_abs first ≤ 2 ^ 41 }
    requires second { unsigned_abs second ≤ 2 ^ 41 }
    ensures value { (i j : ℤ) → Allows constraint i j → first *ℤ i -ℤ second *ℤ j ≡ term_value result i j }
    ensures first { unsigned_abs result.first ≤ unsigned_abs first }
    ensures second { unsigned_abs result.second ≤ unsigned_abs second }
    ensures size { unsigned_abs result.constant ≤ 2 ^ 83 }
{
    if let Constraint::AtPoint(i, j) = constraint {
        if i.unsigned_abs() <= LARGEST && j.unsigned_abs() <= LARGEST {
            return at_point(first, second, i, j);
        }
    }
    Term {
        first,
        second,
        constant: 0,
    }
}

/// A loop's term with its point or distance put in.
fn put(constraint: Constraint, first: i64, second: i64) -> Term
    requires constraint { IsConstraint constraint }
    requires first { IsSmall first }
    requires second { IsSmall second }
    ensures value { (i j : ℤ) → Allows constraint i j → first *ℤ i -ℤ second *ℤ j ≡ term_value result i j }
    ensures first { unsigned_abs result.first ≤ 2 ^ 41 }
    ensures second { unsigned_abs result.second ≤ 2 ^ 41 }
    ensures size { unsigned_abs result.constant ≤ 2 ^ 83 }
{
    if let Constraint::AtDistance(distance) = constraint {
        return at_distance(first, second, distance);
    }
    put_point(constraint, first, second)
}

/// What the loops in a place add, with the point or distance of each put in.
fn term_at(constraints: &Constraints, place: usize, first: i64, second: i64) -> Term
    requires constraints { AreConstraints constraints.now }
    requires place { place < 7 }
    requires first { IsSmall first }
    requires second { IsSmall second }
    ensures value { IsTermAt constraints.now place first second result }
    ensures first { unsigned_abs result.first ≤ 2 ^ 41 }
    ensures second { unsigned_abs result.second ≤ 2 ^ 41 }
    ensures size { unsigned_abs result.constant ≤ 2 ^ 90 }
{
    let both = put(constraints.shared[place], first, second);
    let own_first = put_point(constraints.first[place], both.first, 0);
    let own_second = put_point(constraints.second[place], 0, both.second);
    Term {
        first: own_first.first,
        second: own_second.second,
        constant: both.constant + own_first.constant + own_second.constant,
    }
}

impl Reduced {
    /// With this term of the loops in a place.
    fn with(self, place: usize, term: Term) -> Reduced
        requires place { place < 7 }
        requires constant { unsigned_abs self.constant ≤ 2 ^ 100 }
        requires size { unsigned_abs term.constant ≤ 2 ^ 90 }
        ensures { result ≡ with_term self place term }
    {
        let mut reduced = self;
        reduced.pairing.from.loops[place] = term.first;
        reduced.pairing.to.loops[place] = term.second;
        reduced.constant += term.constant;
        reduced
    }
}

/// A subscript pair with the points and distances of its loops put in. A line isn't put.
pub fn reduced_by(p: &Pairing, constraints: &Constraints) -> Reduced
    requires pairing { IsPairing p.now }
    requires constraints { AreConstraints constraints.now }
    ensures { IsReducedTo constraints.now p.now result }
{
    let mut reduced = Reduced {
        pairing: *p,
        constant: i128::from(p.from.constant) - i128::from(p.to.constant),
    };
    for place in 0..7 {
        let term = term_at(constraints, place, p.from.loops[place], p.to.loops[place]);
        reduced = reduced.with(place, term);
    }
    reduced
}
