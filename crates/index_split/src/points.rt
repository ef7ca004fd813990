//! The points that a pair of subscripts gives (Allen and Kennedy, "Optimizing Compilers for Modern Architectures",
//! sections 5.8 and 5.9).
ghost use Rattle.std.specs.Prelude.{◌≡◌, ◌↔◌, ◌≤◌, ◌<◌, ◌*ℤ◌, ◌+ℤ◌, ◌-ℤ◌, ◌^◌, ◌&&◌, pos, ℕ, IsTrue};
ghost use Rattle.std.specs.Prelude.{true, MatchOption, OnOk, int_div, nat_eq, unsigned_abs};
ghost use Rattle.std.specs.Ordering.{int_eq};
ghost use Rattle.index_split.specs.Gathered.{Adds, same_symbols};
ghost use Rattle.index_split.specs.Points.{GivesPoint, IsCrossingPoint, IsWithin, IsZeroPoint, MeetsAfter, front};
ghost use Rattle.index_split.specs.Points.{has_loop};

use subscripts::Affine;
use tree::{Memory, Seq};

/// Two subscripts in one place of two references, both linear in the one loop round them.
#[derive(Clone, Copy, Debug)]
pub struct Sides {
    pub first: Affine,
    pub second: Affine,
}

impl Sides {
    /// Whether the loop stands in one of them.
    pub(crate) fn has_loop(&self) -> bool
        ensures { result ≡ has_loop self.now }
    {
        self.first.loops[0] != 0 || self.second.loops[0] != 0
    }
}

// How much the one side's constant is above the other's.
fn gap(with: &Affine, without: &Affine) -> i128
    ensures value { result ≡ without.now.constant -ℤ with.now.constant }
    ensures size { unsigned_abs result < 2 ^ 127 }
{
    i128::from(without.constant) - i128::from(with.constant)
}

// What the loop adds in so many turns.
fn added(times: u32, form: &Affine) -> i128
    ensures { result ≡ pos times *ℤ front form.now }
{
    i128::from(i64::from(times)) * i128::from(form.loops[0])
}

fn front(form: &Affine) -> i128
    ensures { result ≡ front form.now }
{
    i128::from(form.loops[0])
}

// The quotient, rounded towards zero.
fn divided(number: i128, divisor: i128) -> i128
    requires size { unsigned_abs number < 2 ^ 127 }
    requires nonzero { divisor ≡ pos 0 → ⊥ }
    ensures { result ≡ int_div number divisor }
{
    number / divisor
}

// The number, where it is one from 0 to `last`.
fn narrowed(number: i128, last: u32) -> Option<u32>
    ensures { MatchOption result ((n : ℕ) → n ≤ last → number ≡ pos n → ⊥) (λ n. (n ≤ last) × (number ≡ pos n)) }
{
    if number < 0 || number > i128::from(last) {
        return None;
    }
    Some(number as u32)
}

// After how many turns, up to `last`, the side with the loop is equal to the other one's constant.
fn meeting(with: &Affine, without: &Affine, last: u32) -> Option<u32>
    requires { front with.now ≡ pos 0 → ⊥ }
    ensures { MatchOption result ((n : ℕ) → n ≤ last → MeetsAfter with.now without.now n → ⊥)
        (λ n. (n ≤ last) × MeetsAfter with.now without.now n) }
{
    let above = gap(with, without);
    match narrowed(divided(above, front(with)), last) {
        None => None,
        Some(times) => {
            if added(times, with) != above {
                return None;
            }
            Some(times)
        }
    }
}

// The loop doesn't stand in it.
fn lacks_loop(form: &Affine) -> bool
    ensures { IsTrue result ↔ (front form.now ≡ pos 0) }
{
    form.loops[0] == 0
}

fn are_opposite(first: &Affine, second: &Affine) -> bool
    ensures { IsTrue result ↔ (front first.now +ℤ front second.now ≡ pos 0) }
{
    i128::from(first.loops[0]) + i128::from(second.loops[0]) == 0
}

fn are_same(first: (u16, i64), second: (u16, i64)) -> bool
    ensures { result ≡ (nat_eq first.0 second.0 && int_eq first.1 second.1) }
{
    first.0 == second.0 && first.1 == second.1
}

fn have_same_symbols(first: &[(u16, i64)], second: &[(u16, i64)]) -> bool
    ensures { result ≡ same_symbols first.now second.now }
{
    let Some((symbol, first)) = first.split_first() else {
        return second.is_empty();
    };
    let Some((other, second)) = second.split_first() else {
        return false;
    };
    are_same(*symbol, *other) && have_same_symbols(first, second)
}

/// Points of a loop of so many turns, in any order.
#[derive(Drop)]
pub(crate) struct Points {
    pub trip: u32,
    pub list: Seq<u32>,
}

impl Points {
    // Adds the point where it is from 1 to the last turn but one.
    fn add(&mut self, point: u32) -> Result<(), Memory>
        ensures trip { self.new.trip ≡ self.old.trip }
        ensures list { OnOk result (Adds (IsWithin self.old.trip (λ x. x ≡ point)) self.old.list self.new.list) }
    {
        if point >= 1 && point < self.trip {
            self.list.push(point)?;
        }
        Ok(())
    }

    // Adds the points of a pair that has the loop on one side alone.
    fn add_zero(&mut self, with: &Affine, without: &Affine) -> Result<(), Memory>
        requires with { front with.now ≡ pos 0 → ⊥ }
        requires without { front without.now ≡ pos 0 }
        ensures trip { self.new.trip ≡ self.old.trip }
        ensures list { OnOk result (Adds (IsWithin self.old.trip (IsZeroPoint self.old.trip with.now without.now))
            self.old.list self.new.list) }
    {
        let Some(at) = meeting(with, without, self.trip) else {
            return Ok(());
        };
        self.add(at.saturating_sub(1))?;
        self.add(at)
    }

    // Adds the point of a pair that has the loop on both sides, with opposite coefficients.
    fn add_crossing(&mut self, sides: &Sides) -> Result<(), Memory>
        requires stands { front sides.now.first ≡ pos 0 → ⊥ }
        requires opposite { front sides.now.first +ℤ front sides.now.second ≡ pos 0 }
        requires few { self.old.trip ≤ 2147483646 }
        ensures trip { self.new.trip ≡ self.old.trip }
        ensures list { OnOk result (Adds
            (IsWithin self.old.trip (IsCrossingPoint self.old.trip sides.now.first sides.now.second))
            self.old.list self.new.list) }
    {
        let Some(sum) = meeting(&sides.first, &sides.second, 2 * self.trip) else {
            return Ok(());
        };
        self.add(sum / 2)
    }

    /// Adds the points that a pair of subscripts gives.
    pub(crate) fn add_pair(&mut self, sides: &Sides) -> Result<(), Memory>
        requires stands { has_loop sides.now ≡ true }
        requires few { self.old.trip ≤ 2147483646 }
        ensures trip { self.new.trip ≡ self.old.trip }
        ensures list { OnOk result (Adds (GivesPoint self.old.trip sides.now) self.old.list self.new.list) }
    {
        if !have_same_symbols(&sides.first.syms, &sides.second.syms) {
            return Ok(());
        }
        if lacks_loop(&sides.second) {
            return self.add_zero(&sides.first, &sides.second);
        }
        if lacks_loop(&sides.first) {
            return self.add_zero(&sides.second, &sides.first);
        }
        if are_opposite(&sides.first, &sides.second) {
            return self.add_crossing(sides);
        }
        Ok(())
    }
}
