//! Laws of forms of normal loops. A law is a function without a body: its contract is what holds.
ghost use Rattle.last_values.specs.normal_forms.Numbers.{CombinationHasNumber, BoundHasNumber, NormalLoopHasNumbers};

/// A combination is, as a number, the sum of so many times each of the forms, whatever the iterations of the loops and
/// the values of the symbols are.
pub fn combination_number()
    ensures { CombinationHasNumber }
{}

/// A bound over the counters of the loops round it is, as a number, what the bound is where the variables of these
/// loops have the numbers of their forms.
pub fn bound_number()
    ensures { BoundHasNumber }
{}

/// The numbers of a loop from 1 by 1: its lower bound has the bound's number, its variable that number in the first
/// iteration and the increment more in each further one, and its trip is the quotient.
pub fn normal_loop_numbers()
    ensures { NormalLoopHasNumbers }
{}
