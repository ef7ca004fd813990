//! What the values of expressions are used for.
ghost use Rattle.std.specs.Prelude.{◌≡◌, IfOk, List, ℕ, ℤ, map};
ghost use Rattle.tree.specs.Operators.{call, as_numbers};
ghost use Rattle.meaning.specs.ArrayValues.{Array};
ghost use Rattle.meaning.specs.Sections.{not_negative};
ghost use Rattle.meaning.specs.Value.{selector_of};
ghost use Rattle.array_values.specs.Answers.{Answers};
ghost use Rattle.array_values.specs.Arrays.{array_in};
ghost use Rattle.array_values.specs.Selections.{selector_in};
ghost use Rattle.array_expressions.specs.Scopes.{listed};

use array_values::{Failure, Known, Selector};
use std::alloc::Global;
use tree::{Arguments, Fault, Fun, Memory, Seq, Value};

/// The function's value at these.
pub fn call(function: Fun, values: &[Value]) -> Result<Value, Fault>
    ensures { result ≡ call function values.now }
{
    let mut arguments = Arguments::Empty;
    for value in values {
        arguments = arguments.with(function, *value);
    }
    arguments.call(function)
}

/// The number, or 0 where it is negative.
pub fn not_negative(number: i128) -> u128
    ensures { result ≡ not_negative number }
{
    if number < 0 {
        return 0;
    }
    number as u128
}

/// The numbers, with 0 for each negative one.
pub fn counts(alloc: Global, numbers: &[i128]) -> Result<Seq<u128>, Memory>
    ensures { IfOk result (λ counts. counts ≡ map not_negative numbers.now) }
{
    let mut counts = Seq::new(alloc);
    for number in numbers {
        counts.push(not_negative(*number))?;
    }
    Ok(counts)
}

/// An array of rank one with these values.
pub fn listed(alloc: Global, values: Seq<Value>) -> Result<Known, Memory>
    ensures { IfOk result (λ known. array_in known ≡ listed values) }
{
    let mut extents = Seq::new(alloc);
    extents.push(values.len() as u128)?;
    Ok(Known { extents, values })
}

/// The numbers that the values are.
pub fn all_numbers(alloc: Global, values: Seq<Value>) -> Result<Seq<i128>, Failure>
    ensures { Answers (λ (zs : List ℤ). zs) (as_numbers values) result }
{
    let known = Known {
        extents: Seq::new(alloc),
        values,
    };
    known.numbers(alloc)
}

/// A subscript whose expression has been evaluated: of a scalar its number, of an array all its numbers.
pub fn selector_of(extents: &[u128], numbers: Seq<i128>) -> Selector
    ensures { selector_in result ≡ selector_of extents.now numbers }
{
    if !extents.is_empty() {
        return Selector::Vector(numbers);
    }
    match numbers.as_slice().first() {
        None => Selector::Vector(numbers),
        Some(number) => Selector::Index(*number),
    }
}
