//! Arrays whose elements are known.
ghost use Rattle.std.specs.Prelude.{◌≡◌, ◌++◌, ◌-◌, ◌^◌, min, ℕ, ℤ, List, IfOk, MatchResult};
ghost use Rattle.tree.specs.Operators.{as_numbers};
ghost use Rattle.tree.specs.Widths.{bits_of};
ghost use Rattle.meaning.specs.ArrayValues.{settled, scalar_array, value_at_index, reshaped};
ghost use Rattle.array_values.specs.Arrays.{array_in, reduced_values};
ghost use Rattle.array_values.specs.Answers.{Answers};

use crate::extents::{place, saturated_size};
use crate::failure::Failure;
use std::alloc::Global;
use tree::{Fault, Gathered, Memory, Red, Seq, Value, Width};

/// An array with its elements in column-major order. A scalar has no extents and one element.
#[derive(Drop)]
pub struct Known {
    pub extents: Seq<u128>,
    pub values: Seq<Value>,
}

// A place beyond 2^128 - 1 stands as that.
#[tactic(auto, using(crate::proofs::Values::value_inside, crate::proofs::Values::value_outside))]
fn value_at(values: &[Value], place: u128) -> Result<Value, Fault>
    ensures { (k : ℕ) → place ≡ min k (2 ^ 128 - 1) → result ≡ value_at_index values.now k }
{
    if place < values.len() as u128 {
        return Ok(values[place as usize]);
    }
    Err(Fault::Shape)
}

impl Known {
    pub fn scalar(alloc: Global, value: Value) -> Result<Known, Memory>
        ensures { IfOk result (λ known. array_in known ≡ scalar_array value) }
    {
        let mut values = Seq::new(alloc);
        values.push(value)?;
        Ok(Known {
            extents: Seq::new(alloc),
            values,
        })
    }

    /// The element at a position whose numbers stand in two parts.
    pub fn at(&self, first: &[u128], more: &[u128]) -> Result<Value, Fault>
        ensures { result ≡ (settled (array_in self.now)).at (first.now ++ more.now) }
    {
        let place = place(self.extents.as_slice(), first, more);
        value_at(self.values.as_slice(), place)
    }

    /// The array with other extents, of which there are enough elements.
    pub fn reshaped(self, extents: Seq<u128>) -> Result<Known, Fault>
        ensures { MatchResult result (λ known. reshaped extents (array_in self) ≡ Ok (settled (array_in known)))
            (λ fault. reshaped extents (array_in self) ≡ Err fault) }
    {
        if saturated_size(extents.as_slice()) > self.values.len() as u128 {
            return Err(Fault::Shape);
        }
        Ok(Known {
            extents,
            values: self.values,
        })
    }

    /// The numbers that the elements are.
    pub fn numbers(&self, alloc: Global) -> Result<Seq<i128>, Failure>
        ensures { Answers (λ (zs : List ℤ). zs) (as_numbers self.now.values) result }
    {
        let mut numbers = Seq::new(alloc);
        for value in self.values.as_slice() {
            numbers.push(value.as_number()?)?;
        }
        Ok(numbers)
    }

    /// Gathers the elements into one number; of nothing the least and the greatest are those of INTEGER.
    pub fn reduce(&self, reduction: Red, width: Width) -> Result<Value, Fault>
        ensures { result ≡ reduced_values (bits_of width) reduction self.now.values }
    {
        let mut gathered = Gathered::Nothing;
        for value in self.values.as_slice() {
            gathered = gathered.with(reduction, value.as_number()?);
        }
        gathered.reduce(reduction, width.bits())
    }
}
