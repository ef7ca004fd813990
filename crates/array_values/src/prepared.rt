//! Arrays whose elements are computed when they are asked for.
ghost use Rattle.std.specs.Prelude.{◌≡◌, ◌<◌, map, [], IfOk, List, ℕ, All};
ghost use Rattle.tree.specs.Operators.{apply};
ghost use Rattle.meaning.specs.ArrayValues.{in_whole, each, positions, mapped, paired, settled, without_dimension};
ghost use Rattle.meaning.specs.ArrayValues.{swapped, spread, transposed, with_extent, size};
ghost use Rattle.array_values.specs.Positions.{position_at};
ghost use Rattle.array_values.specs.Masks.{true_places};
ghost use Rattle.array_values.specs.Arrays.{array_in, elements_in, extents_together, called_at};
ghost use Rattle.array_values.specs.Answers.{Answers};

use crate::extents::{check_conform, count, set_position};
use crate::failure::Failure;
use crate::known::Known;
use std::alloc::Global;
use tree::{Arguments, Fault, Fun, Memory, Op, Seq, Value};

/// An array whose elements are computed when they are asked for: known arrays, and operations that are performed
/// position by position. The extents of SPREAD and TRANSPOSE stand with them.
#[derive(Drop)]
pub enum Prepared {
    Known(Known),
    Unary(Op, Box<Prepared>),
    Binary(Op, Box<Prepared>, Box<Prepared>),
    Call(Fun, Seq<Prepared>),
    Spread(Seq<u128>, usize, Known),
    Transposed(Seq<u128>, Known),
}

impl Prepared {
    /// The element at a position. Positions count from 0.
    #[cycle(at)]
    #[tactic(auto, using(crate::proofs::Equations::prepared_laws))]
    pub fn at(&self, position: &[u128]) -> Result<Value, Fault>
        ensures { result ≡ (elements_in self.now).at position.now }
    {
        match self {
            Prepared::Known(array) => array.at(position, &[]),
            Prepared::Unary(op, a) => {
                let x = a.at(position)?;
                op.apply(x, x)
            }
            Prepared::Binary(op, a, b) => {
                let x = a.at(position)?;
                let y = b.at(position)?;
                op.apply(x, y)
            }
            Prepared::Call(function, parts) => call_at(*function, parts, position),
            Prepared::Spread(_, dimension, array) => spread_at(array, *dimension, position),
            Prepared::Transposed(_, array) => transposed_at(array, position),
        }
    }
}

#[cycle(at)]
fn call_at(function: Fun, parts: &Seq<Prepared>, position: &[u128]) -> Result<Value, Fault>
    ensures { result ≡ called_at function (map elements_in parts.now) position.now }
{
    let mut arguments = Arguments::Empty;
    for part in parts.as_slice() {
        arguments = arguments.with(function, part.at(position)?);
    }
    arguments.call(function)
}

// SPREAD leaves out the number of the new dimension.
fn spread_at(array: &Known, dimension: usize, position: &[u128]) -> Result<Value, Fault>
    ensures { result ≡ (settled (array_in array.now)).at (without_dimension dimension position.now) }
{
    let before = dimension.saturating_sub(1).min(position.len());
    let behind = dimension.min(position.len());
    array.at(&position[..before], &position[behind..])
}

// TRANSPOSE exchanges the first two numbers.
fn transposed_at(array: &Known, position: &[u128]) -> Result<Value, Fault>
    ensures { result ≡ (settled (array_in array.now)).at (swapped position.now) }
{
    match position {
        [row, column, more @ ..] => array.at(&[*column, *row], more),
        _ => array.at(position, &[]),
    }
}

impl Prepared {
    /// The extents, none for a scalar.
    #[cycle(extents)]
    #[tactic(auto, using(crate::proofs::Equations::prepared_laws))]
    pub fn extents(&self) -> &[u128]
        ensures { result.now ≡ (elements_in self.now).extents }
    {
        match self {
            Prepared::Known(array) => array.extents.as_slice(),
            Prepared::Unary(_, a) => a.extents(),
            Prepared::Binary(_, a, b) => {
                let own = a.extents();
                if own.is_empty() {
                    return b.extents();
                }
                own
            }
            Prepared::Call(_, parts) => common_extents(parts.as_slice()),
            Prepared::Spread(extents, ..) => extents.as_slice(),
            Prepared::Transposed(extents, _) => extents.as_slice(),
        }
    }

    /// An operator with one operand.
    #[tactic(auto, using(crate::proofs::Equations::prepared_laws))]
    pub fn unary(alloc: Global, op: Op, a: Prepared) -> Result<Prepared, Memory>
        ensures { IfOk result (λ p. elements_in p ≡ mapped (λ x. apply op x x) (elements_in a)) }
    {
        Ok(Prepared::Unary(op, Box::new(alloc, a)?))
    }

    /// An operator with two operands, which have to conform.
    pub fn binary(alloc: Global, op: Op, a: Prepared, b: Prepared) -> Result<Prepared, Failure>
        ensures { Answers elements_in (paired (apply op) (elements_in a) (elements_in b)) result }
    {
        check_conform(a.extents(), b.extents())?;
        Ok(Prepared::Binary(op, Box::new(alloc, a)?, Box::new(alloc, b)?))
    }

    /// All elements, in column-major order.
    pub fn in_whole(&self, alloc: Global) -> Result<Known, Failure>
        ensures { Answers array_in (in_whole (elements_in self.now)) result }
    {
        let extents = copy(alloc, self.extents())?;
        let values = self.all_values(alloc, extents.as_slice())?;
        Ok(Known { extents, values })
    }

    // The elements at all positions within these extents.
    fn all_values(&self, alloc: Global, extents: &[u128]) -> Result<Seq<Value>, Failure>
        ensures { Answers (λ (vs : List Value). vs) (each (elements_in self.now).at (positions extents.now)) result }
    {
        let Some(count) = count(extents) else {
            return Err(Failure::Memory);
        };
        let mut values = Seq::from_vec(Vec::with_capacity(alloc, count)?);
        let mut position = Vec::new(alloc);
        for place in 0..count {
            set_position(&mut position, extents, place)?;
            values.push(self.at(&position)?)?;
        }
        Ok(values)
    }
}

/// The extents of arrays that conform.
#[cycle(extents)]
pub fn common_extents(parts: &[Prepared]) -> &[u128]
    ensures { result.now ≡ extents_together [] (map elements_in parts.now) }
{
    for part in parts {
        let own = part.extents();
        if !own.is_empty() {
            return own;
        }
    }
    &[]
}

fn copy(alloc: Global, numbers: &[u128]) -> Result<Seq<u128>, Memory>
    ensures { IfOk result (λ copy. copy ≡ numbers.now) }
{
    Ok(Seq::from_vec(Vec::from_slice(alloc, numbers)?))
}

impl Prepared {
    /// As many copies of the array as `count` says, along a new dimension. Dimensions count from 1.
    #[tactic(auto, using(crate::proofs::Equations::prepared_laws))]
    pub fn spread(
        alloc: Global,
        array: Known,
        dimension: usize,
        count: u128,
    ) -> Result<Prepared, Memory>
        ensures { IfOk result (λ p. elements_in p ≡ spread dimension count (array_in array)) }
    {
        let extents = with_extent(alloc, array.extents.as_slice(), dimension, count)?;
        Ok(Prepared::Spread(extents, dimension, array))
    }

    /// The array with its first two dimensions exchanged.
    #[tactic(auto, using(crate::proofs::Equations::prepared_laws))]
    pub fn transposed(alloc: Global, array: Known) -> Result<Prepared, Memory>
        ensures { IfOk result (λ p. elements_in p ≡ transposed (array_in array)) }
    {
        let extents = swapped(alloc, array.extents.as_slice())?;
        Ok(Prepared::Transposed(extents, array))
    }

    /// The places within these extents, in order, at which the mask is true.
    pub fn true_places(&self, alloc: Global, extents: &[u128]) -> Result<Seq<usize>, Failure>
        ensures places { Answers (λ (ks : List ℕ). ks) (true_places (elements_in self.now) extents.now) result }
        ensures within { IfOk result (λ ks. All (λ k. k < size extents.now) ks) }
    {
        let Some(count) = count(extents) else {
            return Err(Failure::Memory);
        };
        let mut places = Seq::new(alloc);
        let mut position = Vec::new(alloc);
        for place in 0..count {
            set_position(&mut position, extents, place)?;
            if self.at(&position)?.as_truth()? {
                places.push(place)?;
            }
        }
        Ok(places)
    }

    /// The elements at these places within these extents.
    pub fn values_at(
        &self,
        alloc: Global,
        extents: &[u128],
        places: &[usize],
    ) -> Result<Seq<Value>, Failure>
        requires { All (λ k. k < size extents.now) places.now }
        ensures { Answers (λ (vs : List Value). vs)
            (each (λ k. (elements_in self.now).at (position_at extents.now k)) places.now) result }
    {
        let mut values = Seq::from_vec(Vec::with_capacity(alloc, places.len())?);
        let mut position = Vec::new(alloc);
        for place in places {
            set_position(&mut position, extents, *place)?;
            values.push(self.at(&position)?)?;
        }
        Ok(values)
    }
}

fn with_extent(
    alloc: Global,
    extents: &[u128],
    dimension: usize,
    count: u128,
) -> Result<Seq<u128>, Memory>
    ensures { IfOk result (λ ns. ns ≡ with_extent dimension count extents.now) }
{
    let before = dimension.saturating_sub(1).min(extents.len());
    let mut all = Vec::from_slice(alloc, &extents[..before])?;
    all.push(count)?;
    all.extend_from_slice(&extents[before..])?;
    Ok(Seq::from_vec(all))
}

fn swapped(alloc: Global, extents: &[u128]) -> Result<Seq<u128>, Memory>
    ensures { IfOk result (λ ns. ns ≡ swapped extents.now) }
{
    match extents {
        [rows, columns, more @ ..] => {
            let mut all = Vec::new(alloc);
            all.push(*columns)?;
            all.push(*rows)?;
            all.extend_from_slice(more)?;
            Ok(Seq::from_vec(all))
        }
        _ => copy(alloc, extents),
    }
}
