//! What references to parts of arrays select (ISO/IEC 1539:1991, section 6.2.2).
ghost use Rattle.std.specs.Prelude.{◌≡◌, map, List, pos, IfOk, MatchOption, ◌+ℤ◌, true, false};
ghost use Rattle.tree.specs.View.{bounds_of};
ghost use Rattle.meaning.specs.Sections.{along, axis_on, axes_on, extents_of, triplet_numbers};
ghost use Rattle.array_values.specs.Answers.{Answers};
ghost use Rattle.array_values.specs.Selections.{selector_in, axis_in, bounded, goes_on};
ghost use Rattle.array_values.specs.declared.sections.Axis.{Axis as Axis'};

use crate::failure::Failure;
use std::alloc::Global;
use tree::{Dim, Fault, Memory, Seq};

/// A subscript whose expressions are evaluated: a number; a lower bound, an upper bound and a stride; or numbers.
#[derive(Drop)]
pub enum Selector {
    Index(i128),
    Triplet(i128, i128, i128),
    Vector(Seq<i128>),
}

/// What is selected along one dimension: a number, which leaves no dimension, or a list.
#[derive(Drop)]
pub enum Axis {
    Fixed(i64),
    Along(Seq<i64>),
}

// A number within the bounds.
fn bounded(dim: Dim, number: i128) -> Result<i64, Fault>
    ensures { result ≡ bounded (bounds_of dim) number }
{
    if number < i128::from(dim.lower) || i128::from(dim.upper) < number {
        return Err(Fault::Bounds);
    }
    Ok(number as i64)
}

fn along(alloc: Global, dim: Dim, numbers: &[i128]) -> Result<Axis, Failure>
    ensures { Answers axis_in (along (bounds_of dim) numbers.now) result }
{
    let mut selected = Seq::new(alloc);
    for number in numbers {
        selected.push(bounded(dim, *number)?)?;
    }
    Ok(Axis::Along(selected))
}

// Whether the numbers of a triplet aren't past its upper bound yet.
pub(crate) fn goes_on(number: i128, upper: i128, stride: i128) -> bool
    ensures { result ≡ goes_on number upper stride }
{
    if stride > 0 {
        return number <= upper;
    }
    upper <= number
}

// The number after this one, unless it is past the upper bound.
#[tactic(auto, using(crate::proofs::Triplets::past_range))]
fn next_number(number: i128, upper: i128, stride: i128) -> Option<i128>
    ensures { MatchOption result (goes_on (number +ℤ stride) upper stride ≡ false)
        (λ z. (z ≡ number +ℤ stride) × (goes_on z upper stride ≡ true)) }
{
    let next = number.checked_add(stride)?;
    if !goes_on(next, upper, stride) {
        return None;
    }
    Some(next)
}

fn first_number(lower: i128, upper: i128, stride: i128) -> Option<i128>
    ensures { MatchOption result (goes_on lower upper stride ≡ false)
        (λ z. (z ≡ lower) × (goes_on z upper stride ≡ true)) }
{
    if !goes_on(lower, upper, stride) {
        return None;
    }
    Some(lower)
}

// The numbers of a triplet, of which there may be none.
fn triplet(alloc: Global, dim: Dim, lower: i128, upper: i128, stride: i128) -> Result<Axis, Failure>
    requires { stride ≡ pos 0 → ⊥ }
    ensures { Answers axis_in (along (bounds_of dim) (triplet_numbers lower upper stride)) result }
{
    let mut selected = Seq::new(alloc);
    let mut next = first_number(lower, upper, stride);
    while let Some(number) = next {
        selected.push(bounded(dim, number)?)?;
        next = next_number(number, upper, stride);
    }
    Ok(Axis::Along(selected))
}

fn axis_on(alloc: Global, dim: Dim, selector: &Selector) -> Result<Axis, Failure>
    ensures { Answers axis_in (axis_on (bounds_of dim) (selector_in selector.now)) result }
{
    match selector {
        Selector::Index(number) => Ok(Axis::Fixed(bounded(dim, *number)?)),
        Selector::Triplet(lower, upper, stride) => {
            if *stride == 0 {
                return Err(Failure::Fault(Fault::ZeroStep));
            }
            triplet(alloc, dim, *lower, *upper, *stride)
        }
        Selector::Vector(numbers) => along(alloc, dim, numbers.as_slice()),
    }
}

/// What the subscripts select, dimension by dimension.
pub fn axes(alloc: Global, dims: &[Dim], selectors: &[Selector]) -> Result<Seq<Axis>, Failure>
    ensures { Answers (λ (axes : List Axis'). map axis_in axes)
        (axes_on (map bounds_of dims.now) (map selector_in selectors.now)) result }
{
    let mut axes = Seq::new(alloc);
    for (place, dim) in dims.iter().enumerate() {
        if place >= selectors.len() {
            return Err(Failure::Fault(Fault::Bounds));
        }
        let axis = axis_on(alloc, *dim, &selectors[place])?;
        axes.push(axis)?;
    }
    if dims.len() < selectors.len() {
        return Err(Failure::Fault(Fault::Bounds));
    }
    Ok(axes)
}

/// The extents of what is selected.
pub fn extents_of(alloc: Global, axes: &[Axis]) -> Result<Seq<u128>, Memory>
    ensures { IfOk result (λ ns. ns ≡ extents_of (map axis_in axes.now)) }
{
    let mut extents = Seq::new(alloc);
    for axis in axes {
        if let Axis::Along(numbers) = axis {
            extents.push(numbers.len() as u128)?;
        }
    }
    Ok(extents)
}
