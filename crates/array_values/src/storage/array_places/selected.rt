//! The places of what references select.
ghost use Rattle.std.specs.Prelude.{◌≡◌, ◌<◌, ◌≤◌, ◌+◌, ◌*◌, ◌++◌, ◌∷◌, [], ◌^◌, ◌-ℤ◌};
ghost use Rattle.std.specs.Prelude.{nat_abs, true, ℕ, map, length, All, IfOk, OnOk};
ghost use Rattle.tree.specs.View.{bounds_of};
ghost use Rattle.meaning.specs.Store.{size_of, column_major};
ghost use Rattle.meaning.specs.Sections.{numbers_of, is_within_bounds, all_stand_in};
ghost use Rattle.meaning.specs.Extents.{elements_of};
ghost use Rattle.machine.specs.Storage.{offset, bounds_list};
ghost use Rattle.array_values.specs.Selections.{axis_in};
ghost use Rattle.array_values.specs.storage.array_places.Places.{AxesStand, place_in, row, somes, values_there};

use crate::Axis;
use crate::storage::array_places::elements::{index, size};
use std::alloc::Global;
use tree::{Dim, Memory, Seq, Value};

// How far the number is behind the lower bound.
#[rattlefmt::skip]
#[tactic(auto, using(crate::proofs::storage::ArrayPlaces::Rows::index_stands,
    crate::proofs::storage::ArrayPlaces::Rows::index_within))]
fn behind(dim: Dim, number: i64) -> u128
    requires { is_within_bounds (bounds_of dim) number ≡ true }
    ensures value { result ≡ nat_abs (number -ℤ (bounds_of dim).0) }
    ensures within { result < size_of (bounds_of dim) }
{
    match index(dim, i128::from(number)) {
        Some(index) => index,
        None => unreachable!(),
    }
}

fn push_place(all: &mut Seq<usize>, dim: Dim, number: i64, rest: usize) -> Result<(), Memory>
    requires stands { is_within_bounds (bounds_of dim) number ≡ true }
    requires few { size_of (bounds_of dim) * (rest + 1) < 2 ^ 64 }
    ensures { OnOk result (all.new ≡ all.old ++ place_in (bounds_of dim) rest number ∷ []) }
{
    let place = behind(dim, number) + size(dim) * rest as u128;
    all.push(place as usize)
}

// The places of what is selected along the first dimension, behind those of the others.
fn push_row(all: &mut Seq<usize>, dim: Dim, axis: &Axis, rest: usize) -> Result<(), Memory>
    requires stands { all_stand_in (bounds_of dim) (numbers_of (axis_in axis.now)) ≡ true }
    requires few { size_of (bounds_of dim) * (rest + 1) < 2 ^ 64 }
    ensures { OnOk result (all.new ≡ all.old ++ row (bounds_of dim) (numbers_of (axis_in axis.now)) rest) }
{
    match axis {
        Axis::Fixed(number) => push_place(all, dim, *number, rest),
        Axis::Along(numbers) => push_numbers(all, dim, numbers.as_slice(), rest),
    }
}

fn push_numbers(all: &mut Seq<usize>, dim: Dim, numbers: &[i64], rest: usize) -> Result<(), Memory>
    requires stands { all_stand_in (bounds_of dim) numbers.now ≡ true }
    requires few { size_of (bounds_of dim) * (rest + 1) < 2 ^ 64 }
    ensures { OnOk result (all.new ≡ all.old ++ row (bounds_of dim) numbers.now rest) }
{
    for number in numbers {
        push_place(all, dim, *number, rest)?;
    }
    Ok(())
}

/// The places of what is selected, in order.
pub fn places(alloc: Global, dims: &[Dim], axes: &[Axis]) -> Result<Seq<usize>, Memory>
    requires stand { AxesStand (bounds_list dims.now) (map axis_in axes.now) }
    requires few { elements_of (bounds_list dims.now) < 2 ^ 64 }
    ensures places { IfOk result (λ ks.
        map (offset (bounds_list dims.now)) (column_major (map numbers_of (map axis_in axes.now))) ≡ somes ks) }
    ensures within { IfOk result (λ ks. All (λ k. k < elements_of (bounds_list dims.now)) ks) }
{
    let mut all = Seq::new(alloc);
    let Some((axis, more)) = axes.split_first() else {
        all.push(0)?;
        return Ok(all);
    };
    let Some((dim, inner)) = dims.split_first() else {
        return Ok(all);
    };
    if size(*dim) == 0 {
        return Ok(all);
    }
    let rest = places(alloc, inner, more)?;
    for place in rest.as_slice() {
        push_row(&mut all, *dim, axis, *place)?;
    }
    Ok(all)
}

/// The values at these places.
pub fn values_at(alloc: Global, values: &[Value], places: &[usize]) -> Result<Seq<Value>, Memory>
    requires { All (λ k. k < length values.now) places.now }
    ensures { IfOk result (λ vs. vs ≡ values_there values.now places.now) }
{
    let mut all = Vec::with_capacity(alloc, places.len())?;
    for place in places {
        all.push(values[*place])?;
    }
    Ok(Seq::from_vec(all))
}
