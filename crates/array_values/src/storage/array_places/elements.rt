//! The places of elements. A dimension whose upper bound is below the lower one has none.
ghost use Rattle.std.specs.Prelude.{◌≡◌, ◌<◌, ◌≤◌, ◌+◌, ◌-◌, ◌*◌, ◌^◌};
ghost use Rattle.std.specs.Prelude.{ℕ, [], Some, map, min, IfOk, IfSome, MatchOption};
ghost use Rattle.std.specs.Option.{option_map};
ghost use Rattle.tree.specs.View.{bounds_of};
ghost use Rattle.meaning.specs.Store.{size_of};
ghost use Rattle.meaning.specs.Extents.{elements_of};
ghost use Rattle.machine.specs.Storage.{offset, joined, bounds_list};
ghost use Rattle.array_values.specs.storage.array_places.Places.{index_in};

use std::alloc::Global;
use tree::{Dim, Memory, Seq};

/// How many numbers the dimension has.
pub fn size(dim: Dim) -> u128
    ensures value { result ≡ size_of (bounds_of dim) }
    ensures few { result ≤ 2 ^ 64 }
{
    if dim.upper < dim.lower {
        return 0;
    }
    (i128::from(dim.upper) - i128::from(dim.lower) + 1) as u128
}

fn saturated_elements(dims: &[Dim]) -> u128
    ensures { result ≡ min (elements_of (bounds_list dims.now)) (2 ^ 128 - 1) }
{
    match dims.split_first() {
        None => 1,
        Some((dim, inner)) => size(*dim).saturating_mul(saturated_elements(inner)),
    }
}

/// How many elements there are within the bounds, unless they are more than any memory holds.
pub fn count(dims: &[Dim]) -> Option<usize>
    ensures { MatchOption result (2 ^ 64 ≤ elements_of (bounds_list dims.now))
        (λ n. elements_of (bounds_list dims.now) ≡ n) }
{
    usize::try_from(saturated_elements(dims)).ok()
}

/// The extents of an array.
pub fn extents(alloc: Global, dims: &[Dim]) -> Result<Seq<u128>, Memory>
    ensures { IfOk result (λ ns. ns ≡ map size_of (bounds_list dims.now)) }
{
    let mut extents = Seq::new(alloc);
    for dim in dims {
        extents.push(size(*dim))?;
    }
    Ok(extents)
}

// How far the number is behind the lower bound, where it stands within both.
pub fn index(dim: Dim, number: i128) -> Option<u128>
    ensures { result ≡ index_in (bounds_of dim) number }
{
    if number < i128::from(dim.lower) || i128::from(dim.upper) < number {
        return None;
    }
    Some((number - i128::from(dim.lower)) as u128)
}

// The first index, and what stands behind it in order.
fn stacked(index: u128, size: u128, rest: u128) -> u128
    ensures { (k : ℕ) → rest ≡ min k (2 ^ 128 - 1) → result ≡ min (index + size * k) (2 ^ 128 - 1) }
{
    index.saturating_add(size.saturating_mul(rest))
}

// The place of an element, by its first subscript and the place that the others give.
#[rattlefmt::skip]
#[tactic(auto, using(crate::proofs::storage::ArrayPlaces::Rows::joined_none,
    crate::proofs::storage::ArrayPlaces::Rows::joined_some))]
fn join(dim: Dim, number: i128, rest: u128) -> Option<u128>
    ensures { (k : ℕ) → rest ≡ min k (2 ^ 128 - 1)
        → result ≡ option_map (λ j. min j (2 ^ 128 - 1)) (joined (bounds_of dim) number (Some k)) }
{
    let index = index(dim, number)?;
    Some(stacked(index, size(dim), rest))
}

fn no_dimension(numbers: &[i128]) -> Option<u128>
    ensures { result ≡ option_map (λ k. min k (2 ^ 128 - 1)) (offset [] numbers.now) }
{
    match numbers.split_first() {
        None => Some(0),
        Some(_) => None,
    }
}

// A place beyond 2^128 - 1 stands as that.
fn saturated_place(numbers: &[i128], dims: &[Dim]) -> Option<u128>
    ensures { result ≡ option_map (λ k. min k (2 ^ 128 - 1)) (offset (bounds_list dims.now) numbers.now) }
{
    let Some((dim, inner)) = dims.split_first() else {
        return no_dimension(numbers);
    };
    let (number, more) = numbers.split_first()?;
    let rest = saturated_place(more, inner)?;
    join(*dim, *number, rest)
}

/// The place of the element with these subscripts, where they are within the bounds.
pub fn place(numbers: &[i128], dims: &[Dim]) -> Option<usize>
    requires { elements_of (bounds_list dims.now) < 2 ^ 64 }
    ensures place { result ≡ offset (bounds_list dims.now) numbers.now }
    ensures within { IfSome result (λ k. k < elements_of (bounds_list dims.now)) }
{
    let place = saturated_place(numbers, dims)?;
    Some(place as usize)
}
