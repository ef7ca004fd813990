//! What an array assignment stores, once its parts are evaluated (ISO/IEC 1539:1991, section 7.5).
ghost use Rattle.std.specs.Prelude.{◌≡◌, ◌<◌, ℕ, ℤ, List, length, IfOk, MatchResult, Ok, Err, All};
ghost use Rattle.meaning.specs.Dialect.{fortran90};
ghost use Rattle.meaning.specs.ArrayValues.{each, size};
ghost use Rattle.meaning.specs.ArrayStatements.{storable};
ghost use Rattle.meaning.specs.Sections.{Axis as Axis'};
ghost use Rattle.array_values.specs.Arrays.{elements_in};
ghost use Rattle.array_values.specs.storage.array_places.Places.{places_there};
ghost use Rattle.array_values.specs.storage.array_places.Selecting.{IsSelection};
ghost use Rattle.array_values.specs.storage.array_places.Writing.{Stores, stored_under};

use crate::storage::array_places::selection::Selection;
use crate::{Failure, Prepared};
use machine::check_range;
use std::alloc::Global;
use tree::{Fault, Memory, Seq, Value, Width};

/// The places of the elements that are stored, in order, and their values.
#[derive(Drop)]
pub struct Writes {
    pub places: Seq<usize>,
    pub values: Seq<Value>,
}

fn check_all(width: Width, values: &[Value]) -> Result<(), Fault>
    ensures { MatchResult result (λ _. each (storable (fortran90 width)) values.now ≡ Ok values.now)
        (λ fault. each (storable (fortran90 width)) values.now ≡ Err fault) }
{
    for value in values {
        check_range(width, *value)?;
    }
    Ok(())
}

fn picked(alloc: Global, places: &[usize], chosen: &[usize]) -> Result<Seq<usize>, Memory>
    requires { All (λ k. k < length places.now) chosen.now }
    ensures { IfOk result (λ ks. ks ≡ places_there places.now chosen.now) }
{
    let mut all = Vec::with_capacity(alloc, chosen.len())?;
    for at in chosen {
        all.push(places[*at])?;
    }
    Ok(Seq::from_vec(all))
}

/// The mask's elements are taken, then the right side's where the mask is true, position by position, and then each
/// value is held against the range of INTEGER. The mask and the right side conform with what is selected.
pub fn writes_under(
    alloc: Global,
    width: Width,
    mask: &Prepared,
    target: &Selection,
    right: &Prepared,
) -> Result<Writes, Failure>
    requires { length target.now.places ≡ size target.now.extents }
    ensures { (bs : List (ℤ × ℤ)) (axes : List Axis') (x : List ℕ) → IsSelection bs axes target.now
        → Stores bs x (stored_under (fortran90 width) (elements_in mask.now) x axes (elements_in right.now)) result }
{
    let extents = target.extents.as_slice();
    let chosen = mask.true_places(alloc, extents)?;
    let picks = chosen.as_slice();
    let values = right.values_at(alloc, extents, picks)?;
    let found = values.as_slice();
    check_all(width, found)?;
    let all = target.places.as_slice();
    let places = picked(alloc, all, picks)?;
    Ok(Writes { places, values })
}
