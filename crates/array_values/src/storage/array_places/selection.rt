//! What a reference selects of an array: its extents, and the places of its elements.
ghost use Rattle.std.specs.Prelude.{◌<◌, ◌^◌, map, IfOk};
ghost use Rattle.meaning.specs.Extents.{elements_of};
ghost use Rattle.meaning.specs.Sections.{axes_on, whole_axes};
ghost use Rattle.machine.specs.Storage.{bounds_list};
ghost use Rattle.array_values.specs.Selections.{selector_in};
ghost use Rattle.array_values.specs.storage.array_places.Selecting.{Selects, IsSelection};

use crate::storage::array_places::elements::{count, extents};
use crate::storage::array_places::selected::places;
use crate::{Failure, Selector, axes, extents_of};
use std::alloc::Global;
use tree::{Dim, Seq};

/// The extents of what is selected, and the places of its elements in order.
#[derive(Drop)]
pub struct Selection {
    pub extents: Seq<u128>,
    pub places: Seq<usize>,
}

/// What subscripts select, once they are evaluated.
pub fn select(alloc: Global, dims: &[Dim], selectors: &[Selector]) -> Result<Selection, Failure>
    requires { elements_of (bounds_list dims.now) < 2 ^ 64 }
    ensures { Selects (bounds_list dims.now) (axes_on (bounds_list dims.now) (map selector_in selectors.now)) result }
{
    let axes = axes(alloc, dims, selectors)?;
    let extents = extents_of(alloc, axes.as_slice())?;
    let places = places(alloc, dims, axes.as_slice())?;
    Ok(Selection { extents, places })
}

/// All of an array.
pub fn select_all(alloc: Global, dims: &[Dim]) -> Result<Selection, Failure>
    ensures { IfOk result (IsSelection (bounds_list dims.now) (whole_axes (bounds_list dims.now))) }
{
    let Some(count) = count(dims) else {
        return Err(Failure::Memory);
    };
    let mut places = Seq::from_vec(Vec::with_capacity(alloc, count)?);
    for place in 0..count {
        places.push(place)?;
    }
    let extents = extents(alloc, dims)?;
    Ok(Selection { extents, places })
}
