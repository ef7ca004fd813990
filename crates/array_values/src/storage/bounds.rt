//! The bounds of names, and what references select within them. An array without elements takes no memory for what it
//! doesn't have: of it no element is selected, and the extents of a section are told without a list.
ghost use Rattle.std.specs.Prelude.{◌≡◌, ◌<◌, ◌≤◌, ◌^◌, ◌↔◌, [], map, Ok, IfOk, IfSome, IsTrue, MatchOption, OnErr};
ghost use Rattle.meaning.specs.Extents.{elements_of};
ghost use Rattle.meaning.specs.Sections.{axes_on, whole_axes};
ghost use Rattle.machine.specs.Storage.{bounds_list, offset};
ghost use Rattle.array_values.specs.Answers.{Answers};
ghost use Rattle.array_values.specs.Counts.{ranges_in};
ghost use Rattle.array_values.specs.Selections.{selector_in};
ghost use Rattle.array_values.specs.storage.Bounds.{bounds_held, from_one};
ghost use Rattle.array_values.specs.storage.array_places.Selecting.{IsSelection, Selects};

use crate::counts::{Range, Ranges, push_extents, size, sizes};
use crate::storage::array_places::{Selection, count, place, select, select_all};
use crate::{Failure, Selector};
use std::alloc::Global;
use tree::{Dim, Memory, Seq};

/// The bounds of the dimensions of a name.
#[derive(Drop)]
pub(crate) enum Bounds {
    Filled(Seq<Dim>),
    Empty(Ranges),
}

/// The bounds of dimensions with these extents, each from 1.
pub fn ranges_from_one(alloc: Global, extents: &[i128]) -> Result<Seq<Range>, Failure>
    ensures { Answers ranges_in (Ok (from_one extents.now)) result }
{
    let mut list = Seq::new(alloc);
    for extent in extents {
        list.push(Range {
            lower: 1,
            upper: *extent,
        })?;
    }
    Ok(list)
}

fn ranges_of(alloc: Global, dims: &[Dim]) -> Result<Seq<Range>, Memory>
    ensures { IfOk result (λ list. ranges_in list ≡ bounds_list dims.now) }
{
    let mut list = Seq::new(alloc);
    for dim in dims {
        list.push(Range {
            lower: dim.lower,
            upper: i128::from(dim.upper),
        })?;
    }
    Ok(list)
}

// The same as the machine has them. An upper bound outside 64 bits has no place here.
fn dims_in(alloc: Global, ranges: &[Range]) -> Result<Seq<Dim>, Memory>
    ensures { IfOk result (λ dims. bounds_list dims ≡ ranges_in ranges.now) }
{
    let mut dims = Seq::new(alloc);
    for range in ranges {
        let Ok(upper) = i64::try_from(range.upper) else {
            return Err(Memory);
        };
        let lower = range.lower;
        dims.push(Dim { lower, upper })?;
    }
    Ok(dims)
}

// One of the dimensions leaves no element.
fn is_without_elements(ranges: &[Range]) -> bool
    ensures { IsTrue result ↔ (elements_of (ranges_in ranges.now) ≡ 0) }
{
    for range in ranges {
        if size(*range) == 0 {
            return true;
        }
    }
    false
}

fn copy(alloc: Global, dims: &[Dim]) -> Result<Seq<Dim>, Memory>
    ensures { IfOk result (λ copy. copy ≡ dims.now) }
{
    Ok(Seq::from_vec(Vec::from_slice(alloc, dims)?))
}

// What subscripts select of an array without elements.
fn select_none(alloc: Global, ranges: &Ranges, selectors: &[Selector]) -> Result<Selection, Failure>
    ensures { Selects (ranges_in ranges.now.list)
        (axes_on (ranges_in ranges.now.list) (map selector_in selectors.now)) result }
{
    let mut extents = Seq::new(alloc);
    push_extents(&mut extents, ranges.list.as_slice(), selectors)?;
    let places = Seq::new(alloc);
    Ok(Selection { extents, places })
}

// All of it.
fn select_all_of_none(alloc: Global, ranges: &Ranges) -> Result<Selection, Memory>
    ensures { IfOk result (IsSelection (ranges_in ranges.now.list) (whole_axes (ranges_in ranges.now.list))) }
{
    let extents = sizes(alloc, ranges.list.as_slice())?;
    let places = Seq::new(alloc);
    Ok(Selection { extents, places })
}

impl Bounds {
    /// These bounds.
    pub(crate) fn of(alloc: Global, dims: &[Dim]) -> Result<Bounds, Memory>
        ensures { IfOk result (λ bounds. bounds_held bounds ≡ bounds_list dims.now) }
    {
        if let Some(0) = count(dims) {
            let list = ranges_of(alloc, dims)?;
            return Ok(Bounds::Empty(Ranges { list }));
        }
        Ok(Bounds::Filled(copy(alloc, dims)?))
    }

    /// The same, where the upper ones may be beyond 64 bits. Memory is asked for only where they leave elements.
    pub(crate) fn within(alloc: Global, list: Seq<Range>) -> Result<Bounds, Memory>
        ensures bounds { IfOk result (λ bounds. bounds_held bounds ≡ ranges_in list) }
        ensures lacking { OnErr result (0 < elements_of (ranges_in list)) }
    {
        if is_without_elements(list.as_slice()) {
            return Ok(Bounds::Empty(Ranges { list }));
        }
        Ok(Bounds::Filled(dims_in(alloc, list.as_slice())?))
    }

    /// How many elements there are, unless they are more than any memory holds.
    pub(crate) fn count(&self) -> Option<usize>
        ensures { MatchOption result (2 ^ 64 ≤ elements_of (bounds_held self.now))
            (λ n. elements_of (bounds_held self.now) ≡ n) }
    {
        match self {
            Bounds::Filled(dims) => count(dims.as_slice()),
            Bounds::Empty(_) => Some(0),
        }
    }

    /// Whether there are no dimensions.
    pub(crate) fn is_scalar(&self) -> bool
        ensures { IsTrue result ↔ (bounds_held self.now ≡ []) }
    {
        match self {
            Bounds::Filled(dims) => dims.is_empty(),
            Bounds::Empty(_) => false,
        }
    }

    /// The place of the element with these subscripts, where they are within the bounds.
    pub(crate) fn place(&self, numbers: &[i128]) -> Option<usize>
        requires { elements_of (bounds_held self.now) < 2 ^ 64 }
        ensures place { result ≡ offset (bounds_held self.now) numbers.now }
        ensures within { IfSome result (λ k. k < elements_of (bounds_held self.now)) }
    {
        match self {
            Bounds::Filled(dims) => place(numbers, dims.as_slice()),
            Bounds::Empty(_) => None,
        }
    }

    /// What subscripts select, once they are evaluated.
    pub(crate) fn select(&self, alloc: Global, selectors: &[Selector]) -> Result<Selection, Failure>
        requires { elements_of (bounds_held self.now) < 2 ^ 64 }
        ensures { Selects (bounds_held self.now)
            (axes_on (bounds_held self.now) (map selector_in selectors.now)) result }
    {
        match self {
            Bounds::Filled(dims) => select(alloc, dims.as_slice(), selectors),
            Bounds::Empty(ranges) => select_none(alloc, ranges, selectors),
        }
    }

    /// All of an array.
    pub(crate) fn select_all(&self, alloc: Global) -> Result<Selection, Failure>
        ensures { IfOk result (IsSelection (bounds_held self.now) (whole_axes (bounds_held self.now))) }
    {
        match self {
            Bounds::Filled(dims) => select_all(alloc, dims.as_slice()),
            Bounds::Empty(ranges) => Ok(select_all_of_none(alloc, ranges)?),
        }
    }
}
