//! How much references to parts of arrays select, told without a list of it (ISO/IEC 1539:1991, section 6.2.2).
ghost use Rattle.std.specs.Prelude.{◌≡◌, ◌++◌, map, pos, true, IfOk};
ghost use Rattle.meaning.specs.Store.{size_of};
ghost use Rattle.meaning.specs.Extents.{elements_of};
ghost use Rattle.meaning.specs.Sections.{axis_on, axes_on, is_within_bounds, triplet_numbers};
ghost use Rattle.array_values.specs.Counts.{AddsExtent, AddsExtents, Counts, CountsAlong};
ghost use Rattle.array_values.specs.Counts.{behind, range_in, ranges_in, strides};
ghost use Rattle.array_values.specs.Selections.{goes_on, selector_in};

use crate::Failure;
use crate::sections::{Selector, goes_on};
use std::alloc::Global;
use tree::{Fault, Memory, Seq};

/// The bounds of a dimension. An upper bound that ALLOCATE gives may be beyond 64 bits.
#[derive(Clone, Copy)]
pub struct Range {
    pub lower: i64,
    pub upper: i128,
}

/// The bounds of the dimensions of an array without elements.
#[derive(Drop)]
pub(crate) struct Ranges {
    pub(crate) list: Seq<Range>,
    ghost none: { elements_of (ranges_in list) ≡ 0 },
}

fn is_within(range: Range, number: i128) -> bool
    ensures { result ≡ is_within_bounds (range_in range) number }
{
    i128::from(range.lower) <= number && number <= range.upper
}

/// How many numbers there are.
pub(crate) fn size(range: Range) -> u128
    ensures { result ≡ size_of (range_in range) }
{
    let lower = i128::from(range.lower);
    if range.upper < lower {
        return 0;
    }
    range.upper.abs_diff(lower) + 1
}

/// How many numbers each dimension has.
pub(crate) fn sizes(alloc: Global, ranges: &[Range]) -> Result<Seq<u128>, Memory>
    ensures { IfOk result (λ ns. ns ≡ map size_of (ranges_in ranges.now)) }
{
    let mut sizes = Seq::new(alloc);
    for range in ranges {
        sizes.push(size(*range))?;
    }
    Ok(sizes)
}

// How many strides lead from the first number of a triplet to its last.
fn strides(lower: i128, upper: i128, stride: i128) -> u128
    requires { stride ≡ pos 0 → ⊥ }
    ensures { result ≡ strides lower upper stride }
{
    upper.abs_diff(lower) / stride.unsigned_abs()
}

// The last number of a triplet that has one.
fn last_number(lower: i128, upper: i128, stride: i128) -> i128
    requires nonzero { stride ≡ pos 0 → ⊥ }
    requires goes { goes_on lower upper stride ≡ true }
    ensures { result ≡ behind lower stride (strides lower upper stride) }
{
    let rest = (upper.abs_diff(lower) % stride.unsigned_abs()) as i128;
    if stride > 0 {
        return upper - rest;
    }
    upper + rest
}

// How many numbers a triplet has: they stand within the bounds where the first and the last do.
fn triplet_count(range: Range, lower: i128, upper: i128, stride: i128) -> Result<u128, Fault>
    requires { stride ≡ pos 0 → ⊥ }
    ensures { CountsAlong (range_in range) (triplet_numbers lower upper stride) result }
{
    if !goes_on(lower, upper, stride) {
        return Ok(0);
    }
    let last = last_number(lower, upper, stride);
    if !is_within(range, lower) {
        return Err(Fault::Bounds);
    }
    if !is_within(range, last) {
        return Err(Fault::Bounds);
    }
    Ok(strides(lower, upper, stride) + 1)
}

fn vector_count(range: Range, numbers: &[i128]) -> Result<u128, Fault>
    ensures { CountsAlong (range_in range) numbers.now result }
{
    for number in numbers {
        if !is_within(range, *number) {
            return Err(Fault::Bounds);
        }
    }
    Ok(numbers.len() as u128)
}

// How many numbers a subscript selects, or none where it is a single one.
fn count_on(range: Range, selector: &Selector) -> Result<Option<u128>, Fault>
    ensures { Counts (axis_on (range_in range) (selector_in selector.now)) result }
{
    match selector {
        Selector::Index(number) => {
            if !is_within(range, *number) {
                return Err(Fault::Bounds);
            }
            Ok(None)
        }
        Selector::Triplet(lower, upper, stride) => {
            if *stride == 0 {
                return Err(Fault::ZeroStep);
            }
            Ok(Some(triplet_count(range, *lower, *upper, *stride)?))
        }
        Selector::Vector(numbers) => Ok(Some(vector_count(range, numbers.as_slice())?)),
    }
}

fn push_extent(extents: &mut Seq<u128>, range: Range, selector: &Selector) -> Result<(), Failure>
    ensures { AddsExtent extents.old extents.new (axis_on (range_in range) (selector_in selector.now)) result }
{
    let Some(count) = count_on(range, selector)? else {
        return Ok(());
    };
    extents.push(count)?;
    Ok(())
}

/// Puts the extents of what the subscripts select behind those that are there.
pub(crate) fn push_extents(
    extents: &mut Seq<u128>,
    ranges: &[Range],
    selectors: &[Selector],
) -> Result<(), Failure>
    ensures { AddsExtents extents.old extents.new
        (axes_on (ranges_in ranges.now) (map selector_in selectors.now)) result }
{
    let Some((range, inner)) = ranges.split_first() else {
        if !selectors.is_empty() {
            return Err(Failure::Fault(Fault::Bounds));
        }
        return Ok(());
    };
    let Some((selector, more)) = selectors.split_first() else {
        return Err(Failure::Fault(Fault::Bounds));
    };
    push_extent(extents, *range, selector)?;
    push_extents(extents, inner, more)
}
