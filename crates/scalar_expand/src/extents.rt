//! The extents of arrays over loops.
ghost use Rattle.std.specs.Prelude.{◌≡◌, ◌≤◌, ◌<◌, ◌+◌, ◌*◌, ◌++◌, ◌^◌, ◌<ℤ◌, nat_le, int_lt, length, pos, is_some};
ghost use Rattle.std.specs.Prelude.{All, IfOk, OnOk, IsTrue};
ghost use Rattle.std.specs.List.{list_all};
ghost use Rattle.tree.specs.Limits.{most_array_elements};
ghost use Rattle.last_values.specs.normal_forms.Combinations.{number_form, without_loops};
ghost use Rattle.last_values.specs.normal_forms.NormalLoops.{loop_form, one_at, trip_of};
ghost use Rattle.scalar_expand.specs.Extents.{are_counted, sizes_fit, extent_form, extent_under, extents_of_trips};
ghost use Rattle.scalar_expand.specs.Extents.{extents_under, greatest, greatest_from, greatest_size, known_elements};
ghost use Rattle.scalar_expand.specs.Extents.{known_extent, size_of_number, size_under, sized, sized_term, sizes_from};
ghost use Rattle.scalar_expand.specs.Extents.{sizes_under};

use last_values::normal_forms::{Multiple, Place, combination, is_known, is_positive};
use nest::Trip;
use std::alloc::Global;
use subscripts::Affine;
use tree::{Memory, Seq};

const SMALL: u64 = 1 << 40;

const DIMENSIONS: usize = 7;

const ELEMENTS: u64 = 1 << 22;

// ---- forms

pub(crate) fn number_form(number: i64) -> Affine
    ensures { result ≡ number_form number }
{
    Affine {
        loops: [0; 7],
        syms: [(0, 0); 8],
        constant: number,
    }
}

fn one_at(place: usize, at: usize) -> i64
    ensures { result ≡ one_at place at }
{
    if at == place { 1 } else { 0 }
}

fn loop_form(place: usize) -> Affine
    ensures { result ≡ loop_form place }
{
    Affine {
        loops: [
            one_at(place, 0),
            one_at(place, 1),
            one_at(place, 2),
            one_at(place, 3),
            one_at(place, 4),
            one_at(place, 5),
            one_at(place, 6),
        ],
        syms: [(0, 0); 8],
        constant: 0,
    }
}

fn without_loops(form: &Affine) -> Affine
    ensures { result ≡ without_loops form.now }
{
    let syms = form.syms;
    Affine {
        loops: [0; 7],
        syms,
        constant: form.constant,
    }
}

fn trip_of(form: Affine, by: i64) -> Trip
    requires { pos 0 <ℤ by }
    ensures { result ≡ trip_of form by }
{
    if is_known(&Trip { top: form, by: 1 }) {
        return Trip {
            top: number_form(form.constant / by),
            by: 1,
        };
    }
    Trip { top: form, by }
}

// ---- the greatest trip

fn extent_form(place: usize, extent: &Trip) -> Affine
    ensures { result ≡ extent_form place extent.now }
{
    if extent.by == 1 {
        extent.top
    } else {
        loop_form(place)
    }
}

#[tactic(auto, unfolding(crate::specs::Extents::greatest))]
fn greatest(times: i64, place: usize, extent: &Trip) -> Multiple
    ensures { result ≡ greatest times place extent.now }
{
    let form = if times > 0 {
        extent_form(place, extent)
    } else {
        number_form(1)
    };
    Multiple { times, form }
}

fn add_greatest(
    terms: &mut Vec<Multiple>,
    place: usize,
    form: &Affine,
    extents: &[Trip],
) -> Result<(), Memory>
    requires { place + length extents.now < 2 ^ 64 }
    ensures values { OnOk result (terms.new.items ≡ terms.old.items ++ greatest_from place form.now extents.now) }
    ensures count { OnOk result (length terms.new.items ≡ length terms.old.items + length extents.now) }
{
    let Some((first, rest)) = extents.split_first() else {
        return Ok(());
    };
    let times = Place::Loop(place).of(form);
    terms.push(greatest(times, place, first))?;
    add_greatest(terms, place + 1, form, rest)
}

#[tactic(auto, unfolding(crate::specs::Extents::extent_under))]
fn extent_under(
    alloc: Global,
    count: u16,
    extents: &[Trip],
    trip: &Trip,
) -> Result<Option<Trip>, Memory>
    requires deep { length extents.now ≤ 7 }
    requires divisor { pos 0 <ℤ trip.now.by }
    ensures { IfOk result (λ extent. extent ≡ extent_under count extents.now trip.now) }
{
    let mut terms = Vec::new(alloc);
    add_greatest(&mut terms, 0, &trip.top, extents)?;
    terms.push(Multiple {
        times: 1,
        form: without_loops(&trip.top),
    })?;
    let Some(form) = combination(terms.as_slice(), count) else {
        return Ok(None);
    };
    Ok(Some(trip_of(form, trip.by)))
}

// Behind these extents, those of loops with these trips.
fn extents_under(
    alloc: Global,
    count: u16,
    mut extents: Seq<Trip>,
    trips: &[Trip],
) -> Result<Option<Seq<Trip>>, Memory>
    requires deep { length extents + length trips.now ≤ 7 }
    requires divisors { IsTrue (list_all (λ trip. int_lt (pos 0) trip.by) trips.now) }
    ensures { IfOk result (λ all. all ≡ extents_under count extents trips.now) }
{
    let Some((first, rest)) = trips.split_first() else {
        return Ok(Some(extents));
    };
    let Some(extent) = extent_under(alloc, count, extents.as_slice(), first)? else {
        return Ok(None);
    };
    extents.push(extent)?;
    extents_under(alloc, count, extents, rest)
}

// ---- their sizes

fn size_of(number: i64) -> i64
    ensures { result ≡ size_of_number number }
{
    let size = number.unsigned_abs();
    if size <= SMALL {
        size as i64
    } else {
        (SMALL + 1) as i64
    }
}

fn sized_term(term: (u16, i64)) -> (u16, i64)
    ensures { result ≡ sized_term term }
{
    (term.0, size_of(term.1))
}

#[tactic(auto, unfolding(crate::specs::Extents::sized))]
fn sized(form: &Affine) -> Affine
    ensures { result ≡ sized form.now }
{
    let syms = form.syms;
    Affine {
        loops: [0; 7],
        syms: [
            sized_term(syms[0]),
            sized_term(syms[1]),
            sized_term(syms[2]),
            sized_term(syms[3]),
            sized_term(syms[4]),
            sized_term(syms[5]),
            sized_term(syms[6]),
            sized_term(syms[7]),
        ],
        constant: size_of(form.constant),
    }
}

#[tactic(auto, unfolding(crate::specs::Extents::greatest_size))]
fn greatest_size(times: i64, size: Affine) -> Multiple
    ensures { result ≡ greatest_size times size }
{
    let form = if times > 0 { size } else { number_form(1) };
    Multiple {
        times: size_of(times),
        form,
    }
}

fn add_sizes(
    terms: &mut Vec<Multiple>,
    place: usize,
    form: &Affine,
    sizes: &[Affine],
) -> Result<(), Memory>
    requires { place + length sizes.now < 2 ^ 64 }
    ensures values { OnOk result (terms.new.items ≡ terms.old.items ++ sizes_from place form.now sizes.now) }
    ensures count { OnOk result (length terms.new.items ≡ length terms.old.items + length sizes.now) }
{
    let Some((first, rest)) = sizes.split_first() else {
        return Ok(());
    };
    let times = Place::Loop(place).of(form);
    terms.push(greatest_size(times, *first))?;
    add_sizes(terms, place + 1, form, rest)
}

#[tactic(auto, unfolding(crate::specs::Extents::size_under))]
fn size_under(
    alloc: Global,
    count: u16,
    sizes: &[Affine],
    trip: &Trip,
) -> Result<Option<Affine>, Memory>
    requires { length sizes.now ≤ 7 }
    ensures { IfOk result (λ size. size ≡ size_under count sizes.now trip.now) }
{
    let mut terms = Vec::new(alloc);
    add_sizes(&mut terms, 0, &trip.top, sizes)?;
    terms.push(Multiple {
        times: 1,
        form: sized(&trip.top),
    })?;
    Ok(combination(terms.as_slice(), count))
}

// Whether the sizes of loops with these trips, behind these sizes, keep the limits.
fn are_sizes_within(
    alloc: Global,
    count: u16,
    mut sizes: Seq<Affine>,
    trips: &[Trip],
) -> Result<bool, Memory>
    requires { length sizes + length trips.now ≤ 7 }
    ensures { IfOk result (λ within. within ≡ is_some (sizes_under count sizes trips.now)) }
{
    let Some((first, rest)) = trips.split_first() else {
        return Ok(true);
    };
    let Some(size) = size_under(alloc, count, sizes.as_slice(), first)? else {
        return Ok(false);
    };
    sizes.push(size)?;
    are_sizes_within(alloc, count, sizes, rest)
}

// ---- their number

fn known_extent(extent: &Trip) -> u64
    ensures { result ≡ known_extent extent.now }
{
    if is_positive(extent) {
        extent.top.constant.unsigned_abs()
    } else {
        1
    }
}

// Whether so many times the elements of an array with these extents are few.
#[tactic(auto, using(crate::proofs::ExtentLaws::count_laws))]
fn are_few(elements: u64, extents: &[Trip]) -> bool
    requires { elements ≤ most_array_elements }
    ensures { result ≡ nat_le (elements * known_elements extents.now) most_array_elements }
{
    let Some((first, rest)) = extents.split_first() else {
        return true;
    };
    let elements = u128::from(elements) * u128::from(known_extent(first));
    if elements > u128::from(ELEMENTS) {
        return false;
    }
    are_few(elements as u64, rest)
}

// ---- all of them

fn have_divisors(trips: &[Trip]) -> bool
    ensures { result ≡ list_all (λ trip. int_lt (pos 0) trip.by) trips.now }
{
    trips.iter().all(|trip| trip.by > 0)
}

fn are_counted(trips: &[Trip]) -> bool
    ensures { result ≡ are_counted trips.now }
{
    trips.len() <= DIMENSIONS && have_divisors(trips)
}

/// The extents of an array over loops with these trips, from the outside in; `count` is how many symbols there are.
/// None where one by its size isn't within the limits of linear forms, or the array would have too many elements.
#[tactic(auto, unfolding(crate::specs::Extents::extents_of_trips))]
pub fn extents_of(alloc: Global, count: u16, trips: &[Trip]) -> Result<Option<Seq<Trip>>, Memory>
    ensures { IfOk result (λ all. all ≡ extents_of_trips count trips.now) }
{
    if !are_counted(trips) || !are_sizes_within(alloc, count, Seq::new(alloc), trips)? {
        return Ok(None);
    }
    let Some(extents) = extents_under(alloc, count, Seq::new(alloc), trips)? else {
        return Ok(None);
    };
    if !are_few(1, extents.as_slice()) {
        return Ok(None);
    }
    Ok(Some(extents))
}
