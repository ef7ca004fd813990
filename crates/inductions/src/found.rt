//! The inductions of a nest.
ghost use Rattle.std.specs.Prelude.{◌≡◌, ◌≤◌, IfOk, length, map, option_copied, slice_get};
ghost use Rattle.std.specs.List.{filter_map};
ghost use Rattle.std.specs.Option.{option_map};
ghost use Rattle.tree.specs.View.{declaration_of};
ghost use Rattle.nest.specs.View.{nest_of, part_of};
ghost use Rattle.nest.specs.statement_loops.Standings.{standing_of};
ghost use Rattle.last_values.specs.normal_forms.NormalLoops.{plus_multiple, symbol_form, trip_form};
ghost use Rattle.inductions.specs.Found.{end_form, induction_declared, induction_named, inductions_by, inductions_of};
ghost use Rattle.inductions.specs.Found.{outermost_trip};

use crate::growing::{only_write, step_at};
use last_values::normal_forms::{Multiple, combination};
use nest::statement_loops::{Standing, statements_of};
use nest::{Nest, Part, Trip};
use statement_passes::{place_of, scalar_kind, shifted_trip};
use std::alloc::Global;
use subscripts::Affine;
use tree::{Decl, Kind, Memory, Name, Seq};

/// A scalar that grows by a constant in each turn of the outermost loop.
#[derive(Clone, Copy)]
pub struct Induction {
    pub name: Name,
    /// What it grows by.
    pub step: i64,
    /// The constant of its form before the statement in which it grows: the negative step.
    pub less: i64,
    /// The number of that statement in the nest.
    pub place: usize,
    /// The form of its last value, over the symbols with it among them.
    pub end: Affine,
}

/// The counter and the trip of the outermost loop.
#[derive(Clone, Copy)]
pub(crate) struct OuterLoop {
    pub counter: Name,
    pub trip: Trip,
}

fn symbol_form(place: u16) -> Affine
    ensures { result ≡ symbol_form place }
{
    Affine {
        loops: [0; 7],
        syms: [
            (place, 1),
            (0, 0),
            (0, 0),
            (0, 0),
            (0, 0),
            (0, 0),
            (0, 0),
            (0, 0),
        ],
        constant: 0,
    }
}

// A trip as a form, in which a divided trip has this place.
fn trip_form(place: u16, trip: &Trip) -> Affine
    ensures { result ≡ trip_form place trip.now }
{
    if trip.by == 1 {
        trip.top
    } else {
        symbol_form(place)
    }
}

fn plus_multiple(count: u16, form: Affine, times: i64, other: Affine) -> Option<Affine>
    ensures { result ≡ plus_multiple count form times other }
{
    combination(
        &[Multiple { times: 1, form }, Multiple { times, form: other }],
        count,
    )
}

fn end_form(
    symbols: &Seq<Name>,
    trip: &Trip,
    name: Name,
    step: i64,
) -> Result<Option<Affine>, Memory>
    requires { length symbols.now ≤ 1000 }
    ensures { IfOk result (λ form. form ≡ end_form symbols.now trip.now name step) }
{
    let place = place_of(symbols.as_slice(), name);
    let count = symbols.len() as u16;
    let trip = shifted_trip(place, trip)?;
    let form = symbol_form(place as u16);
    Ok(plus_multiple(count + 2, form, step, trip_form(count + 1, &trip)))
}

#[tactic(auto, using(crate::proofs::FoundLaws::place_laws))]
fn standing_at(all: &Seq<Standing>, place: usize) -> Option<&Standing>
    ensures { option_map standing_of (option_copied result) ≡ slice_get (map standing_of all.now) place }
{
    all.get(place)
}

#[tactic(auto, using(crate::proofs::FoundLaws::found_laws))]
fn induction_named(
    symbols: &Seq<Name>,
    trip: &Trip,
    all: &Seq<Standing>,
    name: Name,
) -> Result<Option<Induction>, Memory>
    requires { length symbols.now ≤ 1000 }
    ensures { IfOk result (λ found. found ≡ induction_named symbols.now trip.now (map standing_of all.now) name) }
{
    let Some(place) = only_write(all.as_slice(), name) else {
        return Ok(None);
    };
    let Some(standing) = standing_at(all, place) else {
        return Ok(None);
    };
    let Some(step) = step_at(name, standing) else {
        return Ok(None);
    };
    let Some(end) = end_form(symbols, trip, name, step)? else {
        return Ok(None);
    };
    Ok(Some(Induction {
        name,
        step,
        less: -step,
        place,
        end,
    }))
}

fn induction_declared(
    symbols: &Seq<Name>,
    trip: &Trip,
    all: &Seq<Standing>,
    decl: &Decl,
) -> Result<Option<Induction>, Memory>
    requires { length symbols.now ≤ 1000 }
    ensures { IfOk result (λ found. found
        ≡ induction_declared symbols.now trip.now (map standing_of all.now) (declaration_of decl.now)) }
{
    match scalar_kind(decl) {
        Some(Kind::Integer) => induction_named(symbols, trip, all, decl.name),
        Some(Kind::Logical) => Ok(None),
        None => Ok(None),
    }
}

fn inductions_declared(
    alloc: Global,
    symbols: &Seq<Name>,
    trip: &Trip,
    all: &Seq<Standing>,
    decls: &Seq<Decl>,
) -> Result<Seq<Induction>, Memory>
    requires { length symbols.now ≤ 1000 }
    ensures { IfOk result (λ found. found
        ≡ filter_map (induction_declared symbols.now trip.now (map standing_of all.now))
        (map declaration_of decls.now)) }
{
    let mut found = Seq::new(alloc);
    for decl in decls.as_slice() {
        if let Some(induction) = induction_declared(symbols, trip, all, decl)? {
            found.push(induction)?;
        }
    }
    Ok(found)
}

/// The counter and the trip of the outermost loop, where it has one.
#[tactic(auto, using(nest::proofs::Equations::part_equations))]
pub(crate) fn outermost(body: &Part) -> Option<OuterLoop>
    ensures { option_map (λ o. (o.counter, o.trip)) result ≡ outermost_trip (part_of body.now) }
{
    match body {
        Part::Turns(turns, _) => match turns.trip {
            Some(trip) => Some(OuterLoop {
                counter: turns.var,
                trip,
            }),
            None => None,
        },
        Part::Run(_) | Part::Choice(..) | Part::Label(_) | Part::Jump(_) => None,
    }
}

pub(crate) fn inductions_under(
    alloc: Global,
    nest: &Nest,
    loops: &OuterLoop,
) -> Result<Seq<Induction>, Memory>
    requires { length nest.now.symbols ≤ 1000 }
    ensures { IfOk result (λ found. found
        ≡ inductions_by (nest_of nest.now) (Some (loops.now.counter, loops.now.trip))) }
{
    let all = statements_of(alloc, nest)?;
    inductions_declared(alloc, &nest.symbols, &loops.trip, &all, &nest.decls)
}

/// The inductions of a nest, in the order of the declarations, which is the byte order of names.
pub fn inductions_of(alloc: Global, nest: &Nest) -> Result<Seq<Induction>, Memory>
    requires { length nest.now.symbols ≤ 1000 }
    ensures { IfOk result (λ found. found ≡ inductions_of (nest_of nest.now)) }
{
    match outermost(&nest.body) {
        Some(loops) => inductions_under(alloc, nest, &loops),
        None => Ok(Seq::new(alloc)),
    }
}
