//! Symbols that come in: scalars that aren't written any more.
ghost use Rattle.std.specs.Prelude.{◌≡◌, ◌≤◌, IfOk, length, map};
ghost use Rattle.std.specs.Option.{option_map};
ghost use Rattle.nest.specs.Plain as plain;
ghost use Rattle.nest.specs.View.{branch_of, branches, loop_of, nest_of, part_of};
ghost use Rattle.statement_passes.specs.Symbols.{place_among, shifted, shifted_term, shifted_trip, with_name_placed};
ghost use Rattle.statement_passes.specs.Shifted.{shifted_branch, shifted_branches, shifted_loop, shifted_part};
ghost use Rattle.statement_passes.specs.Shifted.{shifted_parts, with_nest_symbol, with_nest_symbols};

use crate::made_names::copy_made;
use nest::{Loop, Nest, NestArm, Part, Trip};
use std::alloc::Global;
use std::cmp::Ordering;
use subscripts::Affine;
use tree::{Memory, Name, Seq, both, copy_decls};

/// How many of the names, which are in byte order, stand before this one.
pub fn place_of(names: &[Name], name: Name) -> usize
    ensures place { result ≡ place_among names.now name }
    ensures within { result ≤ length names.now }
{
    let Some((first, rest)) = names.split_first() else {
        return 0;
    };
    match first.cmp(&name) {
        Ordering::Less => place_of(rest, name) + 1,
        Ordering::Equal | Ordering::Greater => 0,
    }
}

/// The names, which are in byte order, with this one at its place.
pub fn with_name(alloc: Global, names: &Seq<Name>, name: Name) -> Result<Seq<Name>, Memory>
    ensures { IfOk result (λ all. all ≡ with_name_placed names.now name) }
{
    let place = place_of(names.as_slice(), name);
    let mut all = Vec::from_slice(alloc, names.as_slice())?;
    all.insert(place, name)?;
    Ok(Seq::from_vec(all))
}

// A term of a form, where a symbol has come in at a place. More symbols than there are places don't fit into memory.
fn shifted_term(at: usize, term: (u16, i64)) -> Result<(u16, i64), Memory>
    ensures { IfOk result (λ new. new ≡ shifted_term at term) }
{
    if term.1 == 0 || usize::from(term.0) < at {
        return Ok(term);
    }
    match term.0.checked_add(1) {
        Some(place) => Ok((place, term.1)),
        None => Err(Memory),
    }
}

fn shifted(at: usize, form: Affine) -> Result<Affine, Memory>
    ensures { IfOk result (λ new. new ≡ shifted at form) }
{
    let mut syms = form.syms;
    for place in 0..8 {
        syms[place] = shifted_term(at, syms[place])?;
    }
    Ok(Affine {
        loops: form.loops,
        syms,
        constant: form.constant,
    })
}

/// A trip by the places of a list into which a symbol has come at this place.
pub fn shifted_trip(at: usize, trip: &Trip) -> Result<Trip, Memory>
    ensures { IfOk result (λ new. new ≡ shifted_trip at trip.now) }
{
    Ok(Trip {
        top: shifted(at, trip.top)?,
        by: trip.by,
    })
}

fn shifted_if_known(at: usize, trip: &Option<Trip>) -> Result<Option<Trip>, Memory>
    ensures { IfOk result (λ new. new ≡ option_map (shifted_trip at) trip.now) }
{
    match trip {
        Some(trip) => Ok(Some(shifted_trip(at, trip)?)),
        None => Ok(None),
    }
}

fn shifted_loop(alloc: Global, at: usize, turns: &Loop) -> Result<Loop, Memory>
    ensures { IfOk result (λ new. loop_of new ≡ shifted_loop at (loop_of turns.now)) }
{
    let trip = shifted_if_known(at, &turns.trip)?;
    let (first, last) = both(turns.first.copy(alloc), turns.last.copy(alloc))?;
    Ok(Loop {
        number: turns.number,
        var: turns.var,
        first,
        last,
        step: turns.step,
        trip,
    })
}

#[cycle(shifting)]
#[tactic(auto, using(nest::proofs::Equations::part_equations))]
fn shifted_part(alloc: Global, at: usize, part: &Part) -> Result<Part, Memory>
    ensures { IfOk result (λ new. part_of new ≡ shifted_part at (part_of part.now)) }
{
    match part {
        Part::Run(stmt) => Ok(Part::Run(stmt.copy(alloc)?)),
        Part::Turns(turns, body) => {
            let body = shifted_parts(alloc, at, body)?;
            Ok(Part::Turns(shifted_loop(alloc, at, turns)?, body))
        }
        Part::Choice(arms, other) => {
            let arms = shifted_arms(alloc, at, arms)?;
            Ok(Part::Choice(arms, shifted_parts(alloc, at, other)?))
        }
        Part::Label(number) => Ok(Part::Label(*number)),
        Part::Jump(number) => Ok(Part::Jump(*number)),
    }
}

#[cycle(shifting)]
fn shifted_parts(alloc: Global, at: usize, parts: &Seq<Part>) -> Result<Seq<Part>, Memory>
    ensures { IfOk result (λ new. plain.parts (map part_of new)
        ≡ shifted_parts at (plain.parts (map part_of parts.now))) }
{
    let mut made = Seq::new(alloc);
    for part in parts.as_slice() {
        made.push(shifted_part(alloc, at, part)?)?;
    }
    Ok(made)
}

#[cycle(shifting)]
#[tactic(auto, using(nest::proofs::Equations::part_equations))]
fn shifted_arm(alloc: Global, at: usize, arm: &NestArm) -> Result<NestArm, Memory>
    ensures { IfOk result (λ new. branch_of new ≡ shifted_branch at (branch_of arm.now)) }
{
    let body = shifted_parts(alloc, at, &arm.body)?;
    Ok(NestArm {
        test: arm.test.copy(alloc)?,
        body,
    })
}

#[cycle(shifting)]
fn shifted_arms(alloc: Global, at: usize, arms: &Seq<NestArm>) -> Result<Seq<NestArm>, Memory>
    ensures { IfOk result (λ new. branches (map branch_of new)
        ≡ shifted_branches at (branches (map branch_of arms.now))) }
{
    let mut made = Seq::new(alloc);
    for arm in arms.as_slice() {
        made.push(shifted_arm(alloc, at, arm)?)?;
    }
    Ok(made)
}

/// The nest with one symbol more, at its place in byte order. Places of symbols in the trips of loops are those of the
/// new list.
pub fn with_symbol(alloc: Global, nest: &Nest, name: Name) -> Result<Nest, Memory>
    ensures { IfOk result (λ new. nest_of new ≡ with_nest_symbol (nest_of nest.now) name) }
{
    let at = place_of(nest.symbols.as_slice(), name);
    let symbols = with_name(alloc, &nest.symbols, name)?;
    let decls = copy_decls(&nest.decls, alloc)?;
    let made = copy_made(alloc, &nest.made)?;
    let after = nest.after.copy(alloc)?;
    Ok(Nest {
        number: nest.number,
        line: nest.line,
        title: nest.title,
        body: shifted_part(alloc, at, &nest.body)?,
        decls,
        symbols,
        made,
        after,
        masks: nest.masks,
        copies: nest.copies,
    })
}

/// The nest with these symbols more, one after the other.
pub fn with_symbols(alloc: Global, nest: &Nest, names: &[Name]) -> Result<Nest, Memory>
    ensures { IfOk result (λ new. nest_of new ≡ with_nest_symbols (nest_of nest.now) names.now) }
{
    let Some((first, rest)) = names.split_first() else {
        return nest.copy(alloc);
    };
    let more = with_symbol(alloc, nest, *first)?;
    with_symbols(alloc, &more, rest)
}
