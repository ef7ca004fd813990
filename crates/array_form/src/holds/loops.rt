//! Loops round a statement.
ghost use Rattle.std.specs.Prelude.{◌≡◌, IfOk, map};
ghost use Rattle.std.specs.List.{list_any};
ghost use Rattle.tree.specs.View.{declaration_of};
ghost use Rattle.nest.specs.View.{loop_of, nest_of};
ghost use Rattle.array_form.specs.holds.Surroundings.{counted_loop, is_spread_name, is_titled_spread, known_trip};
ghost use Rattle.array_form.specs.holds.Surroundings.{may_spread, surroundings_of};
ghost use Rattle.array_form.specs.holds.View.{loop_names, surroundings_view};

use nest::{Loop, Nest, Trip};
use std::alloc::Global;
use subscripts::Affine;
use tree::{Memory, Name, Seq};

/// A loop from 1 to its trip by 1.
#[derive(Clone, Copy, Debug)]
pub struct CountedLoop {
    pub var: Name,
    pub trip: Trip,
}

/// What stands round a statement: its loops from the outside in, and the symbols of the nest. SPREAD may be written
/// where the program neither declares that name nor bears it.
#[derive(Drop)]
pub struct Surroundings {
    pub loops: Seq<CountedLoop>,
    pub symbols: Seq<Name>,
    pub may_spread: bool,
}

fn known_trip(trip: Option<Trip>) -> Trip
    ensures { result ≡ known_trip trip }
{
    match trip {
        Some(trip) => trip,
        None => Trip {
            top: Affine {
                loops: [0; 7],
                syms: [(0, 0); 8],
                constant: 0,
            },
            by: 1,
        },
    }
}

fn counted_loop(turns: &Loop) -> CountedLoop
    ensures { result ≡ counted_loop (loop_of turns.now) }
{
    CountedLoop {
        var: turns.var,
        trip: known_trip(turns.trip),
    }
}

fn all_counted(alloc: Global, loops: &Seq<Loop>) -> Result<Seq<CountedLoop>, Memory>
    ensures { IfOk result (λ all. all ≡ map counted_loop (map loop_of loops.now)) }
{
    let mut all = Seq::new(alloc);
    for turns in loops.as_slice() {
        all.push(counted_loop(turns))?;
    }
    Ok(all)
}

fn is_spread_name(name: Name) -> bool
    ensures { result ≡ is_spread_name name }
{
    name.text() == b"SPREAD".as_slice()
}

fn is_titled_spread(title: Option<Name>) -> bool
    ensures { result ≡ is_titled_spread title }
{
    match title {
        Some(name) => is_spread_name(name),
        None => false,
    }
}

fn declares_spread(nest: &Nest) -> bool
    ensures { result ≡ list_any (λ d. is_spread_name d.name) (map declaration_of nest.now.decls) }
{
    for decl in nest.decls.as_slice() {
        if is_spread_name(decl.name) {
            return true;
        }
    }
    false
}

fn may_spread(nest: &Nest) -> bool
    ensures { result ≡ may_spread (nest_of nest.now) }
{
    !(is_titled_spread(nest.title) || declares_spread(nest))
}

/// What stands round a statement in these loops of a nest, each loop with its trip as it stands.
pub fn surroundings_of(
    alloc: Global,
    nest: &Nest,
    loops: &Seq<Loop>,
) -> Result<Surroundings, Memory>
    ensures view { IfOk result (λ a. surroundings_view a ≡ surroundings_of (nest_of nest.now) (map loop_of loops.now)) }
    ensures loops { IfOk result (λ a. a.loops ≡ map counted_loop (map loop_of loops.now)) }
{
    Ok(Surroundings {
        loops: all_counted(alloc, loops)?,
        symbols: Seq::from_vec(Vec::from_slice(alloc, nest.symbols.as_slice())?),
        may_spread: may_spread(nest),
    })
}

/// The variables of loops.
pub fn loop_names(alloc: Global, loops: &[CountedLoop]) -> Result<Seq<Name>, Memory>
    ensures { IfOk result (λ names. names ≡ loop_names loops.now) }
{
    let mut names = Seq::new(alloc);
    for turns in loops {
        names.push(turns.var)?;
    }
    Ok(names)
}
