//! Private scalars.
ghost use Rattle.std.specs.Prelude.{◌≡◌, ◌≤◌, ◌++◌, ◌∷◌, [], IfOk, OnOk, length, map, not, ◌==◌};
ghost use Rattle.std.specs.List.{list_all, list_any};
ghost use Rattle.std.specs.Option.{option_map};
ghost use Rattle.std.specs.Str.{bytes_eq};
ghost use Rattle.meaning.specs.Reads.{names_in_subscript};
ghost use Rattle.tree.specs.View.{declaration_of, expression_of, extent_of, reference_of, subscript_of};
ghost use Rattle.nest.specs.Bodies.{nest_statements};
ghost use Rattle.nest.specs.View.{guarded_of, loop_of, made_of, nest_of};
ghost use Rattle.nest.specs.statement_loops.Names.{is_among};
ghost use Rattle.nest.specs.statement_loops.Standings.{standing_of};
ghost use Rattle.indexmap.specs.IndexSet.{insert_key};
ghost use Rattle.last_values.specs.Occurrences.{stands_in_guard, stands_in_left, stands_in_statement};
ghost use Rattle.scalar_expand.specs.Privates.{are_same_loops, expanded_name, begins_anew, begun_by, declared_kind};
ghost use Rattle.scalar_expand.specs.Privates.{is_source, kind_if_bare, kind_of_scalar, made_kind, names_written};
ghost use Rattle.scalar_expand.specs.Privates.{number_behind, private_over, private_among, private_scalar};
ghost use Rattle.scalar_expand.specs.Privates.{private_scalars, privates_named, round_loop, scalar_kind};
ghost use Rattle.scalar_expand.specs.Privates.{stands_only_in, trip_or_none, trips_of};

use crate::extents::{extents_of, number_form};
use indexmap::IndexSet;
use itoa::Buffer;
use nest::statement_loops::{Standing, stands_in, stands_in_sub, statements_of};
use nest::{GuardedStmt, Loop, Made, Nest, Trip};
use std::alloc::Global;
use tree::{Decl, Expr, Extent, Kind, Memory, Name, Ref, Seq, Sub};

/// A loop round a statement: its number, its variable and its trip.
#[derive(Clone, Copy)]
pub struct RoundLoop {
    pub number: u32,
    pub variable: Name,
    pub trip: Trip,
}

/// A scalar that is private to a loop's own body, and the array that takes its place: of the scalar's kind, over the
/// loops round it, with these extents, each from the outside in.
#[derive(Drop)]
pub struct Private {
    pub name: Name,
    pub array: Name,
    pub kind: Kind,
    pub loops: Seq<RoundLoop>,
    pub extents: Seq<Trip>,
}

impl Private {
    /// An equal one.
    pub fn copy(&self, alloc: Global) -> Result<Private, Memory>
        ensures { IfOk result (λ copy. copy ≡ self.now) }
    {
        Ok(Private {
            name: self.name,
            array: self.array,
            kind: self.kind,
            loops: Seq::from_vec(Vec::from_slice(alloc, self.loops.as_slice())?),
            extents: Seq::from_vec(Vec::from_slice(alloc, self.extents.as_slice())?),
        })
    }
}

// ---- names

fn has_no_underscore(text: &[u8]) -> bool
    ensures { result ≡ list_all (λ c. not (c == 95)) text.now }
{
    let Some((first, rest)) = text.split_first() else {
        return true;
    };
    *first != 95 && has_no_underscore(rest)
}

fn is_source(name: Name) -> bool
    ensures { result ≡ is_source name }
{
    let text = name.text();
    text.len() <= 6 && has_no_underscore(text)
}

fn add_number(text: &mut Vec<u8>, number: u32) -> Result<(), Memory>
    ensures { OnOk result (text.new.items ≡ text.old.items ++ number_behind number) }
{
    if number == 1 {
        return Ok(());
    }
    text.extend_from_slice(b"_")?;
    text.extend_from_slice(Buffer::new().format(number).as_bytes())?;
    Ok(())
}

#[tactic(auto, using(crate::proofs::NameLaws::array_is_name))]
fn array_name(alloc: Global, number: u32, name: Name) -> Result<Name, Memory>
    ensures { IfOk result (λ array. array ≡ expanded_name number name) }
{
    if !is_source(name) {
        return Ok(name);
    }
    let mut text = Vec::from_slice(alloc, b"FV_EXP_")?;
    text.extend_from_slice(name.text())?;
    add_number(&mut text, number)?;
    match Name::read(text.as_slice()) {
        Some(array) => Ok(array),
        None => unreachable!(),
    }
}

// ---- kinds

#[tactic(auto, using(crate::proofs::KindLaws::kind_laws))]
fn kind_of_scalar(extent: &Extent, kind: Kind) -> Option<Kind>
    ensures { result ≡ kind_of_scalar (extent_of extent.now) kind }
{
    match extent {
        Extent::Scalar => Some(kind),
        Extent::Fixed(dims) => { if dims.is_empty() { Some(kind) } else { None } }
        Extent::Later(_) => None,
    }
}

fn kind_if_scalar(extents: &[Expr], kind: Kind) -> Option<Kind>
    ensures { result ≡ kind_if_bare (map expression_of extents.now) kind }
{
    if extents.is_empty() { Some(kind) } else { None }
}

fn made_kind(made: &[Made], name: Name) -> Option<Kind>
    ensures { result ≡ made_kind (map made_of made.now) name }
{
    let Some((first, rest)) = made.split_first() else {
        return None;
    };
    if first.name == name {
        return kind_if_scalar(first.extents.as_slice(), first.kind);
    }
    made_kind(rest, name)
}

fn declared_kind(decls: &[Decl], other: Option<Kind>, name: Name) -> Option<Kind>
    ensures { result ≡ declared_kind (map declaration_of decls.now) other name }
{
    let Some((first, rest)) = decls.split_first() else {
        return other;
    };
    if first.name == name {
        return kind_of_scalar(&first.extent, first.kind);
    }
    declared_kind(rest, other, name)
}

fn scalar_kind(nest: &Nest, name: Name) -> Option<Kind>
    ensures { result ≡ scalar_kind (nest_of nest.now) name }
{
    let made = made_kind(nest.made.as_slice(), name);
    declared_kind(nest.decls.as_slice(), made, name)
}

// ---- loops

fn trip_or_none(trip: Option<Trip>) -> Trip
    ensures { result ≡ trip_or_none trip }
{
    match trip {
        Some(trip) => trip,
        None => Trip {
            top: number_form(0),
            by: 0,
        },
    }
}

fn round_loop(turns: &Loop) -> RoundLoop
    ensures { result ≡ round_loop (loop_of turns.now) }
{
    RoundLoop {
        number: turns.number,
        variable: turns.var,
        trip: trip_or_none(turns.trip),
    }
}

fn round_loops(alloc: Global, loops: &[Loop]) -> Result<Seq<RoundLoop>, Memory>
    ensures { IfOk result (λ all. all ≡ map round_loop (map loop_of loops.now)) }
{
    let mut all = Seq::new(alloc);
    for turns in loops {
        all.push(round_loop(turns))?;
    }
    Ok(all)
}

fn trips_of(alloc: Global, loops: &[RoundLoop]) -> Result<Seq<Trip>, Memory>
    ensures { IfOk result (λ trips. trips ≡ trips_of loops.now) }
{
    let mut trips = Seq::new(alloc);
    for turns in loops {
        trips.push(turns.trip)?;
    }
    Ok(trips)
}

fn are_same_loops(first: &[Loop], second: &[Loop]) -> bool
    ensures { result ≡ are_same_loops (map loop_of first.now) (map loop_of second.now) }
{
    let Some((one, first)) = first.split_first() else {
        return second.is_empty();
    };
    let Some((other, second)) = second.split_first() else {
        return false;
    };
    one.number == other.number && are_same_loops(first, second)
}

// ---- where a name stands

fn stands_in_guard(guard: &Option<Expr>, name: Name) -> bool
    ensures { result ≡ stands_in_guard name (option_map expression_of guard.now) }
{
    match guard {
        Some(expr) => stands_in(expr, name),
        None => false,
    }
}

fn stands_in_subs(subs: &[Sub], name: Name) -> bool
    ensures { result ≡ list_any (λ p. is_among (names_in_subscript p) name) (map subscript_of subs.now) }
{
    let Some((first, rest)) = subs.split_first() else {
        return false;
    };
    stands_in_sub(first, name) || stands_in_subs(rest, name)
}

#[tactic(auto, using(nest::proofs::statement_loops::AmongLaws::among_laws))]
fn stands_in_left(left: &Ref, name: Name) -> bool
    ensures { result ≡ stands_in_left name (reference_of left.now) }
{
    left.name == name || stands_in_subs(left.subs.as_slice(), name)
}

fn stands_in_stmt(stmt: &GuardedStmt, name: Name) -> bool
    ensures { result ≡ stands_in_statement name (guarded_of stmt.now) }
{
    stands_in_guard(&stmt.guard, name)
        || stands_in_left(&stmt.left, name)
        || stands_in(&stmt.right, name)
}

// ---- private scalars

#[tactic(auto, using(tree::proofs::Equations::expression_equations))]
fn is_left(left: &Ref, name: Name) -> bool
    ensures { result ≡ bytes_eq (reference_of left.now).name name }
{
    left.name == name
}

fn begins_anew(stmt: &GuardedStmt, name: Name) -> bool
    ensures { result ≡ begins_anew name (guarded_of stmt.now) }
{
    is_left(&stmt.left, name) && stmt.guard.is_none() && !stands_in(&stmt.right, name)
}

fn stands_only_in(standing: &Standing, name: Name, loops: &[Loop]) -> bool
    ensures { result ≡ stands_only_in name (map loop_of loops.now) (standing_of standing.now) }
{
    !stands_in_stmt(&standing.stmt, name) || are_same_loops(standing.loops.as_slice(), loops)
}

fn all_stand_in(standings: &[Standing], name: Name, loops: &[Loop]) -> bool
    ensures { result ≡ list_all (stands_only_in name (map loop_of loops.now)) (map standing_of standings.now) }
{
    let Some((first, rest)) = standings.split_first() else {
        return true;
    };
    stands_only_in(first, name, loops) && all_stand_in(rest, name, loops)
}

fn over_loops(
    alloc: Global,
    nest: &Nest,
    name: Name,
    loops: Seq<RoundLoop>,
) -> Result<Option<Private>, Memory>
    requires { length nest.now.symbols ≤ 1000 }
    ensures { IfOk result (λ private. private ≡ private_over (nest_of nest.now) name loops) }
{
    let Some(kind) = scalar_kind(nest, name) else {
        return Ok(None);
    };
    let trips = trips_of(alloc, loops.as_slice())?;
    let Some(extents) = extents_of(alloc, nest.symbols.len() as u16, trips.as_slice())? else {
        return Ok(None);
    };
    let array = array_name(alloc, nest.number, name)?;
    Ok(Some(Private {
        name,
        array,
        kind,
        loops,
        extents,
    }))
}

fn begun_by(
    alloc: Global,
    nest: &Nest,
    name: Name,
    first: &Standing,
    rest: &[Standing],
) -> Result<Option<Private>, Memory>
    requires { length nest.now.symbols ≤ 1000 }
    ensures { IfOk result (λ private. private
        ≡ begun_by (nest_of nest.now) name (standing_of first.now) (map standing_of rest.now)) }
{
    let loops = first.loops.as_slice();
    if !begins_anew(&first.stmt, name) || !all_stand_in(rest, name, loops) {
        return Ok(None);
    }
    over_loops(alloc, nest, name, round_loops(alloc, loops)?)
}

fn private_among(
    alloc: Global,
    nest: &Nest,
    name: Name,
    standings: &[Standing],
) -> Result<Option<Private>, Memory>
    requires { length nest.now.symbols ≤ 1000 }
    ensures { IfOk result (λ private. private
        ≡ private_among (nest_of nest.now) name (map standing_of standings.now)) }
{
    let Some((first, rest)) = standings.split_first() else {
        return Ok(None);
    };
    if stands_in_stmt(&first.stmt, name) {
        return begun_by(alloc, nest, name, first, rest);
    }
    private_among(alloc, nest, name, rest)
}

fn add_privates(
    alloc: Global,
    nest: &Nest,
    standings: &[Standing],
    names: &[Name],
    privates: &mut Seq<Private>,
) -> Result<(), Memory>
    requires symbols { length nest.now.symbols ≤ 1000 }
    requires standings { map standing_of standings.now ≡ nest_statements (nest_of nest.now) }
    ensures { OnOk result (privates.new ≡ privates.old ++ privates_named (nest_of nest.now) names.now) }
{
    let Some((first, rest)) = names.split_first() else {
        return Ok(());
    };
    if let Some(private) = private_among(alloc, nest, *first, standings)? {
        privates.push(private)?;
    }
    add_privates(alloc, nest, standings, rest, privates)
}

// ---- in the order of the text

fn insert(names: &mut IndexSet<Name>, name: Name) -> Result<(), Memory>
    ensures { OnOk result (names.new.keys ≡ insert_key bytes_eq names.old.keys name) }
{
    names.insert(name)?;
    Ok(())
}

#[tactic(auto, using(tree::proofs::Equations::expression_equations))]
fn add_left(names: &mut IndexSet<Name>, left: &Ref) -> Result<(), Memory>
    ensures { OnOk result (names.new.keys ≡ insert_key bytes_eq names.old.keys (reference_of left.now).name) }
{
    insert(names, left.name)
}

fn add_written(names: &mut IndexSet<Name>, standings: &[Standing]) -> Result<(), Memory>
    ensures { OnOk result (names.new.keys ≡ names_written names.old.keys (map standing_of standings.now)) }
{
    let Some((first, rest)) = standings.split_first() else {
        return Ok(());
    };
    add_left(names, &first.stmt.left)?;
    add_written(names, rest)
}

/// The private scalars of a nest, in the order in which they are written first.
pub fn private_scalars(alloc: Global, nest: &Nest) -> Result<Seq<Private>, Memory>
    requires { length nest.now.symbols ≤ 1000 }
    ensures { IfOk result (λ all. all ≡ private_scalars (nest_of nest.now)) }
{
    let standings = statements_of(alloc, nest)?;
    let mut names = IndexSet::new(alloc);
    add_written(&mut names, standings.as_slice())?;
    let mut privates = Seq::new(alloc);
    add_privates(
        alloc,
        nest,
        standings.as_slice(),
        names.as_slice(),
        &mut privates,
    )?;
    Ok(privates)
}
