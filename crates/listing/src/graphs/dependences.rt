//! The texts of dependences, holds and cycles.
ghost use Rattle.std.specs.Prelude.{◌≡◌, ◌++◌, IfOk, OnOk, map, take};
ghost use Rattle.nest.specs.statement_loops.Standings.{standing_of};
ghost use Rattle.listing.specs.graphs.Lines.{HoldEntry, blank_then, dependence_text, entry_text, level_text};
ghost use Rattle.listing.specs.graphs.Lines.{meeting_text, place_text, walk_text};
ghost use Rattle.listing.specs.graphs.Words.{kind_word};
ghost use Rattle.listing.specs.graphs.Listing.{cycle_entry, depth_of, drop_entry, edge_entry, meeting_of, related};

use crate::graphs::texts::{push, push_count, push_statement, push_tuple};
use crate::graphs::words::{hold_word, kind_word, test_word};
use dependence_graph::graphs::{Cycle, Dep, Dropped, Edge, Hold, Place};
use nest::statement_loops::Standing;
use std::alloc::Global;
use subscripts::{Dirs, Point};
use tree::{Memory, Name, Seq};

fn push_place(text: &mut Vec<u8>, place: Place) -> Result<(), Memory>
    ensures { OnOk result (text.new.items ≡ text.old.items ++ place_text place) }
{
    push_statement(text, place.stmt as usize + 1)?;
    push(text, b".")?;
    push_count(text, place.at as usize)
}

// The first ones of a list.
fn first_of<T>(count: usize, list: &[T]) -> &[T]
    ensures { result.now ≡ take count list.now }
{
    list.split_at(count.min(list.len())).0
}

// Both references, with a blank between them.
fn push_ends(text: &mut Vec<u8>, from: Place, to: Place) -> Result<(), Memory>
    ensures { OnOk result (text.new.items ≡ text.old.items ++ (place_text from ++ blank_then (place_text to))) }
{
    push_place(text, from)?;
    push(text, b" ")?;
    push_place(text, to)
}

// What kind it is, and the name of both references.
fn push_kind(text: &mut Vec<u8>, kind: Dep, array: Name) -> Result<(), Memory>
    ensures { OnOk result (text.new.items ≡ text.old.items ++ (kind_word kind ++ blank_then array)) }
{
    push(text, kind_word(kind))?;
    push(text, b" ")?;
    push(text, array.text())
}

fn push_dependence(
    text: &mut Vec<u8>,
    from: Place,
    to: Place,
    kind: Dep,
    array: Name,
    dirs: &Dirs,
) -> Result<(), Memory>
    ensures { OnOk result (text.new.items
        ≡ text.old.items ++ dependence_text (related from to kind array dirs.now)) }
{
    push_ends(text, from, to)?;
    push(text, b" ")?;
    push_kind(text, kind, array)?;
    push(text, b" ")?;
    push_tuple(text, first_of(dirs.len as usize, &dirs.at))
}

fn push_level(text: &mut Vec<u8>, level: u8) -> Result<(), Memory>
    ensures { OnOk result (text.new.items ≡ text.old.items ++ level_text level) }
{
    if level == 0 {
        push(text, b"INDEP")
    } else {
        push_count(text, level as usize)
    }
}

// How many loops are round the statement with this place.
fn depth_of(standings: &Seq<Standing>, s: u32) -> usize
    ensures { result ≡ depth_of (map standing_of standings.now) s }
{
    match standings.as_slice().get(s as usize) {
        Some(standing) => standing.loops.len(),
        None => 0,
    }
}

fn push_meeting(text: &mut Vec<u8>, standings: &Seq<Standing>, edge: &Edge) -> Result<(), Memory>
    ensures { OnOk result (text.new.items
        ≡ text.old.items ++ meeting_text (meeting_of (map standing_of standings.now) edge.now)) }
{
    let Some((first, second)) = edge.pair else {
        return push(text, b"ASSUMED");
    };
    push_tuple(
        text,
        first_of(depth_of(standings, edge.from.stmt), &first.at),
    )?;
    push(text, b" ")?;
    push_tuple(
        text,
        first_of(depth_of(standings, edge.to.stmt), &second.at),
    )
}

#[tactic(auto, unfolding(crate::specs::graphs::Lines::entry_text))]
pub(crate) fn edge_text(
    alloc: Global,
    standings: &Seq<Standing>,
    edge: &Edge,
) -> Result<Vec<u8>, Memory>
    ensures { IfOk result (λ text. text.items ≡ entry_text (edge_entry (map standing_of standings.now) edge.now)) }
{
    let mut text = Vec::from_slice(alloc, b"EDGE ")?;
    push_dependence(
        &mut text, edge.from, edge.to, edge.kind, edge.array, &edge.dirs,
    )?;
    push(&mut text, b" ")?;
    push_level(&mut text, edge.level)?;
    push(&mut text, b" ")?;
    push(&mut text, test_word(edge.test))?;
    push(&mut text, b" ")?;
    push_meeting(&mut text, standings, edge)?;
    Ok(text)
}

#[tactic(auto, unfolding(crate::specs::graphs::Lines::entry_text))]
pub(crate) fn drop_text(alloc: Global, drop: &Dropped) -> Result<Vec<u8>, Memory>
    ensures { IfOk result (λ text. text.items ≡ entry_text (drop_entry drop.now)) }
{
    let mut text = Vec::from_slice(alloc, b"DROP ")?;
    push_dependence(
        &mut text, drop.from, drop.to, drop.kind, drop.array, &drop.dirs,
    )?;
    push(&mut text, b" ")?;
    push(&mut text, test_word(drop.test))?;
    Ok(text)
}

#[tactic(auto, unfolding(crate::specs::graphs::Lines::entry_text))]
pub(crate) fn hold_text(alloc: Global, hold: Hold) -> Result<Vec<u8>, Memory>
    ensures { IfOk result (λ text. text.items ≡ entry_text (HoldEntry hold)) }
{
    let mut text = Vec::from_slice(alloc, b"HOLD ")?;
    push_statement(&mut text, hold.stmt as usize)?;
    push(&mut text, b" ")?;
    push_count(&mut text, hold.level as usize)?;
    push(&mut text, b" ")?;
    push(&mut text, hold_word(hold.reason))?;
    Ok(text)
}

fn push_walk(text: &mut Vec<u8>, stmts: &Seq<u32>) -> Result<(), Memory>
    ensures { OnOk result (text.new.items ≡ text.old.items ++ walk_text stmts.now) }
{
    for s in stmts.as_slice() {
        push(text, b" ")?;
        push_statement(text, *s as usize)?;
    }
    Ok(())
}

#[tactic(auto, unfolding(crate::specs::graphs::Lines::entry_text))]
pub(crate) fn cycle_text(alloc: Global, cycle: &Cycle) -> Result<Vec<u8>, Memory>
    ensures { IfOk result (λ text. text.items ≡ entry_text (cycle_entry cycle.now)) }
{
    let mut text = Vec::from_slice(alloc, b"CYCLE ")?;
    push_count(&mut text, cycle.level as usize)?;
    push_walk(&mut text, &cycle.stmts)?;
    Ok(text)
}
