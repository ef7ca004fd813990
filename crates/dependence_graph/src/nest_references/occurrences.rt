//! The references of a nest.
ghost use Rattle.std.specs.Prelude.{◌≡◌, ◌≤◌, ◌^◌, All, IfOk, OnOk, length, map};
ghost use Rattle.tree.specs.View.{reference_of};
ghost use Rattle.dependence_graph.specs.nest_graph.Ready.{IsReady, IsReadyStatement};
ghost use Rattle.dependence_graph.specs.nest_graph.References.{references_of};
ghost use Rattle.dependence_graph.specs.nest_references.Added.{IsAdded, IsRound};
ghost use Rattle.dependence_graph.specs.nest_references.Occurrences.{AreOccurrences, AreOccurrencesIn, IsOccurrenceOf};
ghost use Rattle.nest.specs.Bodies.{Standing as Stands};
ghost use Rattle.nest.specs.View.{loop_of, nest_of};
ghost use Rattle.nest.specs.statement_loops.Standings.{standing_of};

use crate::graphs::Place;
use crate::loop_spans::spans_of;
use crate::nest_references::collecting::{references_of, variables_of};
use crate::nest_references::forms::forms_of;
use nest::statement_loops::{Standing, statements_of};
use nest::{Loop, Nest};
use std::alloc::Global;
use subscripts::{Affine, Span};
use tree::{Memory, Name, Ref, Seq};

/// A reference of a nest, as it is tested.
#[derive(Drop)]
pub struct Occurrence {
    pub place: Place,
    pub name: Name,
    /// The numbers of the loops round it, from the outside in.
    pub loops: Seq<u32>,
    /// The spans of these loops.
    pub spans: Seq<Span>,
    /// The linear forms of its subscripts; None for one that isn't linear.
    pub forms: Seq<Option<Affine>>,
}

/// What stands round a statement: its number, and its loops.
#[derive(Drop)]
struct Round {
    number: u32,
    names: Seq<Name>,
    loops: Seq<u32>,
    spans: Seq<Span>,
}

// A number of a statement or of a place. More of them than there are numbers don't fit into memory.
fn number_of(count: usize) -> Result<u32, Memory>
    ensures { IfOk result (λ number. number ≡ count) }
{
    match u32::try_from(count) {
        Ok(number) => Ok(number),
        Err(_) => Err(Memory),
    }
}

fn numbers_of(alloc: Global, loops: &Seq<Loop>) -> Result<Seq<u32>, Memory>
    ensures { IfOk result (λ numbers. numbers ≡ map (λ l. l.number) (map loop_of loops.now)) }
{
    let mut numbers = Seq::new(alloc);
    for turns in loops.as_slice() {
        numbers.push(turns.number)?;
    }
    Ok(numbers)
}

fn copy_numbers(alloc: Global, numbers: &Seq<u32>) -> Result<Seq<u32>, Memory>
    ensures { IfOk result (λ copies. copies ≡ numbers.now) }
{
    Ok(Seq::from_vec(Vec::from_slice(alloc, numbers.as_slice())?))
}

fn copy_spans(alloc: Global, spans: &Seq<Span>) -> Result<Seq<Span>, Memory>
    ensures { IfOk result (λ copies. copies ≡ spans.now) }
{
    Ok(Seq::from_vec(Vec::from_slice(alloc, spans.as_slice())?))
}

fn round_of(alloc: Global, number: u32, standing: &Standing) -> Result<Round, Memory>
    requires { IsReadyStatement (standing_of standing.now) }
    ensures number { IfOk result (λ r. r.number ≡ number) }
    ensures loops { IfOk result (λ r. IsRound (standing_of standing.now) r) }
{
    Ok(Round {
        number,
        names: variables_of(alloc, &standing.loops)?,
        loops: numbers_of(alloc, &standing.loops)?,
        spans: spans_of(alloc, &standing.loops)?,
    })
}

impl Round {
    // The reference in this place.
    fn occurrence(
        &self,
        alloc: Global,
        at: u32,
        item: &Ref,
        symbols: &Seq<Name>,
    ) -> Result<Occurrence, Memory>
        requires { length symbols.now ≤ 2 ^ 16 }
        ensures place { IfOk result (λ o. o.place ≡ record { stmt = self.now.number; at = at }) }
        ensures kept { IfOk result (λ o. (s : Stands) → IsRound s self.now
            → IsOccurrenceOf symbols.now s (reference_of item.now) o) }
    {
        Ok(Occurrence {
            place: Place {
                stmt: self.number,
                at,
            },
            name: item.name,
            loops: copy_numbers(alloc, &self.loops)?,
            spans: copy_spans(alloc, &self.spans)?,
            forms: forms_of(alloc, item, self.names.as_slice(), symbols)?,
        })
    }
}

// Adds the references of a statement.
fn add_items(
    list: &mut Seq<Occurrence>,
    alloc: Global,
    round: &Round,
    items: &[Ref],
    symbols: &Seq<Name>,
) -> Result<(), Memory>
    requires { length symbols.now ≤ 2 ^ 16 }
    ensures { OnOk result ((s : Stands) → IsRound s round.now
        → IsAdded symbols.now round.now.number s (map reference_of items.now) list.old list.new) }
{
    for at in 0..items.len() {
        let place = number_of(at)?;
        let occurrence = round.occurrence(alloc, place, &items[at], symbols)?;
        list.push(occurrence)?;
    }
    Ok(())
}

fn add_statement(
    list: &mut Seq<Occurrence>,
    alloc: Global,
    number: u32,
    standing: &Standing,
    symbols: &Seq<Name>,
) -> Result<(), Memory>
    requires ready { IsReadyStatement (standing_of standing.now) }
    requires symbols { length symbols.now ≤ 2 ^ 16 }
    ensures { OnOk result (IsAdded symbols.now number (standing_of standing.now)
        (references_of (standing_of standing.now)) list.old list.new) }
{
    let round = round_of(alloc, number, standing)?;
    let items = references_of(alloc, standing)?;
    add_items(list, alloc, &round, items.as_slice(), symbols)
}

// The references of statements in their order.
fn occurrences_in(
    alloc: Global,
    all: &[Standing],
    symbols: &Seq<Name>,
) -> Result<Seq<Occurrence>, Memory>
    requires ready { All (λ s. IsReadyStatement (standing_of s)) all.now }
    requires symbols { length symbols.now ≤ 2 ^ 16 }
    ensures { IfOk result (λ list. AreOccurrencesIn symbols.now 0 (map standing_of all.now) list) }
{
    let mut list = Seq::new(alloc);
    for at in 0..all.len() {
        let number = number_of(at)?;
        add_statement(&mut list, alloc, number, &all[at], symbols)?;
    }
    Ok(list)
}

/// The references of a nest in their order.
pub fn occurrences_of(alloc: Global, nest: &Nest) -> Result<Seq<Occurrence>, Memory>
    requires { IsReady (nest_of nest.now) }
    ensures { IfOk result (λ all. AreOccurrences (nest_of nest.now) all) }
{
    let all = statements_of(alloc, nest)?;
    occurrences_in(alloc, all.as_slice(), &nest.symbols)
}
