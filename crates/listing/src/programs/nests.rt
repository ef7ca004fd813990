//! The lines of a nest.
ghost use Rattle.std.specs.Prelude.{◌≡◌, IfOk, List, Some, map};
ghost use Rattle.std.specs.Option.{option_map};
ghost use Rattle.dependence_graph.specs.nest_graph.Graph.{IsGraphOf};
ghost use Rattle.dependence_graph.specs.nest_graph.Ready.{IsReady};
ghost use Rattle.emission.specs.nest_emission.Given.{MayBeEmitted};
ghost use Rattle.f90_print.specs.Notes.{line_text};
ghost use Rattle.find_nests.specs.Found.{InNest};
ghost use Rattle.if_convert.specs.Converted.{converted_nest};
ghost use Rattle.interchange.specs.Arranged.{arranged, vectors_of, with_moved_loops};
ghost use Rattle.normal_loops.specs.Normalised.{normalised};
ghost use Rattle.nest.specs.View.{nest_of};
ghost use Rattle.subscripts.specs.declared.affine.Dirs.{Dirs};
ghost use Rattle.listing.specs.programs.Listed.{IsListedAs};
ghost use Rattle.listing.specs.programs.Passed.{IsAnewOf, IsArrangedAs, IsExpandedOf, IsPassed, IsSubstitutedOf};
ghost use Rattle.listing.specs.programs.Passed.{IsSplitOf, IsUnexpanded};
ghost use Rattle.listing.specs.programs.Sources.{IsNestOfSource, IsNormalOfSource};
ghost use Rattle.listing.specs.programs.Stages.{IsSplitBy, with_copies_before};
ghost use Rattle.listing.specs.programs.Testable.{AreTestsOf, MayBeListed, MayBeSplitReady};
ghost use Rattle.tree.specs.declared.width.Width.TheVariants.{Wide};

use crate::graphs::lines;
use crate::programs::counts::{Counts, check_counts};
use array_form::holds::all_holds;
use dependence_graph::dep_graph::graph;
use dependence_graph::graphs::{Graph, Hold};
use emission::nest_emission::cycles;
use if_convert::convert;
use inductions::substitute_inductions;
use interchange::{arrange, vectors_of};
use nest::Nest;
use node_splitting::split_nodes;
use normal_loops::normalise;
use scalar_expand::expand;
use scalar_rename::rename;
use std::alloc::Global;
use symbols_anew::find_symbols;
use tree::{Line, Memory, Seq};

/// What tests say of a nest: its graph, the holds of all its statements, and its lines in a listing.
#[derive(Drop)]
pub struct Tests {
    pub graph: Graph,
    pub holds: Seq<Hold>,
    pub lines: Seq<Line>,
}

// What the tests say of a nest with this graph.
fn tests_with(alloc: Global, number: u32, nest: &Nest, graph: Graph) -> Result<Tests, Memory>
    requires ready { IsReady (nest_of nest.now) }
    requires graph { IsGraphOf (nest_of nest.now) graph }
    requires emitted { MayBeEmitted (nest_of nest.now) graph }
    ensures graph { IfOk result (λ t. t.graph ≡ graph) }
    ensures tests { IfOk result (λ t. AreTestsOf number (nest_of nest.now) t.graph t.holds (map line_text t.lines)) }
{
    let holds = all_holds(alloc, nest)?;
    let cycles = cycles(alloc, nest, &graph, &holds)?;
    let lines = lines(alloc, nest, number, &graph, &holds, &cycles)?;
    Ok(Tests {
        graph,
        holds,
        lines,
    })
}

// Tests a nest that bears this number in the listing.
fn test(alloc: Global, number: u32, nest: &Nest) -> Result<Tests, Memory>
    requires { MayBeListed (nest_of nest.now) }
    ensures { IfOk result (λ t. AreTestsOf number (nest_of nest.now) t.graph t.holds (map line_text t.lines)) }
{
    let graph = graph(alloc, nest)?;
    tests_with(alloc, number, nest, graph)
}

/// What the passes make of a nest that was found: the nest that is listed, and what its tests say. The nest is in a
/// box, so that it is dropped by one call.
#[derive(Drop)]
pub struct Passed {
    pub nest: Box<Nest>,
    pub tests: Tests,
}

// With masks in place of IFs, labels and jumps.
fn converted(alloc: Global, normal: &Nest, masks: u32) -> Result<Box<Nest>, Memory>
    requires { IsNormalOfSource Wide (nest_of normal.now) }
    ensures { IfOk result (λ new. converted_nest masks (nest_of normal.now) ≡ Some (nest_of new.value)) }
{
    match convert(alloc, normal, masks)? {
        Some(made) => Ok(Box::new(alloc, made)?),
        None => unreachable!(),
    }
}

// Conversion leaves statements out, so symbols are found anew behind it.
fn anew(alloc: Global, normal: &Nest, masks: u32) -> Result<Box<Nest>, Memory>
    requires { IsNormalOfSource Wide (nest_of normal.now) }
    ensures { IfOk result (λ new. IsAnewOf masks (nest_of normal.now) (nest_of new.value)) }
{
    let converted = converted(alloc, normal, masks)?;
    find_symbols(alloc, normal, converted)
}

// With forms of the counter in place of inductions. The nest before is dropped here.
fn substituted(alloc: Global, normal: &Nest, masks: u32) -> Result<Nest, Memory>
    requires { IsNormalOfSource Wide (nest_of normal.now) }
    ensures { IfOk result (λ made. IsSubstitutedOf masks (nest_of normal.now) (nest_of made)) }
{
    let before = anew(alloc, normal, masks)?;
    let nest: &Nest = &before;
    // read so that its size is known
    let _masks = nest.masks;
    substitute_inductions(alloc, nest)
}

// What passes make before private scalars become arrays: each range of a scalar's values has a name of its own.
fn unexpanded(alloc: Global, normal: &Nest, masks: u32) -> Result<Box<Nest>, Memory>
    requires { IsNormalOfSource Wide (nest_of normal.now) }
    ensures { IfOk result (λ new. IsUnexpanded masks (nest_of normal.now) (nest_of new.value)) }
{
    let made = substituted(alloc, normal, masks)?;
    let nest = Box::new(alloc, made)?;
    rename(alloc, nest)
}

// The nest that passes make of one whose loops go from 1 by 1, up to arrays for its private scalars. Those between are
// dropped here.
fn expanded_nest(alloc: Global, normal: &Nest, masks: u32) -> Result<Nest, Memory>
    requires { IsNormalOfSource Wide (nest_of normal.now) }
    ensures { IfOk result (λ made. IsExpandedOf masks (nest_of normal.now) (nest_of made)) }
{
    let before = unexpanded(alloc, normal, masks)?;
    let nest: &Nest = &before;
    // read so that its size is known
    let _masks = nest.masks;
    expand(alloc, nest)
}

// ---- splitting

/// A nest with a graph of it.
#[derive(Drop)]
struct Graphed {
    nest: Box<Nest>,
    graph: Graph,
}

fn with_graph(alloc: Global, nest: Box<Nest>) -> Result<Graphed, Memory>
    requires { IsReady (nest_of nest.value) }
    ensures nest { IfOk result (λ r. nest_of r.nest.value ≡ nest_of nest.value) }
    ensures graph { IfOk result (λ r. IsGraphOf (nest_of nest.value) r.graph) }
{
    let read: &Nest = &nest;
    let graph = graph(alloc, read)?;
    Ok(Graphed { nest, graph })
}

// So many copies were made before the nest.
fn counted_from(nest: Nest, copies: u32) -> Nest
    ensures { nest_of result ≡ with_copies_before copies (nest_of nest) }
{
    let mut nest = nest;
    nest.copies = copies;
    nest
}

// The nest with its nodes split by the graph, and a graph of that one. Where nothing is copied, both stay.
fn split(alloc: Global, whole: Graphed) -> Result<Graphed, Memory>
    requires graph { IsGraphOf (nest_of whole.nest.value) whole.graph }
    requires split { MayBeSplitReady (nest_of whole.nest.value) }
    ensures { IfOk result (λ r. IsSplitBy (nest_of whole.nest.value) whole.graph (nest_of r.nest.value) r.graph) }
{
    let before: &Nest = &whole.nest;
    match split_nodes(alloc, before, &whole.graph)? {
        Some(made) => {
            let nest = Box::new(alloc, made)?;
            let read: &Nest = &nest;
            // read so that its size is known
            let _copies = read.copies;
            with_graph(alloc, nest)
        }
        None => Ok(whole),
    }
}

// The nest that passes make of one whose loops go from 1 by 1, up to copies of what is overwritten.
fn split_nest(alloc: Global, normal: &Nest, counts: Counts) -> Result<Graphed, Memory>
    requires { IsNormalOfSource Wide (nest_of normal.now) }
    ensures { IfOk result (λ r. IsSplitOf counts (nest_of normal.now) (nest_of r.nest.value) r.graph) }
{
    let made = expanded_nest(alloc, normal, counts.masks)?;
    let nest = Box::new(alloc, counted_from(made, counts.copies))?;
    let before: &Nest = &nest;
    // read so that its size is known
    let _masks = before.masks;
    let whole = with_graph(alloc, nest)?;
    split(alloc, whole)
}

// ---- loops that move

// The nest with its loops moved by the vectors of its graph, where one moves.
fn moved(alloc: Global, nest: &Nest, graph: &Graph) -> Result<Option<Box<Nest>>, Memory>
    requires { IsReady (nest_of nest.now) }
    ensures { IfOk result (λ new. option_map (λ b. nest_of b.value) new
        ≡ with_moved_loops (nest_of nest.now) (vectors_of graph.now.edges)) }
{
    let vectors = vectors_of(alloc, graph.edges.as_slice())?;
    match arrange(alloc, nest, vectors.as_slice())? {
        Some(made) => Ok(Some(Box::new(alloc, made)?)),
        None => Ok(None),
    }
}

// The nest with its loops moved by this graph, and the tests of that one. Where no loop moves, the nest stays, and the
// graph is the one that is listed.
fn arranged(alloc: Global, number: u32, nest: Box<Nest>, graph: Graph) -> Result<Passed, Memory>
    requires given { MayBeListed (nest_of nest.value) }
    requires graph { IsGraphOf (nest_of nest.value) graph }
    requires moved { (vectors : List Dirs) → MayBeListed (arranged (nest_of nest.value) vectors) }
    ensures { IfOk result (IsArrangedAs number (nest_of nest.value) graph) }
{
    let before: &Nest = &nest;
    match moved(alloc, before, &graph)? {
        Some(made) => {
            let last: &Nest = &made;
            let tests = test(alloc, number, last)?;
            Ok(Passed { nest: made, tests })
        }
        None => {
            let tests = tests_with(alloc, number, before, graph)?;
            Ok(Passed { nest, tests })
        }
    }
}

// By the nest whose loops go from 1 by 1.
fn from_normal(alloc: Global, found: &Nest, normal: &Nest, counts: Counts) -> Result<Passed, Memory>
    requires source { IsNestOfSource Wide (nest_of found.now) }
    requires made { normalised (nest_of found.now) ≡ Some (nest_of normal.now) }
    ensures { IfOk result (IsPassed counts (nest_of found.now)) }
{
    let whole = split_nest(alloc, normal, counts)?;
    let before: &Nest = &whole.nest;
    // read so that their sizes are known
    let _masks = before.masks;
    let _copies = before.copies;
    let passed = arranged(alloc, found.number, whole.nest, whole.graph)?;
    let last: &Nest = &passed.nest;
    check_counts(alloc, last)?;
    Ok(passed)
}

/// What the passes make of a nest that was found, where so many masks and copies were made before in the program. The
/// only caller of passes, so that what is listed is what is translated.
pub fn passes(alloc: Global, found: &Nest, counts: Counts) -> Result<Passed, Memory>
    requires { IsNestOfSource Wide (nest_of found.now) }
    ensures { IfOk result (IsPassed counts (nest_of found.now)) }
{
    match normalise(alloc, found)? {
        Some(normal) => from_normal(alloc, found, &normal, counts),
        None => unreachable!(),
    }
}

/// Lines of a nest or of a kept loop, and what is made in the program up to its end.
#[derive(Drop)]
pub(crate) struct Listed {
    pub lines: Seq<Line>,
    pub counts: Counts,
}

/// The lines of a nest that was found.
pub(crate) fn nest_lines(alloc: Global, found: &Nest, counts: Counts) -> Result<Listed, Memory>
    requires { IsNestOfSource Wide (nest_of found.now) }
    ensures { IfOk result (IsListedAs counts (InNest (nest_of found.now))) }
{
    let passed = passes(alloc, found, counts)?;
    let last: &Nest = &passed.nest;
    let counts = Counts {
        masks: last.masks,
        copies: last.copies,
    };
    let tests = passed.tests;
    Ok(Listed {
        lines: tests.lines,
        counts,
    })
}
