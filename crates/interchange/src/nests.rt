//! Nests with their loops moved.
ghost use Rattle.std.specs.Prelude.{◌≡◌, ◌≤◌, ◌^◌, Some, IfOk, map, length};
ghost use Rattle.std.specs.Option.{option_map};
ghost use Rattle.nest.specs.View.{loop_of, made_of, nest_of, part_of};
ghost use Rattle.linear_forms.specs.Canonical.{canonising};
ghost use Rattle.nest_rewrite.specs.Rewritten.{rewritten};
ghost use Rattle.dependence_graph.specs.nest_graph.Ready.{HaveTrips, IsReady};
ghost use Rattle.interchange.specs.Arranged.{arranged_chain, body_in, free_trips_of, with_moved_loops, with_order};
ghost use Rattle.interchange.specs.Chains.{chain_of};
ghost use Rattle.interchange.specs.View.{chain_of as plain_chain};

use crate::chains::{Chain, chain_of, in_order, part_in_loops, variables_of};
use crate::orders::{Known, is_changed};
use crate::reads::read_own_elements;
use crate::trips::trips_of;
use dependence_graph::loop_spans::spans_of;
use form_rules::Canonical;
use nest::{Loop, Made, Nest, Part};
use nest_rewrite::{rewrite_part, with_parts};
use std::alloc::Global;
use subscripts::Dirs;
use tree::{Memory, Name, Seq};

fn copy_names(alloc: Global, names: &Seq<Name>) -> Result<Seq<Name>, Memory>
    ensures { IfOk result (λ copies. copies ≡ names.now) }
{
    Ok(Seq::from_vec(Vec::from_slice(alloc, names.as_slice())?))
}

fn copy_made(alloc: Global, made: &Seq<Made>) -> Result<Seq<Made>, Memory>
    ensures { IfOk result (λ copies. map made_of copies ≡ map made_of made.now) }
{
    let mut copies = Seq::new(alloc);
    for array in made.as_slice() {
        copies.push(array.copy(alloc)?)?;
    }
    Ok(copies)
}

// The part in canonical text, with these loops round it.
fn canonised(
    alloc: Global,
    part: &Part,
    loops: &Seq<Loop>,
    symbols: &Seq<Name>,
) -> Result<Part, Memory>
    requires { length symbols.now ≤ 2 ^ 16 }
    ensures { IfOk result (λ new. part_of new
        ≡ rewritten (canonising (map (λ l. l.variable) (map loop_of loops.now)) symbols.now) (part_of part.now)) }
{
    let mut rule = Canonical {
        loops: variables_of(alloc, loops)?,
        symbols: copy_names(alloc, symbols)?,
    };
    rewrite_part(alloc, part, &mut rule)
}

// The body of the nest with the loops of the chain in this order, in canonical text.
fn body_in(alloc: Global, nest: &Nest, chain: Chain, order: &[usize]) -> Result<Part, Memory>
    requires { IsReady (nest_of nest.now) }
    ensures { IfOk result (λ new. part_of new ≡ body_in (nest_of nest.now) (plain_chain chain) order.now) }
{
    let Chain { loops, body } = chain;
    let ordered = in_order(alloc, loops.as_slice(), order)?;
    let part = part_in_loops(alloc, &nest.body, ordered.as_slice(), body)?;
    canonised(alloc, &part, &ordered, &nest.symbols)
}

// The nest with the loops of its chain in this order.
#[tactic(auto, unfolding(nest_rewrite::specs::Assembled::with_parts))]
fn ordered(alloc: Global, nest: &Nest, chain: Chain, order: &[usize]) -> Result<Nest, Memory>
    requires { IsReady (nest_of nest.now) }
    ensures { IfOk result (λ new. nest_of new
        ≡ record (nest_of nest.now) { body = body_in (nest_of nest.now) (plain_chain chain) order.now }) }
{
    let made = copy_made(alloc, &nest.made)?;
    let after = nest.after.copy(alloc)?;
    let body = body_in(alloc, nest, chain, order)?;
    with_parts(alloc, nest, body, made, after)
}

// The same, where the order is another one than at first.
fn with_order(
    alloc: Global,
    nest: &Nest,
    chain: Chain,
    order: &[usize],
) -> Result<Option<Nest>, Memory>
    requires { IsReady (nest_of nest.now) }
    ensures { IfOk result (λ new. option_map nest_of new
        ≡ with_order (nest_of nest.now) (plain_chain chain) order.now) }
{
    if !is_changed(order) {
        return Ok(None);
    }
    Ok(Some(ordered(alloc, nest, chain, order)?))
}

// The nest with the loops of its chain in the order that the vectors ask for.
fn arrange_chain(
    alloc: Global,
    nest: &Nest,
    vectors: &[Dirs],
    chain: Chain,
) -> Result<Option<Nest>, Memory>
    requires ready { IsReady (nest_of nest.now) }
    requires few { length chain.loops ≤ 7 }
    requires trips { HaveTrips 0 (map loop_of chain.loops) }
    ensures { IfOk result (λ new. option_map nest_of new
        ≡ arranged_chain (nest_of nest.now) vectors.now (plain_chain chain) (free_trips_of (map loop_of chain.loops))) }
{
    let Some(trips) = trips_of(alloc, chain.loops.as_slice())? else {
        return Ok(None);
    };
    let spans = spans_of(alloc, &chain.loops)?;
    let known = Known {
        trips: trips.as_slice(),
        spans: spans.as_slice(),
        vectors,
    };
    let order = known.order(alloc, chain.loops.len())?;
    with_order(alloc, nest, chain, order.as_slice())
}

/// The nest with its loops moved, where one moves: from the outermost place inwards, where the loop there carries none
/// of the vectors, the first loop behind it that does, and that is fit, moves there (Allen and Kennedy, section 5.2).
/// None where no loop moves. The vectors are those of all edges of the nest's graph but antidependences of a statement
/// on itself (`vectors_of`).
#[tactic(auto, using(crate::proofs::ChainLaws::chain_laws), unfolding(crate::specs::Arranged::with_moved_loops))]
pub fn arrange(alloc: Global, nest: &Nest, vectors: &[Dirs]) -> Result<Option<Nest>, Memory>
    requires { IsReady (nest_of nest.now) }
    ensures { IfOk result (λ new. option_map nest_of new ≡ with_moved_loops (nest_of nest.now) vectors.now) }
{
    let Some(chain) = chain_of(alloc, &nest.body)? else {
        return Ok(None);
    };
    if !read_own_elements(alloc, nest)? {
        return Ok(None);
    }
    arrange_chain(alloc, nest, vectors, chain)
}
