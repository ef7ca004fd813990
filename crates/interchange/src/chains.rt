//! Chains of loops.
ghost use Rattle.std.specs.Prelude.{◌≡◌, ◌∷◌, ◌++◌, [], Some, IfOk, OnOk, map};
ghost use Rattle.std.specs.Option.{option_map};
ghost use Rattle.nest.specs.Plain.{no_parts, part, parts, Turns};
ghost use Rattle.nest.specs.View.{loop_of, part_of};
ghost use Rattle.interchange.specs.Arranged.{in_order};
ghost use Rattle.interchange.specs.Chains.{are_statements, chain_in, chain_of, in_loops, is_statement_part};
ghost use Rattle.interchange.specs.Chains.{part_in_loops, chain_within};
ghost use Rattle.interchange.specs.View.{chain_of as plain_chain};

use nest::{Loop, Part, copy_parts};
use std::alloc::Global;
use tree::{Memory, Name, Seq};

/// Loops from the outside in, each with the next one alone in it, and the statements in the innermost one.
#[derive(Drop)]
pub(crate) struct Chain {
    pub loops: Seq<Loop>,
    pub body: Seq<Part>,
}

#[tactic(auto, using(nest::proofs::Equations::part_equations))]
fn is_statement(part: &Part) -> bool
    ensures { result ≡ is_statement_part (part_of part.now) }
{
    match part {
        Part::Run(_) => true,
        Part::Turns(..) | Part::Choice(..) | Part::Label(_) | Part::Jump(_) => false,
    }
}

fn are_statements(body: &[Part]) -> bool
    ensures { result ≡ are_statements (parts (map part_of body.now)) }
{
    let Some((first, rest)) = body.split_first() else {
        return true;
    };
    is_statement(first) && are_statements(rest)
}

// The chain with one more loop round it.
fn within(alloc: Global, turns: &Loop, chain: Chain) -> Result<Chain, Memory>
    ensures { IfOk result (λ c. Some (plain_chain c) ≡ chain_within (loop_of turns.now) (Some (plain_chain chain))) }
{
    let Chain { loops, body } = chain;
    let mut all = loops.into_vec();
    all.insert(0, turns.copy(alloc)?)?;
    Ok(Chain {
        loops: Seq::from_vec(all),
        body,
    })
}

/// The chain of a part, if it is one.
#[cycle(chains)]
#[tactic(auto, using(nest::proofs::Equations::part_equations))]
pub(crate) fn chain_of(alloc: Global, part: &Part) -> Result<Option<Chain>, Memory>
    ensures { IfOk result (λ c. option_map plain_chain c ≡ chain_of (part_of part.now)) }
{
    match part {
        Part::Turns(turns, body) => match chain_in(alloc, body)? {
            Some(chain) => Ok(Some(within(alloc, turns, chain)?)),
            None => Ok(None),
        },
        Part::Run(_) | Part::Choice(..) | Part::Label(_) | Part::Jump(_) => Ok(None),
    }
}

#[cycle(chains)]
#[tactic(auto, using(crate::proofs::ChainLaws::part_laws))]
fn chain_in(alloc: Global, body: &Seq<Part>) -> Result<Option<Chain>, Memory>
    ensures { IfOk result (λ c. option_map plain_chain c ≡ chain_in (parts (map part_of body.now))) }
{
    let Some((first, rest)) = body.as_slice().split_first() else {
        return Ok(None);
    };
    if are_statements(body.as_slice()) {
        return Ok(Some(Chain {
            loops: Seq::new(alloc),
            body: copy_parts(body, alloc)?,
        }));
    }
    if !rest.is_empty() {
        return Ok(None);
    }
    chain_of(alloc, first)
}

/// The variables of loops.
pub(crate) fn variables_of(alloc: Global, loops: &Seq<Loop>) -> Result<Seq<Name>, Memory>
    ensures { IfOk result (λ names. names ≡ map (λ l. l.variable) (map loop_of loops.now)) }
{
    let mut names = Seq::new(alloc);
    for turns in loops.as_slice() {
        names.push(turns.var)?;
    }
    Ok(names)
}

// Adds the loop of a place, if there is one.
#[tactic(auto, using(crate::proofs::ListLaws::list_laws))]
fn add_loop(alloc: Global, loops: &[Loop], place: usize, new: &mut Seq<Loop>) -> Result<(), Memory>
    ensures { OnOk result (map loop_of new.new ≡ map loop_of new.old ++ in_order (map loop_of loops.now) (place ∷ [])) }
{
    let Some(turns) = loops.get(place) else {
        return Ok(());
    };
    new.push(turns.copy(alloc)?)?;
    Ok(())
}

/// The loops in an order.
pub(crate) fn in_order(alloc: Global, loops: &[Loop], order: &[usize]) -> Result<Seq<Loop>, Memory>
    ensures { IfOk result (λ new. map loop_of new ≡ in_order (map loop_of loops.now) order.now) }
{
    let mut new = Seq::new(alloc);
    for &place in order {
        add_loop(alloc, loops, place, &mut new)?;
    }
    Ok(new)
}

// A loop with a body, as the only part of another.
#[tactic(auto, using(nest::proofs::Equations::part_equations))]
fn only_part(alloc: Global, turns: Loop, body: Seq<Part>) -> Result<Seq<Part>, Memory>
    ensures { IfOk result (λ new. parts (map part_of new)
        ≡ part (Turns (loop_of turns) (parts (map part_of body))) no_parts) }
{
    let mut new = Seq::new(alloc);
    new.push(Part::Turns(turns, body))?;
    Ok(new)
}

// What stands in the loops, each of which has the next one alone in it.
fn in_loops(alloc: Global, loops: &[Loop], body: Seq<Part>) -> Result<Seq<Part>, Memory>
    ensures { IfOk result (λ new. parts (map part_of new)
        ≡ in_loops (map loop_of loops.now) (parts (map part_of body))) }
{
    let Some((turns, rest)) = loops.split_first() else {
        return Ok(body);
    };
    let inner = in_loops(alloc, rest, body)?;
    only_part(alloc, turns.copy(alloc)?, inner)
}

/// The same as one part, or the part `lone` where there is no loop.
#[tactic(auto, using(nest::proofs::Equations::part_equations))]
pub(crate) fn part_in_loops(
    alloc: Global,
    lone: &Part,
    loops: &[Loop],
    body: Seq<Part>,
) -> Result<Part, Memory>
    ensures { IfOk result (λ new. part_of new
        ≡ part_in_loops (part_of lone.now) (map loop_of loops.now) (parts (map part_of body))) }
{
    let Some((turns, rest)) = loops.split_first() else {
        return lone.copy(alloc);
    };
    let inner = in_loops(alloc, rest, body)?;
    Ok(Part::Turns(turns.copy(alloc)?, inner))
}
