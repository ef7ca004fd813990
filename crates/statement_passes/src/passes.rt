//! Nests in which each statement becomes a list of statements.
ghost use Rattle.std.specs.Prelude.{◌≡◌, ◌+◌, ◌++◌, ◌∷◌, [], ℕ, List, IfOk, OnOk, map};
ghost use Rattle.nest.specs.Plain as plain;
ghost use Rattle.nest.specs.View.{guarded_of, loop_of, nest_of, part_of};
ghost use Rattle.nest_steps.specs.Mapped.{count_in, count_of, mapped_parts_of, mapped_in};
ghost use Rattle.statement_passes.specs.Passes.{mapped_body, mapped_nest};

use crate::made_names::copy_made;
use nest::{GuardedStmt, Loop, Nest, Part};
use nest_rewrite::with_parts;
use std::alloc::Global;
use tree::{Memory, Seq};

/// A pass that makes a list of statements of each statement of a nest. It makes the same at each call.
pub trait StatementPass {
    /// What becomes of a statement, by the loops round it from the outside in, and the number of statements before it.
    ghost each: { Self → List plain.Loop → ℕ → plain.Guarded → List plain.Guarded };

    /// Adds what becomes of a statement.
    fn add_each(
        &mut self,
        alloc: Global,
        loops: &Seq<Loop>,
        number: u32,
        stmt: &GuardedStmt,
        made: &mut Seq<Part>,
    ) -> Result<(), Memory>
        ensures added { OnOk result (map part_of made.new ≡ map part_of made.old
            ++ map plain.Run (each self.old (map loop_of loops.now) number (guarded_of stmt.now))) }
        ensures same { each self.new ≡ each self.old };
}

// More statements than there are numbers don't fit into memory.
fn one_more(number: u32) -> Result<u32, Memory>
    ensures { IfOk result (λ next. next ≡ number + 1) }
{
    match number.checked_add(1) {
        Some(next) => Ok(next),
        None => Err(Memory),
    }
}

fn copy_loops(alloc: Global, loops: &Seq<Loop>) -> Result<Seq<Loop>, Memory>
    ensures { IfOk result (λ copies. map loop_of copies ≡ map loop_of loops.now) }
{
    let mut copies = Seq::new(alloc);
    for turns in loops.as_slice() {
        copies.push(turns.copy(alloc)?)?;
    }
    Ok(copies)
}

/// The loops with one more within them.
pub fn within(alloc: Global, loops: &Seq<Loop>, turns: &Loop) -> Result<Seq<Loop>, Memory>
    ensures { IfOk result (λ all. map loop_of all ≡ map loop_of loops.now ++ loop_of turns.now ∷ []) }
{
    let mut all = copy_loops(alloc, loops)?;
    all.push(turns.copy(alloc)?)?;
    Ok(all)
}

// A part without loops and statements stays.
fn add_copy(alloc: Global, part: &Part, made: &mut Seq<Part>) -> Result<(), Memory>
    ensures { OnOk result (map part_of made.new ≡ map part_of made.old ++ part_of part.now ∷ []) }
{
    made.push(part.copy(alloc)?)
}

#[tactic(auto, using(crate::proofs::PassLaws::turns_laws))]
fn add_turns(
    alloc: Global,
    turns: &Loop,
    body: Seq<Part>,
    made: &mut Seq<Part>,
) -> Result<(), Memory>
    ensures { OnOk result (map part_of made.new ≡ map part_of made.old
        ++ plain.Turns (loop_of turns.now) (plain.parts (map part_of body)) ∷ []) }
{
    made.push(Part::Turns(turns.copy(alloc)?, body))
}

// Adds what becomes of a part under these loops, before which so many statements stand. How many stand before what
// follows it.
#[cycle(mapping)]
#[tactic(auto, using(crate::proofs::PassLaws::mapped_laws))]
fn add_part<S: StatementPass>(
    alloc: Global,
    loops: &Seq<Loop>,
    number: u32,
    part: &Part,
    pass: &mut S,
    made: &mut Seq<Part>,
) -> Result<u32, Memory>
    ensures added { OnOk result (map part_of made.new ≡ map part_of made.old
        ++ mapped_parts_of (S.each pass.old) (map loop_of loops.now) number (part_of part.now)) }
    ensures counted { IfOk result (λ next. next ≡ number + count_of (part_of part.now)) }
    ensures same { S.each pass.new ≡ S.each pass.old }
{
    match part {
        Part::Run(stmt) => {
            pass.add_each(alloc, loops, number, stmt, made)?;
            one_more(number)
        }
        Part::Turns(turns, body) => {
            let inner = within(alloc, loops, turns)?;
            let mut parts = Seq::new(alloc);
            let next = add_parts(alloc, &inner, number, body, pass, &mut parts)?;
            add_turns(alloc, turns, parts, made)?;
            Ok(next)
        }
        Part::Choice(..) | Part::Label(_) | Part::Jump(_) => {
            add_copy(alloc, part, made)?;
            Ok(number)
        }
    }
}

#[cycle(mapping)]
fn add_parts<S: StatementPass>(
    alloc: Global,
    loops: &Seq<Loop>,
    number: u32,
    parts: &Seq<Part>,
    pass: &mut S,
    made: &mut Seq<Part>,
) -> Result<u32, Memory>
    ensures added { OnOk result (map part_of made.new ≡ map part_of made.old
        ++ mapped_in (S.each pass.old) (map loop_of loops.now) number (plain.parts (map part_of parts.now))) }
    ensures counted { IfOk result (λ next. next ≡ number + count_in (plain.parts (map part_of parts.now))) }
    ensures same { S.each pass.new ≡ S.each pass.old }
{
    let mut next = number;
    for part in parts.as_slice() {
        next = add_part(alloc, loops, next, part, pass, made)?;
    }
    Ok(next)
}

#[tactic(auto, using(crate::proofs::PassLaws::body_laws))]
fn mapped_body<S: StatementPass>(alloc: Global, body: &Part, pass: &mut S) -> Result<Part, Memory>
    ensures made { IfOk result (λ new. part_of new ≡ mapped_body (S.each pass.old) (part_of body.now)) }
    ensures same { S.each pass.new ≡ S.each pass.old }
{
    match body {
        Part::Turns(turns, parts) => {
            let loops = within(alloc, &Seq::new(alloc), turns)?;
            let mut made = Seq::new(alloc);
            add_parts(alloc, &loops, 0, parts, pass, &mut made)?;
            Ok(Part::Turns(turns.copy(alloc)?, made))
        }
        Part::Run(_) | Part::Choice(..) | Part::Label(_) | Part::Jump(_) => Ok(body.copy(alloc)?),
    }
}

/// The nest with what the pass makes of each of its statements, in their places; loops stay.
pub fn map_statements<S: StatementPass>(
    alloc: Global,
    nest: &Nest,
    pass: &mut S,
) -> Result<Nest, Memory>
    ensures made { IfOk result (λ new. nest_of new ≡ mapped_nest (S.each pass.old) (nest_of nest.now)) }
    ensures same { S.each pass.new ≡ S.each pass.old }
{
    let made = copy_made(alloc, &nest.made)?;
    let after = nest.after.copy(alloc)?;
    let body = mapped_body(alloc, &nest.body, pass)?;
    with_parts(alloc, nest, body, made, after)
}
