//! The parts of a nest with loops from 1 by 1.
ghost use Rattle.std.specs.Prelude.{◌≡◌, ◌≤◌, ◌++◌, ◌∷◌, [], All, length, map, IfOk, OnOk};
ghost use Rattle.std.specs.List.{flat_map};
ghost use Rattle.nest.specs.View.{branch_of, loop_of, nest_of, part_of};
ghost use Rattle.last_values.specs.Behind.{stands_behind};
ghost use Rattle.last_values.specs.Nested.{IsNested};
ghost use Rattle.normal_loops.specs.Bodies.{normal_part, normal_turns, placed_loop};
ghost use Rattle.normal_loops.specs.Counting.{counting};
ghost use Rattle.normal_loops.specs.Arms.{normal_branch};

use crate::loops::with_loop;
use crate::values::{normal_stmt, normal_test};
use last_values::normal_forms::{NormalLoop, counters_of, normal_loop, trip_text};
use last_values::{NestedLoop, add_parts_before, add_parts_behind, stands_behind};
use nest::{Loop, Nest, NestArm, Part};
use std::alloc::Global;
use tree::{Expr, Memory, Name, Seq};

// The loop, which counts from 1 to its trip by 1.
#[tactic(auto, using(tree::proofs::Equations::expression_equations), unfolding(crate::specs::Counting::counting))]
fn counting(
    alloc: Global,
    symbols: &Seq<Name>,
    round: &[NormalLoop],
    source: &Loop,
    turns: &NormalLoop,
) -> Result<Loop, Memory>
    ensures { IfOk result (λ new. loop_of new ≡ counting symbols.now round.now (loop_of source.now) turns.now) }
{
    let counters = counters_of(alloc, round)?;
    let last = trip_text(alloc, counters.as_slice(), symbols, &[], &turns.trip)?;
    Ok(Loop {
        number: source.number,
        var: turns.counter,
        first: Expr::Int(1),
        last,
        step: 1,
        trip: Some(turns.trip),
    })
}

// Whether the last values of the variable of a loop stand after the nest.
fn ends_behind(
    alloc: Global,
    nest: &Nest,
    loops: &Seq<NestedLoop>,
    variable: Name,
) -> Result<bool, Memory>
    requires symbols { length nest.now.symbols ≤ 1000 }
    requires nested { All IsNested loops.now }
    ensures { IfOk result (λ behind. behind
        ≡ stands_behind (length (nest_of nest.now).symbols) loops.now (nest_of nest.now).body variable) }
{
    let count = nest.symbols.len() as u16;
    stands_behind(alloc, count, loops, &nest.body, variable)
}

// A loop, with its variable's last value where this stands in place.
fn add_placed(
    alloc: Global,
    nest: &Nest,
    loops: &Seq<NestedLoop>,
    round: &[NormalLoop],
    turns: &NormalLoop,
    part: Part,
    made: &mut Seq<Part>,
) -> Result<(), Memory>
    requires symbols { length nest.now.symbols ≤ 1000 }
    requires nested { All IsNested loops.now }
    ensures { OnOk result (map part_of made.new
        ≡ map part_of made.old ++ placed_loop (nest_of nest.now) loops.now round.now turns.now (part_of part)) }
{
    if ends_behind(alloc, nest, loops, turns.variable)? {
        made.push(part)?;
        return Ok(());
    }
    add_parts_before(alloc, &nest.symbols, nest.line, round, turns, made)?;
    made.push(part)?;
    add_parts_behind(alloc, &nest.symbols, nest.line, round, turns, made)
}

// A loop with these parts in it.
#[tactic(auto, using(nest::proofs::Equations::part_equations))]
fn add_turns(
    alloc: Global,
    nest: &Nest,
    loops: &Seq<NestedLoop>,
    round: &[NormalLoop],
    source: &Loop,
    turns: &Option<NormalLoop>,
    body: Seq<Part>,
    made: &mut Seq<Part>,
) -> Result<(), Memory>
    requires symbols { length nest.now.symbols ≤ 1000 }
    requires nested { All IsNested loops.now }
    ensures { OnOk result (map part_of made.new ≡ map part_of made.old
        ++ normal_turns (nest_of nest.now) loops.now round.now (loop_of source.now) turns.now (map part_of body)) }
{
    let Some(turns) = turns else {
        made.push(Part::Turns(source.copy(alloc)?, body))?;
        return Ok(());
    };
    let counting = counting(alloc, &nest.symbols, round, source, turns)?;
    let part = Part::Turns(counting, body);
    add_placed(alloc, nest, loops, round, turns, part, made)
}

/// What stands for a part under these loops.
#[cycle(bodies)]
#[tactic(auto, using(crate::proofs::BodyLaws::body_laws))]
pub(crate) fn add_part(
    alloc: Global,
    nest: &Nest,
    loops: &Seq<NestedLoop>,
    round: &[NormalLoop],
    part: &Part,
    made: &mut Seq<Part>,
) -> Result<(), Memory>
    requires symbols { length nest.now.symbols ≤ 1000 }
    requires nested { All IsNested loops.now }
    ensures { OnOk result (map part_of made.new ≡ map part_of made.old
        ++ normal_part (nest_of nest.now) loops.now round.now (part_of part.now)) }
{
    match part {
        Part::Run(stmt) => {
            let stmt = normal_stmt(alloc, &nest.symbols, round, stmt)?;
            made.push(Part::Run(stmt))
        }
        Part::Turns(turns, body) => {
            let normal = normal_loop(alloc, &nest.symbols, round, turns)?;
            let inner = with_loop(alloc, round, &normal)?;
            let body = normal_parts(alloc, nest, loops, inner.as_slice(), body)?;
            add_turns(alloc, nest, loops, round, turns, &normal, body, made)
        }
        Part::Choice(arms, other) => {
            let arms = normal_arms(alloc, nest, loops, round, arms)?;
            let other = normal_parts(alloc, nest, loops, round, other)?;
            made.push(Part::Choice(arms, other))
        }
        Part::Label(number) => made.push(Part::Label(*number)),
        Part::Jump(number) => made.push(Part::Jump(*number)),
    }
}

#[cycle(bodies)]
fn normal_parts(
    alloc: Global,
    nest: &Nest,
    loops: &Seq<NestedLoop>,
    round: &[NormalLoop],
    parts: &Seq<Part>,
) -> Result<Seq<Part>, Memory>
    requires symbols { length nest.now.symbols ≤ 1000 }
    requires nested { All IsNested loops.now }
    ensures { IfOk result (λ made. map part_of made
        ≡ flat_map (normal_part (nest_of nest.now) loops.now round.now) (map part_of parts.now)) }
{
    let mut made = Seq::new(alloc);
    for part in parts.as_slice() {
        add_part(alloc, nest, loops, round, part, &mut made)?;
    }
    Ok(made)
}

#[cycle(bodies)]
#[tactic(auto, using(crate::proofs::BodyLaws::body_laws))]
fn normal_arm(
    alloc: Global,
    nest: &Nest,
    loops: &Seq<NestedLoop>,
    round: &[NormalLoop],
    arm: &NestArm,
) -> Result<NestArm, Memory>
    requires symbols { length nest.now.symbols ≤ 1000 }
    requires nested { All IsNested loops.now }
    ensures { IfOk result (λ made. branch_of made
        ≡ normal_branch (nest_of nest.now) loops.now round.now (branch_of arm.now)) }
{
    let body = normal_parts(alloc, nest, loops, round, &arm.body)?;
    let test = normal_test(alloc, &nest.symbols, round, &arm.test)?;
    Ok(NestArm { test, body })
}

#[cycle(bodies)]
fn normal_arms(
    alloc: Global,
    nest: &Nest,
    loops: &Seq<NestedLoop>,
    round: &[NormalLoop],
    arms: &Seq<NestArm>,
) -> Result<Seq<NestArm>, Memory>
    requires symbols { length nest.now.symbols ≤ 1000 }
    requires nested { All IsNested loops.now }
    ensures { IfOk result (λ made. map branch_of made
        ≡ map (normal_branch (nest_of nest.now) loops.now round.now) (map branch_of arms.now)) }
{
    let mut made = Seq::new(alloc);
    for arm in arms.as_slice() {
        made.push(normal_arm(alloc, nest, loops, round, arm)?)?;
    }
    Ok(made)
}
