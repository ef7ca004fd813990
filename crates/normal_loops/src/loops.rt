//! The loops of a nest, each with its form from 1 by 1.
ghost use Rattle.std.specs.Prelude.{◌≡◌, ◌≤◌, ◌<◌, ◌<ℤ◌, ◌++◌, ◌∷◌, [], All, length, map, pos, IfOk, IfSome, OnOk};
ghost use Rattle.std.specs.Prelude.{OnSome};
ghost use Rattle.std.specs.List.{flat_map, list_all};
ghost use Rattle.nest.specs.View.{branch_of, part_of};
ghost use Rattle.last_values.specs.Nested.{IsNested};
ghost use Rattle.normal_loops.specs.Loops.{nested, nested_loops};
ghost use Rattle.normal_loops.specs.Normal.{is_normal};
ghost use Rattle.normal_loops.specs.Arms.{is_normal_branch, nested_in_branch};
ghost use Rattle.normal_loops.specs.Loops.{with_loop};

use last_values::NestedLoop;
use last_values::normal_forms::{NormalLoop, normal_loop};
use nest::{NestArm, Part};
use std::alloc::Global;
use tree::{Memory, Name, Seq};

fn pushed(
    alloc: Global,
    round: &[NormalLoop],
    turns: &NormalLoop,
) -> Result<Vec<NormalLoop>, Memory>
    ensures { IfOk result (λ inner. inner.items ≡ round.now ++ turns.now ∷ []) }
{
    let mut inner = Vec::from_slice(alloc, round)?;
    inner.push(*turns)?;
    Ok(inner)
}

/// The loops round what stands in a loop.
pub(crate) fn with_loop(
    alloc: Global,
    round: &[NormalLoop],
    turns: &Option<NormalLoop>,
) -> Result<Vec<NormalLoop>, Memory>
    ensures { IfOk result (λ inner. inner.items ≡ with_loop round.now turns.now) }
{
    let Some(turns) = turns else {
        return Ok(Vec::from_slice(alloc, round)?);
    };
    pushed(alloc, round, turns)
}

/// Whether each loop of a part under these loops has a form from 1 by 1, within the limits.
#[cycle(forms)]
#[tactic(auto, using(crate::proofs::LoopLaws::form_laws))]
pub(crate) fn is_normal(
    alloc: Global,
    symbols: &Seq<Name>,
    round: &[NormalLoop],
    part: &Part,
) -> Result<bool, Memory>
    requires { length symbols.now ≤ 1000 }
    ensures { IfOk result (λ normal. normal ≡ is_normal symbols.now round.now (part_of part.now)) }
{
    match part {
        Part::Run(_) => Ok(true),
        Part::Turns(turns, body) => {
            let Some(normal) = normal_loop(alloc, symbols, round, turns)? else {
                return Ok(false);
            };
            let inner = pushed(alloc, round, &normal)?;
            are_normal(alloc, symbols, inner.as_slice(), body)
        }
        Part::Choice(arms, other) => {
            let in_arms = are_normal_arms(alloc, symbols, round, arms)?;
            let in_other = are_normal(alloc, symbols, round, other)?;
            Ok(in_arms && in_other)
        }
        Part::Label(_) => Ok(true),
        Part::Jump(_) => Ok(true),
    }
}

#[cycle(forms)]
fn are_normal(
    alloc: Global,
    symbols: &Seq<Name>,
    round: &[NormalLoop],
    parts: &Seq<Part>,
) -> Result<bool, Memory>
    requires { length symbols.now ≤ 1000 }
    ensures { IfOk result (λ normal. normal ≡ list_all (is_normal symbols.now round.now) (map part_of parts.now)) }
{
    let mut all = true;
    for part in parts.as_slice() {
        let here = is_normal(alloc, symbols, round, part)?;
        all = all && here;
    }
    Ok(all)
}

#[cycle(forms)]
#[tactic(auto, using(crate::proofs::LoopLaws::form_laws))]
fn is_normal_arm(
    alloc: Global,
    symbols: &Seq<Name>,
    round: &[NormalLoop],
    arm: &NestArm,
) -> Result<bool, Memory>
    requires { length symbols.now ≤ 1000 }
    ensures { IfOk result (λ normal. normal ≡ is_normal_branch symbols.now round.now (branch_of arm.now)) }
{
    are_normal(alloc, symbols, round, &arm.body)
}

#[cycle(forms)]
fn are_normal_arms(
    alloc: Global,
    symbols: &Seq<Name>,
    round: &[NormalLoop],
    arms: &Seq<NestArm>,
) -> Result<bool, Memory>
    requires { length symbols.now ≤ 1000 }
    ensures { IfOk result (λ normal. normal
        ≡ list_all (is_normal_branch symbols.now round.now) (map branch_of arms.now)) }
{
    let mut all = true;
    for arm in arms.as_slice() {
        let here = is_normal_arm(alloc, symbols, round, arm)?;
        all = all && here;
    }
    Ok(all)
}

// Looks at the loops of a nest, each before those in it.
#[derive(Drop)]
struct Loops {
    list: Seq<NestedLoop>,
}

impl Loops {
    #[tactic(auto, using(crate::proofs::LoopLaws::nested_laws))]
    fn add(
        &mut self,
        alloc: Global,
        round: &[NormalLoop],
        turns: &Option<NormalLoop>,
    ) -> Result<(), Memory>
        requires nested { All IsNested self.old.list }
        requires deep { OnSome turns.now (length round.now < 7) }
        requires divisor { IfSome turns.now (λ r. pos 0 <ℤ r.trip.by) }
        ensures list { OnOk result (self.new.list ≡ self.old.list ++ nested round.now turns.now) }
        ensures nested { OnOk result (All IsNested self.new.list) }
    {
        let Some(turns) = turns else {
            return Ok(());
        };
        let round = Seq::from_vec(Vec::from_slice(alloc, round)?);
        self.list.push(NestedLoop {
            round,
            turns: *turns,
        })
    }

    #[cycle(loops)]
    #[tactic(auto, using(crate::proofs::LoopLaws::loop_laws))]
    fn add_part(
        &mut self,
        alloc: Global,
        symbols: &Seq<Name>,
        round: &[NormalLoop],
        part: &Part,
    ) -> Result<(), Memory>
        requires symbols { length symbols.now ≤ 1000 }
        requires nested { All IsNested self.old.list }
        ensures list { OnOk result (self.new.list
            ≡ self.old.list ++ nested_loops symbols.now round.now (part_of part.now)) }
        ensures nested { OnOk result (All IsNested self.new.list) }
    {
        match part {
            Part::Run(_) => Ok(()),
            Part::Turns(turns, body) => {
                let normal = normal_loop(alloc, symbols, round, turns)?;
                self.add(alloc, round, &normal)?;
                let inner = with_loop(alloc, round, &normal)?;
                self.add_parts(alloc, symbols, inner.as_slice(), body)
            }
            Part::Choice(arms, other) => {
                self.add_arms(alloc, symbols, round, arms)?;
                self.add_parts(alloc, symbols, round, other)
            }
            Part::Label(_) => Ok(()),
            Part::Jump(_) => Ok(()),
        }
    }

    #[cycle(loops)]
    fn add_parts(
        &mut self,
        alloc: Global,
        symbols: &Seq<Name>,
        round: &[NormalLoop],
        parts: &Seq<Part>,
    ) -> Result<(), Memory>
        requires symbols { length symbols.now ≤ 1000 }
        requires nested { All IsNested self.old.list }
        ensures list { OnOk result (self.new.list
            ≡ self.old.list ++ flat_map (nested_loops symbols.now round.now) (map part_of parts.now)) }
        ensures nested { OnOk result (All IsNested self.new.list) }
    {
        for part in parts.as_slice() {
            self.add_part(alloc, symbols, round, part)?;
        }
        Ok(())
    }

    #[cycle(loops)]
    #[tactic(auto, using(crate::proofs::LoopLaws::loop_laws))]
    fn add_arm(
        &mut self,
        alloc: Global,
        symbols: &Seq<Name>,
        round: &[NormalLoop],
        arm: &NestArm,
    ) -> Result<(), Memory>
        requires symbols { length symbols.now ≤ 1000 }
        requires nested { All IsNested self.old.list }
        ensures list { OnOk result (self.new.list
            ≡ self.old.list ++ nested_in_branch symbols.now round.now (branch_of arm.now)) }
        ensures nested { OnOk result (All IsNested self.new.list) }
    {
        self.add_parts(alloc, symbols, round, &arm.body)
    }

    #[cycle(loops)]
    fn add_arms(
        &mut self,
        alloc: Global,
        symbols: &Seq<Name>,
        round: &[NormalLoop],
        arms: &Seq<NestArm>,
    ) -> Result<(), Memory>
        requires symbols { length symbols.now ≤ 1000 }
        requires nested { All IsNested self.old.list }
        ensures list { OnOk result (self.new.list
            ≡ self.old.list ++ flat_map (nested_in_branch symbols.now round.now) (map branch_of arms.now)) }
        ensures nested { OnOk result (All IsNested self.new.list) }
    {
        for arm in arms.as_slice() {
            self.add_arm(alloc, symbols, round, arm)?;
        }
        Ok(())
    }
}

/// The loops of a nest, each before those in it.
#[tactic(auto, using(crate::proofs::LoopLaws::nested_laws))]
pub(crate) fn nested_loops(
    alloc: Global,
    symbols: &Seq<Name>,
    body: &Part,
) -> Result<Seq<NestedLoop>, Memory>
    requires { length symbols.now ≤ 1000 }
    ensures list { IfOk result (λ loops. loops ≡ nested_loops symbols.now [] (part_of body.now)) }
    ensures nested { IfOk result (λ loops. All IsNested loops) }
{
    let mut loops = Loops {
        list: Seq::new(alloc),
    };
    loops.add_part(alloc, symbols, &[], body)?;
    Ok(loops.list)
}
