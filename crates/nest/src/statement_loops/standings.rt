//! Statements with the loops round them.
ghost use Rattle.std.specs.Prelude.{◌≡◌, ◌++◌, ◌∷◌, [], IfOk, OnOk, map};
ghost use Rattle.std.specs.List.{flat_map};
ghost use Rattle.nest.specs.Bodies.{nest_statements, statements_in};
ghost use Rattle.nest.specs.View.{branch_of, guarded_of, loop_of, nest_of, part_of};
ghost use Rattle.nest.specs.statement_loops.Standings.{standing_of, statements_in_branch};

use crate::{GuardedStmt, Loop, Nest, NestArm, Part};
use std::alloc::Global;
use tree::{Memory, Seq};

/// A statement with the loops round it, from the outside in.
#[derive(Drop)]
pub struct Standing {
    pub loops: Seq<Loop>,
    pub stmt: GuardedStmt,
}

#[derive(Drop)]
struct Standings {
    list: Seq<Standing>,
}

fn copy_loops(loops: &Seq<Loop>, alloc: Global) -> Result<Seq<Loop>, Memory>
    ensures { IfOk result (λ copies. map loop_of copies ≡ map loop_of loops.now) }
{
    let mut copies = Seq::new(alloc);
    for turns in loops.as_slice() {
        copies.push(turns.copy(alloc)?)?;
    }
    Ok(copies)
}

// The loops with one more within them.
fn within(alloc: Global, loops: &Seq<Loop>, turns: &Loop) -> Result<Seq<Loop>, Memory>
    ensures { IfOk result (λ all. map loop_of all ≡ map loop_of loops.now ++ loop_of turns.now ∷ []) }
{
    let mut all = copy_loops(loops, alloc)?;
    all.push(turns.copy(alloc)?)?;
    Ok(all)
}

impl Standings {
    fn add_stmt(
        &mut self,
        alloc: Global,
        loops: &Seq<Loop>,
        stmt: &GuardedStmt,
    ) -> Result<(), Memory>
        ensures { OnOk result (map standing_of self.new.list ≡ map standing_of self.old.list
            ++ record { loops = map loop_of loops.now; statement = guarded_of stmt.now } ∷ []) }
    {
        let loops = copy_loops(loops, alloc)?;
        let stmt = stmt.copy(alloc)?;
        self.list.push(Standing { loops, stmt })
    }

    #[cycle(standings)]
    #[tactic(auto, using(crate::proofs::statement_loops::StandingLaws::standing_laws))]
    fn add_part(&mut self, alloc: Global, loops: &Seq<Loop>, part: &Part) -> Result<(), Memory>
        ensures { OnOk result (map standing_of self.new.list ≡ map standing_of self.old.list
            ++ statements_in (map loop_of loops.now) (part_of part.now)) }
    {
        match part {
            Part::Run(stmt) => self.add_stmt(alloc, loops, stmt),
            Part::Turns(turns, body) => {
                let loops = within(alloc, loops, turns)?;
                self.add_parts(alloc, &loops, body)
            }
            Part::Choice(arms, other) => {
                self.add_arms(alloc, loops, arms)?;
                self.add_parts(alloc, loops, other)
            }
            Part::Label(_) => Ok(()),
            Part::Jump(_) => Ok(()),
        }
    }

    #[cycle(standings)]
    fn add_parts(
        &mut self,
        alloc: Global,
        loops: &Seq<Loop>,
        parts: &Seq<Part>,
    ) -> Result<(), Memory>
        ensures { OnOk result (map standing_of self.new.list ≡ map standing_of self.old.list
            ++ flat_map (statements_in (map loop_of loops.now)) (map part_of parts.now)) }
    {
        for part in parts.as_slice() {
            self.add_part(alloc, loops, part)?;
        }
        Ok(())
    }

    #[cycle(standings)]
    #[tactic(auto, using(crate::proofs::statement_loops::StandingLaws::standing_laws))]
    fn add_arm(&mut self, alloc: Global, loops: &Seq<Loop>, arm: &NestArm) -> Result<(), Memory>
        ensures { OnOk result (map standing_of self.new.list ≡ map standing_of self.old.list
            ++ statements_in_branch (map loop_of loops.now) (branch_of arm.now)) }
    {
        self.add_parts(alloc, loops, &arm.body)
    }

    #[cycle(standings)]
    fn add_arms(
        &mut self,
        alloc: Global,
        loops: &Seq<Loop>,
        arms: &Seq<NestArm>,
    ) -> Result<(), Memory>
        ensures { OnOk result (map standing_of self.new.list ≡ map standing_of self.old.list
            ++ flat_map (statements_in_branch (map loop_of loops.now)) (map branch_of arms.now)) }
    {
        for arm in arms.as_slice() {
            self.add_arm(alloc, loops, arm)?;
        }
        Ok(())
    }
}

/// The statements of a nest in the order of the text, each with the loops round it.
pub fn statements_of(alloc: Global, nest: &Nest) -> Result<Seq<Standing>, Memory>
    ensures { IfOk result (λ all. map standing_of all ≡ nest_statements (nest_of nest.now)) }
{
    let mut all = Standings {
        list: Seq::new(alloc),
    };
    all.add_part(alloc, &Seq::new(alloc), &nest.body)?;
    Ok(all.list)
}
