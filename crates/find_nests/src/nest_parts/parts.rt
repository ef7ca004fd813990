//! Statements of a program as parts of a nest.
ghost use Rattle.std.specs.Prelude.{◌≡◌, ◌++◌, map, OnErr, OnOk, IfOk};
ghost use Rattle.tree.specs.View.{expression_of, statement_of, tested_of, block_of};
ghost use Rattle.nest.specs.Plain.{Turns, parts};
ghost use Rattle.nest.specs.View.{part_of, branch_of, loop_of};
ghost use Rattle.find_nests.specs.nest_parts.Numbers.{next_loop_number, number_after, after_block};
ghost use Rattle.find_nests.specs.nest_parts.Lists.{after_each, after_list, branch_at, branch_list, parts_list};
ghost use Rattle.find_nests.specs.nest_parts.Statements.{parts_of, parts_of_block, source_loop, step_or_zero};

use nest::{GuardedStmt, Loop, NestArm, Part, copy_ref};
use nest_reasons::step_of;
use std::alloc::Global;
use tree::{Arm, Block, Expr, Memory, Name, Seq, Stmt, both};

fn step_or_zero(step: Option<i64>) -> i64
    ensures { result ≡ step_or_zero step }
{
    match step {
        Some(value) => value,
        None => 0,
    }
}

// A loop as it stands in the source.
fn source_loop(
    alloc: Global,
    number: u32,
    var: Name,
    first: &Expr,
    last: &Expr,
    step: &Expr,
) -> Result<Loop, Memory>
    ensures { IfOk result (λ turns. loop_of turns
        ≡ source_loop number var (expression_of first.now) (expression_of last.now) (expression_of step.now)) }
{
    let (first, last) = both(first.copy(alloc), last.copy(alloc))?;
    Ok(Loop {
        number,
        var,
        first,
        last,
        step: step_or_zero(step_of(step)),
        trip: None,
    })
}

fn next(number: u32) -> u32
    ensures { result ≡ next_loop_number number }
{
    if number < u32::MAX {
        number + 1
    } else {
        number
    }
}

/// The number of the last loop so far, in the order of the text; 0 where there is none.
#[derive(Clone, Copy, Debug)]
pub struct Numbering {
    pub loops: u32,
}

impl Numbering {
    // The parts that a block is. Statements that no nest has are left out.
    #[cycle(parts)]
    #[tactic(auto, using(crate::proofs::NestParts::PartLaws::block_laws))]
    fn block(&mut self, alloc: Global, block: &Block) -> Result<Seq<Part>, Memory>
        ensures parts { IfOk result (λ parts.
            map part_of parts ≡ parts_of_block self.old.loops (block_of block.now)) }
        ensures loops { OnOk result (self.new.loops ≡ after_block self.old.loops (block_of block.now)) }
    {
        self.stmts(alloc, &block.stmts)
    }

    #[cycle(parts)]
    #[tactic(auto, using(crate::proofs::NestParts::PartLaws::part_laws))]
    fn stmts(&mut self, alloc: Global, stmts: &Seq<Stmt>) -> Result<Seq<Part>, Memory>
        ensures parts { IfOk result (λ parts.
            map part_of parts ≡ parts_list self.old.loops (map statement_of stmts.now)) }
        ensures loops { OnOk result (self.new.loops ≡ after_list self.old.loops (map statement_of stmts.now)) }
    {
        let mut parts = Seq::new(alloc);
        for stmt in stmts.as_slice() {
            self.add_stmt(alloc, stmt, &mut parts)?;
        }
        Ok(parts)
    }

    // Adds the part that a statement is. Nothing is added for a statement that no nest has.
    #[cycle(parts)]
    #[tactic(auto, using(crate::proofs::NestParts::PartLaws::part_laws))]
    fn add_stmt(&mut self, alloc: Global, stmt: &Stmt, parts: &mut Seq<Part>) -> Result<(), Memory>
        ensures parts { OnOk result (map part_of parts.new
            ≡ map part_of parts.old ++ parts_of self.old.loops (statement_of stmt.now)) }
        ensures loops { OnOk result (self.new.loops ≡ number_after self.old.loops (statement_of stmt.now)) }
    {
        match stmt {
            Stmt::Assign {
                line,
                left,
                right,
                ..
            } => {
                let (left, right) = both(copy_ref(left, alloc), right.copy(alloc))?;
                parts.push(Part::Run(GuardedStmt {
                    line: *line,
                    guard: None,
                    left,
                    right,
                }))
            }
            Stmt::Masked { .. } => Ok(()),
            Stmt::If { arms, other, .. } => {
                let branches = self.arms(alloc, arms)?;
                let rest = self.block(alloc, other)?;
                parts.push(Part::Choice(branches, rest))
            }
            Stmt::Do {
                var,
                first,
                last,
                step,
                body,
                ..
            } => {
                self.loops = next(self.loops);
                let turns = source_loop(alloc, self.loops, *var, first, last, step);
                let (turns, inside) = both(turns, self.block(alloc, body))?;
                parts.push(Part::Turns(turns, inside))
            }
            Stmt::Label { number } => parts.push(Part::Label(*number)),
            Stmt::Go { number, .. } => parts.push(Part::Jump(*number)),
            Stmt::Stop { .. } => Ok(()),
            Stmt::Read { .. } => Ok(()),
            Stmt::Print { .. } => Ok(()),
            Stmt::Allocate { .. } => Ok(()),
            Stmt::Deallocate { .. } => Ok(()),
        }
    }

    /// A loop as a part, with those in it. Statements that no nest has are left out.
    #[tactic(auto, using(crate::proofs::NestParts::PartLaws::part_laws))]
    pub fn turns(
        &mut self,
        alloc: Global,
        var: Name,
        first: &Expr,
        last: &Expr,
        step: &Expr,
        body: &Block,
    ) -> Result<Part, Memory>
        ensures part { IfOk result (λ part. part_of part
            ≡ Turns (source_loop (next_loop_number self.old.loops) var (expression_of first.now)
            (expression_of last.now)
            (expression_of step.now)) (parts (parts_of_block (next_loop_number self.old.loops) (block_of body.now)))) }
        ensures loops { OnOk result
            (self.new.loops ≡ after_block (next_loop_number self.old.loops) (block_of body.now)) }
        ensures err { OnErr result (self.new ≡ self.old) }
    {
        let mut numbering = *self;
        numbering.pass_over();
        let turns = source_loop(alloc, numbering.loops, var, first, last, step);
        let (turns, inside) = both(turns, numbering.block(alloc, body))?;
        *self = numbering;
        Ok(Part::Turns(turns, inside))
    }

    /// Passes over a loop, but not over those in it.
    pub fn pass_over(&mut self)
        ensures { self.new.loops ≡ next_loop_number self.old.loops }
    {
        self.loops = next(self.loops);
    }

    #[cycle(parts)]
    #[tactic(auto, using(crate::proofs::NestParts::PartLaws::part_laws))]
    fn arms(&mut self, alloc: Global, arms: &Seq<Arm>) -> Result<Seq<NestArm>, Memory>
        ensures branches { IfOk result (λ branches.
            map branch_of branches ≡ branch_list self.old.loops (map tested_of arms.now)) }
        ensures loops { OnOk result (self.new.loops ≡ after_each self.old.loops (map tested_of arms.now)) }
    {
        let mut branches = Seq::new(alloc);
        for arm in arms.as_slice() {
            branches.push(self.arm(alloc, arm)?)?;
        }
        Ok(branches)
    }

    #[cycle(parts)]
    #[tactic(auto, using(crate::proofs::NestParts::PartLaws::part_laws))]
    fn arm(&mut self, alloc: Global, arm: &Arm) -> Result<NestArm, Memory>
        ensures branch { IfOk result (λ branch. branch_of branch ≡ branch_at self.old.loops (tested_of arm.now)) }
        ensures loops { OnOk result (self.new.loops ≡ after_block self.old.loops (tested_of arm.now).body) }
    {
        let body = self.block(alloc, &arm.body)?;
        Ok(NestArm {
            test: arm.test.copy(alloc)?,
            body,
        })
    }
}
