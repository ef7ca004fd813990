//! What is emitted for a part of a nest, class by class.
ghost use Rattle.std.specs.Prelude.{◌≡◌, ◌≤◌, ◌<◌, IfOk, OnOk, length, map};
ghost use Rattle.std.specs.Option.{option_map};
ghost use Rattle.components.specs.Lists.{Distinct};
ghost use Rattle.emission.specs.emission_pieces.Nests.{loops_at};
ghost use Rattle.emission.specs.emission_pieces.Pieces.{formed_block, kept_statement, turning_statement};
ghost use Rattle.tree.specs.Plain.{block};
ghost use Rattle.tree.specs.View.{block_of, expression_of, statement_of};
ghost use Rattle.nest.specs.Allocations.{block_then};
ghost use Rattle.nest.specs.Bodies.{nest_statements};
ghost use Rattle.nest.specs.View.{loop_of};
ghost use Rattle.array_form.specs.Statement.{block_of_one, under_condition};
ghost use Rattle.emission.specs.nest_emission.Blocks.{IsBlockFor, IsBlockInLoop, IsBlockOfPart};
ghost use Rattle.emission.specs.nest_emission.Given.{AreInside, HasLoop, IsClass, IsListedNest, nest_in};

use crate::nest_emission::classes::classes_at;
use crate::nest_emission::source::{ClassForm, ListedNest};
use array_form::holds::surroundings_of;
use array_form::statement_form;
use nest::{Loop, copy_ref};
use std::alloc::Global;
use tree::{Arm, Block, Expr, Memory, Seq, Stmt};

#[tactic(auto, using(array_form::proofs::StatementLaws::one_block))]
fn block_of_one(alloc: Global, stmt: Stmt) -> Result<Block, Memory>
    ensures { IfOk result (λ b. block_of b ≡ block_of_one (statement_of stmt)) }
{
    let mut stmts = Seq::new(alloc);
    stmts.push(stmt)?;
    Ok(Block { stmts })
}

// The block under a guard, if there is one.
fn under_guard(alloc: Global, line: u32, guard: &Option<Expr>, body: Block) -> Result<Block, Memory>
    ensures { IfOk result (λ b. block_of b
        ≡ under_condition line (option_map expression_of guard.now) (block_of body)) }
{
    match guard {
        None => Ok(body),
        Some(condition) => {
            let mut arms = Seq::new(alloc);
            let test = condition.copy(alloc)?;
            arms.push(Arm { test, body })?;
            let other = Block {
                stmts: Seq::new(alloc),
            };
            block_of_one(alloc, Stmt::If { line, arms, other })
        }
    }
}

/// Puts the statements of a block behind others.
#[tactic(auto, using(crate::proofs::nest_emission::BlockLaws::appended))]
pub fn append(stmts: &mut Vec<Stmt>, more: Block) -> Result<(), Memory>
    ensures { OnOk result (block (map statement_of stmts.new.items)
        ≡ block_then (block (map statement_of stmts.old.items)) (block_of more)) }
{
    let Block { stmts: more } = more;
    stmts.append(&mut more.into_vec())?;
    Ok(())
}

impl ListedNest<'_> {
    // A statement as it is, under its guard.
    fn kept_block(&self, number: usize) -> Result<Block, Memory>
        requires source { IsListedNest self.now }
        requires number { number < length (nest_statements (nest_in self.now)) }
        ensures { IfOk result (λ b. block_of b ≡ block_of_one (kept_statement (nest_in self.now) number)) }
    {
        let standing = self.statement(number);
        let mark = self.mark(number, standing.loops.len() + 1);
        let left = copy_ref(&standing.stmt.left, self.alloc)?;
        let right = standing.stmt.right.copy(self.alloc)?;
        let assignment = Stmt::Assign {
            line: standing.stmt.line,
            mark: Some(mark),
            left,
            right,
        };
        let body = block_of_one(self.alloc, assignment)?;
        under_guard(self.alloc, standing.stmt.line, &standing.stmt.guard, body)
    }

    // A statement with its loops from this level on in array form.
    fn formed_block(&self, level: usize, number: usize) -> Result<Block, Memory>
        requires source { IsListedNest self.now }
        requires number { number < length (nest_statements (nest_in self.now)) }
        requires from_one { 1 ≤ level }
        requires level { level ≤ length (loops_at (nest_in self.now) number) }
        ensures { IfOk result (λ b. block_of b ≡ formed_block (nest_in self.now) level number) }
    {
        let standing = self.statement(number);
        let surroundings = surroundings_of(self.alloc, self.nest, &standing.loops)?;
        let mark = self.mark(number, level);
        statement_form(self.alloc, &surroundings, level - 1, mark, &standing.stmt)
    }

    // The block in this loop, which goes from 1 by 1.
    #[tactic(auto, using(crate::proofs::nest_emission::BlockLaws::tree_equations))]
    fn loop_block(&self, turns: &Loop, body: Block) -> Result<Block, Memory>
        ensures { IfOk result (λ b. block_of b
            ≡ block_of_one (turning_statement (nest_in self.now) (loop_of turns.now) (block_of body))) }
    {
        let turning = Stmt::Do {
            line: self.nest.line,
            var: turns.var,
            first: Expr::Int(1),
            last: turns.last.copy(self.alloc)?,
            step: Expr::Int(1),
            body,
        };
        block_of_one(self.alloc, turning)
    }

    // What is emitted for a class at this level in its loop.
    #[cycle(emission)]
    fn turning_block(&self, level: usize, class: &[usize]) -> Result<Block, Memory>
        requires source { IsListedNest self.now }
        requires from_one { 1 ≤ level }
        requires class { IsClass (nest_in self.now) level class.now }
        requires loop_there { HasLoop (nest_in self.now) level class.now }
        ensures { IfOk result (λ b. IsBlockInLoop (nest_in self.now) self.now.edges.now self.now.holds.now level
            class.now (block_of b)) }
    {
        let turns = self.loop_round(level, class);
        let body = self.part_block(level + 1, class)?;
        self.loop_block(turns, body)
    }

    // What is emitted for a class at this level.
    #[cycle(emission)]
    fn class_block(&self, level: usize, class: &[usize]) -> Result<Block, Memory>
        requires source { IsListedNest self.now }
        requires from_one { 1 ≤ level }
        requires class { IsClass (nest_in self.now) level class.now }
        ensures { IfOk result (λ b. IsBlockFor (nest_in self.now) self.now.edges.now self.now.holds.now level class.now
            (block_of b)) }
    {
        match self.way(level, class) {
            ClassForm::Kept(number) => self.kept_block(number),
            ClassForm::Formed(number) => self.formed_block(level, number),
            ClassForm::Turning => self.turning_block(level, class),
        }
    }

    /// What is emitted for a part of the nest at this level.
    #[cycle(emission)]
    pub fn part_block(&self, level: usize, part: &[usize]) -> Result<Block, Memory>
        requires source { IsListedNest self.now }
        requires from_one { 1 ≤ level }
        requires level { level ≤ 8 }
        requires once { Distinct part.now }
        requires inside { AreInside (nest_in self.now) part.now }
        ensures { IfOk result (λ b. IsBlockOfPart (nest_in self.now) self.now.edges.now self.now.holds.now level
            part.now (block_of b)) }
    {
        let classes = classes_at(self.alloc, part, self.edges, level)?;
        let mut stmts = Vec::new(self.alloc);
        for class in classes.as_slice() {
            let block = self.class_block(level, class.as_slice())?;
            append(&mut stmts, block)?;
        }
        Ok(Block {
            stmts: Seq::from_vec(stmts),
        })
    }
}
