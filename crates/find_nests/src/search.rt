//! The search for nests.
ghost use Rattle.std.specs.Prelude.{◌≡◌, ◌≤◌, ◌^◌, ◌++◌, length, map, OnOk, IfOk};
ghost use Rattle.tree.specs.View.{expression_of, statement_of, tested_of, block_of, program_of};
ghost use Rattle.tree.specs.Plain.{no_statements};
ghost use Rattle.nest.specs.View.{nest_of};
ghost use Rattle.find_nests.specs.nest_parts.Numbers.{next_loop_number, number_after, after_block};
ghost use Rattle.find_nests.specs.nest_parts.Lists.{after_each, after_list};
ghost use Rattle.find_nests.specs.Found.{found_among, found_in, nest_of_loop};
ghost use Rattle.find_nests.specs.View.{found_of};
ghost use Rattle.find_nests.specs.Walk.{nests_among, outermost_in, outermost_in_block, outermost_list, outermost_each};

use crate::nest_parts::Numbering;
use crate::reasons::{Reason, reason_over};
use nest::Nest;
use nest_reasons::symbols_of;
use std::alloc::Global;
use tree::{Arm, Block, Expr, Memory, Name, Program77, Seq, Stmt, copy_decls};

/// What is found of a loop that stands in no nest: a nest, or a kept loop by its line and the first reason that holds.
#[derive(Drop)]
pub enum Found {
    Nest(Nest),
    Kept(u32, Reason),
}

// What was found so far, the number of the last loop, and that of the last nest.
#[derive(Drop)]
struct Search {
    found: Seq<Found>,
    loops: Numbering,
    nests: u32,
}

fn next(number: u32) -> u32
    ensures { result ≡ next_loop_number number }
{
    if number < u32::MAX {
        number + 1
    } else {
        number
    }
}

impl Search {
    // A loop is looked at, and those in it where it is kept.
    #[cycle(search)]
    #[tactic(auto, using(crate::proofs::SearchLaws::search_laws))]
    fn stmt(&mut self, alloc: Global, program: &Program77, stmt: &Stmt) -> Result<(), Memory>
        requires { length program.now.decls ≤ 2 ^ 16 }
        ensures found { OnOk result (map found_of self.new.found ≡ map found_of self.old.found
            ++ found_among (program_of program.now) self.old.nests
            (outermost_in (program_of program.now).declarations self.old.loops.loops (statement_of stmt.now))) }
        ensures nests { OnOk result (self.new.nests ≡ nests_among (program_of program.now).declarations self.old.nests
            (outermost_in (program_of program.now).declarations self.old.loops.loops (statement_of stmt.now))) }
        ensures loops { OnOk result (self.new.loops.loops ≡ number_after self.old.loops.loops (statement_of stmt.now)) }
    {
        match stmt {
            Stmt::Assign { .. } => Ok(()),
            Stmt::Masked { .. } => Ok(()),
            Stmt::If { arms, other, .. } => {
                self.arms(alloc, program, arms)?;
                self.block(alloc, program, other)
            }
            Stmt::Do {
                line,
                var,
                first,
                last,
                step,
                body,
            } => {
                let symbols = symbols_of(alloc, &program.decls, *var, body)?;
                let reason = reason_over(alloc, symbols, stmt)?;
                let Some(kept) = reason else {
                    let nest = self.nest(alloc, program, *line, *var, first, last, step, body)?;
                    self.found.push(Found::Nest(nest))?;
                    return Ok(());
                };
                self.found.push(Found::Kept(*line, kept))?;
                self.loops.pass_over();
                self.block(alloc, program, body)?;
                Ok(())
            }
            Stmt::Label { .. } => Ok(()),
            Stmt::Go { .. } => Ok(()),
            Stmt::Stop { .. } => Ok(()),
            Stmt::Read { .. } => Ok(()),
            Stmt::Print { .. } => Ok(()),
            Stmt::Allocate { .. } => Ok(()),
            Stmt::Deallocate { .. } => Ok(()),
        }
    }

    #[cycle(search)]
    fn arms(&mut self, alloc: Global, program: &Program77, arms: &Seq<Arm>) -> Result<(), Memory>
        requires { length program.now.decls ≤ 2 ^ 16 }
        ensures found { OnOk result (map found_of self.new.found ≡ map found_of self.old.found
            ++ found_among (program_of program.now) self.old.nests
            (outermost_each (program_of program.now).declarations self.old.loops.loops (map tested_of arms.now))) }
        ensures nests { OnOk result (self.new.nests ≡ nests_among (program_of program.now).declarations self.old.nests
            (outermost_each (program_of program.now).declarations self.old.loops.loops (map tested_of arms.now))) }
        ensures loops { OnOk result (self.new.loops.loops ≡ after_each self.old.loops.loops (map tested_of arms.now)) }
    {
        for arm in arms.as_slice() {
            self.arm(alloc, program, arm)?;
        }
        Ok(())
    }

    #[cycle(search)]
    #[tactic(auto, using(crate::proofs::SearchLaws::search_laws))]
    fn arm(&mut self, alloc: Global, program: &Program77, arm: &Arm) -> Result<(), Memory>
        requires { length program.now.decls ≤ 2 ^ 16 }
        ensures found { OnOk result (map found_of self.new.found ≡ map found_of self.old.found
            ++ found_among (program_of program.now) self.old.nests
            (outermost_in_block (program_of program.now).declarations self.old.loops.loops (tested_of arm.now).body)) }
        ensures nests { OnOk result (self.new.nests ≡ nests_among (program_of program.now).declarations self.old.nests
            (outermost_in_block (program_of program.now).declarations self.old.loops.loops (tested_of arm.now).body)) }
        ensures loops { OnOk result (self.new.loops.loops
            ≡ after_block self.old.loops.loops (tested_of arm.now).body) }
    {
        self.block(alloc, program, &arm.body)
    }

    #[cycle(search)]
    #[tactic(auto, using(crate::proofs::SearchLaws::block_laws))]
    fn block(&mut self, alloc: Global, program: &Program77, block: &Block) -> Result<(), Memory>
        requires { length program.now.decls ≤ 2 ^ 16 }
        ensures found { OnOk result (map found_of self.new.found ≡ map found_of self.old.found
            ++ found_among (program_of program.now) self.old.nests
            (outermost_in_block (program_of program.now).declarations self.old.loops.loops (block_of block.now))) }
        ensures nests { OnOk result (self.new.nests ≡ nests_among (program_of program.now).declarations self.old.nests
            (outermost_in_block (program_of program.now).declarations self.old.loops.loops (block_of block.now))) }
        ensures loops { OnOk result (self.new.loops.loops ≡ after_block self.old.loops.loops (block_of block.now)) }
    {
        self.stmts(alloc, program, &block.stmts)
    }

    #[cycle(search)]
    fn stmts(&mut self, alloc: Global, program: &Program77, stmts: &Seq<Stmt>) -> Result<(), Memory>
        requires { length program.now.decls ≤ 2 ^ 16 }
        ensures found { OnOk result (map found_of self.new.found ≡ map found_of self.old.found
            ++ found_among (program_of program.now) self.old.nests
            (outermost_list (program_of program.now).declarations self.old.loops.loops (map statement_of stmts.now))) }
        ensures nests { OnOk result (self.new.nests ≡ nests_among (program_of program.now).declarations self.old.nests
            (outermost_list (program_of program.now).declarations self.old.loops.loops (map statement_of stmts.now))) }
        ensures loops { OnOk result (self.new.loops.loops
            ≡ after_list self.old.loops.loops (map statement_of stmts.now)) }
    {
        for stmt in stmts.as_slice() {
            self.stmt(alloc, program, stmt)?;
        }
        Ok(())
    }

    // The loop as the next nest.
    fn nest(
        &mut self,
        alloc: Global,
        program: &Program77,
        line: u32,
        var: Name,
        first: &Expr,
        last: &Expr,
        step: &Expr,
        body: &Block,
    ) -> Result<Nest, Memory>
        ensures nest { IfOk result (λ nest. nest_of nest
            ≡ nest_of_loop (program_of program.now) (next_loop_number self.old.nests)
            (record {
              before = self.old.loops.loops;
              loop = record {
                line = line;
                variable = var;
                first = expression_of first.now;
                last = expression_of last.now;
                step = expression_of step.now;
                body = block_of body.now;
              };
            })) }
        ensures found { OnOk result (self.new.found ≡ self.old.found) }
        ensures nests { OnOk result (self.new.nests ≡ next_loop_number self.old.nests) }
        ensures loops { OnOk result (self.new.loops.loops
            ≡ after_block (next_loop_number self.old.loops.loops) (block_of body.now)) }
    {
        self.nests = next(self.nests);
        let decls = copy_decls(&program.decls, alloc)?;
        let symbols = symbols_of(alloc, &program.decls, var, body)?;
        let turns = self.loops.turns(alloc, var, first, last, step, body)?;
        Ok(Nest {
            number: self.nests,
            line,
            title: program.name,
            body: turns,
            decls,
            symbols,
            made: Seq::new(alloc),
            after: nothing(alloc),
            masks: 0,
            copies: 0,
        })
    }
}

#[tactic(auto, using(tree::proofs::Equations::statement_equations))]
fn nothing(alloc: Global) -> Block
    ensures { block_of result ≡ no_statements }
{
    Block {
        stmts: Seq::new(alloc),
    }
}

/// The nests of a program, and its kept loops, in the order of the text. Each loop is in a nest or kept with the first
/// reason that holds of it; the loops in a kept loop are looked at in turn. Nests are numbered from 1.
pub fn find_nests(alloc: Global, program: &Program77) -> Result<Seq<Found>, Memory>
    requires { length program.now.decls ≤ 2 ^ 16 }
    ensures { IfOk result (λ found. map found_of found ≡ found_in (program_of program.now)) }
{
    let mut search = Search {
        found: Seq::new(alloc),
        loops: Numbering { loops: 0 },
        nests: 0,
    };
    search.block(alloc, program, &program.body)?;
    Ok(search.found)
}
