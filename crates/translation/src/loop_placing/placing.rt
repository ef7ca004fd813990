//! The statements of a program with blocks in the place of some of its loops.
ghost use Rattle.std.specs.Prelude.{◌≡◌, ◌++◌, None, Some, map, IfOk, OnOk, MatchOption};
ghost use Rattle.tree.specs.Plain.{block as plain_block};
ghost use Rattle.tree.specs.View.{block_of, statement_of, tested_of};
ghost use Rattle.find_nests.specs.nest_parts.Numbers.{number_after, after_block};
ghost use Rattle.find_nests.specs.nest_parts.Lists.{after_each, after_list};
ghost use Rattle.translation.specs.loop_placing.Placing.{block_at, blocks_of, placed_statement, placed_arm};
ghost use Rattle.translation.specs.loop_placing.Placing.{placed_each, placed_in, placed_list, statements_of_block};

use crate::loop_placing::counting::{after_block, next};
use std::alloc::Global;
use tree::{Arm, Block, Memory, Seq, Stmt};

// Blocks for loops, by their numbers.
#[derive(Drop)]
struct Placing<'a> {
    alloc: Global,
    blocks: &'a [Option<Block>],
}

// The block for the loop with this number, if there is one.
fn block_at(blocks: &[Option<Block>], number: u32) -> Option<&Block>
    ensures { MatchOption result (block_at (blocks_of blocks.now) number ≡ None)
        (λ b. block_at (blocks_of blocks.now) number ≡ Some (block_of b.now)) }
{
    blocks.get(number.saturating_sub(1) as usize)?.as_ref()
}

// Puts the statements of a block behind others.
#[tactic(auto, using(crate::proofs::LoopPlacing::PlaceLaws::append_laws))]
fn append(made: &mut Seq<Stmt>, more: Block) -> Result<(), Memory>
    ensures { OnOk result
        (map statement_of made.new ≡ map statement_of made.old ++ statements_of_block (block_of more)) }
{
    let Block { stmts } = more;
    for stmt in stmts.into_vec() {
        made.push(stmt)?;
    }
    Ok(())
}

// Each takes the number of the last loop before a part of the program, and leaves that of the last loop in it.
impl Placing<'_> {
    #[cycle(placing)]
    #[tactic(auto, using(crate::proofs::LoopPlacing::PlaceLaws::place_laws))]
    fn stmt(&self, stmt: Stmt, loops: &mut u32, made: &mut Seq<Stmt>) -> Result<(), Memory>
        ensures made { OnOk result (map statement_of made.new ≡ map statement_of made.old
            ++ placed_statement (blocks_of self.now.blocks.now) loops.old (statement_of stmt)) }
        ensures loops { OnOk result (loops.new ≡ number_after loops.old (statement_of stmt)) }
    {
        match stmt {
            Stmt::If { line, arms, other } => {
                let arms = self.arms(arms, loops)?;
                let other = self.block(other, loops)?;
                made.push(Stmt::If { line, arms, other })
            }
            Stmt::Do {
                line,
                var,
                first,
                last,
                step,
                body,
            } => {
                *loops = next(*loops);
                match block_at(self.blocks, *loops) {
                    Some(instead) => {
                        *loops = after_block(*loops, &body);
                        let copy = instead.copy(self.alloc)?;
                        append(made, copy)
                    }
                    None => {
                        let body = self.block(body, loops)?;
                        made.push(Stmt::Do {
                            line,
                            var,
                            first,
                            last,
                            step,
                            body,
                        })
                    }
                }
            }
            Stmt::Assign { .. } => made.push(stmt),
            Stmt::Masked { .. } => made.push(stmt),
            Stmt::Label { .. } => made.push(stmt),
            Stmt::Go { .. } => made.push(stmt),
            Stmt::Stop { .. } => made.push(stmt),
            Stmt::Read { .. } => made.push(stmt),
            Stmt::Print { .. } => made.push(stmt),
            Stmt::Allocate { .. } => made.push(stmt),
            Stmt::Deallocate { .. } => made.push(stmt),
        }
    }

    #[cycle(placing)]
    #[tactic(auto, using(crate::proofs::LoopPlacing::PlaceLaws::list_laws))]
    fn arms(&self, arms: Seq<Arm>, loops: &mut u32) -> Result<Seq<Arm>, Memory>
        ensures made { IfOk result (λ made. map tested_of made
            ≡ placed_each (blocks_of self.now.blocks.now) loops.old (map tested_of arms)) }
        ensures loops { OnOk result (loops.new ≡ after_each loops.old (map tested_of arms)) }
    {
        let mut made = Seq::new(self.alloc);
        for arm in arms.into_vec() {
            made.push(self.arm(arm, loops)?)?;
        }
        Ok(made)
    }

    #[cycle(placing)]
    #[tactic(auto, using(crate::proofs::LoopPlacing::PlaceLaws::place_laws))]
    fn arm(&self, arm: Arm, loops: &mut u32) -> Result<Arm, Memory>
        ensures made { IfOk result (λ made. tested_of made
            ≡ placed_arm (blocks_of self.now.blocks.now) loops.old (tested_of arm)) }
        ensures loops { OnOk result (loops.new ≡ after_block loops.old (tested_of arm).body) }
    {
        let Arm { test, body } = arm;
        let body = self.block(body, loops)?;
        Ok(Arm { test, body })
    }

    #[cycle(placing)]
    #[tactic(auto, using(crate::proofs::LoopPlacing::PlaceLaws::block_laws))]
    fn block(&self, block: Block, loops: &mut u32) -> Result<Block, Memory>
        ensures made { IfOk result (λ made. block_of made
            ≡ plain_block (placed_in (blocks_of self.now.blocks.now) loops.old (block_of block))) }
        ensures loops { OnOk result (loops.new ≡ after_block loops.old (block_of block)) }
    {
        let Block { stmts } = block;
        let stmts = self.stmts(stmts, loops)?;
        Ok(Block { stmts })
    }

    #[cycle(placing)]
    #[tactic(auto, using(crate::proofs::LoopPlacing::PlaceLaws::list_laws))]
    fn stmts(&self, stmts: Seq<Stmt>, loops: &mut u32) -> Result<Seq<Stmt>, Memory>
        ensures made { IfOk result (λ made. map statement_of made
            ≡ placed_list (blocks_of self.now.blocks.now) loops.old (map statement_of stmts)) }
        ensures loops { OnOk result (loops.new ≡ after_list loops.old (map statement_of stmts)) }
    {
        let mut made = Seq::new(self.alloc);
        for stmt in stmts.into_vec() {
            self.stmt(stmt, loops, &mut made)?;
        }
        Ok(made)
    }
}

/// The body of a program, in which these blocks stand in the place of loops: the first block, if there is one, in that
/// of the first loop in the order of the text, and so on. Loops in a loop that gives way to a block have no say.
pub fn place(alloc: Global, body: Block, blocks: &[Option<Block>]) -> Result<Block, Memory>
    ensures { IfOk result (λ made. block_of made
        ≡ plain_block (placed_in (blocks_of blocks.now) 0 (block_of body))) }
{
    let placing = Placing { alloc, blocks };
    let mut loops = 0;
    placing.block(body, &mut loops)
}
