//! How many loops stand in a block.
ghost use Rattle.std.specs.Prelude.{◌≡◌, map};
ghost use Rattle.tree.specs.View.{block_of, statement_of, tested_of};
ghost use Rattle.find_nests.specs.nest_parts.Numbers.{next_loop_number, number_after, after_block};
ghost use Rattle.find_nests.specs.nest_parts.Lists.{after_each, after_list};

use tree::{Arm, Block, Seq, Stmt};

/// The number of the next loop, where so many stand before it.
pub(crate) fn next(number: u32) -> u32
    ensures { result ≡ next_loop_number number }
{
    if number < u32::MAX {
        number + 1
    } else {
        number
    }
}

#[cycle(counting)]
#[tactic(auto, using(crate::proofs::LoopPlacing::CountLaws::count_laws))]
fn after_stmt(number: u32, stmt: &Stmt) -> u32
    ensures { result ≡ number_after number (statement_of stmt.now) }
{
    match stmt {
        Stmt::If { arms, other, .. } => after_block(after_arms(number, arms), other),
        Stmt::Do { body, .. } => after_block(next(number), body),
        Stmt::Assign { .. } => number,
        Stmt::Masked { .. } => number,
        Stmt::Label { .. } => number,
        Stmt::Go { .. } => number,
        Stmt::Stop { .. } => number,
        Stmt::Read { .. } => number,
        Stmt::Print { .. } => number,
        Stmt::Allocate { .. } => number,
        Stmt::Deallocate { .. } => number,
    }
}

#[cycle(counting)]
fn after_arms(number: u32, arms: &Seq<Arm>) -> u32
    ensures { result ≡ after_each number (map tested_of arms.now) }
{
    let mut last = number;
    for arm in arms.as_slice() {
        last = after_arm(last, arm);
    }
    last
}

#[cycle(counting)]
#[tactic(auto, using(crate::proofs::LoopPlacing::CountLaws::count_laws))]
fn after_arm(number: u32, arm: &Arm) -> u32
    ensures { result ≡ after_block number (tested_of arm.now).body }
{
    after_block(number, &arm.body)
}

/// The number of the last loop up to the end of a block, where that before it is given.
#[cycle(counting)]
#[tactic(auto, using(crate::proofs::LoopPlacing::CountLaws::block_laws))]
pub(crate) fn after_block(number: u32, block: &Block) -> u32
    ensures { result ≡ after_block number (block_of block.now) }
{
    after_stmts(number, &block.stmts)
}

#[cycle(counting)]
fn after_stmts(number: u32, stmts: &Seq<Stmt>) -> u32
    ensures { result ≡ after_list number (map statement_of stmts.now) }
{
    let mut last = number;
    for stmt in stmts.as_slice() {
        last = after_stmt(last, stmt);
    }
    last
}
