//! How deep blocks stand in one another.
ghost use Rattle.std.specs.Prelude.{◌≤◌, ◌↔◌, map, IsTrue};
ghost use Rattle.meaning.specs.Blocks.{blocks_in, blocks_in_arms, blocks_of};
ghost use Rattle.tree.specs.Plain.{block as plain_block};
ghost use Rattle.tree.specs.View.{arms as plain_arms, block_of, statement_of, tested_of};

use tree::{Arm, Block, Seq, Stmt};

#[cycle(depth)]
#[tactic(auto, using(crate::proofs::Depths::depth_laws))]
fn stmt_fits(stmt: &Stmt, depth: u32) -> bool
    ensures { IsTrue result ↔ blocks_of (statement_of stmt.now) ≤ depth }
{
    match stmt {
        Stmt::If { arms, other, .. } => {
            depth > 0 && arms_fit(arms, depth - 1) && block_fits(other, depth - 1)
        }
        Stmt::Do { body, .. } => depth > 0 && block_fits(body, depth - 1),
        Stmt::Assign { .. } => true,
        Stmt::Masked { .. } => true,
        Stmt::Label { .. } => true,
        Stmt::Go { .. } => true,
        Stmt::Stop { .. } => true,
        Stmt::Read { .. } => true,
        Stmt::Print { .. } => true,
        Stmt::Allocate { .. } => true,
        Stmt::Deallocate { .. } => true,
    }
}

#[cycle(depth)]
fn arms_fit(arms: &Seq<Arm>, depth: u32) -> bool
    ensures { IsTrue result ↔ blocks_in_arms (plain_arms (map tested_of arms.now)) ≤ depth }
{
    for arm in arms.as_slice() {
        if !arm_fits(arm, depth) {
            return false;
        }
    }
    true
}

#[cycle(depth)]
#[tactic(auto, using(crate::proofs::Depths::depth_laws))]
fn arm_fits(arm: &Arm, depth: u32) -> bool
    ensures { IsTrue result ↔ blocks_in (tested_of arm.now).body ≤ depth }
{
    block_fits(&arm.body, depth)
}

/// Whether at most so many blocks stand in one another.
#[cycle(depth)]
#[tactic(auto, using(crate::proofs::Depths::block_laws))]
pub(crate) fn block_fits(block: &Block, depth: u32) -> bool
    ensures { IsTrue result ↔ blocks_in (block_of block.now) ≤ depth }
{
    stmts_fit(&block.stmts, depth)
}

#[cycle(depth)]
fn stmts_fit(stmts: &Seq<Stmt>, depth: u32) -> bool
    ensures { IsTrue result ↔ blocks_in (plain_block (map statement_of stmts.now)) ≤ depth }
{
    for stmt in stmts.as_slice() {
        if !stmt_fits(stmt, depth) {
            return false;
        }
    }
    true
}
