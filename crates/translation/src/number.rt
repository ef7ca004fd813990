//! How many statements there are: they are taken from a number, of which what is left comes back, if it is enough.
ghost use Rattle.std.specs.Prelude.{◌≡◌, ◌+◌, ◌<◌, map, MatchOption};
ghost use Rattle.meaning.specs.Blocks.{statement_count_in, statement_count_in_arms, statement_count_of};
ghost use Rattle.tree.specs.Plain.{block as plain_block};
ghost use Rattle.tree.specs.View.{arms as plain_arms, block_of, statement_of, tested_of};

use tree::{Arm, Block, Seq, Stmt};

#[cycle(number)]
#[tactic(auto, using(crate::proofs::Counts::count_laws))]
fn without_stmt(number: u32, stmt: &Stmt) -> Option<u32>
    ensures { MatchOption result (number < statement_count_of (statement_of stmt.now))
        (λ rest. statement_count_of (statement_of stmt.now) + rest ≡ number) }
{
    let rest = number.checked_sub(1)?;
    match stmt {
        Stmt::If { arms, other, .. } => without_block(without_arms(rest, arms)?, other),
        Stmt::Do { body, .. } => without_block(rest, body),
        Stmt::Assign { .. } => Some(rest),
        Stmt::Masked { .. } => Some(rest),
        Stmt::Label { .. } => Some(rest),
        Stmt::Go { .. } => Some(rest),
        Stmt::Stop { .. } => Some(rest),
        Stmt::Read { .. } => Some(rest),
        Stmt::Print { .. } => Some(rest),
        Stmt::Allocate { .. } => Some(rest),
        Stmt::Deallocate { .. } => Some(rest),
    }
}

#[cycle(number)]
fn without_arms(number: u32, arms: &Seq<Arm>) -> Option<u32>
    ensures { MatchOption result (number < statement_count_in_arms (plain_arms (map tested_of arms.now)))
        (λ rest. statement_count_in_arms (plain_arms (map tested_of arms.now)) + rest ≡ number) }
{
    let mut rest = number;
    for arm in arms.as_slice() {
        rest = without_arm(rest, arm)?;
    }
    Some(rest)
}

#[cycle(number)]
#[tactic(auto, using(crate::proofs::Counts::count_laws))]
fn without_arm(number: u32, arm: &Arm) -> Option<u32>
    ensures { MatchOption result (number < statement_count_in (tested_of arm.now).body)
        (λ rest. statement_count_in (tested_of arm.now).body + rest ≡ number) }
{
    without_block(number, &arm.body)
}

/// The number without the block's statements, if it is large enough.
#[cycle(number)]
#[tactic(auto, using(crate::proofs::Counts::block_laws))]
pub(crate) fn without_block(number: u32, block: &Block) -> Option<u32>
    ensures { MatchOption result (number < statement_count_in (block_of block.now))
        (λ rest. statement_count_in (block_of block.now) + rest ≡ number) }
{
    without_stmts(number, &block.stmts)
}

#[cycle(number)]
fn without_stmts(number: u32, stmts: &Seq<Stmt>) -> Option<u32>
    ensures { MatchOption result (number < statement_count_in (plain_block (map statement_of stmts.now)))
        (λ rest. statement_count_in (plain_block (map statement_of stmts.now)) + rest ≡ number) }
{
    let mut rest = number;
    for stmt in stmts.as_slice() {
        rest = without_stmt(rest, stmt)?;
    }
    Some(rest)
}
