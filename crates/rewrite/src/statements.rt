//! Statements and blocks.
ghost use Rattle.std.specs.Prelude.{◌≡◌, ℕ, ℤ, List, map, IfOk};
ghost use Rattle.tree.specs.View.{arms as plain_arms, block_of, expression_of, reference_of, statement_of, tested_of};
ghost use Rattle.tree.specs.Plain.{block as plain_block, expressions};
ghost use Rattle.rewrite.specs.Following.{RunFollows, sequential};
ghost use Rattle.rewrite.specs.Profile.{MakesProfile};
ghost use Rattle.rewrite.specs.Making.{made_expressions, made_left};
ghost use Rattle.rewrite.specs.MadeBlocks.{made_statement, made_arm, made_arms, made_block};
ghost use Rattle.rewrite.specs.Suits.{SuitsBlock};

use crate::Rule;
use crate::items::{rewrite_inputs, rewrite_outputs};
use std::alloc::Global;
use tree::{Arm, Block, Expr, Memory, Ref, Seq, Stmt, both, three};

fn rewrite_left<R: Rule>(alloc: Global, left: &Ref, rule: &mut R) -> Result<Ref, Memory>
    ensures made { IfOk result (λ new. reference_of new ≡ made_left (R.making rule.old) (reference_of left.now)) }
    ensures same { R.making rule.new ≡ R.making rule.old }
{
    let left = rule.parts(alloc, left)?;
    rule.left(alloc, left)
}

fn rewrite_extents<R: Rule>(
    alloc: Global,
    extents: &Seq<Expr>,
    rule: &mut R,
) -> Result<Seq<Expr>, Memory>
    ensures made { IfOk result (λ new. expressions (map expression_of new)
        ≡ made_expressions (R.making rule.old) (expressions (map expression_of extents.now))) }
    ensures same { R.making rule.new ≡ R.making rule.old }
{
    let mut made = Seq::new(alloc);
    for extent in extents.as_slice() {
        made.push(rule.expression(alloc, extent)?)?;
    }
    Ok(made)
}

#[cycle(blocks)]
#[tactic(auto, using(tree::proofs::Equations::statement_equations))]
fn rewrite_statement<R: Rule>(alloc: Global, stmt: &Stmt, rule: &mut R) -> Result<Stmt, Memory>
    ensures made { IfOk result (λ new. statement_of new ≡ made_statement (R.making rule.old) (statement_of stmt.now)) }
    ensures same { R.making rule.new ≡ R.making rule.old }
{
    match stmt {
        Stmt::Assign {
            line,
            mark,
            left,
            right,
        } => {
            let left = rewrite_left(alloc, left, rule);
            let right = rule.expression(alloc, right);
            let (left, right) = both(left, right)?;
            Ok(Stmt::Assign {
                line: *line,
                mark: *mark,
                left,
                right,
            })
        }
        Stmt::Masked {
            line,
            mark,
            mask,
            left,
            right,
        } => {
            let mask = rule.expression(alloc, mask);
            let left = rewrite_left(alloc, left, rule);
            let right = rule.expression(alloc, right);
            let (mask, left, right) = three(mask, left, right)?;
            Ok(Stmt::Masked {
                line: *line,
                mark: *mark,
                mask,
                left,
                right,
            })
        }
        Stmt::If { line, arms, other } => {
            let arms = rewrite_arms(alloc, arms, rule)?;
            let other = rewrite_block(alloc, other, rule)?;
            Ok(Stmt::If {
                line: *line,
                arms,
                other,
            })
        }
        Stmt::Do {
            line,
            var,
            first,
            last,
            step,
            body,
        } => {
            let first = rule.expression(alloc, first);
            let last = rule.expression(alloc, last);
            let step = rule.expression(alloc, step);
            let body = rewrite_block(alloc, body, rule);
            let ((first, last, step), body) = both(three(first, last, step), body)?;
            Ok(Stmt::Do {
                line: *line,
                var: *var,
                first,
                last,
                step,
                body,
            })
        }
        Stmt::Label { number } => Ok(Stmt::Label { number: *number }),
        Stmt::Go { line, number } => Ok(Stmt::Go {
            line: *line,
            number: *number,
        }),
        Stmt::Stop { line } => Ok(Stmt::Stop { line: *line }),
        Stmt::Read { line, items } => {
            let items = rewrite_inputs(alloc, items, rule)?;
            Ok(Stmt::Read { line: *line, items })
        }
        Stmt::Print { line, items } => {
            let items = rewrite_outputs(alloc, items, rule)?;
            Ok(Stmt::Print { line: *line, items })
        }
        Stmt::Allocate {
            line,
            name,
            extents,
        } => {
            let extents = rewrite_extents(alloc, extents, rule)?;
            Ok(Stmt::Allocate {
                line: *line,
                name: *name,
                extents,
            })
        }
        Stmt::Deallocate { line, name } => Ok(Stmt::Deallocate {
            line: *line,
            name: *name,
        }),
    }
}

#[cycle(blocks)]
#[tactic(auto, using(tree::proofs::Equations::statement_equations))]
fn rewrite_arm<R: Rule>(alloc: Global, arm: &Arm, rule: &mut R) -> Result<Arm, Memory>
    ensures made { IfOk result (λ new. tested_of new ≡ made_arm (R.making rule.old) (tested_of arm.now)) }
    ensures same { R.making rule.new ≡ R.making rule.old }
{
    let test = rule.expression(alloc, &arm.test);
    let body = rewrite_block(alloc, &arm.body, rule);
    let (test, body) = both(test, body)?;
    Ok(Arm { test, body })
}

#[cycle(blocks)]
fn rewrite_arms<R: Rule>(alloc: Global, arms: &Seq<Arm>, rule: &mut R) -> Result<Seq<Arm>, Memory>
    ensures made { IfOk result (λ new. plain_arms (map tested_of new)
        ≡ made_arms (R.making rule.old) (plain_arms (map tested_of arms.now))) }
    ensures same { R.making rule.new ≡ R.making rule.old }
{
    let mut made = Seq::new(alloc);
    for arm in arms.as_slice() {
        made.push(rewrite_arm(alloc, arm, rule)?)?;
    }
    Ok(made)
}

#[cycle(blocks)]
fn rewrite_statements<R: Rule>(
    alloc: Global,
    stmts: &Seq<Stmt>,
    rule: &mut R,
) -> Result<Seq<Stmt>, Memory>
    ensures made { IfOk result (λ new. plain_block (map statement_of new)
        ≡ made_block (R.making rule.old) (plain_block (map statement_of stmts.now))) }
    ensures same { R.making rule.new ≡ R.making rule.old }
{
    let mut made = Seq::new(alloc);
    for stmt in stmts.as_slice() {
        made.push(rewrite_statement(alloc, stmt, rule)?)?;
    }
    Ok(made)
}

#[cycle(blocks)]
#[tactic(auto, using(tree::proofs::Equations::statement_equations))]
fn rewrite_block<R: Rule>(alloc: Global, block: &Block, rule: &mut R) -> Result<Block, Memory>
    ensures made { IfOk result (λ new. block_of new ≡ made_block (R.making rule.old) (block_of block.now)) }
    ensures same { R.making rule.new ≡ R.making rule.old }
{
    let stmts = rewrite_statements(alloc, &block.stmts, rule)?;
    Ok(Block { stmts })
}

/// What the rule makes of a tree. Where it suits each node, the run of what was made follows the run of the tree: if
/// that meets no fault, both end the same way, with the same output and the same input left, and with stores that are
/// alike.
///
/// Where the rule keeps kinds, and the names that are declared, what was made of the block of a program is the block of
/// a program; no expression has become deeper than the rule may raise a depth.
pub fn rewrite<R: Rule>(alloc: Global, tree: &Block, rule: &mut R) -> Result<Block, Memory>
    ensures made { IfOk result (λ new. block_of new ≡ made_block (R.making rule.old) (block_of tree.now)) }
    ensures same { R.making rule.new ≡ R.making rule.old }
    ensures follows { IfOk result (λ new. (bits : ℕ) (turns : List ℤ)
        → SuitsBlock (R.making rule.old) (R.suits rule.old) (block_of tree.now)
        → RunFollows (sequential bits) (R.like rule.old bits turns) (block_of tree.now) (block_of new)) }
    ensures profile { IfOk result (λ new.
        MakesProfile (R.making rule.old) (block_of tree.now) (block_of new)) }
{
    rewrite_block(alloc, tree, rule)
}
