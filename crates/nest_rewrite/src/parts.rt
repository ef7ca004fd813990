//! Parts of a nest.
ghost use Rattle.std.specs.Prelude.{◌≡◌, IfOk, map};
ghost use Rattle.tree.specs.View.{expression_of};
ghost use Rattle.rewrite.specs.Making.{made};
ghost use Rattle.nest.specs.Plain.{parts as plain_parts};
ghost use Rattle.nest.specs.View.{loop_of, guarded_of, part_of, branch_of, branches as plain_branches};
ghost use Rattle.nest_rewrite.specs.Rewritten.{rewritten_loop, rewritten, rewritten_parts};
ghost use Rattle.nest_rewrite.specs.Statements.{rewritten_statement};
ghost use Rattle.nest_rewrite.specs.Rewritten.{rewritten_branch, rewritten_branches};

use crate::expressions::{rewrite_guard, rewrite_left};
use nest::{GuardedStmt, Loop, NestArm, Part};
use rewrite::Rule;
use std::alloc::Global;
use tree::{Expr, Memory, Seq, both, three};

fn rewrite_loop<R: Rule>(alloc: Global, turns: &Loop, rule: &mut R) -> Result<Loop, Memory>
    ensures made { IfOk result (λ new. loop_of new ≡ rewritten_loop (R.making rule.old) (loop_of turns.now)) }
    ensures same { R.making rule.new ≡ R.making rule.old }
{
    let first = rule.expression(alloc, &turns.first);
    let last = rule.expression(alloc, &turns.last);
    let (first, last) = both(first, last)?;
    Ok(Loop {
        number: turns.number,
        var: turns.var,
        first,
        last,
        step: turns.step,
        trip: turns.trip,
    })
}

/// What the rule makes of a condition.
pub fn rewrite_test<R: Rule>(alloc: Global, test: &Expr, rule: &mut R) -> Result<Expr, Memory>
    ensures made { IfOk result (λ new. expression_of new ≡ made (R.making rule.old) (expression_of test.now)) }
    ensures same { R.making rule.new ≡ R.making rule.old }
{
    rule.expression(alloc, test)
}

/// What the rule makes of a statement.
pub fn rewrite_stmt<R: Rule>(
    alloc: Global,
    stmt: &GuardedStmt,
    rule: &mut R,
) -> Result<GuardedStmt, Memory>
    ensures made { IfOk result (λ new. guarded_of new ≡ rewritten_statement (R.making rule.old) (guarded_of stmt.now)) }
    ensures same { R.making rule.new ≡ R.making rule.old }
{
    let guard = rewrite_guard(alloc, &stmt.guard, rule);
    let left = rewrite_left(alloc, &stmt.left, rule);
    let right = rule.expression(alloc, &stmt.right);
    let (guard, left, right) = three(guard, left, right)?;
    Ok(GuardedStmt {
        line: stmt.line,
        guard,
        left,
        right,
    })
}

/// What the rule makes of a part.
#[cycle(rewriting_parts)]
#[tactic(auto, using(nest::proofs::Equations::part_equations))]
pub fn rewrite_part<R: Rule>(alloc: Global, part: &Part, rule: &mut R) -> Result<Part, Memory>
    ensures made { IfOk result (λ new. part_of new ≡ rewritten (R.making rule.old) (part_of part.now)) }
    ensures same { R.making rule.new ≡ R.making rule.old }
{
    match part {
        Part::Run(stmt) => Ok(Part::Run(rewrite_stmt(alloc, stmt, rule)?)),
        Part::Turns(turns, body) => {
            let turns = rewrite_loop(alloc, turns, rule);
            let body = rewrite_parts(alloc, body, rule);
            let (turns, body) = both(turns, body)?;
            Ok(Part::Turns(turns, body))
        }
        Part::Choice(arms, other) => {
            let arms = rewrite_arms(alloc, arms, rule)?;
            let other = rewrite_parts(alloc, other, rule)?;
            Ok(Part::Choice(arms, other))
        }
        Part::Label(number) => Ok(Part::Label(*number)),
        Part::Jump(number) => Ok(Part::Jump(*number)),
    }
}

#[cycle(rewriting_parts)]
#[tactic(auto, using(nest::proofs::Equations::part_equations))]
fn rewrite_arm<R: Rule>(alloc: Global, arm: &NestArm, rule: &mut R) -> Result<NestArm, Memory>
    ensures made { IfOk result (λ new. branch_of new ≡ rewritten_branch (R.making rule.old) (branch_of arm.now)) }
    ensures same { R.making rule.new ≡ R.making rule.old }
{
    let test = rewrite_test(alloc, &arm.test, rule);
    let body = rewrite_parts(alloc, &arm.body, rule);
    let (test, body) = both(test, body)?;
    Ok(NestArm { test, body })
}

#[cycle(rewriting_parts)]
fn rewrite_arms<R: Rule>(
    alloc: Global,
    arms: &Seq<NestArm>,
    rule: &mut R,
) -> Result<Seq<NestArm>, Memory>
    ensures made { IfOk result (λ new. plain_branches (map branch_of new)
        ≡ rewritten_branches (R.making rule.old) (plain_branches (map branch_of arms.now))) }
    ensures same { R.making rule.new ≡ R.making rule.old }
{
    let mut made = Seq::new(alloc);
    for arm in arms.as_slice() {
        made.push(rewrite_arm(alloc, arm, rule)?)?;
    }
    Ok(made)
}

/// What the rule makes of parts.
#[cycle(rewriting_parts)]
pub fn rewrite_parts<R: Rule>(
    alloc: Global,
    parts: &Seq<Part>,
    rule: &mut R,
) -> Result<Seq<Part>, Memory>
    ensures made { IfOk result (λ new. plain_parts (map part_of new)
        ≡ rewritten_parts (R.making rule.old) (plain_parts (map part_of parts.now))) }
    ensures same { R.making rule.new ≡ R.making rule.old }
{
    let mut made = Seq::new(alloc);
    for part in parts.as_slice() {
        made.push(rewrite_part(alloc, part, rule)?)?;
    }
    Ok(made)
}
