//! Array forms of statements.
ghost use Rattle.std.specs.Prelude.{◌≡◌, ◌≤◌, ◌<◌, ◌+◌, IfOk, Some, length};
ghost use Rattle.std.specs.Option.{option_map};
ghost use Rattle.tree.specs.View.{block_of, expression_of, reference_of, statement_of};
ghost use Rattle.nest.specs.View.{nest_of};
ghost use Rattle.array_form.specs.forms.Statements.{array_assignment, array_form_of, guarded_form};
ghost use Rattle.array_form.specs.holds.View.{surroundings_view};
ghost use Rattle.array_form.specs.Loops.{AreLoopsOf, HasPlaces, viewed};
ghost use Rattle.array_form.specs.Statement.{HasArrayForm, array_form_at, block_of_one, masked_over, under_condition};

use crate::conditions::with_tests;
use crate::expressions::{form, subscript_forms};
use crate::holds::{CountedLoop, Surroundings, stand_in, surroundings_of};
use crate::loops_in_text::loops_in_order;
use nest::statement_loops::statements_of;
use nest::{GuardedStmt, Nest};
use std::alloc::Global;
use tree::{Arm, Block, Expr, Mark, Memory, Ref, Seq, Stmt, both};

#[tactic(auto, using(crate::proofs::StatementLaws::one_block))]
fn block_of_one(alloc: Global, stmt: Stmt) -> Result<Block, Memory>
    ensures { IfOk result (λ b. block_of b ≡ block_of_one (statement_of stmt)) }
{
    let mut stmts = Seq::new(alloc);
    stmts.push(stmt)?;
    Ok(Block { stmts })
}

#[tactic(auto, using(tree::proofs::Equations::statement_equations))]
fn under_condition(
    alloc: Global,
    line: u32,
    condition: Option<Expr>,
    body: Block,
) -> Result<Block, Memory>
    ensures { IfOk result (λ b. block_of b
        ≡ under_condition line (option_map expression_of condition) (block_of body)) }
{
    match condition {
        None => Ok(body),
        Some(test) => {
            let mut arms = Seq::new(alloc);
            arms.push(Arm { test, body })?;
            let other = Block {
                stmts: Seq::new(alloc),
            };
            block_of_one(alloc, Stmt::If { line, arms, other })
        }
    }
}

// The assignment with the loops from this place on, counted from 0, in array form.
fn formed_assignment(
    alloc: Global,
    a: &Surroundings,
    from: usize,
    mark: Mark,
    stmt: &GuardedStmt,
) -> Result<Stmt, Memory>
    requires places { HasPlaces a.now }
    requires loops { AreLoopsOf a.now a.now.loops }
    requires from { from ≤ length a.now.loops }
    ensures { IfOk result (λ c. statement_of c ≡ array_assignment (surroundings_view a.now) (from + 1) stmt.now.line
        (Some mark) (reference_of stmt.now.left) (expression_of stmt.now.right)) }
{
    let over = loops_in_order(alloc, &a.loops.as_slice()[from..], &stmt.left.subs)?;
    let left = Ref {
        name: stmt.left.name,
        subs: subscript_forms(alloc, a, over.as_slice(), &stmt.left.subs)?,
    };
    let right = form(alloc, a, over.as_slice(), &stmt.right)?;
    Ok(Stmt::Assign {
        line: stmt.line,
        mark: Some(mark),
        left,
        right,
    })
}

// The same where the form of the guard, in which some of the loops `over` stand, is true.
fn masked_assignment(
    alloc: Global,
    a: &Surroundings,
    over: &[CountedLoop],
    mark: Mark,
    stmt: &GuardedStmt,
    guard: &Expr,
) -> Result<Stmt, Memory>
    requires places { HasPlaces a.now }
    requires over { AreLoopsOf a.now over.now }
    ensures { IfOk result (λ c. statement_of c ≡ masked_over (surroundings_view a.now) (viewed a.now over.now)
        stmt.now.line (Some mark) (expression_of guard.now) (reference_of stmt.now.left)
        (expression_of stmt.now.right)) }
{
    let left = Ref {
        name: stmt.left.name,
        subs: subscript_forms(alloc, a, over, &stmt.left.subs)?,
    };
    let (mask, right) = both(
        form(alloc, a, over, guard),
        form(alloc, a, over, &stmt.right),
    )?;
    Ok(Stmt::Masked {
        line: stmt.line,
        mark: Some(mark),
        mask,
        left,
        right,
    })
}

// Under its guard: a WHERE if one of the loops stands in it, else an IF.
fn under_guard(
    alloc: Global,
    a: &Surroundings,
    from: usize,
    mark: Mark,
    stmt: &GuardedStmt,
    guard: &Expr,
) -> Result<Block, Memory>
    requires places { HasPlaces a.now }
    requires loops { AreLoopsOf a.now a.now.loops }
    requires from { from ≤ length a.now.loops }
    ensures { IfOk result (λ b. block_of b ≡ block_of_one (guarded_form (surroundings_view a.now) (from + 1)
        stmt.now.line (Some mark) (Some (expression_of guard.now)) (reference_of stmt.now.left)
        (expression_of stmt.now.right))) }
{
    let over = loops_in_order(alloc, &a.loops.as_slice()[from..], &stmt.left.subs)?;
    if stand_in(over.as_slice(), guard) {
        let masked = masked_assignment(alloc, a, over.as_slice(), mark, stmt, guard)?;
        return block_of_one(alloc, masked);
    }
    let body = block_of_one(alloc, formed_assignment(alloc, a, from, mark, stmt)?)?;
    under_condition(alloc, stmt.line, Some(guard.copy(alloc)?), body)
}

fn guarded_form(
    alloc: Global,
    a: &Surroundings,
    from: usize,
    mark: Mark,
    stmt: &GuardedStmt,
) -> Result<Block, Memory>
    requires places { HasPlaces a.now }
    requires loops { AreLoopsOf a.now a.now.loops }
    requires from { from ≤ length a.now.loops }
    ensures { IfOk result (λ b. block_of b ≡ block_of_one (guarded_form (surroundings_view a.now) (from + 1)
        stmt.now.line (Some mark) (option_map expression_of stmt.now.guard) (reference_of stmt.now.left)
        (expression_of stmt.now.right))) }
{
    match &stmt.guard {
        None => block_of_one(alloc, formed_assignment(alloc, a, from, mark, stmt)?),
        Some(guard) => under_guard(alloc, a, from, mark, stmt, guard),
    }
}

/// An assignment, maybe under a guard, in array form with its loops from this place on, which counts from 0.
pub fn statement_form(
    alloc: Global,
    a: &Surroundings,
    from: usize,
    mark: Mark,
    stmt: &GuardedStmt,
) -> Result<Block, Memory>
    requires places { HasPlaces a.now }
    requires loops { AreLoopsOf a.now a.now.loops }
    requires from { from ≤ length a.now.loops }
    ensures { IfOk result (λ b. block_of b ≡ array_form_of (surroundings_view a.now) (from + 1) stmt.now.line
        (Some mark) (option_map expression_of stmt.now.guard) (reference_of stmt.now.left)
        (expression_of stmt.now.right)) }
{
    let body = guarded_form(alloc, a, from, mark, stmt)?;
    let condition = with_tests(alloc, a, None, &a.loops.as_slice()[from..])?;
    under_condition(alloc, stmt.line, condition, body)
}

/// The array form of a statement of a nest at a level, which counts its loops from the outside in from 1: the loops
/// from there on become array sections, constructors and array functions (ISO/IEC 1539:1991, sections 4.5, 6.2.2 and
/// 13.13), under an IF on those of their trips that aren't positive constants. A guard in which one of these loops
/// stands becomes the mask of a WHERE (7.5.3), and any other guard an IF.
pub fn array_form(alloc: Global, s: u32, nest: &Nest, level: usize) -> Result<Block, Memory>
    requires { HasArrayForm (nest_of nest.now) s level }
    ensures { IfOk result (λ b. block_of b ≡ array_form_at (nest_of nest.now) s level) }
{
    let all = statements_of(alloc, nest)?;
    let standing = &all.as_slice()[s as usize - 1];
    let a = surroundings_of(alloc, nest, &standing.loops)?;
    let mark = Mark {
        nest: nest.number,
        stmt: s,
        level: level as u32,
    };
    statement_form(alloc, &a, level - 1, mark, &standing.stmt)
}
