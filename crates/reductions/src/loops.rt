//! Loops from 1 by 1 whose body is one marked assignment that gathers.
ghost use Rattle.std.specs.Prelude.{◌≡◌, map};
ghost use Rattle.std.specs.Option.{option_map};
ghost use Rattle.tree.specs.Plain.{block as plain_block};
ghost use Rattle.tree.specs.View.{block_of, expression_of, reference_of, statement_of};
ghost use Rattle.reductions.specs.Finding.{found_in, is_one, loop_in, marked_assignment, single, with_mark};
ghost use Rattle.reductions.specs.View.{found_of, marked_of};

use crate::gathering::{Gathering, gathered};
use tree::{Block, Expr, Mark, Name, Ref, Stmt};

/// A loop that gathers: its variable and trip, what it gathers in what, its lines and the mark of its assignment.
#[derive(Clone, Copy)]
pub(crate) struct FoundLoop<'a> {
    pub loop_line: u32,
    pub line: u32,
    pub mark: Mark,
    pub variable: Name,
    pub trip: &'a Expr,
    pub left: &'a Ref,
    pub operand: &'a Expr,
    pub how: Gathering,
}

/// A marked assignment.
#[derive(Clone, Copy)]
pub(crate) struct Marked<'a> {
    pub line: u32,
    pub mark: Mark,
    pub left: &'a Ref,
    pub right: &'a Expr,
}

#[tactic(auto, using(tree::proofs::Equations::expression_equations))]
fn is_one(expr: &Expr) -> bool
    ensures { result ≡ is_one (expression_of expr.now) }
{
    match expr {
        Expr::Int(number) => *number == 1,
        Expr::Truth(_)
        | Expr::Item(_)
        | Expr::Un(..)
        | Expr::Bin(..)
        | Expr::Call(..)
        | Expr::List(..)
        | Expr::Spread(..)
        | Expr::Transpose(_)
        | Expr::Reshape(..)
        | Expr::Reduce(..) => false,
    }
}

fn with_mark<'a>(
    line: u32,
    mark: Option<Mark>,
    left: &'a Ref,
    right: &'a Expr,
) -> Option<Marked<'a>>
    ensures { option_map marked_of result
        ≡ option_map (with_mark line (reference_of left.now) (expression_of right.now)) mark }
{
    let Some(mark) = mark else {
        return None;
    };
    Some(Marked {
        line,
        mark,
        left,
        right,
    })
}

#[tactic(auto, using(tree::proofs::Equations::statement_equations))]
fn marked_assignment(stmt: &Stmt) -> Option<Marked<'_>>
    ensures { option_map marked_of result ≡ marked_assignment (statement_of stmt.now) }
{
    match stmt {
        Stmt::Assign {
            line,
            mark,
            left,
            right,
        } => with_mark(*line, *mark, left, right),
        Stmt::Masked { .. }
        | Stmt::If { .. }
        | Stmt::Do { .. }
        | Stmt::Label { .. }
        | Stmt::Go { .. }
        | Stmt::Stop { .. }
        | Stmt::Read { .. }
        | Stmt::Print { .. }
        | Stmt::Allocate { .. }
        | Stmt::Deallocate { .. } => None,
    }
}

// The one of some statements, where it is a marked assignment.
fn single_of(stmts: &[Stmt]) -> Option<Marked<'_>>
    ensures { option_map marked_of result ≡ single (plain_block (map statement_of stmts.now)) }
{
    let Some((first, rest)) = stmts.split_first() else {
        return None;
    };
    if rest.split_first().is_some() {
        return None;
    }
    marked_assignment(first)
}

// That of a block.
#[tactic(auto, using(tree::proofs::Equations::statement_equations))]
fn single(block: &Block) -> Option<Marked<'_>>
    ensures { option_map marked_of result ≡ single (block_of block.now) }
{
    single_of(block.stmts.as_slice())
}

fn found_in<'a>(
    loop_line: u32,
    variable: Name,
    trip: &'a Expr,
    body: &'a Block,
) -> Option<FoundLoop<'a>>
    ensures { option_map found_of result ≡ found_in loop_line variable (expression_of trip.now) (block_of body.now) }
{
    let Some(assignment) = single(body) else {
        return None;
    };
    let Some(operand) = gathered(assignment.left, assignment.right) else {
        return None;
    };
    Some(FoundLoop {
        loop_line,
        line: assignment.line,
        mark: assignment.mark,
        variable,
        trip,
        left: assignment.left,
        operand: operand.value,
        how: operand.how,
    })
}

/// The loop of a statement, where it gathers by its form.
#[tactic(auto, using(tree::proofs::Equations::statement_equations))]
pub(crate) fn loop_in(stmt: &Stmt) -> Option<FoundLoop<'_>>
    ensures { option_map found_of result ≡ loop_in (statement_of stmt.now) }
{
    match stmt {
        Stmt::Do {
            line,
            var,
            first,
            last,
            step,
            body,
        } => {
            if is_one(first) && is_one(step) {
                return found_in(*line, *var, last, body);
            }
            None
        }
        Stmt::Assign { .. }
        | Stmt::Masked { .. }
        | Stmt::If { .. }
        | Stmt::Label { .. }
        | Stmt::Go { .. }
        | Stmt::Stop { .. }
        | Stmt::Read { .. }
        | Stmt::Print { .. }
        | Stmt::Allocate { .. }
        | Stmt::Deallocate { .. } => None,
    }
}
