//! The one statement that does what a loop that gathers does.
ghost use Rattle.std.specs.Prelude.{◌≡◌, ◌∷◌, [], IfOk, map, pos};
ghost use Rattle.tree.specs.Plain.{Binary, Number, arm, expression, expressions, loop, no_arms};
ghost use Rattle.tree.specs.Plain.{no_expressions, no_loops, no_statements, statement, subscripts};
ghost use Rattle.tree.specs.View.{arms as plain_arms, block_of, expression_of, loop_of, constructor_loops};
ghost use Rattle.tree.specs.View.{reference_of, statement_of, subscript_of, tested_of};
ghost use Rattle.meaning.specs.Value.{named};
ghost use Rattle.reductions.specs.Finding.{is_positive, may_be_section, one_is_variable};
ghost use Rattle.reductions.specs.Gathering.{in_section, is_variable, listed, section_of, sectioned, tested, two};
ghost use Rattle.reductions.specs.Reduced.{assignment, form, gathered_values, outward, reduction};
ghost use Rattle.reductions.specs.Reduced.{lines_of, right_side, values_of};
ghost use Rattle.reductions.specs.View.{found_of};

use crate::gathering::Gathering;
use crate::loops::FoundLoop;
use crate::standing::{stands_in_sub, stands_in_subs};
use nest::copy_ref;
use std::alloc::Global;
use tree::{
    Arm, Block, Expr, Fun, Mark, Memory, Name, Op, Red, Ref, Seq, Stmt, Sub, Turn, both, three,
};

// ---- subscripts

#[tactic(auto, using(tree::proofs::Equations::expression_equations))]
fn is_variable(sub: &Sub, name: Name) -> bool
    ensures { result ≡ is_variable name (subscript_of sub.now) }
{
    match sub {
        Sub::One(expr) => rewrite::is_variable(expr, name),
        Sub::Part(..) => false,
    }
}

fn one_is_variable(alloc: Global, subs: &[Sub], name: Name) -> Result<bool, Memory>
    ensures { IfOk result (λ one. one ≡ one_is_variable name (subscripts (map subscript_of subs.now))) }
{
    let Some((first, rest)) = subs.split_first() else {
        return Ok(false);
    };
    if is_variable(first, name) {
        return Ok(!stands_in_subs(alloc, name, rest)?);
    }
    if stands_in_sub(alloc, name, first)? {
        return Ok(false);
    }
    one_is_variable(alloc, rest, name)
}

#[tactic(auto, using(tree::proofs::Equations::expression_equations))]
fn copy_sub(alloc: Global, sub: &Sub) -> Result<Sub, Memory>
    ensures { IfOk result (λ copy. subscript_of copy ≡ subscript_of sub.now) }
{
    match sub {
        Sub::One(expr) => Ok(Sub::One(expr.copy(alloc)?)),
        Sub::Part(lower, upper, stride) => {
            let (lower, upper, stride) = three(
                lower.copy(alloc),
                upper.copy(alloc),
                stride.copy(alloc),
            )?;
            Ok(Sub::Part(lower, upper, stride))
        }
    }
}

#[tactic(auto, using(tree::proofs::Equations::expression_equations))]
fn in_section(alloc: Global, sub: &Sub, name: Name, trip: &Expr) -> Result<Sub, Memory>
    ensures { IfOk result (λ new. subscript_of new
        ≡ in_section name (expression_of trip.now) (subscript_of sub.now)) }
{
    if !is_variable(sub, name) {
        return copy_sub(alloc, sub);
    }
    let trip = trip.copy(alloc)?;
    Ok(Sub::Part(Expr::Int(1), trip, Expr::Int(1)))
}

fn sectioned(alloc: Global, subs: &Seq<Sub>, name: Name, trip: &Expr) -> Result<Seq<Sub>, Memory>
    ensures { IfOk result (λ new. subscripts (map subscript_of new)
        ≡ sectioned name (expression_of trip.now) (subscripts (map subscript_of subs.now))) }
{
    let mut made = Seq::new(alloc);
    for sub in subs.as_slice() {
        made.push(in_section(alloc, sub, name, trip)?)?;
    }
    Ok(made)
}

// ---- arrays of values

#[tactic(auto, using(tree::proofs::Equations::expression_equations))]
fn may_be_section(alloc: Global, operand: &Expr, name: Name) -> Result<bool, Memory>
    ensures { IfOk result (λ may. may ≡ may_be_section name (expression_of operand.now)) }
{
    match operand {
        Expr::Item(item) => one_is_variable(alloc, item.subs.as_slice(), name),
        Expr::Int(_)
        | Expr::Truth(_)
        | Expr::Un(..)
        | Expr::Bin(..)
        | Expr::Call(..)
        | Expr::List(..)
        | Expr::Spread(..)
        | Expr::Transpose(_)
        | Expr::Reshape(..)
        | Expr::Reduce(..) => Ok(false),
    }
}

#[tactic(auto, using(crate::proofs::FormLaws::item_laws))]
fn section_item(alloc: Global, item: &Ref, name: Name, trip: &Expr) -> Result<Ref, Memory>
    ensures { IfOk result (λ new. named (reference_of new)
        ≡ section_of name (expression_of trip.now) (named (reference_of item.now))) }
{
    let subs = sectioned(alloc, &item.subs, name, trip)?;
    Ok(Ref {
        name: item.name,
        subs,
    })
}

#[tactic(auto, using(tree::proofs::Equations::expression_equations))]
fn section_of(alloc: Global, operand: &Expr, name: Name, trip: &Expr) -> Result<Expr, Memory>
    ensures { IfOk result (λ new. expression_of new
        ≡ section_of name (expression_of trip.now) (expression_of operand.now)) }
{
    match operand {
        Expr::Item(item) => Ok(Expr::Item(section_item(alloc, item, name, trip)?)),
        Expr::Int(_)
        | Expr::Truth(_)
        | Expr::Un(..)
        | Expr::Bin(..)
        | Expr::Call(..)
        | Expr::List(..)
        | Expr::Spread(..)
        | Expr::Transpose(_)
        | Expr::Reshape(..)
        | Expr::Reduce(..) => operand.copy(alloc),
    }
}

fn one_value(alloc: Global, operand: &Expr) -> Result<Seq<Expr>, Memory>
    ensures { IfOk result (λ values. expressions (map expression_of values)
        ≡ expression (expression_of operand.now) no_expressions) }
{
    let mut values = Seq::new(alloc);
    values.push(operand.copy(alloc)?)?;
    Ok(values)
}

#[tactic(auto, using(tree::proofs::Equations::expression_equations))]
fn one_turn(alloc: Global, name: Name, trip: &Expr) -> Result<Seq<Turn>, Memory>
    ensures { IfOk result (λ turns. constructor_loops (map loop_of turns)
        ≡ loop name (Number (pos 1)) (expression_of trip.now) no_loops) }
{
    let mut turns = Seq::new(alloc);
    let last = trip.copy(alloc)?;
    turns.push(Turn {
        var: name,
        first: Expr::Int(1),
        last,
    })?;
    Ok(turns)
}

#[tactic(auto, using(tree::proofs::Equations::expression_equations))]
fn listed(alloc: Global, operand: &Expr, name: Name, trip: &Expr) -> Result<Expr, Memory>
    ensures { IfOk result (λ new. expression_of new
        ≡ listed name (expression_of trip.now) (expression_of operand.now)) }
{
    let values = one_value(alloc, operand)?;
    let turns = one_turn(alloc, name, trip)?;
    Ok(Expr::List(values, turns))
}

fn values_of(alloc: Global, found: &FoundLoop<'_>) -> Result<Expr, Memory>
    ensures { IfOk result (λ new. expression_of new ≡ values_of (found_of found.now)) }
{
    if may_be_section(alloc, found.operand, found.variable)? {
        return section_of(alloc, found.operand, found.variable, found.trip);
    }
    listed(alloc, found.operand, found.variable, found.trip)
}

// ---- right sides

#[tactic(auto, using(tree::proofs::Equations::expression_equations))]
fn variable(alloc: Global, left: &Ref) -> Result<Expr, Memory>
    ensures { IfOk result (λ new. expression_of new ≡ named (reference_of left.now)) }
{
    Ok(Expr::Item(copy_ref(left, alloc)?))
}

#[tactic(auto, using(tree::proofs::Equations::expression_equations))]
fn gathered(alloc: Global, found: &FoundLoop<'_>) -> Result<Expr, Memory>
    ensures { IfOk result (λ new. expression_of new ≡ gathered_values (found_of found.now)) }
{
    let values = values_of(alloc, found)?;
    let values = Box::new(alloc, values)?;
    Ok(Expr::Reduce(found.how.gatherer(), values))
}

fn operands(alloc: Global, found: &FoundLoop<'_>) -> Result<(Box<Expr>, Box<Expr>), Memory>
    ensures left { IfOk result (λ both. expression_of both.0.value ≡ named (found_of found.now).loop.left) }
    ensures right { IfOk result (λ both. expression_of both.1.value ≡ gathered_values (found_of found.now)) }
{
    let left = variable(alloc, found.left)?;
    let left = Box::new(alloc, left)?;
    let right = gathered(alloc, found)?;
    Ok((left, Box::new(alloc, right)?))
}

fn arguments(alloc: Global, found: &FoundLoop<'_>) -> Result<Seq<Expr>, Memory>
    ensures { IfOk result (λ new. expressions (map expression_of new)
        ≡ two (named (found_of found.now).loop.left) (gathered_values (found_of found.now))) }
{
    let mut arguments = Seq::new(alloc);
    arguments.push(variable(alloc, found.left)?)?;
    arguments.push(gathered(alloc, found)?)?;
    Ok(arguments)
}

// The right side of the form.
#[tactic(auto, using(tree::proofs::Equations::expression_equations))]
fn of_all(alloc: Global, found: &FoundLoop<'_>) -> Result<Expr, Memory>
    ensures { IfOk result (λ new. expression_of new ≡ right_side (found_of found.now)) }
{
    match found.how {
        Gathering::Adds(_) => {
            let (left, right) = operands(alloc, found)?;
            Ok(Expr::Bin(Op::Add, left, right))
        }
        Gathering::Takes => {
            let (left, right) = operands(alloc, found)?;
            Ok(Expr::Bin(Op::Sub, left, right))
        }
        Gathering::Greatest(_) => Ok(Expr::Call(Fun::Max, arguments(alloc, found)?)),
        Gathering::Least(_) => Ok(Expr::Call(Fun::Min, arguments(alloc, found)?)),
    }
}

// ---- statements

fn outward(mark: Mark) -> Mark
    ensures { result ≡ outward mark }
{
    Mark {
        nest: mark.nest,
        stmt: mark.stmt,
        level: mark.level.saturating_sub(1),
    }
}

#[tactic(auto, using(tree::proofs::Equations::statement_equations))]
fn assignment(alloc: Global, found: &FoundLoop<'_>) -> Result<Stmt, Memory>
    ensures { IfOk result (λ new. statement_of new ≡ assignment (found_of found.now)) }
{
    let left = copy_ref(found.left, alloc);
    let right = of_all(alloc, found);
    let (left, right) = both(left, right)?;
    Ok(Stmt::Assign {
        line: found.line,
        mark: Some(outward(found.mark)),
        left,
        right,
    })
}

#[tactic(auto, using(tree::proofs::Equations::expression_equations))]
fn has_turn(alloc: Global, trip: &Expr) -> Result<Expr, Memory>
    ensures { IfOk result (λ new. expression_of new ≡ Binary Op.Ge (expression_of trip.now) (Number (pos 1))) }
{
    let trip = trip.copy(alloc)?;
    let trip = Box::new(alloc, trip)?;
    Ok(Expr::Bin(Op::Ge, trip, Box::new(alloc, Expr::Int(1))?))
}

#[tactic(auto, using(tree::proofs::Equations::statement_equations))]
fn arms(alloc: Global, found: &FoundLoop<'_>) -> Result<Seq<Arm>, Memory>
    ensures { IfOk result (λ new. plain_arms (map tested_of new)
        ≡ arm (Binary Op.Ge (expression_of found.now.trip.now) (Number (pos 1)))
        (statement (assignment (found_of found.now)) no_statements) no_arms) }
{
    let mut arms = Seq::new(alloc);
    let mut stmts = Seq::new(alloc);
    stmts.push(assignment(alloc, found)?)?;
    let test = has_turn(alloc, found.trip)?;
    arms.push(Arm {
        test,
        body: Block { stmts },
    })?;
    Ok(arms)
}

#[tactic(auto, using(tree::proofs::Equations::expression_equations))]
fn is_positive(expr: &Expr) -> bool
    ensures { result ≡ is_positive (expression_of expr.now) }
{
    match expr {
        Expr::Int(number) => 1 <= *number,
        Expr::Truth(_)
        | Expr::Item(_)
        | Expr::Un(..)
        | Expr::Bin(..)
        | Expr::Call(..)
        | Expr::List(..)
        | Expr::Spread(..)
        | Expr::Transpose(_)
        | Expr::Reshape(..)
        | Expr::Reduce(..) => false,
    }
}

#[tactic(auto, using(tree::proofs::Equations::statement_equations))]
fn nothing(alloc: Global) -> Block
    ensures { block_of result ≡ no_statements }
{
    Block {
        stmts: Seq::new(alloc),
    }
}

#[tactic(auto, using(tree::proofs::Equations::statement_equations))]
fn tested(alloc: Global, found: &FoundLoop<'_>) -> Result<Stmt, Memory>
    ensures { IfOk result (λ new. statement_of new
        ≡ tested (lines_of (found_of found.now)) (found_of found.now).loop (assignment (found_of found.now))) }
{
    let arms = arms(alloc, found)?;
    Ok(Stmt::If {
        line: found.loop_line,
        arms,
        other: nothing(alloc),
    })
}

/// The statement that stands for the loop.
pub(crate) fn form(alloc: Global, found: &FoundLoop<'_>) -> Result<Stmt, Memory>
    ensures { IfOk result (λ new. statement_of new ≡ form (found_of found.now)) }
{
    if is_positive(found.trip) {
        return assignment(alloc, found);
    }
    tested(alloc, found)
}

/// Its mark, and the function that it gathers by.
pub(crate) fn reduction(found: &FoundLoop<'_>) -> (Mark, Red)
    ensures { result ≡ reduction (found_of found.now) }
{
    (outward(found.mark), found.how.gatherer())
}
