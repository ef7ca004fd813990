//! The names that are read outside the bodies of their own loops.
ghost use Rattle.std.specs.Prelude.{◌≡◌, ◌∷◌, ◌++◌, [], map, IfOk, OnOk};
ghost use Rattle.std.specs.List.{flat_map};
ghost use Rattle.tree.specs.Plain.{expressions};
ghost use Rattle.tree.specs.View.{block_of, expression_of, item_of, loop_of, constructor_loops, reference_of};
ghost use Rattle.tree.specs.View.{statement_of, subscript_of, tested_of};
ghost use Rattle.reductions.specs.Reading.{read_in, read_in_arm, read_in_block, read_in_each, read_in_item};
ghost use Rattle.reductions.specs.Reading.{read_in_statement, read_in_subscript, read_in_subscripts};
ghost use Rattle.reductions.specs.Reading.{read_under, without};

use std::alloc::Global;
use tree::{Arm, Block, Expr, Item, Memory, Name, Ref, Seq, Stmt, Sub, Turn};

fn add_other(names: &mut Seq<Name>, name: Name, variable: Name) -> Result<(), Memory>
    ensures { OnOk result (names.new ≡ names.old ++ without variable (name ∷ [])) }
{
    if name == variable {
        return Ok(());
    }
    names.push(name)
}

// Adds all but the variable.
fn add_without(names: &mut Seq<Name>, more: &[Name], variable: Name) -> Result<(), Memory>
    ensures { OnOk result (names.new ≡ names.old ++ without variable more.now) }
{
    for name in more {
        add_other(names, *name, variable)?;
    }
    Ok(())
}

// ---- expressions

/// Adds those in an expression.
#[cycle(reading)]
#[tactic(auto, using(crate::proofs::ReadingLaws::reading_laws))]
pub(crate) fn add_expr(alloc: Global, names: &mut Seq<Name>, expr: &Expr) -> Result<(), Memory>
    ensures { OnOk result (names.new ≡ names.old ++ read_in (expression_of expr.now)) }
{
    match expr {
        Expr::Int(_) => Ok(()),
        Expr::Truth(_) => Ok(()),
        Expr::Item(item) => add_item(alloc, names, item),
        Expr::Un(_, a) => add_expr(alloc, names, a),
        Expr::Bin(_, a, b) => {
            add_expr(alloc, names, a)?;
            add_expr(alloc, names, b)
        }
        Expr::Call(_, arguments) => add_exprs(alloc, names, arguments),
        Expr::List(values, turns) => {
            let mut inner = Seq::new(alloc);
            add_exprs(alloc, &mut inner, values)?;
            let all = under_turns(alloc, turns, inner)?;
            add_all(names, all.as_slice())
        }
        Expr::Spread(array, _, extent) => {
            add_expr(alloc, names, array)?;
            add_expr(alloc, names, extent)
        }
        Expr::Transpose(array) => add_expr(alloc, names, array),
        Expr::Reshape(array, extents) => {
            add_expr(alloc, names, array)?;
            add_exprs(alloc, names, extents)
        }
        Expr::Reduce(_, array) => add_expr(alloc, names, array),
    }
}

#[cycle(reading)]
#[tactic(auto, using(crate::proofs::ReadingLaws::reading_laws))]
fn add_item(alloc: Global, names: &mut Seq<Name>, item: &Ref) -> Result<(), Memory>
    ensures { OnOk result (names.new ≡ names.old
        ++ (reference_of item.now).name ∷ read_in_subscripts (reference_of item.now).subscripts) }
{
    names.push(item.name)?;
    add_subs(alloc, names, &item.subs)
}

#[cycle(reading)]
fn add_exprs(alloc: Global, names: &mut Seq<Name>, exprs: &Seq<Expr>) -> Result<(), Memory>
    ensures { OnOk result (names.new ≡ names.old ++ flat_map read_in (map expression_of exprs.now)) }
{
    for expr in exprs.as_slice() {
        add_expr(alloc, names, expr)?;
    }
    Ok(())
}

#[cycle(reading)]
fn add_subs(alloc: Global, names: &mut Seq<Name>, subs: &Seq<Sub>) -> Result<(), Memory>
    ensures { OnOk result (names.new ≡ names.old ++ flat_map read_in_subscript (map subscript_of subs.now)) }
{
    for sub in subs.as_slice() {
        add_sub(alloc, names, sub)?;
    }
    Ok(())
}

#[cycle(reading)]
#[tactic(auto, using(crate::proofs::ReadingLaws::reading_laws))]
fn add_sub(alloc: Global, names: &mut Seq<Name>, sub: &Sub) -> Result<(), Memory>
    ensures { OnOk result (names.new ≡ names.old ++ read_in_subscript (subscript_of sub.now)) }
{
    match sub {
        Sub::One(expr) => add_expr(alloc, names, expr),
        Sub::Part(lower, upper, stride) => {
            add_expr(alloc, names, lower)?;
            add_expr(alloc, names, upper)?;
            add_expr(alloc, names, stride)
        }
    }
}

// What values read that read these names, under the loops of a constructor.
#[cycle(reading)]
fn under_turns(alloc: Global, turns: &Seq<Turn>, values: Seq<Name>) -> Result<Seq<Name>, Memory>
    ensures { IfOk result (λ names. names ≡ read_under (constructor_loops (map loop_of turns.now)) values) }
{
    let mut inner = values;
    for turn in turns.as_slice() {
        let mut round = Seq::new(alloc);
        add_turn(alloc, &mut round, turn)?;
        add_without(&mut round, inner.as_slice(), turn.var)?;
        inner = round;
    }
    Ok(inner)
}

#[cycle(reading)]
#[tactic(auto, using(crate::proofs::ReadingLaws::reading_laws))]
fn add_turn(alloc: Global, names: &mut Seq<Name>, turn: &Turn) -> Result<(), Memory>
    ensures { OnOk result (names.new ≡ names.old
        ++ (read_in (loop_of turn.now).first ++ read_in (loop_of turn.now).last)) }
{
    add_expr(alloc, names, &turn.first)?;
    add_expr(alloc, names, &turn.last)
}

fn add_all(names: &mut Seq<Name>, more: &[Name]) -> Result<(), Memory>
    ensures { OnOk result (names.new ≡ names.old ++ more.now) }
{
    for name in more {
        names.push(*name)?;
    }
    Ok(())
}

// ---- items of lists

// Adds those in the bounds of a loop and in its step.
#[tactic(auto, using(crate::proofs::ReadingLaws::reading_laws))]
fn add_bounds(
    alloc: Global,
    names: &mut Seq<Name>,
    first: &Expr,
    last: &Expr,
    step: &Expr,
) -> Result<(), Memory>
    ensures { OnOk result (names.new ≡ names.old ++ (read_in (expression_of first.now)
        ++ (read_in (expression_of last.now) ++ read_in (expression_of step.now)))) }
{
    add_expr(alloc, names, first)?;
    add_expr(alloc, names, last)?;
    add_expr(alloc, names, step)
}

#[cycle(items)]
#[tactic(auto, using(crate::proofs::ReadingStatements::item_laws))]
fn add_list_item(alloc: Global, names: &mut Seq<Name>, item: &Item) -> Result<(), Memory>
    ensures { OnOk result (names.new ≡ names.old ++ read_in_item (item_of item.now)) }
{
    match item {
        Item::One(expr) => add_expr(alloc, names, expr),
        Item::Text(_) => Ok(()),
        Item::Turns(list, variable, first, last, step) => {
            let mut inner = Seq::new(alloc);
            add_list(alloc, &mut inner, list)?;
            add_bounds(alloc, names, first, last, step)?;
            add_without(names, inner.as_slice(), *variable)
        }
    }
}

#[cycle(items)]
fn add_list(alloc: Global, names: &mut Seq<Name>, list: &Seq<Item>) -> Result<(), Memory>
    ensures { OnOk result (names.new ≡ names.old ++ flat_map read_in_item (map item_of list.now)) }
{
    for item in list.as_slice() {
        add_list_item(alloc, names, item)?;
    }
    Ok(())
}

// ---- statements and blocks

#[cycle(statements)]
#[tactic(auto, using(crate::proofs::ReadingStatements::statement_laws))]
fn add_statement(alloc: Global, names: &mut Seq<Name>, stmt: &Stmt) -> Result<(), Memory>
    ensures { OnOk result (names.new ≡ names.old ++ read_in_statement (statement_of stmt.now)) }
{
    match stmt {
        Stmt::Assign { left, right, .. } => {
            add_subs(alloc, names, &left.subs)?;
            add_expr(alloc, names, right)
        }
        Stmt::Masked {
            mask,
            left,
            right,
            ..
        } => {
            add_expr(alloc, names, mask)?;
            add_subs(alloc, names, &left.subs)?;
            add_expr(alloc, names, right)
        }
        Stmt::If { arms, other, .. } => {
            add_arms(alloc, names, arms)?;
            add_block(alloc, names, other)
        }
        Stmt::Do {
            var,
            first,
            last,
            step,
            body,
            ..
        } => {
            let mut inner = Seq::new(alloc);
            add_block(alloc, &mut inner, body)?;
            add_bounds(alloc, names, first, last, step)?;
            add_without(names, inner.as_slice(), *var)
        }
        Stmt::Read { items, .. } | Stmt::Print { items, .. } => add_list(alloc, names, items),
        Stmt::Allocate { extents, .. } => add_exprs(alloc, names, extents),
        Stmt::Label { .. } | Stmt::Go { .. } | Stmt::Stop { .. } | Stmt::Deallocate { .. } => {
            Ok(())
        }
    }
}

#[cycle(statements)]
#[tactic(auto, using(crate::proofs::ReadingStatements::statement_laws))]
fn add_arm(alloc: Global, names: &mut Seq<Name>, arm: &Arm) -> Result<(), Memory>
    ensures { OnOk result (names.new ≡ names.old ++ read_in_arm (tested_of arm.now)) }
{
    add_expr(alloc, names, &arm.test)?;
    add_block(alloc, names, &arm.body)
}

#[cycle(statements)]
fn add_arms(alloc: Global, names: &mut Seq<Name>, arms: &Seq<Arm>) -> Result<(), Memory>
    ensures { OnOk result (names.new ≡ names.old ++ flat_map read_in_arm (map tested_of arms.now)) }
{
    for arm in arms.as_slice() {
        add_arm(alloc, names, arm)?;
    }
    Ok(())
}

#[cycle(statements)]
fn add_statements(alloc: Global, names: &mut Seq<Name>, stmts: &Seq<Stmt>) -> Result<(), Memory>
    ensures { OnOk result (names.new ≡ names.old ++ flat_map read_in_statement (map statement_of stmts.now)) }
{
    for stmt in stmts.as_slice() {
        add_statement(alloc, names, stmt)?;
    }
    Ok(())
}

#[cycle(statements)]
#[tactic(auto, using(crate::proofs::ReadingStatements::block_laws))]
fn add_block(alloc: Global, names: &mut Seq<Name>, block: &Block) -> Result<(), Memory>
    ensures { OnOk result (names.new ≡ names.old ++ read_in_block (block_of block.now)) }
{
    add_statements(alloc, names, &block.stmts)
}

/// The names that a block reads outside the bodies of their own loops, as often as it does.
pub(crate) fn names_read_outside(alloc: Global, block: &Block) -> Result<Seq<Name>, Memory>
    ensures { IfOk result (λ names. names ≡ read_in_block (block_of block.now)) }
{
    let mut names = Seq::new(alloc);
    add_block(alloc, &mut names, block)?;
    Ok(names)
}
