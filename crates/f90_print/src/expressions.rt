//! The text of expressions (ISO/IEC 1539:1991, sections 4.5, 6.2, 7.1 and 13).
ghost use Rattle.std.specs.Prelude.{◌≡◌, ◌++◌, OnOk, map, flat_map, replicate};
ghost use Rattle.tree.specs.Plain.{expressions};
ghost use Rattle.tree.specs.View.{expression_of, subscript_of, reference_of, loop_of};
ghost use Rattle.f90_grammar.specs.Phrases.{phrase_level90};
ghost use Rattle.f90_grammar.specs.Printing.{phrase_of, is_one, list_of, values, first_value};
ghost use Rattle.f90_grammar.specs.PrintedForms.{reference_phrase};
ghost use Rattle.f90_grammar.specs.PrintedText.{phrase_text, expression_text, separated_text, sign_text};
ghost use Rattle.f90_print.specs.Texts.{operand_text, subscript_text, listed_text, loop_end_text, sign_of};
ghost use Rattle.tree.specs.OperatorTable.{sign_level};

use crate::texts::{push, push_count, push_literal, push_truth};
use tree::{Expr, Memory, Op, Ref, Sub, Turn};

#[tactic(auto, using(tree::proofs::Equations::expression_equations, crate::proofs::ExpressionTexts::roots))]
pub(crate) fn is_one(e: &Expr) -> bool
    ensures { result ≡ is_one (expression_of e.now) }
{
    match e {
        Expr::Int(number) => *number == 1,
        Expr::Truth(_)
        | Expr::Item(_)
        | Expr::Un(..)
        | Expr::Bin(..)
        | Expr::Call(..)
        | Expr::List(..)
        | Expr::Spread(..)
        | Expr::Transpose(_)
        | Expr::Reshape(..)
        | Expr::Reduce(..) => false,
    }
}

fn sign_level(op: Op) -> u8
    ensures { result ≡ sign_level (sign_of op) }
{
    match op {
        Op::Not => 5,
        _ => 7,
    }
}

// How tightly the expression's outermost operator binds; what has none binds more tightly than any operator.
#[tactic(auto, using(tree::proofs::Equations::expression_equations, crate::proofs::ExpressionTexts::roots))]
fn level(e: &Expr) -> u8
    ensures { result ≡ phrase_level90 (phrase_of (expression_of e.now)) }
{
    match e {
        Expr::Un(op, _) => sign_level(*op),
        Expr::Bin(op, _, _) => op.level(),
        Expr::Int(_)
        | Expr::Truth(_)
        | Expr::Item(_)
        | Expr::Call(..)
        | Expr::List(..)
        | Expr::Spread(..)
        | Expr::Transpose(_)
        | Expr::Reshape(..)
        | Expr::Reduce(..) => 10,
    }
}

fn push_sign(text: &mut Vec<u8>, op: Op) -> Result<(), Memory>
    ensures { OnOk result (text.new.items ≡ text.old.items ++ sign_text (sign_of op)) }
{
    match op {
        Op::Not => push(text, b".NOT. "),
        _ => push(text, b"-"),
    }
}

#[cycle(expr)]
#[tactic(auto, using(crate::proofs::ExpressionTexts::expression_texts))]
fn print_operand(text: &mut Vec<u8>, least: u8, e: &Expr) -> Result<(), Memory>
    ensures { OnOk result (text.new.items ≡ text.old.items ++ operand_text least (expression_of e.now)) }
{
    if level(e) >= least {
        return print_expression(text, e);
    }
    push(text, b"(")?;
    print_expression(text, e)?;
    push(text, b")")
}

#[cycle(expr)]
#[tactic(auto, using(crate::proofs::ExpressionTexts::expression_texts))]
pub(crate) fn print_expression(text: &mut Vec<u8>, e: &Expr) -> Result<(), Memory>
    ensures { OnOk result (text.new.items ≡ text.old.items ++ expression_text (expression_of e.now)) }
{
    match e {
        Expr::Int(number) => push_literal(text, *number),
        Expr::Truth(truth) => push_truth(text, *truth),
        Expr::Item(reference) => print_reference(text, reference),
        Expr::Un(op, a) => {
            push_sign(text, *op)?;
            print_operand(text, sign_level(*op) + 1, a)
        }
        Expr::Bin(op, left, right) => {
            print_operand(text, op.left_least(), left)?;
            push(text, b" ")?;
            push(text, op.spell90().as_bytes())?;
            push(text, b" ")?;
            print_operand(text, op.right_least(), right)
        }
        Expr::Call(function, arguments) => {
            push(text, function.spell90().as_bytes())?;
            print_arguments(text, arguments.as_slice())
        }
        Expr::List(values, loops) => {
            if loops.is_empty() {
                return print_values(text, values.as_slice());
            }
            push(text, b"(/ ")?;
            push_openings(text, loops.len())?;
            print_first_value(text, values.as_slice())?;
            print_loops(text, loops.as_slice())?;
            push(text, b" /)")
        }
        Expr::Spread(array, dimension, extent) => {
            push(text, b"SPREAD(")?;
            print_expression(text, array)?;
            push(text, b", ")?;
            push_count(text, *dimension)?;
            push(text, b", ")?;
            print_expression(text, extent)?;
            push(text, b")")
        }
        Expr::Transpose(array) => {
            push(text, b"TRANSPOSE(")?;
            print_expression(text, array)?;
            push(text, b")")
        }
        Expr::Reshape(array, extents) => {
            push(text, b"RESHAPE(")?;
            print_expression(text, array)?;
            push(text, b", ")?;
            print_values(text, extents.as_slice())?;
            push(text, b")")
        }
        Expr::Reduce(reduction, array) => {
            push(text, reduction.spell90().as_bytes())?;
            push(text, b"(")?;
            print_expression(text, array)?;
            push(text, b")")
        }
    }
}

#[cycle(expr)]
#[tactic(auto, using(crate::proofs::ExpressionTexts::expression_texts))]
pub(crate) fn print_reference(text: &mut Vec<u8>, r: &Ref) -> Result<(), Memory>
    ensures { OnOk result (text.new.items ≡ text.old.items ++ phrase_text (reference_phrase (reference_of r.now))) }
{
    push(text, r.name.text())?;
    print_subscripts(text, r.subs.as_slice())
}

// The subscripts in parentheses, where there are any.
#[cycle(expr)]
#[tactic(auto, using(crate::proofs::ExpressionTexts::expression_texts))]
fn print_subscripts(text: &mut Vec<u8>, subs: &[Sub]) -> Result<(), Memory>
    ensures { OnOk result (text.new.items ≡ text.old.items ++ listed_text subscript_text (map subscript_of subs.now)) }
{
    let Some((first, rest)) = subs.split_first() else {
        return Ok(());
    };
    push(text, b"(")?;
    print_subscript(text, first)?;
    for sub in rest {
        push(text, b", ")?;
        print_subscript(text, sub)?;
    }
    push(text, b")")
}

#[cycle(expr)]
#[tactic(auto, using(crate::proofs::ExpressionTexts::expression_texts))]
fn print_subscript(text: &mut Vec<u8>, sub: &Sub) -> Result<(), Memory>
    ensures { OnOk result (text.new.items ≡ text.old.items ++ subscript_text (subscript_of sub.now)) }
{
    match sub {
        Sub::One(e) => print_expression(text, e),
        Sub::Part(lower, upper, stride) => {
            print_expression(text, lower)?;
            push(text, b":")?;
            print_expression(text, upper)?;
            if is_one(stride) {
                return Ok(());
            }
            push(text, b":")?;
            print_expression(text, stride)
        }
    }
}

// Values, with a comma between two.
#[cycle(expr)]
#[tactic(auto, using(crate::proofs::ExpressionTexts::expression_texts))]
fn print_list(text: &mut Vec<u8>, list: &[Expr]) -> Result<(), Memory>
    ensures { OnOk result
        (text.new.items ≡ text.old.items ++ separated_text expression_text (map expression_of list.now)) }
{
    let Some((first, rest)) = list.split_first() else {
        return Ok(());
    };
    print_expression(text, first)?;
    for e in rest {
        push(text, b", ")?;
        print_expression(text, e)?;
    }
    Ok(())
}

// The arguments in parentheses, where there are any.
#[cycle(expr)]
#[tactic(auto, using(crate::proofs::ExpressionTexts::expression_texts))]
fn print_arguments(text: &mut Vec<u8>, list: &[Expr]) -> Result<(), Memory>
    ensures { OnOk result
        (text.new.items ≡ text.old.items ++ listed_text expression_text (map expression_of list.now)) }
{
    if list.is_empty() {
        return Ok(());
    }
    push(text, b"(")?;
    print_list(text, list)?;
    push(text, b")")
}

// A constructor without loops. No form has no values; `.FALSE.` stands for that.
#[cycle(expr)]
#[tactic(auto, using(crate::proofs::ExpressionTexts::expression_texts))]
fn print_values(text: &mut Vec<u8>, list: &[Expr]) -> Result<(), Memory>
    ensures { OnOk result (text.new.items
        ≡ text.old.items ++ phrase_text (values (list_of (expressions (map expression_of list.now))))) }
{
    if list.is_empty() {
        return push_truth(text, false);
    }
    push(text, b"(/ ")?;
    print_list(text, list)?;
    push(text, b" /)")
}

// The value under the loops of a constructor. No form has none or more than one; `.FALSE.` stands for that.
#[cycle(expr)]
#[tactic(auto, using(crate::proofs::ExpressionTexts::expression_texts))]
fn print_first_value(text: &mut Vec<u8>, list: &[Expr]) -> Result<(), Memory>
    ensures { OnOk result (text.new.items
        ≡ text.old.items ++ phrase_text (first_value (list_of (expressions (map expression_of list.now))))) }
{
    if list.len() != 1 {
        return push_truth(text, false);
    }
    print_expression(text, &list[0])
}

fn push_openings(text: &mut Vec<u8>, count: usize) -> Result<(), Memory>
    ensures { OnOk result (text.new.items ≡ text.old.items ++ replicate count 40) }
{
    for _written in 0..count {
        push(text, b"(")?;
    }
    Ok(())
}

// The loops of a constructor, the innermost one first, each with its parenthesis.
#[cycle(expr)]
#[tactic(auto, using(crate::proofs::ExpressionTexts::expression_texts))]
fn print_loops(text: &mut Vec<u8>, loops: &[Turn]) -> Result<(), Memory>
    ensures { OnOk result (text.new.items ≡ text.old.items ++ flat_map loop_end_text (map loop_of loops.now)) }
{
    for turn in loops {
        print_loop(text, turn)?;
    }
    Ok(())
}

#[cycle(expr)]
#[tactic(auto, using(crate::proofs::ExpressionTexts::expression_texts))]
fn print_loop(text: &mut Vec<u8>, turn: &Turn) -> Result<(), Memory>
    ensures { OnOk result (text.new.items ≡ text.old.items ++ loop_end_text (loop_of turn.now)) }
{
    push(text, b", ")?;
    push(text, turn.var.text())?;
    push(text, b" = ")?;
    print_expression(text, &turn.first)?;
    push(text, b", ")?;
    print_expression(text, &turn.last)?;
    push(text, b")")
}
