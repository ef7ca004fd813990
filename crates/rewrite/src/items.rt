//! Items of input and output lists.
ghost use Rattle.std.specs.Prelude.{◌≡◌, map, IfOk};
ghost use Rattle.tree.specs.View.{expression_of, item_of};
ghost use Rattle.tree.specs.Plain.{items};
ghost use Rattle.rewrite.specs.MadeBlocks.{made_variable, made_input, made_inputs, made_output, made_outputs};

use crate::Rule;
use std::alloc::Global;
use tree::{Expr, Item, Memory, Seq, both, copy_text, three};

// An item of an input list keeps its name.
#[tactic(auto, using(crate::proofs::Equations::input_equations))]
fn rewrite_variable<R: Rule>(alloc: Global, expr: &Expr, rule: &mut R) -> Result<Item, Memory>
    ensures made { IfOk result (λ new. item_of new ≡ made_variable (R.making rule.old) (expression_of expr.now)) }
    ensures same { R.making rule.new ≡ R.making rule.old }
{
    match expr {
        Expr::Item(item) => Ok(Item::One(Expr::Item(rule.parts(alloc, item)?))),
        Expr::Int(_)
        | Expr::Truth(_)
        | Expr::Un(..)
        | Expr::Bin(..)
        | Expr::Call(..)
        | Expr::List(..)
        | Expr::Spread(..)
        | Expr::Transpose(_)
        | Expr::Reshape(..)
        | Expr::Reduce(..) => Ok(Item::One(expr.copy(alloc)?)),
    }
}

#[cycle(inputs)]
#[tactic(auto, using(crate::proofs::Equations::input_equations))]
fn rewrite_input<R: Rule>(alloc: Global, item: &Item, rule: &mut R) -> Result<Item, Memory>
    ensures made { IfOk result (λ new. item_of new ≡ made_input (R.making rule.old) (item_of item.now)) }
    ensures same { R.making rule.new ≡ R.making rule.old }
{
    match item {
        Item::One(expr) => rewrite_variable(alloc, expr, rule),
        Item::Text(text) => Ok(Item::Text(copy_text(text, alloc)?)),
        Item::Turns(items, var, first, last, step) => {
            let items = rewrite_inputs(alloc, items, rule);
            let first = rule.expression(alloc, first);
            let last = rule.expression(alloc, last);
            let step = rule.expression(alloc, step);
            let (items, (first, last, step)) = both(items, three(first, last, step))?;
            Ok(Item::Turns(items, *var, first, last, step))
        }
    }
}

/// An input list.
#[cycle(inputs)]
pub fn rewrite_inputs<R: Rule>(
    alloc: Global,
    list: &Seq<Item>,
    rule: &mut R,
) -> Result<Seq<Item>, Memory>
    ensures made { IfOk result (λ new. items (map item_of new)
        ≡ made_inputs (R.making rule.old) (items (map item_of list.now))) }
    ensures same { R.making rule.new ≡ R.making rule.old }
{
    let mut made = Seq::new(alloc);
    for item in list.as_slice() {
        made.push(rewrite_input(alloc, item, rule)?)?;
    }
    Ok(made)
}

#[cycle(outputs)]
#[tactic(auto, using(crate::proofs::Equations::output_equations))]
fn rewrite_output<R: Rule>(alloc: Global, item: &Item, rule: &mut R) -> Result<Item, Memory>
    ensures made { IfOk result (λ new. item_of new ≡ made_output (R.making rule.old) (item_of item.now)) }
    ensures same { R.making rule.new ≡ R.making rule.old }
{
    match item {
        Item::One(expr) => Ok(Item::One(rule.expression(alloc, expr)?)),
        Item::Text(text) => Ok(Item::Text(copy_text(text, alloc)?)),
        Item::Turns(items, var, first, last, step) => {
            let items = rewrite_outputs(alloc, items, rule);
            let first = rule.expression(alloc, first);
            let last = rule.expression(alloc, last);
            let step = rule.expression(alloc, step);
            let (items, (first, last, step)) = both(items, three(first, last, step))?;
            Ok(Item::Turns(items, *var, first, last, step))
        }
    }
}

/// An output list.
#[cycle(outputs)]
pub fn rewrite_outputs<R: Rule>(
    alloc: Global,
    list: &Seq<Item>,
    rule: &mut R,
) -> Result<Seq<Item>, Memory>
    ensures made { IfOk result (λ new. items (map item_of new)
        ≡ made_outputs (R.making rule.old) (items (map item_of list.now))) }
    ensures same { R.making rule.new ≡ R.making rule.old }
{
    let mut made = Seq::new(alloc);
    for item in list.as_slice() {
        made.push(rewrite_output(alloc, item, rule)?)?;
    }
    Ok(made)
}
