//! Array forms of expressions and subscripts.
ghost use Rattle.std.specs.Prelude.{◌≡◌, IfOk, length, map};
ghost use Rattle.tree.specs.Plain.{Expression};
ghost use Rattle.tree.specs.View.{expression_of, reference_of, subscript_of};
ghost use Rattle.linear_forms.specs.Linear.{form_of};
ghost use Rattle.linear_forms.specs.Affines.{IsFound};
ghost use Rattle.array_form.specs.forms.Forms.{form, subscript_form};
ghost use Rattle.array_form.specs.holds.View.{loop_names, surroundings_view};
ghost use Rattle.array_form.specs.Loops.{AreLoopsOf, HasPlaces, viewed};
ghost use Rattle.array_form.specs.Subscripts.{form_of_subscript, item_form, section_or, variable_form};

use crate::constructors::constructed;
use crate::holds::{CountedLoop, Surroundings, loop_names};
use crate::loops_in_text::{loops_in_order, one_each, standing_in};
use crate::placing::placed;
use crate::section_bounds::section;
use linear_forms::linear;
use nest::copy_ref;
use std::alloc::Global;
use subscripts::Affine;
use tree::{Expr, Memory, Ref, Seq, Sub};

// Its linear form, where it has one.
fn form_of(alloc: Global, a: &Surroundings, expr: &Expr) -> Result<Option<Affine>, Memory>
    requires { HasPlaces a.now }
    ensures { IfOk result (λ o. IsFound (length a.now.loops)
        (form_of (loop_names a.now.loops) a.now.symbols (expression_of expr.now)) o) }
{
    let names = loop_names(alloc, a.loops.as_slice())?;
    Ok(linear(expr, names.as_slice(), &a.symbols))
}

// A subscript with these loops, where it needs no form of rank one: it stays, or becomes a section.
fn section_or(
    alloc: Global,
    a: &Surroundings,
    here: &[CountedLoop],
    expr: &Expr,
) -> Result<Option<Sub>, Memory>
    requires places { HasPlaces a.now }
    requires here { AreLoopsOf a.now here.now }
    ensures { IfOk result (λ o. (formed : Expression) → section_or o formed
        ≡ subscript_form (surroundings_view a.now) (viewed a.now here.now) (expression_of expr.now) formed) }
{
    let Some(first) = here.first() else {
        return Ok(Some(Sub::One(expr.copy(alloc)?)));
    };
    match form_of(alloc, a, expr)? {
        Some(form) => Ok(Some(section(alloc, a, first, &form)?)),
        None => Ok(None),
    }
}

// A variable that is that of a loop.
fn variable_form(
    alloc: Global,
    a: &Surroundings,
    over: &[CountedLoop],
    here: &[CountedLoop],
    item: &Ref,
) -> Result<Expr, Memory>
    requires places { HasPlaces a.now }
    requires over { AreLoopsOf a.now over.now }
    requires here { AreLoopsOf a.now here.now }
    ensures { IfOk result (λ e. expression_of e ≡ variable_form (surroundings_view a.now) (viewed a.now over.now)
        (viewed a.now here.now) (reference_of item.now)) }
{
    let plain = constructed(alloc, a, here, Expr::Item(copy_ref(item, alloc)?))?;
    placed(alloc, a, over, here, plain, item)
}

#[cycle(form)]
#[tactic(auto, using(crate::proofs::FormLaws::form_laws))]
pub fn form(
    alloc: Global,
    a: &Surroundings,
    over: &[CountedLoop],
    expr: &Expr,
) -> Result<Expr, Memory>
    requires places { HasPlaces a.now }
    requires over { AreLoopsOf a.now over.now }
    ensures { IfOk result (λ e. expression_of e
        ≡ form (surroundings_view a.now) (viewed a.now over.now) (expression_of expr.now)) }
{
    match expr {
        Expr::Int(_) => expr.copy(alloc),
        Expr::Truth(_) => expr.copy(alloc),
        Expr::Item(item) => {
            let here = standing_in(alloc, over, expr)?;
            item_form(alloc, a, over, here.as_slice(), item)
        }
        Expr::Un(op, operand) => Ok(Expr::Un(*op, boxed_form(alloc, a, over, operand)?)),
        Expr::Bin(op, left, right) => {
            let left = boxed_form(alloc, a, over, left)?;
            Ok(Expr::Bin(*op, left, boxed_form(alloc, a, over, right)?))
        }
        Expr::Call(function, arguments) => {
            Ok(Expr::Call(*function, forms(alloc, a, over, arguments)?))
        }
        Expr::List(..) => expr.copy(alloc),
        Expr::Spread(..) => expr.copy(alloc),
        Expr::Transpose(_) => expr.copy(alloc),
        Expr::Reshape(..) => expr.copy(alloc),
        Expr::Reduce(..) => expr.copy(alloc),
    }
}

#[cycle(form)]
fn boxed_form(
    alloc: Global,
    a: &Surroundings,
    over: &[CountedLoop],
    expr: &Expr,
) -> Result<Box<Expr>, Memory>
    requires places { HasPlaces a.now }
    requires over { AreLoopsOf a.now over.now }
    ensures { IfOk result (λ e. expression_of e.value
        ≡ form (surroundings_view a.now) (viewed a.now over.now) (expression_of expr.now)) }
{
    let formed = form(alloc, a, over, expr)?;
    Ok(Box::new(alloc, formed)?)
}

#[cycle(form)]
fn forms(
    alloc: Global,
    a: &Surroundings,
    over: &[CountedLoop],
    exprs: &Seq<Expr>,
) -> Result<Seq<Expr>, Memory>
    requires places { HasPlaces a.now }
    requires over { AreLoopsOf a.now over.now }
    ensures { IfOk result (λ es. map expression_of es
        ≡ map (form (surroundings_view a.now) (viewed a.now over.now)) (map expression_of exprs.now)) }
{
    let mut all = Seq::new(alloc);
    for expr in exprs.as_slice() {
        all.push(form(alloc, a, over, expr)?)?;
    }
    Ok(all)
}

// The loops `here` stand in the reference.
#[cycle(form)]
#[tactic(auto, using(crate::proofs::FormLaws::name_laws))]
fn item_form(
    alloc: Global,
    a: &Surroundings,
    over: &[CountedLoop],
    here: &[CountedLoop],
    item: &Ref,
) -> Result<Expr, Memory>
    requires places { HasPlaces a.now }
    requires over { AreLoopsOf a.now over.now }
    requires here { AreLoopsOf a.now here.now }
    ensures { IfOk result (λ e. expression_of e ≡ item_form (surroundings_view a.now) (viewed a.now over.now)
        (viewed a.now here.now) (reference_of item.now)) }
{
    if here.is_empty() {
        return Ok(Expr::Item(copy_ref(item, alloc)?));
    }
    if item.subs.is_empty() {
        return variable_form(alloc, a, over, here, item);
    }
    if !one_each(alloc, over, &item.subs)? {
        return constructed(alloc, a, over, Expr::Item(copy_ref(item, alloc)?));
    }
    let order = loops_in_order(alloc, over, &item.subs)?;
    let subs = subscript_forms(alloc, a, over, &item.subs)?;
    let plain = Expr::Item(Ref {
        name: item.name,
        subs,
    });
    placed(alloc, a, over, order.as_slice(), plain, item)
}

/// The forms of subscripts, each over those of the loops that stand in it.
#[cycle(form)]
pub fn subscript_forms(
    alloc: Global,
    a: &Surroundings,
    over: &[CountedLoop],
    subs: &Seq<Sub>,
) -> Result<Seq<Sub>, Memory>
    requires places { HasPlaces a.now }
    requires over { AreLoopsOf a.now over.now }
    ensures { IfOk result (λ ps. map subscript_of ps
        ≡ map (form_of_subscript (surroundings_view a.now) (viewed a.now over.now)) (map subscript_of subs.now)) }
{
    let mut all = Seq::new(alloc);
    for sub in subs.as_slice() {
        all.push(subscript_form(alloc, a, over, sub)?)?;
    }
    Ok(all)
}

#[cycle(form)]
#[tactic(auto, using(crate::proofs::FormLaws::subscript_laws))]
fn subscript_form(
    alloc: Global,
    a: &Surroundings,
    over: &[CountedLoop],
    sub: &Sub,
) -> Result<Sub, Memory>
    requires places { HasPlaces a.now }
    requires over { AreLoopsOf a.now over.now }
    ensures { IfOk result (λ p. subscript_of p
        ≡ form_of_subscript (surroundings_view a.now) (viewed a.now over.now) (subscript_of sub.now)) }
{
    match sub {
        Sub::One(expr) => {
            let here = standing_in(alloc, over, expr)?;
            match section_or(alloc, a, here.as_slice(), expr)? {
                Some(sub) => Ok(sub),
                None => Ok(Sub::One(form(alloc, a, here.as_slice(), expr)?)),
            }
        }
        Sub::Part(lower, upper, stride) => Ok(Sub::Part(
            lower.copy(alloc)?,
            upper.copy(alloc)?,
            stride.copy(alloc)?,
        )),
    }
}
