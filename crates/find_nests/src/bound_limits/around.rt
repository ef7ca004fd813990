//! The form of a bound in the iterations of the loops round it.
ghost use Rattle.std.specs.Prelude.{◌≡◌, ◌≤◌, ◌-◌, ◌*◌, ◌^◌, ◌++◌, ◌∷◌, [], ℕ, length, map, if◌then◌else◌, IfOk, OnOk};
ghost use Rattle.std.specs.List.{filter};
ghost use Rattle.std.specs.Option.{option_map, IfSome};
ghost use Rattle.tree.specs.View.{expression_of};
ghost use Rattle.linear_forms.specs.Linear.{Form};
ghost use Rattle.linear_forms.specs.Affines.{IsAffineOf};
ghost use Rattle.find_nests.specs.bound_limits.Composed.{with_multiples, symbol_terms, is_loop_among, composed_bound};
ghost use Rattle.find_nests.specs.bound_limits.Composed.{outer_variables_of};
ghost use Rattle.find_nests.specs.bound_limits.View.{wide_form_of, outer_of, IsSized, AreSmall};

use crate::bound_limits::forms::WideForm;
use crate::bound_limits::numbers::widened;
use crate::bound_limits::places::coefficients;
use linear_forms::linear;
use rewrite::names_in_expr;
use std::alloc::Global;
use subscripts::Affine;
use tree::{Expr, Memory, Name, Seq};

/// A loop round others: its variable, and what stands for it in the iterations of the loops.
#[derive(Drop)]
pub struct Outer {
    pub variable: Name,
    pub form: WideForm,
}

// The form with so many times each of those whose variable is one of the names.
fn with_multiples(
    alloc: Global,
    sum: WideForm,
    times: &[i64],
    around: &[Outer],
    names: &[Name],
) -> Result<WideForm, Memory>
    requires few { length times.now ≤ 7 }
    requires sized { IsSized (2 ^ 107 - length times.now * 2 ^ 104) (wide_form_of sum) }
    requires small { AreSmall (map outer_of around.now) }
    ensures value { IfOk result (λ form.
        length (filter (is_loop_among names.now) (map outer_of around.now)) ≤ length times.now → wide_form_of form
        ≡ with_multiples (wide_form_of sum) times.now (filter (is_loop_among names.now) (map outer_of around.now))) }
    ensures size { IfOk result (λ form. IsSized (2 ^ 107) (wide_form_of form)) }
{
    let Some((outer, inner)) = around.split_first() else {
        return Ok(sum);
    };
    let stands = names.contains(&outer.variable);
    if !stands {
        let skipped = with_multiples(alloc, sum, times, inner, names)?;
        return Ok(skipped);
    }
    let Some((first, rest)) = times.split_first() else {
        return Ok(sum);
    };
    let more = sum.plus(alloc, widened(*first), &outer.form)?;
    let whole = with_multiples(alloc, more, rest, inner, names)?;
    Ok(whole)
}

// The terms of the symbols, of which there are so many.
fn without_loops(alloc: Global, form: &Affine, symbols: usize) -> Result<WideForm, Memory>
    ensures value { IfOk result (λ wide. (k : ℕ) (f : Form) → IsAffineOf k f form.now
        → wide_form_of wide ≡ symbol_terms symbols k f) }
    ensures size { IfOk result (λ wide. IsSized (2 ^ 63) (wide_form_of wide)) }
{
    Ok(WideForm {
        coefficients: coefficients(alloc, &form.syms, symbols)?,
        constant: widened(form.constant),
    })
}

// Adds the name where it is chosen.
fn push_if(names: &mut Seq<Name>, chosen: bool, name: Name) -> Result<(), Memory>
    ensures { OnOk result (names.new ≡ (if chosen then names.old ++ name ∷ [] else names.old)) }
{
    if chosen {
        names.push(name)?;
    }
    Ok(())
}

// The variables that are among the names.
fn those_among(alloc: Global, around: &[Outer], names: &[Name]) -> Result<Seq<Name>, Memory>
    ensures { IfOk result (λ variables. variables
        ≡ outer_variables_of (filter (is_loop_among names.now) (map outer_of around.now))) }
{
    let mut variables = Seq::new(alloc);
    for outer in around {
        let stands = names.contains(&outer.variable);
        push_if(&mut variables, stands, outer.variable)?;
    }
    Ok(variables)
}

/// The form of a bound under these loops; None where it isn't linear over these symbols and the variables of the loops.
pub(crate) fn bound_form(
    alloc: Global,
    symbols: &Seq<Name>,
    around: &[Outer],
    bound: &Expr,
) -> Result<Option<WideForm>, Memory>
    requires few { length symbols.now ≤ 2 ^ 16 }
    requires small { AreSmall (map outer_of around.now) }
    ensures value { IfOk result (λ form. option_map wide_form_of form
        ≡ composed_bound symbols.now (map outer_of around.now) (expression_of bound.now)) }
    ensures size { IfOk result (λ form. IfSome form (λ wide. IsSized (2 ^ 107) (wide_form_of wide))) }
{
    let names = names_in_expr(alloc, bound)?;
    let variables = those_among(alloc, around, names.as_slice())?;
    let linear_form = linear(bound, variables.as_slice(), symbols);
    let Some(form) = linear_form else {
        return Ok(None);
    };
    let terms = without_loops(alloc, &form, symbols.len())?;
    let whole = with_multiples(alloc, terms, &form.loops, around, names.as_slice())?;
    Ok(Some(whole))
}
