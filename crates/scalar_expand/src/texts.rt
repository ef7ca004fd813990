//! The texts of extents.
ghost use Rattle.std.specs.Prelude.{◌≡◌, IfOk, map, pos, slice_get};
ghost use Rattle.tree.specs.Plain.{Binary, Number, Unary};
ghost use Rattle.tree.specs.declared.ops.Op.TheVariants.{Neg};
ghost use Rattle.tree.specs.View.{expression_of};
ghost use Rattle.linear_forms.specs.Expressed.{minus_term, plus_term, term, variable, with_constant, with_term};
ghost use Rattle.linear_forms.specs.Expressed.{with_terms};
ghost use Rattle.linear_forms.specs.View.{text_so_far};
ghost use Rattle.last_values.specs.normal_forms.Texts.{quotient_text};
ghost use Rattle.scalar_expand.specs.Texts.{made_extent_text, extent_texts, extent_form_text, texts_with};
ghost use Rattle.scalar_expand.specs.Texts.{with_each_symbol, with_symbol_term};

use nest::Trip;
use std::alloc::Global;
use subscripts::Affine;
use tree::{Expr, Memory, Name, Op, Ref, Seq, both};

// ---- terms

#[tactic(auto, using(tree::proofs::Equations::expression_equations))]
pub(crate) fn bare(alloc: Global, name: Name) -> Expr
    ensures { expression_of result ≡ variable name }
{
    Expr::Item(Ref {
        name,
        subs: Seq::new(alloc),
    })
}

#[tactic(auto, using(tree::proofs::Equations::expression_equations))]
pub(crate) fn two(alloc: Global, op: Op, left: Expr, right: Expr) -> Result<Expr, Memory>
    ensures { IfOk result (λ e. expression_of e ≡ Binary op (expression_of left) (expression_of right)) }
{
    let (left, right) = both(Box::new(alloc, left), Box::new(alloc, right))?;
    Ok(Expr::Bin(op, left, right))
}

#[tactic(auto, using(tree::proofs::Equations::expression_equations))]
fn negative(alloc: Global, expr: Expr) -> Result<Expr, Memory>
    ensures { IfOk result (λ e. expression_of e ≡ Unary Neg (expression_of expr)) }
{
    let expr = Box::new(alloc, expr)?;
    Ok(Expr::Un(Op::Neg, expr))
}

#[tactic(auto, using(tree::proofs::Equations::expression_equations))]
fn number(size: u64) -> Expr
    ensures { expression_of result ≡ Number (pos size) }
{
    Expr::Int(i128::from(size))
}

// A coefficient 1 isn't written.
fn whole_term(alloc: Global, size: u64, part: Expr) -> Result<Expr, Memory>
    ensures { IfOk result (λ e. expression_of e ≡ term size (expression_of part)) }
{
    if size == 1 {
        return Ok(part);
    }
    two(alloc, Op::Mul, number(size), part)
}

fn plus(alloc: Global, so_far: Option<Expr>, term: Expr) -> Result<Expr, Memory>
    ensures { IfOk result (λ e. expression_of e ≡ plus_term (text_so_far so_far) (expression_of term)) }
{
    match so_far {
        None => Ok(term),
        Some(sum) => two(alloc, Op::Add, sum, term),
    }
}

fn minus(alloc: Global, so_far: Option<Expr>, term: Expr) -> Result<Expr, Memory>
    ensures { IfOk result (λ e. expression_of e ≡ minus_term (text_so_far so_far) (expression_of term)) }
{
    match so_far {
        None => negative(alloc, term),
        Some(sum) => two(alloc, Op::Sub, sum, term),
    }
}

#[tactic(auto, using(linear_forms::proofs::TextLaws::term_laws))]
fn more(alloc: Global, so_far: Option<Expr>, times: i64, part: Expr) -> Result<Option<Expr>, Memory>
    ensures { IfOk result (λ o. text_so_far o ≡ with_term (text_so_far so_far) times (expression_of part)) }
{
    if times == 0 {
        return Ok(so_far);
    }
    let term = whole_term(alloc, times.unsigned_abs(), part)?;
    let sum = if times > 0 {
        plus(alloc, so_far, term)?
    } else {
        minus(alloc, so_far, term)?
    };
    Ok(Some(sum))
}

// ---- forms

fn name_at(names: &[Name], place: usize) -> Option<Name>
    ensures { result ≡ slice_get names.now place }
{
    names.get(place).copied()
}

fn more_symbol(
    alloc: Global,
    so_far: Option<Expr>,
    term: (u16, i64),
    symbols: &[Name],
) -> Result<Option<Expr>, Memory>
    ensures { IfOk result (λ o. text_so_far o ≡ with_symbol_term symbols.now (text_so_far so_far) term) }
{
    match name_at(symbols, usize::from(term.0)) {
        Some(name) => more(alloc, so_far, term.1, bare(alloc, name)),
        None => Ok(so_far),
    }
}

fn more_symbols(
    alloc: Global,
    so_far: Option<Expr>,
    terms: &[(u16, i64)],
    symbols: &[Name],
) -> Result<Option<Expr>, Memory>
    ensures { IfOk result (λ o. text_so_far o ≡ with_each_symbol symbols.now (text_so_far so_far) terms.now) }
{
    let Some((term, terms)) = terms.split_first() else {
        return Ok(so_far);
    };
    let so_far = more_symbol(alloc, so_far, *term, symbols)?;
    more_symbols(alloc, so_far, terms, symbols)
}

fn more_texts(
    alloc: Global,
    so_far: Option<Expr>,
    times: &[i64],
    texts: &[Expr],
) -> Result<Option<Expr>, Memory>
    ensures { IfOk result (λ o. text_so_far o
        ≡ with_terms (text_so_far so_far) times.now (map expression_of texts.now)) }
{
    let Some((first, times)) = times.split_first() else {
        return Ok(so_far);
    };
    let Some((text, texts)) = texts.split_first() else {
        return Ok(so_far);
    };
    let text = text.copy(alloc)?;
    let so_far = more(alloc, so_far, *first, text)?;
    more_texts(alloc, so_far, times, texts)
}

#[tactic(auto, using(linear_forms::proofs::TextLaws::constant_laws))]
fn last(alloc: Global, so_far: Option<Expr>, constant: i64) -> Result<Expr, Memory>
    ensures { IfOk result (λ e. expression_of e ≡ with_constant (text_so_far so_far) constant) }
{
    let size = number(constant.unsigned_abs());
    let Some(sum) = so_far else {
        return if constant < 0 {
            negative(alloc, size)
        } else {
            Ok(size)
        };
    };
    if constant == 0 {
        return Ok(sum);
    }
    if constant > 0 {
        two(alloc, Op::Add, sum, size)
    } else {
        two(alloc, Op::Sub, sum, size)
    }
}

fn form_text(alloc: Global, symbols: &[Name], texts: &[Expr], form: &Affine) -> Result<Expr, Memory>
    ensures { IfOk result (λ e. expression_of e
        ≡ extent_form_text symbols.now (map expression_of texts.now) form.now) }
{
    let sum = more_symbols(alloc, None, &form.syms, symbols)?;
    let sum = more_texts(alloc, sum, &form.loops, texts)?;
    last(alloc, sum, form.constant)
}

// ---- extents

#[tactic(auto, using(tree::proofs::Equations::expression_equations))]
fn quotient(alloc: Global, expr: Expr, by: i64) -> Result<Expr, Memory>
    ensures { IfOk result (λ e. expression_of e ≡ quotient_text (expression_of expr) by) }
{
    if by == 1 {
        return Ok(expr);
    }
    two(alloc, Op::Div, expr, Expr::Int(i128::from(by)))
}

fn extent_text(
    alloc: Global,
    symbols: &[Name],
    texts: &[Expr],
    extent: &Trip,
) -> Result<Expr, Memory>
    ensures { IfOk result (λ e. expression_of e
        ≡ made_extent_text symbols.now (map expression_of texts.now) extent.now) }
{
    let text = form_text(alloc, symbols, texts, &extent.top)?;
    quotient(alloc, text, extent.by)
}

fn texts_with(
    alloc: Global,
    symbols: &[Name],
    mut texts: Seq<Expr>,
    extents: &[Trip],
) -> Result<Seq<Expr>, Memory>
    ensures { IfOk result (λ all. map expression_of all
        ≡ texts_with symbols.now (map expression_of texts) extents.now) }
{
    let Some((first, rest)) = extents.split_first() else {
        return Ok(texts);
    };
    let text = extent_text(alloc, symbols, texts.as_slice(), first)?;
    texts.push(text)?;
    texts_with(alloc, symbols, texts, rest)
}

/// The texts of extents of loops, from the outside in.
pub fn extent_texts(alloc: Global, symbols: &[Name], extents: &[Trip]) -> Result<Seq<Expr>, Memory>
    ensures { IfOk result (λ all. map expression_of all ≡ extent_texts symbols.now extents.now) }
{
    texts_with(alloc, symbols, Seq::new(alloc), extents)
}
