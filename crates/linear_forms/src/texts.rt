//! The canonical text of a form.
ghost use Rattle.std.specs.Prelude.{◌≡◌, IfOk, pos, map, slice_get};
ghost use Rattle.tree.specs.Plain.{Binary, Unary, Number};
ghost use Rattle.tree.specs.declared.ops.Op.TheVariants.{Neg};
ghost use Rattle.tree.specs.View.{expression_of};
ghost use Rattle.linear_forms.specs.Expressed.{term, plus_term, minus_term, with_term, with_terms, with_constant};
ghost use Rattle.linear_forms.specs.Expressed.{variable, variables};
ghost use Rattle.linear_forms.specs.Texts.{with_place, with_symbols, places_behind, text_of};
ghost use Rattle.linear_forms.specs.View.{text_so_far};

use std::alloc::Global;
use subscripts::Affine;
use tree::{Expr, Memory, Name, Op, Ref, Seq};

#[tactic(auto, using(tree::proofs::Equations::expression_equations))]
fn bare(alloc: Global, name: Name) -> Expr
    ensures { expression_of result ≡ variable name }
{
    Expr::Item(Ref {
        name,
        subs: Seq::new(alloc),
    })
}

#[tactic(auto, using(tree::proofs::Equations::expression_equations))]
fn two(alloc: Global, op: Op, left: Expr, right: Expr) -> Result<Expr, Memory>
    ensures { IfOk result (λ e. expression_of e ≡ Binary op (expression_of left) (expression_of right)) }
{
    let left = Box::new(alloc, left)?;
    let right = Box::new(alloc, right)?;
    Ok(Expr::Bin(op, left, right))
}

#[tactic(auto, using(tree::proofs::Equations::expression_equations))]
fn negative(alloc: Global, expr: Expr) -> Result<Expr, Memory>
    ensures { IfOk result (λ e. expression_of e ≡ Unary Neg (expression_of expr)) }
{
    let expr = Box::new(alloc, expr)?;
    Ok(Expr::Un(Op::Neg, expr))
}

#[tactic(auto, using(tree::proofs::Equations::expression_equations))]
fn number(size: u64) -> Expr
    ensures { expression_of result ≡ Number (pos size) }
{
    Expr::Int(i128::from(size))
}

// A coefficient 1 isn't written.
fn whole_term(alloc: Global, size: u64, part: Expr) -> Result<Expr, Memory>
    ensures { IfOk result (λ e. expression_of e ≡ term size (expression_of part)) }
{
    if size == 1 {
        return Ok(part);
    }
    two(alloc, Op::Mul, number(size), part)
}

fn plus(alloc: Global, so_far: Option<Expr>, term: Expr) -> Result<Expr, Memory>
    ensures { IfOk result (λ e. expression_of e ≡ plus_term (text_so_far so_far) (expression_of term)) }
{
    match so_far {
        None => Ok(term),
        Some(sum) => two(alloc, Op::Add, sum, term),
    }
}

fn minus(alloc: Global, so_far: Option<Expr>, term: Expr) -> Result<Expr, Memory>
    ensures { IfOk result (λ e. expression_of e ≡ minus_term (text_so_far so_far) (expression_of term)) }
{
    match so_far {
        None => negative(alloc, term),
        Some(sum) => two(alloc, Op::Sub, sum, term),
    }
}

#[tactic(auto, using(crate::proofs::TextLaws::term_laws))]
fn more(alloc: Global, so_far: Option<Expr>, times: i64, part: Expr) -> Result<Option<Expr>, Memory>
    ensures { IfOk result (λ o. text_so_far o ≡ with_term (text_so_far so_far) times (expression_of part)) }
{
    if times == 0 {
        return Ok(so_far);
    }
    let term = whole_term(alloc, times.unsigned_abs(), part)?;
    let sum = if times > 0 {
        plus(alloc, so_far, term)?
    } else {
        minus(alloc, so_far, term)?
    };
    Ok(Some(sum))
}

// One more term of a name.
fn more_of(
    alloc: Global,
    so_far: Option<Expr>,
    times: i64,
    name: Name,
) -> Result<Option<Expr>, Memory>
    ensures { IfOk result (λ o. text_so_far o ≡ with_term (text_so_far so_far) times (variable name)) }
{
    more(alloc, so_far, times, bare(alloc, name))
}

fn more_loops(
    alloc: Global,
    so_far: Option<Expr>,
    times: &[i64],
    names: &[Name],
) -> Result<Option<Expr>, Memory>
    ensures { IfOk result (λ o. text_so_far o ≡ with_terms (text_so_far so_far) times.now (variables names.now)) }
{
    let Some((first, times)) = times.split_first() else {
        return Ok(so_far);
    };
    let Some((name, names)) = names.split_first() else {
        return Ok(so_far);
    };
    let so_far = more_of(alloc, so_far, *first, *name)?;
    more_loops(alloc, so_far, times, names)
}

fn at_place(
    alloc: Global,
    so_far: Option<Expr>,
    times: i64,
    part: Option<Expr>,
) -> Result<Option<Expr>, Memory>
    ensures { IfOk result (λ o. text_so_far o ≡ with_place (text_so_far so_far) times (text_so_far part)) }
{
    match part {
        Some(part) => more(alloc, so_far, times, part),
        None => Ok(so_far),
    }
}

fn name_at(names: &[Name], place: usize) -> Option<Name>
    ensures { result ≡ slice_get names.now place }
{
    names.get(place).copied()
}

fn trip_at(alloc: Global, trips: &[Expr], place: usize) -> Result<Option<Expr>, Memory>
    ensures { IfOk result (λ o. text_so_far o ≡ text_so_far (slice_get trips.now place)) }
{
    match trips.get(place) {
        Some(trip) => Ok(Some(trip.copy(alloc)?)),
        None => Ok(None),
    }
}

// What stands for a place behind those of the loops.
fn part_at(
    alloc: Global,
    symbols: &[Name],
    trips: &[Expr],
    place: usize,
) -> Result<Option<Expr>, Memory>
    ensures { IfOk result (λ o. text_so_far o
        ≡ slice_get (places_behind symbols.now (map expression_of trips.now)) place) }
{
    match name_at(symbols, place) {
        Some(name) => Ok(Some(bare(alloc, name))),
        None => trip_at(alloc, trips, place.saturating_sub(symbols.len())),
    }
}

fn more_symbols(
    alloc: Global,
    so_far: Option<Expr>,
    terms: &[(u16, i64)],
    symbols: &[Name],
    trips: &[Expr],
) -> Result<Option<Expr>, Memory>
    ensures { IfOk result (λ o. text_so_far o
        ≡ with_symbols (text_so_far so_far) terms.now (places_behind symbols.now (map expression_of trips.now))) }
{
    let Some((term, terms)) = terms.split_first() else {
        return Ok(so_far);
    };
    let part = part_at(alloc, symbols, trips, usize::from(term.0))?;
    let so_far = at_place(alloc, so_far, term.1, part)?;
    more_symbols(alloc, so_far, terms, symbols, trips)
}

#[tactic(auto, using(crate::proofs::TextLaws::constant_laws))]
fn last(alloc: Global, so_far: Option<Expr>, constant: i64) -> Result<Expr, Memory>
    ensures { IfOk result (λ e. expression_of e ≡ with_constant (text_so_far so_far) constant) }
{
    let size = number(constant.unsigned_abs());
    let Some(sum) = so_far else {
        return if constant < 0 {
            negative(alloc, size)
        } else {
            Ok(size)
        };
    };
    if constant == 0 {
        return Ok(sum);
    }
    if constant > 0 {
        two(alloc, Op::Add, sum, size)
    } else {
        two(alloc, Op::Sub, sum, size)
    }
}

/// The canonical text of a form: its loop terms from the outside in, its symbols by their places, its divided trips,
/// its constant. A divided trip has a place behind those of the symbols. What has nothing that stands for it is left
/// out.
pub fn express(
    alloc: Global,
    form: &Affine,
    loops: &[Name],
    symbols: &Seq<Name>,
    trips: &[Expr],
) -> Result<Expr, Memory>
    ensures { IfOk result (λ e. expression_of e
        ≡ text_of loops.now symbols.now (map expression_of trips.now) form.now) }
{
    let sum = more_loops(alloc, None, &form.loops, loops)?;
    let sum = more_symbols(alloc, sum, &form.syms, symbols.as_slice(), trips)?;
    last(alloc, sum, form.constant)
}
