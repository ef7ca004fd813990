//! How many references there are.
ghost use Rattle.std.specs.Prelude.{◌≡◌, ◌+◌, if◌then◌else◌, IfOk, map};
ghost use Rattle.std.specs.List.{list_any};
ghost use Rattle.std.specs.Option.{option_map};
ghost use Rattle.std.specs.Str.{bytes_eq};
ghost use Rattle.tree.specs.Plain.{expressions, subscripts};
ghost use Rattle.tree.specs.View.{expression_of, reference_of, subscript_of};
ghost use Rattle.nest.specs.View.{guarded_of};
ghost use Rattle.node_splitting.specs.Counts.{count, count_all, count_guard, count_in_subscripts, count_subscript};
ghost use Rattle.node_splitting.specs.Counts.{first_in_left, first_in_right, is_counter, is_item};
ghost use Rattle.node_splitting.specs.Reads.{read_as_expression};

use nest::GuardedStmt;
use tree::{Expr, Memory, Name, Ref, Seq, Sub};

// More references than there are numbers don't fit into memory.
pub(crate) fn sum(one: u32, other: u32) -> Result<u32, Memory>
    ensures { IfOk result (λ sum. sum ≡ one + other) }
{
    match one.checked_add(other) {
        Some(sum) => Ok(sum),
        None => Err(Memory),
    }
}

fn is_among(loops: &[Name], name: Name) -> bool
    ensures { result ≡ list_any (λ other. bytes_eq other name) loops.now }
{
    loops.iter().any(|other| *other == name)
}

/// Whether it is the variable of one of the loops.
#[tactic(auto, using(crate::proofs::Counting::counter_laws))]
pub(crate) fn is_counter(loops: &[Name], item: &Ref) -> bool
    ensures { result ≡ is_counter loops.now (reference_of item.now).name (reference_of item.now).subscripts }
{
    item.subs.is_empty() && is_among(loops, item.name)
}

/// A reference by itself, without those in its subscripts.
pub(crate) fn own_count(loops: &[Name], item: &Ref) -> u32
    ensures { result ≡ (if is_counter loops.now (reference_of item.now).name (reference_of item.now).subscripts
        then 0 else 1) }
{
    if is_counter(loops, item) { 0 } else { 1 }
}

/// A reference with those in its subscripts.
#[cycle(counts)]
#[tactic(auto, using(crate::proofs::Counting::count_laws))]
pub(crate) fn count_item(loops: &[Name], item: &Ref) -> Result<u32, Memory>
    ensures { IfOk result (λ n. n ≡ count loops.now (read_as_expression (reference_of item.now))) }
{
    let inside = count_subs(loops, &item.subs)?;
    sum(own_count(loops, item), inside)
}

/// In an expression.
#[cycle(counts)]
#[tactic(auto, using(crate::proofs::Counting::count_laws))]
pub(crate) fn count(loops: &[Name], expr: &Expr) -> Result<u32, Memory>
    ensures { IfOk result (λ n. n ≡ count loops.now (expression_of expr.now)) }
{
    match expr {
        Expr::Int(_) | Expr::Truth(_) => Ok(0),
        Expr::Item(item) => count_item(loops, item),
        Expr::Un(_, a) => count(loops, a),
        Expr::Bin(_, a, b) => {
            let first = count(loops, a)?;
            sum(first, count(loops, b)?)
        }
        Expr::Call(_, arguments) => count_all(loops, arguments),
        Expr::List(values, _) => count_all(loops, values),
        Expr::Spread(array, _, extent) => {
            let first = count(loops, array)?;
            sum(first, count(loops, extent)?)
        }
        Expr::Transpose(array) => count(loops, array),
        Expr::Reshape(array, extents) => {
            let first = count(loops, array)?;
            sum(first, count_all(loops, extents)?)
        }
        Expr::Reduce(_, array) => count(loops, array),
    }
}

#[cycle(counts)]
fn count_all(loops: &[Name], exprs: &Seq<Expr>) -> Result<u32, Memory>
    ensures { IfOk result (λ n. n ≡ count_all loops.now (expressions (map expression_of exprs.now))) }
{
    let mut total = 0;
    for expr in exprs.as_slice() {
        total = sum(total, count(loops, expr)?)?;
    }
    Ok(total)
}

/// In a subscript.
#[cycle(counts)]
#[tactic(auto, using(crate::proofs::Counting::count_laws))]
pub(crate) fn count_sub(loops: &[Name], sub: &Sub) -> Result<u32, Memory>
    ensures { IfOk result (λ n. n ≡ count_subscript loops.now (subscript_of sub.now)) }
{
    match sub {
        Sub::One(expr) => count(loops, expr),
        Sub::Part(lower, upper, stride) => {
            let first = count(loops, lower)?;
            let second = count(loops, upper)?;
            sum(first, sum(second, count(loops, stride)?)?)
        }
    }
}

/// In subscripts.
#[cycle(counts)]
pub(crate) fn count_subs(loops: &[Name], subs: &Seq<Sub>) -> Result<u32, Memory>
    ensures { IfOk result (λ n. n ≡ count_in_subscripts loops.now (subscripts (map subscript_of subs.now))) }
{
    let mut total = 0;
    for sub in subs.as_slice() {
        total = sum(total, count_sub(loops, sub)?)?;
    }
    Ok(total)
}

fn count_guard(loops: &[Name], guard: &Option<Expr>) -> Result<u32, Memory>
    ensures { IfOk result (λ n. n ≡ count_guard loops.now (option_map expression_of guard.now)) }
{
    match guard {
        Some(expr) => count(loops, expr),
        None => Ok(0),
    }
}

/// The number of the first reference in the subscripts of a statement's left side.
pub(crate) fn first_in_left(loops: &[Name], stmt: &GuardedStmt) -> Result<u32, Memory>
    ensures { IfOk result (λ n. n ≡ first_in_left loops.now (guarded_of stmt.now)) }
{
    sum(1, count_guard(loops, &stmt.guard)?)
}

/// And in its right side.
#[tactic(auto, using(crate::proofs::Counting::left_laws))]
pub(crate) fn first_in_right(loops: &[Name], stmt: &GuardedStmt) -> Result<u32, Memory>
    ensures { IfOk result (λ n. n ≡ first_in_right loops.now (guarded_of stmt.now)) }
{
    let first = first_in_left(loops, stmt)?;
    sum(first, count_subs(loops, &stmt.left.subs)?)
}

/// Whether a right side is one reference as a whole.
#[tactic(auto, using(tree::proofs::Equations::expression_equations))]
pub(crate) fn is_item(expr: &Expr) -> bool
    ensures { result ≡ is_item (expression_of expr.now) }
{
    match expr {
        Expr::Item(_) => true,
        Expr::Int(_)
        | Expr::Truth(_)
        | Expr::Un(..)
        | Expr::Bin(..)
        | Expr::Call(..)
        | Expr::List(..)
        | Expr::Spread(..)
        | Expr::Transpose(_)
        | Expr::Reshape(..)
        | Expr::Reduce(..) => false,
    }
}
