//! The kind and the rank of an expression.
ghost use Rattle.std.specs.Prelude.{◌≡◌, ◌≤◌, List, [], ◌∷◌, map, IfSome};
ghost use Rattle.tree.specs.Plain.{expressions, subscripts, Declaration};
ghost use Rattle.tree.specs.View.{expression_of, subscript_of, reference_of, loop_of, constructor_loops};
ghost use Rattle.meaning.specs.Value.{named};
ghost use Rattle.f90_names.specs.kinds.declarations.Names.{AreNamesOf, found};
ghost use Rattle.f90_names.specs.kinds.Found as plain;
ghost use Rattle.f90_names.specs.kinds.Kinds.{IsKindOf};

use crate::kinds::declarations::Names;
use crate::kinds::nodes::{
    Ranked, binary, call, constructor, is_scalar, literal, name_with, only, reduce, reshape,
    section, spread, suits_loop, transpose, unary, with_argument, with_scalar,
};
use tree::{Expr, Intrinsic, Kind, Name, Ref, Seq, Sub, Turn};

/// The kind and the rank of the expression, by the declarations of these names: none where something in it doesn't
/// suit (ISO/IEC 1539:1991, sections 4.5, 6.2, 7.1 and 13).
pub fn kind_of(expr: &Expr, names: &Names) -> Option<Ranked>
    ensures { (ds : List Declaration) → AreNamesOf names.now ds → IsKindOf ds (expression_of expr.now) result }
{
    find_kind(expr, names)
}

// No variable hides the function.
fn is_free(function: Intrinsic, names: &Names) -> bool
    ensures { result ≡ plain.is_free (found names.now) function }
{
    match Name::read(function.spell90().as_bytes()) {
        Some(name) => names.find(name).is_none(),
        None => true,
    }
}

// The same by what is known of each name.
#[cycle(kinds)]
#[tactic(auto, using(tree::proofs::Equations::expression_equations, crate::proofs::kinds::Counts::counts))]
pub(crate) fn find_kind(expr: &Expr, names: &Names) -> Option<Ranked>
    ensures { result ≡ plain.kind_in (found names.now) (expression_of expr.now) }
{
    match expr {
        Expr::Int(number) => literal(*number),
        Expr::Truth(_) => Ranked::given_if(true, Kind::Logical, 0),
        Expr::Item(item) => find_reference(item, names),
        Expr::Un(op, a) => unary(*op, find_kind(a, names)),
        Expr::Bin(op, a, b) => binary(*op, find_kind(a, names), find_kind(b, names)),
        Expr::Call(function, arguments) => {
            let free = is_free(Intrinsic::Elemental(*function), names);
            let rank = common_rank(arguments, names);
            call(*function, free, arguments.len(), rank)
        }
        Expr::List(values, turns) => {
            let kind = common_kind(values, names);
            constructor(values.len(), turns.len(), are_loops(turns, names), kind)
        }
        Expr::Spread(array, dimension, extent) => {
            let free = is_free(Intrinsic::Spread, names);
            let extent = find_kind(extent, names);
            spread(free, find_kind(array, names), *dimension, extent)
        }
        Expr::Transpose(array) => {
            let free = is_free(Intrinsic::Transpose, names);
            transpose(free, find_kind(array, names))
        }
        Expr::Reshape(array, extents) => {
            let free = is_free(Intrinsic::Reshape, names);
            let suit = are_scalars(extents, Kind::Integer, names);
            reshape(free, find_kind(array, names), extents.len(), suit)
        }
        Expr::Reduce(reduction, array) => {
            let free = is_free(Intrinsic::Reduction(*reduction), names);
            reduce(free, find_kind(array, names))
        }
    }
}

#[cycle(kinds)]
#[tactic(auto, using(tree::proofs::Equations::expression_equations, crate::proofs::kinds::Counts::counts))]
pub(crate) fn find_reference(reference: &Ref, names: &Names) -> Option<Ranked>
    ensures { result ≡ plain.kind_in (found names.now) (named (reference_of reference.now)) }
{
    let rank = rank_of_all(&reference.subs, names);
    name_with(names.find(reference.name), reference.subs.len(), rank)
}

// The greatest rank of arguments.
#[cycle(kinds)]
fn common_rank(arguments: &Seq<Expr>, names: &Names) -> Option<usize>
    ensures { result ≡ plain.common_rank (found names.now) 0 (expressions (map expression_of arguments.now)) }
{
    let mut rank = 0;
    for argument in arguments.as_slice() {
        rank = with_argument(rank, find_kind(argument, names))?;
    }
    Some(rank)
}

// The kind of scalars, if there is one at least.
#[cycle(kinds)]
fn common_kind(values: &Seq<Expr>, names: &Names) -> Option<Kind>
    ensures { result ≡ plain.common_kind (found names.now) None (expressions (map expression_of values.now)) }
{
    let mut kind = None;
    for value in values.as_slice() {
        kind = Some(with_scalar(kind, find_kind(value, names))?);
    }
    kind
}

#[cycle(kinds)]
pub(crate) fn are_scalars(exprs: &Seq<Expr>, kind: Kind, names: &Names) -> bool
    ensures { result ≡ plain.are_scalars (found names.now) kind (expressions (map expression_of exprs.now)) }
{
    for expr in exprs.as_slice() {
        if !is_scalar(find_kind(expr, names), kind) {
            return false;
        }
    }
    true
}

#[cycle(kinds)]
#[tactic(auto, using(tree::proofs::Equations::expression_equations, crate::proofs::kinds::Counts::counts))]
fn is_loop(turn: &Turn, names: &Names) -> bool
    ensures { result ≡ plain.are_loops (found names.now) (constructor_loops (loop_of turn.now ∷ [])) }
{
    let first = find_kind(&turn.first, names);
    suits_loop(names.find(turn.var), first, find_kind(&turn.last, names))
}

#[cycle(kinds)]
fn are_loops(turns: &Seq<Turn>, names: &Names) -> bool
    ensures { result ≡ plain.are_loops (found names.now) (constructor_loops (map loop_of turns.now)) }
{
    for turn in turns.as_slice() {
        if !is_loop(turn, names) {
            return false;
        }
    }
    true
}

// The sum of the ranks of subscripts.
#[cycle(kinds)]
fn rank_of_all(subs: &Seq<Sub>, names: &Names) -> Option<usize>
    ensures { result ≡ plain.rank_of_all (found names.now) 0 (subscripts (map subscript_of subs.now)) }
{
    let mut rank = 0;
    for sub in subs.as_slice() {
        rank += rank_of_one(sub, names)?;
    }
    Some(rank)
}

#[cycle(kinds)]
#[tactic(auto, using(tree::proofs::Equations::expression_equations, crate::proofs::kinds::Counts::counts))]
fn rank_of_one(sub: &Sub, names: &Names) -> Option<usize>
    ensures rank { result ≡ plain.rank_in (found names.now) (subscript_of sub.now) }
    ensures small { IfSome result (λ rank. rank ≤ 1) }
{
    match sub {
        Sub::One(expr) => only(find_kind(expr, names)),
        Sub::Part(lower, upper, stride) => {
            let lower = find_kind(lower, names);
            let upper = find_kind(upper, names);
            section(lower, upper, find_kind(stride, names))
        }
    }
}
