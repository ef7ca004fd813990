//! The kinds that operators give, and the numbers of arguments (ANSI X3.9-1978, sections 6.1, 6.3, 6.4 and 15.10).
ghost use Rattle.std.specs.Prelude.{◌≡◌, ◌&&◌, not};
ghost use Rattle.tree.specs.Functions.{suits_number};
ghost use Rattle.tree.specs.OperatorTable.{is_unary, result_kind_of};
ghost use Rattle.f77_grammar.specs.program.Kinds as kinds;

use tree::{Fun, Kind, Op};

/// The kinds are equal.
pub fn same_kind(a: Kind, b: Kind) -> bool
    ensures { result ≡ kinds.same_kind a b }
{
    a == b
}

/// The operator stands before one operand and gives values of this kind.
pub fn unary_gives(op: Op, kind: Kind) -> bool
    ensures { result ≡ (is_unary op && kinds.same_kind (result_kind_of op) kind) }
{
    !op.stands_between() && same_kind(op.result_kind(), kind)
}

/// The operator stands between two operands and gives values of this kind.
pub fn binary_gives(op: Op, kind: Kind) -> bool
    ensures { result ≡ (not (is_unary op) && kinds.same_kind (result_kind_of op) kind) }
{
    op.stands_between() && same_kind(op.result_kind(), kind)
}

/// The function has so many arguments, and gives values of this kind.
pub fn call_gives(function: Fun, count: usize, kind: Kind) -> bool
    ensures { result ≡ (suits_number function count && kinds.same_kind Kind.Integer kind) }
{
    function.takes(count) && same_kind(Kind::Integer, kind)
}

/// There is a function, and it has so many arguments.
pub fn takes_so_many(function: Option<Fun>, count: usize) -> bool
    ensures { result ≡ kinds.takes_so_many function count }
{
    match function {
        Some(function) => function.takes(count),
        None => false,
    }
}
