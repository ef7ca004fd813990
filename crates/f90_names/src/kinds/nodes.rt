//! The kind and the rank of one node, by those of its parts: none where something in a part doesn't suit.
ghost use Rattle.std.specs.Prelude.{◌≡◌, ◌≤◌, IfSome};
ghost use Rattle.f90_names.specs.kinds.Found as plain;

use crate::kinds::declarations::Declared;
use tree::{ARRAY_DIMENSIONS, Fun, Kind, Op};

/// The kind and the rank of an expression; a scalar has the rank 0.
#[derive(Clone, Copy, Debug)]
pub struct Ranked {
    pub kind: Kind,
    pub rank: usize,
}

impl Ranked {
    pub(crate) fn given_if(suits: bool, kind: Kind, rank: usize) -> Option<Ranked>
        ensures { result ≡ plain.ranked_if suits kind rank }
    {
        if suits {
            Some(Ranked { kind, rank })
        } else {
            None
        }
    }
}

pub(crate) fn same_kind(a: Kind, b: Kind) -> bool
    ensures { result ≡ plain.same_kind a b }
{
    a == b
}

pub(crate) fn is_scalar(found: Option<Ranked>, kind: Kind) -> bool
    ensures { result ≡ plain.is_scalar found kind }
{
    match found {
        Some(found) => same_kind(found.kind, kind) && found.rank == 0,
        None => false,
    }
}

fn conform(a: usize, b: usize) -> bool
    ensures { result ≡ plain.conform a b }
{
    a == 0 || b == 0 || a == b
}

pub(crate) fn literal(number: i128) -> Option<Ranked>
    ensures { result ≡ plain.literal number }
{
    Ranked::given_if(0 <= number, Kind::Integer, 0)
}

pub(crate) fn name_with(
    known: Option<Declared>,
    subscripts: usize,
    rank: Option<usize>,
) -> Option<Ranked>
    ensures { result ≡ plain.name_with known subscripts rank }
{
    let known = known?;
    let rank = rank?;
    if subscripts == 0 {
        return Some(Ranked {
            kind: known.kind,
            rank: known.rank,
        });
    }
    Ranked::given_if(subscripts == known.rank, known.kind, rank)
}

pub(crate) fn unary(op: Op, a: Option<Ranked>) -> Option<Ranked>
    ensures { result ≡ plain.unary op a }
{
    let a = a?;
    let suits = !op.stands_between() && same_kind(a.kind, op.operand_kind());
    Ranked::given_if(suits, op.result_kind(), a.rank)
}

pub(crate) fn binary(op: Op, a: Option<Ranked>, b: Option<Ranked>) -> Option<Ranked>
    ensures { result ≡ plain.binary op a b }
{
    let a = a?;
    let b = b?;
    let kind = op.operand_kind();
    let suits = op.stands_between()
        && same_kind(a.kind, kind)
        && same_kind(b.kind, kind)
        && conform(a.rank, b.rank);
    Ranked::given_if(suits, op.result_kind(), a.rank.max(b.rank))
}

pub(crate) fn call(
    function: Fun,
    free: bool,
    arguments: usize,
    rank: Option<usize>,
) -> Option<Ranked>
    ensures { result ≡ plain.call function free arguments rank }
{
    let rank = rank?;
    Ranked::given_if(function.takes(arguments) && free, Kind::Integer, rank)
}

pub(crate) fn constructor(
    values: usize,
    loops: usize,
    suit: bool,
    kind: Option<Kind>,
) -> Option<Ranked>
    ensures { result ≡ plain.constructor values loops suit kind }
{
    let kind = kind?;
    let counts = if loops == 0 { 1 <= values } else { values == 1 };
    Ranked::given_if(suit && counts, kind, 1)
}

pub(crate) fn spread(
    free: bool,
    array: Option<Ranked>,
    dimension: usize,
    extent: Option<Ranked>,
) -> Option<Ranked>
    ensures { result ≡ plain.spread free array dimension extent }
{
    let array = array?;
    let suits = free
        && 1 <= dimension
        && array.rank < ARRAY_DIMENSIONS
        && dimension <= array.rank + 1
        && is_scalar(extent, Kind::Integer);
    if suits {
        Some(Ranked {
            kind: array.kind,
            rank: array.rank + 1,
        })
    } else {
        None
    }
}

pub(crate) fn transpose(free: bool, array: Option<Ranked>) -> Option<Ranked>
    ensures { result ≡ plain.transpose free array }
{
    let array = array?;
    Ranked::given_if(free && array.rank == 2, array.kind, 2)
}

pub(crate) fn reshape(
    free: bool,
    array: Option<Ranked>,
    extents: usize,
    suit: bool,
) -> Option<Ranked>
    ensures { result ≡ plain.reshape free array extents suit }
{
    let array = array?;
    let suits = free && 1 <= array.rank && 1 <= extents && extents <= ARRAY_DIMENSIONS && suit;
    Ranked::given_if(suits, array.kind, extents)
}

pub(crate) fn reduce(free: bool, array: Option<Ranked>) -> Option<Ranked>
    ensures { result ≡ plain.reduce free array }
{
    let array = array?;
    let suits = free && 1 <= array.rank && same_kind(array.kind, Kind::Integer);
    Ranked::given_if(suits, Kind::Integer, 0)
}

/// The rank of a subscript that is one expression.
pub(crate) fn only(found: Option<Ranked>) -> Option<usize>
    ensures rank { result ≡ plain.only found }
    ensures small { IfSome result (λ rank. rank ≤ 1) }
{
    let found = found?;
    if same_kind(found.kind, Kind::Integer) && found.rank <= 1 {
        Some(found.rank)
    } else {
        None
    }
}

/// The rank of a subscript that is a section.
pub(crate) fn section(
    lower: Option<Ranked>,
    upper: Option<Ranked>,
    stride: Option<Ranked>,
) -> Option<usize>
    ensures rank { result ≡ plain.section lower upper stride }
    ensures small { IfSome result (λ rank. rank ≤ 1) }
{
    let suits = is_scalar(lower, Kind::Integer)
        && is_scalar(upper, Kind::Integer)
        && is_scalar(stride, Kind::Integer);
    if suits { Some(1) } else { None }
}

/// The greatest rank of arguments, with one argument more.
pub(crate) fn with_argument(rank: usize, found: Option<Ranked>) -> Option<usize>
    ensures { result ≡ plain.with_argument rank found }
{
    let found = found?;
    if same_kind(found.kind, Kind::Integer) && conform(rank, found.rank) {
        Some(rank.max(found.rank))
    } else {
        None
    }
}

/// The kind of scalars, with one scalar more.
pub(crate) fn with_scalar(kind: Option<Kind>, found: Option<Ranked>) -> Option<Kind>
    ensures { result ≡ plain.with_scalar kind found }
{
    let found = found?;
    if found.rank != 0 {
        return None;
    }
    match kind {
        Some(kind) if !same_kind(found.kind, kind) => None,
        _ => Some(found.kind),
    }
}

pub(crate) fn holds_integer(known: Option<Declared>) -> bool
    ensures { result ≡ plain.is_integer_scalar known }
{
    match known {
        Some(known) => same_kind(known.kind, Kind::Integer) && known.rank == 0,
        None => false,
    }
}

pub(crate) fn suits_loop(
    variable: Option<Declared>,
    first: Option<Ranked>,
    last: Option<Ranked>,
) -> bool
    ensures { result ≡ plain.suits_loop variable first last }
{
    holds_integer(variable) && is_scalar(first, Kind::Integer) && is_scalar(last, Kind::Integer)
}

/// The right side of an assignment has the kind of the left side, and its rank or that of a scalar.
pub(crate) fn suits_sides(left: Option<Ranked>, right: Option<Ranked>) -> bool
    ensures { result ≡ plain.suits_sides left right }
{
    match (left, right) {
        (Some(left), Some(right)) => {
            same_kind(right.kind, left.kind) && (right.rank == 0 || right.rank == left.rank)
        }
        _ => false,
    }
}

/// The mask is LOGICAL, and an array of the left side's rank.
fn suits_mask(mask: Option<Ranked>, left: Option<Ranked>) -> bool
    ensures { result ≡ plain.suits_mask mask left }
{
    match (mask, left) {
        (Some(mask), Some(left)) => {
            same_kind(mask.kind, Kind::Logical) && 1 <= left.rank && mask.rank == left.rank
        }
        _ => false,
    }
}

/// A variable or a whole array without subscripts, or else an element.
pub(crate) fn is_single(subscripts: usize, found: Option<Ranked>) -> bool
    ensures { result ≡ plain.is_single subscripts found }
{
    match found {
        Some(found) => subscripts == 0 || found.rank == 0,
        None => false,
    }
}

/// A mask, the left side and the right side.
pub(crate) fn mask_and_sides(
    mask: Option<Ranked>,
    left: Option<Ranked>,
    right: Option<Ranked>,
) -> bool
    ensures { result ≡ plain.mask_and_sides mask left right }
{
    suits_mask(mask, left) && suits_sides(left, right)
}
