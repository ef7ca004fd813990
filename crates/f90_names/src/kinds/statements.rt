//! What the kinds and the ranks have to be in statements (ISO/IEC 1539:1991, sections 6.3, 7.5, 8.1 and 9.4).
ghost use Rattle.std.specs.Prelude.{◌≡◌, ◌↔◌, List, IsTrue, map, length};
ghost use Rattle.std.specs.Option.{IsSomeAnd};
ghost use Rattle.tree.specs.Plain.{expressions, items, Declaration};
ghost use Rattle.tree.specs.View.{expression_of, reference_of, item_of};
ghost use Rattle.tree.specs.declared.ops.Kind.TheVariants.{Logical};
ghost use Rattle.meaning.specs.Typed.{declared};
ghost use Rattle.meaning.specs.Typed90.{IsScalar, IsIntegerScalar};
ghost use Rattle.meaning.specs.Extents.{IsAllocatable};
ghost use Rattle.f90_grammar.specs.Suited.{SuitsAssignment, SuitsMask, AreNumbers, SuitsItems, SuitsAllocation};
ghost use Rattle.f90_grammar.specs.Items.{Input, Output};
ghost use Rattle.f90_names.specs.kinds.declarations.Names.{AreNamesOf, found};
ghost use Rattle.f90_names.specs.kinds.Found as plain;
ghost use Rattle.f90_names.specs.kinds.Directions.{direction_of};

use crate::kinds::declarations::Names;
use crate::kinds::kinds::{are_scalars, find_kind, find_reference};
use crate::kinds::nodes::{holds_integer, is_scalar, is_single, mask_and_sides, suits_sides};
use tree::{Expr, Item, Kind, Name, Ref, Seq};

/// The list of READ, or that of PRINT.
#[derive(Clone, Copy, Debug)]
pub(crate) enum Transfer {
    In,
    Out,
}

/// Whether the right side has the kind of the left side, and its rank or that of a scalar (ISO/IEC
/// 1539:1991, section 7.5.1).
pub fn suits_assignment(left: &Ref, right: &Expr, names: &Names) -> bool
    ensures { (ds : List Declaration) → AreNamesOf names.now ds → IsTrue result
        ↔ SuitsAssignment ds (reference_of left.now) (expression_of right.now) }
{
    suits_sides(find_reference(left, names), find_kind(right, names))
}

/// Whether the mask and the left side are arrays of one rank, and the assignment suits (ISO/IEC
/// 1539:1991, section 7.5.3).
pub fn suits_masked(mask: &Expr, left: &Ref, right: &Expr, names: &Names) -> bool
    ensures { (ds : List Declaration) → AreNamesOf names.now ds → IsTrue result
        ↔ (SuitsMask ds (expression_of mask.now) (reference_of left.now)
        × SuitsAssignment ds (reference_of left.now) (expression_of right.now)) }
{
    mask_and_sides(
        find_kind(mask, names),
        find_reference(left, names),
        find_kind(right, names),
    )
}

fn three_numbers(first: &Expr, last: &Expr, step: &Expr, names: &Names) -> bool
    ensures { result ≡ plain.are_numbers (found names.now) (expression_of first.now) (expression_of last.now)
        (expression_of step.now) }
{
    is_scalar(find_kind(first, names), Kind::Integer)
        && is_scalar(find_kind(last, names), Kind::Integer)
        && is_scalar(find_kind(step, names), Kind::Integer)
}

/// Whether the parameters of a DO loop are INTEGER scalars (ISO/IEC 1539:1991, section 8.1.4.1).
pub fn are_numbers(first: &Expr, last: &Expr, step: &Expr, names: &Names) -> bool
    ensures { (ds : List Declaration) → AreNamesOf names.now ds → IsTrue result
        ↔ AreNumbers ds (expression_of first.now) (expression_of last.now) (expression_of step.now) }
{
    three_numbers(first, last, step, names)
}

/// Whether a condition is a LOGICAL scalar (ISO/IEC 1539:1991, section 8.1.2).
pub fn is_condition(expr: &Expr, names: &Names) -> bool
    ensures { (ds : List Declaration) → AreNamesOf names.now ds → IsTrue result
        ↔ IsScalar ds (expression_of expr.now) Logical }
{
    is_scalar(find_kind(expr, names), Kind::Logical)
}

#[tactic(auto, using(tree::proofs::Equations::expression_equations, crate::proofs::kinds::Counts::counts))]
fn suits_alone(expr: &Expr, way: Transfer, names: &Names) -> bool
    ensures { result ≡ plain.suits_alone (found names.now) (direction_of way) (expression_of expr.now) }
{
    match way {
        Transfer::Out => find_kind(expr, names).is_some(),
        Transfer::In => is_input(expr, names),
    }
}

// A variable, an element or a whole array.
#[tactic(auto, using(tree::proofs::Equations::expression_equations, crate::proofs::kinds::Counts::counts))]
fn is_input(expr: &Expr, names: &Names) -> bool
    ensures { result ≡ plain.suits_alone (found names.now) Input (expression_of expr.now) }
{
    match expr {
        Expr::Item(item) => is_single(item.subs.len(), find_reference(item, names)),
        Expr::Int(_) => false,
        Expr::Truth(_) => false,
        Expr::Un(..) => false,
        Expr::Bin(..) => false,
        Expr::Call(..) => false,
        Expr::List(..) => false,
        Expr::Spread(..) => false,
        Expr::Transpose(_) => false,
        Expr::Reshape(..) => false,
        Expr::Reduce(..) => false,
    }
}

#[cycle(items)]
#[tactic(auto, using(tree::proofs::Equations::item_equations))]
fn suits_item(item: &Item, way: Transfer, names: &Names) -> bool
    ensures { result ≡ plain.suits_item (found names.now) (direction_of way) (item_of item.now) }
{
    match item {
        Item::One(expr) => suits_alone(expr, way, names),
        Item::Text(_) => true,
        Item::Turns(list, _, first, last, step) => {
            suits_items(list, way, names) && three_numbers(first, last, step, names)
        }
    }
}

#[cycle(items)]
fn suits_items(list: &Seq<Item>, way: Transfer, names: &Names) -> bool
    ensures { result ≡ plain.suits_items (found names.now) (direction_of way) (items (map item_of list.now)) }
{
    for item in list.as_slice() {
        if !suits_item(item, way, names) {
            return false;
        }
    }
    true
}

/// Whether the list of READ suits (ISO/IEC 1539:1991, section 9.4.2).
pub fn suits_input(list: &Seq<Item>, names: &Names) -> bool
    ensures { (ds : List Declaration) → AreNamesOf names.now ds → IsTrue result
        ↔ SuitsItems ds Input (items (map item_of list.now)) }
{
    suits_items(list, Transfer::In, names)
}

/// Whether the list of PRINT suits (ISO/IEC 1539:1991, section 9.4.2).
pub fn suits_output(list: &Seq<Item>, names: &Names) -> bool
    ensures { (ds : List Declaration) → AreNamesOf names.now ds → IsTrue result
        ↔ SuitsItems ds Output (items (map item_of list.now)) }
{
    suits_items(list, Transfer::Out, names)
}

#[tactic(auto, using(crate::proofs::kinds::Counts::counts))]
fn allocates(name: Name, extents: &Seq<Expr>, names: &Names) -> bool
    ensures { result ≡ plain.allocates (found names.now) name (expressions (map expression_of extents.now)) }
{
    is_later_of(name, extents.len(), names) && are_scalars(extents, Kind::Integer, names)
}

fn is_later_of(name: Name, rank: usize, names: &Names) -> bool
    ensures { result ≡ plain.is_later_of (found names.now name) rank }
{
    match names.find(name) {
        Some(known) => known.is_allocatable && known.rank == rank,
        None => false,
    }
}

fn is_later(name: Name, names: &Names) -> bool
    ensures { result ≡ plain.is_later (found names.now name) }
{
    match names.find(name) {
        Some(known) => known.is_allocatable,
        None => false,
    }
}

/// Whether the name is an allocatable array, and has an extent for each of its dimensions (ISO/IEC
/// 1539:1991, section 6.3.1).
pub fn suits_allocation(name: Name, extents: &Seq<Expr>, names: &Names) -> bool
    ensures { (ds : List Declaration) → AreNamesOf names.now ds → IsTrue result
        ↔ SuitsAllocation ds name (expressions (map expression_of extents.now)) }
{
    allocates(name, extents, names)
}

/// Whether the name is an allocatable array (ISO/IEC 1539:1991, section 6.3.3).
pub fn suits_deallocation(name: Name, names: &Names) -> bool
    ensures { (ds : List Declaration) → AreNamesOf names.now ds → IsTrue result
        ↔ IsSomeAnd (declared ds name) (λ d. IsAllocatable d.extent) }
{
    is_later(name, names)
}

/// Whether the name is a variable of one INTEGER.
pub fn is_integer_scalar(name: Name, names: &Names) -> bool
    ensures { (ds : List Declaration) → AreNamesOf names.now ds → IsTrue result ↔ IsIntegerScalar ds name }
{
    holds_integer(names.find(name))
}
