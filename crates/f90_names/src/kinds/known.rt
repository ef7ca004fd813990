//! Whether the names in expressions and statements are declared (ISO/IEC 1539:1991, sections 5 and 6.2).
ghost use Rattle.std.specs.Prelude.{◌≡◌, ◌↔◌, List, [], ◌∷◌, IsTrue, map};
ghost use Rattle.tree.specs.Plain.{expressions, subscripts, items, Declaration};
ghost use Rattle.tree.specs.View.{expression_of, subscript_of, reference_of, loop_of, constructor_loops, item_of};
ghost use Rattle.tree.specs.declared.exprs.Expr.TheVariants as exprs;
ghost use Rattle.f90_grammar.specs.Declared.{IsKnown, use90_of};
ghost use Rattle.f90_grammar.specs.Items.{Input, Output};
ghost use Rattle.f90_names.specs.kinds.declarations.Names.{AreNamesOf, found};
ghost use Rattle.f90_names.specs.kinds.Directions.{direction_of};
ghost use Rattle.f90_names.specs.kinds.FoundNames as plain;
ghost use Rattle.f90_names.specs.kinds.Known.{KnowsNames, KnowsAll, KnowsReference, KnowsItems};

use crate::kinds::declarations::Names;
use crate::kinds::statements::Transfer;
use tree::{Expr, Intrinsic, Item, Name, Ref, Seq, Sub, Turn};

/// Whether the names in the expression are declared, and have as many subscripts as dimensions or none.
pub fn knows_names(expr: &Expr, names: &Names) -> bool
    ensures { (ds : List Declaration) → AreNamesOf names.now ds → IsTrue result
        ↔ KnowsNames ds (expression_of expr.now) }
{
    knows(expr, names)
}

/// Whether the names in the expressions are known.
pub fn all_know_names(exprs: &Seq<Expr>, names: &Names) -> bool
    ensures { (ds : List Declaration) → AreNamesOf names.now ds → IsTrue result
        ↔ KnowsAll ds (expressions (map expression_of exprs.now)) }
{
    knows_all(exprs, names)
}

/// Whether the names in what is stored into are known.
pub fn reference_knows_names(reference: &Ref, names: &Names) -> bool
    ensures { (ds : List Declaration) → AreNamesOf names.now ds → IsTrue result
        ↔ KnowsReference ds (reference_of reference.now) }
{
    knows_reference(reference, names)
}

/// Whether the name is declared.
pub fn is_declared(name: Name, names: &Names) -> bool
    ensures { (ds : List Declaration) → AreNamesOf names.now ds → IsTrue result ↔ IsKnown ds (use90_of name 0) }
{
    is_known(name, 0, names)
}

/// Whether the names in the list of READ are known, but for the variables of implied DO lists.
pub fn input_knows_names(list: &Seq<Item>, names: &Names) -> bool
    ensures { (ds : List Declaration) → AreNamesOf names.now ds → IsTrue result
        ↔ KnowsItems ds Input (items (map item_of list.now)) }
{
    knows_items(list, Transfer::In, names)
}

/// Whether the names in the list of PRINT are known, but for the variables of implied DO lists.
pub fn output_knows_names(list: &Seq<Item>, names: &Names) -> bool
    ensures { (ds : List Declaration) → AreNamesOf names.now ds → IsTrue result
        ↔ KnowsItems ds Output (items (map item_of list.now)) }
{
    knows_items(list, Transfer::Out, names)
}

fn is_known(name: Name, subscripts: usize, names: &Names) -> bool
    ensures { result ≡ plain.is_known (found names.now name) subscripts }
{
    match names.find(name) {
        Some(known) => subscripts == 0 || subscripts == known.rank,
        None => false,
    }
}

fn is_known_or_function(name: Name, subscripts: usize, names: &Names) -> bool
    ensures { result ≡ plain.is_known_or_function (found names.now name) name subscripts }
{
    match names.find(name) {
        Some(known) => subscripts == 0 || subscripts == known.rank,
        None => subscripts != 0 && Intrinsic::read90(name.text()).is_some(),
    }
}

#[cycle(names)]
#[tactic(auto, using(tree::proofs::Equations::expression_equations, crate::proofs::kinds::Counts::counts))]
fn knows(expr: &Expr, names: &Names) -> bool
    ensures { result ≡ plain.knows (found names.now) (expression_of expr.now) }
{
    match expr {
        Expr::Int(_) => true,
        Expr::Truth(_) => true,
        Expr::Item(item) => knows_variable(item, names),
        Expr::Un(_, a) => knows(a, names),
        Expr::Bin(_, a, b) => knows(a, names) && knows(b, names),
        Expr::Call(_, arguments) => knows_all(arguments, names),
        Expr::List(values, turns) => knows_all(values, names) && knows_loops(turns, names),
        Expr::Spread(array, _, extent) => knows(array, names) && knows(extent, names),
        Expr::Transpose(array) => knows(array, names),
        Expr::Reshape(array, extents) => knows(array, names) && knows_all(extents, names),
        Expr::Reduce(_, array) => knows(array, names),
    }
}

// A variable, or a call with a wrong number of arguments.
#[cycle(names)]
#[tactic(auto, using(tree::proofs::Equations::expression_equations, crate::proofs::kinds::Counts::counts))]
fn knows_variable(item: &Ref, names: &Names) -> bool
    ensures { result ≡ plain.knows (found names.now) (expression_of (exprs.Item item.now)) }
{
    is_known_or_function(item.name, item.subs.len(), names) && knows_subs(&item.subs, names)
}

#[cycle(names)]
fn knows_all(exprs: &Seq<Expr>, names: &Names) -> bool
    ensures { result ≡ plain.knows_all (found names.now) (expressions (map expression_of exprs.now)) }
{
    for expr in exprs.as_slice() {
        if !knows(expr, names) {
            return false;
        }
    }
    true
}

#[cycle(names)]
#[tactic(auto, using(tree::proofs::Equations::expression_equations, crate::proofs::kinds::Counts::counts))]
fn knows_loop(turn: &Turn, names: &Names) -> bool
    ensures { result ≡ plain.knows_loops (found names.now) (constructor_loops (loop_of turn.now ∷ [])) }
{
    is_known(turn.var, 0, names) && knows(&turn.first, names) && knows(&turn.last, names)
}

#[cycle(names)]
fn knows_loops(turns: &Seq<Turn>, names: &Names) -> bool
    ensures { result ≡ plain.knows_loops (found names.now) (constructor_loops (map loop_of turns.now)) }
{
    for turn in turns.as_slice() {
        if !knows_loop(turn, names) {
            return false;
        }
    }
    true
}

#[cycle(names)]
#[tactic(auto, using(tree::proofs::Equations::expression_equations, crate::proofs::kinds::Counts::counts))]
fn knows_sub(sub: &Sub, names: &Names) -> bool
    ensures { result ≡ plain.knows_subscript (found names.now) (subscript_of sub.now) }
{
    match sub {
        Sub::One(expr) => knows(expr, names),
        Sub::Part(lower, upper, stride) => {
            knows(lower, names) && knows(upper, names) && knows(stride, names)
        }
    }
}

#[cycle(names)]
fn knows_subs(subs: &Seq<Sub>, names: &Names) -> bool
    ensures { result ≡ plain.knows_subscripts (found names.now) (subscripts (map subscript_of subs.now)) }
{
    for sub in subs.as_slice() {
        if !knows_sub(sub, names) {
            return false;
        }
    }
    true
}

#[tactic(auto, using(tree::proofs::Equations::expression_equations, crate::proofs::kinds::Counts::counts))]
fn knows_reference(reference: &Ref, names: &Names) -> bool
    ensures { result ≡ plain.knows_reference (found names.now) (reference_of reference.now) }
{
    is_known(reference.name, reference.subs.len(), names) && knows_subs(&reference.subs, names)
}

#[tactic(auto, using(tree::proofs::Equations::expression_equations, crate::proofs::kinds::Counts::counts))]
fn knows_input(expr: &Expr, names: &Names) -> bool
    ensures { result ≡ plain.knows_single (found names.now) Input (expression_of expr.now) }
{
    match expr {
        Expr::Item(item) => knows_reference(item, names),
        Expr::Int(_) => false,
        Expr::Truth(_) => false,
        Expr::Un(..) => false,
        Expr::Bin(..) => false,
        Expr::Call(..) => false,
        Expr::List(..) => false,
        Expr::Spread(..) => false,
        Expr::Transpose(_) => false,
        Expr::Reshape(..) => false,
        Expr::Reduce(..) => false,
    }
}

fn knows_single(expr: &Expr, way: Transfer, names: &Names) -> bool
    ensures { result ≡ plain.knows_single (found names.now) (direction_of way) (expression_of expr.now) }
{
    match way {
        Transfer::Out => knows(expr, names),
        Transfer::In => knows_input(expr, names),
    }
}

#[cycle(listed)]
#[tactic(auto, using(tree::proofs::Equations::item_equations))]
fn knows_item(item: &Item, way: Transfer, names: &Names) -> bool
    ensures { result ≡ plain.knows_item (found names.now) (direction_of way) (item_of item.now) }
{
    match item {
        Item::One(expr) => knows_single(expr, way, names),
        Item::Text(_) => true,
        Item::Turns(list, _, first, last, step) => {
            knows_items(list, way, names)
                && knows(first, names)
                && knows(last, names)
                && knows(step, names)
        }
    }
}

#[cycle(listed)]
fn knows_items(list: &Seq<Item>, way: Transfer, names: &Names) -> bool
    ensures { result ≡ plain.knows_items (found names.now) (direction_of way) (items (map item_of list.now)) }
{
    for item in list.as_slice() {
        if !knows_item(item, way, names) {
            return false;
        }
    }
    true
}
