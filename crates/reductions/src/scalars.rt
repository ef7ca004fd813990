//! Which expressions are scalars, by the declarations.
ghost use Rattle.std.specs.Prelude.{◌≡◌, map};
ghost use Rattle.tree.specs.Plain.{expressions, subscripts};
ghost use Rattle.tree.specs.View.{declaration_of, expression_of, extent_of, reference_of, subscript_of};
ghost use Rattle.meaning.specs.Value.{are_indices, are_scalar, is_bare, is_index, is_scalar, named};
ghost use Rattle.reductions.specs.Finding.{bounds_by, bounds_given};

use tree::{Decl, Expr, Extent, Name, Ref, Seq, Sub};

fn has_no_dimension(extent: &Extent) -> bool
    ensures { result ≡ is_bare (bounds_given (extent_of extent.now)) }
{
    match extent {
        Extent::Scalar => true,
        Extent::Fixed(dims) => dims.as_slice().is_empty(),
        Extent::Later(_) => false,
    }
}

fn is_bare(decls: &[Decl], name: Name) -> bool
    ensures { result ≡ is_bare (bounds_by (map declaration_of decls.now) name) }
{
    let Some((first, rest)) = decls.split_first() else {
        return false;
    };
    if first.name == name {
        return has_no_dimension(&first.extent);
    }
    is_bare(rest, name)
}

/// Whether an expression is a scalar.
#[cycle(scalars)]
#[tactic(auto, using(crate::proofs::ScalarLaws::scalar_laws))]
pub(crate) fn is_scalar(decls: &Seq<Decl>, expr: &Expr) -> bool
    ensures { result ≡ is_scalar (expression_of expr.now) (bounds_by (map declaration_of decls.now)) }
{
    match expr {
        Expr::Int(_) => true,
        Expr::Truth(_) => true,
        Expr::Item(item) => is_scalar_item(decls, item),
        Expr::Un(_, a) => is_scalar(decls, a),
        Expr::Bin(_, a, b) => is_scalar(decls, a) && is_scalar(decls, b),
        Expr::Call(_, exprs) => are_scalars(decls, exprs),
        Expr::List(..) => false,
        Expr::Spread(..) => false,
        Expr::Transpose(_) => false,
        Expr::Reshape(..) => false,
        Expr::Reduce(..) => true,
    }
}

/// Whether a reference is one: a name where it has no dimensions, and with subscripts where each of these is one.
#[cycle(scalars)]
#[tactic(auto, using(crate::proofs::ScalarLaws::item_laws))]
pub(crate) fn is_scalar_item(decls: &Seq<Decl>, item: &Ref) -> bool
    ensures { result ≡ is_scalar (named (reference_of item.now)) (bounds_by (map declaration_of decls.now)) }
{
    if item.subs.is_empty() {
        return is_bare(decls.as_slice(), item.name);
    }
    are_indices(decls, &item.subs)
}

#[cycle(scalars)]
fn are_scalars(decls: &Seq<Decl>, exprs: &Seq<Expr>) -> bool
    ensures { result ≡ are_scalar (expressions (map expression_of exprs.now))
        (bounds_by (map declaration_of decls.now)) }
{
    for expr in exprs.as_slice() {
        if !is_scalar(decls, expr) {
            return false;
        }
    }
    true
}

#[cycle(scalars)]
fn are_indices(decls: &Seq<Decl>, subs: &Seq<Sub>) -> bool
    ensures { result ≡ are_indices (subscripts (map subscript_of subs.now))
        (bounds_by (map declaration_of decls.now)) }
{
    for sub in subs.as_slice() {
        if !is_index(decls, sub) {
            return false;
        }
    }
    true
}

#[cycle(scalars)]
#[tactic(auto, using(crate::proofs::ScalarLaws::index_laws))]
fn is_index(decls: &Seq<Decl>, sub: &Sub) -> bool
    ensures { result ≡ is_index (subscript_of sub.now) (bounds_by (map declaration_of decls.now)) }
{
    match sub {
        Sub::One(expr) => is_scalar(decls, expr),
        Sub::Part(..) => false,
    }
}
