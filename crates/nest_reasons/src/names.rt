//! Those of given names that stand in an expression.
ghost use Rattle.std.specs.Prelude.{◌≡◌, ◌++◌, ◌∷◌, [], if◌then◌else◌, OnOk, IfOk};
ghost use Rattle.tree.specs.View.{expression_of};
ghost use Rattle.nest_reasons.specs.Standing.{standing};

use rewrite::names_in_expr;
use std::alloc::Global;
use tree::{Expr, Memory, Name, Seq};

/// Adds the name where it is chosen.
pub(crate) fn push_if(names: &mut Seq<Name>, chosen: bool, name: Name) -> Result<(), Memory>
    ensures { OnOk result (names.new ≡ (if chosen then names.old ++ name ∷ [] else names.old)) }
{
    if chosen {
        names.push(name)?;
    }
    Ok(())
}

/// Those of the variables that stand in the expression.
pub fn standing(alloc: Global, variables: &[Name], expr: &Expr) -> Result<Seq<Name>, Memory>
    ensures { IfOk result (λ names. names ≡ standing variables.now (expression_of expr.now)) }
{
    let names = names_in_expr(alloc, expr)?;
    let mut found = Seq::new(alloc);
    for variable in variables {
        let stands = names.as_slice().contains(variable);
        push_if(&mut found, stands, *variable)?;
    }
    Ok(found)
}
