//! Nests whose private scalars become arrays.
ghost use Rattle.std.specs.Prelude.{◌≡◌, ◌≤◌, ◌++◌, IfOk, OnOk, length, map};
ghost use Rattle.tree.specs.View.{declaration_of};
ghost use Rattle.nest.specs.View.{nest_of};
ghost use Rattle.scalar_expand.specs.Expanded.{declared_privates, expanded, with_made_arrays};

use crate::elements::{Expansion, named_private};
use crate::made::made_arrays;
use crate::parts::expand_part;
use crate::privates::{Private, private_scalars};
use crate::values_behind::with_last_values;
use nest::Nest;
use nest_rewrite::with_parts;
use std::alloc::Global;
use tree::{Decl, Memory, Seq};

fn add_declared(
    alloc: Global,
    privates: &[Private],
    decls: &[Decl],
    own: &mut Seq<Private>,
) -> Result<(), Memory>
    ensures { OnOk result (own.new
        ≡ own.old ++ declared_privates privates.now (map declaration_of decls.now)) }
{
    let Some((first, rest)) = decls.split_first() else {
        return Ok(());
    };
    if let Some(private) = named_private(privates, first.name) {
        own.push(private.copy(alloc)?)?;
    }
    add_declared(alloc, privates, rest, own)
}

#[tactic(auto, unfolding(crate::specs::Expanded::with_made_arrays))]
fn with_arrays(alloc: Global, nest: &Nest, privates: Seq<Private>) -> Result<Nest, Memory>
    ensures { IfOk result (λ new. nest_of new ≡ with_made_arrays (nest_of nest.now) privates) }
{
    let mut own = Seq::new(alloc);
    add_declared(alloc, privates.as_slice(), nest.decls.as_slice(), &mut own)?;
    let symbols = nest.symbols.as_slice();
    let made = made_arrays(alloc, symbols, privates.as_slice(), nest.made.as_slice())?;
    let own = own.as_slice();
    let after = with_last_values(alloc, &nest.symbols, nest.line, own, &nest.after)?;
    let mut rule = Expansion { privates };
    let body = expand_part(alloc, nest.line, own, &nest.body, &mut rule)?;
    with_parts(alloc, nest, body, made, after)
}

/// The nest of loops and statements in which each private scalar has become an array with an element for each
/// iteration. IFs, labels and jumps stay as they are.
pub fn expand(alloc: Global, nest: &Nest) -> Result<Nest, Memory>
    requires { length nest.now.symbols ≤ 1000 }
    ensures { IfOk result (λ new. nest_of new ≡ expanded (nest_of nest.now)) }
{
    with_arrays(alloc, nest, private_scalars(alloc, nest)?)
}
