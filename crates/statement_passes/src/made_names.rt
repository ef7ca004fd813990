//! Names that passes make, and names that are declared.
ghost use Rattle.std.specs.Prelude.{◌≡◌, ◌++◌, IfOk, map};
ghost use Rattle.tree.specs.View.{declaration_of};
ghost use Rattle.nest.specs.View.{made_of, nest_of};
ghost use Rattle.statement_passes.specs.MadeNames.{kind_if_scalar, made_kind_if_scalar, with_made};

use nest::{Made, Nest};
use nest_rewrite::with_parts;
use std::alloc::Global;
use tree::{Decl, Extent, Kind, Memory, Seq};

/// The kind of a scalar that is declared so; None of an array.
pub fn scalar_kind(decl: &Decl) -> Option<Kind>
    ensures { result ≡ kind_if_scalar (declaration_of decl.now) }
{
    match &decl.extent {
        Extent::Scalar => Some(decl.kind),
        Extent::Fixed(dims) => {
            let Some((_first, _rest)) = dims.as_slice().split_first() else {
                return Some(decl.kind);
            };
            None
        }
        Extent::Later(_) => None,
    }
}

/// The kind of a made scalar; None of an array.
pub fn made_scalar_kind(made: &Made) -> Option<Kind>
    ensures { result ≡ made_kind_if_scalar (made_of made.now) }
{
    let Some((_first, _rest)) = made.extents.as_slice().split_first() else {
        return Some(made.kind);
    };
    None
}

/// Equal made names.
pub fn copy_made(alloc: Global, made: &Seq<Made>) -> Result<Seq<Made>, Memory>
    ensures { IfOk result (λ copies. map made_of copies ≡ map made_of made.now) }
{
    let mut copies = Seq::new(alloc);
    for array in made.as_slice() {
        copies.push(array.copy(alloc)?)?;
    }
    Ok(copies)
}

// Made names, and further ones behind them.
fn joined(alloc: Global, made: &Seq<Made>, more: Seq<Made>) -> Result<Seq<Made>, Memory>
    ensures { IfOk result (λ all. map made_of all ≡ map made_of made.now ++ map made_of more) }
{
    let mut all = copy_made(alloc, made)?.into_vec();
    let mut rest = more.into_vec();
    all.append(&mut rest)?;
    Ok(Seq::from_vec(all))
}

/// The nest with further made names, behind those that it has.
pub fn with_made(alloc: Global, nest: &Nest, more: Seq<Made>) -> Result<Nest, Memory>
    ensures { IfOk result (λ new. nest_of new ≡ with_made (nest_of nest.now) (map made_of more)) }
{
    let made = joined(alloc, &nest.made, more)?;
    let after = nest.after.copy(alloc)?;
    let body = nest.body.copy(alloc)?;
    with_parts(alloc, nest, body, made, after)
}
