//! Copies of declarations.
ghost use Rattle.std.specs.Prelude.{◌≡◌, IfOk, map};
ghost use Rattle.tree.specs.View.{declaration_of, extent_of};

use crate::{Decl, Extent, Memory, Seq};
use std::alloc::Global;

fn copy_extent(extent: &Extent, alloc: Global) -> Result<Extent, Memory>
    ensures { IfOk result (λ copy. extent_of copy ≡ extent_of extent.now) }
{
    match extent {
        Extent::Scalar => Ok(Extent::Scalar),
        Extent::Fixed(dims) => {
            let copies = Vec::from_slice(alloc, dims.as_slice())?;
            Ok(Extent::Fixed(Seq::from_vec(copies)))
        }
        Extent::Later(count) => Ok(Extent::Later(*count)),
    }
}

/// An equal declaration.
pub fn copy_decl(decl: &Decl, alloc: Global) -> Result<Decl, Memory>
    ensures { IfOk result (λ copy. declaration_of copy ≡ declaration_of decl.now) }
{
    Ok(Decl {
        name: decl.name,
        kind: decl.kind,
        extent: copy_extent(&decl.extent, alloc)?,
    })
}

/// Equal declarations.
pub fn copy_decls(decls: &Seq<Decl>, alloc: Global) -> Result<Seq<Decl>, Memory>
    ensures { IfOk result (λ copies. map declaration_of copies ≡ map declaration_of decls.now) }
{
    let mut copies = Seq::new(alloc);
    for decl in decls.as_slice() {
        copies.push(copy_decl(decl, alloc)?)?;
    }
    Ok(copies)
}
