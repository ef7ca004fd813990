//! Made names, and how they are declared.
ghost use Rattle.std.specs.Prelude.{◌≡◌, IfOk, map};
ghost use Rattle.nest.specs.View.{made_of};
ghost use Rattle.tree.specs.View.{declaration_of};
ghost use Rattle.translation.specs.made_declarations.Declaring.{declaration_by, declaration_of_made};
ghost use Rattle.translation.specs.made_declarations.Declaring.{declaration_of_name};

use nest::Made;
use std::alloc::Global;
use tree::{Decl, Extent, Kind, Memory, Name, Seq};

/// A name that passes made, which is declared besides those of a program: a scalar, or an array of so many dimensions
/// that is allocated later.
#[derive(Clone, Copy)]
pub struct MadeName {
    pub name: Name,
    pub kind: Kind,
    pub dimensions: usize,
}

/// Its declaration.
pub(crate) fn declaration(made: &MadeName) -> Decl
    ensures { declaration_of result ≡ declaration_of_name made.now }
{
    let extent = if made.dimensions == 0 {
        Extent::Scalar
    } else {
        Extent::Later(made.dimensions)
    };
    Decl {
        name: made.name,
        kind: made.kind,
        extent,
    }
}

/// The names that passes made for a nest.
pub(crate) fn names_made(alloc: Global, made: &[Made]) -> Result<Seq<MadeName>, Memory>
    ensures { IfOk result (λ names.
        map declaration_of_name names ≡ map declaration_of_made (map made_of made.now)) }
{
    let mut names = Seq::new(alloc);
    for array in made {
        names.push(MadeName {
            name: array.name,
            kind: array.kind,
            dimensions: array.extents.len(),
        })?;
    }
    Ok(names)
}

/// How a name is to be declared: as passes made it, else as an INTEGER scalar, since it counts a loop.
pub(crate) fn made_as(made: &[MadeName], name: Name) -> MadeName
    ensures { declaration_of_name result ≡ declaration_by (map declaration_of_name made.now) name }
{
    for known in made {
        if known.name == name {
            return *known;
        }
    }
    MadeName {
        name,
        kind: Kind::Integer,
        dimensions: 0,
    }
}
