//! The names of a program, and where the values of each stand.
ghost use Rattle.std.specs.Prelude.{◌≡◌, ◌≤◌, ◌^◌, ◌*◌, map, Option, Some, None, ℕ, int_le, ◌&&◌};
ghost use Rattle.tree.specs.View.{bounds_of, declaration_of, extent_of};
ghost use Rattle.meaning.specs.Store.{size_of};
ghost use Rattle.meaning.specs.Typed.{dimensions};
ghost use Rattle.meaning.specs.Extents.{elements_of};
ghost use Rattle.machine.specs.Storage.{joined, bounds_list, AreBounds, IsBounded};

use tree::{Decl, Dim, Extent};

/// A declared name, and the place of its first value among the values of all names.
#[derive(Drop)]
pub struct Variable {
    pub decl: Decl,
    pub start: usize,
}

/// The bounds of the name's dimensions: none for a scalar.
pub fn dims_of(extent: &Extent) -> &[Dim]
    ensures { bounds_list result.now ≡ dimensions (extent_of extent.now) }
{
    match extent {
        Extent::Scalar => &[],
        Extent::Fixed(dims) => dims.as_slice(),
        Extent::Later(_) => &[],
    }
}

/// How many numbers the dimension has.
pub fn size(dim: Dim) -> usize
    requires { IsBounded (bounds_of dim) }
    ensures { result ≡ size_of (bounds_of dim) }
{
    (dim.upper - dim.lower + 1) as usize
}

/// How many elements there are within the bounds.
pub fn elements(dims: &[Dim]) -> usize
    requires { AreBounds (bounds_list dims.now) }
    ensures { result ≡ elements_of (bounds_list dims.now) }
{
    match dims.split_first() {
        None => 1,
        Some((dim, inner)) => size(*dim) * elements(inner),
    }
}

/// The place of an element, by its first subscript and the place that the others give.
pub fn join(dim: Dim, number: i128, rest: usize) -> Option<usize>
    requires dimension { IsBounded (bounds_of dim) }
    requires few { size_of (bounds_of dim) * rest ≤ 2 ^ 22 }
    ensures { result ≡ joined (bounds_of dim) number (Some rest) }
{
    if number < i128::from(dim.lower) || i128::from(dim.upper) < number {
        return None;
    }
    Some((number - i128::from(dim.lower)) as usize + size(dim) * rest)
}
