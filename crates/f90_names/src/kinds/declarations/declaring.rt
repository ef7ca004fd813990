//! The declarations of a program, in byte order of their names.
ghost use Rattle.std.specs.Prelude.{◌≡◌, ◌++◌, [], map, IfOk, OnOk, List};
ghost use Rattle.std.specs.List.{AllByRecursion};
ghost use Rattle.std.specs.List.Sorted.{IsPermutation, IsSortedByKey};
ghost use Rattle.std.specs.Cmp.Lexicographic.{slice_cmp};
ghost use Rattle.std.specs.Ordering.{nat_cmp};
ghost use Rattle.tree.specs.Plain.{Given};
ghost use Rattle.tree.specs.View as view;
ghost use Rattle.tree.specs.View.{declaration_of};
ghost use Rattle.meaning.specs.Extents.{IsDimension};
ghost use Rattle.meaning.specs.Typed.{dimensions as bounds_in};
ghost use Rattle.f90_grammar.specs.Blocks as grammar;
ghost use Rattle.f90_grammar.specs.Bounds.{HasBounds};
ghost use Rattle.f90_grammar.specs.Declared.{declarations_in, declarations_of};
ghost use Rattle.f90_grammar.specs.Forms as forms;
ghost use Rattle.f90_grammar.specs.Forms.{Form90};
ghost use Rattle.f90_grammar.specs.Reading.{dimension_bounds, extent_of_dimensions, entity_declaration};
ghost use Rattle.f90_blocks.specs.places.forms.Places.{IsPlacedOf};
ghost use Rattle.f90_statement.specs.Views.{AreOf, IsDimensionOf, IsEntityOf, IsStatementOf};
ghost use Rattle.f90_names.specs.kinds.declarations.Declarations.{AreAccepted, AreInOrder, name_in};

use crate::kinds::declarations::bounds::dim;
use f90_blocks::places::forms::Placed;
use f90_statement::{Dimension, Entity, Statement};
use std::alloc::Global;
use tree::{Decl, Dim, Extent, Kind, Memory, Seq};

// The bounds of a dimension, and no elements where 64 bits don't hold one.
fn dim_or_empty(dimension: Dimension) -> Dim
    ensures { (d : forms.Dimension) → IsDimensionOf dimension d → IsDimension (dimension_bounds d)
        → view.bounds_of result ≡ dimension_bounds d }
{
    dim(dimension).unwrap_or(Dim { lower: 1, upper: 0 })
}

fn dims(alloc: Global, dimensions: &[Dimension]) -> Result<Seq<Dim>, Memory>
    ensures { (ds : List forms.Dimension) → AreOf IsDimensionOf dimensions.now ds
        → AllByRecursion IsDimension (map dimension_bounds ds)
        → IfOk result (λ dims. map view.bounds_of dims ≡ map dimension_bounds ds) }
{
    let mut dims = Seq::new(alloc);
    for dimension in dimensions {
        dims.push(dim_or_empty(*dimension))?;
    }
    Ok(dims)
}

fn given(alloc: Global, dimensions: &[Dimension]) -> Result<Extent, Memory>
    ensures { (ds : List forms.Dimension) → AreOf IsDimensionOf dimensions.now ds
        → AllByRecursion IsDimension (map dimension_bounds ds)
        → IfOk result (λ extent. view.extent_of extent ≡ Given (map dimension_bounds ds)) }
{
    match dimensions {
        [] => Ok(Extent::Scalar),
        [..] => Ok(Extent::Fixed(dims(alloc, dimensions)?)),
    }
}

fn extent(alloc: Global, is_allocatable: bool, dimensions: &[Dimension]) -> Result<Extent, Memory>
    ensures { (ds : List forms.Dimension) → AreOf IsDimensionOf dimensions.now ds
        → AllByRecursion IsDimension (bounds_in (extent_of_dimensions is_allocatable ds))
        → IfOk result (λ extent. view.extent_of extent ≡ extent_of_dimensions is_allocatable ds) }
{
    if is_allocatable {
        return Ok(Extent::Later(dimensions.len()));
    }
    given(alloc, dimensions)
}

fn declaration(
    alloc: Global,
    kind: Kind,
    is_allocatable: bool,
    entity: &Entity,
) -> Result<Decl, Memory>
    ensures { (e : forms.EntityForm90) → IsEntityOf entity.now e → HasBounds (entity_declaration kind is_allocatable e)
        → IfOk result (λ declaration. declaration_of declaration ≡ entity_declaration kind is_allocatable e) }
{
    let extent = extent(alloc, is_allocatable, entity.dimensions.as_slice())?;
    let name = entity.name;
    Ok(Decl { name, kind, extent })
}

fn declare_all(
    alloc: Global,
    all: &mut Seq<Decl>,
    kind: Kind,
    is_allocatable: bool,
    entities: &[Entity],
) -> Result<(), Memory>
    ensures { (es : List forms.EntityForm90) → AreOf IsEntityOf entities.now es
        → AllByRecursion HasBounds (map (entity_declaration kind is_allocatable) es)
        → OnOk result (map declaration_of all.new
        ≡ map declaration_of all.old ++ map (entity_declaration kind is_allocatable) es) }
{
    for entity in entities {
        all.push(declaration(alloc, kind, is_allocatable, entity)?)?;
    }
    Ok(())
}

fn declare(alloc: Global, all: &mut Seq<Decl>, statement: &Statement) -> Result<(), Memory>
    ensures { (f : Form90) → IsStatementOf statement.now f → AllByRecursion HasBounds (declarations_in f)
        → OnOk result (map declaration_of all.new ≡ map declaration_of all.old ++ declarations_in f) }
{
    match statement {
        Statement::Declare(kind, is_allocatable, entities) => {
            declare_all(alloc, all, *kind, *is_allocatable, entities.as_slice())
        }
        _ => Ok(()),
    }
}

// In the order of the text.
fn as_written(alloc: Global, text: &[Placed]) -> Result<Seq<Decl>, Memory>
    ensures { (ps : List grammar.Placed) → AreOf IsPlacedOf text.now ps
        → AllByRecursion HasBounds (declarations_of ps)
        → IfOk result (λ all. map declaration_of all ≡ declarations_of ps) }
{
    let mut all = Seq::new(alloc);
    for placed in text {
        declare(alloc, &mut all, &placed.statement)?;
    }
    Ok(all)
}

// By the byte order of names.
fn sorted(all: Seq<Decl>) -> Seq<Decl>
    ensures same { IsPermutation all result }
    ensures rising { IsSortedByKey name_in (slice_cmp nat_cmp) result }
{
    let mut all = all.into_vec();
    all.sort_unstable_by_key(|declaration| declaration.name);
    Seq::from_vec(all)
}

/// The declarations of a text, in byte order of their names, where bounds are within 64 bits and no name is declared
/// again.
pub fn declarations(alloc: Global, text: &[Placed]) -> Result<Seq<Decl>, Memory>
    ensures { (ps : List grammar.Placed) → AreOf IsPlacedOf text.now ps → AreAccepted ps
        → IfOk result (λ all. AreInOrder (declarations_of ps) (map declaration_of all)) }
{
    Ok(sorted(as_written(alloc, text)?))
}
