//! The text of declarations (ISO/IEC 1539:1991, section 5.1).
ghost use Rattle.std.specs.Prelude.{◌≡◌, ◌++◌, OnOk, map, flat_map, replicate};
ghost use Rattle.tree.specs.View.{bounds_of, extent_of, declaration_of};
ghost use Rattle.f90_grammar.specs.Forms.{Deferred};
ghost use Rattle.reading.specs.Characters.{keyword_of};
ghost use Rattle.f90_grammar.specs.PrintedForms.{bound, dimension, dimensions_of, is_allocatable};
ghost use Rattle.f90_grammar.specs.PrintedText.{bound_text, dimension_text, dimensions_text, attribute_text};
ghost use Rattle.f90_print.specs.Texts.{declaration_lines};

use crate::lines::push_lines;
use crate::texts::push;
use itoa::Buffer;
use tree::{Decl, Dim, Extent, Kind, Memory};

fn keyword(kind: Kind) -> &'static str
    ensures { result.now ≡ keyword_of kind }
{
    match kind {
        Kind::Integer => "INTEGER",
        Kind::Logical => "LOGICAL",
    }
}

fn push_bound(text: &mut Vec<u8>, number: i64) -> Result<(), Memory>
    ensures { OnOk result (text.new.items ≡ text.old.items ++ bound_text (bound number)) }
{
    push(text, Buffer::new().format(number).as_bytes())
}

// A lower bound of 1 isn't written.
fn push_dimension(text: &mut Vec<u8>, dim: Dim) -> Result<(), Memory>
    ensures { OnOk result (text.new.items ≡ text.old.items ++ dimension_text (dimension (bounds_of dim))) }
{
    if dim.lower == 1 {
        return push_bound(text, dim.upper);
    }
    push_bound(text, dim.lower)?;
    push(text, b":")?;
    push_bound(text, dim.upper)
}

fn push_dimensions(text: &mut Vec<u8>, dims: &[Dim]) -> Result<(), Memory>
    ensures { OnOk result
        (text.new.items ≡ text.old.items ++ dimensions_text (map dimension (map bounds_of dims.now))) }
{
    let Some((first, rest)) = dims.split_first() else {
        return Ok(());
    };
    push(text, b"(")?;
    push_dimension(text, *first)?;
    for dim in rest {
        push(text, b", ")?;
        push_dimension(text, *dim)?;
    }
    push(text, b")")
}

// The dimensions of an allocatable array.
fn push_deferred(text: &mut Vec<u8>, count: usize) -> Result<(), Memory>
    ensures { OnOk result (text.new.items ≡ text.old.items ++ dimensions_text (replicate count Deferred)) }
{
    if count == 0 {
        return Ok(());
    }
    push(text, b"(:")?;
    for _written in 0..count - 1 {
        push(text, b", :")?;
    }
    push(text, b")")
}

fn push_extent(text: &mut Vec<u8>, extent: &Extent) -> Result<(), Memory>
    ensures { OnOk result (text.new.items ≡ text.old.items ++ dimensions_text (dimensions_of (extent_of extent.now))) }
{
    match extent {
        Extent::Scalar => Ok(()),
        Extent::Fixed(dims) => push_dimensions(text, dims.as_slice()),
        Extent::Later(count) => push_deferred(text, *count),
    }
}

fn push_attribute(text: &mut Vec<u8>, extent: &Extent) -> Result<(), Memory>
    ensures { OnOk result
        (text.new.items ≡ text.old.items ++ attribute_text (is_allocatable (extent_of extent.now))) }
{
    match extent {
        Extent::Later(_) => push(text, b", ALLOCATABLE"),
        Extent::Scalar => Ok(()),
        Extent::Fixed(_) => Ok(()),
    }
}

fn print_declaration(out: &mut Vec<u8>, line: &mut Vec<u8>, decl: &Decl) -> Result<(), Memory>
    ensures { OnOk result (out.new.items ≡ out.old.items ++ declaration_lines (declaration_of decl.now)) }
{
    line.clear();
    push(line, keyword(decl.kind).as_bytes())?;
    push_attribute(line, &decl.extent)?;
    push(line, b" :: ")?;
    push(line, decl.name.text())?;
    push_extent(line, &decl.extent)?;
    push_lines(out, line.as_slice())
}

pub(crate) fn print_declarations(
    out: &mut Vec<u8>,
    line: &mut Vec<u8>,
    decls: &[Decl],
) -> Result<(), Memory>
    ensures { OnOk result
        (out.new.items ≡ out.old.items ++ flat_map declaration_lines (map declaration_of decls.now)) }
{
    for decl in decls {
        print_declaration(out, line, decl)?;
    }
    Ok(())
}
