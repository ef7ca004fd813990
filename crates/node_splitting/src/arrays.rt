//! Arrays of copies.
ghost use Rattle.std.specs.Prelude.{◌≡◌, ◌++◌, IfOk, OnOk, length, map, reverse};
ghost use Rattle.tree.specs.Plain.{Named, Only, no_subscripts, subscripts};
ghost use Rattle.tree.specs.View.{declaration_of, expression_of, reference_of, subscript_of};
ghost use Rattle.nest.specs.View.{loop_of, made_of, nest_of};
ghost use Rattle.node_splitting.specs.Arrays.{array, arrays, copy_name, copy_element, extents_over, kind_among};
ghost use Rattle.node_splitting.specs.Arrays.{kind_in_nest};
ghost use Rattle.node_splitting.specs.Arrays.{made_kind_or_integer, texts_over, trips_if_all, variable_subscript};

use crate::counts::sum;
use itoa::Buffer;
use nest::{Loop, Made, Nest, Trip};
use scalar_expand::{extent_texts, extents_of};
use std::alloc::Global;
use tree::{Decl, Expr, Kind, Memory, Name, Ref, Seq, Sub};

// ---- elements

#[tactic(auto, using(crate::proofs::Names::copy_is_name))]
fn copy_name(alloc: Global, copies: u32) -> Result<Name, Memory>
    ensures { IfOk result (λ name. name ≡ copy_name copies) }
{
    let mut text = Vec::from_slice(alloc, b"FV_COPY_")?;
    let number = sum(copies, 1)?;
    text.extend_from_slice(Buffer::new().format(number).as_bytes())?;
    match Name::read(text.as_slice()) {
        Some(name) => Ok(name),
        None => unreachable!(),
    }
}

#[tactic(auto, using(tree::proofs::Equations::expression_equations))]
fn bare(alloc: Global, name: Name) -> Expr
    ensures { expression_of result ≡ Named name no_subscripts }
{
    Expr::Item(Ref {
        name,
        subs: Seq::new(alloc),
    })
}

#[tactic(auto, using(tree::proofs::Equations::expression_equations))]
fn only(expr: Expr) -> Sub
    ensures { subscript_of result ≡ Only (expression_of expr) }
{
    Sub::One(expr)
}

fn variables(alloc: Global, loops: &[Name]) -> Result<Vec<Sub>, Memory>
    ensures { IfOk result (λ subs. map subscript_of subs.items ≡ map variable_subscript loops.now) }
{
    let mut subs = Vec::new(alloc);
    for name in loops {
        subs.push(only(bare(alloc, *name)))?;
    }
    Ok(subs)
}

// The array's element by these subscripts, the last one of which is that of the innermost loop.
fn element_at(array: Name, mut subs: Vec<Sub>) -> Ref
    ensures { reference_of result
        ≡ record { name = array; subscripts = subscripts (reverse (map subscript_of subs.items)) } }
{
    subs.reverse();
    Ref {
        name: array,
        subs: Seq::from_vec(subs),
    }
}

/// The element of the iteration at hand, of the array of the copy before which there are so many in the program.
pub(crate) fn element(alloc: Global, loops: &[Name], copies: u32) -> Result<Ref, Memory>
    ensures { IfOk result (λ r. reference_of r ≡ copy_element loops.now copies) }
{
    let name = copy_name(alloc, copies)?;
    let subs = variables(alloc, loops)?;
    Ok(element_at(name, subs))
}

// ---- kinds

fn made_kind(made: &[Made], name: Name) -> Kind
    ensures { result ≡ made_kind_or_integer (map made_of made.now) name }
{
    let Some((first, rest)) = made.split_first() else {
        return Kind::Integer;
    };
    if first.name == name {
        return first.kind;
    }
    made_kind(rest, name)
}

fn kind_among(decls: &[Decl], made: &[Made], name: Name) -> Kind
    ensures { result ≡ kind_among (map declaration_of decls.now) (map made_of made.now) name }
{
    let Some((first, rest)) = decls.split_first() else {
        return made_kind(made, name);
    };
    if first.name == name {
        return first.kind;
    }
    kind_among(rest, made, name)
}

#[tactic(auto, using(tree::proofs::Equations::expression_equations))]
fn kind_of(nest: &Nest, item: &Ref) -> Kind
    ensures { result ≡ kind_in_nest (nest_of nest.now) (reference_of item.now).name }
{
    kind_among(nest.decls.as_slice(), nest.made.as_slice(), item.name)
}

// ---- extents

fn trips_of(alloc: Global, loops: &[Loop]) -> Result<Option<Seq<Trip>>, Memory>
    ensures { IfOk result (λ trips. trips ≡ trips_if_all (map loop_of loops.now)) }
{
    let mut trips = Seq::new(alloc);
    for turns in loops {
        let Some(trip) = turns.trip else {
            return Ok(None);
        };
        trips.push(trip)?;
    }
    Ok(Some(trips))
}

/// The extents of an array over these loops, from the outside in, where there are so many symbols; None where one isn't
/// within the limits of linear forms, or the array would have too many elements.
pub(crate) fn extents_over(
    alloc: Global,
    symbols: u16,
    loops: &[Loop],
) -> Result<Option<Seq<Trip>>, Memory>
    ensures { IfOk result (λ extents. extents ≡ extents_over symbols (map loop_of loops.now)) }
{
    let Some(trips) = trips_of(alloc, loops)? else {
        return Ok(None);
    };
    extents_of(alloc, symbols, trips.as_slice())
}

#[tactic(auto, using(crate::proofs::Elements::element_laws))]
fn texts_over(
    alloc: Global,
    symbols: &[Name],
    extents: Option<Seq<Trip>>,
) -> Result<Seq<Expr>, Memory>
    ensures { IfOk result (λ texts. map expression_of texts ≡ texts_over symbols.now extents) }
{
    let Some(extents) = extents else {
        return Ok(Seq::new(alloc));
    };
    let mut texts = extent_texts(alloc, symbols, extents.as_slice())?.into_vec();
    texts.reverse();
    Ok(Seq::from_vec(texts))
}

/// How many symbols there are. More of them than there are places don't fit into memory.
pub(crate) fn symbol_count(symbols: &Seq<Name>) -> Result<u16, Memory>
    ensures { IfOk result (λ count. count ≡ length symbols.now) }
{
    match u16::try_from(symbols.len()) {
        Ok(count) => Ok(count),
        Err(_) => Err(Memory),
    }
}

// ---- arrays

fn array(
    alloc: Global,
    nest: &Nest,
    loops: &Seq<Loop>,
    copies: u32,
    read: &Ref,
) -> Result<Made, Memory>
    ensures { IfOk result (λ made. made_of made
        ≡ array (nest_of nest.now) (map loop_of loops.now) copies (reference_of read.now)) }
{
    let name = copy_name(alloc, copies)?;
    let count = symbol_count(&nest.symbols)?;
    let extents = extents_over(alloc, count, loops.as_slice())?;
    Ok(Made {
        name,
        kind: kind_of(nest, read),
        extents: texts_over(alloc, nest.symbols.as_slice(), extents)?,
    })
}

/// Adds an array for each of these reads, before which there are so many copies.
pub(crate) fn add_arrays(
    alloc: Global,
    nest: &Nest,
    loops: &Seq<Loop>,
    copies: u32,
    reads: &[Ref],
    all: &mut Seq<Made>,
) -> Result<(), Memory>
    ensures { OnOk result (map made_of all.new ≡ map made_of all.old
        ++ arrays (nest_of nest.now) (map loop_of loops.now) copies (map reference_of reads.now)) }
{
    let Some((first, rest)) = reads.split_first() else {
        return Ok(());
    };
    all.push(array(alloc, nest, loops, copies, first)?)?;
    add_arrays(alloc, nest, loops, sum(1, copies)?, rest, all)
}
