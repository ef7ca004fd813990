//! What is kept of each statement of a nest for the bounds of its subscripts.
ghost use Rattle.std.specs.Prelude.{◌≡◌, ◌≤◌, ◌++◌, ◌^◌, IfOk, OnOk, length, map};
ghost use Rattle.tree.specs.View.{reference_of};
ghost use Rattle.dependence_graph.specs.nest_graph.References.{variables_round};
ghost use Rattle.nest.specs.View.{nest_of};
ghost use Rattle.nest.specs.statement_loops.Standings.{standing_of};
ghost use Rattle.array_form.specs.holds.Bounds.{bounded_subscripts, is_made, loop_numbers_round};
ghost use Rattle.array_form.specs.holds.Noted.{AreFound, AreNoted, IsGathered, IsNoted, IsNotedBehind, beside, dims_in};
ghost use Rattle.array_form.specs.holds.Noted.{dims_of, sized_by, sized_within, with_found};

use dependence_graph::nest_references::{forms_of, references_of};
use nest::Nest;
use nest::statement_loops::Standing;
use std::alloc::Global;
use subscripts::Affine;
use tree::{Decl, Dim, Extent, Memory, Name, Ref, Seq};

/// A subscript that may be out of bounds: its linear form, where it has one, and the bounds of its place.
#[derive(Clone, Copy, Debug)]
pub struct Bounded {
    pub form: Option<Affine>,
    pub bounds: Dim,
}

/// A statement: whether it has a guard, the numbers of the loops round it, whether each of its references names what is
/// declared or was made, and its subscripts with the bounds of their places.
#[derive(Drop)]
pub struct Noted {
    pub guarded: bool,
    pub loops: Seq<u32>,
    pub sized: bool,
    pub subscripts: Seq<Bounded>,
}

fn is_made(nest: &Nest, name: Name) -> bool
    ensures { result ≡ is_made (nest_of nest.now) name }
{
    for array in nest.made.as_slice() {
        if array.name == name {
            return true;
        }
    }
    false
}

fn push_beside(all: &mut Seq<Bounded>, forms: &[Option<Affine>], dims: &[Dim]) -> Result<(), Memory>
    ensures { OnOk result (all.new ≡ all.old ++ beside forms.now dims.now) }
{
    let Some((form, forms)) = forms.split_first() else {
        return Ok(());
    };
    let Some((bounds, dims)) = dims.split_first() else {
        return Ok(());
    };
    all.push(Bounded {
        form: *form,
        bounds: *bounds,
    })?;
    push_beside(all, forms, dims)
}

// Forms and dimensions side by side, if there are as many.
fn sized(
    alloc: Global,
    forms: &[Option<Affine>],
    dims: &[Dim],
) -> Result<Option<Seq<Bounded>>, Memory>
    ensures { IfOk result (λ o. o ≡ sized_by forms.now dims.now) }
{
    if forms.len() != dims.len() {
        return Ok(None);
    }
    let mut all = Seq::new(alloc);
    push_beside(&mut all, forms, dims)?;
    Ok(Some(all))
}

fn sized_within(
    alloc: Global,
    forms: &[Option<Affine>],
    extent: &Extent,
) -> Result<Option<Seq<Bounded>>, Memory>
    ensures { IfOk result (λ o. o ≡ sized_within forms.now (dims_of extent.now)) }
{
    match extent {
        Extent::Scalar => sized(alloc, forms, &[]),
        Extent::Fixed(dims) => sized(alloc, forms, dims.as_slice()),
        Extent::Later(_) => Ok(None),
    }
}

// With the dimensions that are declared of the name.
fn sized_as_declared(
    alloc: Global,
    forms: &[Option<Affine>],
    decls: &[Decl],
    name: Name,
) -> Result<Option<Seq<Bounded>>, Memory>
    ensures { IfOk result (λ o. o ≡ sized_within forms.now (dims_in decls.now name)) }
{
    let Some((first, rest)) = decls.split_first() else {
        return Ok(None);
    };
    if first.name == name {
        return sized_within(alloc, forms, &first.extent);
    }
    sized_as_declared(alloc, forms, rest, name)
}

// The subscripts of a reference that may be out of bounds; None where the name has no declared bounds.
fn bounded_subscripts(
    alloc: Global,
    nest: &Nest,
    loops: &[Name],
    item: &Ref,
) -> Result<Option<Seq<Bounded>>, Memory>
    requires { length nest.now.symbols ≤ 2 ^ 16 }
    ensures { IfOk result (λ o. AreFound (length loops.now)
        (bounded_subscripts (nest_of nest.now) loops.now (reference_of item.now)) o) }
{
    if is_made(nest, item.name) {
        return Ok(Some(Seq::new(alloc)));
    }
    let forms = forms_of(alloc, item, loops, &nest.symbols)?;
    sized_as_declared(alloc, forms.as_slice(), nest.decls.as_slice(), item.name)
}

fn push_all(all: &mut Seq<Bounded>, more: &[Bounded]) -> Result<(), Memory>
    ensures { OnOk result (all.new ≡ all.old ++ more.now) }
{
    for sub in more {
        all.push(*sub)?;
    }
    Ok(())
}

/// What was found of references so far.
#[derive(Drop)]
struct Gathered {
    sized: bool,
    subscripts: Seq<Bounded>,
}

impl Gathered {
    fn add_found(&mut self, found: Option<Seq<Bounded>>) -> Result<(), Memory>
        ensures { OnOk result (self.new ≡ with_found self.old found) }
    {
        match found {
            Some(more) => push_all(&mut self.subscripts, more.as_slice()),
            None => {
                self.sized = false;
                Ok(())
            }
        }
    }

    fn add(
        &mut self,
        alloc: Global,
        nest: &Nest,
        loops: &[Name],
        items: &[Ref],
    ) -> Result<(), Memory>
        requires { length nest.now.symbols ≤ 2 ^ 16 }
        ensures { OnOk result (IsGathered (nest_of nest.now) loops.now (map reference_of items.now) self.old self.new) }
    {
        let Some((first, rest)) = items.split_first() else {
            return Ok(());
        };
        let found = bounded_subscripts(alloc, nest, loops, first)?;
        self.add_found(found)?;
        self.add(alloc, nest, loops, rest)
    }
}

fn names_round(alloc: Global, standing: &Standing) -> Result<Seq<Name>, Memory>
    ensures { IfOk result (λ names. names ≡ variables_round (standing_of standing.now)) }
{
    let mut names = Seq::new(alloc);
    for turns in standing.loops.as_slice() {
        names.push(turns.var)?;
    }
    Ok(names)
}

fn numbers_round(alloc: Global, standing: &Standing) -> Result<Seq<u32>, Memory>
    ensures { IfOk result (λ numbers. numbers ≡ loop_numbers_round (standing_of standing.now)) }
{
    let mut numbers = Seq::new(alloc);
    for turns in standing.loops.as_slice() {
        numbers.push(turns.number)?;
    }
    Ok(numbers)
}

fn noted_statement(alloc: Global, nest: &Nest, standing: &Standing) -> Result<Noted, Memory>
    requires { length nest.now.symbols ≤ 2 ^ 16 }
    ensures { IfOk result (IsNoted (nest_of nest.now) (standing_of standing.now)) }
{
    let names = names_round(alloc, standing)?;
    let items = references_of(alloc, standing)?;
    let mut found = Gathered {
        sized: true,
        subscripts: Seq::new(alloc),
    };
    found.add(alloc, nest, names.as_slice(), items.as_slice())?;
    Ok(Noted {
        guarded: standing.stmt.guard.is_some(),
        loops: numbers_round(alloc, standing)?,
        sized: found.sized,
        subscripts: found.subscripts,
    })
}

fn note_all(
    noted_so_far: &mut Seq<Noted>,
    alloc: Global,
    nest: &Nest,
    all: &[Standing],
) -> Result<(), Memory>
    requires { length nest.now.symbols ≤ 2 ^ 16 }
    ensures { OnOk result (IsNotedBehind (nest_of nest.now) (map standing_of all.now) noted_so_far.old
        noted_so_far.new) }
{
    let Some((first, rest)) = all.split_first() else {
        return Ok(());
    };
    noted_so_far.push(noted_statement(alloc, nest, first)?)?;
    note_all(noted_so_far, alloc, nest, rest)
}

/// The statements of a nest, in their order.
pub fn all_noted(alloc: Global, nest: &Nest, all: &[Standing]) -> Result<Seq<Noted>, Memory>
    requires { length nest.now.symbols ≤ 2 ^ 16 }
    ensures noted { IfOk result (AreNoted (nest_of nest.now) (map standing_of all.now)) }
    ensures many { IfOk result (λ noted. length noted ≡ length all.now) }
{
    let mut noted = Seq::new(alloc);
    note_all(&mut noted, alloc, nest, all)?;
    Ok(noted)
}
