//! Nests whose scalars are renamed.
ghost use Rattle.std.specs.List.{list_all};
ghost use Rattle.std.specs.Prelude.{◌≡◌, ◌+◌, ◌<◌, ◌^◌, ◌++◌, IfOk, OnOk, map, nat_le};
ghost use Rattle.nest.specs.View.{made_of, nest_of};
ghost use Rattle.scalar_rename.specs.Ranges.{HaveFewRanges, most_ranges};
ghost use Rattle.scalar_rename.specs.Renamed.{each_renamed, made_from, made_of_web, made_of_webs, renamed, with_names};
ghost use Rattle.statement_passes.specs.MadeNames.{with_made};
ghost use Rattle.statement_passes.specs.Passes.{mapped_nest};

use crate::names::Renaming;
use crate::ranges::{Web, range_name, webs_of};
use nest::{Made, Nest};
use statement_passes::{map_statements, with_made};
use std::alloc::Global;
use tree::{Kind, Memory, Name, Seq};

// Adds so many ranges of a scalar, from one on, as made scalars.
fn add_made(
    alloc: Global,
    number: u32,
    scalar: (Name, Kind),
    first: usize,
    count: usize,
    made: &mut Seq<Made>,
) -> Result<(), Memory>
    requires { first + count < 2 ^ 64 }
    ensures { OnOk result (map made_of made.new
        ≡ map made_of made.old ++ made_from number scalar.0 scalar.1 first count) }
{
    if count == 0 {
        return Ok(());
    }
    made.push(Made {
        name: range_name(alloc, number, scalar.0, first)?,
        kind: scalar.1,
        extents: Seq::new(alloc),
    })?;
    add_made(alloc, number, scalar, first + 1, count - 1, made)
}

fn add_web(alloc: Global, number: u32, web: &Web, made: &mut Seq<Made>) -> Result<(), Memory>
    ensures { OnOk result (map made_of made.new ≡ map made_of made.old ++ made_of_web number web.now) }
{
    let count = web.ranges.saturating_sub(1);
    add_made(alloc, number, (web.name, web.kind), 1, count, made)
}

fn add_webs(alloc: Global, number: u32, webs: &[Web], made: &mut Seq<Made>) -> Result<(), Memory>
    ensures { OnOk result (map made_of made.new ≡ map made_of made.old ++ made_of_webs number webs.now) }
{
    let Some((first, rest)) = webs.split_first() else {
        return Ok(());
    };
    add_web(alloc, number, first, made)?;
    add_webs(alloc, number, rest, made)
}

fn made_of_webs(alloc: Global, number: u32, webs: &[Web]) -> Result<Seq<Made>, Memory>
    ensures { IfOk result (λ made. map made_of made ≡ made_of_webs number webs.now) }
{
    let mut made = Seq::new(alloc);
    add_webs(alloc, number, webs, &mut made)?;
    Ok(made)
}

fn mapped(alloc: Global, nest: &Nest, webs: Seq<Web>) -> Result<Box<Nest>, Memory>
    ensures { IfOk result (λ new. nest_of new.value ≡ mapped_nest (each_renamed webs) (nest_of nest.now)) }
{
    let mut pass = Renaming { webs };
    Ok(Box::new(alloc, map_statements(alloc, nest, &mut pass)?)?)
}

fn with_some(alloc: Global, nest: &Nest, webs: Seq<Web>) -> Result<Box<Nest>, Memory>
    ensures { IfOk result (λ new. nest_of new.value
        ≡ with_made (mapped_nest (each_renamed webs) (nest_of nest.now)) (made_of_webs nest.now.number webs)) }
{
    let made = made_of_webs(alloc, nest.number, webs.as_slice())?;
    let new = mapped(alloc, nest, webs)?;
    Ok(Box::new(alloc, with_made(alloc, &new, made)?)?)
}

// With these scalars renamed, if there are any.
#[tactic(auto, using(crate::proofs::NodeLaws::some_webs))]
fn with_names(alloc: Global, nest: Box<Nest>, webs: Seq<Web>) -> Result<Box<Nest>, Memory>
    ensures { IfOk result (λ new. nest_of new.value ≡ with_names (nest_of nest.value) webs) }
{
    if webs.is_empty() {
        return Ok(nest);
    }
    with_some(alloc, &nest, webs)
}

const MOST_RANGES: usize = 100_000;

// Whether the numbers of all ranges that have names of their own have at most five digits.
fn have_few_ranges(webs: &[Web]) -> bool
    ensures { result ≡ list_all (λ web. nat_le web.ranges most_ranges) webs.now }
{
    webs.iter().all(|web| web.ranges <= MOST_RANGES)
}

/// The nest in which each range of a renamed scalar's values has a name of its own: a scalar of the program that stands
/// in one loop's own body alone, where the first statement with it assigns it without reading it, and with further
/// unguarded assignments. The nest itself where there is none.
#[tactic(auto, unfolding(crate::specs::Renamed::renamed))]
pub fn rename(alloc: Global, nest: Box<Nest>) -> Result<Box<Nest>, Memory>
    ensures renamed { IfOk result (λ new. nest_of new.value ≡ renamed (nest_of nest.value)) }
    ensures few { IfOk result (λ new. HaveFewRanges (nest_of nest.value)) }
{
    let webs = webs_of(alloc, &nest)?;
    if !have_few_ranges(webs.as_slice()) {
        return Err(Memory);
    }
    with_names(alloc, nest, webs)
}
