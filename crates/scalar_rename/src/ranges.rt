//! Ranges of a scalar's values, and their names.
ghost use Rattle.std.specs.Prelude.{◌≡◌, ◌+◌, ◌≤◌, ◌<◌, ◌^◌, ◌++◌, IfOk, OnOk, length, map};
ghost use Rattle.nest.specs.Bodies.{nest_statements};
ghost use Rattle.nest.specs.View.{nest_of};
ghost use Rattle.nest.specs.statement_loops.Standings.{standing_of};
ghost use Rattle.scalar_expand.specs.Privates.{number_behind};
ghost use Rattle.scalar_rename.specs.Ranges.{is_renamed, owner, owner_at, owners_from, range_name, ranges_in};
ghost use Rattle.scalar_rename.specs.Ranges.{web_if_renamed, web_of, webs_among, webs_of};
ghost use Rattle.tree.specs.View.{declaration_of};

use crate::occurrences::{begins_range, is_source, stands_in_one_body};
use itoa::Buffer;
use nest::Nest;
use nest::statement_loops::{Standing, statements_of};
use statement_passes::scalar_kind;
use std::alloc::Global;
use tree::{Decl, Kind, Memory, Name, Seq};

/// A scalar that is renamed, with its kind, the number of its ranges, and the names that its value has: before each
/// statement of the nest, and behind the last one.
#[derive(Drop)]
pub struct Web {
    pub name: Name,
    pub kind: Kind,
    pub ranges: usize,
    pub owners: Seq<Name>,
}

// ---- names

fn add_number(text: &mut Vec<u8>, number: u32) -> Result<(), Memory>
    ensures { OnOk result (text.new.items ≡ text.old.items ++ number_behind number) }
{
    if number == 1 {
        return Ok(());
    }
    text.extend_from_slice(b"_")?;
    text.extend_from_slice(Buffer::new().format(number).as_bytes())?;
    Ok(())
}

/// The name of a range, counted from 1, of a scalar of the nest with this number. A name that is too long doesn't fit
/// into memory.
pub(crate) fn range_name(
    alloc: Global,
    number: u32,
    name: Name,
    range: usize,
) -> Result<Name, Memory>
    ensures { IfOk result (λ made. made ≡ range_name number name range) }
{
    let mut text = Vec::from_slice(alloc, b"FV_NAME_")?;
    text.extend_from_slice(name.text())?;
    text.extend_from_slice(b"_")?;
    text.extend_from_slice(Buffer::new().format(range).as_bytes())?;
    add_number(&mut text, number)?;
    match Name::read(text.as_slice()) {
        Some(made) => Ok(made),
        None => Err(Memory),
    }
}

// The name where so many ranges of all have begun.
fn owner(alloc: Global, number: u32, name: Name, all: usize, begun: usize) -> Result<Name, Memory>
    ensures { IfOk result (λ made. made ≡ owner number name all begun) }
{
    if begun == 0 || begun == all {
        return Ok(name);
    }
    range_name(alloc, number, name, begun)
}

// ---- ranges

fn ranges_in(standings: &[Standing], name: Name) -> usize
    ensures ranges { result ≡ ranges_in name (map standing_of standings.now) }
    ensures within { result ≤ length standings.now }
{
    let Some((first, rest)) = standings.split_first() else {
        return 0;
    };
    let behind = ranges_in(rest, name);
    if begins_range(&first.stmt, name) {
        behind + 1
    } else {
        behind
    }
}

// Adds the names before each of these statements, where so many ranges have begun before, and behind the last one.
fn add_owners(
    alloc: Global,
    number: u32,
    web: (Name, usize),
    begun: usize,
    standings: &[Standing],
    owners: &mut Seq<Name>,
) -> Result<(), Memory>
    requires { begun + length standings.now < 2 ^ 64 }
    ensures { OnOk result (owners.new
        ≡ owners.old ++ owners_from number web.0 web.1 begun (map standing_of standings.now)) }
{
    owners.push(owner(alloc, number, web.0, web.1, begun)?)?;
    let Some((first, rest)) = standings.split_first() else {
        return Ok(());
    };
    let behind = if begins_range(&first.stmt, web.0) {
        begun + 1
    } else {
        begun
    };
    add_owners(alloc, number, web, behind, rest, owners)
}

// ---- scalars that are renamed

fn is_renamed(standings: &[Standing], name: Name) -> bool
    ensures { result ≡ is_renamed name (map standing_of standings.now) }
{
    is_source(name) && ranges_in(standings, name) >= 2 && stands_in_one_body(standings, name)
}

fn web_of(
    alloc: Global,
    number: u32,
    standings: &[Standing],
    name: Name,
    kind: Kind,
) -> Result<Web, Memory>
    ensures { IfOk result (λ web. web ≡ web_of number (map standing_of standings.now) name kind) }
{
    let ranges = ranges_in(standings, name);
    let mut owners = Seq::new(alloc);
    add_owners(alloc, number, (name, ranges), 0, standings, &mut owners)?;
    Ok(Web {
        name,
        kind,
        ranges,
        owners,
    })
}

fn add_if_renamed(
    alloc: Global,
    number: u32,
    standings: &[Standing],
    name: Name,
    kind: Option<Kind>,
    webs: &mut Seq<Web>,
) -> Result<(), Memory>
    ensures { OnOk result (webs.new
        ≡ webs.old ++ web_if_renamed number (map standing_of standings.now) name kind) }
{
    let Some(kind) = kind else {
        return Ok(());
    };
    if is_renamed(standings, name) {
        webs.push(web_of(alloc, number, standings, name, kind)?)?;
    }
    Ok(())
}

fn add_webs(
    alloc: Global,
    number: u32,
    standings: &[Standing],
    decls: &[Decl],
    webs: &mut Seq<Web>,
) -> Result<(), Memory>
    ensures { OnOk result (webs.new
        ≡ webs.old ++ webs_among number (map standing_of standings.now) (map declaration_of decls.now)) }
{
    let Some((first, rest)) = decls.split_first() else {
        return Ok(());
    };
    let kind = scalar_kind(first);
    add_if_renamed(alloc, number, standings, first.name, kind, webs)?;
    add_webs(alloc, number, standings, rest, webs)
}

/// The scalars of a nest that are renamed, in byte order.
pub fn webs_of(alloc: Global, nest: &Nest) -> Result<Seq<Web>, Memory>
    ensures { IfOk result (λ webs. webs ≡ webs_of (nest_of nest.now)) }
{
    let standings = statements_of(alloc, nest)?;
    let mut webs = Seq::new(alloc);
    add_webs(
        alloc,
        nest.number,
        standings.as_slice(),
        nest.decls.as_slice(),
        &mut webs,
    )?;
    Ok(webs)
}
