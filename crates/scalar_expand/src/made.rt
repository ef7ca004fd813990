//! The arrays that take the place of private scalars, among what passes have made.
ghost use Rattle.std.specs.Prelude.{◌≡◌, ◌++◌, ◌∷◌, [], IfOk, OnOk, map, reverse};
ghost use Rattle.tree.specs.View.{expression_of};
ghost use Rattle.nest.specs.View.{made_of};
ghost use Rattle.scalar_expand.specs.Expanded.{array_of, array_or, has_prefix, is_mask, made_before};
ghost use Rattle.scalar_expand.specs.Expanded.{made_now, named_private};
ghost use Rattle.scalar_expand.specs.Texts.{extent_texts};

use crate::elements::named_private;
use crate::privates::Private;
use crate::texts::extent_texts;
use nest::Made;
use std::alloc::Global;
use tree::{Expr, Memory, Name, Seq};

fn begins_with(first: &[u8], text: &[u8]) -> bool
    ensures { result ≡ has_prefix first.now text.now }
{
    let Some((one, first)) = first.split_first() else {
        return true;
    };
    let Some((other, text)) = text.split_first() else {
        return false;
    };
    *one == *other && begins_with(first, text)
}

fn is_mask(name: Name) -> bool
    ensures { result ≡ is_mask name }
{
    begins_with(b"FV_MASK_", name.text())
}

// The extents of an array, that of the innermost loop first.
#[tactic(auto, using(crate::proofs::ElementLaws::map_reverse))]
fn inside_out(texts: Seq<Expr>) -> Seq<Expr>
    ensures { map expression_of result ≡ reverse (map expression_of texts) }
{
    let mut extents = texts.into_vec();
    extents.reverse();
    Seq::from_vec(extents)
}

fn array_of(alloc: Global, symbols: &[Name], private: &Private) -> Result<Made, Memory>
    ensures { IfOk result (λ array. made_of array ≡ array_of symbols.now private.now) }
{
    let texts = extent_texts(alloc, symbols, private.extents.as_slice())?;
    Ok(Made {
        name: private.array,
        kind: private.kind,
        extents: inside_out(texts),
    })
}

// What was made before: a mask, as its array where it is private.
fn add_mask(
    alloc: Global,
    symbols: &[Name],
    privates: &[Private],
    mask: &Made,
    all: &mut Seq<Made>,
) -> Result<(), Memory>
    ensures { OnOk result (map made_of all.new ≡ map made_of all.old
        ++ array_or symbols.now (named_private privates.now (made_of mask.now).name) (made_of mask.now) ∷ []) }
{
    let made = match named_private(privates, mask.name) {
        Some(private) => array_of(alloc, symbols, private)?,
        None => mask.copy(alloc)?,
    };
    all.push(made)
}

fn add_before(
    alloc: Global,
    symbols: &[Name],
    privates: &[Private],
    made: &[Made],
    all: &mut Seq<Made>,
) -> Result<(), Memory>
    ensures { OnOk result (map made_of all.new
        ≡ map made_of all.old ++ made_before symbols.now privates.now (map made_of made.now)) }
{
    let Some((first, rest)) = made.split_first() else {
        return Ok(());
    };
    if is_mask(first.name) {
        add_mask(alloc, symbols, privates, first, all)?;
    } else if named_private(privates, first.name).is_none() {
        all.push(first.copy(alloc)?)?;
    }
    add_before(alloc, symbols, privates, rest, all)
}

fn add_now(
    alloc: Global,
    symbols: &[Name],
    privates: &[Private],
    all: &mut Seq<Made>,
) -> Result<(), Memory>
    ensures { OnOk result (map made_of all.new ≡ map made_of all.old ++ made_now symbols.now privates.now) }
{
    let Some((first, rest)) = privates.split_first() else {
        return Ok(());
    };
    if !is_mask(first.name) {
        all.push(array_of(alloc, symbols, first)?)?;
    }
    add_now(alloc, symbols, rest, all)
}

/// What has been made once these private scalars are arrays.
pub(crate) fn made_arrays(
    alloc: Global,
    symbols: &[Name],
    privates: &[Private],
    made: &[Made],
) -> Result<Seq<Made>, Memory>
    ensures { IfOk result (λ all. map made_of all
        ≡ made_before symbols.now privates.now (map made_of made.now) ++ made_now symbols.now privates.now) }
{
    let mut all = Seq::new(alloc);
    add_before(alloc, symbols, privates, made, &mut all)?;
    add_now(alloc, symbols, privates, &mut all)?;
    Ok(all)
}
