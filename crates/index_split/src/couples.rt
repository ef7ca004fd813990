//! The points that two references give.
ghost use Rattle.std.specs.Prelude.{◌≡◌, ◌↔◌, ◌⊎◌, ◌++◌, ◌∷◌, ◌≤◌, [], IsTrue, OnOk, IfOk};
ghost use Rattle.index_split.specs.Gathered.{Adds, only_one, sides_of};
ghost use Rattle.index_split.specs.Points.{CoupleGives, IsPointAmong, pairs_of, paired};

use crate::points::{Points, Sides};
use dependence_graph::nest_references::Occurrence;
use std::alloc::Global;
use subscripts::Affine;
use tree::{Memory, Seq};

fn sides_of(first: &Option<Affine>, second: &Option<Affine>) -> Option<Sides>
    ensures { result ≡ sides_of first.now second.now }
{
    match first {
        None => None,
        Some(first) => match second {
            None => None,
            Some(second) => Some(Sides {
                first: *first,
                second: *second,
            }),
        },
    }
}

// Adds the subscripts in one place, where both are linear and the loop stands in one of them.
fn add_place(
    pairs: &mut Seq<Sides>,
    first: &Option<Affine>,
    second: &Option<Affine>,
) -> Result<(), Memory>
    ensures { OnOk result (pairs.new ≡ pairs.old ++ paired first.now second.now) }
{
    let Some(sides) = sides_of(first, second) else {
        return Ok(());
    };
    if sides.has_loop() {
        pairs.push(sides)?;
    }
    Ok(())
}

fn add_places(
    pairs: &mut Seq<Sides>,
    first: &[Option<Affine>],
    second: &[Option<Affine>],
) -> Result<(), Memory>
    ensures { OnOk result (pairs.new ≡ pairs.old ++ pairs_of first.now second.now) }
{
    let Some((form, first)) = first.split_first() else {
        return Ok(());
    };
    let Some((other, second)) = second.split_first() else {
        return Ok(());
    };
    add_place(pairs, form, other)?;
    add_places(pairs, first, second)
}

// The separable pair of two references, if they have one.
fn separable_pair(
    alloc: Global,
    first: &Occurrence,
    second: &Occurrence,
) -> Result<Option<Sides>, Memory>
    ensures { IfOk result (λ pair. pair ≡ only_one (pairs_of first.now.forms second.now.forms)) }
{
    let mut pairs = Seq::new(alloc);
    add_places(&mut pairs, first.forms.as_slice(), second.forms.as_slice())?;
    if pairs.len() > 1 {
        return Ok(None);
    }
    Ok(pairs.get(0).copied())
}

// Two references of one name, one of which is written: each statement's first one is.
fn may_depend(first: &Occurrence, second: &Occurrence) -> bool
    ensures { IsTrue result ↔ ((first.now.name ≡ second.now.name)
        × ((first.now.place.at ≡ 0) ⊎ (second.now.place.at ≡ 0))) }
{
    first.name == second.name && (first.place.at == 0 || second.place.at == 0)
}

impl Points {
    // Adds the points that two references give.
    fn add_couple(
        &mut self,
        alloc: Global,
        first: &Occurrence,
        second: &Occurrence,
    ) -> Result<(), Memory>
        requires { self.old.trip ≤ 2147483646 }
        ensures trip { self.new.trip ≡ self.old.trip }
        ensures list { OnOk result
            (Adds (CoupleGives self.old.trip first.now second.now) self.old.list self.new.list) }
    {
        if !may_depend(first, second) {
            return Ok(());
        }
        let Some(pair) = separable_pair(alloc, first, second)? else {
            return Ok(());
        };
        self.add_pair(&pair)
    }

    // One reference with each of others.
    fn add_row(
        &mut self,
        alloc: Global,
        first: &Occurrence,
        all: &[Occurrence],
    ) -> Result<(), Memory>
        requires { self.old.trip ≤ 2147483646 }
        ensures trip { self.new.trip ≡ self.old.trip }
        ensures list { OnOk result
            (Adds (IsPointAmong (first.now ∷ []) all.now self.old.trip) self.old.list self.new.list) }
    {
        for second in all {
            self.add_couple(alloc, first, second)?;
        }
        Ok(())
    }

    /// Adds the points that references give, each with each one.
    pub(crate) fn add_table(&mut self, alloc: Global, all: &[Occurrence]) -> Result<(), Memory>
        requires { self.old.trip ≤ 2147483646 }
        ensures trip { self.new.trip ≡ self.old.trip }
        ensures list { OnOk result (Adds (IsPointAmong all.now all.now self.old.trip) self.old.list self.new.list) }
    {
        for first in all {
            self.add_row(alloc, first, all)?;
        }
        Ok(())
    }
}
