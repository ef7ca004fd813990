//! Places of labels: how many statements stand before.
ghost use Rattle.std.specs.Prelude.{◌≡◌, ℕ, None, Some, OnOk, if◌then◌else◌};
ghost use Rattle.f77_grammar.specs.program.Text.{is_label};
ghost use Rattle.f77_structure.specs.LabelPlaces.{place_of};
ghost use Rattle.f77_structure.specs.Openings.{or_here};

use std::alloc::Global;
use std::collections::BTreeMap;
use tree::Memory;

/// A place for each of some labels.
#[derive(Drop)]
pub struct LabelPlaces {
    places: BTreeMap<u32, usize>,
}

impl LabelPlaces {
    pub fn new(alloc: Global) -> LabelPlaces
        ensures { (n : ℕ) → place_of result n ≡ None }
    {
        LabelPlaces {
            places: BTreeMap::new(alloc),
        }
    }

    pub fn get(&self, label: u32) -> Option<usize>
        ensures { result ≡ place_of self.now label }
    {
        self.places.get(&label).copied()
    }

    // Gives the label this place, in place of an earlier one.
    pub(crate) fn put(&mut self, label: Option<u32>, place: usize) -> Result<(), Memory>
        ensures { OnOk result ((n : ℕ)
            → place_of self.new n ≡ (if is_label n label then Some place else place_of self.old n)) }
    {
        if let Some(label) = label {
            self.places.insert(label, place)?;
        }
        Ok(())
    }

    // Gives the label this place, where it has none.
    pub(crate) fn put_first(&mut self, label: Option<u32>, place: usize) -> Result<(), Memory>
        ensures { OnOk result ((n : ℕ) → place_of self.new n ≡ or_here (place_of self.old n) (is_label n label) place) }
    {
        match label {
            Some(label) => self.put_new(label, place),
            None => Ok(()),
        }
    }

    fn put_new(&mut self, label: u32, place: usize) -> Result<(), Memory>
        ensures { OnOk result ((n : ℕ)
            → place_of self.new n ≡ or_here (place_of self.old n) (is_label n (Some label)) place) }
    {
        if self.get(label).is_none() {
            self.places.insert(label, place)?;
        }
        Ok(())
    }
}
