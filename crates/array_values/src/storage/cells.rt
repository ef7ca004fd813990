//! The values of scalars and elements, and where they stand.
ghost use Rattle.std.specs.Prelude.{◌≡◌, ◌<◌, Some, ℕ, ℤ, List, IfOk, MatchOption, vec_len};
ghost use Rattle.meaning.specs.Store.{Cell, cell_at, put};
ghost use Rattle.array_values.specs.storage.Slots.{held_among, place_among, place_here};
ghost use Rattle.array_values.specs.storage.Slots.{IsWithin, Has, IsMissing, Finds, SamePlaces, Stores};
ghost use Rattle.array_values.specs.storage.Stored.{slots_in, store_in};

use crate::storage::slots::{Place, Slot};
use crate::storage::storage::Storage;
use tree::{Fault, Name, Value};

impl Slot {
    // The place of an element among those of the name.
    fn place(&self, numbers: &[i128]) -> Result<usize, Fault>
        ensures place { result ≡ place_here self.now numbers.now }
        ensures within { IfOk result (λ k. k < vec_len self.now.values) }
    {
        if !self.there {
            return Err(Fault::Allocated);
        }
        match self.bounds.place(numbers) {
            None => Err(Fault::Bounds),
            Some(at) => Ok(at),
        }
    }

    // Puts the value at the place among those of the name.
    fn put(&mut self, at: usize, value: Value)
        requires { at < vec_len self.old.values }
        ensures { Stores self.old self.new at value }
    {
        self.values[at] = value;
    }
}

impl Storage {
    /// Where the name stands among the declared names.
    pub fn find(&self, name: Name) -> Option<usize>
        ensures { MatchOption result (IsMissing (slots_in self.now) name) (Has (slots_in self.now) name) }
    {
        self.names.get_index_of(&name)
    }

    /// The place of a scalar's or an element's value.
    pub fn place(&self, name: Name, numbers: &[i128]) -> Result<Place, Fault>
        ensures found { Finds (slots_in self.now) (cell_at name numbers.now (store_in self.now)) result }
        ensures within { IfOk result (IsWithin (slots_in self.now)) }
    {
        let Some(slot) = self.find(name) else {
            return Err(Fault::Allocated);
        };
        let at = self.slots[slot].place(numbers)?;
        Ok(Place { slot, at })
    }

    /// The value at the place.
    pub fn value(&self, place: Place) -> Value
        requires { IsWithin (slots_in self.now) place }
        ensures { (x : List ℕ) (is : List ℤ) → place_among (slots_in self.now) x is ≡ Some place
            → held_among (slots_in self.now) x is ≡ result }
    {
        self.slots[place.slot].values[place.at]
    }

    /// Puts the value at the place.
    pub fn put(&mut self, place: Place, value: Value)
        requires { IsWithin (slots_in self.old) place }
        ensures stored { (c : Cell) → place_among (slots_in self.old) c.name c.subscripts ≡ Some place
            → store_in self.new ≡ put c value (store_in self.old) }
        ensures kept { SamePlaces (slots_in self.old) (slots_in self.new) }
    {
        self.slots[place.slot].put(place.at, value);
    }
}
