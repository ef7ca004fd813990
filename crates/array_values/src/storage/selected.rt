//! The values of arrays and of parts of them (ISO/IEC 1539:1991, section 6.2.2).
ghost use Rattle.std.specs.Prelude.{◌≡◌, ◌<◌, map, vec_len};
ghost use Rattle.meaning.specs.Value.{is_bare};
ghost use Rattle.array_values.specs.Answers.{Answers};
ghost use Rattle.array_values.specs.Arrays.{array_in};
ghost use Rattle.array_values.specs.Selections.{selector_in};
ghost use Rattle.array_values.specs.storage.Parts.{whole_here, part_here, whole_array, part_array};
ghost use Rattle.array_values.specs.storage.Slots.{bounds_now};
ghost use Rattle.array_values.specs.storage.Stored.{store_in};

use crate::storage::array_places::{Selection, values_at};
use crate::storage::slots::Slot;
use crate::storage::storage::Storage;
use crate::{Failure, Known, Selector};
use std::alloc::Global;
use tree::{Fault, Name};

impl Slot {
    // The array of all values of the name.
    fn whole(&self, alloc: Global) -> Result<Known, Failure>
        ensures { Answers array_in (whole_here self.now) result }
    {
        if !self.there {
            return Err(Failure::Fault(Fault::Allocated));
        }
        let Ok(Selection { extents, places }) = self.bounds.select_all(alloc) else {
            return Err(Failure::Memory);
        };
        let values = values_at(alloc, &self.values, places.as_slice())?;
        Ok(Known { extents, values })
    }

    // The array of the values that subscripts select.
    fn part(&self, alloc: Global, selectors: &[Selector]) -> Result<Known, Failure>
        ensures { Answers array_in (part_here self.now (map selector_in selectors.now)) result }
    {
        if !self.there {
            return Err(Failure::Fault(Fault::Allocated));
        }
        let Selection { extents, places } = self.bounds.select(alloc, selectors)?;
        let values = values_at(alloc, &self.values, places.as_slice())?;
        Ok(Known { extents, values })
    }

    fn is_scalar(&self) -> bool
        ensures { result ≡ is_bare (bounds_now self.now) }
    {
        self.there && self.bounds.is_scalar()
    }
}

impl Storage {
    /// Whether the name is a scalar.
    pub fn is_scalar(&self, name: Name) -> bool
        ensures { result ≡ is_bare ((store_in self.now).bounds name) }
    {
        match self.find(name) {
            None => false,
            Some(slot) => self.slots[slot].is_scalar(),
        }
    }

    /// The array of all values of a name.
    pub fn whole(&self, alloc: Global, name: Name) -> Result<Known, Failure>
        ensures { Answers array_in (whole_array name (store_in self.now)) result }
    {
        match self.find(name) {
            None => Err(Failure::Fault(Fault::Allocated)),
            Some(slot) => self.slots[slot].whole(alloc),
        }
    }

    /// The array of the values that subscripts select of a name's.
    pub fn part(&self, alloc: Global, name: Name, selectors: &[Selector]) -> Result<Known, Failure>
        ensures { Answers array_in (part_array name (map selector_in selectors.now) (store_in self.now)) result }
    {
        match self.find(name) {
            None => Err(Failure::Fault(Fault::Allocated)),
            Some(slot) => self.slots[slot].part(alloc, selectors),
        }
    }
}
