//! What references select of a name, as places where values can be put (ISO/IEC 1539:1991, sections 6.2.2 and 7.5.1).
ghost use Rattle.std.specs.Prelude.{map};
ghost use Rattle.array_values.specs.Selections.{selector_in};
ghost use Rattle.array_values.specs.storage.Targets.{Targets, Picks, axes_within, all_of, part_of};
ghost use Rattle.array_values.specs.storage.Stored.{slots_in, store_in};

use crate::storage::array_places::Selection;
use crate::storage::slots::Slot;
use crate::storage::storage::Storage;
use crate::{Failure, Selector};
use std::alloc::Global;
use tree::{Fault, Name};

/// What a reference selects of a name: the name's place in the order of declarations, and the extents and the places
/// of the elements among those of the name.
#[derive(Drop)]
pub struct Target {
    pub slot: usize,
    pub selected: Selection,
}

impl Slot {
    // All elements of the name.
    fn pick_all(&self, alloc: Global) -> Result<Selection, Failure>
        ensures { Picks self.now all_of result }
    {
        if !self.there {
            return Err(Failure::Fault(Fault::Allocated));
        }
        let Ok(selected) = self.bounds.select_all(alloc) else {
            return Err(Failure::Memory);
        };
        Ok(selected)
    }

    // The elements that subscripts select.
    fn pick(&self, alloc: Global, selectors: &[Selector]) -> Result<Selection, Failure>
        ensures { Picks self.now (part_of (map selector_in selectors.now)) result }
    {
        if !self.there {
            return Err(Failure::Fault(Fault::Allocated));
        }
        self.bounds.select(alloc, selectors)
    }
}

impl Storage {
    /// The places of all values of a name.
    pub fn target(&self, alloc: Global, name: Name) -> Result<Target, Failure>
        ensures { Targets (slots_in self.now) name (axes_within all_of name (store_in self.now)) result }
    {
        let Some(slot) = self.find(name) else {
            return Err(Failure::Fault(Fault::Allocated));
        };
        let selected = self.slots[slot].pick_all(alloc)?;
        Ok(Target { slot, selected })
    }

    /// The places of the values that subscripts select of a name's.
    pub fn target_part(
        &self,
        alloc: Global,
        name: Name,
        selectors: &[Selector],
    ) -> Result<Target, Failure>
        ensures { Targets (slots_in self.now) name
            (axes_within (part_of (map selector_in selectors.now)) name (store_in self.now)) result }
    {
        let Some(slot) = self.find(name) else {
            return Err(Failure::Fault(Fault::Allocated));
        };
        let selected = self.slots[slot].pick(alloc, selectors)?;
        Ok(Target { slot, selected })
    }
}
