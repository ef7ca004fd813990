//! ALLOCATE and DEALLOCATE (ISO/IEC 1539:1991, sections 6.3.1 and 6.3.3).
ghost use Rattle.std.specs.Prelude.{◌≡◌, Some, ℕ, ℤ, List};
ghost use Rattle.tree.specs.declared.ops.Kind.{Kind as Kind'};
ghost use Rattle.array_values.specs.Counts.{ranges_in};
ghost use Rattle.array_values.specs.storage.Bounds.{from_one};
ghost use Rattle.array_values.specs.storage.Slots.{kind_among};
ghost use Rattle.array_values.specs.storage.Allocation.{Opens, Closes, Allocates, Deallocates};
ghost use Rattle.array_values.specs.storage.Stored.{slots_in};

use crate::Failure;
use crate::counts::Range;
use crate::storage::bounds::Bounds;
use crate::storage::opening::nought;
use crate::storage::slots::Slot;
use crate::storage::storage::Storage;
use std::alloc::Global;
use tree::{Fault, Name, Seq};

impl Slot {
    // The array has these bounds from now on, and its elements are 0 or `.FALSE.`.
    fn allocate(&mut self, alloc: Global, ranges: Seq<Range>) -> Result<(), Failure>
        ensures { Opens self.old self.new (ranges_in ranges) result }
    {
        if self.there {
            return Err(Failure::Fault(Fault::Allocated));
        }
        let bounds = Bounds::within(alloc, ranges)?;
        let Some(count) = bounds.count() else {
            return Err(Failure::Memory);
        };
        let mut values = Vec::new(alloc);
        values.resize(count, nought(self.kind))?;
        self.there = true;
        self.bounds = bounds;
        self.values = values;
        Ok(())
    }

    // The array has no elements from now on.
    fn deallocate(&mut self) -> Result<(), Fault>
        ensures { Closes self.old self.new result }
    {
        if !self.there {
            return Err(Fault::Allocated);
        }
        self.there = false;
        Ok(())
    }
}

impl Storage {
    /// The declared array has these bounds from now on, each from 1 to an extent, and its elements are 0 or `.FALSE.`.
    /// An array that has elements is not allocated again. Memory is asked for only where there are elements.
    pub fn allocate(&mut self, alloc: Global, name: Name, ranges: Seq<Range>) -> Result<(), Failure>
        ensures allocated { (k : Kind') (ns : List ℤ) → kind_among (slots_in self.old) name ≡ Some k
            → ranges_in ranges ≡ from_one ns → Allocates k name ns (slots_in self.old) (slots_in self.new) result }
        ensures kinds { (x : List ℕ) → kind_among (slots_in self.new) x ≡ kind_among (slots_in self.old) x }
    {
        let Some(slot) = self.find(name) else {
            return Err(Failure::Fault(Fault::Allocated));
        };
        self.slots[slot].allocate(alloc, ranges)
    }

    /// The array has no elements from now on.
    pub fn deallocate(&mut self, name: Name) -> Result<(), Fault>
        ensures deallocated { Deallocates name (slots_in self.old) (slots_in self.new) result }
        ensures kinds { (x : List ℕ) → kind_among (slots_in self.new) x ≡ kind_among (slots_in self.old) x }
    {
        let Some(slot) = self.find(name) else {
            return Err(Fault::Allocated);
        };
        self.slots[slot].deallocate()
    }
}
