//! The lines of the final store.
ghost use Rattle.std.specs.Prelude.{◌≡◌, ◌≤◌, ℕ, List, [], OnOk, OnErr};
ghost use Rattle.streams.specs.Causes.{Rose};
ghost use Rattle.meaning.specs.Steps.{lines_of_cells, lines_of_name};
ghost use Rattle.machine.specs.Texts.{WritesText};
ghost use Rattle.array_values.specs.declared.storage.slots.Slot.{Slot};
ghost use Rattle.array_values.specs.storage.Slots.{bounds_now, store_among, IsNamed};
ghost use Rattle.array_values.specs.storage.Stored.{store_in};

use crate::storage::bounds::Bounds;
use crate::storage::slots::Slot;
use crate::storage::storage::Storage;
use machine::write_lines;
use streams::{Sink, WriteFault};
use tree::Name;

impl Slot {
    // An array that isn't allocated, or has no elements, has no lines.
    fn show<K: Sink>(&self, name: Name, out: &mut K) -> Result<(), WriteFault>
        ensures text { (vs : List Slot) (i : ℕ) → IsNamed vs name i self.now
            → WritesText (K.taken out.old) (lines_of_cells name (bounds_now self.now) (store_among vs))
            (K.taken out.new) result }
        ensures untouched { (vs : List Slot) (i : ℕ) → IsNamed vs name i self.now
            → lines_of_cells name (bounds_now self.now) (store_among vs) ≡ [] → out.new ≡ out.old }
        ensures fault { OnErr result (Rose (K.faults out.old) (K.faults out.new)) }
        ensures no_fault { OnOk result (K.faults out.new ≡ K.faults out.old) }
        ensures later { K.faults out.old ≤ K.faults out.new }
    {
        if !self.there {
            return Ok(());
        }
        match &self.bounds {
            Bounds::Filled(dims) => write_lines(name, dims.as_slice(), &self.values, out),
            Bounds::Empty(_) => Ok(()),
        }
    }
}

impl Storage {
    /// A line for a variable or each element of an array, in column-major order. A name that no source has, made by a
    /// vectoriser, has no lines.
    pub fn show_name<K: Sink>(&self, name: Name, out: &mut K) -> Result<(), WriteFault>
        ensures text { WritesText (K.taken out.old) (lines_of_name name (store_in self.now)) (K.taken out.new) result }
        ensures untouched { lines_of_name name (store_in self.now) ≡ [] → out.new ≡ out.old }
        ensures fault { OnErr result (Rose (K.faults out.old) (K.faults out.new)) }
        ensures no_fault { OnOk result (K.faults out.new ≡ K.faults out.old) }
        ensures later { K.faults out.old ≤ K.faults out.new }
    {
        if !name.is_source() {
            return Ok(());
        }
        match self.find(name) {
            None => Ok(()),
            Some(slot) => self.slots[slot].show(name, out),
        }
    }
}
