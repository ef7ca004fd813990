//! What the cells of a program hold, and where.
ghost use Rattle.std.specs.Prelude.{◌≡◌, ◌<◌, Some, Ok, Err, None, IfOk, MatchOption, MatchResult};
ghost use Rattle.meaning.specs.Store.{opening_bounds, cell_at, Cell, put};
ghost use Rattle.machine.specs.Storage.{total, place};
ghost use Rattle.machine.specs.Stored.{names_in, store_in, IsOf, Finds, all_values};

use crate::storage::Storage;
use crate::subscripts::offset;
use crate::variables::{Variable, dims_of, elements};
use tree::{Fault, Name, Value};

impl Storage {
    /// The name's declaration, and the place of its first value.
    pub fn find(&self, name: Name) -> Option<&Variable>
        ensures { MatchOption result (opening_bounds (names_in self.now) name ≡ None)
            (λ v. IsOf (names_in self.now) name v.now) }
    {
        self.variables.get(&name)
    }

    /// The place of a scalar's or an element's value.
    #[tactic(auto, using(crate::proofs::PlaceLaws::place_laws))]
    pub fn place(&self, name: Name, numbers: &[i128]) -> Result<usize, Fault>
        ensures found { Finds (names_in self.now) (cell_at name numbers.now (store_in self.now)) result }
        ensures within { IfOk result (λ k. k < total (names_in self.now)) }
    {
        let Some(variable) = self.find(name) else {
            return Err(Fault::Allocated);
        };
        let Some(offset) = offset(numbers, dims_of(&variable.decl.extent)) else {
            return Err(Fault::Bounds);
        };
        Ok(variable.start + offset)
    }

    /// The value at the place.
    pub fn value(&self, at: usize) -> Value
        requires { at < total (names_in self.now) }
        ensures { (c : Cell) → place (names_in self.now) c.name c.subscripts ≡ Some at
            → (store_in self.now).held c ≡ result }
    {
        self.values[at]
    }

    /// Puts the value at the place.
    pub fn put(&mut self, at: usize, value: Value)
        requires { at < total (names_in self.old) }
        ensures names { names_in self.new ≡ names_in self.old }
        ensures stored { (c : Cell) → place (names_in self.old) c.name c.subscripts ≡ Some at
            → store_in self.new ≡ put c value (store_in self.old) }
    {
        self.values[at] = value;
    }

    /// The values of all elements of an array, or of a scalar.
    #[tactic(auto, using(crate::proofs::PrintLaws::all_laws))]
    pub fn all(&self, name: Name) -> Result<&[Value], Fault>
        ensures { MatchResult result (λ values. all_values name (store_in self.now) ≡ Ok values.now)
            (λ fault. all_values name (store_in self.now) ≡ Err fault) }
    {
        let Some(variable) = self.find(name) else {
            return Err(Fault::Allocated);
        };
        let end = variable.start + elements(dims_of(&variable.decl.extent));
        Ok(&self.values[variable.start..end])
    }
}
