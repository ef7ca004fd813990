//! Where expressions are evaluated.
ghost use Rattle.std.specs.Prelude.{◌≡◌};
ghost use Rattle.array_values.specs.Answers.{Answers};
ghost use Rattle.array_values.specs.Arrays.{array_in};
ghost use Rattle.array_values.specs.storage.Parts.{whole_array};
ghost use Rattle.array_expressions.specs.Scopes.{store_at, held_at};

use crate::locals::{Local, number_of};
use array_values::storage::Storage;
use array_values::{Failure, Known};
use std::alloc::Global;
use tree::{Fault, Name, Value};

/// The values of a program's names.
#[derive(Clone, Copy)]
pub struct Scope<'a> {
    pub alloc: Global,
    pub storage: &'a Storage,
}

impl Scope<'_> {
    /// What a scalar or an element holds.
    pub fn held(&self, name: Name, numbers: &[i128], locals: &[Local]) -> Result<Value, Fault>
        ensures { result ≡ held_at name numbers.now (store_at self.now locals.now) }
    {
        let place = self.storage.place(name, numbers)?;
        if !numbers.is_empty() {
            return Ok(self.storage.value(place));
        }
        match number_of(locals, name) {
            None => Ok(self.storage.value(place)),
            Some(number) => Ok(Value::Int(number)),
        }
    }

    /// The array of all values of a name. A scalar may be the variable of a constructor's loop.
    pub fn whole(&self, name: Name, locals: &[Local]) -> Result<Known, Failure>
        ensures { Answers array_in (whole_array name (store_at self.now locals.now)) result }
    {
        if !self.storage.is_scalar(name) {
            return self.storage.whole(self.alloc, name);
        }
        let value = self.held(name, &[], locals)?;
        Ok(Known::scalar(self.alloc, value)?)
    }
}
