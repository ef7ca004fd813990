//! Steps, and what is stored.
ghost use Rattle.std.specs.Prelude.{◌≡◌};
ghost use Rattle.tree.specs.declared.width.Width.{Width as Width'};
ghost use Rattle.machine.specs.Moments.{CountsStep};
ghost use Rattle.array_values.specs.storage.Slots.{IsWithin, SamePlaces};
ghost use Rattle.array_expressions.specs.assignments.Moments.{seen, slots_of};
ghost use Rattle.array_expressions.specs.assignments.Placing.{CountsAt, StoresAt};

use crate::assignments::moment::Moment;
use array_values::storage::Place;
use machine::{Halt, at, check_range};
use tree::{Value, Width};

impl Moment {
    /// Counts a step, unless none is left.
    pub fn count_step(&mut self) -> Result<(), Halt>
        ensures counted { CountsStep (seen self.old) (seen self.new) result }
        ensures storage { self.new.storage ≡ self.old.storage }
    {
        self.progress.count_step()
    }

    /// Stores the value of an element or a scalar, which is a step.
    pub fn put(&mut self, place: Place, value: Value) -> Result<(), Halt>
        requires { IsWithin (slots_of self.old) place }
        ensures stored { (w : Width') → CountsAt w place value self.old self.new result }
        ensures kept { SamePlaces (slots_of self.old) (slots_of self.new) }
    {
        self.count_step()?;
        self.storage.put(place, value);
        Ok(())
    }

    /// The same for a value that has to be in the range of INTEGER, which comes before the step.
    pub fn store(&mut self, width: Width, line: u32, place: Place, value: Value) -> Result<(), Halt>
        requires { IsWithin (slots_of self.old) place }
        ensures stored { StoresAt width line place value self.old self.new result }
        ensures kept { SamePlaces (slots_of self.old) (slots_of self.new) }
    {
        at(line, check_range(width, value))?;
        self.put(place, value)
    }
}
