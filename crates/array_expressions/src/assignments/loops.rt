//! The variables and turns of loops (ANSI X3.9-1978, section 11.10).
ghost use Rattle.std.specs.Prelude.{◌≡◌, [], IfOk, pos, ℤ};
ghost use Rattle.tree.specs.View.{expression_of};
ghost use Rattle.meaning.specs.Dialect.{fortran90};
ghost use Rattle.meaning.specs.Store.{Cell, cell_at};
ghost use Rattle.meaning.specs.Value.{increment_of};
ghost use Rattle.meaning.specs.Run.{sets_variable, increases};
ghost use Rattle.machine.specs.Acts.{Does};
ghost use Rattle.machine.specs.Loops.{increased};
ghost use Rattle.array_values.specs.Answers.{Answers};
ghost use Rattle.array_values.specs.storage.Slots.{IsWithin, Finds};
ghost use Rattle.array_values.specs.storage.Stored.{store_in};
ghost use Rattle.array_expressions.specs.assignments.Loops.{BeginsLoop};
ghost use Rattle.array_expressions.specs.assignments.Moments.{seen, slots_of};
ghost use Rattle.array_expressions.specs.assignments.Placing.{IsAt};

use crate::assignments::causes::{Stuck, at};
use crate::assignments::moment::Moment;
use array_values::Failure;
use array_values::storage::Place;
use machine::{Halt, Turns, add, at as located, check_range, increment, trip_count};
use tree::{Expr, Fault, Name, Value, Width};

impl Moment {
    // The place of a variable's value.
    fn scalar(&self, name: Name) -> Result<Place, Fault>
        ensures found { Finds (slots_of self.now) (cell_at name [] (store_in self.now.storage)) result }
        ensures within { IfOk result (IsWithin (slots_of self.now)) }
    {
        self.storage.place(name, &[])
    }

    // The value at the place, and the step of a loop.
    fn increased(&self, at: Place, step: i128) -> Result<i128, Fault>
        requires { IsWithin (slots_of self.now) at }
        ensures { (c : Cell) → IsAt (slots_of self.now) c at
            → result ≡ increased ((store_in self.now.storage).held c) step }
    {
        add(self.storage.value(at).as_number()?, step)
    }

    // Storing a loop's variable is no step.
    fn set_variable(
        &mut self,
        width: Width,
        line: u32,
        name: Name,
        number: i128,
    ) -> Result<(), Halt>
        ensures { Does (λ limit. sets_variable (fortran90 width) limit line name number)
            (seen self.old) (seen self.new) result }
    {
        let place = located(line, self.scalar(name))?;
        located(line, check_range(width, Value::Int(number)))?;
        self.storage.put(place, Value::Int(number));
        Ok(())
    }

    /// The variable grows after a turn.
    pub fn increase(&mut self, width: Width, line: u32, name: Name, step: i128) -> Result<(), Halt>
        ensures { Does (λ limit. increases (fortran90 width) limit line name step) (seen self.old)
            (seen self.new) result }
    {
        let place = located(line, self.scalar(name))?;
        let number = located(line, self.increased(place, step))?;
        self.set_variable(width, line, name, number)
    }

    // The value of a third parameter.
    fn step(&self, width: Width, expr: &Expr) -> Result<i128, Failure>
        ensures value { Answers (λ (z : ℤ). z)
            (increment_of (fortran90 width) (expression_of expr.now) (store_in self.now.storage)) result }
        ensures nonzero { IfOk result (λ z. z ≡ pos 0 → ⊥) }
    {
        let number = self.scope().number(width, expr, &[])?;
        Ok(increment(number)?)
    }

    /// The parameters are evaluated, the variable gets its first value, and the number of turns is fixed.
    pub fn begin_loop(
        &mut self,
        width: Width,
        line: u32,
        name: Name,
        first: &Expr,
        last: &Expr,
        step: &Expr,
    ) -> Result<Turns, Stuck>
        ensures { BeginsLoop width line name
            (expression_of first.now) (expression_of last.now) (expression_of step.now)
            (seen self.old) (seen self.new) result }
    {
        let first = at(line, self.scope().number(width, first, &[]))?;
        let last = at(line, self.scope().number(width, last, &[]))?;
        let step = at(line, self.step(width, step))?;
        self.set_variable(width, line, name, first)?;
        let count = located(line, trip_count(first, last, step))?;
        Ok(Turns { count, step })
    }
}
