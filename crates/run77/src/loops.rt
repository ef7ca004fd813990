//! Assignments, and the variables and turns of loops (ANSI X3.9-1978, sections 10 and 11.10).
ghost use Rattle.std.specs.Prelude.{◌≡◌, [], Some, pos, IfOk, ◌<◌};
ghost use Rattle.tree.specs.View.{expression_of, reference_of};
ghost use Rattle.meaning.specs.Dialect.{fortran77};
ghost use Rattle.tree.specs.declared.width.Width.TheVariants.{Plain};
ghost use Rattle.meaning.specs.Store.{Cell, cell_at};
ghost use Rattle.meaning.specs.Value.{increment_of, number_of};
ghost use Rattle.meaning.specs.Run.{assigns, sets_variable, increases};
ghost use Rattle.machine.specs.Storage.{total, place};
ghost use Rattle.machine.specs.Stored.{names_in, store_in, Finds};
ghost use Rattle.machine.specs.Acts.{Does};
ghost use Rattle.machine.specs.Loops.{BeginsLoop, increased};
ghost use Rattle.run77.specs.Moments.{seen};

use crate::moment::Moment;
use machine::{Halt, Turns, add, at, check_range, increment, trip_count};
use tree::{Expr, Fault, Name, Ref, Value, Width};

impl Moment {
    /// The place of a variable's value.
    fn scalar(&self, name: Name) -> Result<usize, Fault>
        ensures found { Finds (names_in self.now.storage) (cell_at name [] (store_in self.now.storage)) result }
        ensures within { IfOk result (λ k. k < total (names_in self.now.storage)) }
    {
        self.storage.place(name, &[])
    }

    // The value at the place, and the step of a loop.
    fn increased(&self, at: usize, step: i128) -> Result<i128, Fault>
        requires { at < total (names_in self.now.storage) }
        ensures { (c : Cell) → place (names_in self.now.storage) c.name c.subscripts ≡ Some at
            → result ≡ increased ((store_in self.now.storage).held c) step }
    {
        add(self.storage.value(at).as_number()?, step)
    }

    /// An assignment: the right side, the left subscripts, the bounds, the range, the store.
    pub fn assign(&mut self, width: Width, line: u32, left: &Ref, right: &Expr) -> Result<(), Halt>
        ensures { Does (λ limit. assigns (fortran77 width) limit line (reference_of left.now) (expression_of right.now))
            (seen self.old) (seen self.new) result }
    {
        let value = at(line, self.value(right))?;
        let place = at(line, self.place(left))?;
        self.store(width, line, place, value)
    }

    // Storing a loop's variable is no step.
    fn set_variable(
        &mut self,
        width: Width,
        line: u32,
        name: Name,
        number: i128,
    ) -> Result<(), Halt>
        ensures { Does (λ limit. sets_variable (fortran77 width) limit line name number)
            (seen self.old) (seen self.new) result }
    {
        let place = at(line, self.scalar(name))?;
        at(line, check_range(width, Value::Int(number)))?;
        self.storage.put(place, Value::Int(number));
        Ok(())
    }

    /// The variable grows after a turn.
    pub fn increase(&mut self, width: Width, line: u32, name: Name, step: i128) -> Result<(), Halt>
        ensures { Does (λ limit. increases (fortran77 width) limit line name step) (seen self.old)
            (seen self.new) result }
    {
        let place = at(line, self.scalar(name))?;
        let number = at(line, self.increased(place, step))?;
        self.set_variable(width, line, name, number)
    }

    // The value of a parameter.
    fn parameter(&self, expr: &Expr) -> Result<i128, Fault>
        ensures { result ≡ number_of (fortran77 Plain) (expression_of expr.now) (store_in self.now.storage) }
    {
        self.value(expr)?.as_number()
    }

    // The value of a third parameter.
    fn step(&self, expr: &Expr) -> Result<i128, Fault>
        ensures value { result ≡ increment_of (fortran77 Plain) (expression_of expr.now) (store_in self.now.storage) }
        ensures nonzero { IfOk result (λ z. z ≡ pos 0 → ⊥) }
    {
        increment(self.parameter(expr)?)
    }

    /// The parameters are evaluated, the variable gets its first value, and the number of turns is fixed.
    pub fn begin_loop(
        &mut self,
        width: Width,
        line: u32,
        name: Name,
        first: &Expr,
        last: &Expr,
        step: &Expr,
    ) -> Result<Turns, Halt>
        ensures { BeginsLoop (fortran77 width) line name
            (expression_of first.now) (expression_of last.now) (expression_of step.now)
            (seen self.old) (seen self.new) result }
    {
        let first = at(line, self.parameter(first))?;
        let last = at(line, self.parameter(last))?;
        let step = at(line, self.step(step))?;
        self.set_variable(width, line, name, first)?;
        let count = at(line, trip_count(first, last, step))?;
        Ok(Turns { count, step })
    }
}
