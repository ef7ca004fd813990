//! Assignments to scalars and elements, and the statements (ISO/IEC 1539:1991, sections 7.5.1 and 7.5.3).
ghost use Rattle.std.specs.Prelude.{IfOk, Option};
ghost use Rattle.tree.specs.View.{expression_of, reference_of};
ghost use Rattle.tree.specs.Plain.{Assignment, Where};
ghost use Rattle.tree.specs.declared.stmts.Mark.{Mark};
ghost use Rattle.meaning.specs.Dialect.{fortran90};
ghost use Rattle.meaning.specs.Run.{assigns, does};
ghost use Rattle.meaning.specs.Value.{cell_named};
ghost use Rattle.array_values.specs.storage.Slots.{IsWithin};
ghost use Rattle.array_values.specs.storage.Stored.{store_in};
ghost use Rattle.array_expressions.specs.assignments.Causes.{Does};
ghost use Rattle.array_expressions.specs.assignments.Moments.{seen, slots_of};
ghost use Rattle.array_expressions.specs.assignments.Placing.{FindsAt};

use crate::assignments::causes::{Stuck, at};
use crate::assignments::moment::Moment;
use array_values::storage::Place;
use machine::at as located;
use tree::{Expr, Ref, Width};

impl Moment {
    /// The place of a scalar's or an element's value. All subscripts are evaluated before any is held against its
    /// bounds.
    pub fn place(&self, width: Width, line: u32, item: &Ref) -> Result<Place, Stuck>
        ensures found { FindsAt line (slots_of self.now)
            (cell_named (fortran90 width) (reference_of item.now) (store_in self.now.storage)) result }
        ensures within { IfOk result (IsWithin (slots_of self.now)) }
    {
        let numbers = at(line, self.scope().numbers(width, &item.subs, &[]))?;
        let place = located(line, self.storage.place(item.name, numbers.as_slice()))?;
        Ok(place)
    }

    // The right side, the left subscripts, the bounds, the range, the store.
    fn assign(&mut self, width: Width, line: u32, left: &Ref, right: &Expr) -> Result<(), Stuck>
        ensures { Does (λ limit. assigns (fortran90 width) limit line (reference_of left.now) (expression_of right.now))
            (seen self.old) (seen self.new) result }
    {
        let value = at(line, self.scope().value(width, right, &[]))?;
        let place = self.place(width, line, left)?;
        self.store(width, line, place, value)?;
        Ok(())
    }

    /// An assignment.
    pub fn assignment(
        &mut self,
        width: Width,
        line: u32,
        left: &Ref,
        right: &Expr,
    ) -> Result<(), Stuck>
        ensures { (mark : Option Mark)
            → Does (λ limit. does (fortran90 width) limit (Assignment line mark (reference_of left.now)
            (expression_of right.now))) (seen self.old) (seen self.new) result }
    {
        self.count_step()?;
        if self.scope().is_scalar_item(left) {
            return self.assign(width, line, left, right);
        }
        self.assign_array(width, line, &Expr::Truth(true), left, right)
    }

    /// WHERE with its mask.
    pub fn masked_assignment(
        &mut self,
        width: Width,
        line: u32,
        mask: &Expr,
        left: &Ref,
        right: &Expr,
    ) -> Result<(), Stuck>
        ensures { (mark : Option Mark)
            → Does (λ limit. does (fortran90 width) limit (Where line mark (expression_of mask.now)
            (reference_of left.now)
            (expression_of right.now))) (seen self.old) (seen self.new) result }
    {
        self.count_step()?;
        self.assign_array(width, line, mask, left, right)
    }
}
