//! ALLOCATE and DEALLOCATE (ISO/IEC 1539:1991, sections 6.3.1 and 6.3.3).
ghost use Rattle.std.specs.Prelude.{◌≡◌, Some, map};
ghost use Rattle.tree.specs.Plain.{Allocate, Deallocate, expressions};
ghost use Rattle.tree.specs.View.{expression_of};
ghost use Rattle.tree.specs.declared.ops.Kind.{Kind as Kind'};
ghost use Rattle.meaning.specs.Dialect.{fortran90};
ghost use Rattle.tree.specs.declared.width.Width.{Width as Width'};
ghost use Rattle.meaning.specs.Run.{does};
ghost use Rattle.array_values.specs.storage.Slots.{kind_among};
ghost use Rattle.array_values.specs.storage.Allocation.{HoldsKind};
ghost use Rattle.array_expressions.specs.assignments.Causes.{Does};
ghost use Rattle.array_expressions.specs.assignments.Moments.{seen, slots_of};

use array_expressions::all_numbers;
use array_expressions::assignments::{Moment, Stuck, at};
use array_values::storage::ranges_from_one;
use machine::at as located;
use tree::{Expr, Name, Seq, Width};

/// The extents are evaluated, and then the array has elements, each of them 0 or `.FALSE.`.
pub fn allocate(
    moment: &mut Moment,
    width: Width,
    line: u32,
    name: Name,
    extents: &Seq<Expr>,
) -> Result<(), Stuck>
    ensures { (k : Kind') → kind_among (slots_of moment.old) name ≡ Some k → HoldsKind k name (slots_of moment.old)
        → Does (λ limit. does (fortran90 width) limit (Allocate line name (expressions
        (map expression_of extents.now))))
        (seen moment.old) (seen moment.new) result }
{
    moment.count_step()?;
    let values = at(line, moment.scope().values(width, extents, &[]))?;
    let numbers = at(line, all_numbers(moment.alloc, values))?;
    let ranges = at(line, ranges_from_one(moment.alloc, numbers.as_slice()))?;
    at(line, moment.storage.allocate(moment.alloc, name, ranges))?;
    Ok(())
}

/// The array has no elements from now on.
pub fn deallocate(moment: &mut Moment, line: u32, name: Name) -> Result<(), Stuck>
    ensures { (w : Width') → Does (λ limit. does (fortran90 w) limit (Deallocate line name)) (seen moment.old)
        (seen moment.new) result }
{
    moment.count_step()?;
    located(line, moment.storage.deallocate(name))?;
    Ok(())
}
