//! Array assignments and WHERE: all is evaluated before the first element is stored (ISO/IEC 1539:1991, section 7.5).
ghost use Rattle.std.specs.Prelude.{◌≡◌, List, IfOk, [], length};
ghost use Rattle.tree.specs.View.{expression_of, reference_of};
ghost use Rattle.tree.specs.declared.ops.Value.{Value as Value'};
ghost use Rattle.meaning.specs.Dialect.{fortran90};
ghost use Rattle.tree.specs.declared.width.Width.{Width as Width'};
ghost use Rattle.meaning.specs.ArrayStatements.{axes_named, writes_of};
ghost use Rattle.meaning.specs.Run.{array_assigns, for_each, stores_element};
ghost use Rattle.meaning.specs.Store.{Cell};
ghost use Rattle.machine.specs.Acts.{Does as DoesAll};
ghost use Rattle.array_values.specs.Positions.{wider};
ghost use Rattle.array_values.specs.storage.Stored.{slots_in, store_in};
ghost use Rattle.array_values.specs.storage.Targets.{Targets};
ghost use Rattle.array_expressions.specs.assignments.Causes.{Does};
ghost use Rattle.array_expressions.specs.assignments.Moments.{seen, slots_of};
ghost use Rattle.array_expressions.specs.assignments.Planning.{Plans, IsSound, Stores};

use crate::Scope;
use crate::assignments::causes::{Stuck, at};
use crate::assignments::moment::Moment;
use array_values::storage::array_places::{Writes, writes_under};
use array_values::storage::{Place, Target};
use array_values::{Failure, Prepared, check_conform};
use machine::Halt;
use tree::{Expr, Ref, Width};

/// What an array assignment stores: the place of the name among the declared names, and values with their places among
/// those of the name.
#[derive(Drop)]
pub struct Plan {
    pub slot: usize,
    pub writes: Writes,
}

// What the left side selects.
fn target(scope: &Scope<'_>, width: Width, left: &Ref) -> Result<Target, Failure>
    ensures { Targets (slots_in scope.now.storage.now) (reference_of left.now).name
        (axes_named (fortran90 width) (reference_of left.now) (store_in scope.now.storage.now)) result }
{
    if left.subs.is_empty() {
        return scope.storage.target(scope.alloc, left.name);
    }
    let selectors = scope.selectors(width, &left.subs, &[])?;
    scope
        .storage
        .target_part(scope.alloc, left.name, selectors.as_slice())
}

// The extents of two that conform.
fn wider<'a>(one: &'a [u128], other: &'a [u128]) -> &'a [u128]
    ensures { result.now ≡ wider one.now other.now }
{
    if one.is_empty() {
        return other;
    }
    one
}

// The mask, the left side and the right side are evaluated in this order, as far as they are in whole; then the mask's
// elements are taken, the right side's where it is true, and each value is held against the range of INTEGER.
fn planned(
    scope: &Scope<'_>,
    width: Width,
    mask: &Expr,
    left: &Ref,
    right: &Expr,
) -> Result<Plan, Failure>
    ensures plans { Plans (slots_in scope.now.storage.now) (writes_of (fortran90 width) (expression_of mask.now)
        (reference_of left.now) (expression_of right.now) (store_in scope.now.storage.now)) result }
    ensures sound { IfOk result (IsSound (slots_in scope.now.storage.now)) }
{
    let mask = scope.array(width, mask, &[])?;
    let target = target(scope, width, left)?;
    let extents = target.selected.extents.as_slice();
    check_conform(mask.extents(), extents)?;
    let right = scope.array(width, right, &[])?;
    check_conform(wider(mask.extents(), extents), right.extents())?;
    let writes = writes_under(scope.alloc, width, &mask, &target.selected, &right)?;
    Ok(Plan {
        slot: target.slot,
        writes,
    })
}

impl Moment {
    // All elements are stored, one step for each.
    fn store_all(&mut self, plan: &Plan) -> Result<(), Halt>
        requires { IsSound (slots_of self.old) plan.now }
        ensures { (w : Width') (ws : List (Cell × Value')) → Stores (slots_of self.old) ws plan.now
            → DoesAll (λ limit. for_each ws (stores_element (fortran90 w) limit)) (seen self.old)
            (seen self.new) result }
    {
        let places = plan.writes.places.as_slice();
        let values = plan.writes.values.as_slice();
        for at in 0..places.len() {
            let place = Place {
                slot: plan.slot,
                at: places[at],
            };
            self.put(place, values[at])?;
        }
        Ok(())
    }

    /// An array assignment under a mask.
    pub fn assign_array(
        &mut self,
        width: Width,
        line: u32,
        mask: &Expr,
        left: &Ref,
        right: &Expr,
    ) -> Result<(), Stuck>
        ensures { Does (λ limit. array_assigns (fortran90 width) limit line (expression_of mask.now)
            (reference_of left.now)
            (expression_of right.now)) (seen self.old) (seen self.new) result }
    {
        let plan = at(line, planned(&self.scope(), width, mask, left, right))?;
        self.store_all(&plan)?;
        Ok(())
    }
}
