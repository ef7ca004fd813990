//! The values of array constructors (ISO/IEC 1539:1991, section 4.5).
ghost use Rattle.std.specs.Prelude.{◌≡◌, ◌++◌, ◌∷◌, [], map, IfOk};
ghost use Rattle.tree.specs.Plain.{expressions};
ghost use Rattle.tree.specs.View.{expression_of, loop_of, constructor_loops};
ghost use Rattle.meaning.specs.Dialect.{fortran90};
ghost use Rattle.meaning.specs.Value.{for_numbers};
ghost use Rattle.array_expressions.specs.Appending.{Appends};
ghost use Rattle.array_expressions.specs.Scopes.{store_at, constructed};

use crate::locals::Local;
use crate::scope::Scope;
use array_values::Failure;
use std::alloc::Global;
use tree::{Expr, Fault, Memory, Name, Seq, Turn, Value, Width};

// The variables of loops, with one more that is the innermost.
fn within(alloc: Global, locals: &[Local], name: Name, number: i128) -> Result<Vec<Local>, Memory>
    ensures { IfOk result (λ all. all.items ≡ locals.now ++ record { name = name; number = number } ∷ []) }
{
    let mut all = Vec::with_capacity(alloc, locals.len() + 1)?;
    all.extend_from_slice(locals)?;
    all.push(Local { name, number })?;
    Ok(all)
}

// The variable of a loop, and the first and the last one of its numbers.
#[derive(Clone, Copy)]
struct Numbers {
    name: Name,
    first: i128,
    last: i128,
}

impl Scope<'_> {
    // Puts the values of a constructor behind those that are there. The last loop is the outermost one.
    #[cycle(evaluation)]
    #[tactic(auto, using(crate::proofs::Weights::weight_laws))]
    pub(crate) fn push_turns(
        &self,
        width: Width,
        values: &Seq<Expr>,
        turns: &[Turn],
        locals: &[Local],
        all: &mut Seq<Value>,
    ) -> Result<(), Failure>
        ensures { Appends all.old all.new (constructed width (expressions (map expression_of values.now))
            (constructor_loops (map loop_of turns.now)) (store_at self.now locals.now)) result }
    {
        let Some((turn, inner)) = turns.split_last() else {
            return self.push_values(width, values, locals, all);
        };
        let first = self.number(width, &turn.first, locals)?;
        let last = self.number(width, &turn.last, locals)?;
        let numbers = Numbers {
            name: turn.var,
            first,
            last,
        };
        self.push_numbers(width, values, inner, numbers, locals, all)
    }

    // The same for each number of the outermost loop's variable.
    #[cycle(evaluation)]
    #[tactic(auto, using(crate::proofs::Weights::weight_laws))]
    fn push_numbers(
        &self,
        width: Width,
        values: &Seq<Expr>,
        inner: &[Turn],
        numbers: Numbers,
        locals: &[Local],
        all: &mut Seq<Value>,
    ) -> Result<(), Failure>
        ensures { Appends all.old all.new (for_numbers (fortran90 width).bits numbers.name numbers.first numbers.last
            (constructed width (expressions (map expression_of values.now)) (constructor_loops (map loop_of inner.now)))
            (store_at self.now locals.now)) result }
    {
        let mut number = numbers.first;
        while number <= numbers.last {
            if !width.holds(number) {
                return Err(Failure::Fault(Fault::Overflow));
            }
            let own = within(self.alloc, locals, numbers.name, number)?;
            self.push_turns(width, values, inner, &own, all)?;
            number += 1;
        }
        Ok(())
    }
}
