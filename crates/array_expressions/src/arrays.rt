//! The arrays of expressions (ISO/IEC 1539:1991, sections 4.5, 7.1.5 and 13.13).
ghost use Rattle.std.specs.Prelude.{◌≡◌, map, List, [], IfOk};
ghost use Rattle.tree.specs.Plain.{expressions};
ghost use Rattle.tree.specs.View.{expression_of};
ghost use Rattle.meaning.specs.ArrayValues.{settled, scalar_array};
ghost use Rattle.meaning.specs.Dialect.{fortran90};
ghost use Rattle.meaning.specs.Value.{array_of, arguments_of};
ghost use Rattle.array_values.specs.Answers.{Answers};
ghost use Rattle.array_values.specs.Arrays.{array_in, elements_in, together_all};
ghost use Rattle.array_values.specs.declared.prepared.Prepared.{Prepared as Prepared'};
ghost use Rattle.array_expressions.specs.Scopes.{store_at, known_of, whole_of, reshaped_to};

use crate::locals::Local;
use crate::numbers::{all_numbers, counts, listed, not_negative};
use crate::scope::Scope;
use array_values::{Failure, Known, Prepared, check_conform, common_extents};
use std::alloc::Global;
use tree::{Expr, Memory, Seq, Value, Width};

fn settled(alloc: Global, value: Value) -> Result<Prepared, Memory>
    ensures { IfOk result (λ p. elements_in p ≡ settled (scalar_array value)) }
{
    Ok(Prepared::Known(Known::scalar(alloc, value)?))
}

// RESHAPE of an array to the extents that the values are.
fn reshaped(alloc: Global, array: Known, values: Seq<Value>) -> Result<Prepared, Failure>
    ensures { Answers elements_in (reshaped_to values (array_in array)) result }
{
    let numbers = all_numbers(alloc, values)?;
    let extents = counts(alloc, numbers.as_slice())?;
    Ok(Prepared::Known(array.reshaped(extents)?))
}

impl Scope<'_> {
    /// The array of an expression. Subscripts, constructors and the arguments of array functions are evaluated here, in
    /// whole; operators and the other functions are left to each position.
    #[cycle(evaluation)]
    #[tactic(auto, using(crate::proofs::Weights::weight_laws))]
    pub fn array(&self, width: Width, expr: &Expr, locals: &[Local]) -> Result<Prepared, Failure>
        ensures { Answers elements_in
            (array_of (fortran90 width) (expression_of expr.now) (store_at self.now locals.now)) result }
    {
        match expr {
            Expr::Int(number) => Ok(settled(self.alloc, Value::Int(*number))?),
            Expr::Truth(truth) => Ok(settled(self.alloc, Value::Truth(*truth))?),
            Expr::Item(item) => Ok(Prepared::Known(self.selected(width, item, locals)?)),
            Expr::Un(op, a) => {
                let a = self.array(width, a, locals)?;
                Ok(Prepared::unary(self.alloc, *op, a)?)
            }
            Expr::Bin(op, a, b) => {
                let a = self.array(width, a, locals)?;
                let b = self.array(width, b, locals)?;
                Prepared::binary(self.alloc, *op, a, b)
            }
            Expr::Call(function, exprs) => {
                Ok(Prepared::Call(*function, self.arguments(width, exprs, locals)?))
            }
            Expr::List(values, turns) => {
                let mut all = Seq::new(self.alloc);
                self.push_turns(width, values, turns.as_slice(), locals, &mut all)?;
                Ok(Prepared::Known(listed(self.alloc, all)?))
            }
            Expr::Spread(a, dimension, count) => {
                let a = self.known(width, a, locals)?;
                let count = self.number(width, count, locals)?;
                Ok(Prepared::spread(self.alloc, a, *dimension, not_negative(count))?)
            }
            Expr::Transpose(a) => {
                let a = self.in_whole(width, a, locals)?;
                Ok(Prepared::transposed(self.alloc, a)?)
            }
            Expr::Reshape(a, extents) => {
                let a = self.in_whole(width, a, locals)?;
                let extents = self.values(width, extents, locals)?;
                reshaped(self.alloc, a, extents)
            }
            Expr::Reduce(reduction, a) => {
                let array = self.in_whole(width, a, locals)?;
                let value = array.reduce(*reduction, width)?;
                Ok(settled(self.alloc, value)?)
            }
        }
    }

    /// All elements of an array.
    #[cycle(evaluation)]
    #[tactic(auto, using(crate::proofs::Weights::weight_laws))]
    pub fn in_whole(&self, width: Width, expr: &Expr, locals: &[Local]) -> Result<Known, Failure>
        ensures { Answers array_in (whole_of width (expression_of expr.now) (store_at self.now locals.now)) result }
    {
        let array = self.array(width, expr, locals)?;
        array.in_whole(self.alloc)
    }

    /// A scalar's value, or all elements of an array.
    #[cycle(evaluation)]
    #[tactic(auto, using(crate::proofs::Weights::weight_laws))]
    pub fn known(&self, width: Width, expr: &Expr, locals: &[Local]) -> Result<Known, Failure>
        ensures { Answers array_in (known_of width (expression_of expr.now) (store_at self.now locals.now)) result }
    {
        if !self.is_scalar(expr) {
            return self.in_whole(width, expr, locals);
        }
        let value = self.value(width, expr, locals)?;
        Ok(Known::scalar(self.alloc, value)?)
    }

    // The arguments of a function, which have to conform.
    #[cycle(evaluation)]
    #[tactic(auto, using(crate::proofs::Weights::weight_laws))]
    fn arguments(
        &self,
        width: Width,
        exprs: &Seq<Expr>,
        locals: &[Local],
    ) -> Result<Seq<Prepared>, Failure>
        ensures { Answers (λ (ps : List Prepared'). together_all [] (map elements_in ps)) (arguments_of
            (fortran90 width)
            (expressions (map expression_of exprs.now)) [] (store_at self.now locals.now)) result }
    {
        let mut parts = Seq::new(self.alloc);
        for expr in exprs.as_slice() {
            let part = self.array(width, expr, locals)?;
            check_conform(common_extents(parts.as_slice()), part.extents())?;
            parts.push(part)?;
        }
        Ok(parts)
    }
}
