//! The values of scalar expressions (ISO/IEC 1539:1991, sections 6.2 and 7.1).
ghost use Rattle.std.specs.Prelude.{map, List, ℤ};
ghost use Rattle.tree.specs.Operators.{as_number};
ghost use Rattle.tree.specs.Plain.{expressions, subscripts};
ghost use Rattle.tree.specs.View.{expression_of, subscript_of};
ghost use Rattle.tree.specs.declared.ops.Value.{Value as Value'};
ghost use Rattle.meaning.specs.Dialect.{fortran90};
ghost use Rattle.meaning.specs.Value.{value_of, values_of, subscript_value, subscript_values};
ghost use Rattle.array_values.specs.Answers.{Answers};
ghost use Rattle.array_expressions.specs.Appending.{Appends};
ghost use Rattle.array_expressions.specs.Scopes.{store_at, number_at};

use crate::locals::Local;
use crate::numbers::call;
use crate::scope::Scope;
use array_values::Failure;
use tree::{Expr, Fault, Seq, Sub, Value, Width};

// The value, or its fault.
fn answer(value: Result<Value, Fault>) -> Result<Value, Failure>
    ensures { Answers (λ (v : Value'). v) value result }
{
    match value {
        Ok(value) => Ok(value),
        Err(fault) => Err(Failure::Fault(fault)),
    }
}

// The number that the value is.
fn as_number(value: Value) -> Result<i128, Failure>
    ensures { Answers (λ (z : ℤ). z) (as_number value) result }
{
    match value.as_number() {
        Ok(number) => Ok(number),
        Err(fault) => Err(Failure::Fault(fault)),
    }
}

impl Scope<'_> {
    /// The value of a scalar expression. The left operand of two is evaluated first, all subscripts are before any is
    /// held against its bounds, and the first fault wins.
    #[cycle(evaluation)]
    #[tactic(auto, using(crate::proofs::ValueLaws::value_laws, crate::proofs::Weights::weight_laws))]
    pub fn value(&self, width: Width, expr: &Expr, locals: &[Local]) -> Result<Value, Failure>
        ensures { Answers (λ (v : Value'). v)
            (value_of (fortran90 width) (expression_of expr.now) (store_at self.now locals.now)) result }
    {
        match expr {
            Expr::Int(number) => Ok(Value::Int(*number)),
            Expr::Truth(truth) => Ok(Value::Truth(*truth)),
            Expr::Item(item) => {
                let numbers = self.numbers(width, &item.subs, locals)?;
                answer(self.held(item.name, numbers.as_slice(), locals))
            }
            Expr::Un(op, a) => {
                let x = self.value(width, a, locals)?;
                answer(op.apply(x, x))
            }
            Expr::Bin(op, a, b) => {
                let x = self.value(width, a, locals)?;
                let y = self.value(width, b, locals)?;
                answer(op.apply(x, y))
            }
            Expr::Call(function, exprs) => {
                let values = self.values(width, exprs, locals)?;
                answer(call(*function, values.as_slice()))
            }
            Expr::Reduce(reduction, a) => {
                let array = self.in_whole(width, a, locals)?;
                answer(array.reduce(*reduction, width))
            }
            Expr::List(..) => Err(Failure::Fault(Fault::Shape)),
            Expr::Spread(..) => Err(Failure::Fault(Fault::Shape)),
            Expr::Transpose(_) => Err(Failure::Fault(Fault::Shape)),
            Expr::Reshape(..) => Err(Failure::Fault(Fault::Shape)),
        }
    }

    /// The number that a scalar expression is.
    #[cycle(evaluation)]
    #[tactic(auto, using(crate::proofs::Weights::weight_laws))]
    pub fn number(&self, width: Width, expr: &Expr, locals: &[Local]) -> Result<i128, Failure>
        ensures { Answers (λ (z : ℤ). z) (number_at width (expression_of expr.now)
            (store_at self.now locals.now)) result }
    {
        let value = self.value(width, expr, locals)?;
        as_number(value)
    }

    /// The values of scalar expressions, from left to right.
    #[cycle(evaluation)]
    #[tactic(auto, using(crate::proofs::Weights::weight_laws))]
    pub fn values(
        &self,
        width: Width,
        exprs: &Seq<Expr>,
        locals: &[Local],
    ) -> Result<Seq<Value>, Failure>
        ensures { Answers (λ (vs : List Value'). vs) (values_of (fortran90 width)
            (expressions (map expression_of exprs.now)) (store_at self.now locals.now)) result }
    {
        let mut values = Seq::new(self.alloc);
        self.push_values(width, exprs, locals, &mut values)?;
        Ok(values)
    }

    // Puts the values of scalar expressions behind those that are there.
    #[cycle(evaluation)]
    #[tactic(auto, using(crate::proofs::Weights::weight_laws))]
    pub(crate) fn push_values(
        &self,
        width: Width,
        exprs: &Seq<Expr>,
        locals: &[Local],
        all: &mut Seq<Value>,
    ) -> Result<(), Failure>
        ensures { Appends all.old all.new (values_of (fortran90 width)
            (expressions (map expression_of exprs.now)) (store_at self.now locals.now)) result }
    {
        for expr in exprs.as_slice() {
            let value = self.value(width, expr, locals)?;
            all.push(value)?;
        }
        Ok(())
    }

    /// The numbers of an element's subscripts.
    #[cycle(evaluation)]
    #[tactic(auto, using(crate::proofs::Weights::weight_laws))]
    pub fn numbers(
        &self,
        width: Width,
        subs: &Seq<Sub>,
        locals: &[Local],
    ) -> Result<Seq<i128>, Failure>
        ensures { Answers (λ (zs : List ℤ). zs) (subscript_values (fortran90 width)
            (subscripts (map subscript_of subs.now)) (store_at self.now locals.now)) result }
    {
        let mut numbers = Seq::new(self.alloc);
        for sub in subs.as_slice() {
            let number = self.subscript(width, sub, locals)?;
            numbers.push(number)?;
        }
        Ok(numbers)
    }

    #[cycle(evaluation)]
    #[tactic(auto, using(crate::proofs::Weights::weight_laws))]
    fn subscript(&self, width: Width, sub: &Sub, locals: &[Local]) -> Result<i128, Failure>
        ensures { Answers (λ (z : ℤ). z)
            (subscript_value (fortran90 width) (subscript_of sub.now) (store_at self.now locals.now)) result }
    {
        match sub {
            Sub::One(expr) => self.number(width, expr, locals),
            Sub::Part(..) => Err(Failure::Fault(Fault::Shape)),
        }
    }
}
