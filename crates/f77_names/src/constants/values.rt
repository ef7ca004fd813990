//! Values of expressions in which symbolic constants alone have values.
ghost use Rattle.std.specs.Prelude.{◌≡◌, IfOk, map};
ghost use Rattle.tree.specs.Plain.{subscripts, expressions};
ghost use Rattle.tree.specs.View.{expression_of, subscript_of};
ghost use Rattle.tree.specs.declared.exprs.Expr.TheVariants as exprs;
ghost use Rattle.meaning.specs.Value.{value_of, values_of, number_of, subscript_values, subscript_value};
ghost use Rattle.meaning.specs.Dialect.{fortran77};
ghost use Rattle.f77_names.specs.constants.Constants.{store_of};
ghost use Rattle.f77_names.specs.constants.Steps.{numbered, fault_of};

use crate::constants::constants::Constants;
use crate::constants::operations::{apply_to, call, combine, scalar};
use std::alloc::Global;
use tree::{Expr, Fault, Memory, Ref, Seq, Sub, Value};

fn number(value: Result<Value, Fault>) -> Result<i128, Fault>
    ensures { result ≡ numbered value }
{
    match value? {
        Value::Int(number) => Ok(number),
        Value::Truth(_) => Err(Fault::Shape),
    }
}

fn fault(number: Result<i128, Fault>) -> Option<Fault>
    ensures { result ≡ fault_of number }
{
    match number {
        Ok(_) => None,
        Err(fault) => Some(fault),
    }
}

impl Constants {
    /// The value of an expression, or its fault.
    #[cycle(values)]
    #[tactic(auto, using(crate::proofs::constants::ValueLaws::value_laws))]
    pub(crate) fn evaluate(
        &self,
        alloc: Global,
        expr: &Expr,
    ) -> Result<Result<Value, Fault>, Memory>
        ensures { IfOk result
            (λ value. value ≡ value_of (fortran77 self.now.width) (expression_of expr.now) (store_of self.now)) }
    {
        match expr {
            Expr::Int(number) => Ok(Ok(Value::Int(*number))),
            Expr::Truth(truth) => Ok(Ok(Value::Truth(*truth))),
            Expr::Item(item) => self.evaluate_item(alloc, item),
            Expr::Un(op, a) => {
                let a = self.evaluate(alloc, a)?;
                Ok(apply_to(*op, a))
            }
            Expr::Bin(op, a, b) => {
                let a = self.evaluate(alloc, a)?;
                let b = self.evaluate(alloc, b)?;
                Ok(combine(*op, a, b))
            }
            Expr::Call(function, arguments) => {
                let arguments = self.evaluate_all(alloc, arguments)?;
                Ok(call(*function, arguments))
            }
            // FORTRAN 77 has no arrays as values.
            Expr::List(..) | Expr::Spread(..) | Expr::Transpose(_) => Ok(Err(Fault::Shape)),
            Expr::Reshape(..) | Expr::Reduce(..) => Ok(Err(Fault::Shape)),
        }
    }

    #[cycle(values)]
    #[tactic(auto, using(crate::proofs::constants::ValueLaws::value_laws))]
    fn evaluate_item(&self, alloc: Global, item: &Ref) -> Result<Result<Value, Fault>, Memory>
        ensures { IfOk result (λ value.
            value ≡ value_of (fortran77 self.now.width) (expression_of (exprs.Item item.now)) (store_of self.now)) }
    {
        let fault = self.fault_in_subs(alloc, &item.subs)?;
        Ok(scalar(fault, item.subs.is_empty(), self.value(item.name)))
    }

    #[cycle(values)]
    fn evaluate_all(
        &self,
        alloc: Global,
        exprs: &Seq<Expr>,
    ) -> Result<Result<Seq<Value>, Fault>, Memory>
        ensures { IfOk result (λ values.
            values ≡ values_of (fortran77 self.now.width) (expressions (map expression_of exprs.now))
            (store_of self.now)) }
    {
        let mut values = Seq::new(alloc);
        for expr in exprs.as_slice() {
            match self.evaluate(alloc, expr)? {
                Ok(value) => values.push(value)?,
                Err(fault) => return Ok(Err(fault)),
            }
        }
        Ok(Ok(values))
    }

    #[cycle(values)]
    #[tactic(auto, using(crate::proofs::constants::ValueLaws::value_laws))]
    fn fault_in_sub(&self, alloc: Global, sub: &Sub) -> Result<Option<Fault>, Memory>
        ensures { IfOk result (λ fault.
            fault ≡ fault_of (subscript_value (fortran77 self.now.width) (subscript_of sub.now) (store_of self.now))) }
    {
        match sub {
            Sub::One(expr) => {
                let value = self.evaluate(alloc, expr)?;
                Ok(fault(number(value)))
            }
            Sub::Part(..) => Ok(Some(Fault::Shape)),
        }
    }

    #[cycle(values)]
    fn fault_in_subs(&self, alloc: Global, subs: &Seq<Sub>) -> Result<Option<Fault>, Memory>
        ensures { IfOk result (λ fault.
            fault ≡ fault_of (subscript_values (fortran77 self.now.width) (subscripts (map subscript_of subs.now))
            (store_of self.now))) }
    {
        for sub in subs.as_slice() {
            let fault = self.fault_in_sub(alloc, sub)?;
            if fault.is_some() {
                return Ok(fault);
            }
        }
        Ok(None)
    }

    /// The number that an expression gives, or its fault.
    pub(crate) fn number(&self, alloc: Global, expr: &Expr) -> Result<Result<i128, Fault>, Memory>
        ensures { IfOk result
            (λ value. value ≡ number_of (fortran77 self.now.width) (expression_of expr.now) (store_of self.now)) }
    {
        let value = self.evaluate(alloc, expr)?;
        Ok(number(value))
    }
}
