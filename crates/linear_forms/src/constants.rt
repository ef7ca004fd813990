//! Constants.
ghost use Rattle.std.specs.Prelude.{◌≡◌, map};
ghost use Rattle.tree.specs.Plain.{Apply, expressions};
ghost use Rattle.tree.specs.View.{expression_of};
ghost use Rattle.linear_forms.specs.Linear.{constant_value, known};

use tree::{Arguments, Expr, Fault, Fun, Seq, Value};

/// The value, where there is one.
pub fn known(given: Result<Value, Fault>) -> Option<Value>
    ensures { result ≡ known given }
{
    match given {
        Ok(value) => Some(value),
        Err(_) => None,
    }
}

/// The value of an expression without references; None where it has a reference, or meets a fault.
#[cycle(constant)]
#[tactic(auto, using(crate::proofs::ConstantLaws::constant_laws))]
pub fn constant_value(expr: &Expr) -> Option<Value>
    ensures { result ≡ constant_value (expression_of expr.now) }
{
    match expr {
        Expr::Int(number) => Some(Value::Int(*number)),
        Expr::Truth(truth) => Some(Value::Truth(*truth)),
        Expr::Item(_) => None,
        Expr::Un(op, a) => {
            let Some(x) = constant_value(a) else {
                return None;
            };
            known(op.apply(x, x))
        }
        Expr::Bin(op, a, b) => {
            let Some(x) = constant_value(a) else {
                return None;
            };
            let Some(y) = constant_value(b) else {
                return None;
            };
            known(op.apply(x, y))
        }
        Expr::Call(function, arguments) => constant_call(*function, arguments),
        Expr::List(..) => None,
        Expr::Spread(..) => None,
        Expr::Transpose(_) => None,
        Expr::Reshape(..) => None,
        Expr::Reduce(..) => None,
    }
}

#[cycle(constant)]
#[tactic(auto, using(crate::proofs::ConstantLaws::call_laws))]
fn constant_call(function: Fun, exprs: &Seq<Expr>) -> Option<Value>
    ensures { result ≡ constant_value (Apply function (expressions (map expression_of exprs.now))) }
{
    let mut given = Arguments::Empty;
    for expr in exprs.as_slice() {
        let Some(value) = constant_value(expr) else {
            return None;
        };
        given = given.with(function, value);
    }
    known(given.call(function))
}
