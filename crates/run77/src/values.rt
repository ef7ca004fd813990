//! The values of expressions over the values of a program's names.
ghost use Rattle.std.specs.Prelude.{◌≡◌, ◌<◌, map, IfOk};
ghost use Rattle.tree.specs.Plain.{subscripts, expressions};
ghost use Rattle.tree.specs.View.{expression_of, subscript_of, reference_of};
ghost use Rattle.meaning.specs.Dialect.{fortran77};
ghost use Rattle.tree.specs.declared.width.Width.TheVariants.{Plain};
ghost use Rattle.meaning.specs.Value.{value_of, subscript_value, cell_named};
ghost use Rattle.machine.specs.Storage.{AreBounds, bounds_list, total};
ghost use Rattle.machine.specs.Stored.{names_in, store_in, Finds};
ghost use Rattle.run77.specs.Values.{call_of, offset_of};

use crate::moment::Moment;
use machine::{Subscripts, dims_of, offset};
use tree::{Arguments, Dim, Expr, Fault, Fun, Ref, Seq, Sub, Value};

impl Moment {
    /// The value of an expression. The left operand of two is evaluated first, and the first fault wins.
    #[cycle(value)]
    #[tactic(auto, using(crate::proofs::ValueLaws::value_laws, crate::proofs::ValueLaws::item_laws))]
    pub fn value(&self, expr: &Expr) -> Result<Value, Fault>
        ensures { result ≡ value_of (fortran77 Plain) (expression_of expr.now) (store_in self.now.storage) }
    {
        match expr {
            Expr::Int(number) => Ok(Value::Int(*number)),
            Expr::Truth(truth) => Ok(Value::Truth(*truth)),
            Expr::Item(item) => Ok(self.storage.value(self.place(item)?)),
            Expr::Un(op, a) => {
                let x = self.value(a)?;
                op.apply(x, x)
            }
            Expr::Bin(op, a, b) => {
                let x = self.value(a)?;
                let y = self.value(b)?;
                op.apply(x, y)
            }
            Expr::Call(function, arguments) => self.call(*function, arguments),
            Expr::List(..) => Err(Fault::Shape),
            Expr::Spread(..) => Err(Fault::Shape),
            Expr::Transpose(_) => Err(Fault::Shape),
            Expr::Reshape(..) => Err(Fault::Shape),
            Expr::Reduce(..) => Err(Fault::Shape),
        }
    }

    // All arguments are evaluated before the function is.
    #[cycle(value)]
    #[tactic(auto, using(crate::proofs::ValueLaws::left_laws))]
    fn call(&self, function: Fun, exprs: &Seq<Expr>) -> Result<Value, Fault>
        ensures { result ≡ call_of (fortran77 Plain) function (expressions (map expression_of exprs.now))
            (store_in self.now.storage) }
    {
        let mut arguments = Arguments::Empty;
        for expr in exprs.as_slice() {
            arguments = arguments.with(function, self.value(expr)?);
        }
        arguments.call(function)
    }

    /// The place of a scalar's or an element's value. All subscripts are evaluated before any is held against its
    /// bounds.
    #[cycle(value)]
    #[tactic(auto, using(crate::proofs::ValueLaws::place_laws))]
    pub fn place(&self, item: &Ref) -> Result<usize, Fault>
        ensures found { Finds (names_in self.now.storage) (cell_named (fortran77 Plain) (reference_of item.now)
            (store_in self.now.storage)) result }
        ensures within { IfOk result (λ k. k < total (names_in self.now.storage)) }
    {
        let Some(variable) = self.storage.find(item.name) else {
            self.offset(&item.subs, &[])?;
            return Err(Fault::Allocated);
        };
        let Some(offset) = self.offset(&item.subs, dims_of(&variable.decl.extent))? else {
            return Err(Fault::Bounds);
        };
        Ok(variable.start + offset)
    }

    // The place among those of its array, where the subscripts are within the bounds.
    #[cycle(value)]
    #[tactic(auto, using(crate::proofs::ValueLaws::left_laws))]
    fn offset(&self, subs: &Seq<Sub>, dims: &[Dim]) -> Result<Option<usize>, Fault>
        requires { AreBounds (bounds_list dims.now) }
        ensures { result ≡ offset_of (fortran77 Plain) (bounds_list dims.now) (subscripts (map subscript_of subs.now))
            (store_in self.now.storage) }
    {
        let mut numbers = Subscripts::new();
        for sub in subs.as_slice() {
            numbers.push(self.subscript(sub)?);
        }
        Ok(offset(numbers.as_slice(), dims))
    }

    #[cycle(value)]
    #[tactic(auto, using(crate::proofs::ValueLaws::value_laws))]
    fn subscript(&self, sub: &Sub) -> Result<i128, Fault>
        ensures { result ≡ subscript_value (fortran77 Plain) (subscript_of sub.now) (store_in self.now.storage) }
    {
        match sub {
            Sub::One(expr) => self.value(expr)?.as_number(),
            Sub::Part(..) => Err(Fault::Shape),
        }
    }
}
