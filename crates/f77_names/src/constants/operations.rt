//! Operators and functions at values that may be faults.
ghost use Rattle.std.specs.Prelude.{◌≡◌};
ghost use Rattle.f77_names.specs.constants.Steps.{applied, combined, called, given};

use tree::{Fault, Fun, Op, Seq, Value};

/// An operator before its operand.
pub fn apply_to(op: Op, a: Result<Value, Fault>) -> Result<Value, Fault>
    ensures { result ≡ applied op a }
{
    let a = a?;
    op.apply(a, a)
}

/// An operator between its operands; the fault of the left one comes first.
pub fn combine(op: Op, a: Result<Value, Fault>, b: Result<Value, Fault>) -> Result<Value, Fault>
    ensures { result ≡ combined op a b }
{
    op.apply(a?, b?)
}

/// A function at its arguments.
pub fn call(function: Fun, arguments: Result<Seq<Value>, Fault>) -> Result<Value, Fault>
    ensures { result ≡ called function arguments }
{
    let arguments = arguments?;
    function.apply(arguments.as_slice())
}

/// A name by the fault of its subscripts, whether it has none, and its value.
pub fn scalar(fault: Option<Fault>, bare: bool, value: Option<Value>) -> Result<Value, Fault>
    ensures { result ≡ given fault bare value }
{
    if let Some(fault) = fault {
        return Err(fault);
    }
    let value = value.ok_or(Fault::Allocated)?;
    if bare { Ok(value) } else { Err(Fault::Bounds) }
}
