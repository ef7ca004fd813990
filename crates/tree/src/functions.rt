//! Functions: of numbers (ANSI X3.9-1978, section 15.10), and of arrays (ISO/IEC 1539:1991, section 13.10).
ghost use Rattle.std.specs.Prelude.{◌≡◌, ◌≤◌, ◌↔◌, IsTrue, IsErrOf, IfErr, IfOk, IfSome, All, find, length, pos};
ghost use Rattle.std.specs.Prelude.{nat_abs};
ghost use Rattle.tree.specs.Operators.{number, ranged, remainder};
ghost use Rattle.tree.specs.OperationFaults.{LeavesRange, IsOperationFault, kind_of, IsNumber};
ghost use Rattle.tree.specs.Operators.{call, exact_of_values};
ghost use Rattle.tree.specs.OperationFaults.{number_in, CallDividesByZero, SuitsCall};
ghost use Rattle.tree.specs.Functions.{function_named, name_of_function, suits_number, name_of_reduction};
ghost use Rattle.tree.specs.Functions.{intrinsic_named, intrinsics, name_of_intrinsic};

use crate::ops::within_range;
use crate::{Fault, Kind, Value};

/// The functions of numbers.
#[derive(Clone, Copy, Debug, PartialEq, Eq)]
pub enum Fun {
    Abs,
    Mod,
    Max,
    Min,
}

/// What gathers the elements of an array into one number.
#[derive(Clone, Copy, Debug, PartialEq, Eq)]
pub enum Red {
    Sum,
    MaxVal,
    MinVal,
}

/// The functions of Fortran 90.
#[derive(Clone, Copy, Debug, PartialEq, Eq)]
pub enum Intrinsic {
    Elemental(Fun),
    Reduction(Red),
    Spread,
    Transpose,
    Reshape,
}

// The functions of numbers, one row a function: its name in Fortran 90, its names in FORTRAN 77, and the numbers of
// arguments that it takes.
macro_rules! function_table {
    ($column:ident $($input:tt)*) => {
        function_table! { @$column ($($input)*)
            Abs "ABS" (b"ABS" | b"IABS") (1);
            Mod "MOD" (b"MOD") (2);
            Max "MAX" (b"MAX" | b"MAX0") (2..);
            Min "MIN" (b"MIN" | b"MIN0") (2..);
        }
    };
    (@read77 ($text:expr) $($function:ident $new:literal ($($old:literal)|+) $counts:tt;)*) => {
        match $text {
            $($($old)|+ => Some(Fun::$function),)*
            _ => None,
        }
    };
    (@spell90 ($function:tt) $($variant:ident $new:literal $old:tt $counts:tt;)*) => {
        match $function {
            $(Fun::$variant => $new,)*
        }
    };
    (@takes ($function:tt $count:tt) $($variant:ident $new:literal $old:tt $counts:tt;)*) => {
        match $function {
            $(Fun::$variant => function_table!(@counts $count $counts),)*
        }
    };
    (@counts $count:tt ($least:literal)) => {
        $count == $least
    };
    (@counts $count:tt ($least:literal..)) => {
        $least <= $count
    };
}

#[tactic(auto, using(crate::proofs::CallValues::absolutes))]
fn absolute(a: i128) -> Result<Value, Fault>
    ensures { result ≡ number (pos (nat_abs a)) }
{
    within_range(a.checked_abs())
}

#[tactic(auto, using(crate::proofs::CallValues::remainders))]
fn remainder(a: i128, b: i128) -> Result<Value, Fault>
    ensures { result ≡ ranged (remainder a b) }
{
    if b == 0 {
        return Err(Fault::ZeroDivide);
    }
    Ok(Value::Int(a.wrapping_rem(b)))
}

fn number_of(value: Value) -> i128
    requires { IsNumber value }
    ensures { result ≡ number_in value }
{
    match value {
        Value::Int(number) => number,
        Value::Truth(_) => unreachable!(),
    }
}

#[tactic(auto, using(crate::proofs::CallValues::calls))]
fn greatest(args: &[Value]) -> i128
    requires count { 2 ≤ length args.now }
    requires numbers { All IsNumber args.now }
    ensures { call Fun.Max args.now ≡ Ok (Value.Int result) }
{
    let mut best = number_of(args[0]);
    for value in args {
        best = best.max(number_of(*value));
    }
    best
}

#[tactic(auto, using(crate::proofs::CallValues::calls))]
fn least(args: &[Value]) -> i128
    requires count { 2 ≤ length args.now }
    requires numbers { All IsNumber args.now }
    ensures { call Fun.Min args.now ≡ Ok (Value.Int result) }
{
    let mut best = number_of(args[0]);
    for value in args {
        best = best.min(number_of(*value));
    }
    best
}

fn is_number(value: Value) -> bool
    ensures { IsTrue result ↔ IsNumber value }
{
    match value {
        Value::Int(_) => true,
        Value::Truth(_) => false,
    }
}

fn are_numbers(values: &[Value]) -> bool
    ensures { IsTrue result ↔ All IsNumber values.now }
{
    values.iter().all(|value| is_number(*value))
}

impl Fun {
    /// The function that the name names in FORTRAN 77 where nothing hides it.
    pub fn read77(name: &[u8]) -> Option<Fun>
        ensures { result ≡ function_named name.now }
    {
        function_table!(read77 name)
    }

    /// Its name in Fortran 90.
    pub fn spell90(self) -> &'static str
        ensures { result.now ≡ name_of_function self }
    {
        function_table!(spell90 self)
    }

    /// Whether it takes so many arguments.
    pub fn takes(self, count: usize) -> bool
        ensures { result ≡ suits_number self count }
    {
        function_table!(takes self count)
    }

    /// The function at its arguments.
    ///
    /// MOD of `a` and `b` is `a - (a / b) * b`, also where `a / b` alone is outside 128 bits. Truth values, and a
    /// number of arguments that it doesn't take, fault as `Shape`.
    #[tactic(auto, using(crate::proofs::Faults::call_laws))]
    pub fn apply(self, args: &[Value]) -> Result<Value, Fault>
        ensures value { result ≡ call self args.now }
        ensures overflow { IsErrOf result Fault.Overflow ↔ LeavesRange (exact_of_values self args.now) }
        ensures zero_divide { IsErrOf result Fault.ZeroDivide ↔ CallDividesByZero self args.now }
        ensures shape { IsErrOf result Fault.Shape ↔ ¬ SuitsCall self args.now }
        ensures only_these { IfErr result IsOperationFault }
        ensures kind { IfOk result (λ value. kind_of value ≡ Kind.Integer) }
    {
        self.operate(args)
    }

    #[tactic(auto, using(crate::proofs::Unsuited::unsuited_calls))]
    fn operate(self, args: &[Value]) -> Result<Value, Fault>
        ensures { result ≡ call self args.now }
    {
        if !are_numbers(args) {
            return Err(Fault::Shape);
        }
        if !self.takes(args.len()) {
            return Err(Fault::Shape);
        }
        self.operate_on_numbers(args)
    }

    #[tactic(auto, using(crate::proofs::CallValues::calls))]
    fn operate_on_numbers(self, args: &[Value]) -> Result<Value, Fault>
        requires count { IsTrue (suits_number self (length args.now)) }
        requires numbers { All IsNumber args.now }
        ensures { result ≡ call self args.now }
    {
        match self {
            Fun::Abs => absolute(number_of(args[0])),
            Fun::Mod => remainder(number_of(args[0]), number_of(args[1])),
            Fun::Max => Ok(Value::Int(greatest(args))),
            Fun::Min => Ok(Value::Int(least(args))),
        }
    }
}

impl Red {
    /// Its name in Fortran 90.
    pub fn spell90(self) -> &'static str
        ensures { result.now ≡ name_of_reduction self }
    {
        match self {
            Red::Sum => "SUM",
            Red::MaxVal => "MAXVAL",
            Red::MinVal => "MINVAL",
        }
    }
}

const INTRINSICS: [Intrinsic; 10] = [
    Intrinsic::Elemental(Fun::Abs),
    Intrinsic::Elemental(Fun::Mod),
    Intrinsic::Elemental(Fun::Max),
    Intrinsic::Elemental(Fun::Min),
    Intrinsic::Reduction(Red::Sum),
    Intrinsic::Reduction(Red::MaxVal),
    Intrinsic::Reduction(Red::MinVal),
    Intrinsic::Spread,
    Intrinsic::Transpose,
    Intrinsic::Reshape,
];

fn find90(name: &[u8]) -> Option<Intrinsic>
    ensures { result ≡ intrinsic_named name.now }
{
    INTRINSICS
        .iter()
        .copied()
        .find(|function| function.spell90().as_bytes() == name)
}

impl Intrinsic {
    /// The function that the name names in Fortran 90 where nothing hides it.
    pub fn read90(name: &[u8]) -> Option<Intrinsic>
        ensures function { result ≡ intrinsic_named name.now }
        ensures named { IfSome result (λ function. name_of_intrinsic function ≡ name.now) }
        ensures every { (function : Intrinsic) → name_of_intrinsic function ≡ name.now → result ≡ Some function }
    {
        find90(name)
    }

    /// Its name in Fortran 90.
    pub fn spell90(self) -> &'static str
        ensures { result.now ≡ name_of_intrinsic self }
    {
        match self {
            Intrinsic::Elemental(function) => function.spell90(),
            Intrinsic::Reduction(reduction) => reduction.spell90(),
            Intrinsic::Spread => "SPREAD",
            Intrinsic::Transpose => "TRANSPOSE",
            Intrinsic::Reshape => "RESHAPE",
        }
    }
}
