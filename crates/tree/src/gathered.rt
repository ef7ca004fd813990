//! The elements of an array, gathered one at a time.
ghost use Rattle.std.specs.Prelude.{◌≡◌, ◌<◌, List, ℤ};
ghost use Rattle.tree.specs.Operators.{reduced};
ghost use Rattle.tree.specs.Gathered.{held, joined, added, gathered, value_of_nothing, whole};

use crate::{Fault, Op, Red, Value};

/// What a reduction has gathered so far: the sum of the numbers, the greatest or the least one. A sum that has been
/// outside 128 bits is lost.
#[derive(Clone, Copy, Debug, PartialEq, Eq)]
pub enum Gathered {
    Nothing,
    Number(i128),
    Overflow,
}

fn held(sum: Result<Value, Fault>) -> Gathered
    ensures { result ≡ held sum }
{
    match sum {
        Ok(Value::Int(number)) => Gathered::Number(number),
        Ok(Value::Truth(_)) => Gathered::Overflow,
        Err(_) => Gathered::Overflow,
    }
}

fn joined(reduction: Red, a: i128, b: i128) -> Gathered
    ensures { result ≡ joined reduction a b }
{
    match reduction {
        Red::Sum => held(Op::Add.apply(Value::Int(a), Value::Int(b))),
        Red::MaxVal => Gathered::Number(a.max(b)),
        Red::MinVal => Gathered::Number(a.min(b)),
    }
}

// The first number joins what SUM begins with.
fn begun(reduction: Red, number: i128) -> Gathered
    ensures { result ≡ added reduction Gathered.Nothing number }
{
    match reduction {
        Red::Sum => joined(reduction, 0, number),
        Red::MaxVal => Gathered::Number(number),
        Red::MinVal => Gathered::Number(number),
    }
}

impl Gathered {
    /// What is gathered with one number more.
    pub fn with(self, reduction: Red, number: i128) -> Gathered
        ensures { result ≡ added reduction self number }
    {
        match self {
            Gathered::Nothing => begun(reduction, number),
            Gathered::Number(so_far) => joined(reduction, so_far, number),
            Gathered::Overflow => Gathered::Overflow,
        }
    }

    /// The value of the reduction (ISO/IEC 1539:1991, section 13.13), where INTEGER holds the numbers from `-2 ** bits`
    /// to `2 ** bits - 1`: of no numbers 0, the least number or the greatest one.
    #[tactic(auto, using(crate::proofs::Reductions::reductions))]
    pub fn reduce(self, reduction: Red, bits: u32) -> Result<Value, Fault>
        requires { bits < 127 }
        ensures value { result ≡ whole bits reduction self }
        ensures of_all { (zs : List ℤ) → self ≡ gathered reduction zs → result ≡ reduced bits reduction zs }
    {
        self.finish(reduction, bits)
    }

    #[tactic(auto, using(crate::proofs::Exact::exact))]
    fn finish(self, reduction: Red, bits: u32) -> Result<Value, Fault>
        requires { bits < 127 }
        ensures { result ≡ whole bits reduction self }
    {
        match self {
            Gathered::Nothing => Ok(Value::Int(of_nothing(reduction, bits))),
            Gathered::Number(number) => Ok(Value::Int(number)),
            Gathered::Overflow => Err(Fault::Overflow),
        }
    }
}

#[tactic(auto, using(crate::proofs::Reductions::powers_of_two))]
fn of_nothing(reduction: Red, bits: u32) -> i128
    requires { bits < 127 }
    ensures { result ≡ value_of_nothing bits reduction }
{
    match reduction {
        Red::Sum => 0,
        Red::MaxVal => -2i128.pow(bits),
        Red::MinVal => 2i128.pow(bits) - 1,
    }
}
