//! The arguments of a function, taken one at a time.
ghost use Rattle.std.specs.Prelude.{◌≡◌, List};
ghost use Rattle.tree.specs.Operators.{call};
ghost use Rattle.tree.specs.Arguments.{kept, added, taken, finished, call_of_many};

use crate::{Fault, Fun, Value};

/// The arguments that a function has been given so far. Of more than two it needs no more than the greatest or the
/// least one, and a truth value suits none.
#[derive(Clone, Copy, Debug, PartialEq, Eq)]
pub enum Arguments {
    Empty,
    One(i128),
    Two(i128, i128),
    More(i128),
    Unsuited,
}

fn kept(function: Fun, a: i128, b: i128) -> i128
    ensures { result ≡ kept function a b }
{
    match function {
        Fun::Abs => a,
        Fun::Mod => a,
        Fun::Max => a.max(b),
        Fun::Min => a.min(b),
    }
}

impl Arguments {
    /// The arguments with one more.
    pub fn with(self, function: Fun, value: Value) -> Arguments
        ensures { result ≡ added function self value }
    {
        let Value::Int(c) = value else {
            return Arguments::Unsuited;
        };
        match self {
            Arguments::Empty => Arguments::One(c),
            Arguments::One(a) => Arguments::Two(a, c),
            Arguments::Two(a, b) => Arguments::More(kept(function, kept(function, a, b), c)),
            Arguments::More(a) => Arguments::More(kept(function, a, c)),
            Arguments::Unsuited => Arguments::Unsuited,
        }
    }

    /// The function's value, which faults as `Shape` where the arguments don't suit it.
    #[tactic(auto, using(crate::proofs::Calls::taken))]
    pub fn call(self, function: Fun) -> Result<Value, Fault>
        ensures value { result ≡ finished function self }
        ensures of_all { (values : List Value) → self ≡ taken function values → result ≡ call function values }
    {
        self.finish(function)
    }

    fn finish(self, function: Fun) -> Result<Value, Fault>
        ensures { result ≡ finished function self }
    {
        match self {
            Arguments::Empty => Err(Fault::Shape),
            Arguments::One(a) => function.apply(&[Value::Int(a)]),
            Arguments::Two(a, b) => function.apply(&[Value::Int(a), Value::Int(b)]),
            Arguments::More(a) => many(function, a),
            Arguments::Unsuited => Err(Fault::Shape),
        }
    }
}

#[tactic(auto, using(crate::proofs::Exact::exact))]
fn many(function: Fun, a: i128) -> Result<Value, Fault>
    ensures { result ≡ call_of_many function a }
{
    match function {
        Fun::Abs => Err(Fault::Shape),
        Fun::Mod => Err(Fault::Shape),
        Fun::Max => Ok(Value::Int(a)),
        Fun::Min => Ok(Value::Int(a)),
    }
}
