//! Why an act isn't done to its end.
ghost use Rattle.std.specs.Prelude.{◌≡◌};
ghost use Rattle.array_expressions.specs.assignments.Causes.{at_line};

use array_values::Failure;
use machine::Halt;

/// The run halts, or there was no memory.
#[derive(Clone, Copy, Debug, PartialEq, Eq)]
pub enum Stuck {
    Halted(Halt),
    Memory,
}

impl From<Halt> for Stuck {
    ghost use Rattle.std.specs.Prelude.{◌≡◌};
    ghost use Rattle.array_expressions.specs.declared.assignments.causes.Stuck.TheVariants as Stuck;

    ghost from_gives = { λ halt stuck. stuck ≡ Stuck.Halted halt };

    fn from(halt: Halt) -> Stuck {
        Stuck::Halted(halt)
    }
}

/// The answer with its fault at the line.
pub fn at<T: Drop>(line: u32, answer: Result<T, Failure>) -> Result<T, Stuck>
    ensures { result ≡ at_line line answer }
{
    match answer {
        Ok(value) => Ok(value),
        Err(Failure::Fault(fault)) => Err(Stuck::Halted(Halt::Fault(fault, line))),
        Err(Failure::Memory) => Err(Stuck::Memory),
    }
}
