//! Why statements aren't done to their end.
use crate::assignments::Stuck;
use machine::{Halt, Left};
use streams::WriteFault;

/// The run is left, or there was no memory.
#[derive(Clone, Copy, Debug, PartialEq, Eq)]
pub enum Unfinished {
    Left(Left),
    Memory,
}

impl From<Halt> for Unfinished {
    ghost use Rattle.std.specs.Prelude.{◌≡◌};
    ghost use Rattle.machine.specs.declared.progress.Left.TheVariants as Left;
    ghost use Rattle.array_expressions.specs.declared.transfers.unfinished.Unfinished.TheVariants as Unfinished;

    ghost from_gives = { λ halt it. it ≡ Unfinished.Left (Left.Halted halt) };

    fn from(halt: Halt) -> Unfinished {
        Unfinished::Left(Left::Halted(halt))
    }
}

impl From<WriteFault> for Unfinished {
    ghost use Rattle.std.specs.Prelude.{◌≡◌};
    ghost use Rattle.machine.specs.declared.progress.Left.TheVariants as Left;
    ghost use Rattle.array_expressions.specs.declared.transfers.unfinished.Unfinished.TheVariants as Unfinished;

    ghost from_gives = { λ _ it. it ≡ Unfinished.Left Left.Unwritten };

    fn from(_: WriteFault) -> Unfinished {
        Unfinished::Left(Left::Unwritten)
    }
}

impl From<Stuck> for Unfinished {
    ghost use Rattle.std.specs.Prelude.{◌≡◌};
    ghost use Rattle.array_expressions.specs.transfers.Unfinished.{unfinished_by};

    ghost from_gives = { λ stuck it. it ≡ unfinished_by stuck };

    fn from(stuck: Stuck) -> Unfinished {
        match stuck {
            Stuck::Halted(halt) => Unfinished::Left(Left::Halted(halt)),
            Stuck::Memory => Unfinished::Memory,
        }
    }
}
