//! Why there is no value.
use std::alloc::{AllocError, AllocFailed};
use tree::{Fault, Memory};

/// A fault, or there was no memory.
#[derive(Clone, Copy, Debug, PartialEq, Eq)]
pub enum Failure {
    Fault(Fault),
    Memory,
}

impl From<Fault> for Failure {
    ghost use Rattle.std.specs.Prelude.{◌≡◌};
    ghost use Rattle.array_values.specs.declared.failure.Failure.TheVariants as Failure;

    ghost from_gives = { λ fault failure. failure ≡ Failure.Fault fault };

    fn from(fault: Fault) -> Failure {
        Failure::Fault(fault)
    }
}

impl From<Memory> for Failure {
    ghost use Rattle.std.specs.Prelude.{◌≡◌};
    ghost use Rattle.array_values.specs.declared.failure.Failure.TheVariants as Failure;

    ghost from_gives = { λ _ failure. failure ≡ Failure.Memory };

    fn from(_: Memory) -> Failure {
        Failure::Memory
    }
}

impl From<AllocError> for Failure {
    ghost use Rattle.std.specs.Prelude.{◌≡◌};
    ghost use Rattle.array_values.specs.declared.failure.Failure.TheVariants as Failure;

    ghost from_gives = { λ _ failure. failure ≡ Failure.Memory };

    fn from(_: AllocError) -> Failure {
        Failure::Memory
    }
}

impl<T: Drop> From<AllocFailed<T>> for Failure {
    ghost use Rattle.std.specs.Prelude.{◌≡◌};
    ghost use Rattle.array_values.specs.declared.failure.Failure.TheVariants as Failure;

    ghost from_gives = { λ _ failure. failure ≡ Failure.Memory };

    fn from(_: AllocFailed<T>) -> Failure {
        Failure::Memory
    }
}
