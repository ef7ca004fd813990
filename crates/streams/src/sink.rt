// A sink for bytes.
ghost use Rattle.std.specs.Prelude.{◌≡◌, ◌≢◌, ℕ, ◌-◌, ◌^◌, ◌<◌, ◌≤◌, List, [], Option, Ok, OnOk, OnErr, length};
ghost use Rattle.streams.specs.Causes.{Rose};
ghost use Rattle.streams.specs.Turns.{GivesFront, GivesCount};

use crate::WriteFault;

/// What a call of `give` did.
#[derive(Clone, Copy, Debug, PartialEq, Eq)]
pub enum Gave {
    /// So many bytes were taken from the front of the piece.
    Bytes(usize),
    /// The sink failed, and took nothing.
    Failed,
}

/// Takes the bytes that it is given, some at a time.
pub trait Sink {
    /// The bytes taken so far, where the sink tells them.
    ghost taken: { Self → Option (List ℕ) };

    /// The last of the bytes taken, which the sink holds back.
    ghost held: { Self → List ℕ };

    /// How often the sink has failed.
    ghost faults: { Self → ℕ };

    /// Gives the front of the piece.
    fn give(&mut self, piece: &[u8]) -> Gave
        requires { 0 < length piece.now }
        ensures bytes { GivesFront (taken self.old) result piece.now (taken self.new) }
        ensures count { GivesCount result piece.now }
        ensures later { faults self.old ≤ faults self.new }
        ensures failed { result ≡ Gave.Failed → Rose (faults self.old) (faults self.new) }
        ensures not_failed { result ≢ Gave.Failed → faults self.new ≡ faults self.old };

    /// Passes on what is held back. What was taken before stays taken, also where the sink fails.
    fn send(&mut self) -> Result<(), WriteFault>
        ensures taken { taken self.new ≡ taken self.old }
        ensures sent { OnOk result (held self.new ≡ []) }
        ensures untouched { held self.old ≡ [] → (result ≡ Ok tt) × (self.new ≡ self.old) }
        ensures later { faults self.old ≤ faults self.new }
        ensures fault { OnErr result (Rose (faults self.old) (faults self.new)) }
        ensures no_fault { OnOk result (faults self.new ≡ faults self.old) };

    /// A u64 holds the count.
    ghost faults_fit: { (sink : Self) → faults sink ≤ 2 ^ 64 - 1 };
}
