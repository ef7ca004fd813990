// A source of bytes.
ghost use Rattle.std.specs.Prelude.{◌≡◌, ◌≢◌, ℕ, ◌-◌, ◌^◌, ◌<◌, ◌≤◌, List, Option, length};
ghost use Rattle.streams.specs.Causes.{Rose};
ghost use Rattle.streams.specs.Turns.{TakesFront, TakesCount};

/// What a call of `take` did.
#[derive(Clone, Copy, Debug, PartialEq, Eq)]
pub enum Took {
    /// So many bytes were put at the front of the buffer.
    Bytes(usize),
    /// Nothing is left.
    End,
    /// The source failed, and nothing was taken.
    Failed,
}

/// Gives the bytes that it has left, some at a time.
pub trait Source {
    /// The bytes left, where the source tells them.
    ghost left: { Self → Option (List ℕ) };

    /// How often the source has failed.
    ghost faults: { Self → ℕ };

    /// Takes some of the bytes left into the front of the buffer. What the buffer holds behind them is left open.
    fn take(&mut self, buffer: &mut [u8]) -> Took
        requires { 0 < length buffer.old }
        ensures bytes { TakesFront (left self.old) result buffer.new (left self.new) }
        ensures count { TakesCount result buffer.new }
        ensures later { faults self.old ≤ faults self.new }
        ensures failed { result ≡ Took.Failed → Rose (faults self.old) (faults self.new) }
        ensures not_failed { result ≢ Took.Failed → faults self.new ≡ faults self.old };

    /// A u64 holds the count.
    ghost faults_fit: { (source : Self) → faults source ≤ 2 ^ 64 - 1 };
}
