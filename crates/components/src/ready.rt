//! Numbers of which the least is taken first.
ghost use Rattle.std.specs.Prelude.{◌≡◌, ◌≤◌, ◌==◌, ◌&&◌, ◌||◌, not, ℕ, true, false, IsNone, IfSome, OnOk};
ghost use Rattle.components.specs.Rest.{has};

use std::alloc::Global;
use std::collections::BTreeSet;
use tree::Memory;

/// A set of numbers.
#[derive(Drop)]
pub struct Ready {
    numbers: BTreeSet<usize>,
}

impl Ready {
    pub fn new(alloc: Global) -> Ready
        ensures { (v : ℕ) → has result v ≡ false }
    {
        Ready {
            numbers: BTreeSet::new(alloc),
        }
    }

    pub fn add(&mut self, number: usize) -> Result<(), Memory>
        ensures { OnOk result ((v : ℕ) → has self.new v ≡ (v == number || has self.old v)) }
    {
        self.numbers.insert(number)?;
        Ok(())
    }

    /// Takes the least number out.
    pub fn take_least(&mut self) -> Option<usize>
        ensures none { IsNone result → (v : ℕ) → has self.old v ≡ false }
        ensures member { IfSome result (λ least. has self.old least ≡ true) }
        ensures least { IfSome result (λ least. (v : ℕ) → has self.old v ≡ true → least ≤ v) }
        ensures others { IfSome result (λ least. (v : ℕ) → has self.new v ≡ (not (v == least) && has self.old v)) }
    {
        self.numbers.pop_first()
    }
}
