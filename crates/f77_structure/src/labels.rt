//! Sets of labels.
ghost use Rattle.std.specs.Prelude.{◌≡◌, ℕ, ◌||◌, OnOk, OnErr, false};
ghost use Rattle.f77_grammar.specs.program.Text.{is_label};
ghost use Rattle.f77_structure.specs.Labels.{has};

use std::alloc::Global;
use std::collections::BTreeSet;
use tree::Memory;

/// A set of labels.
#[derive(Drop)]
pub struct Labels {
    numbers: BTreeSet<u32>,
}

impl Labels {
    pub fn new(alloc: Global) -> Labels
        ensures { (n : ℕ) → has result n ≡ false }
    {
        Labels {
            numbers: BTreeSet::new(alloc),
        }
    }

    pub fn contains(&self, label: u32) -> bool
        ensures { result ≡ has self.now label }
    {
        self.numbers.contains(&label)
    }

    /// Adds the label that a statement bears, if it bears one.
    pub fn note(&mut self, label: Option<u32>) -> Result<(), Memory>
        ensures ok { OnOk result ((n : ℕ) → has self.new n ≡ (is_label n label || has self.old n)) }
        ensures err { OnErr result ((n : ℕ) → has self.new n ≡ has self.old n) }
    {
        if let Some(label) = label {
            self.numbers.insert(label)?;
        }
        Ok(())
    }
}
