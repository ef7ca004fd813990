//! Labels: none is 0, and none stands twice.
ghost use Rattle.std.specs.Prelude.{◌≡◌, ℕ, ◌==◌, ◌||◌, ◌++◌, List, [], ◌∷◌, IsTrue, IfOk, OnOk};
ghost use Rattle.f90_grammar.specs.Blocks as grammar;
ghost use Rattle.f90_grammar.specs.Forms.{Form90};
ghost use Rattle.f90_grammar.specs.Order.{Place90};
ghost use Rattle.f90_grammar.specs.Surroundings.{label_digits_in, is_wrong_label90};
ghost use Rattle.f90_blocks.specs.places.forms.Places.{IsPlacedOf};
ghost use Rattle.f90_blocks.specs.places.First.{FindsFirst};
ghost use Rattle.f90_statement.specs.Views.{AreOf, IsStatementOf};
ghost use Rattle.f90_blocks.specs.structure.Labels.{has, AreLabels};

use crate::places::forms::Placed;
use f90_statement::Statement;
use std::alloc::Global;
use std::collections::BTreeSet;
use tree::Memory;

/// The labels before a place.
#[derive(Drop)]
struct Labels {
    numbers: BTreeSet<u32>,
}

impl Labels {
    fn new(alloc: Global) -> Labels
        ensures { AreLabels result [] }
    {
        Labels {
            numbers: BTreeSet::new(alloc),
        }
    }

    fn add(&mut self, label: u32) -> Result<(), Memory>
        ensures { OnOk result ((n : ℕ) → has self.new n ≡ (n == label || has self.old n)) }
    {
        self.numbers.insert(label)?;
        Ok(())
    }

    /// The labels behind the statement.
    fn pass(&mut self, statement: &Statement) -> Result<(), Memory>
        ensures { OnOk result ((before : List grammar.Placed) (p : grammar.Placed)
            → IsStatementOf statement.now p.form → AreLabels self.old before → AreLabels self.new (before ++ p ∷ [])) }
    {
        match statement {
            Statement::Label(label) => self.add(*label),
            _ => Ok(()),
        }
    }

    /// The statement has the label 0, or one of these.
    fn refuse(&self, statement: &Statement) -> bool
        ensures { (before : List grammar.Placed) (f : Form90) → IsStatementOf statement.now f
            → AreLabels self.now before
            → result ≡ is_wrong_label90 before (label_digits_in f) }
    {
        match statement {
            Statement::Label(label) => *label == 0 || self.numbers.contains(label),
            _ => false,
        }
    }
}

/// The first statement with the label 0, or with a label that stands before too.
pub fn first_wrong_label(alloc: Global, text: &[Placed]) -> Result<Option<usize>, Memory>
    ensures { (ps : List grammar.Placed) → AreOf IsPlacedOf text.now ps
        → IfOk result
        (λ found. FindsFirst ps (λ (p : Place90). IsTrue (is_wrong_label90 p.before (label_digits_in p.here.form)))
        found) }
{
    let mut labels = Labels::new(alloc);
    for (i, placed) in text.iter().enumerate() {
        if labels.refuse(&placed.statement) {
            return Ok(Some(i));
        }
        labels.pass(&placed.statement)?;
    }
    Ok(None)
}
