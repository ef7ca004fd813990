//! The labels among the marks of a loop's body.
ghost use Rattle.std.specs.Prelude.{◌≡◌, ◌||◌, ◌∷◌, [], ℕ, List, nat_eq, OnOk, IfOk};
ghost use Rattle.std.specs.List.{list_any};
ghost use Rattle.nest_reasons.specs.Flaws.{is_arrival, exits, leaves_loop, jumps_over_loop, loop_then_label};
ghost use Rattle.nest_reasons.specs.Flaws.{passes_loop};
ghost use Rattle.nest_reasons.specs.Labels.{AreLabels};
ghost use Rattle.nest_reasons.specs.declared.marks.Mark.{Mark};

use crate::marks::Mark;
use indexmap::IndexSet;
use std::alloc::Global;
use tree::Memory;

/// The labels among marks: those behind a loop, and others.
#[derive(Drop)]
pub(crate) struct Labels {
    behind: IndexSet<u32>,
    near: IndexSet<u32>,
}

#[tactic(auto, using(crate::proofs::LabelLaws::set_laws))]
fn add(labels: &mut IndexSet<u32>, label: u32) -> Result<(), Memory>
    ensures { OnOk result ((n : ℕ) → list_any (nat_eq n) labels.new.keys
        ≡ (list_any (nat_eq n) labels.old.keys || nat_eq n label)) }
{
    labels.insert(label)?;
    Ok(())
}

fn add_all(labels: &mut IndexSet<u32>, more: &[u32]) -> Result<(), Memory>
    ensures { OnOk result ((n : ℕ) → list_any (nat_eq n) labels.new.keys
        ≡ (list_any (nat_eq n) labels.old.keys || list_any (nat_eq n) more.now)) }
{
    for label in more {
        add(labels, *label)?;
    }
    Ok(())
}

impl Labels {
    pub(crate) fn none(alloc: Global) -> Labels
        ensures { AreLabels [] result }
    {
        Labels {
            behind: IndexSet::new(alloc),
            near: IndexSet::new(alloc),
        }
    }

    // The labels among the marks with one more in front.
    pub(crate) fn before(self, alloc: Global, mark: Mark) -> Result<Labels, Memory>
        ensures { IfOk result (λ labels. (ms : List Mark) → AreLabels ms self → AreLabels (mark ∷ ms) labels) }
    {
        let Labels {
            mut behind,
            mut near,
        } = self;
        match mark {
            Mark::Halts => Ok(Labels { behind, near }),
            Mark::Jumps(_) => Ok(Labels { behind, near }),
            Mark::Arrives(label) => {
                add(&mut near, label)?;
                Ok(Labels { behind, near })
            }
            Mark::Turns(_) => {
                add_all(&mut behind, near.as_slice())?;
                Ok(Labels {
                    behind,
                    near: IndexSet::new(alloc),
                })
            }
        }
    }

    fn has(&self, label: u32) -> bool
        ensures { (ms : List Mark) → AreLabels ms self.now → result ≡ list_any (is_arrival label) ms }
    {
        self.behind.contains(&label) || self.near.contains(&label)
    }

    fn is_behind(&self, label: u32) -> bool
        ensures { (ms : List Mark) → AreLabels ms self.now → result ≡ loop_then_label label ms }
    {
        self.behind.contains(&label)
    }
}

impl Mark {
    // Whether the loop is left here, where these are the labels of its marks.
    pub(crate) fn leaves(self, labels: &Labels) -> bool
        ensures { (ms : List Mark) → AreLabels ms labels.now → result ≡ leaves_loop ms self }
    {
        match self {
            Mark::Halts => true,
            Mark::Jumps(label) => !labels.has(label),
            Mark::Arrives(_) => false,
            Mark::Turns(_) => false,
        }
    }

    // Whether it is a GO TO over a loop, where these are the labels behind it.
    pub(crate) fn passes_loop(self, labels: &Labels) -> bool
        ensures { (ms : List Mark) → AreLabels ms labels.now → result ≡ passes_loop self ms }
    {
        match self {
            Mark::Halts => false,
            Mark::Jumps(label) => labels.is_behind(label),
            Mark::Arrives(_) => false,
            Mark::Turns(_) => false,
        }
    }
}

fn labels_of(alloc: Global, marks: &[Mark]) -> Result<Labels, Memory>
    ensures { IfOk result (λ labels. AreLabels marks.now labels) }
{
    let mut labels = Labels::none(alloc);
    for i in (0..marks.len()).rev() {
        labels = labels.before(alloc, marks[i])?;
    }
    Ok(labels)
}

/// Whether the loop with these marks is left: it halts, does input or output, or has a GO TO whose label isn't in the
/// same innermost loop.
pub fn exits(alloc: Global, marks: &[Mark]) -> Result<bool, Memory>
    ensures { IfOk result (λ left. left ≡ exits marks.now) }
{
    let labels = labels_of(alloc, marks)?;
    let mut left = false;
    for i in 0..marks.len() {
        left = left || marks[i].leaves(&labels);
    }
    Ok(left)
}

fn passed(mark: Mark, labels: &Labels, found: bool) -> bool
    ensures { (ms : List Mark) → AreLabels ms labels.now → result ≡ (passes_loop mark ms || found) }
{
    mark.passes_loop(labels) || found
}

/// Whether a loop stands between a GO TO of the body and its label.
pub fn jumps_over_loop(alloc: Global, marks: &[Mark]) -> Result<bool, Memory>
    ensures { IfOk result (λ found. found ≡ jumps_over_loop marks.now) }
{
    let mut labels = Labels::none(alloc);
    let mut found = false;
    for i in (0..marks.len()).rev() {
        let now = passed(marks[i], &labels, found);
        found = now;
        labels = labels.before(alloc, marks[i])?;
    }
    Ok(found)
}
