//! Classes that are still to come. Each waits for all pairs that lead to it from others; one that waits for none may
//! come (Kahn, "Topological sorting of large networks", 1962).
ghost use Rattle.std.specs.Prelude.{◌≡◌, ◌↔◌, ◌<◌, ◌≤◌, ℕ, true, length, IfOk, OnOk};
ghost use Rattle.components.specs.Counts.{times};
ghost use Rattle.components.specs.Labels.{at};
ghost use Rattle.components.specs.Rest.{AddsFree, AreFilled, IsFreeFirst, IsSomeRest, Lowers, Nexts, Releases, has};

use crate::ready::Ready;
use crate::tables::Tables;
use std::alloc::Global;
use tree::{Memory, Seq};

/// For each class how many pairs from others that are still to come lead to it, and the first numbers of those to which
/// none does.
#[derive(Drop)]
pub struct Rest {
    counts: Vec<usize>,
    ready: Ready,
}

fn copied(alloc: Global, numbers: &[usize]) -> Result<Seq<usize>, Memory>
    ensures { IfOk result (λ copy. copy ≡ numbers.now) }
{
    Ok(Seq::from_vec(Vec::from_slice(alloc, numbers)?))
}

impl Rest {
    // Adds the first number of a class to which no pair leads.
    fn add_if_free(&mut self, tables: &Tables, class: usize) -> Result<(), Memory>
        requires tables { AreFilled (length self.old.counts.items) tables.now }
        requires class { class < length self.old.counts.items }
        ensures { OnOk result (AddsFree tables.now class self.old self.new) }
    {
        if self.counts[class] != 0 {
            return Ok(());
        }
        self.ready.add(tables.first(class))?;
        Ok(())
    }

    /// All classes, to each of which so many pairs lead.
    pub fn new(alloc: Global, tables: &Tables, counts: Vec<usize>) -> Result<Rest, Memory>
        requires { AreFilled (length counts.items) tables.now }
        ensures counts { IfOk result (λ rest. rest.counts.items ≡ counts.items) }
        ensures ready { IfOk result (λ rest. (v : ℕ)
            → (has rest.ready v ≡ true) ↔ IsFreeFirst tables.now counts.items (length counts.items) v) }
    {
        let count = counts.len();
        let mut rest = Rest {
            counts,
            ready: Ready::new(alloc),
        };
        for class in 0..count {
            rest.add_if_free(tables, class)?;
        }
        Ok(rest)
    }

    // One pair fewer leads to the class.
    fn lower(&mut self, tables: &Tables, class: usize) -> Result<(), Memory>
        requires tables { AreFilled (length self.old.counts.items) tables.now }
        requires class { class < length self.old.counts.items }
        requires some { 0 < at self.old.counts.items class }
        ensures { OnOk result (Lowers tables.now class self.old self.new) }
    {
        self.counts[class] -= 1;
        self.add_if_free(tables, class)?;
        Ok(())
    }

    // One pair fewer leads to each of these classes.
    fn release(&mut self, tables: &Tables, targets: &[usize]) -> Result<(), Memory>
        requires tables { AreFilled (length self.old.counts.items) tables.now }
        requires few { (c : ℕ) → times c targets.now ≤ at self.old.counts.items c }
        ensures { OnOk result (Releases tables.now targets.now self.old self.new) }
    {
        for &target in targets {
            self.lower(tables, target)?;
        }
        Ok(())
    }

    /// The next class, or none where all have come.
    pub fn next_class(
        &mut self,
        alloc: Global,
        labels: &[usize],
        tables: &Tables,
    ) -> Result<Option<Seq<usize>>, Memory>
        requires { IsSomeRest labels.now tables.now self.old }
        ensures { IfOk result (Nexts labels.now tables.now self.old self.new) }
    {
        let Some(least) = self.ready.take_least() else {
            return Ok(None);
        };
        let class = labels[least];
        self.release(tables, tables.onward[class].as_slice())?;
        Ok(Some(copied(alloc, tables.members[class].as_slice())?))
    }
}
