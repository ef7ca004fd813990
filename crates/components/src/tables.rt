//! Classes by their numbers.
ghost use Rattle.std.specs.Prelude.{◌≡◌, ◌<◌, ℕ, length, IfOk, OnOk};
ghost use Rattle.components.specs.Classes.{AddsBetween, AreMembers, ArePairsBetween};
ghost use Rattle.components.specs.Counts.{times_to};
ghost use Rattle.components.specs.Labels.{at};
ghost use Rattle.components.specs.Reachability.{AreBelow};
ghost use Rattle.components.specs.Rest.{first};
ghost use Rattle.components.specs.Targets.{AreTargets, row};

use crate::rows::{empty_rows, rows_of};
use std::alloc::Global;
use tree::{Memory, Seq};

/// For each class its members, and the classes that it leads to.
#[derive(Drop)]
pub struct Tables {
    pub members: Vec<Seq<usize>>,
    pub onward: Vec<Seq<usize>>,
}

// Adds the pair of two classes that differ.
fn add_between(between: &mut Vec<(usize, usize)>, from: usize, to: usize) -> Result<(), Memory>
    ensures { OnOk result (AddsBetween from to between.old.items between.new.items) }
{
    if from == to {
        return Ok(());
    }
    between.push((from, to))?;
    Ok(())
}

/// The classes that a pair leads between, for each pair that leads from one class to another.
pub fn pairs_between(
    alloc: Global,
    pairs: &[(usize, usize)],
    labels: &[usize],
) -> Result<Vec<(usize, usize)>, Memory>
    requires { AreBelow (length labels.now) pairs.now }
    ensures { IfOk result (λ between. ArePairsBetween pairs.now labels.now between.items) }
{
    let mut between = Vec::new(alloc);
    for &(from, to) in pairs {
        add_between(&mut between, labels[from], labels[to])?;
    }
    Ok(between)
}

/// How many of the pairs lead to each class.
pub fn counts_of(
    alloc: Global,
    count: usize,
    between: &[(usize, usize)],
) -> Result<Vec<usize>, Memory>
    requires { AreBelow count between.now }
    ensures size { IfOk result (λ counts. length counts.items ≡ count) }
    ensures each { IfOk result (λ counts. (c : ℕ) → at counts.items c ≡ times_to c between.now) }
{
    let mut counts: Vec<usize> = vec![in alloc; 0; count]?;
    for &(_, to) in between {
        counts[to] += 1;
    }
    Ok(counts)
}

// The numbers of each class.
fn members_of(alloc: Global, count: usize, labels: &[usize]) -> Result<Vec<Seq<usize>>, Memory>
    requires { (a : ℕ) → a < length labels.now → at labels.now a < count }
    ensures { IfOk result (λ members. AreMembers (length labels.now) count labels.now members.items) }
{
    let mut members = empty_rows(alloc, count)?;
    for number in 0..labels.len() {
        members[labels[number]].push(number)?;
    }
    Ok(members)
}

impl Tables {
    /// The classes of numbers, and what leads from one to another.
    pub fn new(
        alloc: Global,
        count: usize,
        labels: &[usize],
        between: &[(usize, usize)],
    ) -> Result<Tables, Memory>
        requires labels { (a : ℕ) → a < length labels.now → at labels.now a < count }
        requires between { AreBelow count between.now }
        ensures members { IfOk result (λ t. AreMembers (length labels.now) count labels.now t.members.items) }
        ensures onward { IfOk result (λ t. AreTargets count between.now t.onward.items) }
    {
        Ok(Tables {
            members: members_of(alloc, count, labels)?,
            onward: rows_of(alloc, count, between)?,
        })
    }

    /// The first number of a class.
    pub fn first(&self, class: usize) -> usize
        requires class { class < length self.now.members.items }
        requires filled { 0 < length (row self.now.members.items class) }
        ensures { result ≡ first self.now class }
    {
        let members = self.members[class].as_slice();
        members[0]
    }
}
