//! A walk over the pairs of a graph that finds its components.
ghost use Rattle.std.specs.Prelude.{◌≡◌, ◌↔◌, ◌<◌, ◌≤◌, ◌∷◌, [], ℕ, true, length, map, take, replicate, IfOk, OnOk};
ghost use Rattle.components.specs.Lists.{Pairwise};
ghost use Rattle.components.specs.Reachability.{AreBelow};
ghost use Rattle.components.specs.Labels.{AreLabels, at};
ghost use Rattle.components.specs.Targets.{AreInside};
ghost use Rattle.components.specs.Walking.{AreListed, DropsAfter, GoesOn, IsClosed, IsLast, IsWalking, Leaves};
ghost use Rattle.components.specs.Walking.{RunsOut, Steps, label_of, mark, without_last};
ghost use Rattle.components.specs.declared.walk.NodeState.TheVariants.{New};

use crate::rows::rows_of;
use std::alloc::Global;
use tree::{Memory, Seq};

// A number is new, or stands at a place of the path, or has the number of its class.
#[derive(Clone, Copy)]
enum NodeState {
    New,
    At(usize),
    Done(usize),
}

// The path in blocks, each with the numbers to look at; and how many classes there are so far.
#[derive(Drop)]
struct Walk {
    marks: Vec<NodeState>,
    path: Vec<usize>,
    work: Vec<usize>,
    starts: Vec<(usize, usize)>,
    count: usize,
}

/// For each number that of its class, and how many classes there are.
#[derive(Drop)]
pub struct Numbering {
    pub labels: Vec<usize>,
    pub count: usize,
}

fn last_of(starts: &[(usize, usize)]) -> Option<(usize, usize)>
    ensures { IsLast result starts.now }
{
    if starts.is_empty() {
        return None;
    }
    Some(starts[starts.len() - 1])
}

fn drop_last(starts: &mut Vec<(usize, usize)>)
    ensures { starts.new.items ≡ without_last starts.old.items }
{
    starts.pop();
}

// Blocks that begin behind the place are joined to the one before them.
fn drop_after(starts: &mut Vec<(usize, usize)>, place: usize)
    requires { Pairwise (λ b c. b.0 < c.0) starts.old.items }
    ensures { DropsAfter place starts.old.items starts.new.items }
{
    'dropping: loop {
        let Some(last) = last_of(starts.as_slice()) else {
            return;
        };
        if last.0 <= place {
            return;
        }
        drop_last(starts);
    }
}

// The path from a place on gets the number of a class, and is left.
fn close(marks: &mut Vec<NodeState>, path: &mut Vec<usize>, start: usize, class: usize)
    requires inside { start ≤ length path.old.items }
    requires below { (i : ℕ) → i < length path.old.items → at path.old.items i < length marks.old.items }
    ensures path { path.new.items ≡ take start path.old.items }
    ensures marks { IsClosed marks.old.items path.old.items start class marks.new.items }
{
    while path.len() > start {
        let Some(number) = path.pop() else {
            return;
        };
        marks[number] = NodeState::Done(class);
    }
}

fn new_marks(alloc: Global, n: usize) -> Result<Vec<NodeState>, Memory>
    ensures { IfOk result (λ marks. marks.items ≡ replicate n New) }
{
    let mut marks = Vec::new(alloc);
    for _number in 0..n {
        marks.push(NodeState::New)?;
    }
    Ok(marks)
}

impl Walk {
    // Over a table of so many rows.
    fn new(alloc: Global, rows: &[Seq<usize>]) -> Result<Walk, Memory>
        ensures walk { IfOk result (λ walk. IsWalking rows.now [] walk) }
        ensures path { IfOk result (λ walk. walk.path.items ≡ []) }
    {
        Ok(Walk {
            marks: new_marks(alloc, rows.len())?,
            path: Vec::new(alloc),
            work: Vec::new(alloc),
            starts: Vec::new(alloc),
            count: 0,
        })
    }

    fn is_new(&self, number: usize) -> bool
        requires { number < length self.now.marks.items }
        ensures { (result ≡ true) ↔ (mark self.now.marks.items number ≡ New) }
    {
        match self.marks[number] {
            NodeState::New => true,
            NodeState::At(_) | NodeState::Done(_) => false,
        }
    }

    // A number that is new comes to the path, as a block of its own.
    fn enter(&mut self, rows: &[Seq<usize>], number: usize) -> Result<(), Memory>
        requires walk { IsWalking rows.now (number ∷ []) self.old }
        requires new { mark self.old.marks.items number ≡ New }
        requires below { number < length rows.now }
        ensures goes { OnOk result (GoesOn rows.now self.old self.new) }
        ensures met { OnOk result (mark self.new.marks.items number ≡ New → ⊥) }
    {
        self.starts.push((self.path.len(), self.work.len()))?;
        self.marks[number] = NodeState::At(self.path.len());
        self.path.push(number)?;
        self.work.extend_from_slice(rows[number].as_slice())?;
        Ok(())
    }

    // A number that the last block leads to.
    fn look(&mut self, rows: &[Seq<usize>], number: usize) -> Result<(), Memory>
        requires walk { IsWalking rows.now (number ∷ []) self.old }
        requires below { number < length rows.now }
        ensures { OnOk result (GoesOn rows.now self.old self.new) }
    {
        match self.marks[number] {
            NodeState::New => self.enter(rows, number),
            NodeState::At(place) => {
                drop_after(&mut self.starts, place);
                Ok(())
            }
            NodeState::Done(_) => Ok(()),
        }
    }

    // The last block, which begins here, is a class.
    fn leave(&mut self, start: usize)
        requires inside { start ≤ length self.old.path.items }
        requires below { AreListed self.old }
        requires few { self.old.count < length self.old.marks.items }
        ensures { Leaves start self.old self.new }
    {
        drop_last(&mut self.starts);
        close(&mut self.marks, &mut self.path, start, self.count);
        self.count += 1;
    }

    // Whether there was something to do.
    fn step(&mut self, rows: &[Seq<usize>]) -> Result<bool, Memory>
        requires inside { AreInside rows.now }
        requires walk { IsWalking rows.now [] self.old }
        ensures { IfOk result (λ some. Steps rows.now self.old self.new some) }
    {
        let Some(last) = last_of(self.starts.as_slice()) else {
            return Ok(false);
        };
        if self.work.len() <= last.1 {
            self.leave(last.0);
            return Ok(true);
        }
        let Some(number) = self.work.pop() else {
            return Ok(true);
        };
        self.look(rows, number)?;
        Ok(true)
    }

    fn run(&mut self, rows: &[Seq<usize>]) -> Result<(), Memory>
        requires inside { AreInside rows.now }
        requires walk { IsWalking rows.now [] self.old }
        ensures { OnOk result (RunsOut rows.now self.old self.new) }
    {
        'steps: loop {
            let more = self.step(rows)?;
            if !more {
                return Ok(());
            }
        }
    }

    // Walks from here, where it hasn't been yet.
    fn visit(&mut self, rows: &[Seq<usize>], start: usize) -> Result<(), Memory>
        requires inside { AreInside rows.now }
        requires walk { IsWalking rows.now [] self.old }
        requires path { self.old.path.items ≡ [] }
        requires below { start < length rows.now }
        ensures goes { OnOk result (RunsOut rows.now self.old self.new) }
        ensures met { OnOk result (mark self.new.marks.items start ≡ New → ⊥) }
    {
        if !self.is_new(start) {
            return Ok(());
        }
        self.enter(rows, start)?;
        self.run(rows)?;
        Ok(())
    }
}

fn label_of(mark: NodeState) -> usize
    ensures { result ≡ label_of mark }
{
    match mark {
        NodeState::Done(class) => class,
        NodeState::New | NodeState::At(_) => 0,
    }
}

fn labels_of(alloc: Global, marks: &[NodeState]) -> Result<Vec<usize>, Memory>
    ensures { IfOk result (λ labels. labels.items ≡ map label_of marks.now) }
{
    let mut labels = Vec::new(alloc);
    for &mark in marks {
        labels.push(label_of(mark))?;
    }
    Ok(labels)
}

/// Numbers of the strongly connected components of the directed graph that has the numbers below `n` as its nodes and
/// the pairs as its edges, such that no pair leads to a greater one (Gabow, "Path-based depth-first search for strong
/// and biconnected components", 2000).
pub fn class_numbers(alloc: Global, n: usize, pairs: &[(usize, usize)]) -> Result<Numbering, Memory>
    requires { AreBelow n pairs.now }
    ensures { IfOk result (λ all. AreLabels n pairs.now all.count all.labels.items) }
{
    let rows = rows_of(alloc, n, pairs)?;
    let mut walk = Walk::new(alloc, rows.as_slice())?;
    for start in 0..n {
        walk.visit(rows.as_slice(), start)?;
    }
    Ok(Numbering {
        labels: labels_of(alloc, walk.marks.as_slice())?,
        count: walk.count,
    })
}
