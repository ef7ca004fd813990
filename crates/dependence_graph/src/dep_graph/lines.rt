//! Edges and drops.
ghost use Rattle.std.specs.Prelude.{◌≡◌, ◌+◌, [], ◌++◌, ◌≤◌, OnOk, length};
ghost use Rattle.dependence_graph.specs.nest_graph.Arcs.{level_from, vector_level};
ghost use Rattle.dependence_graph.specs.dep_graph.Joined.{all_drops_at, all_edges_at, drops_at, edge_at, edges_at};

use crate::graphs::{Dep, Dropped, Edge, Place};
use std::alloc::Global;
use subscripts::{Dir, Dirs, Point, Test, Verdict};
use tree::{Memory, Name, Seq};

/// The two references of a dependence.
#[derive(Clone, Copy)]
pub struct Ends {
    pub from: Place,
    pub to: Place,
    pub kind: Dep,
    pub array: Name,
}

/// Edges and drops in their order.
#[derive(Drop)]
pub struct Dependences {
    pub edges: Seq<Edge>,
    pub dropped: Seq<Dropped>,
}

fn level_from(outer: u8, dirs: &[Dir]) -> u8
    requires { outer + length dirs.now ≤ 7 }
    ensures { result ≡ level_from outer dirs.now }
{
    let Some((dir, inner)) = dirs.split_first() else {
        return 0;
    };
    match dir {
        Dir::Lt => outer + 1,
        Dir::Eq => level_from(outer + 1, inner),
        Dir::Gt => 0,
        Dir::Any => 0,
    }
}

// The level of the loop that carries a dependence in these directions.
fn level_of(dirs: &Dirs) -> u8
    ensures { result ≡ vector_level dirs.now }
{
    level_from(0, &dirs.at)
}

impl Ends {
    fn edge(&self, dirs: &Dirs, test: Test, pair: Option<(Point, Point)>) -> Edge
        ensures { result ≡ edge_at self.now dirs.now test pair }
    {
        Edge {
            from: self.from,
            to: self.to,
            kind: self.kind,
            array: self.array,
            dirs: *dirs,
            level: level_of(dirs),
            test,
            pair,
        }
    }

    fn dropped(&self, dirs: &Dirs, test: Test) -> Dropped
        ensures { result ≡ record {
          from = self.now.from;
          to = self.now.to;
          kind = self.now.kind;
          array = self.now.array;
          dirs = dirs.now;
          test = test;
        } }
    {
        Dropped {
            from: self.from,
            to: self.to,
            kind: self.kind,
            array: self.array,
            dirs: *dirs,
            test,
        }
    }
}

impl Dependences {
    /// No line.
    pub fn new(alloc: Global) -> Dependences
        ensures edges { result.edges ≡ [] }
        ensures dropped { result.dropped ≡ [] }
    {
        Dependences {
            edges: Seq::new(alloc),
            dropped: Seq::new(alloc),
        }
    }

    fn add_answer(&mut self, ends: &Ends, dirs: &Dirs, verdict: &Verdict) -> Result<(), Memory>
        ensures edges { OnOk result (self.new.edges ≡ self.old.edges ++ edges_at ends.now dirs.now verdict.now) }
        ensures dropped { OnOk result (self.new.dropped ≡ self.old.dropped ++ drops_at ends.now dirs.now verdict.now) }
    {
        match verdict {
            Verdict::Never(word) => self.dropped.push(ends.dropped(dirs, *word)),
            Verdict::Pair(x, y, word) => self.edges.push(ends.edge(dirs, *word, Some((*x, *y)))),
            Verdict::Assumed(word) => self.edges.push(ends.edge(dirs, *word, None)),
        }
    }

    /// Adds what the answers to the vectors of two references give.
    pub fn add_answers(&mut self, ends: &Ends, answers: &[(Dirs, Verdict)]) -> Result<(), Memory>
        ensures edges { OnOk result (self.new.edges ≡ self.old.edges ++ all_edges_at ends.now answers.now) }
        ensures dropped { OnOk result (self.new.dropped ≡ self.old.dropped ++ all_drops_at ends.now answers.now) }
    {
        for answer in answers {
            self.add_answer(ends, &answer.0, &answer.1)?;
        }
        Ok(())
    }
}
