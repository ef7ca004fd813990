//! What is emitted from, and how its classes are emitted.
ghost use Rattle.std.specs.Prelude.{◌≡◌, ◌≤◌, ◌<◌, length};
ghost use Rattle.emission.specs.emission_pieces.Emission.{IsLoopOf};
ghost use Rattle.emission.specs.emission_pieces.Nests.{standing_at};
ghost use Rattle.emission.specs.emission_pieces.Pieces.{mark_of};
ghost use Rattle.nest.specs.Bodies.{nest_statements};
ghost use Rattle.nest.specs.View.{loop_of};
ghost use Rattle.nest.specs.statement_loops.Standings.{standing_of};
ghost use Rattle.emission.specs.nest_emission.Given.{AreInside, HasLoop, IsClass, IsListedNest, IsClassForm, nest_in};

use crate::nest_emission::alone::may_be_formed;
use dependence_graph::graphs::{Edge, Hold};
use nest::statement_loops::Standing;
use nest::{Loop, Nest};
use std::alloc::Global;
use tree::Mark;

/// A nest with its statements, the edges of its graph and its holds.
#[derive(Clone, Copy)]
pub struct ListedNest<'a> {
    pub alloc: Global,
    pub nest: &'a Nest,
    pub statements: &'a [Standing],
    pub edges: &'a [Edge],
    pub holds: &'a [Hold],
}

/// How a class is emitted at a level: its one statement as it is, or in array form, or its statements in their loop.
#[derive(Clone, Copy)]
pub enum ClassForm {
    Kept(usize),
    Formed(usize),
    Turning,
}

impl ListedNest<'_> {
    /// The statement with this number, which counts from 0.
    pub fn statement(&self, number: usize) -> &Standing
        requires source { IsListedNest self.now }
        requires number { number < length (nest_statements (nest_in self.now)) }
        ensures { standing_of result.now ≡ standing_at (nest_in self.now) number }
    {
        &self.statements[number]
    }

    /// The place of a statement at a level in the listing.
    pub fn mark(&self, number: usize, level: usize) -> Mark
        requires source { IsListedNest self.now }
        requires number { number < length (nest_statements (nest_in self.now)) }
        requires level { level ≤ 8 }
        ensures { result ≡ mark_of (nest_in self.now) number level }
    {
        Mark {
            nest: self.nest.number,
            stmt: (number + 1) as u32,
            level: level as u32,
        }
    }

    /// How the class is emitted at this level.
    pub fn way(&self, level: usize, class: &[usize]) -> ClassForm
        requires source { IsListedNest self.now }
        requires class { IsClass (nest_in self.now) level class.now }
        ensures { IsClassForm (nest_in self.now) self.now.edges.now self.now.holds.now level class.now result }
    {
        let [number] = class else {
            return ClassForm::Turning;
        };
        if self.statement(*number).loops.len() < level {
            return ClassForm::Kept(*number);
        }
        if may_be_formed(self.edges, self.holds, level, *number) {
            return ClassForm::Formed(*number);
        }
        ClassForm::Turning
    }

    /// The loop of this level round the class.
    pub fn loop_round(&self, level: usize, class: &[usize]) -> &Loop
        requires source { IsListedNest self.now }
        requires inside { AreInside (nest_in self.now) class.now }
        requires level { 1 ≤ level }
        requires loop_there { HasLoop (nest_in self.now) level class.now }
        ensures { IsLoopOf (nest_in self.now) self.now.edges.now self.now.holds.now level class.now
            (loop_of result.now) }
    {
        for number in class {
            if let Some(turns) = self.statement(*number).loops.get(level - 1) {
                return turns;
            }
        }
        unreachable!()
    }
}
