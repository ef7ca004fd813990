//! The cycles of what is emitted: why statements stand together in a loop, or one is carried by it.
ghost use Rattle.std.specs.Prelude.{◌≡◌, ◌≤◌, ◌<◌, ◌+◌, ◌^◌, [], ◌∷◌, ◌++◌, All, IfOk, OnOk, length, map};
ghost use Rattle.closed_walks.specs.Cycles.{AreCycles};
ghost use Rattle.components.specs.Lists.{Rises};
ghost use Rattle.emission.specs.emission_pieces.Cycles.{AreCyclesOf, cycle_at, is_own_anti, is_step, steps_of};
ghost use Rattle.nest.specs.View.{nest_of};
ghost use Rattle.emission.specs.nest_emission.Cycles.{AddCycles, AreCyclesFor, AreCyclesInLoop, AreCyclesOfPart};
ghost use Rattle.emission.specs.nest_emission.Cycles.{is_member};
ghost use Rattle.emission.specs.nest_emission.Given.{AreInside, HasLoop, IsClass, IsListedNest, MayBeEmitted, nest_in};

use crate::nest_emission::alone::is_anti;
use crate::nest_emission::classes::classes_at;
use crate::nest_emission::pairs::is_at_work;
use crate::nest_emission::source::{ClassForm, ListedNest};
use crate::nest_emission::translation::numbers_below;
use dependence_graph::graphs::{Cycle, Edge, Graph, Hold};
use nest::Nest;
use nest::statement_loops::statements_of;
use std::alloc::Global;
use tree::{Memory, Seq};

// ---- steps

fn is_own_anti(edge: &Edge) -> bool
    ensures { result ≡ is_own_anti edge.now }
{
    is_anti(edge.kind) && edge.from.stmt == edge.to.stmt
}

fn is_member(class: &[usize], statement: usize) -> bool
    ensures { result ≡ is_member class.now statement }
{
    class.iter().any(|other| *other == statement)
}

// Whether the dependence is at work at the level between statements of the class.
fn is_step(level: usize, class: &[usize], edge: &Edge) -> bool
    ensures { result ≡ is_step (is_member class.now) level edge.now }
{
    is_at_work(level, edge.level)
        && (!is_own_anti(edge)
            && (is_member(class, edge.from.stmt as usize)
                && is_member(class, edge.to.stmt as usize)))
}

fn steps_in(
    alloc: Global,
    edges: &[Edge],
    level: usize,
    class: &[usize],
) -> Result<Vec<(usize, usize)>, Memory>
    ensures { IfOk result (λ steps. steps.items ≡ steps_of (is_member class.now) edges.now level) }
{
    let mut steps = Vec::new(alloc);
    for edge in edges {
        if is_step(level, class, edge) {
            steps.push((edge.from.stmt as usize, edge.to.stmt as usize))?;
        }
    }
    Ok(steps)
}

// ---- walks as they are listed

// By the numbers of statements.
fn cycle_of(alloc: Global, level: usize, walk: &[usize]) -> Result<Cycle, Memory>
    requires level { level ≤ 8 }
    requires few { All (λ s. s + 1 < 2 ^ 32) walk.now }
    ensures { IfOk result (λ cycle. cycle ≡ cycle_at level walk.now) }
{
    let mut stmts = Seq::new(alloc);
    for statement in walk {
        stmts.push((*statement + 1) as u32)?;
    }
    Ok(Cycle {
        level: level as u8,
        stmts,
    })
}

fn add_walks(
    alloc: Global,
    level: usize,
    walks: &[Seq<usize>],
    cycles: &mut Seq<Cycle>,
) -> Result<(), Memory>
    requires level { level ≤ 8 }
    requires few { All (λ walk. All (λ s. s + 1 < 2 ^ 32) walk) walks.now }
    ensures { OnOk result (cycles.new ≡ cycles.old ++ map (cycle_at level) walks.now) }
{
    for walk in walks {
        cycles.push(cycle_of(alloc, level, walk.as_slice())?)?;
    }
    Ok(())
}

// A list of this class alone.
fn one_class(alloc: Global, class: &[usize]) -> Result<Seq<Seq<usize>>, Memory>
    ensures { IfOk result (λ classes. classes ≡ class.now ∷ []) }
{
    let statements = Vec::from_slice(alloc, class)?;
    let mut classes = Seq::new(alloc);
    classes.push(Seq::from_vec(statements))?;
    Ok(classes)
}

// ---- cycles as loops are opened

impl ListedNest<'_> {
    // Of each statement of a class from which a closed walk leads in the loop of this level, the least of the shortest
    // ones.
    fn walks_in(&self, level: usize, class: &[usize]) -> Result<Seq<Seq<usize>>, Memory>
        requires source { IsListedNest self.now }
        requires inside { AreInside (nest_in self.now) class.now }
        ensures { IfOk result (λ walks. AreCycles (steps_of (is_member class.now) self.now.edges.now level) class.now
            walks) }
    {
        let steps = steps_in(self.alloc, self.edges, level, class)?;
        let classes = one_class(self.alloc, class)?;
        closed_walks::cycles(
            self.alloc,
            self.statements.len(),
            steps.as_slice(),
            &classes,
        )
    }

    // Adds the cycles of a class in its loop of this level.
    #[cycle(cycles)]
    fn add_of_loop(
        &self,
        level: usize,
        class: &[usize],
        cycles: &mut Seq<Cycle>,
    ) -> Result<(), Memory>
        requires source { IsListedNest self.now }
        requires from_one { 1 ≤ level }
        requires class { IsClass (nest_in self.now) level class.now }
        requires rises { Rises class.now }
        requires loop_there { HasLoop (nest_in self.now) level class.now }
        ensures { OnOk result (AddCycles (AreCyclesInLoop (nest_in self.now) self.now.edges.now self.now.holds.now level
            class.now) cycles.old cycles.new) }
    {
        let walks = self.walks_in(level, class)?;
        add_walks(self.alloc, level, walks.as_slice(), cycles)?;
        self.add_of_part(level + 1, class, cycles)
    }

    // Adds those of a class at this level.
    #[cycle(cycles)]
    fn add_of_class(
        &self,
        level: usize,
        class: &[usize],
        cycles: &mut Seq<Cycle>,
    ) -> Result<(), Memory>
        requires source { IsListedNest self.now }
        requires from_one { 1 ≤ level }
        requires class { IsClass (nest_in self.now) level class.now }
        requires rises { Rises class.now }
        ensures { OnOk result (AddCycles (AreCyclesFor (nest_in self.now) self.now.edges.now self.now.holds.now level
            class.now) cycles.old cycles.new) }
    {
        match self.way(level, class) {
            ClassForm::Kept(_) => Ok(()),
            ClassForm::Formed(_) => Ok(()),
            ClassForm::Turning => self.add_of_loop(level, class, cycles),
        }
    }

    // Adds those of a part of the nest at this level.
    #[cycle(cycles)]
    fn add_of_part(
        &self,
        level: usize,
        part: &[usize],
        cycles: &mut Seq<Cycle>,
    ) -> Result<(), Memory>
        requires source { IsListedNest self.now }
        requires from_one { 1 ≤ level }
        requires level { level ≤ 8 }
        requires rises { Rises part.now }
        requires inside { AreInside (nest_in self.now) part.now }
        ensures { OnOk result (AddCycles (AreCyclesOfPart (nest_in self.now) self.now.edges.now self.now.holds.now level
            part.now) cycles.old cycles.new) }
    {
        let classes = classes_at(self.alloc, part, self.edges, level)?;
        for class in classes.as_slice() {
            self.add_of_class(level, class.as_slice(), cycles)?;
        }
        Ok(())
    }
}

/// Why the loops of what is emitted for a nest turn: as each of them is opened, for each of its statements from which
/// a closed walk of dependences at work there leads, the least of the shortest ones, by the numbers of statements.
pub fn cycles(
    alloc: Global,
    nest: &Nest,
    graph: &Graph,
    holds: &Seq<Hold>,
) -> Result<Seq<Cycle>, Memory>
    requires { MayBeEmitted (nest_of nest.now) graph.now }
    ensures { IfOk result (λ cs. AreCyclesOf (nest_of nest.now) graph.now.edges holds.now cs) }
{
    let count = graph.stmts;
    let statements = statements_of(alloc, nest)?;
    let source = ListedNest {
        alloc,
        nest,
        statements: statements.as_slice(),
        edges: graph.edges.as_slice(),
        holds: holds.as_slice(),
    };
    let part = numbers_below(alloc, count as usize)?;
    let mut cycles = Seq::new(alloc);
    source.add_of_part(1, part.as_slice(), &mut cycles)?;
    Ok(cycles)
}
