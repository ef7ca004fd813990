//! What becomes of each loop that stands in no nest.
ghost use Rattle.std.specs.Prelude.{◌≡◌, ◌↔◌, ◌≤◌, IfOk, IsTrue, MatchOption, None, Some, length};
ghost use Rattle.dependence_graph.specs.nest_graph.Ready.{IsReady};
ghost use Rattle.find_nests.specs.Found.{InNest, found_in};
ghost use Rattle.find_nests.specs.View.{found_of};
ghost use Rattle.meaning.specs.Dialect.{fortran77};
ghost use Rattle.tree.specs.declared.width.Width.TheVariants.{Wide};
ghost use Rattle.meaning.specs.Profile77.{IsProgram77};
ghost use Rattle.nest.specs.View.{loop_of, nest_of};
ghost use Rattle.tree.specs.View.{program_of};
ghost use Rattle.index_split.specs.Answers.{AreAnswersTo, AreUsed, IsAnswerTo, IsCutAs, IsNestAnswer, IsOfSource};
ghost use Rattle.index_split.specs.Cuts.{outermost};

use crate::cuts::{cut_points, trip_to_cut};
use crate::pieces::{Pieces, all_bounds};
use find_nests::{Found, find_nests};
use linear_forms::linear;
use nest::{Loop, Nest, Part};
use normal_loops::normalise;
use std::alloc::Global;
use tree::{Memory, Name, Program77, Seq};

// A loop is cut at no more points.
const MOST_POINTS: usize = 16;

/// What becomes of a loop that stands in no nest.
#[derive(Drop)]
pub enum Answer {
    /// It is kept as it is, and the loops in it are looked at.
    Outer,
    /// It stays with all that is in it.
    Whole,
    /// It gives way to loops over pieces of its iterations.
    Cut(Pieces),
}

fn copy_names(alloc: Global, names: &Seq<Name>) -> Result<Seq<Name>, Memory>
    ensures { IfOk result (λ copies. copies ≡ names.now) }
{
    Ok(Seq::from_vec(Vec::from_slice(alloc, names.as_slice())?))
}

#[tactic(auto, using(nest::proofs::Equations::part_equations))]
fn outermost(nest: &Nest) -> Option<&Loop>
    ensures { MatchOption result (outermost (nest_of nest.now).body ≡ None)
        (λ l. outermost (nest_of nest.now).body ≡ Some (loop_of l.now)) }
{
    match &nest.body {
        Part::Turns(turns, _) => Some(turns),
        Part::Run(_) => None,
        Part::Choice(..) => None,
        Part::Label(_) => None,
        Part::Jump(_) => None,
    }
}

// From 1 to 16 points.
fn are_used(points: &[u32]) -> bool
    ensures { IsTrue result ↔ AreUsed points.now }
{
    !points.is_empty() && points.len() <= MOST_POINTS
}

// The loop of a nest in pieces that end with these turns.
fn cut_by(alloc: Global, nest: &Nest, turns: &Loop, ends: &[u32]) -> Result<Answer, Memory>
    requires { length nest.now.symbols ≤ 1000 }
    ensures { IfOk result (IsCutAs (nest_of nest.now) (loop_of turns.now) ends.now) }
{
    let form = linear(&turns.first, &[], &nest.symbols);
    let Some(first) = form else {
        return Ok(Answer::Whole);
    };
    let Some(bounds) = all_bounds(alloc, &first, turns.step, ends)? else {
        return Ok(Answer::Whole);
    };
    Ok(Answer::Cut(Pieces {
        symbols: copy_names(alloc, &nest.symbols)?,
        bounds,
        step: turns.step,
    }))
}

// For a nest, and the same one with loops from 1 by 1.
fn nest_answer(alloc: Global, nest: &Nest, normal: &Nest) -> Result<Answer, Memory>
    requires symbols { length nest.now.symbols ≤ 1000 }
    requires ready { IsReady (nest_of normal.now) }
    ensures { IfOk result (IsNestAnswer (nest_of nest.now) (nest_of normal.now)) }
{
    let mut points = cut_points(alloc, normal)?;
    if !are_used(points.as_slice()) {
        return Ok(Answer::Whole);
    }
    match trip_to_cut(normal) {
        None => Ok(Answer::Whole),
        Some(trip) => match outermost(nest) {
            None => Ok(Answer::Whole),
            Some(turns) => {
                points.push(trip)?;
                cut_by(alloc, nest, turns, points.as_slice())
            }
        },
    }
}

fn answer_for(alloc: Global, nest: &Nest) -> Result<Answer, Memory>
    requires { IsOfSource (InNest (nest_of nest.now)) }
    ensures { IfOk result (IsAnswerTo (InNest (nest_of nest.now))) }
{
    match normalise(alloc, nest)? {
        Some(normal) => nest_answer(alloc, nest, &normal),
        None => unreachable!(),
    }
}

fn answer_to(alloc: Global, found: &Found) -> Result<Answer, Memory>
    requires { IsOfSource (found_of found.now) }
    ensures { IfOk result (IsAnswerTo (found_of found.now)) }
{
    match found {
        Found::Nest(nest) => answer_for(alloc, nest),
        Found::Kept(..) => Ok(Answer::Outer),
    }
}

/// The answer to each loop of a program that stands in no nest, in the order of the text.
pub(crate) fn answers_to(alloc: Global, program: &Program77) -> Result<Seq<Answer>, Memory>
    requires { IsProgram77 (fortran77 Wide) (program_of program.now) }
    ensures { IfOk result (AreAnswersTo (found_in (program_of program.now))) }
{
    let mut answers = Seq::new(alloc);
    for found in find_nests(alloc, program)?.as_slice() {
        let answer = answer_to(alloc, found)?;
        answers.push(answer)?;
    }
    Ok(answers)
}
