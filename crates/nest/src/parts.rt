//! The parts of a nest: loops, guarded statements, IFs, labels and jumps.
ghost use Rattle.std.specs.Prelude.{◌≡◌, IfOk, map};
ghost use Rattle.nest.specs.View.{loop_of, guarded_of, part_of, branch_of};

use crate::references::{copy_guard, copy_ref};
use std::alloc::Global;
use subscripts::Affine;
use tree::{Expr, Memory, Name, Ref, Seq, both, three};

/// The trip count of a loop: the whole quotient of `top` by `by`, which is at least 1. The places of `top` are the
/// loops round the loop from the outside in, and the symbols of the nest. It may be negative: then there is no turn.
#[derive(Clone, Copy, Debug)]
pub struct Trip {
    pub top: Affine,
    pub by: i64,
}

/// A loop with its number in the program, its variable, its bounds and the value of its increment, which isn't 0. The
/// trip stands once the loop goes from 1 by 1.
#[derive(Drop)]
pub struct Loop {
    pub number: u32,
    pub var: Name,
    pub first: Expr,
    pub last: Expr,
    pub step: i64,
    pub trip: Option<Trip>,
}

/// An assignment, and the condition under which it is done.
#[derive(Drop)]
pub struct GuardedStmt {
    pub line: u32,
    pub guard: Option<Expr>,
    pub left: Ref,
    pub right: Expr,
}

/// A condition of a block IF, and what stands under it.
#[derive(Drop)]
#[cycle(part)]
pub struct NestArm {
    pub test: Expr,
    pub body: Seq<Part>,
}

/// A part of a nest: a statement, a loop with its body, a block IF with its arms and its ELSE part, a label, a jump.
#[derive(Drop)]
#[cycle(part)]
pub enum Part {
    Run(GuardedStmt),
    Turns(Loop, Seq<Part>),
    Choice(Seq<NestArm>, Seq<Part>),
    Label(u32),
    Jump(u32),
}

impl Loop {
    /// An equal loop.
    pub fn copy(&self, alloc: Global) -> Result<Loop, Memory>
        ensures { IfOk result (λ copy. loop_of copy ≡ loop_of self.now) }
    {
        let (first, last) = both(self.first.copy(alloc), self.last.copy(alloc))?;
        Ok(Loop {
            number: self.number,
            var: self.var,
            first,
            last,
            step: self.step,
            trip: self.trip,
        })
    }
}

impl GuardedStmt {
    /// An equal statement.
    pub fn copy(&self, alloc: Global) -> Result<GuardedStmt, Memory>
        ensures { IfOk result (λ copy. guarded_of copy ≡ guarded_of self.now) }
    {
        let guard = copy_guard(&self.guard, alloc);
        let (guard, left, right) = three(
            guard,
            copy_ref(&self.left, alloc),
            self.right.copy(alloc),
        )?;
        Ok(GuardedStmt {
            line: self.line,
            guard,
            left,
            right,
        })
    }
}

impl NestArm {
    #[cycle(part_copy)]
    #[tactic(auto, using(crate::proofs::Equations::part_equations))]
    fn copy(&self, alloc: Global) -> Result<NestArm, Memory>
        ensures { IfOk result (λ copy. branch_of copy ≡ branch_of self.now) }
    {
        let body = copy_parts(&self.body, alloc)?;
        Ok(NestArm {
            test: self.test.copy(alloc)?,
            body,
        })
    }
}

impl Part {
    /// An equal part.
    #[cycle(part_copy)]
    #[tactic(auto, using(crate::proofs::Equations::part_equations))]
    pub fn copy(&self, alloc: Global) -> Result<Part, Memory>
        ensures { IfOk result (λ copy. part_of copy ≡ part_of self.now) }
    {
        match self {
            Part::Run(stmt) => Ok(Part::Run(stmt.copy(alloc)?)),
            Part::Turns(turns, body) => {
                let body = copy_parts(body, alloc)?;
                Ok(Part::Turns(turns.copy(alloc)?, body))
            }
            Part::Choice(arms, other) => Ok(Part::Choice(
                copy_arms(arms, alloc)?,
                copy_parts(other, alloc)?,
            )),
            Part::Label(number) => Ok(Part::Label(*number)),
            Part::Jump(number) => Ok(Part::Jump(*number)),
        }
    }
}

#[cycle(part_copy)]
fn copy_arms(arms: &Seq<NestArm>, alloc: Global) -> Result<Seq<NestArm>, Memory>
    ensures { IfOk result (λ copies. map branch_of copies ≡ map branch_of arms.now) }
{
    let mut copies = Seq::new(alloc);
    for arm in arms.as_slice() {
        copies.push(arm.copy(alloc)?)?;
    }
    Ok(copies)
}

/// Equal parts.
#[cycle(part_copy)]
pub fn copy_parts(parts: &Seq<Part>, alloc: Global) -> Result<Seq<Part>, Memory>
    ensures { IfOk result (λ copies. map part_of copies ≡ map part_of parts.now) }
{
    let mut copies = Seq::new(alloc);
    for part in parts.as_slice() {
        copies.push(part.copy(alloc)?)?;
    }
    Ok(copies)
}
