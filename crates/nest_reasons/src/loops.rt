//! Whether a loop, or one in it, has a flaw.
ghost use Rattle.std.specs.Prelude.{◌≡◌, ◌≤◌, ◌^◌, ◌++◌, ◌∷◌, [], length, map, not, ◌&&◌, IfOk};
ghost use Rattle.std.specs.List.{list_any};
ghost use Rattle.tree.specs.View.{expression_of, statement_of, tested_of, block_of};
ghost use Rattle.nest_reasons.specs.Loops.{is_linear, has_flaw};
ghost use Rattle.nest_reasons.specs.Walks.{any_loop, any_in_block};
ghost use Rattle.nest_reasons.specs.Arms.{any_in_arm};

use crate::flaws::{Flaw, loop_in_if};
use crate::increments::step_of;
use crate::labels::{exits, jumps_over_loop};
use crate::marks::marks_of;
use crate::names::standing;
use linear_forms::linear;
use std::alloc::Global;
use tree::{Arm, Block, Expr, Memory, NEST_DEPTH, Name, Seq, Stmt};

/// The flaw that is looked for. The symbols are the names, other than variables of loops, that may stand in a linear
/// bound.
#[derive(Drop)]
pub struct Check {
    pub flaw: Flaw,
    pub symbols: Seq<Name>,
}

// The variables of the loops round the body of a further loop.
fn within(alloc: Global, around: &[Name], variable: Name) -> Result<Vec<Name>, Memory>
    ensures { IfOk result (λ inner. inner.items ≡ around.now ++ variable ∷ []) }
{
    let mut inner = Vec::from_slice(alloc, around)?;
    inner.push(variable)?;
    Ok(inner)
}

impl Check {
    fn is_linear(&self, alloc: Global, around: &[Name], bound: &Expr) -> Result<bool, Memory>
        requires { length self.now.symbols ≤ 2 ^ 16 }
        ensures { IfOk result (λ linear.
            linear ≡ is_linear self.now.symbols around.now (expression_of bound.now)) }
    {
        let loops = standing(alloc, around, bound)?;
        Ok(linear(bound, loops.as_slice(), &self.symbols).is_some())
    }

    fn has_other_bound(
        &self,
        alloc: Global,
        around: &[Name],
        first: &Expr,
        last: &Expr,
    ) -> Result<bool, Memory>
        requires { length self.now.symbols ≤ 2 ^ 16 }
        ensures { IfOk result (λ other. other
            ≡ not (is_linear self.now.symbols around.now (expression_of first.now)
            && is_linear self.now.symbols around.now (expression_of last.now))) }
    {
        let first_is_linear = self.is_linear(alloc, around, first)?;
        let last_is_linear = self.is_linear(alloc, around, last)?;
        Ok(!(first_is_linear && last_is_linear))
    }

    // Whether a loop with these parts, and these variables of loops round it, has the flaw itself.
    fn holds(
        &self,
        alloc: Global,
        around: &[Name],
        first: &Expr,
        last: &Expr,
        step: &Expr,
        body: &Block,
    ) -> Result<bool, Memory>
        requires { length self.now.symbols ≤ 2 ^ 16 }
        ensures { IfOk result (λ holds. holds
            ≡ has_flaw self.now.flaw self.now.symbols around.now (expression_of first.now)
            (expression_of last.now) (expression_of step.now) (block_of body.now)) }
    {
        match self.flaw {
            Flaw::Exit => {
                let marks = marks_of(alloc, body)?;
                exits(alloc, marks.as_slice())
            }
            Flaw::InnerIf => {
                let marks = marks_of(alloc, body)?;
                let passed = jumps_over_loop(alloc, marks.as_slice())?;
                Ok(loop_in_if(marks.as_slice()) || passed)
            }
            Flaw::Bound => self.has_other_bound(alloc, around, first, last),
            Flaw::Step => Ok(step_of(step).is_none()),
            Flaw::Deep => Ok(around.len() >= NEST_DEPTH),
        }
    }

    /// Whether a loop that the statement is, or one in it, has the flaw; `around` has the variables of the loops round
    /// the statement, from the outside in.
    #[cycle(loops)]
    #[tactic(auto, using(crate::proofs::LoopLaws::loop_laws))]
    pub fn any_in_stmt(&self, alloc: Global, around: &[Name], stmt: &Stmt) -> Result<bool, Memory>
        requires { length self.now.symbols ≤ 2 ^ 16 }
        ensures { IfOk result (λ found. found
            ≡ any_loop (has_flaw self.now.flaw self.now.symbols) around.now (statement_of stmt.now)) }
    {
        match stmt {
            Stmt::Assign { .. } => Ok(false),
            Stmt::Masked { .. } => Ok(false),
            Stmt::If { arms, other, .. } => {
                let in_arms = self.any_in_arms(alloc, around, arms)?;
                let in_other = self.any_in_block(alloc, around, other)?;
                Ok(in_arms || in_other)
            }
            Stmt::Do {
                var,
                first,
                last,
                step,
                body,
                ..
            } => {
                let found = self.holds(alloc, around, first, last, step, body)?;
                let inner = within(alloc, around, *var)?;
                let inside = self.any_in_block(alloc, inner.as_slice(), body)?;
                Ok(found || inside)
            }
            Stmt::Label { .. } => Ok(false),
            Stmt::Go { .. } => Ok(false),
            Stmt::Stop { .. } => Ok(false),
            Stmt::Read { .. } => Ok(false),
            Stmt::Print { .. } => Ok(false),
            Stmt::Allocate { .. } => Ok(false),
            Stmt::Deallocate { .. } => Ok(false),
        }
    }

    #[cycle(loops)]
    fn any_in_arms(&self, alloc: Global, around: &[Name], arms: &Seq<Arm>) -> Result<bool, Memory>
        requires { length self.now.symbols ≤ 2 ^ 16 }
        ensures { IfOk result (λ found. found
            ≡ list_any (any_in_arm (has_flaw self.now.flaw self.now.symbols) around.now) (map tested_of arms.now)) }
    {
        let mut found = false;
        for arm in arms.as_slice() {
            let here = self.any_in_arm(alloc, around, arm)?;
            found = found || here;
        }
        Ok(found)
    }

    #[cycle(loops)]
    #[tactic(auto, using(crate::proofs::LoopLaws::loop_laws))]
    fn any_in_arm(&self, alloc: Global, around: &[Name], arm: &Arm) -> Result<bool, Memory>
        requires { length self.now.symbols ≤ 2 ^ 16 }
        ensures { IfOk result (λ found. found
            ≡ any_in_arm (has_flaw self.now.flaw self.now.symbols) around.now (tested_of arm.now)) }
    {
        self.any_in_block(alloc, around, &arm.body)
    }

    #[cycle(loops)]
    #[tactic(auto, using(crate::proofs::LoopLaws::block_laws))]
    fn any_in_block(&self, alloc: Global, around: &[Name], block: &Block) -> Result<bool, Memory>
        requires { length self.now.symbols ≤ 2 ^ 16 }
        ensures { IfOk result (λ found. found
            ≡ any_in_block (has_flaw self.now.flaw self.now.symbols) around.now (block_of block.now)) }
    {
        self.any_in_stmts(alloc, around, &block.stmts)
    }

    #[cycle(loops)]
    fn any_in_stmts(
        &self,
        alloc: Global,
        around: &[Name],
        stmts: &Seq<Stmt>,
    ) -> Result<bool, Memory>
        requires { length self.now.symbols ≤ 2 ^ 16 }
        ensures { IfOk result (λ found. found
            ≡ list_any (any_loop (has_flaw self.now.flaw self.now.symbols) around.now) (map statement_of stmts.now)) }
    {
        let mut found = false;
        for stmt in stmts.as_slice() {
            let here = self.any_in_stmt(alloc, around, stmt)?;
            found = found || here;
        }
        Ok(found)
    }
}
