//! Whether a loop, or one in it, leaves the limits.
ghost use Rattle.std.specs.Prelude.{◌≡◌, ◌≤◌, ◌^◌, ◌++◌, ◌∷◌, [], length, map, OnOk, IfOk};
ghost use Rattle.std.specs.List.{list_any};
ghost use Rattle.tree.specs.View.{expression_of, statement_of, tested_of, block_of};
ghost use Rattle.find_nests.specs.bound_limits.Loops.{leaves_limits, as_outer};
ghost use Rattle.find_nests.specs.bound_limits.Walks.{any_leaves, any_leaves_block};
ghost use Rattle.find_nests.specs.bound_limits.Arms.{any_leaves_arm};
ghost use Rattle.find_nests.specs.bound_limits.View.{wide_form_of, outer_of, AreSmall, IsSized, IsInner};

use crate::bound_limits::around::{Outer, bound_form};
use crate::bound_limits::numbers::widened;
use nest_reasons::step_of;
use std::alloc::Global;
use tree::{Arm, Block, Expr, Memory, Name, Seq, Stmt};

/// The symbols over which the forms are.
#[derive(Drop)]
pub struct Limits {
    pub symbols: Seq<Name>,
}

// One loop more round those that follow.
fn push_outer(around: &mut Vec<Outer>, outer: Outer) -> Result<(), Memory>
    requires small { AreSmall (map outer_of around.old.items) }
    requires sized { IsSized (2 ^ 41) (wide_form_of outer.form) }
    ensures items { OnOk result (around.new.items ≡ around.old.items ++ outer ∷ []) }
    ensures small { OnOk result (AreSmall (map outer_of around.new.items)) }
{
    around.push(outer)?;
    Ok(())
}

impl Limits {
    // A loop as one round those in it; None where it leaves the limits.
    fn inner(
        &self,
        alloc: Global,
        around: &[Outer],
        variable: Name,
        first: &Expr,
        last: &Expr,
        step: &Expr,
    ) -> Result<Option<Outer>, Memory>
        requires few { length self.now.symbols ≤ 2 ^ 16 }
        requires small { AreSmall (map outer_of around.now) }
        ensures { IfOk result (λ inner. IsInner
            (leaves_limits self.now.symbols (map outer_of around.now) (expression_of first.now) (expression_of last.now)
            (expression_of step.now))
            (as_outer self.now.symbols (map outer_of around.now) variable (expression_of first.now)
            (expression_of step.now)) inner) }
    {
        let Some(number) = step_of(step) else {
            return Ok(None);
        };
        let lower_bound = bound_form(alloc, &self.symbols, around, first)?;
        let Some(lower) = lower_bound else {
            return Ok(None);
        };
        let upper_bound = bound_form(alloc, &self.symbols, around, last)?;
        let Some(upper) = upper_bound else {
            return Ok(None);
        };
        let symbols = self.symbols.len();
        let size = widened(number);
        let kept = lower.all_keep_limits(alloc, symbols, size, &upper)?;
        if !kept {
            return Ok(None);
        }
        let form = lower.normal(alloc, symbols + around.len(), size)?;
        Ok(Some(Outer { variable, form }))
    }

    /// Whether a loop that the statement is, or one in it, leaves the limits; `around` has the loops round the
    /// statement, from the outside in.
    #[cycle(loops)]
    #[tactic(auto, using(crate::proofs::BoundLimits::WalkLaws::loop_laws))]
    fn any_in_stmt(
        &self,
        alloc: Global,
        around: &mut Vec<Outer>,
        stmt: &Stmt,
    ) -> Result<bool, Memory>
        requires few { length self.now.symbols ≤ 2 ^ 16 }
        requires small { AreSmall (map outer_of around.old.items) }
        ensures found { IfOk result (λ found. found
            ≡ any_leaves self.now.symbols (map outer_of around.old.items) (statement_of stmt.now)) }
        ensures kept { OnOk result (around.new.items ≡ around.old.items) }
    {
        match stmt {
            Stmt::Do {
                var,
                first,
                last,
                step,
                body,
                ..
            } => {
                let inner = self.inner(alloc, around.as_slice(), *var, first, last, step)?;
                let Some(outer) = inner else {
                    return Ok(true);
                };
                push_outer(around, outer)?;
                let found = self.any_in_block(alloc, around, body)?;
                around.pop();
                Ok(found)
            }
            Stmt::If { arms, other, .. } => {
                let in_arms = self.any_in_arms(alloc, around, arms)?;
                let in_other = self.any_in_block(alloc, around, other)?;
                Ok(in_arms || in_other)
            }
            Stmt::Assign { .. } | Stmt::Masked { .. } => Ok(false),
            Stmt::Label { .. } | Stmt::Go { .. } | Stmt::Stop { .. } => Ok(false),
            Stmt::Read { .. } | Stmt::Print { .. } => Ok(false),
            Stmt::Allocate { .. } | Stmt::Deallocate { .. } => Ok(false),
        }
    }

    #[cycle(loops)]
    fn any_in_arms(
        &self,
        alloc: Global,
        around: &mut Vec<Outer>,
        arms: &Seq<Arm>,
    ) -> Result<bool, Memory>
        requires few { length self.now.symbols ≤ 2 ^ 16 }
        requires small { AreSmall (map outer_of around.old.items) }
        ensures found { IfOk result (λ found. found
            ≡ list_any (any_leaves_arm self.now.symbols (map outer_of around.old.items)) (map tested_of arms.now)) }
        ensures kept { OnOk result (around.new.items ≡ around.old.items) }
    {
        let mut found = false;
        for arm in arms.as_slice() {
            let here = self.any_in_arm(alloc, around, arm)?;
            found = found || here;
        }
        Ok(found)
    }

    #[cycle(loops)]
    #[tactic(auto, using(crate::proofs::BoundLimits::WalkLaws::loop_laws))]
    fn any_in_arm(&self, alloc: Global, around: &mut Vec<Outer>, arm: &Arm) -> Result<bool, Memory>
        requires few { length self.now.symbols ≤ 2 ^ 16 }
        requires small { AreSmall (map outer_of around.old.items) }
        ensures found { IfOk result (λ found. found
            ≡ any_leaves_arm self.now.symbols (map outer_of around.old.items) (tested_of arm.now)) }
        ensures kept { OnOk result (around.new.items ≡ around.old.items) }
    {
        self.any_in_block(alloc, around, &arm.body)
    }

    #[cycle(loops)]
    #[tactic(auto, using(crate::proofs::BoundLimits::WalkLaws::block_laws))]
    fn any_in_block(
        &self,
        alloc: Global,
        around: &mut Vec<Outer>,
        block: &Block,
    ) -> Result<bool, Memory>
        requires few { length self.now.symbols ≤ 2 ^ 16 }
        requires small { AreSmall (map outer_of around.old.items) }
        ensures found { IfOk result (λ found. found
            ≡ any_leaves_block self.now.symbols (map outer_of around.old.items) (block_of block.now)) }
        ensures kept { OnOk result (around.new.items ≡ around.old.items) }
    {
        self.any_in_stmts(alloc, around, &block.stmts)
    }

    #[cycle(loops)]
    fn any_in_stmts(
        &self,
        alloc: Global,
        around: &mut Vec<Outer>,
        stmts: &Seq<Stmt>,
    ) -> Result<bool, Memory>
        requires few { length self.now.symbols ≤ 2 ^ 16 }
        requires small { AreSmall (map outer_of around.old.items) }
        ensures found { IfOk result (λ found. found
            ≡ list_any (any_leaves self.now.symbols (map outer_of around.old.items)) (map statement_of stmts.now)) }
        ensures kept { OnOk result (around.new.items ≡ around.old.items) }
    {
        let mut found = false;
        for stmt in stmts.as_slice() {
            let here = self.any_in_stmt(alloc, around, stmt)?;
            found = found || here;
        }
        Ok(found)
    }

    /// Whether a loop that the statement is, or one in it, leaves the limits once the variables of the loops round it
    /// are replaced. A loop whose bounds aren't linear, or whose increment isn't suitable, does so.
    pub fn any_leaves(&self, alloc: Global, stmt: &Stmt) -> Result<bool, Memory>
        requires { length self.now.symbols ≤ 2 ^ 16 }
        ensures { IfOk result (λ found. found ≡ any_leaves self.now.symbols [] (statement_of stmt.now)) }
    {
        let mut around = Vec::new(alloc);
        self.any_in_stmt(alloc, &mut around, stmt)
    }
}
