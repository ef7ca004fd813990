//! The block of a program.
ghost use Rattle.std.specs.Prelude.{◌≡◌, ℕ, Bool, false, Option, List, ◌∷◌, IfOk};
ghost use Rattle.std.specs.BTreeSet.{contains};
ghost use Rattle.std.specs.List.{filter};
ghost use Rattle.std.specs.Ordering.{nat_cmp};
ghost use Rattle.tree.specs.Plain as plain;
ghost use Rattle.tree.specs.View.{expression_of, statement_of, block_of};
ghost use Rattle.tree.specs.declared.functions.Intrinsic.{Intrinsic};
ghost use Rattle.f90_laws.specs.blocks.Blocks.{name_target};
ghost use Rattle.f90_grammar.specs.Blocks.{Placed, AreBlock90};
ghost use Rattle.f90_grammar.specs.Order.{IsInOrder, Opened, is_executable90, opened_by};
ghost use Rattle.f90_statement.specs.Views.{AreOf};
ghost use Rattle.f90_blocks.specs.Rests.{IsNext, Shows, Stands, block_seen, done_seen, opens_seen, with_label};
ghost use Rattle.f90_blocks.specs.Treed.{IsTreedOf, MarksAreTaken};

use crate::nodes::Treed;
use crate::open::Rest;
use crate::statement_trees::StatementTree;
use crate::targets::targets;
use std::alloc::Global;
use std::collections::BTreeSet;
use tree::{Arm, Block, Expr, Memory, Seq, Stmt};

// The block of what a logical IF does.
#[tactic(auto, using(tree::proofs::Equations::statement_equations))]
fn done_block(alloc: Global, done: Option<Stmt>) -> Result<Block, Memory>
    ensures { IfOk result (λ block. block_of block ≡ done_seen done) }
{
    match done {
        Some(stmt) => {
            let mut stmts = Seq::new(alloc);
            stmts.push(stmt)?;
            Ok(Block { stmts })
        }
        None => Ok(Block {
            stmts: Seq::new(alloc),
        }),
    }
}

// A logical IF as a block IF of one arm.
fn logical_if(alloc: Global, line: u32, test: Expr, done: Option<Stmt>) -> Result<Stmt, Memory>
    ensures { IfOk result (λ stmt. statement_of stmt
        ≡ plain.If line (plain.arm (expression_of test) (done_seen done) plain.no_arms) plain.no_statements) }
{
    let body = done_block(alloc, done)?;
    let mut arms = Seq::new(alloc);
    arms.push(Arm { test, body })?;
    let other = done_block(alloc, None)?;
    Ok(Stmt::If { line, arms, other })
}

impl Rest {
    // With a logical IF before all that.
    fn begin_test(
        self,
        alloc: Global,
        line: u32,
        test: Expr,
        done: Option<Stmt>,
    ) -> Result<Rest, Memory>
        ensures { IfOk result (λ rest. Shows rest
            (plain.statement (plain.If line (plain.arm (expression_of test) (done_seen done) plain.no_arms)
            plain.no_statements) (block_seen self.stmts.items)) (opens_seen self.opened.items)) }
    {
        let stmt = logical_if(alloc, line, test, done)?;
        self.precede(stmt)
    }

    // With the label of a CONTINUE before all that, if it is among the targets.
    #[tactic(auto, using(crate::proofs::RestLaws::label_laws))]
    fn begin_label(self, targets: &BTreeSet<u32>, label: Option<u32>) -> Result<Rest, Memory>
        ensures { IfOk result (λ rest. Shows rest
            (with_label (contains nat_cmp targets.now) label (block_seen self.stmts.items))
            (opens_seen self.opened.items)) }
    {
        let Some(number) = label else {
            return Ok(self);
        };
        if !targets.contains(&number) {
            return Ok(self);
        }
        self.precede(Stmt::Label { number })
    }

    // With a statement before all that.
    fn begin(
        self,
        alloc: Global,
        targets: &BTreeSet<u32>,
        line: u32,
        tree: StatementTree,
    ) -> Result<Rest, Memory>
        ensures { (function : List ℕ → Option Intrinsic) (is_target : ℕ → Bool) (os : List Opened) (p : Placed)
            (ps : List Placed) → ((n : ℕ) → contains nat_cmp targets.now n ≡ is_target n) → is_target 0 ≡ false
            → IsNext function os line tree p
            → Stands function is_target (opened_by p.form os) ps self
            → IfOk result (λ rest. Stands function is_target os (p ∷ ps) rest) }
    {
        match tree {
            StatementTree::Simple(stmt) => self.precede(stmt),
            StatementTree::Test(test, done) => self.begin_test(alloc, line, test, done),
            StatementTree::If(test) => self.begin_if(line, test),
            StatementTree::ElseIf(test) => self.begin_arm(alloc, test),
            StatementTree::Else => self.begin_else(alloc),
            StatementTree::EndIf => self.end_if(alloc),
            StatementTree::Do(var, first, last, step) => self.begin_do(
                line, var, first, last, step,
            ),
            StatementTree::EndDo => self.end_do(alloc),
            StatementTree::Continue(label) => self.begin_label(targets, label),
        }
    }
}

/// The block of the executable statements, which are in order (ISO/IEC 1539:1991, section 8.1). A label stands in it
/// where a GO TO names it, and a logical IF is a block IF of one arm.
pub fn block(alloc: Global, trees: Seq<Treed>) -> Result<Block, Memory>
    ensures { (function : List ℕ → Option Intrinsic) (ps : List Placed) → AreOf (IsTreedOf function) trees ps
        → IsInOrder ps → MarksAreTaken ps → name_target ps 0 ≡ false
        → IfOk result (λ made. AreBlock90 function (name_target ps)
        (filter (λ (p : Placed). is_executable90 p.form) ps) (block_of made)) }
{
    let targets = targets(alloc, trees.as_slice())?;
    let mut rest = Rest::new(alloc);
    let mut trees = trees.into_vec();
    'trees: while let Some(treed) = trees.pop() {
        let Treed { line, tree } = treed;
        if let Some(tree) = tree {
            rest = rest.begin(alloc, &targets, line, tree)?;
        }
    }
    Ok(rest.finish())
}
