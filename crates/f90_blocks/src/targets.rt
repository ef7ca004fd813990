//! The labels that GO TOs name.
ghost use Rattle.std.specs.Prelude.{◌≡◌, ℕ, ◌||◌, IfOk, OnOk};
ghost use Rattle.std.specs.BTreeSet.{contains};
ghost use Rattle.std.specs.List.{list_any};
ghost use Rattle.std.specs.Ordering.{nat_cmp};
ghost use Rattle.tree.specs.View.{statement_of};
ghost use Rattle.f90_blocks.specs.Targets.{target_of, target_in, target_at, names};
ghost use Rattle.f90_blocks.specs.declared.nodes.Treed.{Treed};

use crate::nodes::Treed;
use crate::statement_trees::StatementTree;
use std::alloc::Global;
use std::collections::BTreeSet;
use tree::{Memory, Stmt};

#[tactic(auto, using(crate::proofs::TargetLaws::target_laws))]
fn target_of(stmt: &Stmt) -> Option<u32>
    ensures { result ≡ target_of (statement_of stmt.now) }
{
    match stmt {
        Stmt::Go { line: _, number } => Some(*number),
        Stmt::Assign { .. } | Stmt::Masked { .. } | Stmt::If { .. } | Stmt::Do { .. } => None,
        Stmt::Label { .. } | Stmt::Stop { .. } | Stmt::Read { .. } | Stmt::Print { .. } => None,
        Stmt::Allocate { .. } | Stmt::Deallocate { .. } => None,
    }
}

// The label that a statement names, a logical IF by the statement that it does.
fn target_in(tree: &StatementTree) -> Option<u32>
    ensures { result ≡ target_in tree.now }
{
    match tree {
        StatementTree::Simple(stmt) => target_of(stmt),
        StatementTree::Test(_, Some(stmt)) => target_of(stmt),
        StatementTree::Test(_, None) => None,
        StatementTree::If(_) | StatementTree::ElseIf(_) => None,
        StatementTree::Else | StatementTree::EndIf => None,
        StatementTree::Do(_, _, _, _) | StatementTree::EndDo => None,
        StatementTree::Continue(_) => None,
    }
}

impl Treed {
    fn target(&self) -> Option<u32>
        ensures { result ≡ target_at self.now }
    {
        match &self.tree {
            Some(tree) => target_in(tree),
            None => None,
        }
    }
}

fn note(labels: &mut BTreeSet<u32>, label: Option<u32>) -> Result<(), Memory>
    ensures { OnOk result ((n : ℕ)
        → contains nat_cmp labels.new n ≡ (contains nat_cmp labels.old n || names label n)) }
{
    if let Some(label) = label {
        labels.insert(label)?;
    }
    Ok(())
}

/// The labels that GO TOs name, also in logical IFs.
pub fn targets(alloc: Global, trees: &[Treed]) -> Result<BTreeSet<u32>, Memory>
    ensures { IfOk result (λ labels. (n : ℕ)
        → contains nat_cmp labels n ≡ list_any (λ (t : Treed). names (target_at t) n) trees.now) }
{
    let mut labels = BTreeSet::new(alloc);
    for treed in trees {
        note(&mut labels, treed.target())?;
    }
    Ok(labels)
}
