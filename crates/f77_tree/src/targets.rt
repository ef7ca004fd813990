//! The labels that a GO TO names.
ghost use Rattle.std.specs.Prelude.{◌≡◌, ℕ, ◌==◌, ◌||◌, ◌++◌, map, IfOk, OnOk};
ghost use Rattle.std.specs.BTreeSet.{contains};
ghost use Rattle.std.specs.List.{list_any};
ghost use Rattle.std.specs.Option.{option_to_list};
ghost use Rattle.std.specs.Ordering.{nat_cmp};
ghost use Rattle.tree.specs.View.{statement_of as tree_statement_of};
ghost use Rattle.f77_grammar.specs.program.Tree as tree;
ghost use Rattle.f77_grammar.specs.program.Text.{action};
ghost use Rattle.f77_grammar.specs.syntax.Views.{statement_of, text_of};

use f77_grammar::syntax::{Labelled, Stmt77};
use std::alloc::Global;
use std::collections::BTreeSet;
use tree::{Memory, Stmt};

/// The labels that a GO TO of a program names: a list in the order of the text, and as a set.
#[derive(Drop)]
pub struct Targets {
    pub list: Vec<u32>,
    set: BTreeSet<u32>,
    ghost known: { (n : ℕ) → contains nat_cmp set n ≡ list_any (λ m. m == n) list.items },
}

#[tactic(auto, using(crate::proofs::TargetLaws::target_laws))]
fn target(statement: &Stmt77) -> Option<u32>
    ensures { option_to_list result ≡ tree.target (statement_of statement.now) }
{
    match statement {
        Stmt77::Go(number) => Some(*number),
        Stmt77::Program(_) | Stmt77::ImplicitNone | Stmt77::Declare(..) => None,
        Stmt77::Dimension(_) | Stmt77::Constants(_) | Stmt77::Assign(..) | Stmt77::Test(..) => None,
        Stmt77::If(_) | Stmt77::ElseIf(_) | Stmt77::Else | Stmt77::EndIf | Stmt77::Do(..) => None,
        Stmt77::EndDo | Stmt77::Continue | Stmt77::Stop | Stmt77::Read(_) => None,
        Stmt77::Print(_) | Stmt77::End => None,
    }
}

fn note(list: &mut Vec<u32>, target: Option<u32>) -> Result<(), Memory>
    ensures { OnOk result (list.new.items ≡ list.old.items ++ option_to_list target) }
{
    if let Some(number) = target {
        list.push(number)?;
    }
    Ok(())
}

fn targets_in(alloc: Global, text: &[Labelled]) -> Result<Vec<u32>, Memory>
    ensures { IfOk result (λ list. list.items ≡ tree.targets (text_of text.now)) }
{
    let mut list = Vec::new(alloc);
    for statement in text {
        note(&mut list, target(statement.statement.action()))?;
    }
    Ok(list)
}

fn insert(set: &mut BTreeSet<u32>, number: u32) -> Result<(), Memory>
    ensures { OnOk result ((n : ℕ) → contains nat_cmp set.new n ≡ ((number == n) || contains nat_cmp set.old n)) }
{
    set.insert(number)?;
    Ok(())
}

fn set_of(alloc: Global, list: &[u32]) -> Result<BTreeSet<u32>, Memory>
    ensures { IfOk result (λ set. (n : ℕ) → contains nat_cmp set n ≡ list_any (λ m. m == n) list.now) }
{
    let mut set = BTreeSet::new(alloc);
    for number in list {
        insert(&mut set, *number)?;
    }
    Ok(set)
}

impl Targets {
    /// The labels that a GO TO of this program names.
    pub fn of_text(alloc: Global, text: &[Labelled]) -> Result<Targets, Memory>
        ensures { IfOk result (λ targets. targets.list.items ≡ tree.targets (text_of text.now)) }
    {
        let list = targets_in(alloc, text)?;
        let set = set_of(alloc, list.as_slice())?;
        Ok(Targets { list, set })
    }

    fn contains(&self, label: u32) -> bool
        ensures { result ≡ list_any (λ m. m == label) self.now.list.items }
    {
        self.set.contains(&label)
    }

    /// The label before a statement, where a GO TO names it.
    #[tactic(auto, using(crate::proofs::TargetLaws::mark_laws))]
    pub fn mark(&self, alloc: Global, label: Option<u32>) -> Result<Vec<Stmt>, Memory>
        ensures { IfOk result (λ mark. map tree_statement_of mark.items ≡ tree.label_before self.now.list.items label) }
    {
        let mut mark = Vec::new(alloc);
        if let Some(number) = label {
            if self.contains(number) {
                mark.push(Stmt::Label { number })?;
            }
        }
        Ok(mark)
    }
}
