//! What stands in a loop's own body, without what stands in the loops in it.
ghost use Rattle.std.specs.Prelude.{◌≡◌, ◌++◌, ◌∷◌, [], map, true, false, OnOk, IfOk};
ghost use Rattle.std.specs.List.{flat_map};
ghost use Rattle.tree.specs.View.{statement_of, tested_of, block_of};
ghost use Rattle.nest_reasons.specs.Marks.{own_marks, marks_in_block};
ghost use Rattle.nest_reasons.specs.Arms.{marks_in_arm};

use std::alloc::Global;
use tree::{Arm, Block, Memory, Seq, Stmt};

/// What matters of a statement where a loop is left or passed over: it halts or does input or output; a GO TO with its
/// label; a label; a loop, and whether it stands in an IF of the body.
#[derive(Clone, Copy, Debug, PartialEq, Eq)]
pub enum Mark {
    Halts,
    Jumps(u32),
    Arrives(u32),
    Turns(bool),
}

/// Marks in the order of the text.
#[derive(Drop)]
struct Marks {
    list: Seq<Mark>,
}

impl Marks {
    fn note(&mut self, mark: Mark) -> Result<(), Memory>
        ensures { OnOk result (self.new.list ≡ self.old.list ++ mark ∷ []) }
    {
        self.list.push(mark)
    }

    #[cycle(marks)]
    #[tactic(auto, using(crate::proofs::MarkLaws::mark_laws))]
    fn add_stmt(&mut self, stmt: &Stmt, in_if: bool) -> Result<(), Memory>
        ensures { OnOk result (self.new.list ≡ self.old.list ++ own_marks in_if (statement_of stmt.now)) }
    {
        match stmt {
            Stmt::Assign { .. } => Ok(()),
            Stmt::Masked { .. } => Ok(()),
            Stmt::If { arms, other, .. } => {
                self.add_arms(arms)?;
                self.add_block(other, true)
            }
            Stmt::Do { .. } => self.note(Mark::Turns(in_if)),
            Stmt::Label { number } => self.note(Mark::Arrives(*number)),
            Stmt::Go { number, .. } => self.note(Mark::Jumps(*number)),
            Stmt::Stop { .. } => self.note(Mark::Halts),
            Stmt::Read { .. } => self.note(Mark::Halts),
            Stmt::Print { .. } => self.note(Mark::Halts),
            Stmt::Allocate { .. } => Ok(()),
            Stmt::Deallocate { .. } => Ok(()),
        }
    }

    #[cycle(marks)]
    fn add_arms(&mut self, arms: &Seq<Arm>) -> Result<(), Memory>
        ensures { OnOk result (self.new.list ≡ self.old.list ++ flat_map marks_in_arm (map tested_of arms.now)) }
    {
        for arm in arms.as_slice() {
            self.add_arm(arm)?;
        }
        Ok(())
    }

    #[cycle(marks)]
    #[tactic(auto, using(crate::proofs::MarkLaws::mark_laws))]
    fn add_arm(&mut self, arm: &Arm) -> Result<(), Memory>
        ensures { OnOk result (self.new.list ≡ self.old.list ++ marks_in_arm (tested_of arm.now)) }
    {
        self.add_block(&arm.body, true)
    }

    #[cycle(marks)]
    #[tactic(auto, using(crate::proofs::MarkLaws::block_laws))]
    fn add_block(&mut self, block: &Block, in_if: bool) -> Result<(), Memory>
        ensures { OnOk result (self.new.list ≡ self.old.list ++ marks_in_block in_if (block_of block.now)) }
    {
        self.add_stmts(&block.stmts, in_if)
    }

    #[cycle(marks)]
    fn add_stmts(&mut self, stmts: &Seq<Stmt>, in_if: bool) -> Result<(), Memory>
        ensures { OnOk result (self.new.list
            ≡ self.old.list ++ flat_map (own_marks in_if) (map statement_of stmts.now)) }
    {
        for stmt in stmts.as_slice() {
            self.add_stmt(stmt, in_if)?;
        }
        Ok(())
    }
}

/// The marks of the body of a loop.
pub fn marks_of(alloc: Global, body: &Block) -> Result<Seq<Mark>, Memory>
    ensures { IfOk result (λ marks. marks ≡ marks_in_block false (block_of body.now)) }
{
    let mut marks = Marks {
        list: Seq::new(alloc),
    };
    marks.add_block(body, false)?;
    Ok(marks.list)
}
