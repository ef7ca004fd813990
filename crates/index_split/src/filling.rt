//! The statements of a program in which loops give way to what their answers say.
ghost use Rattle.std.specs.Prelude.{◌≡◌, ◌++◌, IfOk, OnOk, MatchOption, map};
ghost use Rattle.tree.specs.Plain.{Do, block as plain_block};
ghost use Rattle.tree.specs.View.{block_of, expression_of, statement_of, tested_of};
ghost use Rattle.index_split.specs.Filled.{answer_at, filled, filled_arm, filled_each, filled_in, filled_list, next};
ghost use Rattle.index_split.specs.Filled.{pieces_or, used, used_block, used_each, used_list};
ghost use Rattle.index_split.specs.declared.answers.Answer.TheVariants.{Whole};

use crate::answers::Answer;
use crate::pieces::{Pieces, are_assignments};
use std::alloc::Global;
use tree::{Arm, Block, Expr, Memory, Name, Seq, Stmt};

// The answers to the loops that stand in no nest, in the order of the text.
#[derive(Drop)]
struct Filling<'a> {
    alloc: Global,
    answers: &'a [Answer],
}

// Each takes how many answers stand before a part of the program, and leaves how many stand before its end.
impl Filling<'_> {
    // The next answer, if there is one.
    fn take(&self, at: &mut usize) -> Option<&Answer>
        ensures answer { MatchOption result (answer_at self.now.answers.now at.old ≡ Whole)
            (λ a. answer_at self.now.answers.now at.old ≡ a.now) }
        ensures at { at.new ≡ next self.now.answers.now at.old }
    {
        let answer = self.answers.get(*at)?;
        *at += 1;
        Some(answer)
    }

    // The loops over pieces of a loop of assignments alone; another loop stays.
    #[tactic(auto, using(crate::proofs::FillLaws::fill_laws))]
    fn cut(
        &self,
        pieces: &Pieces,
        line: u32,
        var: Name,
        first: Expr,
        last: Expr,
        step: Expr,
        body: Block,
        made: &mut Seq<Stmt>,
    ) -> Result<(), Memory>
        ensures { OnOk result (map statement_of made.new ≡ map statement_of made.old
            ++ pieces_or self.now.answers.now pieces.now
            (Do line var (expression_of first) (expression_of last) (expression_of step) (block_of body))
            line var (block_of body)) }
    {
        if are_assignments(&body) {
            return pieces.add_loops(self.alloc, line, var, &body, made);
        }
        made.push(Stmt::Do {
            line,
            var,
            first,
            last,
            step,
            body,
        })
    }

    #[cycle(filling)]
    #[tactic(auto, using(crate::proofs::FillLaws::fill_laws))]
    fn stmt(&self, stmt: Stmt, at: &mut usize, made: &mut Seq<Stmt>) -> Result<(), Memory>
        ensures made { OnOk result (map statement_of made.new ≡ map statement_of made.old
            ++ filled self.now.answers.now at.old (statement_of stmt)) }
        ensures at { OnOk result (at.new ≡ used self.now.answers.now at.old (statement_of stmt)) }
    {
        match stmt {
            Stmt::If { line, arms, other } => {
                let arms = self.arms(arms, at)?;
                let other = self.block(other, at)?;
                made.push(Stmt::If { line, arms, other })
            }
            Stmt::Do {
                line,
                var,
                first,
                last,
                step,
                body,
            } => match self.take(at) {
                Some(Answer::Outer) => {
                    let body = self.block(body, at)?;
                    made.push(Stmt::Do {
                        line,
                        var,
                        first,
                        last,
                        step,
                        body,
                    })
                }
                Some(Answer::Cut(pieces)) => {
                    self.cut(pieces, line, var, first, last, step, body, made)
                }
                Some(Answer::Whole) => made.push(Stmt::Do {
                    line,
                    var,
                    first,
                    last,
                    step,
                    body,
                }),
                None => made.push(Stmt::Do {
                    line,
                    var,
                    first,
                    last,
                    step,
                    body,
                }),
            },
            Stmt::Assign { .. } => made.push(stmt),
            Stmt::Masked { .. } => made.push(stmt),
            Stmt::Label { .. } => made.push(stmt),
            Stmt::Go { .. } => made.push(stmt),
            Stmt::Stop { .. } => made.push(stmt),
            Stmt::Read { .. } => made.push(stmt),
            Stmt::Print { .. } => made.push(stmt),
            Stmt::Allocate { .. } => made.push(stmt),
            Stmt::Deallocate { .. } => made.push(stmt),
        }
    }

    #[cycle(filling)]
    #[tactic(auto, using(crate::proofs::FillLaws::list_laws))]
    fn arms(&self, arms: Seq<Arm>, at: &mut usize) -> Result<Seq<Arm>, Memory>
        ensures made { IfOk result (λ made. map tested_of made
            ≡ filled_each self.now.answers.now at.old (map tested_of arms)) }
        ensures at { IfOk result (λ made. at.new ≡ used_each self.now.answers.now at.old (map tested_of arms)) }
    {
        let mut made = Seq::new(self.alloc);
        for arm in arms.into_vec() {
            made.push(self.arm(arm, at)?)?;
        }
        Ok(made)
    }

    #[cycle(filling)]
    #[tactic(auto, using(crate::proofs::FillLaws::fill_laws))]
    fn arm(&self, arm: Arm, at: &mut usize) -> Result<Arm, Memory>
        ensures made { IfOk result (λ made. tested_of made
            ≡ filled_arm self.now.answers.now at.old (tested_of arm)) }
        ensures at { IfOk result (λ made. at.new ≡ used_block self.now.answers.now at.old (tested_of arm).body) }
    {
        let Arm { test, body } = arm;
        let body = self.block(body, at)?;
        Ok(Arm { test, body })
    }

    #[cycle(filling)]
    #[tactic(auto, using(crate::proofs::FillLaws::block_laws))]
    fn block(&self, block: Block, at: &mut usize) -> Result<Block, Memory>
        ensures made { IfOk result (λ made. block_of made
            ≡ plain_block (filled_in self.now.answers.now at.old (block_of block))) }
        ensures at { IfOk result (λ made. at.new ≡ used_block self.now.answers.now at.old (block_of block)) }
    {
        let Block { stmts } = block;
        let stmts = self.stmts(stmts, at)?;
        Ok(Block { stmts })
    }

    #[cycle(filling)]
    #[tactic(auto, using(crate::proofs::FillLaws::list_laws))]
    fn stmts(&self, stmts: Seq<Stmt>, at: &mut usize) -> Result<Seq<Stmt>, Memory>
        ensures made { IfOk result (λ made. map statement_of made
            ≡ filled_list self.now.answers.now at.old (map statement_of stmts)) }
        ensures at { IfOk result (λ made. at.new ≡ used_list self.now.answers.now at.old (map statement_of stmts)) }
    {
        let mut made = Seq::new(self.alloc);
        for stmt in stmts.into_vec() {
            self.stmt(stmt, at, &mut made)?;
        }
        Ok(made)
    }
}

/// The body of a program, in which each loop that stands in no nest has become what its answer says: the n-th of them
/// in the order of the text what the n-th answer says.
pub(crate) fn filled(alloc: Global, body: Block, answers: &[Answer]) -> Result<Block, Memory>
    ensures { IfOk result (λ made. block_of made
        ≡ plain_block (filled_in answers.now 0 (block_of body))) }
{
    let filling = Filling { alloc, answers };
    let mut at = 0;
    filling.block(body, &mut at)
}
