//! Statements that open and close nothing.
ghost use Rattle.std.specs.Prelude.{◌≡◌, None, IfOk};
ghost use Rattle.tree.specs.View.{expression_of, reference_of, statement_of as tree_statement_of, block_of};
ghost use Rattle.tree.specs.Plain as plain;
ghost use Rattle.f77_grammar.specs.program.Tree as tree;
ghost use Rattle.f77_tree.specs.Parts.{known_uses, known_store, resolved_by, reference_by};
ghost use Rattle.f77_tree.specs.Resolved.{made};
ghost use Rattle.f77_grammar.specs.syntax.Views.{statement_of};

use crate::resolver::Resolver;
use f77_grammar::Direction;
use f77_grammar::syntax::Stmt77;
use std::alloc::Global;
use tree::{Arm, Block, Expr, Memory, Ref, Seq, Stmt, both};

#[tactic(auto, using(crate::proofs::SimpleLaws::block_laws))]
fn block(alloc: Global, statement: Option<Stmt>) -> Result<Block, Memory>
    ensures { IfOk result (λ whole. block_of whole ≡ plain.block (made statement)) }
{
    let mut stmts = Seq::new(alloc);
    if let Some(statement) = statement {
        stmts.push(statement)?;
    }
    Ok(Block { stmts })
}

impl Resolver<'_> {
    #[tactic(auto, using(crate::proofs::SimpleLaws::simple_laws))]
    fn assignment(&self, alloc: Global, line: u32, left: &Ref, right: &Expr) -> Result<Stmt, Memory>
        ensures { IfOk result (λ assignment.
            tree_statement_of assignment ≡ plain.Assignment line None (reference_by self.now left.now)
            (resolved_by self.now right.now)) }
    {
        let left = self.resolve_reference(alloc, left);
        let (left, right) = both(left, self.resolve(alloc, right))?;
        Ok(Stmt::Assign {
            line,
            mark: None,
            left,
            right,
        })
    }

    // A block IF of one arm, in place of a logical IF.
    #[tactic(auto, using(crate::proofs::SimpleLaws::simple_laws))]
    fn branch(
        &self,
        alloc: Global,
        line: u32,
        condition: &Expr,
        inner: Option<Stmt>,
    ) -> Result<Stmt, Memory>
        ensures { IfOk result (λ branch.
            tree_statement_of branch ≡ plain.If line (plain.arm (resolved_by self.now condition.now) (plain.block
            (made inner)) plain.no_arms) plain.no_statements) }
    {
        let body = block(alloc, inner)?;
        let test = self.resolve(alloc, condition)?;
        let mut arms = Seq::new(alloc);
        arms.push(Arm { test, body })?;
        Ok(Stmt::If {
            line,
            arms,
            other: Block {
                stmts: Seq::new(alloc),
            },
        })
    }

    /// What a statement of the text becomes that opens and closes nothing; none, for one that does nothing.
    #[tactic(auto, using(crate::proofs::SimpleLaws::simple_laws))]
    pub fn simple(
        &self,
        alloc: Global,
        line: u32,
        statement: &Stmt77,
    ) -> Result<Option<Stmt>, Memory>
        ensures { IfOk result (λ became.
            made became ≡ tree.simple (known_uses self.now) (known_store self.now) line
            (statement_of statement.now)) }
    {
        match statement {
            Stmt77::Assign(left, right) => Ok(Some(self.assignment(alloc, line, left, right)?)),
            Stmt77::Go(number) => Ok(Some(Stmt::Go {
                line,
                number: *number,
            })),
            Stmt77::Stop => Ok(Some(Stmt::Stop { line })),
            Stmt77::Read(list) => {
                let items = self.resolve_items(alloc, Direction::Input, list)?;
                Ok(Some(Stmt::Read { line, items }))
            }
            Stmt77::Print(list) => {
                let items = self.resolve_items(alloc, Direction::Output, list)?;
                Ok(Some(Stmt::Print { line, items }))
            }
            Stmt77::Test(condition, inner) => {
                let inner = self.simple(alloc, line, inner)?;
                Ok(Some(self.branch(alloc, line, condition, inner)?))
            }
            Stmt77::Program(_) | Stmt77::ImplicitNone | Stmt77::Declare(..) => Ok(None),
            Stmt77::Dimension(_) | Stmt77::Constants(_) | Stmt77::If(_) => Ok(None),
            Stmt77::ElseIf(_) | Stmt77::Else | Stmt77::EndIf | Stmt77::Do(..) => Ok(None),
            Stmt77::EndDo | Stmt77::Continue | Stmt77::End => Ok(None),
        }
    }
}
