//! Statements with their trees, not yet in blocks.
use tree::{Expr, Name, Stmt};

/// An executable statement with the trees of its expressions; the statements of a block don't stand in it yet.
#[derive(Drop)]
pub enum StatementTree {
    /// A statement that is a whole one in the program's tree.
    Simple(Stmt),
    /// A logical IF with its statement, none where that is CONTINUE.
    Test(Expr, Option<Stmt>),
    If(Expr),
    ElseIf(Expr),
    Else,
    EndIf,
    /// A DO with its variable, its first and last value and its step.
    Do(Name, Expr, Expr, Expr),
    EndDo,
    /// A CONTINUE, with its label if it has one.
    Continue(Option<u32>),
}
