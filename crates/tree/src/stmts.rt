//! Statements, and the items of input and output lists (ANSI X3.9-1978, sections 10 to 12).
ghost use Rattle.std.specs.Prelude.{◌≡◌, IfOk, map};
ghost use Rattle.tree.specs.View.{item_of, statement_of, tested_of, block_of};

use crate::exprs::copy_all;
use crate::{Expr, Memory, Name, Ref, Seq, both, three};
use std::alloc::Global;

/// The place of an assignment in the listing: its nest, its number in the nest and its level.
#[derive(Clone, Copy, Debug, PartialEq, Eq)]
pub struct Mark {
    pub nest: u32,
    pub stmt: u32,
    pub level: u32,
}

/// An item of an input or output list: a value or a variable, a text, or an implied DO list with its
/// variable and its three bounds.
#[derive(Drop)]
pub enum Item {
    One(Expr),
    Text(Seq<u8>),
    Turns(Seq<Item>, Name, Expr, Expr, Expr),
}

/// A condition of a block IF, and the statements under it.
#[derive(Drop)]
#[cycle(stmt)]
pub struct Arm {
    pub test: Expr,
    pub body: Block,
}

#[derive(Drop)]
#[cycle(stmt)]
pub struct Block {
    pub stmts: Seq<Stmt>,
}

/// A statement, with the number of its line. A label stands before its statement.
#[derive(Drop)]
#[cycle(stmt)]
pub enum Stmt {
    Assign {
        line: u32,
        mark: Option<Mark>,
        left: Ref,
        right: Expr,
    },
    /// WHERE with its mask.
    Masked {
        line: u32,
        mark: Option<Mark>,
        mask: Expr,
        left: Ref,
        right: Expr,
    },
    If {
        line: u32,
        arms: Seq<Arm>,
        other: Block,
    },
    Do {
        line: u32,
        var: Name,
        first: Expr,
        last: Expr,
        step: Expr,
        body: Block,
    },
    Label {
        number: u32,
    },
    Go {
        line: u32,
        number: u32,
    },
    Stop {
        line: u32,
    },
    Read {
        line: u32,
        items: Seq<Item>,
    },
    Print {
        line: u32,
        items: Seq<Item>,
    },
    Allocate {
        line: u32,
        name: Name,
        extents: Seq<Expr>,
    },
    Deallocate {
        line: u32,
        name: Name,
    },
}

impl Item {
    #[cycle(item_copy)]
    #[tactic(auto, using(crate::proofs::Equations::item_equations))]
    fn copy(&self, alloc: Global) -> Result<Item, Memory>
        ensures { IfOk result (λ copy. item_of copy ≡ item_of self.now) }
    {
        match self {
            Item::One(expr) => Ok(Item::One(expr.copy(alloc)?)),
            Item::Text(text) => Ok(Item::Text(copy_text(text, alloc)?)),
            Item::Turns(items, var, first, last, step) => {
                let items = copy_items(items, alloc)?;
                let (first, last, step) = three(
                    first.copy(alloc),
                    last.copy(alloc),
                    step.copy(alloc),
                )?;
                Ok(Item::Turns(items, *var, first, last, step))
            }
        }
    }
}

/// An equal text.
pub fn copy_text(text: &Seq<u8>, alloc: Global) -> Result<Seq<u8>, Memory>
    ensures { IfOk result (λ copy. copy ≡ text.now) }
{
    Ok(Seq::from_vec(Vec::from_slice(alloc, text.as_slice())?))
}

#[cycle(item_copy)]
fn copy_items(items: &Seq<Item>, alloc: Global) -> Result<Seq<Item>, Memory>
    ensures { IfOk result (λ copies. map item_of copies ≡ map item_of items.now) }
{
    let mut copies = Seq::new(alloc);
    for item in items.as_slice() {
        copies.push(item.copy(alloc)?)?;
    }
    Ok(copies)
}

impl Block {
    /// An equal block.
    #[cycle(stmt_copy)]
    #[tactic(auto, using(crate::proofs::Equations::statement_equations))]
    pub fn copy(&self, alloc: Global) -> Result<Block, Memory>
        ensures { IfOk result (λ copy. block_of copy ≡ block_of self.now) }
    {
        let mut stmts = Seq::new(alloc);
        for stmt in self.stmts.as_slice() {
            stmts.push(stmt.copy(alloc)?)?;
        }
        Ok(Block { stmts })
    }
}

impl Arm {
    #[cycle(stmt_copy)]
    #[tactic(auto, using(crate::proofs::Equations::statement_equations))]
    fn copy(&self, alloc: Global) -> Result<Arm, Memory>
        ensures { IfOk result (λ copy. tested_of copy ≡ tested_of self.now) }
    {
        let body = self.body.copy(alloc)?;
        Ok(Arm {
            test: self.test.copy(alloc)?,
            body,
        })
    }
}

#[cycle(stmt_copy)]
fn copy_arms(arms: &Seq<Arm>, alloc: Global) -> Result<Seq<Arm>, Memory>
    ensures { IfOk result (λ copies. map tested_of copies ≡ map tested_of arms.now) }
{
    let mut copies = Seq::new(alloc);
    for arm in arms.as_slice() {
        copies.push(arm.copy(alloc)?)?;
    }
    Ok(copies)
}

impl Stmt {
    #[cycle(stmt_copy)]
    #[tactic(auto, using(crate::proofs::Equations::statement_equations))]
    fn copy(&self, alloc: Global) -> Result<Stmt, Memory>
        ensures { IfOk result (λ copy. statement_of copy ≡ statement_of self.now) }
    {
        match self {
            Stmt::Assign {
                line,
                mark,
                left,
                right,
            } => {
                let (left, right) = both(left.copy(alloc), right.copy(alloc))?;
                Ok(Stmt::Assign {
                    line: *line,
                    mark: *mark,
                    left,
                    right,
                })
            }
            Stmt::Masked {
                line,
                mark,
                mask,
                left,
                right,
            } => {
                let (mask, left, right) = three(
                    mask.copy(alloc),
                    left.copy(alloc),
                    right.copy(alloc),
                )?;
                Ok(Stmt::Masked {
                    line: *line,
                    mark: *mark,
                    mask,
                    left,
                    right,
                })
            }
            Stmt::If { line, arms, other } => Ok(Stmt::If {
                line: *line,
                arms: copy_arms(arms, alloc)?,
                other: other.copy(alloc)?,
            }),
            Stmt::Do {
                line,
                var,
                first,
                last,
                step,
                body,
            } => {
                let body = body.copy(alloc)?;
                let (first, last, step) = three(
                    first.copy(alloc),
                    last.copy(alloc),
                    step.copy(alloc),
                )?;
                Ok(Stmt::Do {
                    line: *line,
                    var: *var,
                    first,
                    last,
                    step,
                    body,
                })
            }
            Stmt::Label { number } => Ok(Stmt::Label { number: *number }),
            Stmt::Go { line, number } => Ok(Stmt::Go {
                line: *line,
                number: *number,
            }),
            Stmt::Stop { line } => Ok(Stmt::Stop { line: *line }),
            Stmt::Read { line, items } => Ok(Stmt::Read {
                line: *line,
                items: copy_items(items, alloc)?,
            }),
            Stmt::Print { line, items } => Ok(Stmt::Print {
                line: *line,
                items: copy_items(items, alloc)?,
            }),
            Stmt::Allocate {
                line,
                name,
                extents,
            } => Ok(Stmt::Allocate {
                line: *line,
                name: *name,
                extents: copy_all(extents, alloc)?,
            }),
            Stmt::Deallocate { line, name } => Ok(Stmt::Deallocate {
                line: *line,
                name: *name,
            }),
        }
    }
}
