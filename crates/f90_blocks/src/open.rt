//! Blocks, as they are put together from the last statement of a program back to the first.
ghost use Rattle.std.specs.Prelude.{◌≡◌, List, [], ◌∷◌, ◌++◌, IfOk, MatchOption};
ghost use Rattle.tree.specs.Plain as plain;
ghost use Rattle.tree.specs.Plain.{Arms, Block as PlainBlock};
ghost use Rattle.tree.specs.View.{expression_of, statement_of, block_of};
ghost use Rattle.f90_blocks.specs.declared.open.Open.TheVariants as opens;
ghost use Rattle.f90_blocks.specs.Rests.{Ended, EndedIf, EndedDo, IsNotInIf, Shows, block_seen, opens_seen};

use std::alloc::Global;
use tree::{Arm, Block, Expr, Memory, Name, Seq, Stmt};

/// A block whose end has been read and whose first line is still to come, with the statements behind its end, the last
/// one first. A block IF has its later arms, the last one first, and its ELSE part.
#[derive(Drop)]
pub enum Open {
    If {
        later: Vec<Arm>,
        other: Block,
        behind: Vec<Stmt>,
    },
    Do {
        behind: Vec<Stmt>,
    },
}

/// What the statements from one on have become: those of the block in which it stands, the last one first, and the
/// blocks round it, the innermost last.
#[derive(Drop)]
pub struct Rest {
    stmts: Vec<Stmt>,
    opened: Vec<Open>,
}

// The block of statements of which the last one stands first.
fn turned(stmts: Vec<Stmt>) -> Block
    ensures { block_of result ≡ block_seen stmts.items }
{
    let mut stmts = stmts;
    stmts.reverse();
    Block {
        stmts: Seq::from_vec(stmts),
    }
}

// Takes out the innermost block that is open, a block IF: its later arms, its ELSE part and what is behind its end.
fn take_if(opened: &mut Vec<Open>) -> Option<(Vec<Arm>, Block, Vec<Stmt>)>
    ensures { MatchOption result (IsNotInIf opened.old.items)
        (λ taken. opened.old.items ≡ opened.new.items ++ opens.If taken.0 taken.1 taken.2 ∷ []) }
{
    match opened.pop()? {
        Open::If {
            later,
            other,
            behind,
        } => Some((later, other, behind)),
        Open::Do { .. } => None,
    }
}

impl Rest {
    /// Nothing comes after the last statement.
    pub fn new(alloc: Global) -> Rest
        ensures { Shows result plain.no_statements [] }
    {
        Rest {
            stmts: Vec::new(alloc),
            opened: Vec::new(alloc),
        }
    }

    /// With a statement before all that.
    pub fn precede(self, stmt: Stmt) -> Result<Rest, Memory>
        ensures { IfOk result (λ rest. Shows rest
            (plain.statement (statement_of stmt) (block_seen self.stmts.items)) (opens_seen self.opened.items)) }
    {
        let Rest { mut stmts, opened } = self;
        stmts.push(stmt)?;
        Ok(Rest { stmts, opened })
    }

    /// At END IF.
    pub fn end_if(self, alloc: Global) -> Result<Rest, Memory>
        ensures { IfOk result (λ rest. Shows rest plain.no_statements
            (EndedIf plain.no_arms plain.no_statements (block_seen self.stmts.items) ∷ opens_seen self.opened.items)) }
    {
        let Rest {
            stmts: behind,
            mut opened,
        } = self;
        let later = Vec::new(alloc);
        let other = turned(Vec::new(alloc));
        opened.push(Open::If {
            later,
            other,
            behind,
        })?;
        let stmts = Vec::new(alloc);
        Ok(Rest { stmts, opened })
    }

    /// At END DO.
    pub fn end_do(self, alloc: Global) -> Result<Rest, Memory>
        ensures { IfOk result (λ rest. Shows rest plain.no_statements
            (EndedDo (block_seen self.stmts.items) ∷ opens_seen self.opened.items)) }
    {
        let Rest {
            stmts: behind,
            mut opened,
        } = self;
        opened.push(Open::Do { behind })?;
        let stmts = Vec::new(alloc);
        Ok(Rest { stmts, opened })
    }

    /// At ELSE: the block so far is the ELSE part.
    pub fn begin_else(self, alloc: Global) -> Result<Rest, Memory>
        ensures { (later : Arms) (other behind : PlainBlock) (es : List Ended)
            → opens_seen self.opened.items ≡ EndedIf later other behind ∷ es
            → IfOk result (λ rest. Shows rest plain.no_statements
            (EndedIf later (block_seen self.stmts.items) behind ∷ es)) }
    {
        let Rest { stmts, mut opened } = self;
        let Some((later, _, behind)) = take_if(&mut opened) else {
            return Ok(Rest { stmts, opened });
        };
        let other = turned(stmts);
        opened.push(Open::If {
            later,
            other,
            behind,
        })?;
        let stmts = Vec::new(alloc);
        Ok(Rest { stmts, opened })
    }

    /// At ELSE IF: the block so far is an arm.
    pub fn begin_arm(self, alloc: Global, test: Expr) -> Result<Rest, Memory>
        ensures { (later : Arms) (other behind : PlainBlock) (es : List Ended)
            → opens_seen self.opened.items ≡ EndedIf later other behind ∷ es
            → IfOk result (λ rest. Shows rest plain.no_statements
            (EndedIf (plain.arm (expression_of test) (block_seen self.stmts.items) later) other behind ∷ es)) }
    {
        let Rest { stmts, mut opened } = self;
        let Some((mut later, other, behind)) = take_if(&mut opened) else {
            return Ok(Rest { stmts, opened });
        };
        let body = turned(stmts);
        later.push(Arm { test, body })?;
        opened.push(Open::If {
            later,
            other,
            behind,
        })?;
        let stmts = Vec::new(alloc);
        Ok(Rest { stmts, opened })
    }

    /// At the first line of a block IF: the block so far is its first arm, and it is whole.
    pub fn begin_if(self, line: u32, test: Expr) -> Result<Rest, Memory>
        ensures { (later : Arms) (other behind : PlainBlock) (es : List Ended)
            → opens_seen self.opened.items ≡ EndedIf later other behind ∷ es
            → IfOk result (λ rest. Shows rest (plain.statement
            (plain.If line (plain.arm (expression_of test) (block_seen self.stmts.items) later) other) behind) es) }
    {
        let Rest { stmts, mut opened } = self;
        let Some((mut later, other, behind)) = take_if(&mut opened) else {
            return Ok(Rest { stmts, opened });
        };
        let body = turned(stmts);
        later.push(Arm { test, body })?;
        later.reverse();
        let arms = Seq::from_vec(later);
        let mut stmts = behind;
        stmts.push(Stmt::If { line, arms, other })?;
        Ok(Rest { stmts, opened })
    }

    /// At DO: the block so far is the loop's, which is whole.
    pub fn begin_do(
        self,
        line: u32,
        var: Name,
        first: Expr,
        last: Expr,
        step: Expr,
    ) -> Result<Rest, Memory>
        ensures { (behind : PlainBlock) (es : List Ended) → opens_seen self.opened.items ≡ EndedDo behind ∷ es
            → IfOk result (λ rest. Shows rest (plain.statement
            (plain.Do line var (expression_of first) (expression_of last) (expression_of step)
            (block_seen self.stmts.items)) behind) es) }
    {
        let Rest { stmts, mut opened } = self;
        let Some(ended) = opened.pop() else {
            return Ok(Rest { stmts, opened });
        };
        let Open::Do { behind } = ended else {
            return Ok(Rest { stmts, opened });
        };
        let body = turned(stmts);
        let mut stmts = behind;
        stmts.push(Stmt::Do {
            line,
            var,
            first,
            last,
            step,
            body,
        })?;
        Ok(Rest { stmts, opened })
    }

    /// The block of all that.
    pub fn finish(self) -> Block
        ensures { block_of result ≡ block_seen self.stmts.items }
    {
        let Rest { stmts, opened: _ } = self;
        turned(stmts)
    }
}
