//! Blocks, as they are put together from the last statement of a program back to the first.
ghost use Rattle.std.specs.Prelude.{◌≡◌, ℕ, [], ◌++◌, ◌∷◌, None, map, IfOk, OnOk};
ghost use Rattle.tree.specs.View.{expression_of, block_of, statement_of};
ghost use Rattle.tree.specs.Plain as plain;
ghost use Rattle.f77_laws.specs.trees.Steps as steps;
ghost use Rattle.f77_grammar.specs.program.Text.{is_label};
ghost use Rattle.f77_tree.specs.Rests.{piece_of, pieces_in, made_by, later_arms, rest_of, heading_of};

use std::alloc::Global;
use tree::{Arm, Block, Expr, Memory, Name, Seq, Stmt};

/// What a simple statement, a whole block IF or a whole loop has become, with the label that ends it.
#[derive(Drop)]
pub struct Piece {
    pub ends: Option<u32>,
    pub made: Vec<Stmt>,
}

/// A block IF whose first line is still to come: its later arms, the last one first; its ELSE part; and the pieces
/// after its
/// END IF, the last one first.
#[derive(Drop)]
pub struct OpenIf {
    later: Vec<Arm>,
    other: Block,
    after: Vec<Piece>,
}

/// What the statements from one on have become: the pieces of the block in which it stands, the last one first, and the
/// block IFs
/// round it, the innermost last.
#[derive(Drop)]
pub struct Rest {
    pieces: Vec<Piece>,
    ifs: Vec<OpenIf>,
}

/// The first line of a loop.
#[derive(Drop)]
pub struct Heading {
    pub line: u32,
    pub var: Name,
    pub first: Expr,
    pub last: Expr,
    pub step: Expr,
}

fn is_label(number: u32, label: Option<u32>) -> bool
    ensures { result ≡ is_label number label }
{
    match label {
        Some(label) => label == number,
        None => false,
    }
}

// The block of all these pieces.
fn whole(alloc: Global, pieces: Vec<Piece>) -> Result<Block, Memory>
    ensures { IfOk result (λ block. block_of block ≡ steps.block_of (pieces_in pieces.items)) }
{
    let mut pieces = pieces;
    let mut stmts = Vec::new(alloc);
    'pieces: while let Some(piece) = pieces.pop() {
        let Piece { ends: _, mut made } = piece;
        stmts.append(&mut made)?;
    }
    Ok(Block {
        stmts: Seq::from_vec(stmts),
    })
}

// The statements of the pieces up to the one that ends with the label, which are taken out.
fn take_loop(alloc: Global, pieces: &mut Vec<Piece>, label: u32) -> Result<Vec<Stmt>, Memory>
    ensures body { IfOk result (λ stmts.
        map statement_of stmts.items ≡ made_by (steps.up_to label (pieces_in pieces.old.items))) }
    ensures rest { OnOk result (pieces_in pieces.new.items ≡ steps.beyond label (pieces_in pieces.old.items)) }
{
    let mut stmts = Vec::new(alloc);
    'pieces: while let Some(piece) = pieces.pop() {
        let Piece { ends, mut made } = piece;
        stmts.append(&mut made)?;
        if is_label(label, ends) {
            return Ok(stmts);
        }
    }
    Ok(stmts)
}

impl OpenIf {
    // With the block of these pieces as an arm before its later ones.
    fn with_arm(self, alloc: Global, test: Expr, pieces: Vec<Piece>) -> Result<OpenIf, Memory>
        ensures arms { IfOk result (λ grown. later_arms grown
            ≡ plain.arm (expression_of test) (steps.block_of (pieces_in pieces.items)) (later_arms self)) }
        ensures other { IfOk result (λ grown. grown.other ≡ self.other) }
        ensures after { IfOk result (λ grown. grown.after.items ≡ self.after.items) }
    {
        let OpenIf {
            mut later,
            other,
            after,
        } = self;
        let body = whole(alloc, pieces)?;
        later.push(Arm { test, body })?;
        Ok(OpenIf {
            later,
            other,
            after,
        })
    }
}

impl Rest {
    /// Nothing comes after the last statement.
    pub fn new(alloc: Global) -> Rest
        ensures { rest_of result ≡ steps.Outermost [] }
    {
        Rest {
            pieces: Vec::new(alloc),
            ifs: Vec::new(alloc),
        }
    }

    /// With a piece before all that.
    pub fn precede(self, piece: Piece) -> Result<Rest, Memory>
        ensures { IfOk result (λ rest. rest_of rest ≡ steps.preceded (piece_of piece) (rest_of self)) }
    {
        let Rest { mut pieces, ifs } = self;
        pieces.push(piece)?;
        Ok(Rest { pieces, ifs })
    }

    /// At END IF.
    pub fn end_arm(self, alloc: Global) -> Result<Rest, Memory>
        ensures { IfOk result (λ rest. rest_of rest ≡ steps.arm_ended (rest_of self)) }
    {
        let Rest { pieces, mut ifs } = self;
        let other = Block {
            stmts: Seq::new(alloc),
        };
        ifs.push(OpenIf {
            later: Vec::new(alloc),
            other,
            after: pieces,
        })?;
        let pieces = Vec::new(alloc);
        Ok(Rest { pieces, ifs })
    }

    /// At ELSE: the block behind it is the ELSE part.
    pub fn begin_else(self, alloc: Global) -> Result<Rest, Memory>
        ensures { IfOk result (λ rest. rest_of rest ≡ steps.else_begun (rest_of self)) }
    {
        let Rest { pieces, mut ifs } = self;
        let Some(inner) = ifs.pop() else {
            return Ok(Rest { pieces, ifs });
        };
        let OpenIf {
            later,
            other: _,
            after,
        } = inner;
        let other = whole(alloc, pieces)?;
        ifs.push(OpenIf {
            later,
            other,
            after,
        })?;
        let pieces = Vec::new(alloc);
        Ok(Rest { pieces, ifs })
    }

    /// At ELSE IF: the block behind it is an arm.
    pub fn begin_arm(self, alloc: Global, test: Expr) -> Result<Rest, Memory>
        ensures { IfOk result (λ rest. rest_of rest ≡ steps.arm_begun (expression_of test) (rest_of self)) }
    {
        let Rest { pieces, mut ifs } = self;
        let Some(inner) = ifs.pop() else {
            return Ok(Rest { pieces, ifs });
        };
        let grown = inner.with_arm(alloc, test, pieces)?;
        ifs.push(grown)?;
        let pieces = Vec::new(alloc);
        Ok(Rest { pieces, ifs })
    }

    /// At the first line of a block IF, with what stands before it: the block behind it is the first arm, and the block
    /// IF is whole.
    pub fn begin_if(
        self,
        alloc: Global,
        line: u32,
        mark: Vec<Stmt>,
        test: Expr,
    ) -> Result<Rest, Memory>
        ensures { IfOk result (λ rest.
            rest_of rest ≡ steps.if_begun line (map statement_of mark.items) (expression_of test) (rest_of self)) }
    {
        let Rest { pieces, mut ifs } = self;
        let Some(inner) = ifs.pop() else {
            return Ok(Rest { pieces, ifs });
        };
        let grown = inner.with_arm(alloc, test, pieces)?;
        let OpenIf {
            mut later,
            other,
            after,
        } = grown;
        later.reverse();
        let mut made = mark;
        made.push(Stmt::If {
            line,
            arms: Seq::from_vec(later),
            other,
        })?;
        let outer = Rest { pieces: after, ifs };
        outer.precede(Piece { ends: None, made })
    }

    /// At a DO, with what stands before it: the pieces behind it, up to the one with its label, are its loop.
    pub fn begin_loop(
        self,
        alloc: Global,
        label: u32,
        mark: Vec<Stmt>,
        heading: Heading,
    ) -> Result<Rest, Memory>
        ensures { IfOk result (λ rest.
            rest_of rest ≡ steps.loop_begun (heading_of heading) (map statement_of mark.items) label (rest_of self)) }
    {
        let Rest { mut pieces, ifs } = self;
        let stmts = take_loop(alloc, &mut pieces, label)?;
        let Heading {
            line,
            var,
            first,
            last,
            step,
        } = heading;
        let body = Block {
            stmts: Seq::from_vec(stmts),
        };
        let mut made = mark;
        made.push(Stmt::Do {
            line,
            var,
            first,
            last,
            step,
            body,
        })?;
        pieces.push(Piece {
            ends: Some(label),
            made,
        })?;
        Ok(Rest { pieces, ifs })
    }

    /// The block of all that.
    pub fn finish(self, alloc: Global) -> Result<Block, Memory>
        ensures { IfOk result (λ block. block_of block ≡ steps.outermost_block (rest_of self)) }
    {
        let Rest { pieces, ifs: _ } = self;
        whole(alloc, pieces)
    }
}
