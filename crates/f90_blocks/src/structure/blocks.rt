//! The blocks round each statement.
ghost use Rattle.std.specs.Prelude.{◌≡◌, ◌∷◌, [], ◌&&◌, List, IsTrue, IfOk, OnOk, length, map, nat_le};
ghost use Rattle.tree.specs.Limits as limits;
ghost use Rattle.f90_grammar.specs.Blocks as grammar;
ghost use Rattle.f90_grammar.specs.Bounds.{opens_block90};
ghost use Rattle.f90_grammar.specs.Forms.{Form90};
ghost use Rattle.f90_grammar.specs.Order as order;
ghost use Rattle.f90_grammar.specs.Order.{Place90, opened_by, blocks_round, closes_wrongly};
ghost use Rattle.f90_blocks.specs.places.forms.Places.{IsPlacedOf};
ghost use Rattle.f90_blocks.specs.places.First.{FindsFirst};
ghost use Rattle.f90_statement.specs.Views.{AreOf, IsStatementOf};
ghost use Rattle.f90_blocks.specs.structure.Blocks.{kinds, kind_of, first_of, rest_of, with_else, AreOpen};

use crate::places::forms::Placed;
use f90_statement::Statement;
use std::alloc::Global;
use tree::{BLOCK_DEPTH_90, Memory};

/// What a statement can stand in: a block IF that has had no ELSE, one that has had its ELSE, a loop.
#[derive(Clone, Copy, Debug)]
enum Opened {
    If,
    Else,
    Do,
}

/// The blocks round a place, the innermost last.
#[derive(Drop)]
struct Blocks {
    open: Vec<Opened>,
}

impl Blocks {
    fn new(alloc: Global) -> Blocks
        ensures { kinds result ≡ [] }
    {
        Blocks {
            open: Vec::new(alloc),
        }
    }

    fn innermost(&self) -> Option<Opened>
        ensures { result ≡ first_of (kinds self.now) }
    {
        self.open.last().copied()
    }

    fn depth(&self) -> usize
        ensures { result ≡ length (kinds self.now) }
    {
        self.open.len()
    }

    fn open(&mut self, block: Opened) -> Result<(), Memory>
        ensures { OnOk result (kinds self.new ≡ block ∷ kinds self.old) }
    {
        self.open.push(block)?;
        Ok(())
    }

    fn close(&mut self)
        ensures { kinds self.new ≡ rest_of (kinds self.old) }
    {
        self.open.pop();
    }

    fn begin_else(&mut self) -> Result<(), Memory>
        ensures { OnOk result (kinds self.new ≡ with_else (kinds self.old)) }
    {
        if let Some(Opened::If) = self.innermost() {
            self.close();
            return self.open(Opened::Else);
        }
        Ok(())
    }

    /// The blocks behind the statement.
    fn pass(&mut self, statement: &Statement) -> Result<(), Memory>
        ensures { OnOk result ((f : Form90) (os : List order.Opened) → IsStatementOf statement.now f
            → AreOpen self.old os → AreOpen self.new (opened_by f os)) }
    {
        match statement {
            Statement::If(_) => self.open(Opened::If),
            Statement::Do(_, _) => self.open(Opened::Do),
            Statement::Else => self.begin_else(),
            Statement::EndIf | Statement::EndDo => {
                self.close();
                Ok(())
            }
            _ => Ok(()),
        }
    }

    /// An END IF, ELSE IF or ELSE doesn't stand in its block IF, or an END DO in its loop.
    fn are_closed_wrongly(&self, statement: &Statement) -> bool
        ensures { (f : Form90) (os : List order.Opened) → IsStatementOf statement.now f → AreOpen self.now os
            → result ≡ closes_wrongly f os }
    {
        closes_wrongly(statement, self.innermost())
    }

    /// The statement opens a block in as many as there may be.
    fn are_too_many(&self, statement: &Statement) -> bool
        ensures { (f : Form90) (os : List order.Opened) → IsStatementOf statement.now f → AreOpen self.now os
            → result ≡ (opens_block90 f && nat_le limits.block_depth90 (length os)) }
    {
        opens_block(statement) && self.depth() >= BLOCK_DEPTH_90
    }
}

fn closes_wrongly(statement: &Statement, innermost: Option<Opened>) -> bool
    ensures { (f : Form90) (os : List order.Opened) → IsStatementOf statement.now f
        → innermost ≡ first_of (map kind_of os) → result ≡ closes_wrongly f os }
{
    match statement {
        Statement::EndIf => !matches!(innermost, Some(Opened::If) | Some(Opened::Else)),
        Statement::ElseIf(_) | Statement::Else => !matches!(innermost, Some(Opened::If)),
        Statement::EndDo => !matches!(innermost, Some(Opened::Do)),
        _ => false,
    }
}

fn opens_block(statement: &Statement) -> bool
    ensures { (f : Form90) → IsStatementOf statement.now f → result ≡ opens_block90 f }
{
    match statement {
        Statement::If(_) => true,
        Statement::Test(_, _) => true,
        Statement::Do(_, _) => true,
        _ => false,
    }
}

/// The first statement that closes a block wrongly.
pub fn first_wrong_closer(alloc: Global, text: &[Placed]) -> Result<Option<usize>, Memory>
    ensures { (ps : List grammar.Placed) → AreOf IsPlacedOf text.now ps
        → IfOk result (λ found. FindsFirst ps (λ (p : Place90). IsTrue (closes_wrongly p.here.form (blocks_round p)))
        found) }
{
    let mut blocks = Blocks::new(alloc);
    for (i, placed) in text.iter().enumerate() {
        if blocks.are_closed_wrongly(&placed.statement) {
            return Ok(Some(i));
        }
        blocks.pass(&placed.statement)?;
    }
    Ok(None)
}

/// The first statement that opens a block in as many as there may be.
pub fn first_deep_block(alloc: Global, text: &[Placed]) -> Result<Option<usize>, Memory>
    ensures { (ps : List grammar.Placed) → AreOf IsPlacedOf text.now ps
        → IfOk result (λ found. FindsFirst ps (λ (p : Place90). IsTrue (opens_block90 p.here.form
        && nat_le limits.block_depth90 (length (blocks_round p)))) found) }
{
    let mut blocks = Blocks::new(alloc);
    for (i, placed) in text.iter().enumerate() {
        if blocks.are_too_many(&placed.statement) {
            return Ok(Some(i));
        }
        blocks.pass(&placed.statement)?;
    }
    Ok(None)
}
