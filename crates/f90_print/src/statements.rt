//! Statements and blocks, each statement on its lines (ISO/IEC 1539:1991, section 8.1).
ghost use Rattle.std.specs.Prelude.{◌≡◌, ◌++◌, OnOk, map, flat_map};
ghost use Rattle.tree.specs.View.{statement_of, tested_of, block_of};
ghost use Rattle.f90_print.specs.Texts.{statement_text, block_text, arm_text, else_text};

use crate::forms::{
    print_allocate, print_assignment, print_continue, print_deallocate, print_do, print_else_if,
    print_go_to, print_if_then, print_mark, print_print, print_read, print_where,
};
use crate::texts::push;
use tree::{Arm, Block, Memory, Stmt};

#[cycle(stmt)]
#[tactic(auto, using(crate::proofs::StatementTexts::statement_texts))]
fn print_statement(out: &mut Vec<u8>, line: &mut Vec<u8>, statement: &Stmt) -> Result<(), Memory>
    ensures { OnOk result (out.new.items ≡ out.old.items ++ statement_text (statement_of statement.now)) }
{
    match statement {
        Stmt::Assign {
            mark,
            left,
            right,
            ..
        } => {
            print_mark(out, *mark)?;
            print_assignment(out, line, left, right)
        }
        Stmt::Masked {
            mark,
            mask,
            left,
            right,
            ..
        } => {
            print_mark(out, *mark)?;
            print_where(out, line, mask, left, right)
        }
        Stmt::If { arms, other, .. } => {
            let Some((first, rest)) = arms.as_slice().split_first() else {
                return Ok(());
            };
            print_if_then(out, line, &first.test)?;
            print_block(out, line, &first.body)?;
            print_arms(out, line, rest)?;
            print_else(out, line, other)?;
            push(out, b"END IF\n")
        }
        Stmt::Do {
            var,
            first,
            last,
            step,
            body,
            ..
        } => {
            print_do(out, line, *var, first, last, step)?;
            print_block(out, line, body)?;
            push(out, b"END DO\n")
        }
        Stmt::Label { number } => print_continue(out, line, *number),
        Stmt::Go { number, .. } => print_go_to(out, line, *number),
        Stmt::Stop { .. } => push(out, b"STOP\n"),
        Stmt::Read { items, .. } => print_read(out, line, items.as_slice()),
        Stmt::Print { items, .. } => print_print(out, line, items.as_slice()),
        Stmt::Allocate { name, extents, .. } => {
            print_allocate(out, line, *name, extents.as_slice())
        }
        Stmt::Deallocate { name, .. } => print_deallocate(out, line, *name),
    }
}

#[cycle(stmt)]
#[tactic(auto, using(crate::proofs::StatementTexts::statement_texts))]
pub(crate) fn print_block(
    out: &mut Vec<u8>,
    line: &mut Vec<u8>,
    block: &Block,
) -> Result<(), Memory>
    ensures { OnOk result (out.new.items ≡ out.old.items ++ block_text (block_of block.now)) }
{
    for statement in block.stmts.as_slice() {
        print_statement(out, line, statement)?;
    }
    Ok(())
}

// The arms of an IF but its first one.
#[cycle(stmt)]
#[tactic(auto, using(crate::proofs::StatementTexts::statement_texts))]
fn print_arms(out: &mut Vec<u8>, line: &mut Vec<u8>, arms: &[Arm]) -> Result<(), Memory>
    ensures { OnOk result (out.new.items ≡ out.old.items ++ flat_map arm_text (map tested_of arms.now)) }
{
    for arm in arms {
        print_else_if(out, line, &arm.test)?;
        print_block(out, line, &arm.body)?;
    }
    Ok(())
}

// An ELSE part without statements isn't written.
#[cycle(stmt)]
#[tactic(auto, using(crate::proofs::StatementTexts::statement_texts))]
fn print_else(out: &mut Vec<u8>, line: &mut Vec<u8>, other: &Block) -> Result<(), Memory>
    ensures { OnOk result (out.new.items ≡ out.old.items ++ else_text (block_of other.now)) }
{
    if other.stmts.is_empty() {
        return Ok(());
    }
    push(out, b"ELSE\n")?;
    print_block(out, line, other)
}
