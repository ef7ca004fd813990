//! Names in statements and in input and output lists, in the order of the text.
ghost use Rattle.std.specs.Prelude.{◌≡◌, ◌++◌, map, OnOk};
ghost use Rattle.std.specs.List.{flat_map};
ghost use Rattle.meaning.specs.Reads.{names_in_block, names_in_item, names_in_statement};
ghost use Rattle.tree.specs.View.{item_of, statement_of, tested_of, block_of};
ghost use Rattle.rewrite.specs.NamesAlong.{names_in_arm};

use crate::uses::{Uses, Way};
use tree::{Arm, Block, Item, Memory, Seq, Stmt};

#[cycle(items)]
#[tactic(auto, using(crate::proofs::StatementNameLaws::item_names))]
fn add_item(uses: &mut Uses, item: &Item) -> Result<(), Memory>
    ensures { OnOk result (uses.new.names ≡ uses.old.names ++ names_in_item (item_of item.now)) }
{
    match item {
        Item::One(expr) => uses.add_expr(expr),
        Item::Text(_) => Ok(()),
        Item::Turns(list, variable, first, last, step) => {
            uses.add_control(*variable, first, last, step)?;
            add_items(uses, list)
        }
    }
}

#[cycle(items)]
fn add_items(uses: &mut Uses, list: &Seq<Item>) -> Result<(), Memory>
    ensures { OnOk result (uses.new.names ≡ uses.old.names ++ flat_map names_in_item (map item_of list.now)) }
{
    for item in list.as_slice() {
        add_item(uses, item)?;
    }
    Ok(())
}

#[cycle(statements)]
#[tactic(auto, using(crate::proofs::StatementNameLaws::statement_names))]
fn add_statement(uses: &mut Uses, stmt: &Stmt) -> Result<(), Memory>
    ensures { OnOk result (uses.new.names ≡ uses.old.names ++ names_in_statement (statement_of stmt.now)) }
{
    match stmt {
        Stmt::Assign { left, right, .. } => {
            uses.add_target(left)?;
            uses.add_expr(right)
        }
        Stmt::Masked {
            mask,
            left,
            right,
            ..
        } => {
            uses.note(left.name, Way::Writes)?;
            uses.add_expr(mask)?;
            uses.add_subs(&left.subs)?;
            uses.add_expr(right)
        }
        Stmt::If { arms, other, .. } => {
            add_arms(uses, arms)?;
            add_block_names(uses, other)
        }
        Stmt::Do {
            var,
            first,
            last,
            step,
            body,
            ..
        } => {
            uses.add_control(*var, first, last, step)?;
            add_block_names(uses, body)
        }
        Stmt::Label { .. } => Ok(()),
        Stmt::Go { .. } => Ok(()),
        Stmt::Stop { .. } => Ok(()),
        Stmt::Read { items, .. } => add_items(uses, items),
        Stmt::Print { items, .. } => add_items(uses, items),
        Stmt::Allocate { name, extents, .. } => {
            uses.note(*name, Way::Writes)?;
            uses.add_exprs(extents)
        }
        Stmt::Deallocate { name, .. } => uses.note(*name, Way::Writes),
    }
}

#[cycle(statements)]
#[tactic(auto, using(crate::proofs::StatementNameLaws::statement_names))]
fn add_arm(uses: &mut Uses, arm: &Arm) -> Result<(), Memory>
    ensures { OnOk result (uses.new.names ≡ uses.old.names ++ names_in_arm (tested_of arm.now)) }
{
    uses.add_expr(&arm.test)?;
    add_block_names(uses, &arm.body)
}

#[cycle(statements)]
fn add_arms(uses: &mut Uses, arms: &Seq<Arm>) -> Result<(), Memory>
    ensures { OnOk result (uses.new.names ≡ uses.old.names ++ flat_map names_in_arm (map tested_of arms.now)) }
{
    for arm in arms.as_slice() {
        add_arm(uses, arm)?;
    }
    Ok(())
}

#[cycle(statements)]
fn add_statements(uses: &mut Uses, stmts: &Seq<Stmt>) -> Result<(), Memory>
    ensures { OnOk result (uses.new.names ≡ uses.old.names
        ++ flat_map names_in_statement (map statement_of stmts.now)) }
{
    for stmt in stmts.as_slice() {
        add_statement(uses, stmt)?;
    }
    Ok(())
}

/// Adds the names that stand in a block.
#[cycle(statements)]
#[tactic(auto, using(crate::proofs::StatementNameLaws::block_names))]
pub fn add_block_names(uses: &mut Uses, block: &Block) -> Result<(), Memory>
    ensures { OnOk result (uses.new.names ≡ uses.old.names ++ names_in_block (block_of block.now)) }
{
    add_statements(uses, &block.stmts)
}
