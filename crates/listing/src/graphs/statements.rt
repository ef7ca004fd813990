//! The lines of statements.
ghost use Rattle.std.specs.Prelude.{◌≡◌, ◌++◌, IfOk, OnOk, map};
ghost use Rattle.f90_print.specs.Notes.{line_text};
ghost use Rattle.nest.specs.View.{loop_of};
ghost use Rattle.nest.specs.statement_loops.Standings.{standing_of};
ghost use Rattle.listing.specs.graphs.Lines.{entry_text};
ghost use Rattle.listing.specs.graphs.Listing.{lines_of_entries, loop_numbers, statement_entries, statement_entry};

use crate::graphs::pieces::ListingLines;
use crate::graphs::texts::{push, push_statement, push_tuple};
use f90_print::print_assign;
use nest::Loop;
use nest::statement_loops::Standing;
use std::alloc::Global;
use tree::{Memory, Seq};

fn loop_numbers(alloc: Global, loops: &Seq<Loop>) -> Result<Seq<u32>, Memory>
    ensures { IfOk result (λ numbers. numbers ≡ loop_numbers (map loop_of loops.now)) }
{
    let mut numbers = Seq::new(alloc);
    for turns in loops.as_slice() {
        numbers.push(turns.number)?;
    }
    Ok(numbers)
}

#[tactic(auto, unfolding(crate::specs::graphs::Lines::entry_text))]
fn statement_text(alloc: Global, s: usize, standing: &Standing) -> Result<Vec<u8>, Memory>
    ensures { IfOk result (λ text. text.items ≡ entry_text (statement_entry s (standing_of standing.now))) }
{
    let stmt = &standing.stmt;
    let loops = loop_numbers(alloc, &standing.loops)?;
    let assignment = print_assign(alloc, stmt.guard.as_ref(), &stmt.left, &stmt.right)?;
    let mut text = Vec::from_slice(alloc, b"STMT ")?;
    push_statement(&mut text, s)?;
    push(&mut text, b" ")?;
    push_tuple(&mut text, loops.as_slice())?;
    push(&mut text, b" ")?;
    push(&mut text, assignment.as_slice())?;
    Ok(text)
}

impl ListingLines {
    // The statements, by their numbers from 1.
    pub(crate) fn add_statements(
        &mut self,
        alloc: Global,
        standings: &Seq<Standing>,
    ) -> Result<(), Memory>
        ensures { OnOk result (map line_text self.new.list ≡ map line_text self.old.list
            ++ lines_of_entries (statement_entries 1 (map standing_of standings.now))) }
    {
        for (i, standing) in standings.as_slice().iter().enumerate() {
            self.add(alloc, statement_text(alloc, i + 1, standing)?.as_slice())?;
        }
        Ok(())
    }
}
