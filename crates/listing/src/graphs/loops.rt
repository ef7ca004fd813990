//! The lines of loops.
ghost use Rattle.std.specs.Prelude.{◌≡◌, ◌++◌, IfOk, OnOk, map};
ghost use Rattle.std.specs.List.{flat_map};
ghost use Rattle.f90_print.specs.Notes.{line_text};
ghost use Rattle.nest.specs.View.{branch_of, loop_of, part_of};
ghost use Rattle.listing.specs.graphs.Lines.{entry_text};
ghost use Rattle.listing.specs.graphs.Listing.{lines_of_entries, lines_of_entry};
ghost use Rattle.listing.specs.graphs.Listing.{loop_entries, loop_entries_of, loop_entry};

use crate::graphs::pieces::ListingLines;
use crate::graphs::texts::{push, push_count};
use f90_print::print_expr;
use nest::{Loop, NestArm, Part};
use std::alloc::Global;
use tree::{Memory, Seq};

#[tactic(auto, unfolding(crate::specs::graphs::Lines::entry_text))]
fn loop_text(alloc: Global, outer: u32, turns: &Loop) -> Result<Vec<u8>, Memory>
    ensures { IfOk result (λ text. text.items ≡ entry_text (loop_entry outer (loop_of turns.now))) }
{
    let mut text = Vec::from_slice(alloc, b"LOOP ")?;
    push_count(&mut text, turns.number as usize)?;
    push(&mut text, b" ")?;
    push(&mut text, turns.var.text())?;
    push(&mut text, b" TRIP ")?;
    push(&mut text, print_expr(alloc, &turns.last)?.as_slice())?;
    push(&mut text, b" IN ")?;
    push_count(&mut text, outer as usize)?;
    Ok(text)
}

impl ListingLines {
    fn add_loop(&mut self, alloc: Global, outer: u32, turns: &Loop) -> Result<(), Memory>
        ensures { OnOk result (map line_text self.new.list ≡ map line_text self.old.list
            ++ lines_of_entry (loop_entry outer (loop_of turns.now))) }
    {
        self.add(alloc, loop_text(alloc, outer, turns)?.as_slice())
    }

    // The loops of a part that stands in the loop with this number, or in none with 0.
    #[cycle(loops)]
    #[tactic(auto, using(crate::proofs::graphs::LoopLines::loop_laws))]
    pub(crate) fn add_loops(&mut self, alloc: Global, outer: u32, part: &Part) -> Result<(), Memory>
        ensures { OnOk result (map line_text self.new.list ≡ map line_text self.old.list
            ++ lines_of_entries (loop_entries outer (part_of part.now))) }
    {
        match part {
            Part::Run(_) => Ok(()),
            Part::Turns(turns, body) => {
                self.add_loop(alloc, outer, turns)?;
                self.add_loops_in(alloc, turns.number, body)
            }
            Part::Choice(arms, other) => {
                self.add_loops_under(alloc, outer, arms)?;
                self.add_loops_in(alloc, outer, other)
            }
            Part::Label(_) => Ok(()),
            Part::Jump(_) => Ok(()),
        }
    }

    #[cycle(loops)]
    fn add_loops_in(&mut self, alloc: Global, outer: u32, parts: &Seq<Part>) -> Result<(), Memory>
        ensures { OnOk result (map line_text self.new.list ≡ map line_text self.old.list
            ++ flat_map (λ p. lines_of_entries (loop_entries outer p)) (map part_of parts.now)) }
    {
        for part in parts.as_slice() {
            self.add_loops(alloc, outer, part)?;
        }
        Ok(())
    }

    #[cycle(loops)]
    #[tactic(auto, using(crate::proofs::graphs::LoopLines::loop_laws))]
    fn add_loops_of(&mut self, alloc: Global, outer: u32, arm: &NestArm) -> Result<(), Memory>
        ensures { OnOk result (map line_text self.new.list ≡ map line_text self.old.list
            ++ lines_of_entries (loop_entries_of outer (branch_of arm.now))) }
    {
        self.add_loops_in(alloc, outer, &arm.body)
    }

    #[cycle(loops)]
    fn add_loops_under(
        &mut self,
        alloc: Global,
        outer: u32,
        arms: &Seq<NestArm>,
    ) -> Result<(), Memory>
        ensures { OnOk result (map line_text self.new.list ≡ map line_text self.old.list
            ++ flat_map (λ b. lines_of_entries (loop_entries_of outer b)) (map branch_of arms.now)) }
    {
        for arm in arms.as_slice() {
            self.add_loops_of(alloc, outer, arm)?;
        }
        Ok(())
    }
}
