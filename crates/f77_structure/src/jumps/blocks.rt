//! How deep blocks stand in one another: block IFs, logical IFs and loops.
ghost use Rattle.std.specs.Prelude.{◌≡◌, ◌+◌, ◌<◌, ◌^◌, nat_le, ◌&&◌, [], length, OnOk, IfOk};
ghost use Rattle.std.specs.List.{filter};
ghost use Rattle.tree.specs.Limits.{block_depth77};
ghost use Rattle.f77_grammar.specs.program.Limits.{has_many_blocks};
ghost use Rattle.f77_grammar.specs.syntax.First.{first_index};
ghost use Rattle.f77_grammar.specs.syntax.Views.{text_of};
ghost use Rattle.f77_structure.specs.LabelPlaces.{AreEndsIn};
ghost use Rattle.f77_structure.specs.jumps.Blocks.{opens_form, depth_with, with_end};

use crate::{Form, LabelPlaces, place_under};
use f77_grammar::syntax::Labelled;
use std::alloc::Global;
use tree::{BLOCK_DEPTH_77, Memory};

// The blocks that are open: the number of block IFs, and for each loop the place of its last statement. They are few,
// since the search ends where too many would be open.
#[derive(Drop)]
struct OpenBlocks {
    ifs: usize,
    loop_ends: Vec<usize>,
}

impl OpenBlocks {
    fn new(alloc: Global) -> OpenBlocks
        ensures ifs { result.ifs ≡ 0 }
        ensures loops { result.loop_ends.items ≡ [] }
    {
        OpenBlocks {
            ifs: 0,
            loop_ends: Vec::new(alloc),
        }
    }

    // Takes out the loops that end before the statement behind `before` others.
    fn drop_ended(&mut self, before: usize)
        ensures ifs { self.new.ifs ≡ self.old.ifs }
        ensures loops { self.new.loop_ends.items ≡ filter (nat_le before) self.old.loop_ends.items }
    {
        self.loop_ends.retain(|end| before <= *end);
    }

    // A statement of this form opens one more, where no more may be opened.
    fn refuses(&self, form: Form) -> bool
        requires { self.now.ifs + length self.now.loop_ends.items < 2 ^ 64 }
        ensures { result ≡ (opens_form form && nat_le block_depth77 (self.now.ifs + length self.now.loop_ends.items)) }
    {
        opens_block(form) && BLOCK_DEPTH_77 <= self.ifs + self.loop_ends.len()
    }

    // What is open behind a statement of this form; a DO's loop ends at `end`.
    fn pass(&mut self, form: Form, end: Option<usize>) -> Result<(), Memory>
        requires { self.old.ifs + 1 < 2 ^ 64 }
        ensures ifs { OnOk result (self.new.ifs ≡ depth_with form self.old.ifs) }
        ensures loops { OnOk result (self.new.loop_ends.items ≡ with_end self.old.loop_ends.items end) }
    {
        self.ifs = ifs_behind(form, self.ifs);
        if let Some(end) = end {
            self.loop_ends.push(end)?;
        }
        Ok(())
    }
}

// How many block IFs are open behind a statement, where so many were open before it.
fn ifs_behind(form: Form, before: usize) -> usize
    requires { before + 1 < 2 ^ 64 }
    ensures { result ≡ depth_with form before }
{
    match form {
        Form::If => before + 1,
        Form::EndIf => before.saturating_sub(1),
        Form::Title | Form::ImplicitNone | Form::Declaration | Form::Action | Form::Go(_) => before,
        Form::Stop | Form::LogicalIf | Form::ElseIf | Form::Else | Form::Do(_) => before,
        Form::EndDo | Form::End => before,
    }
}

// A statement of this form is a block IF or a logical IF, or begins a loop.
fn opens_block(form: Form) -> bool
    ensures { result ≡ opens_form form }
{
    match form {
        Form::LogicalIf | Form::If | Form::Do(_) => true,
        Form::Title | Form::ImplicitNone | Form::Declaration | Form::Action | Form::Go(_) => false,
        Form::Stop | Form::ElseIf | Form::Else | Form::EndIf | Form::EndDo | Form::End => false,
    }
}

/// The place of the first statement that opens a block within a hundred others.
pub fn many_blocks(
    alloc: Global,
    text: &[Labelled],
    ends: &LabelPlaces,
) -> Result<Option<usize>, Memory>
    requires { AreEndsIn ends.now (text_of text.now) }
    ensures { IfOk result (λ place. place ≡ first_index has_many_blocks (text_of text.now)) }
{
    let mut open_blocks = OpenBlocks::new(alloc);
    for (i, statement) in text.iter().enumerate() {
        let form = Form::of(&statement.statement);
        open_blocks.drop_ended(i);
        if open_blocks.refuses(form) {
            return Ok(Some(i));
        }
        open_blocks.pass(form, place_under(form.begun(), ends))?;
    }
    Ok(None)
}
