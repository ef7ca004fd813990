//! DO variables that are wrong, or set in the range of their loop (ISO/IEC 1539:1991, sections 8.1.4.1 and 9.4.2).
ghost use Rattle.std.specs.Prelude.{◌≡◌, List, [], ◌∷◌, true, IfOk, OnOk, reverse};
ghost use Rattle.meaning.specs.Names.{is_among};
ghost use Rattle.f90_grammar.specs.Blocks as grammar;
ghost use Rattle.f90_grammar.specs.Forms.{Form90};
ghost use Rattle.f90_grammar.specs.Order.{Opened, InIf, InDo, opened_by};
ghost use Rattle.f90_blocks.specs.places.forms.Places.{IsPlacedOf};
ghost use Rattle.f90_blocks.specs.places.First.{FindsFirst};
ghost use Rattle.f90_statement.specs.Views.{AreOf, IsActionOf, IsStatementOf};
ghost use Rattle.f90_read.specs.surroundings.Lists.{scalar_in};
ghost use Rattle.f90_read.specs.surroundings.Misuses.{AreOpen, outside, misuses_form, misuses_at};

use crate::surroundings::listing::Surroundings;
use f90_blocks::places::forms::Placed;
use f90_names::kinds::declarations::Names;
use f90_statement::items::Direction;
use f90_statement::{Action, Statement};
use std::alloc::Global;
use tree::{Memory, Name};

impl<'a> Surroundings<'a> {
    // Something is wrong in the statement.
    fn misuses_action(&self, alloc: Global, action: &Action) -> Result<bool, Memory>
        ensures { (f : Form90) → IsActionOf action.now f → IfOk result (λ wrong. wrong
            ≡ misuses_form (scalar_in self.now.names.now) (is_among (reverse self.now.variables.now)) f) }
    {
        match action {
            Action::Assign(left, _) => Ok(self.stores_round(left, &[])),
            Action::Read(Some(list)) => self.misuses_list(alloc, Direction::Input, list),
            Action::Print(Some(list)) => self.misuses_list(alloc, Direction::Output, list),
            Action::Read(None) => Ok(false),
            Action::Print(None) => Ok(false),
            Action::Go(_) => Ok(false),
            Action::Continue => Ok(false),
            Action::Stop => Ok(false),
        }
    }

    // Something is wrong in the statement.
    fn misuses(&self, alloc: Global, statement: &Statement) -> Result<bool, Memory>
        ensures { (f : Form90) → IsStatementOf statement.now f → IfOk result (λ wrong. wrong
            ≡ misuses_form (scalar_in self.now.names.now) (is_among (reverse self.now.variables.now)) f) }
    {
        match statement {
            Statement::Act(action) => self.misuses_action(alloc, action),
            Statement::Test(_, action) => self.misuses_action(alloc, action),
            Statement::Where(_, left, _) => Ok(self.stores_round(left, &[])),
            Statement::Do(name, _) => Ok(self.is_wrong(*name, &[])),
            Statement::Program(_) => Ok(false),
            Statement::ImplicitNone => Ok(false),
            Statement::Declare(..) => Ok(false),
            Statement::Label(_) => Ok(false),
            Statement::If(_) => Ok(false),
            Statement::ElseIf(_) => Ok(false),
            Statement::Else => Ok(false),
            Statement::EndIf => Ok(false),
            Statement::EndDo => Ok(false),
            Statement::Allocate(..) => Ok(false),
            Statement::Deallocate(_) => Ok(false),
            Statement::End => Ok(false),
            Statement::EndProgram(_) => Ok(false),
        }
    }
}

// The blocks that are open, the innermost last: whether each is a loop, and the variables of the loops.
#[derive(Drop)]
struct OpenBlocks {
    are_loops: Vec<bool>,
    variables: Vec<Name>,
}

impl OpenBlocks {
    fn new(alloc: Global) -> OpenBlocks
        ensures { AreOpen result [] }
    {
        OpenBlocks {
            are_loops: Vec::new(alloc),
            variables: Vec::new(alloc),
        }
    }

    fn begin_if(&mut self) -> Result<(), Memory>
        ensures { (os : List Opened) → AreOpen self.old os → OnOk result (AreOpen self.new (InIf ∷ os)) }
    {
        self.are_loops.push(false)?;
        Ok(())
    }

    fn begin_loop(&mut self, variable: Name) -> Result<(), Memory>
        ensures { (os : List Opened) → AreOpen self.old os → OnOk result (AreOpen self.new (InDo variable ∷ os)) }
    {
        self.are_loops.push(true)?;
        self.variables.push(variable)?;
        Ok(())
    }

    fn end(&mut self)
        ensures { (os : List Opened) → AreOpen self.old os → AreOpen self.new (outside os) }
    {
        if let Some(true) = self.are_loops.pop() {
            self.variables.pop();
        }
    }

    // What is open behind the statement.
    fn pass(&mut self, statement: &Statement) -> Result<(), Memory>
        ensures { (f : Form90) (os : List Opened) → IsStatementOf statement.now f → AreOpen self.old os
            → OnOk result (AreOpen self.new (opened_by f os)) }
    {
        match statement {
            Statement::If(_) => self.begin_if(),
            Statement::Do(name, _) => self.begin_loop(*name),
            Statement::EndIf | Statement::EndDo => {
                self.end();
                Ok(())
            }
            Statement::Else => Ok(()),
            Statement::ElseIf(_) => Ok(()),
            Statement::Act(_) => Ok(()),
            Statement::Test(..) => Ok(()),
            Statement::Where(..) => Ok(()),
            Statement::Program(_) => Ok(()),
            Statement::ImplicitNone => Ok(()),
            Statement::Declare(..) => Ok(()),
            Statement::Label(_) => Ok(()),
            Statement::Allocate(..) => Ok(()),
            Statement::Deallocate(_) => Ok(()),
            Statement::End => Ok(()),
            Statement::EndProgram(_) => Ok(()),
        }
    }
}

/// The first statement that has a wrong DO variable, or sets one that is round it.
pub(crate) fn first_misuse(
    alloc: Global,
    text: &[Placed],
    names: &Names,
) -> Result<Option<usize>, Memory>
    ensures { (ps : List grammar.Placed) → AreOf IsPlacedOf text.now ps → IfOk result (λ found.
        FindsFirst ps (λ p. misuses_at (scalar_in names.now) p ≡ true) found) }
{
    let mut blocks = OpenBlocks::new(alloc);
    for (i, placed) in text.iter().enumerate() {
        let round = Surroundings {
            names,
            variables: blocks.variables.as_slice(),
        };
        let wrong = round.misuses(alloc, &placed.statement)?;
        if wrong {
            return Ok(Some(i));
        }
        blocks.pass(&placed.statement)?;
    }
    Ok(None)
}
