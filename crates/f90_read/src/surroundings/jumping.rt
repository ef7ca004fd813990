//! GO TOs and the labels that stand ahead of them (ISO/IEC 1539:1991, section 8.2).
ghost use Rattle.std.specs.Prelude.{◌≡◌, ℕ, nat_eq, true, Some, List, [], ◌∷◌, slice_get, length, reverse};
ghost use Rattle.std.specs.Prelude.{IfOk, OnOk, if◌then◌else◌};
ghost use Rattle.indexmap.specs.IndexMap.{get};
ghost use Rattle.std.specs.List.{list_any};
ghost use Rattle.f90_laws.specs.blocks.Places.{labels_ahead};
ghost use Rattle.f90_grammar.specs.Blocks as grammar;
ghost use Rattle.f90_grammar.specs.Forms.{Form90};
ghost use Rattle.f90_blocks.specs.places.forms.Places.{IsPlacedOf};
ghost use Rattle.f90_blocks.specs.places.First.{FindsFirst};
ghost use Rattle.f90_statement.specs.Views.{AreOf, IsActionOf, IsStatementOf};
ghost use Rattle.f90_read.specs.surroundings.Jumps.{AreAhead, AreLevels, is_there, with_first, entered, left, front};
ghost use Rattle.f90_read.specs.surroundings.Jumps.{others, target_of, leads_wrongly, jumps_wrongly_at};

use f90_blocks::places::forms::Placed;
use f90_statement::{Action, Statement};
use indexmap::IndexMap;
use std::alloc::Global;
use tree::Memory;

// The label that a GO TO names.
fn target_in(action: &Action) -> Option<u32>
    ensures { (f : Form90) → IsActionOf action.now f → result ≡ target_of f }
{
    match action {
        Action::Go(label) => Some(*label),
        Action::Assign(..) => None,
        Action::Continue => None,
        Action::Stop => None,
        Action::Read(_) => None,
        Action::Print(_) => None,
    }
}

fn target_of(statement: &Statement) -> Option<u32>
    ensures { (f : Form90) → IsStatementOf statement.now f → result ≡ target_of f }
{
    match statement {
        Statement::Act(action) => target_in(action),
        Statement::Test(_, action) => target_in(action),
        Statement::Where(..) => None,
        Statement::Do(..) => None,
        Statement::Program(_) => None,
        Statement::ImplicitNone => None,
        Statement::Declare(..) => None,
        Statement::Label(_) => None,
        Statement::If(_) => None,
        Statement::ElseIf(_) => None,
        Statement::Else => None,
        Statement::EndIf => None,
        Statement::EndDo => None,
        Statement::Allocate(..) => None,
        Statement::Deallocate(_) => None,
        Statement::End => None,
        Statement::EndProgram(_) => None,
    }
}

// The labels that may be jumped to from before some statements, found from the last statement back.
#[derive(Drop)]
struct LabelsAhead {
    // Those of the block there and of the blocks round it; the one that stands next comes last.
    labels: Vec<u32>,
    // For each block that the statements end but don't begin, how many labels stand behind it; the innermost last.
    starts: Vec<usize>,
    // Where each of the labels comes first among them. A label that is gone may still be here.
    firsts: IndexMap<u32, usize>,
}

impl LabelsAhead {
    fn new(alloc: Global) -> LabelsAhead
        ensures { AreAhead result [] }
    {
        LabelsAhead {
            labels: Vec::new(alloc),
            starts: Vec::new(alloc),
            firsts: IndexMap::new(alloc),
        }
    }

    fn place_of(&self, label: u32) -> Option<usize>
        ensures { result ≡ get nat_eq self.now.firsts label }
    {
        self.firsts.get(&label).copied()
    }

    fn stands_at(&self, at: usize, label: u32) -> bool
        ensures { result ≡ is_there (slice_get self.now.labels.items at) label }
    {
        match self.labels.get(at) {
            Some(there) => label == *there,
            None => false,
        }
    }

    fn is_ahead(&self, label: u32) -> bool
        ensures { (at : ℕ → List ℕ) → AreLevels self.now at → result ≡ list_any (nat_eq label) (at 0) }
    {
        match self.place_of(label) {
            Some(at) => self.stands_at(at, label),
            None => false,
        }
    }

    // The label comes next: it is held from now on, if it wasn't known before.
    fn note(&mut self, is_known: bool, label: u32) -> Result<(), Memory>
        ensures labels { OnOk result (self.new.labels.items ≡ self.old.labels.items) }
        ensures starts { OnOk result (self.new.starts.items ≡ self.old.starts.items) }
        ensures firsts { OnOk result ((n : ℕ) → get nat_eq self.new.firsts n
            ≡ (if is_known then get nat_eq self.old.firsts n else
            (if nat_eq label n then Some (length self.old.labels.items) else get nat_eq self.old.firsts n))) }
    {
        if is_known {
            return Ok(());
        }
        self.firsts.insert(label, self.labels.len())?;
        Ok(())
    }

    // The label stands in the innermost block.
    fn add(&mut self, label: u32) -> Result<(), Memory>
        ensures { (at : ℕ → List ℕ) → AreLevels self.old at → OnOk result (AreLevels self.new (with_first label at)) }
    {
        let is_known = self.is_ahead(label);
        self.note(is_known, label)?;
        self.labels.push(label)?;
        Ok(())
    }

    // A block ends.
    fn enter(&mut self) -> Result<(), Memory>
        ensures { (at : ℕ → List ℕ) → AreLevels self.old at → OnOk result (AreLevels self.new (entered at)) }
    {
        self.starts.push(self.labels.len())?;
        Ok(())
    }

    // How many labels there were when the innermost block was opened, which is open no more.
    fn take_start(&mut self) -> usize
        ensures start { result ≡ front (reverse self.old.starts.items) }
        ensures others { reverse self.new.starts.items ≡ others (reverse self.old.starts.items) }
        ensures labels { self.new.labels.items ≡ self.old.labels.items }
        ensures firsts { self.new.firsts ≡ self.old.firsts }
    {
        match self.starts.pop() {
            Some(start) => start,
            None => 0,
        }
    }

    // A block begins.
    fn leave(&mut self)
        ensures { (at : ℕ → List ℕ) → AreLevels self.old at → AreLevels self.new (left at) }
    {
        let start = self.take_start();
        self.labels.truncate(start);
    }

    // A part of a block IF begins, behind another.
    fn turn(&mut self) -> Result<(), Memory>
        ensures { (at : ℕ → List ℕ) → AreLevels self.old at → OnOk result (AreLevels self.new (entered (left at))) }
    {
        self.leave();
        self.enter()
    }

    // The labels ahead of the statement.
    fn pass(&mut self, statement: &Statement) -> Result<(), Memory>
        ensures { (p : grammar.Placed) (ps : List grammar.Placed) → IsStatementOf statement.now p.form
            → AreAhead self.old ps → OnOk result (AreAhead self.new (p ∷ ps)) }
    {
        match statement {
            Statement::If(_) => {
                self.leave();
                Ok(())
            }
            Statement::Do(..) => {
                self.leave();
                Ok(())
            }
            Statement::EndIf => self.enter(),
            Statement::EndDo => self.enter(),
            Statement::ElseIf(_) => self.turn(),
            Statement::Else => self.turn(),
            Statement::Label(label) => self.add(*label),
            Statement::Act(_) => Ok(()),
            Statement::Test(..) => Ok(()),
            Statement::Where(..) => Ok(()),
            Statement::Program(_) => Ok(()),
            Statement::ImplicitNone => Ok(()),
            Statement::Declare(..) => Ok(()),
            Statement::Allocate(..) => Ok(()),
            Statement::Deallocate(_) => Ok(()),
            Statement::End => Ok(()),
            Statement::EndProgram(_) => Ok(()),
        }
    }

    // The statement is a GO TO whose label is 0 or isn't ahead.
    fn are_missed_by(&self, statement: &Statement) -> bool
        ensures { (f : Form90) (ps : List grammar.Placed) → IsStatementOf statement.now f → AreAhead self.now ps
            → result ≡ leads_wrongly (target_of f) (labels_ahead ps 0) }
    {
        match target_of(statement) {
            Some(label) => label == 0 || !self.is_ahead(label),
            None => false,
        }
    }
}

// This place if it is one, and else what is found behind it.
fn nearer(is_one: bool, at: usize, found: Option<usize>) -> Option<usize>
    ensures { result ≡ (if is_one then Some at else found) }
{
    if is_one { Some(at) } else { found }
}

/// The first GO TO whose label is 0, or stands neither behind it in its block nor in a block round that one.
pub(crate) fn first_wrong_jump(alloc: Global, text: &[Placed]) -> Result<Option<usize>, Memory>
    ensures { (ps : List grammar.Placed) → AreOf IsPlacedOf text.now ps → IfOk result (λ found.
        FindsFirst ps (λ p. jumps_wrongly_at p ≡ true) found) }
{
    let mut ahead = LabelsAhead::new(alloc);
    let mut found = None;
    for i in (0..text.len()).rev() {
        let statement = &text[i].statement;
        let is_missed = ahead.are_missed_by(statement);
        found = nearer(is_missed, i, found);
        ahead.pass(statement)?;
    }
    Ok(found)
}
