//! The labels of loops: which END DO closes which (MIL-STD-1753).
ghost use Rattle.std.specs.Prelude.{◌≡◌, List, [], Option, IfOk, OnOk};
ghost use Rattle.f77_grammar.specs.Statement77 as plain;
ghost use Rattle.f77_grammar.specs.program.EndDo as labels;
ghost use Rattle.f77_grammar.specs.program.Text.{is_label};
ghost use Rattle.f77_grammar.specs.syntax.Views.{labelled_of, text_of};
ghost use Rattle.f77_structure.specs.Forms.{form_of};
ghost use Rattle.f77_structure.specs.LoopLabels.{AreWaiting};

use crate::forms::Form;
use f77_grammar::syntax::{Labelled, Stmt77};
use std::alloc::Global;
use tree::{Memory, Seq};

// The number that a label of its own begins with: all that can be written are below it.
const OWN: u32 = 100_000;

// An END DO that waits for a DO before it.
#[derive(Clone, Copy)]
struct Waiting {
    // The label that is written.
    label: Option<u32>,
    line: u32,
}

impl Waiting {
    fn bears(self, number: u32) -> bool
        ensures { result ≡ is_label number self.label }
    {
        match self.label {
            Some(label) => label == number,
            None => false,
        }
    }
}

// The label of an END DO: the one that is written, or one of its own.
fn end_label(label: Option<u32>, line: u32) -> u32
    ensures { result ≡ labels.end_label label line }
{
    match label {
        Some(label) => label,
        None => OWN.saturating_add(line),
    }
}

// The END DO statements that wait, the nearest last.
#[derive(Drop)]
struct Ends {
    waiting: Vec<Waiting>,
}

impl Ends {
    fn new(alloc: Global) -> Ends
        ensures { AreWaiting result [] }
    {
        Ends {
            waiting: Vec::new(alloc),
        }
    }

    // The label of the nearest.
    fn closer(&self) -> Option<u32>
        ensures { (xs : List plain.Labelled) → AreWaiting self.now xs → result ≡ labels.closer_label xs }
    {
        let nearest = self.waiting.last()?;
        let label = end_label(nearest.label, nearest.line);
        if label == 0 { None } else { Some(label) }
    }

    // The nearest that bears the label closes its loop, if one does.
    fn drop_bearer(&mut self, label: u32)
        ensures { (xs : List plain.Labelled) → AreWaiting self.old xs
            → AreWaiting self.new (labels.without_bearer label xs) }
    {
        let mut i = self.waiting.len();
        while i > 0 {
            i -= 1;
            if self.waiting[i].bears(label) {
                self.waiting.remove(i);
                return;
            }
        }
    }

    // Those that wait before a statement of this form.
    fn pass(&mut self, form: Form, label: Option<u32>, line: u32) -> Result<(), Memory>
        ensures { (x : plain.Labelled) (xs : List plain.Labelled) → form ≡ form_of x.statement → label ≡ x.label
            → line ≡ x.line → AreWaiting self.old xs
            → OnOk result (AreWaiting self.new (labels.waiting_with x.statement x xs)) }
    {
        match form {
            Form::EndDo => self.waiting.push(Waiting { label, line })?,
            Form::Do(Some(label)) => self.drop_bearer(label),
            Form::Do(None) => {
                self.waiting.pop();
            }
            Form::Title | Form::ImplicitNone | Form::Declaration | Form::Action | Form::Go(_) => {}
            Form::Stop | Form::LogicalIf | Form::If | Form::ElseIf | Form::Else | Form::EndIf => {}
            Form::End => {}
        }
        Ok(())
    }
}

// Gives the statement its labels, where the nearest END DO that waits behind it has the label `closer`.
#[tactic(auto, using(f77_grammar::proofs::syntax::Equations::statement_equations))]
fn set_labels(statement: &mut Labelled, closer: Option<u32>)
    ensures { labelled_of statement.new ≡ labels.with_labels (labelled_of statement.old) closer }
{
    match &mut statement.statement {
        Stmt77::Do(label, ..) => {
            if label.is_none() {
                *label = closer;
            }
        }
        Stmt77::EndDo => statement.label = Some(end_label(statement.label, statement.line)),
        Stmt77::Program(_) | Stmt77::ImplicitNone | Stmt77::Declare(..) | Stmt77::Dimension(_) => {}
        Stmt77::Constants(_) | Stmt77::Assign(..) | Stmt77::Go(_) | Stmt77::Test(..) => {}
        Stmt77::If(_) | Stmt77::ElseIf(_) | Stmt77::Else | Stmt77::EndIf | Stmt77::Continue => {}
        Stmt77::Stop | Stmt77::Read(_) | Stmt77::Print(_) | Stmt77::End => {}
    }
}

/// The statements with the labels of all loops: an END DO without a label has one of its own, and a DO without a label
/// that of the END DO that closes it.
pub fn with_loop_labels(alloc: Global, text: Seq<Labelled>) -> Result<Seq<Labelled>, Memory>
    ensures { IfOk result (λ labelled. text_of labelled ≡ labels.with_loop_labels (text_of text)) }
{
    let mut left = text;
    let mut ends = Ends::new(alloc);
    let mut done = Seq::new(alloc);
    'back: while let Some(mut statement) = left.pop() {
        let form = Form::of(&statement.statement);
        let label = statement.label;
        let line = statement.line;
        set_labels(&mut statement, ends.closer());
        done.push(statement)?;
        ends.pass(form, label, line)?;
    }
    let mut labelled = done.into_vec();
    labelled.reverse();
    Ok(Seq::from_vec(labelled))
}
