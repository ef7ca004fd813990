//! What a GO TO leads to, and what is round it.
ghost use Rattle.std.specs.Prelude.{◌≡◌, ℕ, ◌+◌, ◌<◌, ◌^◌, None, Some, [], ◌∷◌, reverse, OnOk, IfOk, if◌then◌else◌};
ghost use Rattle.f77_grammar.specs.program.Text.{is_label};
ghost use Rattle.f77_structure.specs.LabelPlaces.{place_of};
ghost use Rattle.f77_structure.specs.Openings.{first_of, tail_of};
ghost use Rattle.f77_grammar.specs.syntax.Views.{text_of};
ghost use Rattle.f77_structure.specs.jumps.LabelTargets.{target_in};
ghost use Rattle.f77_structure.specs.jumps.Targets.{arms_in, next_arms, later, is_no_target_form, targets_of, refuses};
ghost use Rattle.f77_structure.specs.jumps.Targets.{leads_wrongly_to};

use crate::{Form, LabelPlaces, Openings, is_behind, place_under};
use f77_grammar::syntax::Labelled;
use std::alloc::Global;
use std::collections::BTreeMap;
use tree::Memory;

// The arms of block IFs that are open, the innermost last: the places of their block IF, ELSE IF or ELSE.
#[derive(Drop)]
struct Arms {
    places: Vec<usize>,
}

impl Arms {
    fn new(alloc: Global) -> Arms
        ensures { arms_in result ≡ [] }
    {
        Arms {
            places: Vec::new(alloc),
        }
    }

    fn innermost(&self) -> Option<usize>
        ensures { result ≡ first_of (arms_in self.now) }
    {
        self.places.last().copied()
    }

    fn begin(&mut self, at: usize) -> Result<(), Memory>
        ensures { OnOk result (arms_in self.new ≡ at ∷ arms_in self.old) }
    {
        self.places.push(at)?;
        Ok(())
    }

    fn end(&mut self)
        ensures { arms_in self.new ≡ tail_of (arms_in self.old) }
    {
        self.places.pop();
    }

    // What is open behind a statement of this form, which stands behind `at` others.
    fn pass(&mut self, form: Form, at: usize) -> Result<(), Memory>
        ensures { OnOk result (arms_in self.new ≡ next_arms form at (arms_in self.old)) }
    {
        match form {
            Form::If => self.begin(at),
            Form::ElseIf | Form::Else => {
                self.end();
                self.begin(at)
            }
            Form::EndIf => {
                self.end();
                Ok(())
            }
            Form::Title | Form::ImplicitNone | Form::Declaration | Form::Action => Ok(()),
            Form::Go(_) | Form::Stop | Form::LogicalIf | Form::Do(_) | Form::EndDo => Ok(()),
            Form::End => Ok(()),
        }
    }
}

/// What a GO TO leads to.
#[derive(Clone, Copy, Debug)]
pub struct Target {
    /// Where the innermost arm or loop begins that is open there.
    pub inside: Option<usize>,
    /// No GO TO may lead there.
    pub refused: bool,
}

impl Target {
    /// A GO TO that stands behind `at` statements doesn't lead there rightly.
    pub fn refuses(self, at: usize) -> bool
        ensures { result ≡ refuses self at }
    {
        is_behind(self.inside, at) || self.refused
    }
}

/// The later of two places.
pub fn later(a: Option<usize>, b: Option<usize>) -> Option<usize>
    ensures { result ≡ later a b }
{
    match (a, b) {
        (None, b) => b,
        (Some(i), None) => Some(i),
        (Some(i), Some(j)) => Some(i.max(j)),
    }
}

// ELSE IF, ELSE, END IF or a declaration.
fn is_no_target(form: Form) -> bool
    ensures { result ≡ is_no_target_form form }
{
    match form {
        Form::Declaration | Form::ElseIf | Form::Else | Form::EndIf => true,
        Form::Title | Form::ImplicitNone | Form::Action | Form::Go(_) | Form::Stop => false,
        Form::LogicalIf | Form::If | Form::Do(_) | Form::EndDo | Form::End => false,
    }
}

/// Each statement as what a GO TO leads to; `ends` gives the place of the last statement with a label.
pub fn targets_of(
    alloc: Global,
    text: &[Labelled],
    ends: &LabelPlaces,
) -> Result<Vec<Target>, Memory>
    ensures { IfOk result (λ targets. targets.items ≡ targets_of (place_of ends.now) [] (text_of text.now)) }
{
    let mut arms = Arms::new(alloc);
    let mut openings = Openings::new(alloc);
    let mut targets = Vec::new(alloc);
    for (i, statement) in text.iter().enumerate() {
        let form = Form::of(&statement.statement);
        openings.drop_ended(i);
        let inside = later(arms.innermost(), openings.nearest_loop());
        let refused = is_no_target(form);
        targets.push(Target { inside, refused })?;
        openings.drop_ended(i + 1);
        openings = openings.pass(form, i, place_under(form.begun(), ends))?;
        arms.pass(form, i)?;
    }
    Ok(targets)
}

/// What the labels of some statements stand at.
#[derive(Drop)]
pub struct LabelTargets {
    targets: BTreeMap<u32, Target>,
}

impl LabelTargets {
    pub fn new(alloc: Global) -> LabelTargets
        ensures { (n : ℕ) → target_in result n ≡ None }
    {
        LabelTargets {
            targets: BTreeMap::new(alloc),
        }
    }

    /// What the label stands at.
    pub fn get(&self, label: u32) -> Option<Target>
        ensures { result ≡ target_in self.now label }
    {
        self.targets.get(&label).copied()
    }

    /// Lets the label stand at this, and no more at what it stood at.
    pub fn put(&mut self, label: Option<u32>, target: Target) -> Result<(), Memory>
        ensures { OnOk result ((n : ℕ)
            → target_in self.new n ≡ (if is_label n label then Some target else target_in self.old n)) }
    {
        if let Some(label) = label {
            self.targets.insert(label, target)?;
        }
        Ok(())
    }
}
