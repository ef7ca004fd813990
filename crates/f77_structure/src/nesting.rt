//! Blocks and loops: each opener has its closer apart from all others (ANSI X3.9-1978, sections 11.6 to 11.10).
ghost use Rattle.std.specs.Prelude.{◌≡◌, ◌+◌, ◌^◌, ◌<◌, ◌||◌, Some, IfOk, if◌then◌else◌};
ghost use Rattle.f77_grammar.specs.program.Nesting.{is_closed_wrongly, is_left_open, is_nested_wrongly};
ghost use Rattle.f77_grammar.specs.program.Order.{is_out_of_order};
ghost use Rattle.f77_grammar.specs.syntax.First.{first_index, sooner};
ghost use Rattle.f77_structure.specs.Forms.{begun_in, pending_with, lacks_end_if};
ghost use Rattle.f77_structure.specs.LabelPlaces.{place_of, AreEndsIn};
ghost use Rattle.f77_structure.specs.Openings.{is_from, under};
ghost use Rattle.f77_grammar.specs.syntax.Views.{text_of};

use crate::forms::Form;
use crate::label_places::LabelPlaces;
use crate::openings::Openings;
use crate::order::out_of_order;
use f77_grammar::syntax::Labelled;
use std::alloc::Global;
use tree::Memory;

impl Form {
    /// The label of a DO, if it has one.
    pub fn begun(self) -> Option<u32>
        ensures { result ≡ begun_in self }
    {
        match self {
            Form::Do(label) => label,
            Form::Title | Form::ImplicitNone | Form::Declaration | Form::Action => None,
            Form::Go(_) | Form::Stop | Form::LogicalIf | Form::If | Form::ElseIf => None,
            Form::Else | Form::EndIf | Form::EndDo | Form::End => None,
        }
    }
}

/// The place of a label, if there is a label.
pub fn place_under(label: Option<u32>, places: &LabelPlaces) -> Option<usize>
    ensures { result ≡ under label (place_of places.now) }
{
    match label {
        Some(label) => places.get(label),
        None => None,
    }
}

// The statement is the one behind `at` others, or comes later.
fn is_from(place: Option<usize>, at: usize) -> bool
    ensures { result ≡ is_from at place }
{
    match place {
        Some(place) => place >= at,
        None => false,
    }
}

/// The place of the last statement that bears a label, for each label: a loop with that label ends there.
pub fn label_ends(alloc: Global, text: &[Labelled]) -> Result<LabelPlaces, Memory>
    ensures { IfOk result (λ ends. AreEndsIn ends (text_of text.now)) }
{
    let mut ends = LabelPlaces::new(alloc);
    for (i, statement) in text.iter().enumerate() {
        ends.put(statement.label, i)?;
    }
    Ok(ends)
}

/// The place of the first statement that closes, or doesn't close, what it should: a DO, END DO, END IF, ELSE IF or
/// ELSE, or the last statement of loops.
pub fn wrong_closer(
    alloc: Global,
    text: &[Labelled],
    ends: &LabelPlaces,
) -> Result<Option<usize>, Memory>
    requires { AreEndsIn ends.now (text_of text.now) }
    ensures { IfOk result (λ place. place ≡ first_index is_closed_wrongly (text_of text.now)) }
{
    let mut firsts = LabelPlaces::new(alloc);
    let mut openings = Openings::new(alloc);
    for (i, statement) in text.iter().enumerate() {
        let form = Form::of(&statement.statement);
        let end = place_under(form.begun(), ends);
        let first = place_under(statement.label, &firsts);
        if openings.has_wrong_closer(form, i, end, first) {
            return Ok(Some(i));
        }
        openings = openings.pass(form, i, end)?;
        firsts.put_first(form.begun(), i)?;
    }
    Ok(None)
}

impl Form {
    // The END IF statements without their block IF, with this statement in front of those where there are `pending`.
    fn pending_with(self, pending: usize) -> usize
        requires { pending + 1 < 2 ^ 64 }
        ensures { result ≡ pending_with self pending }
    {
        match self {
            Form::EndIf => pending + 1,
            Form::If => pending.saturating_sub(1),
            Form::Title | Form::ImplicitNone | Form::Declaration | Form::Action => pending,
            Form::Go(_) | Form::Stop | Form::LogicalIf | Form::ElseIf | Form::Else => pending,
            Form::Do(_) | Form::EndDo | Form::End => pending,
        }
    }

    fn lacks_end_if(self, pending: usize) -> bool
        ensures { result ≡ lacks_end_if self pending }
    {
        match self {
            Form::If => pending == 0,
            Form::Title | Form::ImplicitNone | Form::Declaration | Form::Action => false,
            Form::Go(_) | Form::Stop | Form::LogicalIf | Form::ElseIf | Form::Else => false,
            Form::EndIf | Form::Do(_) | Form::EndDo | Form::End => false,
        }
    }
}

/// The place of a statement that is looked for, in front of a later one. A walk from the last statement to the first
/// finds the first place so.
pub fn here_if(here: bool, place: usize, later: Option<usize>) -> Option<usize>
    ensures { result ≡ (if here then Some place else later) }
{
    if here { Some(place) } else { later }
}

/// The place of the first block IF that has no END IF.
pub fn left_open(text: &[Labelled]) -> Option<usize>
    ensures { result ≡ first_index is_left_open (text_of text.now) }
{
    let mut found = None;
    let mut pending = 0;
    let mut i = text.len();
    while i > 0 {
        i -= 1;
        let form = Form::of(&text[i].statement);
        found = here_if(form.lacks_end_if(pending), i, found);
        pending = form.pending_with(pending);
    }
    found
}

fn sooner(a: Option<usize>, b: Option<usize>) -> Option<usize>
    ensures { result ≡ sooner a b }
{
    match (a, b) {
        (None, b) => b,
        (Some(i), None) => Some(i),
        (Some(i), Some(j)) => Some(i.min(j)),
    }
}

/// The place of the first statement that is out of order, or that opens or closes something wrongly.
#[tactic(auto, using(crate::proofs::Sooner::sooner_laws))]
pub fn wrong_nesting(
    alloc: Global,
    text: &[Labelled],
    ends: &LabelPlaces,
) -> Result<Option<usize>, Memory>
    requires { AreEndsIn ends.now (text_of text.now) }
    ensures { IfOk result (λ place. place ≡ first_index (λ p. is_nested_wrongly p
        || is_out_of_order p) (text_of text.now)) }
{
    let closed = wrong_closer(alloc, text, ends)?;
    let nested = sooner(left_open(text), closed);
    Ok(sooner(nested, out_of_order(text)))
}
