//! The causes of refusal that have a number of their own, each with its check.
ghost use Rattle.std.specs.Prelude.{◌≡◌, [], ◌∷◌};
ghost use Rattle.meaning.specs.Dialect.{fortran77};
ghost use Rattle.tree.specs.declared.width.Width.{Width};
ghost use Rattle.f77_grammar.specs.program.Program77.{holds_in};
ghost use Rattle.f77_grammar.specs.syntax.First.{first_index};
ghost use Rattle.f77_grammar.specs.syntax.Views.{text_of};
ghost use Rattle.f77_checks.specs.Known.{IsKnownOf};
ghost use Rattle.f77_checks.specs.Outcomes.{Passes};

use crate::kinds::unsuited_kind;
use crate::known::Known;
use crate::places::line_at;
use f77_grammar::syntax::Labelled;
use f77_names::{real_name, untyped_name, wrong_declaration};
use f77_structure::jumps::{wrong_do_variable, wrong_jump};
use f77_structure::{wrong_end, wrong_label, wrong_nesting};
use std::alloc::Global;
use tree::{Cause, Refused};

// Refuses a text at the first place at which the cause holds, if it holds.
fn refuse(text: &[Labelled], cause: Cause, place: Option<usize>) -> Result<(), Refused>
    ensures { (w : Width) → place ≡ first_index (holds_in (fortran77 w) (text_of text.now) cause) (text_of text.now)
        → Passes w (cause ∷ []) (text_of text.now) result }
{
    match line_at(text, place) {
        None => Ok(()),
        Some(line) => Err(Refused::Refusal(cause.at(line))),
    }
}

/// Refuses a text with a wrong label.
pub fn check_labels(alloc: Global, text: &[Labelled]) -> Result<(), Refused>
    ensures { (w : Width) → Passes w (Cause.Label ∷ []) (text_of text.now) result }
{
    refuse(text, Cause::Label, wrong_label(alloc, text)?)
}

/// Refuses a text with blocks or loops that cross, or statements out of order.
pub fn check_nesting(alloc: Global, text: &[Labelled], known: &Known) -> Result<(), Refused>
    requires { IsKnownOf known.now (text_of text.now) }
    ensures { Passes known.now.constants.width (Cause.Nesting ∷ []) (text_of text.now) result }
{
    refuse(
        text,
        Cause::Nesting,
        wrong_nesting(alloc, text, &known.ends)?,
    )
}

/// Refuses a text in which END is missing, or isn't the last statement.
pub fn check_end(text: &[Labelled]) -> Result<(), Refused>
    ensures { (w : Width) → Passes w (Cause.NoEnd ∷ []) (text_of text.now) result }
{
    refuse(text, Cause::NoEnd, wrong_end(text))
}

/// Refuses a text with a name that is declared wrongly, or doesn't suit its declaration.
pub fn check_declarations(alloc: Global, text: &[Labelled], known: &Known) -> Result<(), Refused>
    requires { IsKnownOf known.now (text_of text.now) }
    ensures { Passes known.now.constants.width (Cause.Declared ∷ []) (text_of text.now) result }
{
    refuse(
        text,
        Cause::Declared,
        wrong_declaration(alloc, text, &known.names)?,
    )
}

/// Refuses a text with a variable that would be REAL.
pub fn check_real_names(alloc: Global, text: &[Labelled], known: &Known) -> Result<(), Refused>
    requires { IsKnownOf known.now (text_of text.now) }
    ensures { Passes known.now.constants.width (Cause.RealName ∷ []) (text_of text.now) result }
{
    refuse(text, Cause::RealName, real_name(alloc, text, &known.names)?)
}

/// Refuses a text with a kind that doesn't suit.
pub fn check_kinds(alloc: Global, text: &[Labelled], known: &Known) -> Result<(), Refused>
    requires { IsKnownOf known.now (text_of text.now) }
    ensures { Passes known.now.constants.width (Cause.TypeClash ∷ []) (text_of text.now) result }
{
    refuse(
        text,
        Cause::TypeClash,
        unsuited_kind(alloc, text, &known.names)?,
    )
}

/// Refuses a text with a GO TO that leads backwards, or into a block or loop.
pub fn check_jumps(alloc: Global, text: &[Labelled], known: &Known) -> Result<(), Refused>
    requires { IsKnownOf known.now (text_of text.now) }
    ensures { Passes known.now.constants.width (Cause.Jump ∷ []) (text_of text.now) result }
{
    refuse(text, Cause::Jump, wrong_jump(alloc, text, &known.ends)?)
}

/// Refuses a text with a DO variable that is wrong, or is set in its loop.
pub fn check_do_variables(alloc: Global, text: &[Labelled], known: &Known) -> Result<(), Refused>
    requires { IsKnownOf known.now (text_of text.now) }
    ensures { Passes known.now.constants.width (Cause.DoVariable ∷ []) (text_of text.now) result }
{
    refuse(
        text,
        Cause::DoVariable,
        wrong_do_variable(alloc, text, &known.names, &known.ends)?,
    )
}

/// Refuses a text with a name without type beside IMPLICIT NONE.
pub fn check_types(alloc: Global, text: &[Labelled], known: &Known) -> Result<(), Refused>
    requires { IsKnownOf known.now (text_of text.now) }
    ensures { Passes known.now.constants.width (Cause.Untyped ∷ []) (text_of text.now) result }
{
    refuse(
        text,
        Cause::Untyped,
        untyped_name(alloc, text, &known.names)?,
    )
}
