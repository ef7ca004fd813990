//! The limits on a program's names, blocks, bounds, arrays and symbolic constants.
ghost use Rattle.std.specs.Prelude.{◌≡◌, List, [], ◌∷◌, IfOk};
ghost use Rattle.meaning.specs.Dialect.{fortran77};
ghost use Rattle.tree.specs.declared.width.Width.{Width};
ghost use Rattle.f77_grammar.specs.Statement77.{Labelled as Plain};
ghost use Rattle.f77_grammar.specs.program.Text.{places};
ghost use Rattle.f77_grammar.specs.program.Program77.{holds_in};
ghost use Rattle.f77_grammar.specs.syntax.First.{first_index};
ghost use Rattle.f77_grammar.specs.syntax.Views.{text_of};
ghost use Rattle.f77_checks.specs.Known.{IsKnownOf};
ghost use Rattle.f77_checks.specs.Limits.{limits, found_from, sooner_found};
ghost use Rattle.f77_checks.specs.Outcomes.{Passes};

use crate::known::Known;
use f77_grammar::syntax::Labelled;
use f77_names::constants::{bad_constant, many_elements, reversed_bounds};
use f77_names::many_names;
use f77_structure::jumps::many_blocks;
use std::alloc::Global;
use tree::{Cause, Memory, Refused};

/// A limit that is broken, and the place of the first statement at which it is.
#[derive(Clone, Copy)]
pub struct Breach {
    pub place: usize,
    pub cause: Cause,
}

fn breach_at(cause: Cause, place: Option<usize>) -> Option<Breach>
    ensures { (w : Width) (text : List Plain) → place ≡ first_index (holds_in (fortran77 w) text cause) text
        → result ≡ found_from (holds_in (fortran77 w) text) (cause ∷ []) 0 (places text) }
{
    match place {
        None => None,
        Some(place) => Some(Breach { place, cause }),
    }
}

// The sooner of two breaches, or the first of two at one place.
fn sooner(a: Option<Breach>, b: Option<Breach>) -> Option<Breach>
    ensures { result ≡ sooner_found a b }
{
    match (a, b) {
        (None, b) => b,
        (Some(a), None) => Some(a),
        (Some(a), Some(b)) => if b.place < a.place { Some(b) } else { Some(a) },
    }
}

// The first breach in the text, and at its place the one with the least word.
fn first_breach(alloc: Global, text: &[Labelled], known: &Known) -> Result<Option<Breach>, Memory>
    requires { IsKnownOf known.now (text_of text.now) }
    ensures { IfOk result (λ breach.
        breach ≡ found_from (holds_in (fortran77 known.now.constants.width) (text_of text.now)) limits 0 (places
        (text_of text.now))) }
{
    let constants = &known.constants;
    let names = breach_at(Cause::ManyNames, many_names(alloc, text, &known.names)?);
    let blocks = breach_at(Cause::ManyBlocks, many_blocks(alloc, text, &known.ends)?);
    let bounds = breach_at(
        Cause::ReversedBounds,
        reversed_bounds(alloc, text, constants)?,
    );
    let elements = breach_at(Cause::ManyElements, many_elements(alloc, text, constants)?);
    let values = breach_at(Cause::BadConstant, bad_constant(alloc, text, constants)?);
    Ok(sooner(
        names,
        sooner(blocks, sooner(bounds, sooner(elements, values))),
    ))
}

/// Refuses a text at the first statement at which a limit is broken.
#[tactic(auto, using(crate::proofs::Breaches::outcome_laws))]
pub fn refuse_breach(alloc: Global, text: &[Labelled], known: &Known) -> Result<(), Refused>
    requires { IsKnownOf known.now (text_of text.now) }
    ensures { Passes known.now.constants.width limits (text_of text.now) result }
{
    match first_breach(alloc, text, known)? {
        None => Ok(()),
        Some(breach) => Err(Refused::Refusal(breach.cause.at(text[breach.place].line))),
    }
}
