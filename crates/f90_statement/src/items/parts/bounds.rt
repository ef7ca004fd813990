//! The first value, the last one and the step of a loop.
ghost use Rattle.std.specs.Prelude.{◌≡◌, ◌++◌, List, Option, IfOk};
ghost use Rattle.f90_grammar.specs.Items.{IsStep90, written_step90};
ghost use Rattle.f90_grammar.specs.Phrases.{Phrase90};
ghost use Rattle.f90_grammar.specs.Words.{Word90};
ghost use Rattle.f90_expressions.specs.words.Tokens.{words_of};

use crate::items::parts::fronts::{Separator, after};
use f90_expressions::words::Token;
use f90_expressions::{Expression, read};
use reading::Stop;
use std::alloc::Global;

/// The parameters of a DO statement or of an implied DO list (ISO/IEC 1539:1991, sections 8.1.4.1.1 and 9.4.2).
#[derive(Drop)]
pub struct Bounds {
    pub first: Expression,
    pub last: Expression,
    /// Where one is written.
    pub step: Option<Expression>,
}

impl Bounds {
    ghost use Rattle.f90_statement.specs.items.parts.Bounds.{AreBounds, BeginsWithBounds, EndsBounds, GivesBounds};
    ghost use Rattle.f90_statement.specs.items.parts.Bounds.{bounds_before, BeginsWithStep, GivesStep};

    // The step, if there is one.
    #[tactic(auto, using(crate::proofs::items::OfParts::BoundLaws::steps))]
    fn step(alloc: Global, tokens: &[Token]) -> Result<(Option<Expression>, &[Token]), Stop>
        ensures found { IfOk result (λ r. BeginsWithStep (words_of tokens.now) r.0 (words_of r.1.now)) }
        ensures only { (c : Option Phrase90) (rest : List Word90) → IsStep90 c → EndsBounds rest
            → words_of tokens.now ≡ written_step90 c ++ rest → GivesStep result c rest }
    {
        let Some(more) = after(Separator::Comma, tokens) else {
            return Ok((None, tokens));
        };
        let (step, rest) = read(alloc, more)?;
        Ok((Some(step), rest))
    }

    /// The parameters at the front of the words, and what follows them.
    #[tactic(auto, using(crate::proofs::items::OfParts::BoundLaws::bounds))]
    pub fn read(alloc: Global, tokens: &[Token]) -> Result<(Bounds, &[Token]), Stop>
        // What is read are parameters.
        ensures found { IfOk result (λ r. BeginsWithBounds (words_of tokens.now) r.0 (words_of r.1.now)) }
        // Parameters are read, in one way alone.
        ensures only { (a b : Phrase90) (c : Option Phrase90) (rest : List Word90) → AreBounds a b c → EndsBounds rest
            → words_of tokens.now ≡ bounds_before a b c rest → GivesBounds result a b c rest }
    {
        let (first, rest) = read(alloc, tokens)?;
        let Some(rest) = after(Separator::Comma, rest) else {
            return Err(Stop::Syntax);
        };
        let (last, rest) = read(alloc, rest)?;
        let (step, rest) = Bounds::step(alloc, rest)?;
        Ok((Bounds { first, last, step }, rest))
    }
}
