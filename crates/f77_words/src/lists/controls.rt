//! A DO variable with its parameters, of a DO statement and of an implied DO list.
ghost use Rattle.std.specs.Prelude.{◌≡◌, ◌<◌, ◌≤◌, length, IfOk};
ghost use Rattle.f77_grammar.specs.statements.Controls.{Control, IsControl, written_control};
ghost use Rattle.f77_expressions.specs.Views.{words_of};
ghost use Rattle.f77_words.specs.lists.Reader as reader;
ghost use Rattle.f77_words.specs.lists.Reading as reading;
ghost use Rattle.f77_words.specs.lists.Reading.{Given, IsControlOf};
ghost use Rattle.f77_words.specs.lists.Views.{GivesBound, GivesControl};

use f77_expressions::{Token, after_comma, read};
use reading::Stop;
use std::alloc::Global;
use tree::{Expr, Name};

/// A DO variable with its parameters, and the depth of the deepest, which is counted up to the first that is too deep.
#[derive(Drop)]
pub struct DoControl {
    pub variable: Name,
    pub first: Expr,
    pub last: Expr,
    pub step: Expr,
    pub depth: u16,
}

// The step with its depth, which is 1 where it is left out, and what follows it.
#[tactic(auto, using(tree::proofs::Equations::expression_equations))]
fn step(alloc: Global, tokens: &[Token]) -> Result<(Expr, u16, &[Token]), Stop>
    ensures step { GivesBound result (reader.last_part (words_of tokens.now)) }
    ensures shorter { IfOk result (λ r. length r.2.now ≤ length tokens.now) }
{
    match after_comma(tokens) {
        Some(rest) => {
            let (step, rest) = read(alloc, rest)?;
            Ok((step.tree, step.depth, rest))
        }
        None => Ok((Expr::Int(1), 0, tokens)),
    }
}

/// Whether a DO variable and its equals sign stand at the front.
pub(crate) fn begins_control(tokens: &[Token]) -> bool
    ensures { result ≡ reader.begins_control (words_of tokens.now) }
{
    matches!(tokens, [Token::Name(_), Token::Equals, ..])
}

/// The DO variable with its parameters at the front of the words, and what follows it.
pub(crate) fn read_control(alloc: Global, tokens: &[Token]) -> Result<(DoControl, &[Token]), Stop>
    ensures control { GivesControl result (reader.control (words_of tokens.now)) }
    ensures shorter { IfOk result (λ r. length r.1.now < length tokens.now) }
{
    let [Token::Name(variable), Token::Equals, rest @ ..] = tokens else {
        return Err(Stop::Syntax);
    };
    let (first, rest) = read(alloc, rest)?;
    let [Token::Comma, rest @ ..] = rest else {
        return Err(Stop::Syntax);
    };
    let (last, rest) = read(alloc, rest)?;
    let (step, depth, rest) = step(alloc, rest)?;
    let control = DoControl {
        variable: *variable,
        first: first.tree,
        last: last.tree,
        step,
        depth: first.depth.max(last.depth).max(depth),
    };
    Ok((control, rest))
}

/// All words as a DO variable with its parameters (ANSI X3.9-1978, section 11.10).
pub fn whole_control(alloc: Global, tokens: &[Token]) -> Result<DoControl, Stop>
    // What is read is so written.
    ensures found { IfOk result (reading.IsWholeControl (words_of tokens.now)) }

    // What is so written is read, in one way alone.
    ensures only { (k : Control) → IsControl k → words_of tokens.now ≡ written_control k
        → Given result (λ made. IsControlOf made k) }
{
    let (control, rest) = read_control(alloc, tokens)?;
    if !rest.is_empty() {
        return Err(Stop::Syntax);
    }
    Ok(control)
}
