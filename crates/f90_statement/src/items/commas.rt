//! Which parentheses have a comma in them that stands in no further parenthesis.
ghost use Rattle.std.specs.Prelude.{◌≡◌, IfOk, OnOk, reverse};
ghost use Rattle.f90_expressions.specs.words.Tokens.{word_of, words_of};
ghost use Rattle.f90_statement.specs.items.Commas.{comma_marks, level_of, out_of, before_word};

use f90_expressions::words::Token;
use std::alloc::Global;
use tree::Memory;

#[tactic(auto, using(crate::proofs::items::CommaLaws::stacks))]
fn innermost(levels: &[bool]) -> bool
    ensures { result ≡ level_of (reverse levels.now) 0 }
{
    match levels.split_last() {
        Some((last, _)) => *last,
        None => false,
    }
}

// Leaves the innermost parenthesis, if there is one.
#[tactic(auto, using(crate::proofs::items::CommaLaws::stacks))]
fn leave(levels: &mut Vec<bool>)
    ensures { reverse levels.new.items ≡ out_of (reverse levels.old.items) }
{
    let _ = levels.pop();
}

// What holds before a word. The innermost parenthesis stands last.
#[tactic(auto, using(crate::proofs::items::CommaLaws::stacks))]
fn step_back(levels: &mut Vec<bool>, token: &Token) -> Result<(), Memory>
    ensures { OnOk result (reverse levels.new.items ≡ before_word (word_of token.now) (reverse levels.old.items)) }
{
    match token {
        Token::Head(_) => Ok(leave(levels)),
        Token::Open => Ok(leave(levels)),
        Token::OpenList => Ok(leave(levels)),
        Token::Close => Ok(levels.push(false)?),
        Token::CloseList => Ok(levels.push(false)?),
        Token::Comma => {
            leave(levels);
            Ok(levels.push(true)?)
        }
        Token::Digits(_) => Ok(()),
        Token::Truth(_) => Ok(()),
        Token::Name(_) => Ok(()),
        Token::Operator(_) => Ok(()),
        Token::Equals => Ok(()),
        Token::Colon => Ok(()),
        Token::Colons => Ok(()),
        Token::Constant(_) => Ok(()),
    }
}

/// At each word whether there is such a comma in the parenthesis that it opens.
pub(crate) fn commas(alloc: Global, tokens: &[Token]) -> Result<Vec<bool>, Memory>
    ensures { IfOk result (λ marks. marks.items ≡ comma_marks (words_of tokens.now)) }
{
    let mut levels = Vec::new(alloc);
    let mut marks = Vec::new(alloc);
    let mut i = tokens.len();
    'back: while i > 0 {
        i -= 1;
        marks.push(innermost(levels.as_slice()))?;
        step_back(&mut levels, &tokens[i])?;
    }
    marks.reverse();
    Ok(marks)
}
