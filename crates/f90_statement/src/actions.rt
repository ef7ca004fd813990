//! Statements that may stand in a logical IF.
ghost use Rattle.f90_expressions.specs.words.Tokens.{words_of};
ghost use Rattle.f90_statement.specs.Kinds.{is_assignment, is_go, is_read, is_print, is_bare_action, is_action};
ghost use Rattle.f90_statement.specs.Reading.{ReadsAction};

use crate::fronts::{after_keywords, after_transfer, is_empty_transfer, is_keyword, lone_label};
use crate::items::{Direction, ItemList};
use crate::nodes::Action;
use crate::parts::sides;
use f90_expressions::words::Token;
use reading::Stop;
use std::alloc::Global;

// An assignment (section 7.5.1).
#[tactic(auto, using(crate::proofs::ActionLaws::assignments))]
fn assignment(alloc: Global, tokens: &[Token]) -> Result<Action, Stop>
    ensures { ReadsAction is_assignment (words_of tokens.now) result }
{
    match sides(alloc, tokens) {
        Ok((left, right)) => Ok(Action::Assign(left, right)),
        Err(stop) => Err(stop),
    }
}

// A GO TO (section 8.2.1).
#[tactic(auto, using(crate::proofs::ActionLaws::jumps))]
fn go_to(tokens: &[Token]) -> Result<Action, Stop>
    ensures { ReadsAction is_go (words_of tokens.now) result }
{
    let Some(rest) = after_keywords(b"GO", b"TO", b"GOTO", tokens) else {
        return Err(Stop::Syntax);
    };
    match lone_label(rest) {
        Some(label) => Ok(Action::Go(label)),
        None => Err(Stop::Syntax),
    }
}

// A READ with a list (section 9.4).
#[tactic(auto, using(crate::proofs::ActionLaws::reads))]
fn read_list(alloc: Global, tokens: &[Token]) -> Result<Action, Stop>
    ensures { ReadsAction is_read (words_of tokens.now) result }
{
    let Some(rest) = after_transfer(b"READ", b"READ", tokens) else {
        return Err(Stop::Syntax);
    };
    match ItemList::read(alloc, Direction::Input, rest) {
        Ok(list) => Ok(Action::Read(Some(list))),
        Err(stop) => Err(stop),
    }
}

// A PRINT or WRITE with a list (section 9.4).
#[tactic(auto, using(crate::proofs::ActionLaws::prints))]
fn print_list(alloc: Global, tokens: &[Token]) -> Result<Action, Stop>
    ensures { ReadsAction is_print (words_of tokens.now) result }
{
    let Some(rest) = after_transfer(b"PRINT", b"WRITE", tokens) else {
        return Err(Stop::Syntax);
    };
    match ItemList::read(alloc, Direction::Output, rest) {
        Ok(list) => Ok(Action::Print(Some(list))),
        Err(stop) => Err(stop),
    }
}

// Words alone.
#[tactic(auto, using(crate::proofs::ActionLaws::bare))]
fn bare_action(tokens: &[Token]) -> Result<Action, Stop>
    ensures { ReadsAction is_bare_action (words_of tokens.now) result }
{
    if is_keyword(b"CONTINUE", tokens) {
        return Ok(Action::Continue);
    }
    if is_keyword(b"STOP", tokens) {
        return Ok(Action::Stop);
    }
    if is_empty_transfer(b"READ", b"READ", tokens) {
        return Ok(Action::Read(None));
    }
    if is_empty_transfer(b"PRINT", b"WRITE", tokens) {
        return Ok(Action::Print(None));
    }
    Err(Stop::Syntax)
}

// What the first of the calls reads that finds something.
macro_rules! first_read {
    ($last:expr) => { $last };
    ($first:expr, $($more:expr),+) => {
        match $first {
            Ok(made) => Ok(made),
            Err(Stop::Memory) => Err(Stop::Memory),
            Err(Stop::Syntax) => first_read!($($more),+),
        }
    };
}

pub(crate) use first_read;

/// A statement that may stand in a logical IF. A statement may begin as one of a keyword and be an assignment.
pub(crate) fn action(alloc: Global, tokens: &[Token]) -> Result<Action, Stop>
    ensures { ReadsAction is_action (words_of tokens.now) result }
{
    first_read!(
        go_to(tokens),
        read_list(alloc, tokens),
        print_list(alloc, tokens),
        bare_action(tokens),
        assignment(alloc, tokens)
    )
}
