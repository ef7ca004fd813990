//! Statements.
ghost use Rattle.std.specs.Prelude.{◌∷◌, IfOk, codes};
ghost use Rattle.f90_grammar.specs.Forms.{Form90, IsWritten90};
ghost use Rattle.f90_grammar.specs.Phrases.{Phrase90, IsExpression90};
ghost use Rattle.f90_grammar.specs.Words as words;
ghost use Rattle.f90_expressions.specs.words.Tokens.{words_of};
ghost use Rattle.f90_expressions.specs.Reading.{IsMadeOf};
ghost use Rattle.f90_statement.specs.Fronts.{AfterType, AfterAttribute};
ghost use Rattle.f90_statement.specs.Kinds.{is_program, is_declaration, is_where, is_if, is_else_if, is_do, is_label};
ghost use Rattle.f90_statement.specs.Kinds.{is_allocate, is_deallocate, is_end_program, is_bare, is_action, is_block};
ghost use Rattle.f90_statement.specs.Kinds.{is_outer, is_array_statement, is_any};
ghost use Rattle.f90_statement.specs.Reading.{Given, ReadsStatement, IsStatement, closed};
ghost use Rattle.f90_statement.specs.Views.{IsStatementOf};

use crate::actions::{action, first_read};
use crate::declarations::entities;
use crate::fronts::{
    after_head_keyword, after_head_keywords, after_keyword, after_keywords, allocate_front,
    are_keywords, are_two_keywords, closed_name, continue_label, ends_allocate, is_keyword,
    is_nothing, lone_name, loop_front,
};
use crate::items::parts::{Bounds, Separator, after};
use crate::nodes::Statement;
use crate::parts::{condition, extents, sides};
use f90_expressions::Expression;
use f90_expressions::words::Token;
use reading::Stop;
use std::alloc::Global;
use tree::Kind;

// PROGRAM (section 11.1).
#[tactic(auto, using(crate::proofs::OuterLaws::programs))]
fn program(tokens: &[Token]) -> Result<Statement, Stop>
    ensures { ReadsStatement is_program (words_of tokens.now) result }
{
    let Some(rest) = after_keyword(b"PROGRAM", tokens) else {
        return Err(Stop::Syntax);
    };
    match lone_name(rest) {
        Some(name) => Ok(Statement::Program(name)),
        None => Err(Stop::Syntax),
    }
}

// END PROGRAM (section 11.1).
#[tactic(auto, using(crate::proofs::OuterLaws::ends))]
fn end_program(tokens: &[Token]) -> Result<Statement, Stop>
    ensures { ReadsStatement is_end_program (words_of tokens.now) result }
{
    let Some(rest) = after_keywords(b"END", b"PROGRAM", b"ENDPROGRAM", tokens) else {
        return Err(Stop::Syntax);
    };
    if is_nothing(rest) {
        return Ok(Statement::EndProgram(None));
    }
    match lone_name(rest) {
        Some(name) => Ok(Statement::EndProgram(Some(name))),
        None => Err(Stop::Syntax),
    }
}

// Words alone.
#[tactic(auto, using(crate::proofs::OuterLaws::bare))]
fn bare(tokens: &[Token]) -> Result<Statement, Stop>
    ensures { ReadsStatement is_bare (words_of tokens.now) result }
{
    if is_keyword(b"ELSE", tokens) {
        return Ok(Statement::Else);
    }
    if is_keyword(b"END", tokens) {
        return Ok(Statement::End);
    }
    if are_keywords(b"END", b"IF", b"ENDIF", tokens) {
        return Ok(Statement::EndIf);
    }
    if are_keywords(b"END", b"DO", b"ENDDO", tokens) {
        return Ok(Statement::EndDo);
    }
    if are_two_keywords(b"IMPLICIT", b"NONE", tokens) {
        return Ok(Statement::ImplicitNone);
    }
    Err(Stop::Syntax)
}

// The type that a declaration begins with, and what follows it.
fn after_type(tokens: &[Token]) -> Option<(Kind, &[Token])>
    ensures { AfterType result (words_of tokens.now) }
{
    if let Some(rest) = after_keyword(b"INTEGER", tokens) {
        return Some((Kind::Integer, rest));
    }
    let rest = after_keyword(b"LOGICAL", tokens)?;
    Some((Kind::Logical, rest))
}

// Whether ALLOCATABLE stands there, and what follows the two colons.
#[tactic(auto, using(crate::proofs::DeclarationLaws::attributes))]
fn after_attribute(tokens: &[Token]) -> Option<(bool, &[Token])>
    ensures { AfterAttribute result (words_of tokens.now) }
{
    let Some(rest) = after(Separator::Comma, tokens) else {
        let rest = after(Separator::Colons, tokens)?;
        return Some((false, rest));
    };
    let Some(rest) = after_keyword(b"ALLOCATABLE", rest) else {
        return None;
    };
    let rest = after(Separator::Colons, rest)?;
    Some((true, rest))
}

// A type declaration (section 5.1).
#[tactic(auto, using(crate::proofs::DeclarationLaws::declarations))]
fn declaration(alloc: Global, tokens: &[Token]) -> Result<Statement, Stop>
    ensures { ReadsStatement is_declaration (words_of tokens.now) result }
{
    let Some((kind, rest)) = after_type(tokens) else {
        return Err(Stop::Syntax);
    };
    let Some((is_allocatable, rest)) = after_attribute(rest) else {
        return Err(Stop::Syntax);
    };
    match entities(alloc, is_allocatable, rest) {
        Ok((entities, rest)) => {
            if !is_nothing(rest) {
                return Err(Stop::Syntax);
            }
            Ok(Statement::Declare(kind, is_allocatable, entities))
        }
        Err(stop) => Err(stop),
    }
}

// The statements round the executable ones.
fn outer(alloc: Global, tokens: &[Token]) -> Result<Statement, Stop>
    ensures { ReadsStatement is_outer (words_of tokens.now) result }
{
    first_read!(
        program(tokens),
        declaration(alloc, tokens),
        bare(tokens),
        end_program(tokens)
    )
}

// A block IF or a logical IF, behind its condition (sections 8.1.2.1 and 8.1.2.4).
#[tactic(auto, using(crate::proofs::BlockLaws::tests))]
fn behind_condition(
    alloc: Global,
    condition: Expression,
    tokens: &[Token],
) -> Result<Statement, Stop>
    ensures { (p : Phrase90) → IsMadeOf condition p → IsExpression90 p
        → ReadsStatement is_if (words.Head (codes "IF") ∷ closed p (words_of tokens.now)) result }
{
    if is_keyword(b"THEN", tokens) {
        return Ok(Statement::If(condition));
    }
    match action(alloc, tokens) {
        Ok(action) => Ok(Statement::Test(condition, action)),
        Err(stop) => Err(stop),
    }
}

// A block IF or a logical IF.
#[tactic(auto, using(crate::proofs::BlockLaws::ifs))]
fn if_statement(alloc: Global, tokens: &[Token]) -> Result<Statement, Stop>
    ensures { ReadsStatement is_if (words_of tokens.now) result }
{
    let Some(rest) = after_head_keyword(b"IF", tokens) else {
        return Err(Stop::Syntax);
    };
    match condition(alloc, rest) {
        Ok((condition, rest)) => behind_condition(alloc, condition, rest),
        Err(stop) => Err(stop),
    }
}

// An ELSE IF (section 8.1.2.1).
#[tactic(auto, using(crate::proofs::BlockLaws::else_ifs))]
fn else_if(alloc: Global, tokens: &[Token]) -> Result<Statement, Stop>
    ensures { ReadsStatement is_else_if (words_of tokens.now) result }
{
    let Some(rest) = after_head_keywords(b"ELSE", b"IF", b"ELSEIF", tokens) else {
        return Err(Stop::Syntax);
    };
    match condition(alloc, rest) {
        Ok((condition, rest)) => {
            if !is_keyword(b"THEN", rest) {
                return Err(Stop::Syntax);
            }
            Ok(Statement::ElseIf(condition))
        }
        Err(stop) => Err(stop),
    }
}

// A DO (section 8.1.4.1).
#[tactic(auto, using(crate::proofs::BlockLaws::loops))]
fn do_statement(alloc: Global, tokens: &[Token]) -> Result<Statement, Stop>
    ensures { ReadsStatement is_do (words_of tokens.now) result }
{
    let Some((name, rest)) = loop_front(tokens) else {
        return Err(Stop::Syntax);
    };
    match Bounds::read(alloc, rest) {
        Ok((bounds, rest)) => {
            if !is_nothing(rest) {
                return Err(Stop::Syntax);
            }
            Ok(Statement::Do(name, bounds))
        }
        Err(stop) => Err(stop),
    }
}

// A CONTINUE with a label (section 8.3).
#[tactic(auto, using(crate::proofs::BlockLaws::labels))]
fn label(tokens: &[Token]) -> Result<Statement, Stop>
    ensures { ReadsStatement is_label (words_of tokens.now) result }
{
    match continue_label(tokens) {
        Some(label) => Ok(Statement::Label(label)),
        None => Err(Stop::Syntax),
    }
}

// The statements of blocks.
fn block(alloc: Global, tokens: &[Token]) -> Result<Statement, Stop>
    ensures { ReadsStatement is_block (words_of tokens.now) result }
{
    first_read!(
        if_statement(alloc, tokens),
        else_if(alloc, tokens),
        do_statement(alloc, tokens),
        label(tokens)
    )
}

// A WHERE (section 7.5.3).
#[tactic(auto, using(crate::proofs::ArrayLaws::wheres))]
fn where_statement(alloc: Global, tokens: &[Token]) -> Result<Statement, Stop>
    ensures { ReadsStatement is_where (words_of tokens.now) result }
{
    let Some(rest) = after_head_keyword(b"WHERE", tokens) else {
        return Err(Stop::Syntax);
    };
    match condition(alloc, rest) {
        Ok((mask, rest)) => match sides(alloc, rest) {
            Ok((left, right)) => Ok(Statement::Where(mask, left, right)),
            Err(stop) => Err(stop),
        },
        Err(stop) => Err(stop),
    }
}

// An ALLOCATE (section 6.3.1), of any number of extents: whether they suit is another question.
#[tactic(auto, using(crate::proofs::ArrayLaws::allocations))]
fn allocate(alloc: Global, tokens: &[Token]) -> Result<Statement, Stop>
    ensures { ReadsStatement is_allocate (words_of tokens.now) result }
{
    let Some((name, rest)) = allocate_front(tokens) else {
        return Err(Stop::Syntax);
    };
    match extents(alloc, rest) {
        Ok((extents, rest)) => {
            if !ends_allocate(rest) {
                return Err(Stop::Syntax);
            }
            Ok(Statement::Allocate(name, extents))
        }
        Err(stop) => Err(stop),
    }
}

// A DEALLOCATE (section 6.3.3).
#[tactic(auto, using(crate::proofs::ArrayLaws::deallocations))]
fn deallocate(tokens: &[Token]) -> Result<Statement, Stop>
    ensures { ReadsStatement is_deallocate (words_of tokens.now) result }
{
    let Some(rest) = after_head_keyword(b"DEALLOCATE", tokens) else {
        return Err(Stop::Syntax);
    };
    match closed_name(rest) {
        Some(name) => Ok(Statement::Deallocate(name)),
        None => Err(Stop::Syntax),
    }
}

// The statements on arrays that may not stand in a logical IF.
fn array_statement(alloc: Global, tokens: &[Token]) -> Result<Statement, Stop>
    ensures { ReadsStatement is_array_statement (words_of tokens.now) result }
{
    first_read!(
        where_statement(alloc, tokens),
        allocate(alloc, tokens),
        deallocate(tokens)
    )
}

// A statement that may stand in a logical IF.
fn act(alloc: Global, tokens: &[Token]) -> Result<Statement, Stop>
    ensures { ReadsStatement is_action (words_of tokens.now) result }
{
    match action(alloc, tokens) {
        Ok(action) => Ok(Statement::Act(action)),
        Err(stop) => Err(stop),
    }
}

// Any statement.
fn statement(alloc: Global, tokens: &[Token]) -> Result<Statement, Stop>
    ensures { ReadsStatement is_any (words_of tokens.now) result }
{
    first_read!(
        outer(alloc, tokens),
        block(alloc, tokens),
        array_statement(alloc, tokens),
        act(alloc, tokens)
    )
}

impl Statement {
    /// The words as a statement.
    #[tactic(auto, using(crate::proofs::GroupLaws::whole))]
    pub fn read(alloc: Global, tokens: &[Token]) -> Result<Statement, Stop>
        // What is read is a statement.
        ensures found { IfOk result (λ statement. IsStatement (words_of tokens.now) statement) }
        // A statement is read, in one way alone.
        ensures only { (f : Form90) → IsWritten90 f (words_of tokens.now)
            → Given result (λ statement. IsStatementOf statement f) }
    {
        statement(alloc, tokens)
    }
}
