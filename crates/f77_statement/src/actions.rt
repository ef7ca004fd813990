//! Jumps, conditions, reading and printing, and the statements that are nothing but their keyword, behind it.
ghost use Rattle.std.specs.Prelude.{◌≡◌, ◌↔◌, IsTrue, [], IfOk, codes};
ghost use Rattle.tree.specs.View.{expression_of};
ghost use Rattle.f77_grammar.specs.expressions.Phrases.{Phrase77, IsExpression77, written77};
ghost use Rattle.f77_grammar.specs.expressions.Spelling.{AreWords77, chars77};
ghost use Rattle.f77_grammar.specs.statements.Forms as forms;
ghost use Rattle.f77_grammar.specs.statements.Forms.{Form77, statement_of, form_words, form_depth};
ghost use Rattle.f77_grammar.specs.syntax.Views as view;
ghost use Rattle.f77_expressions.specs.Symbols.{symbols_of};
ghost use Rattle.f77_statement.specs.declared.keywords.Keyword.TheVariants as keywords;
ghost use Rattle.f77_statement.specs.Actions.{IsCondition, IsConditionOf};
ghost use Rattle.f77_statement.specs.Formed.{IsFound};
ghost use Rattle.f77_statement.specs.Keywords.{IsAfter, IsGoToAfter, IsElseIfAfter, IsNothingAfter, IsReadAfter};
ghost use Rattle.f77_statement.specs.Keywords.{IsPrintAfter};
ghost use Rattle.f77_statement.specs.Parts.{Given, IsFormedOf};

use crate::formed::Formed;
use f77_expressions::{Symbol, has_wide, strip, whole, words};
use f77_grammar::syntax::Stmt77;
use f77_words::keywords::{cut_at_close, is_then, label};
use f77_words::lists::{read_inputs, read_items};
use reading::Stop;
use std::alloc::Global;
use tree::{Expr, Seq};

/// A label as that of a GO TO (section 11.1).
pub(crate) fn go_to(text: &[Symbol]) -> Result<Formed, Stop>
    ensures found { IfOk result (IsFound (IsGoToAfter (symbols_of text.now))) }
    ensures only { (f : Form77) → IsGoToAfter (symbols_of text.now) f → Given result (λ made. IsFormedOf made f) }
{
    let Some((number, rest)) = label(text) else {
        return Err(Stop::Syntax);
    };
    if !rest.is_empty() {
        return Err(Stop::Syntax);
    }
    Ok(Formed::bare(Stmt77::Go(number)))
}

/// The whole text as one expression, with its depth, which is counted up to the first that is too deep, and whether a
/// literal of it is above 2^127-1.
pub(crate) fn condition(alloc: Global, text: &[Symbol]) -> Result<(Expr, u16, bool), Stop>
    ensures found { IfOk result (λ r. IsCondition (symbols_of text.now) (expression_of r.0) r.1 r.2) }
    ensures only { (p : Phrase77) → IsExpression77 p → AreWords77 (symbols_of text.now) (written77 p)
        → Given result (λ r. IsConditionOf (expression_of r.0) r.1 r.2 p) }
{
    let tokens = words(alloc, text)?;
    let operand = whole(alloc, tokens.as_slice())?;
    let wide = has_wide(tokens.as_slice());
    Ok((operand.tree, operand.depth, wide))
}

/// A condition, a closing parenthesis and THEN, as those of an ELSE IF (section 11.7).
pub(crate) fn else_if(alloc: Global, text: &[Symbol]) -> Result<Formed, Stop>
    ensures found { IfOk result (IsFound (IsElseIfAfter (symbols_of text.now))) }
    ensures only { (f : Form77) → IsElseIfAfter (symbols_of text.now) f → Given result (λ made. IsFormedOf made f) }
{
    let Some((inside, behind)) = cut_at_close(text) else {
        return Err(Stop::Syntax);
    };
    if !is_then(behind) {
        return Err(Stop::Syntax);
    }
    let (tree, depth, wide) = condition(alloc, inside)?;
    Ok(Formed {
        statement: Stmt77::ElseIf(tree),
        wide,
        depth,
    })
}

/// The statement, where nothing stands behind its keyword.
pub(crate) fn nothing(statement: Stmt77, text: &[Symbol]) -> Result<Formed, Stop>
    ensures found { (g : Form77) → view.statement_of statement ≡ statement_of g → form_words g ≡ [] → form_depth g ≡ 0
        → IfOk result (IsFound (IsNothingAfter g (symbols_of text.now))) }
    ensures only { (g f : Form77) → view.statement_of statement ≡ statement_of g → form_words g ≡ [] → form_depth g ≡ 0
        → IsNothingAfter g (symbols_of text.now) f
        → Given result (λ made. IsFormedOf made f) }
{
    if !text.is_empty() {
        return Err(Stop::Syntax);
    }
    Ok(Formed::bare(statement))
}

// A READ without a list.
fn no_inputs(alloc: Global) -> Formed
    ensures { IsFormedOf result forms.ReadNothing }
{
    Formed::bare(Stmt77::Read(Seq::new(alloc)))
}

// A PRINT without a list.
fn no_items(alloc: Global) -> Formed
    ensures { IsFormedOf result forms.PrintNothing }
{
    Formed::bare(Stmt77::Print(Seq::new(alloc)))
}

// The whole text as the list of a READ.
#[tactic(auto, using(crate::proofs::ActionLaws::reads))]
fn inputs(alloc: Global, text: &[Symbol]) -> Result<Formed, Stop>
    ensures found { IfOk result (IsFound (IsReadAfter (symbols_of text.now))) }
    ensures only { (f : Form77) → IsReadAfter (symbols_of text.now) f → Given result (λ made. IsFormedOf made f) }
{
    let tokens = words(alloc, text)?;
    let list = read_inputs(alloc, tokens.as_slice())?;
    Ok(Formed {
        statement: Stmt77::Read(list.items),
        wide: has_wide(tokens.as_slice()),
        depth: list.depth,
    })
}

// The whole text as the list of a PRINT.
#[tactic(auto, using(crate::proofs::ActionLaws::prints))]
fn items(alloc: Global, text: &[Symbol]) -> Result<Formed, Stop>
    ensures found { IfOk result (IsFound (IsPrintAfter (symbols_of text.now))) }
    ensures only { (f : Form77) → IsPrintAfter (symbols_of text.now) f → Given result (λ made. IsFormedOf made f) }
{
    let tokens = words(alloc, text)?;
    let list = read_items(alloc, tokens.as_slice())?;
    Ok(Formed {
        statement: Stmt77::Print(list.items),
        wide: has_wide(tokens.as_slice()),
        depth: list.depth,
    })
}

/// What stands behind READ(*,*): a list or nothing (section 12.8).
pub(crate) fn read_unit(alloc: Global, text: &[Symbol]) -> Result<Formed, Stop>
    ensures found { IfOk result (IsFound (IsAfter keywords.ReadUnit (symbols_of text.now))) }
    ensures only { (f : Form77) → IsAfter keywords.ReadUnit (symbols_of text.now) f
        → Given result (λ made. IsFormedOf made f) }
{
    if text.is_empty() {
        return Ok(no_inputs(alloc));
    }
    inputs(alloc, text)
}

/// What stands behind READ*: a comma and a list, or nothing.
pub(crate) fn read_list(alloc: Global, text: &[Symbol]) -> Result<Formed, Stop>
    ensures found { IfOk result (IsFound (IsAfter keywords.ReadList (symbols_of text.now))) }
    ensures only { (f : Form77) → IsAfter keywords.ReadList (symbols_of text.now) f
        → Given result (λ made. IsFormedOf made f) }
{
    if text.is_empty() {
        return Ok(no_inputs(alloc));
    }
    let Some(list) = strip(b",", text) else {
        return Err(Stop::Syntax);
    };
    inputs(alloc, list)
}

/// What stands behind WRITE(*,*): a list or nothing.
pub(crate) fn write_unit(alloc: Global, text: &[Symbol]) -> Result<Formed, Stop>
    ensures found { IfOk result (IsFound (IsAfter keywords.WriteUnit (symbols_of text.now))) }
    ensures only { (f : Form77) → IsAfter keywords.WriteUnit (symbols_of text.now) f
        → Given result (λ made. IsFormedOf made f) }
{
    if text.is_empty() {
        return Ok(no_items(alloc));
    }
    items(alloc, text)
}

/// What stands behind PRINT*: a comma and a list, or nothing.
pub(crate) fn print_list(alloc: Global, text: &[Symbol]) -> Result<Formed, Stop>
    ensures found { IfOk result (IsFound (IsAfter keywords.PrintList (symbols_of text.now))) }
    ensures only { (f : Form77) → IsAfter keywords.PrintList (symbols_of text.now) f
        → Given result (λ made. IsFormedOf made f) }
{
    if text.is_empty() {
        return Ok(no_items(alloc));
    }
    let Some(list) = strip(b",", text) else {
        return Err(Stop::Syntax);
    };
    items(alloc, list)
}
