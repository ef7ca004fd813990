//! The form of a statement.
ghost use Rattle.std.specs.Prelude.{◌≡◌, ℕ, ◌++◌, ◌||◌, max, Bool, Some, None, List, IfOk, IfSome, codes};
ghost use Rattle.std.specs.List.{list_any};
ghost use Rattle.tree.specs.View.{expression_of};
ghost use Rattle.f77_grammar.specs.expressions.Phrases.{Phrase77};
ghost use Rattle.f77_grammar.specs.expressions.Words.{is_wide_word};
ghost use Rattle.f77_grammar.specs.expressions.Spelling.{value, chars77};
ghost use Rattle.f77_grammar.specs.expressions.Squeezing as squeezing;
ghost use Rattle.f77_grammar.specs.statements.Forms.{Form77, Assign, Do, PlainDo, Test, IsWritten77, IsInner77};
ghost use Rattle.f77_grammar.specs.statements.Forms.{IsLabel77, optional_comma};
ghost use Rattle.f77_grammar.specs.statements.Controls.{Control, written_control};
ghost use Rattle.f77_grammar.specs.statements.Recognition.{BeginsWithLetter};
ghost use Rattle.f77_expressions.specs.Symbols.{symbols_of};
ghost use Rattle.f77_words.specs.keywords.Kinds.{HasKeyword};
ghost use Rattle.f77_grammar.specs.syntax.Views as view;
ghost use Rattle.f77_statement.specs.Actions.{IsConditionOf};
ghost use Rattle.f77_statement.specs.Conditions.{IsBehindIf};
ghost use Rattle.f77_statement.specs.Formed.{IsFound};
ghost use Rattle.f77_statement.specs.Keywords.{IsAfter};
ghost use Rattle.f77_statement.specs.Kinds.{is_inner, IsUnconditional};
ghost use Rattle.f77_statement.specs.Loops.{IsFront, GivesFront};
ghost use Rattle.f77_words.specs.lists.Reading.{IsControlOf};
ghost use Rattle.f77_statement.specs.Parts.{Given, IsFormedOf};

use crate::actions::{
    condition, else_if, go_to, nothing, print_list, read_list, read_unit, write_unit,
};
use crate::assignments::assignment;
use crate::formed::Formed;
use crate::keywords::Keyword;
use crate::statements::{constants, declaration, dimension, program};
use f77_expressions::{Symbol, has_wide, strip, words};
use f77_grammar::syntax::Stmt77;
use f77_words::keywords::{Outside, behind_comma, conditional, is_then, label};
use f77_words::lists::{DoControl, whole_control};
use reading::Stop;
use std::alloc::Global;
use tree::{Expr, Kind};

// Whether the statement may be the inner one of a logical IF.
#[tactic(auto, using(f77_grammar::proofs::syntax::Equations::statement_equations))]
fn is_inner(statement: &Stmt77) -> bool
    ensures { result ≡ is_inner (view.statement_of statement.now) }
{
    match statement {
        Stmt77::Assign(_, _) => true,
        Stmt77::Go(_) => true,
        Stmt77::Continue => true,
        Stmt77::Stop => true,
        Stmt77::Read(_) => true,
        Stmt77::Print(_) => true,
        Stmt77::Program(_) => false,
        Stmt77::ImplicitNone => false,
        Stmt77::Declare(_, _) => false,
        Stmt77::Dimension(_) => false,
        Stmt77::Constants(_) => false,
        Stmt77::Test(_, _) => false,
        Stmt77::If(_) => false,
        Stmt77::ElseIf(_) => false,
        Stmt77::Else => false,
        Stmt77::EndIf => false,
        Stmt77::Do(_, _, _, _, _) => false,
        Stmt77::EndDo => false,
        Stmt77::End => false,
    }
}

// A text with an equals sign outside parentheses, and no comma outside them behind it.
fn assignment_statement(alloc: Global, text: &[Symbol]) -> Result<Formed, Stop>
    ensures found { IfOk result (IsFound (λ f. IsWritten77 f (symbols_of text.now))) }
    ensures only { (l r : Phrase77) → IsWritten77 (Assign l r) (symbols_of text.now)
        → Given result (λ made. IsFormedOf made (Assign l r)) }
{
    let tokens = words(alloc, text)?;
    assignment(alloc, tokens.as_slice())
}

// The label of a DO, if there is one, and what follows it and its comma.
fn loop_front(text: &[Symbol]) -> Option<(Option<u32>, &[Symbol])>
    ensures found { IfSome result (λ r. IsFront (symbols_of text.now) r.0 (symbols_of r.1.now)) }
    ensures only { (digits : List ℕ) (comma : Bool) (rest : List squeezing.Symbol77) → IsLabel77 digits
        → BeginsWithLetter rest
        → symbols_of text.now ≡ chars77 (codes "DO" ++ (digits ++ optional_comma comma)) ++ rest
        → GivesFront result (Some (value digits)) rest }
    ensures only_plain { (rest : List squeezing.Symbol77) → BeginsWithLetter rest
        → symbols_of text.now ≡ chars77 (codes "DO") ++ rest → GivesFront result None rest }
{
    let rest = strip(b"DO", text)?;
    match label(rest) {
        Some((number, behind)) => Some((Some(number), behind_comma(behind))),
        None => Some((None, rest)),
    }
}

fn loop_statement(label: Option<u32>, control: DoControl, wide: bool) -> Formed
    ensures labelled { (digits : List ℕ) (comma : Bool) (c : Control) → label ≡ Some (value digits)
        → IsControlOf control c → wide ≡ list_any is_wide_word (written_control c)
        → IsFormedOf result (Do digits comma c) }
    ensures plain { (c : Control) → label ≡ None → IsControlOf control c
        → wide ≡ list_any is_wide_word (written_control c) → IsFormedOf result (PlainDo c) }
{
    let DoControl {
        variable,
        first,
        last,
        step,
        depth,
    } = control;
    Formed {
        statement: Stmt77::Do(label, variable, first, last, step),
        wide,
        depth,
    }
}

// A text with an equals sign outside parentheses, and a comma outside them behind it.
fn do_statement(alloc: Global, text: &[Symbol]) -> Result<Formed, Stop>
    ensures found { IfOk result (IsFound (λ f. IsWritten77 f (symbols_of text.now))) }
    ensures only { (digits : List ℕ) (comma : Bool) (c : Control)
        → IsWritten77 (Do digits comma c) (symbols_of text.now)
        → Given result (λ made. IsFormedOf made (Do digits comma c)) }
    ensures only_plain { (c : Control) → IsWritten77 (PlainDo c) (symbols_of text.now)
        → Given result (λ made. IsFormedOf made (PlainDo c)) }
{
    let Some((label, rest)) = loop_front(text) else {
        return Err(Stop::Syntax);
    };
    let tokens = words(alloc, rest)?;
    let control = whole_control(alloc, tokens.as_slice())?;
    Ok(loop_statement(label, control, has_wide(tokens.as_slice())))
}

// The statement of a keyword, by what follows it.
fn behind_keyword(alloc: Global, keyword: Keyword, rest: &[Symbol]) -> Result<Formed, Stop>
    ensures found { IfOk result (IsFound (IsAfter keyword (symbols_of rest.now))) }
    ensures only { (f : Form77) → IsAfter keyword (symbols_of rest.now) f → Given result (λ made. IsFormedOf made f) }
{
    match keyword {
        Keyword::Program => program(alloc, rest),
        Keyword::ImplicitNone => nothing(Stmt77::ImplicitNone, rest),
        Keyword::Integer => declaration(alloc, Kind::Integer, rest),
        Keyword::Logical => declaration(alloc, Kind::Logical, rest),
        Keyword::Dimension => dimension(alloc, rest),
        Keyword::Parameter => constants(alloc, rest),
        Keyword::GoTo => go_to(rest),
        Keyword::ElseIf => else_if(alloc, rest),
        Keyword::Else => nothing(Stmt77::Else, rest),
        Keyword::EndIf => nothing(Stmt77::EndIf, rest),
        Keyword::EndDo => nothing(Stmt77::EndDo, rest),
        Keyword::Continue => nothing(Stmt77::Continue, rest),
        Keyword::Stop => nothing(Stmt77::Stop, rest),
        Keyword::End => nothing(Stmt77::End, rest),
        Keyword::ReadUnit => read_unit(alloc, rest),
        Keyword::ReadList => read_list(alloc, rest),
        Keyword::WriteUnit => write_unit(alloc, rest),
        Keyword::PrintList => print_list(alloc, rest),
    }
}

// A text without an equals sign outside parentheses.
fn keyword_statement(alloc: Global, text: &[Symbol]) -> Result<Formed, Stop>
    ensures found { IfOk result (IsFound (λ f. IsWritten77 f (symbols_of text.now))) }
    ensures only { (f : Form77) → HasKeyword f → IsWritten77 f (symbols_of text.now)
        → Given result (λ made. IsFormedOf made f) }
{
    match Keyword::at(text) {
        Some((keyword, rest)) => behind_keyword(alloc, keyword, rest),
        None => Err(Stop::Syntax),
    }
}

// A text that begins with no condition.
fn unconditional(alloc: Global, text: &[Symbol]) -> Result<Formed, Stop>
    ensures found { IfOk result (IsFound (λ f. IsWritten77 f (symbols_of text.now))) }
    ensures only { (f : Form77) → IsUnconditional (symbols_of text.now) f → Given result (λ made. IsFormedOf made f) }
{
    let outside = Outside::of(text);
    if !outside.equals {
        keyword_statement(alloc, text)
    } else if outside.comma {
        do_statement(alloc, text)
    } else {
        assignment_statement(alloc, text)
    }
}

// The inner statement of a logical IF (section 11.5).
fn inner(alloc: Global, text: &[Symbol]) -> Result<Formed, Stop>
    ensures found { IfOk result (IsFound (λ f. IsWritten77 f (symbols_of text.now) × IsInner77 f)) }
    ensures only { (f : Form77) → IsWritten77 f (symbols_of text.now) → IsInner77 f
        → Given result (λ made. IsFormedOf made f) }
{
    let made = unconditional(alloc, text)?;
    if !is_inner(&made.statement) {
        return Err(Stop::Syntax);
    }
    Ok(made)
}

// A logical IF of a condition, with its depth and whether a literal of it is wide, and of an inner statement.
fn test(
    alloc: Global,
    condition: Expr,
    depth: u16,
    wide: bool,
    inner: Formed,
) -> Result<Formed, Stop>
    ensures { (p : Phrase77) (f : Form77) → IsConditionOf (expression_of condition) depth wide p → IsFormedOf inner f
        → Given result (λ made. IsFormedOf made (Test p f)) }
{
    let depth = depth.max(inner.depth);
    let wide = wide || inner.wide;
    let inner = Box::new(alloc, inner.statement)?;
    Ok(Formed {
        statement: Stmt77::Test(condition, inner),
        wide,
        depth,
    })
}

// A block IF or a logical IF, by its condition and what follows that.
fn if_statement(alloc: Global, inside: &[Symbol], rest: &[Symbol]) -> Result<Formed, Stop>
    ensures found { IfOk result (IsFound (IsBehindIf (symbols_of inside.now) (symbols_of rest.now))) }
    ensures only { (f : Form77) → IsBehindIf (symbols_of inside.now) (symbols_of rest.now) f
        → Given result (λ made. IsFormedOf made f) }
{
    let (tree, depth, wide) = condition(alloc, inside)?;
    if is_then(rest) {
        return Ok(Formed {
            statement: Stmt77::If(tree),
            wide,
            depth,
        });
    }
    let inner = inner(alloc, rest)?;
    test(alloc, tree, depth, wide, inner)
}

/// The statement that the text is.
pub(crate) fn form(alloc: Global, text: &[Symbol]) -> Result<Formed, Stop>
    ensures found { IfOk result (IsFound (λ f. IsWritten77 f (symbols_of text.now))) }
    ensures only { (f : Form77) → IsWritten77 f (symbols_of text.now) → Given result (λ made. IsFormedOf made f) }
{
    match conditional(text) {
        Some((inside, rest)) => if_statement(alloc, inside, rest),
        None => unconditional(alloc, text),
    }
}
