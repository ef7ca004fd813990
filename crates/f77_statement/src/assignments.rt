//! Assignments.
ghost use Rattle.std.specs.Prelude.{◌≡◌, ℕ, List, ◌∷◌, ◌++◌, IfOk};
ghost use Rattle.f77_grammar.specs.expressions.Phrases.{Phrase77, IsExpression77, written77};
ghost use Rattle.f77_grammar.specs.expressions.Words as words;
ghost use Rattle.f77_grammar.specs.statements.Items.{IsReference77};
ghost use Rattle.f77_grammar.specs.statements.Forms.{Assign};
ghost use Rattle.f77_expressions.specs.Reading.{Ends};
ghost use Rattle.f77_expressions.specs.Views.{words_of};
ghost use Rattle.tree.specs.Plain.{Named, Subscripts};
ghost use Rattle.tree.specs.View.{expression_of, reference_of};
ghost use Rattle.f77_statement.specs.Parts.{IsItem, Given, BeginsWithReference, IsReferenceOf, IsAssignment};
ghost use Rattle.f77_statement.specs.Parts.{IsFormedOf};

use crate::formed::Formed;
use f77_expressions::{Operand, Token, after_equals, begins_with_name, has_wide, read, whole};
use f77_grammar::syntax::Stmt77;
use reading::Stop;
use std::alloc::Global;
use tree::{Expr, Ref};

// An operand that is a name, or a name with a list, with its depth.
#[tactic(auto, using(crate::proofs::ReferenceLaws::items))]
fn item(operand: Operand) -> Result<(Ref, u16), Stop>
    ensures found { IfOk result (λ r. IsItem (expression_of operand.tree) (reference_of r.0) × (r.1 ≡ operand.depth)) }
    ensures only { (x : List ℕ) (ss : Subscripts) → expression_of operand.tree ≡ Named x ss
        → Given result (λ r. IsItem (expression_of operand.tree) (reference_of r.0) × (r.1 ≡ operand.depth)) }
{
    let Operand { depth, tree, .. } = operand;
    match tree {
        Expr::Item(item) => Ok((item, depth)),
        Expr::Int(_) => Err(Stop::Syntax),
        Expr::Truth(_) => Err(Stop::Syntax),
        Expr::Un(_, _) => Err(Stop::Syntax),
        Expr::Bin(_, _, _) => Err(Stop::Syntax),
        Expr::Call(_, _) => Err(Stop::Syntax),
        Expr::List(..) => Err(Stop::Syntax),
        Expr::Spread(..) => Err(Stop::Syntax),
        Expr::Transpose(_) => Err(Stop::Syntax),
        Expr::Reshape(..) => Err(Stop::Syntax),
        Expr::Reduce(..) => Err(Stop::Syntax),
    }
}

/// The reference at the front of the words, with its depth, and what follows it.
#[tactic(auto, using(crate::proofs::ReferenceLaws::references))]
pub(crate) fn reference(alloc: Global, tokens: &[Token]) -> Result<(Ref, u16, &[Token]), Stop>
    ensures found { IfOk result (λ r. BeginsWithReference (words_of tokens.now) r.0 r.1 (words_of r.2.now)) }
    ensures only { (l : Phrase77) (rest : List words.Word77) → IsReference77 l → IsExpression77 l → Ends rest
        → words_of tokens.now ≡ written77 l ++ rest
        → Given result (λ r. IsReferenceOf r.0 r.1 l × (words_of r.2.now ≡ rest)) }
{
    if !begins_with_name(tokens) {
        return Err(Stop::Syntax);
    }
    let (operand, rest) = read(alloc, tokens)?;
    let (item, depth) = item(operand)?;
    Ok((item, depth, rest))
}

/// All words as an assignment (section 10).
pub(crate) fn assignment(alloc: Global, tokens: &[Token]) -> Result<Formed, Stop>
    ensures found { IfOk result (λ made. IsAssignment (words_of tokens.now) made) }
    ensures only { (l r : Phrase77) → IsReference77 l → IsExpression77 l → IsExpression77 r
        → words_of tokens.now ≡ written77 l ++ (words.Equals ∷ written77 r)
        → Given result (λ made. IsFormedOf made (Assign l r)) }
{
    let (left, depth, rest) = reference(alloc, tokens)?;
    let Some(rest) = after_equals(rest) else {
        return Err(Stop::Syntax);
    };
    let right = whole(alloc, rest)?;
    Ok(Formed {
        statement: Stmt77::Assign(left, right.tree),
        wide: has_wide(tokens),
        depth: depth.max(right.depth),
    })
}
